//! The generator of drawn points: each draw is a product of the one before, modulo a prime.

use point_codec::Point;
use std::marker::Model;

const FACTOR: u64 = 48_271;

/// The prime 2^31 - 1, modulo which the draws are reckoned.
const MODULUS: u64 = 2_147_483_647;

/// How many values a coordinate has.
const VALUES: u32 = 200_001;

/// The greatest coordinate that is drawn; the least is as far below 0.
const GREATEST: i32 = 100_000;

/// How far a box reaches from its middle.
const REACH: i32 = 5_000;

/// A stream of drawn numbers. Contracts see it as its last draw, and before any as its seed.
#[derive(Debug, Drop)]
pub struct Draws {
    x: u32,
}

impl Model for Draws {
    ghost use Rattle.std.specs.Prelude.{ℕ};

    ghost Value = { ℕ };

    ghost view = { λ d. d.x };
}

impl Draws {
    ghost use Rattle.std.specs.Prelude.{◌≡◌, ◌≤◌, ◌<◌, ◌+◌, ◌*◌, ℕ, pos, negsuc, ◌≤ℤ◌};
    ghost use Rattle.drawn_points.specs.Draws.{next, draw, coordinate, point};
    ghost use Rattle.drawn_points.specs.Generated.{box_round};

    /// The draws of a seed.
    pub fn new(seed: u32) -> Draws
        ensures { result ≡ seed }
    {
        Draws { x: seed }
    }

    /// Makes the next draw, and answers it.
    fn draw(&mut self) -> u32
        ensures value { result ≡ next self.old }
        ensures after { self.new ≡ next self.old }
    {
        self.x = (FACTOR * u64::from(self.x) % MODULUS) as u32;
        self.x
    }

    /// The coordinate of the next draw, from -100,000 to 100,000.
    pub fn coordinate(&mut self) -> i32
        ensures value { result ≡ coordinate (next self.old) }
        ensures after { self.new ≡ next self.old }
        ensures range { (negsuc 99999 ≤ℤ result) × (result ≤ℤ pos 100000) }
    {
        (self.draw() % VALUES) as i32 - GREATEST
    }

    /// The next point, of two coordinates.
    pub fn point(&mut self) -> Point<2>
        ensures point { (seed i : ℕ) → self.old ≡ draw seed (2 * i) → result.c ≡ point seed i }
        ensures after { (seed i : ℕ) → self.old ≡ draw seed (2 * i) → self.new ≡ draw seed (2 * (i + 1)) }
    {
        let x = self.coordinate();
        let y = self.coordinate();
        Point { c: [x, y] }
    }

    /// The ends of the box round the next point: 5,000 from it in each direction.
    pub fn corners(&mut self) -> (Point<2>, Point<2>)
        ensures low { (seed i : ℕ) → self.old ≡ draw seed (2 * i) → result.0.c ≡ (box_round (point seed i)).lo }
        ensures high { (seed i : ℕ) → self.old ≡ draw seed (2 * i) → result.1.c ≡ (box_round (point seed i)).hi }
        ensures after { (seed i : ℕ) → self.old ≡ draw seed (2 * i) → self.new ≡ draw seed (2 * (i + 1)) }
    {
        let x = self.coordinate();
        let y = self.coordinate();
        let lo = Point {
            c: [x - REACH, y - REACH],
        };
        let hi = Point {
            c: [x + REACH, y + REACH],
        };
        (lo, hi)
    }
}
