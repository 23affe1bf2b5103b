//! A point, and the points of a document.

ghost use Rattle.std.specs.Prelude.{◌≡◌, ◌+◌, ◌*◌, ◌≤◌, ◌<◌, ◌∷◌, [], length, List, ℤ, map, ◌-ℤ◌};
ghost use Rattle.point_codec.specs.Points.{square};

use std::marker::Model;

/// A point of `D` coordinates, each a whole number of 32 bits. `D` is 1 to 8.
#[derive(Clone, Copy, PartialEq, Eq, PartialOrd, Ord, Debug)]
pub struct Point<const D: usize> {
    /// The coordinates, dimension 0 first.
    pub c: [i32; D],
    pub ghost low: { 1 ≤ D },
    pub ghost high: { D ≤ 8 },
}

impl<const D: usize> Point<D> {
    ghost use Rattle.point_codec.specs.Points.{dist2};

    #[tactic(auto, using(crate::proofs::Distances::dist2_dropped))]
    /// The sum of the squared differences of the coordinates. It is below 2^67.
    pub fn dist2(&self, other: &Point<D>) -> u128
        ensures { result ≡ dist2 self.now.c other.now.c }
    {
        let mut sum = 0;
        for i in 0..D {
            sum += u128::from(squared_gap(&self.c[i], &other.c[i]));
        }
        sum
    }
}

/// The square of the difference of two coordinates.
pub(crate) fn squared_gap(a: &i32, b: &i32) -> u64
    ensures { result ≡ square (a.now -ℤ b.now) }
{
    let apart = u64::from(a.abs_diff(*b));
    apart * apart
}

/// The points of a document: 1 to 16 different ones, ascending by their coordinates in order.
#[derive(Drop)]
pub struct Points<const D: usize> {
    list: Vec<Point<D>>,
}

impl<const D: usize> Model for Points<D> {
    ghost use Rattle.std.specs.Prelude.{List, ℤ, map};
    ghost use Rattle.point_codec.specs.Points.{ArePoints};

    ghost Value = { List (List ℤ) };

    ghost view = { λ a. map (λ p. p.c) a.list.items };

    ghost invariant = { λ a. ArePoints (map (λ p. p.c) a.list.items) };
}

impl<const D: usize> Points<D> {
    ghost use Rattle.point_codec.specs.Points.{ArePoints, ordered_points};
    ghost use Rattle.point_codec.specs.Seen.{coordinates_of};

    /// The different ones among 1 to 16 points, in ascending order of their coordinates.
    pub fn of(list: Vec<Point<D>>) -> Points<D>
        requires some { 1 ≤ length list.items }
        requires few { length list.items ≤ 16 }
        ensures { result ≡ ordered_points (coordinates_of list.entry.items) }
    {
        let mut list = list;
        list.sort_unstable();
        list.dedup();
        Points { list }
    }

    /// Makes it this one point alone. It takes no memory: the room of a point is there.
    pub fn set_one(&mut self, point: &Point<D>)
        ensures { self.new ≡ point.now.c ∷ [] }
    {
        self.list.clear();
        self.list.push_reserved(*point);
    }

    /// The points, in ascending order.
    pub fn as_slice(&self) -> &[Point<D>]
        ensures value { coordinates_of result.now ≡ self.now }
        ensures points { ArePoints self.now }
    {
        self.list.as_slice()
    }
}
