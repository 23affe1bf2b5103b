//! Rings, and all their edges beside a point or a cell.

ghost use Rattle.std.specs.Prelude.{◌≡◌, ◌↔◌, ◌-◌, ◌^◌, ◌<◌, ◌≤◌, min, ℤ, List, length, sum_by, All, true, IsTrue};
ghost use Rattle.std.specs.Prelude.{IsFalse, IsOk, IfOk, IfErr, IsNone, IfSome};
ghost use Rattle.point_codec.specs.Points.{in_box};
ghost use Rattle.point_codec.specs.Seen.{coordinates_of, region_of};
ghost use Rattle.ring_parity.specs.Faults.{IsFault};
ghost use Rattle.ring_parity.specs.Rings.{edges_of, all_edges, is_on_any, is_odd, any_meets, in_polygon, rings_cross};
ghost use Rattle.ring_parity.specs.Rings.{IsClosed, IsLinearRing, ArePolygon};

use crate::edges::{Edge, counts, misses, on_edge};
use point_codec::{Cell, Point};
use std::marker::Model;

/// The positions of a ring in order. It is closed where the last is the first again.
#[derive(Drop)]
pub struct Ring {
    at: Vec<Point<2>>,
}

impl Model for Ring {
    ghost use Rattle.std.specs.Prelude.{List, ℤ};
    ghost use Rattle.point_codec.specs.Seen.{coordinates_of};

    ghost Value = { List (List ℤ) };

    ghost view = { λ r. coordinates_of r.at.items };
}

impl Ring {
    /// The ring of these positions, whatever they are: `Rings::new` tells what a polygon asks of it.
    pub fn new(at: Vec<Point<2>>) -> Ring
        ensures { result ≡ coordinates_of at.items }
    {
        Ring { at }
    }

    /// All positions of the ring in their order.
    pub fn as_slice(&self) -> &[Point<2>]
        ensures { coordinates_of result.now ≡ self.now }
    {
        self.at.as_slice()
    }

    /// Takes the ring apart into its positions, in their order.
    pub fn into_vec(self) -> Vec<Point<2>>
        ensures { coordinates_of result.items ≡ self }
    {
        let Ring { at } = self;
        at
    }
}

/// Why rings are no polygon. Too many positions come first, then the first ring with a fault.
#[derive(PartialEq, Eq, Debug, Drop)]
pub enum RingFault {
    /// More than `Rings::MAX_POSITIONS` in all. A number above the greatest of 64 bits is told as that.
    TooMany { positions: u64 },
    /// A ring of fewer than four positions.
    TooFew { ring: u32 },
    /// A ring whose last position is not its first.
    NotClosed { ring: u32 },
}

/// A polygon: linear rings of at most 65,536 positions in all, the outer ring and the holes alike (RFC 7946, 3.1.6).
#[derive(Drop)]
pub struct Rings {
    list: Vec<Ring>,
}

impl Model for Rings {
    ghost use Rattle.std.specs.Prelude.{List, ℤ};
    ghost use Rattle.ring_parity.specs.Rings.{ArePolygon};

    ghost Value = { List (List (List ℤ)) };

    ghost view = { λ r. r.list.items };

    ghost invariant = { λ r. ArePolygon r.list.items };
}

impl Rings {
    /// The most positions of a polygon, over all its rings.
    pub const MAX_POSITIONS: u64 = 65_536;

    /// The polygon of these rings, or the first fault of them.
    pub fn new(list: Vec<Ring>) -> Result<Rings, RingFault>
        ensures accepted { IsOk result ↔ ArePolygon list.items }
        ensures value { IfOk result (λ rings. rings ≡ list.items) }
        ensures fault { IfErr result (IsFault list.items) }
    {
        let positions = count_positions(list.as_slice());
        if positions > Rings::MAX_POSITIONS {
            return Err(RingFault::TooMany { positions });
        }
        match first_fault(list.as_slice()) {
            Some(fault) => Err(fault),
            None => Ok(Rings { list }),
        }
    }

    /// All the rings in their order, which are those of a polygon (`ArePolygon`).
    pub fn as_slice(&self) -> &[Ring]
        ensures value { result.now ≡ self.now }
        ensures polygon { ArePolygon self.now }
    {
        self.list.as_slice()
    }

    /// Takes the polygon apart into its rings, in their order.
    pub fn into_vec(self) -> Vec<Ring>
        ensures { result.items ≡ self }
    {
        let Rings { list } = self;
        list
    }
}

/// The number of positions of all rings, or the greatest number of 64 bits where that is less.
fn count_positions(list: &[Ring]) -> u64
    ensures { result ≡ min (sum_by length list.now) (2 ^ 64 - 1) }
{
    let mut positions: u64 = 0;
    for ring in list {
        positions = positions.saturating_add(ring.as_slice().len() as u64);
    }
    positions
}

/// The first ring that is too short or open.
fn first_fault(list: &[Ring]) -> Option<RingFault>
    requires { sum_by length list.now ≤ 2 ^ 16 }
    ensures none { IsNone result → All IsLinearRing list.now }
    ensures some { IfSome result (IsFault list.now) }
{
    for (index, ring) in list.iter().enumerate() {
        let at = ring.as_slice();
        if at.len() < 4 {
            return Some(RingFault::TooFew { ring: index as u32 });
        }
        if !is_closed(at) {
            return Some(RingFault::NotClosed { ring: index as u32 });
        }
    }
    None
}

/// The last position is the first again.
fn is_closed(at: &[Point<2>]) -> bool
    requires { 0 < length at.now }
    ensures { IsTrue result ↔ IsClosed (coordinates_of at.now) }
{
    at[0] == at[at.len() - 1]
}

/// The point is on an edge of the rings, an end counted.
pub fn on_any(r: &Rings, p: &Point<2>) -> bool
    ensures { result ≡ is_on_any (all_edges r.now) p.now.c }
{
    for ring in r.as_slice() {
        if is_on_ring(ring.as_slice(), p) {
            return true;
        }
    }
    false
}

fn is_on_ring(at: &[Point<2>], p: &Point<2>) -> bool
    ensures { result ≡ is_on_any (edges_of (coordinates_of at.now)) p.now.c }
{
    for i in 1..at.len() {
        let edge = Edge {
            a: at[i - 1],
            b: at[i],
        };
        if on_edge(&edge, p) {
            return true;
        }
    }
    false
}

/// An odd number of the edges counts for the point.
pub fn odd(r: &Rings, p: &Point<2>) -> bool
    ensures { result ≡ is_odd (all_edges r.now) p.now.c }
{
    let mut odd = false;
    for ring in r.as_slice() {
        odd = odd != is_odd_ring(ring.as_slice(), p);
    }
    odd
}

fn is_odd_ring(at: &[Point<2>], p: &Point<2>) -> bool
    ensures { result ≡ is_odd (edges_of (coordinates_of at.now)) p.now.c }
{
    let mut odd = false;
    for i in 1..at.len() {
        let edge = Edge {
            a: at[i - 1],
            b: at[i],
        };
        odd = odd != counts(&edge, p);
    }
    odd
}

/// Some edge does not miss the cell. Where none meets it, the polygon has all points of the cell or none of them, so
/// that one point tells of all.
pub fn any_meets(r: &Rings, c: &Cell<2>) -> bool
    ensures told { result ≡ rings_cross r.now (region_of c.now) }
    ensures one_answer { IsFalse result → (p q : List ℤ) → in_box (region_of c.now) p ≡ true
        → in_box (region_of c.now) q ≡ true
        → in_polygon r.now p ≡ in_polygon r.now q }
{
    for ring in r.as_slice() {
        if meets_ring(ring.as_slice(), c) {
            return true;
        }
    }
    false
}

fn meets_ring(at: &[Point<2>], c: &Cell<2>) -> bool
    ensures { result ≡ any_meets (edges_of (coordinates_of at.now)) (region_of c.now) }
{
    for i in 1..at.len() {
        let edge = Edge {
            a: at[i - 1],
            b: at[i],
        };
        if !misses(&edge, c) {
            return true;
        }
    }
    false
}
