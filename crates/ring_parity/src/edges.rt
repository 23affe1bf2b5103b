//! One edge beside a point or a cell.

ghost use Rattle.std.specs.Prelude.{◌≡◌, ◌≤◌, ◌^◌, ◌-ℤ◌, ◌*ℤ◌, pos, int_lt, ◌&&◌, ◌||◌, unsigned_abs};
ghost use Rattle.std.specs.List.{list_all};
ghost use Rattle.std.specs.Bool.{beq};
ghost use Rattle.std.specs.Ordering.{int_eq};
ghost use Rattle.point_codec.specs.Seen.{region_of};
ghost use Rattle.ring_parity.specs.Edges.{side, on, counts, misses, is_above, is_left, is_right, are_beyond};
ghost use Rattle.ring_parity.specs.Edges.{corners, is_disjoint};
ghost use Rattle.ring_parity.specs.Seen.{ends_of};

use point_codec::{Cell, Point};

/// The straight line from one position of a ring to the next.
#[derive(Clone, Copy, PartialEq, Eq, Debug)]
pub struct Edge {
    pub a: Point<2>,
    pub b: Point<2>,
}

/// How far the first coordinate is above the second.
fn difference(a: &i32, b: &i32) -> i128
    ensures value { result ≡ a.now -ℤ b.now }
    ensures small { unsigned_abs result ≤ 2 ^ 32 }
{
    *a as i128 - *b as i128
}

/// The product of two such differences, which has 65 bits.
fn product(a: &i32, b: &i32, c: &i32, d: &i32) -> i128
    ensures value { result ≡ (a.now -ℤ b.now) *ℤ (c.now -ℤ d.now) }
    ensures small { unsigned_abs result ≤ 2 ^ 64 }
{
    let first = difference(a, b);
    let second = difference(c, d);
    first * second
}

/// Twice the area of the triangle of an edge and a point, positive where the point is left of the edge.
fn side(e: &Edge, p: &Point<2>) -> i128
    ensures { result ≡ side (ends_of e.now) p.now.c }
{
    let across = product(&e.b.c[0], &e.a.c[0], &p.c[1], &e.a.c[1]);
    let along = product(&e.b.c[1], &e.a.c[1], &p.c[0], &e.a.c[0]);
    across - along
}

/// Both numbers are below the range from `low` to `high`, or both above it.
fn are_beyond(a: &i32, b: &i32, low: &i32, high: &i32) -> bool
    ensures { result ≡ are_beyond a.now b.now low.now high.now }
{
    (*a < *low && *b < *low) || (*high < *a && *high < *b)
}

/// The edge's bounding box and the box from `lo` to `hi` have no common point.
fn is_disjoint(e: &Edge, lo: &Point<2>, hi: &Point<2>) -> bool
    ensures { result ≡ is_disjoint (ends_of e.now) (record { lo = lo.now.c; hi = hi.now.c }) }
{
    are_beyond(&e.a.c[0], &e.b.c[0], &lo.c[0], &hi.c[0])
        || are_beyond(&e.a.c[1], &e.b.c[1], &lo.c[1], &hi.c[1])
}

/// The point is left of the edge's line, seen from its start to its end.
fn is_left(e: &Edge, p: &Point<2>) -> bool
    ensures { result ≡ is_left (ends_of e.now) p.now.c }
{
    side(e, p) > 0
}

/// The point is right of the edge's line.
fn is_right(e: &Edge, p: &Point<2>) -> bool
    ensures { result ≡ is_right (ends_of e.now) p.now.c }
{
    side(e, p) < 0
}

/// The point is on the edge's line.
fn is_in_line(e: &Edge, p: &Point<2>) -> bool
    ensures { result ≡ int_eq (side (ends_of e.now) p.now.c) (pos 0) }
{
    side(e, p) == 0
}

/// The point is on the edge, an end counted.
#[tactic(auto, unfolding(crate::specs::Edges::on))]
pub fn on_edge(e: &Edge, p: &Point<2>) -> bool
    ensures { result ≡ on (ends_of e.now) p.now.c }
{
    !is_disjoint(e, p, p) && is_in_line(e, p)
}

/// The edge counts for the point in the even-odd rule: it crosses the ray that runs from the point to the east. An
/// end at the point's own height is below it, so that a corner of a ring counts once where the ring passes the ray.
#[tactic(auto, unfolding(crate::specs::Edges::counts))]
pub fn counts(e: &Edge, p: &Point<2>) -> bool
    ensures { result ≡ counts (ends_of e.now) p.now.c }
{
    if e.a.c[1] > p.c[1] {
        e.b.c[1] <= p.c[1] && is_right(e, p)
    } else {
        e.b.c[1] > p.c[1] && is_left(e, p)
    }
}

/// Both ends of the edge are above the point, or none is.
fn is_level(e: &Edge, p: &Point<2>) -> bool
    ensures { result ≡ beq (is_above e.now.a.c p.now.c) (is_above e.now.b.c p.now.c) }
{
    (e.a.c[1] > p.c[1]) == (e.b.c[1] > p.c[1])
}

/// How a point lies beside one edge.
#[derive(Clone, Copy, Debug)]
pub struct Incidence {
    /// The point is on the edge, an end counted.
    pub on: bool,
    /// The edge counts for the point in the even-odd rule.
    pub counts: bool,
}

/// The same as `on_edge` and `counts`, at the cost of one of them.
pub fn incidence_of(e: &Edge, p: &Point<2>) -> Incidence
    ensures on { result.on ≡ on (ends_of e.now) p.now.c }
    ensures counts { result.counts ≡ counts (ends_of e.now) p.now.c }
{
    if is_level(e, p) {
        return Incidence {
            on: on_edge(e, p),
            counts: false,
        };
    }
    Incidence {
        on: is_in_line(e, p),
        counts: counts(e, p),
    }
}

/// Both of the first two numbers are less than both of the others.
fn are_less(a: &i128, b: &i128, c: &i128, d: &i128) -> bool
    ensures { result ≡ (int_lt a.now c.now && int_lt a.now d.now && int_lt b.now c.now && int_lt b.now d.now) }
{
    *a < *c && *a < *d && *b < *c && *b < *d
}

/// The corners of the cell lie strictly on one side of the edge's line.
fn are_corners_beside(e: &Edge, c: &Cell<2>) -> bool
    ensures { let ends = ends_of e.now in
        let cell = region_of c.now in
        result ≡ (list_all (is_left ends) (corners cell) || list_all (is_right ends) (corners cell)) }
{
    let south = product(&e.b.c[0], &e.a.c[0], &c.lo.c[1], &e.a.c[1]);
    let north = product(&e.b.c[0], &e.a.c[0], &c.hi.c[1], &e.a.c[1]);
    let west = product(&e.b.c[1], &e.a.c[1], &c.lo.c[0], &e.a.c[0]);
    let east = product(&e.b.c[1], &e.a.c[1], &c.hi.c[0], &e.a.c[0]);
    are_less(&west, &east, &south, &north) || are_less(&south, &north, &west, &east)
}

/// The edge misses the cell: their boxes have no common point, or the cell lies beside the edge's line.
#[tactic(auto, unfolding(crate::specs::Edges::misses))]
pub fn misses(e: &Edge, c: &Cell<2>) -> bool
    ensures { result ≡ misses (ends_of e.now) (region_of c.now) }
{
    is_disjoint(e, &c.lo, &c.hi) || are_corners_beside(e, c)
}
