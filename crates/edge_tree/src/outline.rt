//! What is known of a run of edges without looking at them.

ghost use Rattle.std.specs.Prelude.{◌≡◌, ℤ, false, List, [], ◌∷◌, ◌++◌, IfSome, not, int_lt};
ghost use Rattle.std.specs.Bool.{beq};
ghost use Rattle.ring_parity.specs.Edges.{EdgeEnds, x_of};
ghost use Rattle.ring_parity.specs.Seen.{ends_of};
ghost use Rattle.edge_tree.specs.Outlines.{IsBoxed, are_apart, is_apart, is_off_ray, climbs, Outlines, IsLocation};

use point_codec::{Cell, Point};
use ring_parity::Edge;

/// A box with sides along the axes.
#[derive(Clone, Copy, Debug)]
pub struct Bounds {
    pub west: i32,
    pub south: i32,
    pub east: i32,
    pub north: i32,
}

impl Bounds {
    /// The least box round an edge.
    pub fn of(e: &Edge) -> Bounds
        ensures { IsBoxed result (ends_of e.now) }
    {
        Bounds {
            west: e.a.c[0].min(e.b.c[0]),
            south: e.a.c[1].min(e.b.c[1]),
            east: e.a.c[0].max(e.b.c[0]),
            north: e.a.c[1].max(e.b.c[1]),
        }
    }

    /// The least box round two boxes.
    pub fn union(&self, other: &Bounds) -> Bounds
        ensures first { (e : EdgeEnds) → IsBoxed self.now e → IsBoxed result e }
        ensures second { (e : EdgeEnds) → IsBoxed other.now e → IsBoxed result e }
    {
        Bounds {
            west: self.west.min(other.west),
            south: self.south.min(other.south),
            east: self.east.max(other.east),
            north: self.north.max(other.north),
        }
    }

    /// The box and the one from `lo` to `hi` have no common point.
    pub fn is_apart(&self, lo: &Point<2>, hi: &Point<2>) -> bool
        ensures { result ≡ is_apart self.now (record { lo = lo.now.c; hi = hi.now.c }) }
    {
        are_apart(&self.west, &self.east, &lo.c[0], &hi.c[0])
            || are_apart(&self.south, &self.north, &lo.c[1], &hi.c[1])
    }

    /// The ray that runs from the point to the east does not come to the box.
    pub fn is_off_ray(&self, p: &Point<2>) -> bool
        ensures { result ≡ is_off_ray self.now p.now.c }
    {
        self.east < p.c[0] || are_apart(&self.south, &self.north, &p.c[1], &p.c[1])
    }

    /// The box lies in the cell.
    pub fn is_within(&self, c: &Cell<2>) -> bool {
        c.lo.c[0] <= self.west
            && c.lo.c[1] <= self.south
            && self.east <= c.hi.c[0]
            && self.north <= c.hi.c[1]
    }

    /// The box is east of the point.
    pub fn is_east_of(&self, p: &Point<2>) -> bool
        ensures { result ≡ int_lt (x_of p.now.c) self.now.west }
    {
        p.c[0] < self.west
    }
}

/// The ranges from `low` to `high` and from `from` to `to` have no common number.
fn are_apart(low: &i32, high: &i32, from: &i32, to: &i32) -> bool
    ensures { result ≡ are_apart low.now high.now from.now to.now }
{
    *high < *from || *to < *low
}

/// A way from one height to another.
#[derive(Clone, Copy, Debug)]
pub struct Climb {
    pub from: i32,
    pub to: i32,
}

impl Climb {
    /// One climb in place of two that have an end in common: it passes a height where exactly one of them does. None
    /// where no single climb is seen to do so.
    pub fn then(&self, next: &Climb) -> Option<Climb>
        ensures { IfSome result
            (λ climb. (y : ℤ) → climbs climb y ≡ not (beq (climbs self.now y) (climbs next.now y))) }
    {
        if self.to == next.from {
            Some(Climb {
                from: self.from,
                to: next.to,
            })
        } else if self.from == next.to {
            Some(Climb {
                from: next.from,
                to: self.to,
            })
        } else if self.from == next.from {
            Some(Climb {
                from: self.to,
                to: next.to,
            })
        } else if self.to == next.to {
            Some(Climb {
                from: self.from,
                to: next.from,
            })
        } else if self.from == self.to {
            Some(*next)
        } else if next.from == next.to {
            Some(*self)
        } else {
            None
        }
    }

    /// Exactly one of the two heights is above this one.
    pub fn passes(&self, height: &i32) -> bool
        ensures { result ≡ climbs self.now height.now }
    {
        (self.from > *height) != (self.to > *height)
    }
}

/// What is known of a run of edges.
#[derive(Clone, Copy, Debug)]
pub struct Outline {
    pub bounds: Bounds,
    /// Each height is passed by an odd number of the edges where this climb passes it.
    pub climb: Option<Climb>,
}

impl Outline {
    pub fn of(e: &Edge) -> Outline
        ensures { Outlines (ends_of e.now ∷ []) result }
    {
        Outline {
            bounds: Bounds::of(e),
            climb: Some(Climb {
                from: e.a.c[1],
                to: e.b.c[1],
            }),
        }
    }

    /// The outline of a run that one more follows.
    pub fn join(&self, next: &Outline) -> Outline
        ensures { (xs ys : List EdgeEnds) → Outlines xs self.now → Outlines ys next.now → Outlines (xs ++ ys) result }
    {
        let climb = match (&self.climb, &next.climb) {
            (Some(first), Some(second)) => first.then(second),
            _ => None,
        };
        Outline {
            bounds: self.bounds.union(&next.bounds),
            climb,
        }
    }

    /// Whether an odd number of the edges counts for the point, where the outline tells. The point is on no edge then.
    pub fn parity(&self, p: &Point<2>) -> Option<bool>
        ensures { IfSome result
            (λ odd. (run : List EdgeEnds) → Outlines run self.now → IsLocation run p.now.c false odd) }
    {
        if self.bounds.is_off_ray(p) {
            return Some(false);
        }
        if !self.bounds.is_east_of(p) {
            return None;
        }
        match &self.climb {
            Some(climb) => Some(climb.passes(&p.c[1])),
            None => None,
        }
    }
}
