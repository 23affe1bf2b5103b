//! The nearest numbers among the entries seen so far.

ghost use Rattle.std.specs.Prelude.{◌≡◌, ◌≤◌, ◌<◌, List, [], ◌∷◌, length, OnOk, IfOk, IsTrue, Contains, All, false};
ghost use Rattle.point_codec.specs.declared.entries.Near.{Near};

use crate::few::{end_before, offer_few};
use crate::many::Many;
use point_codec::Near;
use std::alloc::{AllocError, Global};

/// Up to so many places the numbers stand in one vector, where to move some of them takes less time than a tree and a
/// table.
const FEW: usize = 64;

/// The nearest numbers among the entries that were offered, each with the least distance of its entries.
#[derive(Drop)]
pub struct Candidates {
    /// The numbers with their distances where there are few places, the nearest first.
    pub few: Vec<Near>,
    /// How many places there are, and the numbers where there are more.
    pub many: Many,
}

impl Candidates {
    ghost use Rattle.nearest_query.specs.Best.{AreBest, found_of};

    /// No number yet, and `room` places.
    pub fn new(alloc: Global, room: usize) -> Candidates
        requires { 1 ≤ room }
        ensures room { result.many.room ≡ room }
        ensures best { AreBest [] result }
    {
        Candidates {
            few: Vec::new(alloc),
            many: Many::new(alloc, room),
        }
    }

    /// The numbers found, the nearest first.
    pub fn found(&self, alloc: Global) -> Result<Vec<Near>, AllocError>
        ensures { IfOk result (λ v. v.items ≡ found_of self.now) }
    {
        if self.many.room > FEW {
            return self.many.found(alloc);
        }
        Vec::from_slice(alloc, self.few.as_slice())
    }

    /// Takes the entry where it is among the nearest so far.
    pub fn offer(&mut self, near: Near) -> Result<(), AllocError>
        ensures room { self.new.many.room ≡ self.old.many.room }
        ensures best { (entries : List Near) → AreBest entries self.old
            → OnOk result (AreBest (near ∷ entries) self.new) }
    {
        if self.many.room > FEW {
            return self.many.offer(near);
        }
        offer_few(&mut self.few, self.many.room, near)
    }

    /// Whether all places are taken by numbers that are nearer than this distance.
    pub fn ends_before(&self, dist2: u128) -> bool
        ensures full { IsTrue result → self.now.many.room ≤ length (found_of self.now) }
        ensures yes { IsTrue result → (entries : List Near) → AreBest entries self.now
            → All (λ a. a.dist2 < dist2) (found_of self.now) }
        ensures no { result ≡ false → 1 ≤ self.now.many.room → self.now.many.room ≤ length (found_of self.now)
            → (a : Near) × Contains (found_of self.now) a × (dist2 ≤ a.dist2) }
    {
        if self.many.room > FEW {
            return self.many.ends_before(dist2);
        }
        end_before(self.few.as_slice(), self.many.room, dist2)
    }
}
