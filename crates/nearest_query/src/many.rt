//! The nearest numbers among the entries seen so far, where they may be many.

ghost use Rattle.std.specs.Prelude.{◌≡◌, ◌≤◌, ◌<◌, List, [], ◌∷◌, length, OnOk, IfOk, IsTrue, Contains, All, false};
ghost use Rattle.std.specs.Prelude.{None, Some, nat_eq};
ghost use Rattle.std.specs.Ordering.{is_lt};
ghost use Rattle.std.specs.declared.cmp.Ordering.TheVariants.{Less};
ghost use Rattle.std.specs.HashMap as hash;
ghost use Rattle.point_codec.specs.declared.entries.Near.{Near};

use point_codec::Near;
use std::alloc::{AllocError, Global};
use std::collections::{BTreeSet, HashMap};

/// The `room` nearest numbers among the entries that were offered, each with the least distance of its entries.
#[derive(Drop)]
pub struct Many {
    pub room: usize,
    /// The numbers with their distances, the nearest first.
    pub in_order: BTreeSet<Near>,
    /// The distance of each number.
    pub distances: HashMap<u32, u128>,
}

impl Many {
    ghost use Rattle.nearest_query.specs.Best.{near_cmp, AreKept, IsInserted};

    /// No number yet, and `room` places.
    pub fn new(alloc: Global, room: usize) -> Many
        requires { 1 ≤ room }
        ensures room { result.room ≡ room }
        ensures empty { result.in_order.keys ≡ [] }
        ensures best { AreKept [] result }
    {
        Many {
            room,
            in_order: BTreeSet::new(alloc),
            distances: HashMap::new(alloc),
        }
    }

    /// The numbers found, the nearest first.
    pub fn found(&self, alloc: Global) -> Result<Vec<Near>, AllocError>
        ensures { IfOk result (λ v. v.items ≡ self.now.in_order.keys) }
    {
        self.in_order.iter().copied().collect(alloc)
    }

    /// Takes the entry where it is among the nearest so far.
    pub fn offer(&mut self, near: Near) -> Result<(), AllocError>
        ensures room { self.new.room ≡ self.old.room }
        ensures best { (entries : List Near) → AreKept entries self.old
            → OnOk result (AreKept (near ∷ entries) self.new) }
    {
        if self.is_left_out(&near) {
            return Ok(());
        }
        match self.distances.get(&near.doc).copied() {
            Some(dist2) => self.improve(dist2, near),
            None => self.add(near),
        }
    }

    /// Whether all places are taken by numbers that are nearer than this distance.
    pub fn ends_before(&self, dist2: u128) -> bool
        ensures yes { IsTrue result → (self.now.room ≤ length self.now.in_order.keys)
            × All (λ a. a.dist2 < dist2) self.now.in_order.keys }
        ensures no { result ≡ false → 1 ≤ self.now.room → self.now.room ≤ length self.now.in_order.keys
            → (a : Near) × Contains self.now.in_order.keys a × (dist2 ≤ a.dist2) }
    {
        if self.in_order.len() < self.room {
            return false;
        }
        match self.in_order.last() {
            Some(last) => last.dist2 < dist2,
            None => false,
        }
    }

    /// Whether all places are taken and the entry doesn't come before the last.
    fn is_left_out(&self, near: &Near) -> bool
        ensures yes { IsTrue result → (self.now.room ≤ length self.now.in_order.keys)
            × All (λ a. is_lt (near_cmp near.now a) ≡ false) self.now.in_order.keys }
        ensures no { result ≡ false → 1 ≤ self.now.room → self.now.room ≤ length self.now.in_order.keys
            → (a : Near) × Contains self.now.in_order.keys a × (near_cmp near.now a ≡ Less) }
    {
        if self.in_order.len() < self.room {
            return false;
        }
        match self.in_order.last() {
            Some(last) => !near.cmp(last).is_lt(),
            None => false,
        }
    }

    /// Gives a number of the candidates, whose distance is `dist2`, the entry's distance where that is less.
    fn improve(&mut self, dist2: u128, near: Near) -> Result<(), AllocError>
        ensures room { self.new.room ≡ self.old.room }
        ensures best { (entries : List Near) → AreKept entries self.old
            → hash.get nat_eq self.old.distances near.doc ≡ Some dist2
            → OnOk result (AreKept (near ∷ entries) self.new) }
    {
        if dist2 <= near.dist2 {
            return Ok(());
        }
        self.in_order.remove(&Near {
            dist2,
            doc: near.doc,
        });
        self.insert_near(near)
    }

    /// Adds a number that is no candidate, in place of the last where all places are taken.
    fn add(&mut self, near: Near) -> Result<(), AllocError>
        ensures room { self.new.room ≡ self.old.room }
        ensures best { (entries : List Near) → AreKept entries self.old
            → hash.get nat_eq self.old.distances near.doc ≡ None
            → (self.old.room ≤ length self.old.in_order.keys → (a : Near) × Contains self.old.in_order.keys a
            × (near_cmp near a ≡ Less))
            → OnOk result (AreKept (near ∷ entries) self.new) }
    {
        if self.in_order.len() < self.room {
            return self.insert_near(near);
        }
        if let Some(last) = self.in_order.pop_last() {
            self.distances.remove(&last.doc);
            return self.insert_near(near);
        }
        Ok(())
    }

    /// Puts the number where it belongs.
    fn insert_near(&mut self, near: Near) -> Result<(), AllocError>
        ensures room { self.new.room ≡ self.old.room }
        ensures put { OnOk result (IsInserted near self.old self.new) }
    {
        self.in_order.insert(near)?;
        self.distances.insert(near.doc, near.dist2)?;
        Ok(())
    }
}
