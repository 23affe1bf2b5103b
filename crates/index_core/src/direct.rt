//! What commands that are no lines of a script ask of a session: calls without a text.

ghost use Rattle.std.specs.Prelude.{◌≡◌, ◌≤◌, ◌+◌, ◌^◌, ◌∷◌, [], length, IsTrue, IfOk};
ghost use Rattle.outer_io.specs.Files.{Files};
ghost use Rattle.page_cache.specs.Causes.{HasPageCause};
ghost use Rattle.page_cache.specs.Evidence.{NotDamaged, OnDamage};
ghost use Rattle.documents.specs.Documents.{docs_without, hits, is_live};
ghost use Rattle.documents.specs.Nearest.{found_of, nearest};
ghost use Rattle.index_model.specs.State.{Index};
ghost use Rattle.nearest_query.specs.Segments.{AreNearLeaves, bound_of};
ghost use Rattle.segment_view.specs.LiveSegments.{heads_of};
ghost use Rattle.segment_view.specs.Costs.{IsCostOf};
ghost use Rattle.segment_set.specs.AtOnce.{AreNumbered, points_in};
ghost use Rattle.segment_set.specs.Seen.{Sees};
ghost use Rattle.index_opening.specs.Evidence.{IsEvidentOf};
ghost use Rattle.segment_set.specs.Faithful.{IsFaithful};
ghost use Rattle.segment_set.specs.Kept.{StaysButCache};
ghost use Rattle.index_core.specs.Sessions.{Guards, IsSetTraced};
ghost use Rattle.index_core.specs.Effects.{BringsCanonical};
ghost use Rattle.index_core.specs.Whole.{Adds, add_result};

use crate::session::Session;
use bkd_build::Gate;
use cell_relate::Shape;
use outer_io::Folder;
use page_cache::PageFault;
use point_codec::{Entry, Point, Points, View};
use segment_set::{AddFault, MOST_BUFFERED};
use segment_view::{Nearest, Visit};
use std::alloc::Global;
use std::marker::Sync;
use std::thread::Threads;

impl<const D: usize> Session<D> {
    /// The number of the next document.
    pub fn next(&self) -> u32
        ensures value { result ≡ self.now.set.next }
        ensures most { self.now.set.next ≤ self.now.set.points_given }
    {
        let _leaf_size = self.set.leaf_size();
        self.set.next()
    }

    /// How many points were ever given.
    pub fn points_given(&self) -> u32
        ensures value { result ≡ self.now.set.points_given }
        ensures most { self.now.set.points_given ≤ 2 ^ 24 }
    {
        let _leaf_size = self.set.leaf_size();
        self.set.points_given()
    }

    /// Adds a document of one point. What is kept stays, whatever is answered.
    pub fn add_point<R: Threads + Sync, F: Folder, G: Gate>(
        &mut self,
        rt: &R,
        alloc: Global,
        folder: &mut F,
        point: &Point<D>,
        gate: &G,
    ) -> Result<(), PageFault>
        requires { self.old.set.points_given + 1 ≤ 2 ^ 24 }
        ensures { Adds D (IsTrue F.told) (point.now.c ∷ [])
            (record { files = F.files folder.old; session = self.old; faults = F.faults folder.old })
            (record { files = F.files folder.new; session = self.new; faults = F.faults folder.new }) result }
    {
        // its segments are all named
        let _leaf_size = self.set.leaf_size();
        let mut list = Vec::with_capacity(alloc, 1)?;
        list.push_reserved(*point);
        add_result(self.set.add(rt, alloc, folder, &Points::of(list), gate))
    }

    /// Adds a document for each entry, whose number it must have: the next one, and so on. One segment is built of more
    /// than the buffer holds; fewer wait in it, one after another. The slice holds the same entries in some order
    /// afterwards. After a fault some may be added.
    pub fn add_entries<R: Threads + Sync, F: Folder, G: Gate>(
        &mut self,
        rt: &R,
        alloc: Global,
        folder: &mut F,
        entries: &mut [Entry<D>],
        gate: &G,
    ) -> Result<(), PageFault>
        requires numbered { AreNumbered self.old.set.next entries.old }
        requires fits { self.old.set.points_given + length entries.old ≤ 2 ^ 24 }
        ensures { Adds D (IsTrue F.told) (points_in entries.old)
            (record { files = F.files folder.old; session = self.old; faults = F.faults folder.old })
            (record { files = F.files folder.new; session = self.new; faults = F.faults folder.new }) result }
    {
        let first = match &*entries {
            [] => return Ok(()),
            [entry, ..] => entry.point,
        };
        if entries.len() > MOST_BUFFERED {
            self.add_whole(rt, alloc, folder, entries, gate)
        } else {
            self.add_all(rt, alloc, folder, &first, entries, gate)
        }
    }

    /// Adds them as one segment.
    fn add_whole<R: Threads + Sync, F: Folder, G: Gate>(
        &mut self,
        rt: &R,
        alloc: Global,
        folder: &mut F,
        entries: &mut [Entry<D>],
        gate: &G,
    ) -> Result<(), PageFault>
        requires some { 1 ≤ length entries.old }
        requires numbered { AreNumbered self.old.set.next entries.old }
        requires fits { self.old.set.points_given + length entries.old ≤ 2 ^ 24 }
        ensures { Adds D (IsTrue F.told) (points_in entries.old)
            (record { files = F.files folder.old; session = self.old; faults = F.faults folder.old })
            (record { files = F.files folder.new; session = self.new; faults = F.faults folder.new }) result }
    {
        // its segments are all named
        let _leaf_size = self.set.leaf_size();
        self.set.add_entries(rt, alloc, folder, entries, gate)
    }

    /// Adds them one after the other by way of one document's list, which has the first point at first: so it takes
    /// memory for one document, however many there are.
    fn add_all<R: Threads + Sync, F: Folder, G: Gate>(
        &mut self,
        rt: &R,
        alloc: Global,
        folder: &mut F,
        first: &Point<D>,
        entries: &[Entry<D>],
        gate: &G,
    ) -> Result<(), PageFault>
        requires { self.old.set.points_given + length entries.now ≤ 2 ^ 24 }
        ensures { Adds D (IsTrue F.told) (points_in entries.now)
            (record { files = F.files folder.old; session = self.old; faults = F.faults folder.old })
            (record { files = F.files folder.new; session = self.new; faults = F.faults folder.new }) result }
    {
        let mut list = Vec::with_capacity(alloc, 1)?;
        list.push_reserved(*first);
        let mut one = Points::of(list);
        self.add_each(rt, alloc, folder, entries, &mut one, gate)
    }

    /// Adds a document for each entry, by way of `one`, which is each entry's point in turn.
    fn add_each<R: Threads + Sync, F: Folder, G: Gate>(
        &mut self,
        rt: &R,
        alloc: Global,
        folder: &mut F,
        entries: &[Entry<D>],
        one: &mut Points<D>,
        gate: &G,
    ) -> Result<(), PageFault>
        requires { self.old.set.points_given + length entries.now ≤ 2 ^ 24 }
        ensures { Adds D (IsTrue F.told) (points_in entries.now)
            (record { files = F.files folder.old; session = self.old; faults = F.faults folder.old })
            (record { files = F.files folder.new; session = self.new; faults = F.faults folder.new }) result }
    {
        for entry in entries {
            self.add_by(rt, alloc, folder, &entry.point, one, gate)?;
        }
        Ok(())
    }

    /// Adds a document of one point by way of `one`, which is that point afterwards. What is kept stays, whatever is
    /// answered.
    fn add_by<R: Threads + Sync, F: Folder, G: Gate>(
        &mut self,
        rt: &R,
        alloc: Global,
        folder: &mut F,
        point: &Point<D>,
        one: &mut Points<D>,
        gate: &G,
    ) -> Result<(), PageFault>
        requires { self.old.set.points_given + 1 ≤ 2 ^ 24 }
        ensures { Adds D (IsTrue F.told) (point.now.c ∷ [])
            (record { files = F.files folder.old; session = self.old; faults = F.faults folder.old })
            (record { files = F.files folder.new; session = self.new; faults = F.faults folder.new }) result }
    {
        // its segments are all named
        let _leaf_size = self.set.leaf_size();
        one.set_one(point);
        add_result(self.set.add(rt, alloc, folder, one, gate))
    }

    /// Takes a document out. True exactly where it was live. It takes no memory and no folder.
    pub fn delete_document(&mut self, doc: u32) -> bool
        ensures seen { (files : Files) (i : Index) → Sees D files self.old.set i
            → Sees D files self.new.set (record i { docs = docs_without doc i.docs }) }
        ensures live { (files : Files) (i : Index) → Sees D files self.old.set i → result ≡ is_live doc i.docs }
        ensures guards { (files : Files) → Guards D files self.old → Guards D files self.new }
        ensures faithful { (files : Files) → IsFaithful D files self.old.set → IsFaithful D files self.new.set }
        ensures traced { (files : Files) → IsSetTraced D files self.old.set → IsSetTraced D files self.new.set }
        ensures canon { (files : Files) → BringsCanonical D files files self.old.set.parts self.new.set.parts }
    {
        self.set.delete(doc)
    }

    /// The numbers of the live documents that the shape has, ascending, and what was met of the segments: the entries
    /// of leaves whose own cell the shape crosses, and the leaves whose own cell is not outside.
    pub fn hits_of<S: Shape<D>, F: Folder>(
        &mut self,
        alloc: Global,
        folder: &mut F,
        shape: &mut S,
    ) -> Result<Visit, PageFault>
        ensures found { IsTrue F.told → (i : Index) → Sees D (F.files folder.old) self.old.set i
            → IfOk result (λ v. v.docs.items ≡ hits (S.has shape.old) i.docs) }
        ensures counts { IfOk result
            (λ v. IsCostOf D (S.has shape.old) (S.crosses shape.old) (heads_of self.old.set.parts) v.cost) }
        ensures seen { IsTrue F.told → (i : Index) → Sees D (F.files folder.old) self.old.set i
            → Sees D (F.files folder.new) self.new.set i }
        ensures guards { IsTrue F.told → Guards D (F.files folder.old) self.old
            → Guards D (F.files folder.new) self.new }
        ensures files { IsTrue F.told → F.files folder.new ≡ F.files folder.old }
        ensures rest { StaysButCache self.old.set self.new.set }
        ensures cause { HasPageCause (F.faults folder.old) (F.faults folder.new) result }
        ensures whole { IsTrue F.told → (i : Index) → Sees D (F.files folder.old) self.old.set i → NotDamaged result }
        ensures faithful { IsTrue F.told → IsFaithful D (F.files folder.old) self.old.set
            → IsFaithful D (F.files folder.new) self.new.set }
        ensures evident { OnDamage result
            (IsEvidentOf self.old.set.parts (IsTrue F.told × IsFaithful D (F.files folder.old) self.old.set)
            (F.files folder.new)) }
    {
        self.set.visit(alloc, folder, &View::Now, shape)
    }

    /// The `k` nearest live documents, the nearest first, each with the least squared distance of its points: all,
    /// where there are fewer than `k`. Beside them stands how many leaves have a cell as near as the last of them. `k`
    /// is 1 to 10,000.
    pub fn nearest_to<F: Folder>(
        &mut self,
        alloc: Global,
        folder: &mut F,
        at: &Point<D>,
        k: u16,
    ) -> Result<Nearest, PageFault>
        requires some { 1 ≤ k }
        requires few { k ≤ 10000 }
        ensures found { IsTrue F.told → (i : Index) → Sees D (F.files folder.old) self.old.set i
            → IfOk result (λ v. found_of v.docs.items ≡ nearest k at.now.c i.docs) }
        ensures touches { IsTrue F.told → (i : Index) → Sees D (F.files folder.old) self.old.set i
            → IfOk result
            (λ v. AreNearLeaves D at.now.c (bound_of k v.docs.items) (heads_of self.old.set.parts) v.touched) }
        ensures seen { IsTrue F.told → (i : Index) → Sees D (F.files folder.old) self.old.set i
            → Sees D (F.files folder.new) self.new.set i }
        ensures guards { IsTrue F.told → Guards D (F.files folder.old) self.old
            → Guards D (F.files folder.new) self.new }
        ensures files { IsTrue F.told → F.files folder.new ≡ F.files folder.old }
        ensures rest { StaysButCache self.old.set self.new.set }
        ensures cause { HasPageCause (F.faults folder.old) (F.faults folder.new) result }
        ensures whole { IsTrue F.told → (i : Index) → Sees D (F.files folder.old) self.old.set i → NotDamaged result }
        ensures faithful { IsTrue F.told → IsFaithful D (F.files folder.old) self.old.set
            → IsFaithful D (F.files folder.new) self.new.set }
        ensures evident { OnDamage result
            (IsEvidentOf self.old.set.parts (IsTrue F.told × IsFaithful D (F.files folder.old) self.old.set)
            (F.files folder.new)) }
    {
        self.set.nearest(alloc, folder, &View::Now, at, k)
    }
}

/// What becomes of a document that is added where all points fit, so that `Full` is never answered.
fn add_result(done: Result<u32, AddFault>) -> Result<(), PageFault>
    ensures { result ≡ add_result done }
{
    match done {
        Ok(_) => Ok(()),
        Err(AddFault::Failed) => Err(PageFault::Failed),
        Err(AddFault::Damaged(damage)) => Err(PageFault::Damaged(damage)),
        Err(AddFault::Full | AddFault::Memory) => Err(PageFault::Memory),
    }
}
