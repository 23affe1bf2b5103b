//! Takes documents out of a set: one, those of a list, or those with a point in a box.

ghost use Rattle.std.specs.Prelude.{◌≡◌, ◌≤◌, ◌<◌, ◌+◌, ◌&&◌, ℕ, not, nat_eq, length, filter};
ghost use Rattle.std.specs.Prelude.{IsTrue, IfOk, OnOk, OnErr};
ghost use Rattle.outer_io.specs.Files.{Files};
ghost use Rattle.point_codec.specs.Points.{in_box};
ghost use Rattle.cell_relate.specs.Boxes.{crosses};
ghost use Rattle.page_cache.specs.Causes.{HasPageCause};
ghost use Rattle.page_cache.specs.Evidence.{OnDamage};
ghost use Rattle.documents.specs.Documents.{docs_without, hits, is_live, docs_failing};
ghost use Rattle.documents.specs.Entries.{is_among};
ghost use Rattle.index_model.specs.State.{Index};
ghost use Rattle.segment_view.specs.LiveSegments.{heads_of};
ghost use Rattle.segment_view.specs.Costs.{AreTouched};
ghost use Rattle.segment_set.specs.Sets.{begun_but};

use crate::set::{Begun, SegmentSet};
use cell_relate::BoxShape;
use outer_io::Folder;
use page_cache::PageFault;
use point_codec::{Point, View};
use std::alloc::Global;

impl<const D: usize> SegmentSet<D> {
    ghost use Rattle.segment_set.specs.Sets.{is_live_in, set_but};
    ghost use Rattle.segment_set.specs.Effects.{DeletesAlone, ShowsLeafDamage};
    ghost use Rattle.segment_set.specs.Seen.{Sees};
    ghost use Rattle.segment_set.specs.Kept.{Follows, StaysAlone, StaysButCache};
    ghost use Rattle.segment_set.specs.Losing.{KeepsCounts};
    ghost use Rattle.segment_set.specs.Faithful.{IsFaithful};

    /// Takes a document out. True exactly where it was live. It takes no memory and no folder.
    pub fn delete(&mut self, doc: u32) -> bool
        ensures answer { result ≡ is_live_in self.old doc }
        ensures seen { (files : Files) (i : Index) → Sees D files self.old i
            → Sees D files self.new (record i { docs = docs_without doc i.docs }) }
        ensures live { (files : Files) (i : Index) → Sees D files self.old i → result ≡ is_live doc i.docs }
        ensures rest { self.new ≡ set_but doc self.old }
        ensures faithful { (files : Files) → IsFaithful D files self.old → IsFaithful D files self.new }
        ensures dead { is_live_in self.new ≡ (λ n. is_live_in self.old n && not (nat_eq n doc)) }
        ensures follows { Follows self.old.names self.old.parts self.new.parts }
    {
        let in_segment = self.segments.clear(doc);
        clear_begun(&mut self.begun, doc);
        let in_buffer = self.buffer.take(doc);
        in_segment | in_buffer
    }

    /// Takes the documents with a point in the box out, and answers how many. After a refusal none is.
    pub fn delete_box<F: Folder>(
        &mut self,
        alloc: Global,
        folder: &mut F,
        lo: &Point<D>,
        hi: &Point<D>,
    ) -> Result<u32, PageFault>
        ensures seen { IsTrue F.told → (i : Index) → Sees D (F.files folder.old) self.old i
            → OnOk result
            (Sees D (F.files folder.new) self.new
            (record i { docs = docs_failing (in_box (record { lo = lo.now.c; hi = hi.now.c })) i.docs })) }
        ensures count { IsTrue F.told → (i : Index) → Sees D (F.files folder.old) self.old i
            → IfOk result (λ n. n ≡ length (hits (in_box (record { lo = lo.now.c; hi = hi.now.c })) i.docs)) }
        ensures refused { IsTrue F.told → (i : Index) → Sees D (F.files folder.old) self.old i
            → OnErr result (Sees D (F.files folder.new) self.new i) }
        // what stays
        ensures files { IsTrue F.told → F.files folder.new ≡ F.files folder.old }
        ensures rest { OnErr result (StaysButCache self.old self.new) }
        ensures deletes { DeletesAlone self.old self.new }
        ensures faithful { IsTrue F.told → IsFaithful D (F.files folder.old) self.old
            → IsFaithful D (F.files folder.new) self.new }
        // what it costs, and what an error says
        ensures reads { (n : ℕ) → AreTouched D (in_box (record { lo = lo.now.c; hi = hi.now.c }))
            (crosses (record { lo = lo.now.c; hi = hi.now.c })) (heads_of self.old.parts) n
            → F.reads folder.new ≤ F.reads folder.old + n }
        ensures cause { HasPageCause (F.faults folder.old) (F.faults folder.new) result }
        ensures damaged { ShowsLeafDamage D (IsTrue F.told) (F.files folder.old) (F.files folder.new) self.old
            self.old.parts (λ P. OnDamage result P) }
    {
        let mut shape = BoxShape::new(*lo, *hi);
        let hits = self.visit(alloc, folder, &View::Now, &mut shape)?;
        let Ok(count) = u32::try_from(hits.docs.len()) else {
            return Err(PageFault::Memory);
        };
        self.delete_all(hits.docs.as_slice());
        Ok(count)
    }

    /// Takes the documents of these numbers out.
    pub fn delete_all(&mut self, docs: &[u32])
        ensures seen { (files : Files) (i : Index) → Sees D files self.old i
            → Sees D files self.new (record i { docs = filter (λ d. not (is_among docs.now d.number)) i.docs }) }
        ensures faithful { (files : Files) → IsFaithful D files self.old → IsFaithful D files self.new }
        ensures stays { StaysAlone self.old self.new }
        ensures follows { Follows self.old.names self.old.parts self.new.parts }
        ensures counts { (E : ℕ) (files : Files) → KeepsCounts E files files self.old self.new }
        ensures names { self.new.names ≡ self.old.names }
        ensures saved { self.new.saved ≡ self.old.saved }
    {
        for doc in docs {
            self.delete(*doc);
        }
    }
}

/// Takes a number out of the live ones of what a begun merge has built.
fn clear_begun<const D: usize>(begun: &mut Option<Begun<D>>, doc: u32)
    ensures { begun.new ≡ begun_but doc begun.old }
{
    if let Some(
        Begun {
            inputs: _,
            built: Some(built),
        },
    ) = begun
    {
        built.clear(doc);
    }
}
