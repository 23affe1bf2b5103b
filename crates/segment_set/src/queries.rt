//! What queries find in a view of a set, and what they cost.

ghost use Rattle.std.specs.Prelude.{◌≡◌, ◌≤◌, ◌+◌, ◌*◌, ℕ, List, None, Some, length, IsTrue, IfOk};
ghost use Rattle.point_codec.specs.Seen.{items_of};
ghost use Rattle.point_codec.specs.declared.entries.Near.{Near};
ghost use Rattle.cell_relate.specs.Relations.{KeepsShape};
ghost use Rattle.page_cache.specs.Causes.{HasPageCause};
ghost use Rattle.page_cache.specs.Evidence.{OnDamage};
ghost use Rattle.documents.specs.Documents.{Document, hits};
ghost use Rattle.documents.specs.Nearest.{found_of, nearest};
ghost use Rattle.documents.specs.NearestEntries.{IsNearest, nears_of};
ghost use Rattle.nearest_query.specs.Segments.{AreNearLeaves, bound_of};
ghost use Rattle.script_lang.specs.Seen.{view_name};
ghost use Rattle.index_model.specs.State.{Index, viewed_docs};
ghost use Rattle.segment_view.specs.LiveSegments.{Contents, heads_of};
ghost use Rattle.segment_view.specs.Costs.{AreTested, AreTouched, AsksAtMost, IsCostOf, leaves_in};

use crate::buffer::Buffer;
use crate::set::SegmentSet;
use crate::snapshots::{Snapshot, snapshot_named};
use bkd_reader::Tally;
use cell_relate::Shape;
use outer_io::Folder;
use page_cache::PageFault;
use point_codec::{Entry, Point, View};
use segment_view::{Nearest, Segments, Visit};
use std::alloc::Global;

impl<const D: usize> SegmentSet<D> {
    ghost use Rattle.segment_set.specs.Sets.{HasView, viewed_buffer, viewed_parts};
    ghost use Rattle.segment_set.specs.Effects.{ShowsLeafDamage};
    ghost use Rattle.segment_set.specs.Seen.{Sees, StandsOver, entries_seen};
    ghost use Rattle.segment_set.specs.Kept.{StaysButCache};
    ghost use Rattle.segment_set.specs.Faithful.{IsFaithful};

    /// The numbers of the view's documents that the shape has, ascending, and what was met of its segments: the entries
    /// of leaves whose own cell the shape crosses, and the leaves whose own cell is not outside. Only these leaves are
    /// read, and only these entries and those of the buffer are tested.
    pub fn visit<S: Shape<D>, F: Folder>(
        &mut self,
        alloc: Global,
        folder: &mut F,
        view: &View,
        shape: &mut S,
    ) -> Result<Visit, PageFault>
        requires { HasView (view_name view.now) self.old }
        ensures found { IsTrue F.told → (i : Index) → Sees D (F.files folder.old) self.old i → (docs : List Document)
            → viewed_docs (view_name view.now) i ≡ Some docs
            → IfOk result (λ v. v.docs.items ≡ hits (S.has shape.old) docs) }
        ensures counts { IfOk result (λ v. IsCostOf D (S.has shape.old) (S.crosses shape.old)
            (heads_of (viewed_parts (view_name view.now) self.old)) v.cost) }
        // what stays
        ensures seen { IsTrue F.told → (i : Index) → Sees D (F.files folder.old) self.old i
            → Sees D (F.files folder.new) self.new i }
        ensures rest { StaysButCache self.old self.new }
        ensures faithful { IsTrue F.told → IsFaithful D (F.files folder.old) self.old
            → IsFaithful D (F.files folder.new) self.new }
        ensures files { IsTrue F.told → F.files folder.new ≡ F.files folder.old }
        ensures shape { KeepsShape (S.has shape.old) (S.has shape.new)
            (S.crosses shape.old) (S.crosses shape.new) }
        // what it costs, over every folder
        ensures asks { AsksAtMost D (S.crosses shape.old) (heads_of (viewed_parts (view_name view.now) self.old))
            (length (viewed_buffer (view_name view.now) self.old))
            (S.tests shape.old) (S.tests shape.new) (S.compares shape.old) (S.compares shape.new) }
        ensures reads { (n : ℕ) → AreTouched D (S.has shape.old) (S.crosses shape.old)
            (heads_of (viewed_parts (view_name view.now) self.old)) n
            → F.reads folder.new ≤ F.reads folder.old + n }
        // what an error says
        ensures cause { HasPageCause (F.faults folder.old) (F.faults folder.new) result }
        ensures damaged { ShowsLeafDamage D (IsTrue F.told) (F.files folder.old) (F.files folder.new) self.old
            (viewed_parts (view_name view.now) self.old) (λ P. OnDamage result P) }
    {
        settle_for(&mut self.buffer, view);
        let (segments, buffer) = view_of(
            &self.segments,
            &self.buffer,
            self.snapshots.as_slice(),
            view,
        );
        segment_view::visit(alloc, segments, buffer, &mut self.cache, folder, shape)
    }

    /// The `k` nearest documents of the view, the nearest first, each with the least squared distance of its points:
    /// all, where there are fewer than `k`. Of equally near ones the one with the smaller number comes first. Beside
    /// them stands how many leaves have a cell as near as the last document found; only such leaves are read. `k` is
    /// 1 to 10,000.
    pub fn nearest<F: Folder>(
        &mut self,
        alloc: Global,
        folder: &mut F,
        view: &View,
        at: &Point<D>,
        k: u16,
    ) -> Result<Nearest, PageFault>
        requires view { HasView (view_name view.now) self.old }
        requires some { 1 ≤ k }
        requires few { k ≤ 10000 }
        ensures found { IsTrue F.told → (i : Index) → Sees D (F.files folder.old) self.old i → (docs : List Document)
            → viewed_docs (view_name view.now) i ≡ Some docs
            → IfOk result (λ v. found_of v.docs.items ≡ nearest k at.now.c docs) }
        ensures touches { IsTrue F.told → (i : Index) → Sees D (F.files folder.old) self.old i
            → IfOk result (λ v. AreNearLeaves D at.now.c (bound_of k v.docs.items)
            (heads_of (viewed_parts (view_name view.now) self.old)) v.touched) }
        // what stays
        ensures seen { IsTrue F.told → (i : Index) → Sees D (F.files folder.old) self.old i
            → Sees D (F.files folder.new) self.new i }
        ensures rest { StaysButCache self.old self.new }
        ensures faithful { IsTrue F.told → IsFaithful D (F.files folder.old) self.old
            → IsFaithful D (F.files folder.new) self.new }
        ensures files { IsTrue F.told → F.files folder.new ≡ F.files folder.old }
        // what it costs: the leaves as near as the last of those found
        ensures reads { IsTrue F.told → (c : Contents) → StandsOver D (F.files folder.old) c self.old
            → (found : List Near)
            → IsNearest k
            (nears_of at.now.c
            (entries_seen c (viewed_parts (view_name view.now) self.old) (viewed_buffer (view_name view.now) self.old)))
            found
            → (leaves : ℕ)
            → AreNearLeaves D at.now.c (bound_of k found) (heads_of (viewed_parts (view_name view.now) self.old)) leaves
            → F.reads folder.new ≤ F.reads folder.old + leaves }
        // what an error says
        ensures cause { HasPageCause (F.faults folder.old) (F.faults folder.new) result }
        ensures damaged { ShowsLeafDamage D (IsTrue F.told) (F.files folder.old) (F.files folder.new) self.old
            (viewed_parts (view_name view.now) self.old) (λ P. OnDamage result P) }
    {
        settle_for(&mut self.buffer, view);
        let (segments, buffer) = view_of(
            &self.segments,
            &self.buffer,
            self.snapshots.as_slice(),
            view,
        );
        let watched = is_of_now(view);
        segment_view::nearest(
            alloc,
            segments,
            buffer,
            &mut self.cache,
            folder,
            at,
            k,
            watched,
        )
    }

    /// What a visit of the view costs at most for this shape. It reads nothing and takes no memory.
    pub fn survey<S: Shape<D>>(&self, view: &View, shape: &mut S) -> Tally
        requires { HasView (view_name view.now) self.now }
        ensures tested { AreTested D (S.crosses shape.old)
            (heads_of (viewed_parts (view_name view.now) self.now)) result.tested }
        ensures touched { AreTouched D (S.has shape.old) (S.crosses shape.old)
            (heads_of (viewed_parts (view_name view.now) self.now)) result.touched }
        ensures leaves { result.leaves ≡ leaves_in (heads_of (viewed_parts (view_name view.now) self.now)) }
        ensures tests { S.tests shape.new ≡ S.tests shape.old }
        ensures compares { S.compares shape.new ≤ S.compares shape.old + 2 * leaves_in
            (heads_of (viewed_parts (view_name view.now) self.now)) }
        ensures has { S.has shape.new ≡ S.has shape.old }
        ensures crosses { S.crosses shape.new ≡ S.crosses shape.old }
    {
        let segments = segments_of(&self.segments, self.snapshots.as_slice(), view);
        segment_view::survey(segments, shape)
    }

    /// How many leaves of the view have a cell whose least squared distance from the point is at most the bound; all,
    /// where there is none.
    /// It reads nothing and takes no memory.
    pub fn survey_near(&self, view: &View, at: &Point<D>, bound: Option<u128>) -> u64
        requires { HasView (view_name view.now) self.now }
        ensures { AreNearLeaves D at.now.c bound (heads_of (viewed_parts (view_name view.now) self.now)) result }
    {
        let segments = segments_of(&self.segments, self.snapshots.as_slice(), view);
        segment_view::survey_near(segments, at, bound)
    }
}

ghost use Rattle.segment_set.specs.Sets.{IsThere, parts_at, buffer_at};

/// The segments of a view: those of now, or those of a snapshot.
fn segments_of<'a, const D: usize>(
    segments: &'a Segments<D>,
    snapshots: &'a [Snapshot<D>],
    view: &View,
) -> &'a Segments<D>
    requires { IsThere (view_name view.now) snapshots.now }
    ensures { result.now ≡ parts_at (view_name view.now) segments.now snapshots.now }
{
    match view {
        View::Now => segments,
        View::Named(name) => {
            let snapshot = snapshot_named(snapshots, name);
            &snapshot.segments
        }
    }
}

/// Whether the view is that of now: only its live bits are watched over, since those of a snapshot are older, and may
/// have what was deleted since.
fn is_of_now(view: &View) -> bool
    ensures { IsTrue result → view_name view.now ≡ None }
{
    matches!(view, View::Now)
}

/// Settles the buffer, where the view looks at it.
fn settle_for<const D: usize>(buffer: &mut Buffer<D>, view: &View)
    requires dims { D ≤ 8 }
    ensures items { buffer.new.items ≡ buffer.old.items }
    ensures next { buffer.new.next ≡ buffer.old.next }
    ensures settled { view_name view.now ≡ None → buffer.new.gone ≡ 0 }
{
    if let View::Now = view {
        buffer.settle();
    }
}

/// The segments of a view, and what waits in it: in the buffer, which is settled then, or in a snapshot.
fn view_of<'a, const D: usize>(
    segments: &'a Segments<D>,
    buffer: &'a Buffer<D>,
    snapshots: &'a [Snapshot<D>],
    view: &View,
) -> (&'a Segments<D>, &'a [Entry<D>])
    requires there { IsThere (view_name view.now) snapshots.now }
    requires settled { view_name view.now ≡ None → buffer.now.gone ≡ 0 }
    ensures segments { result.0.now ≡ parts_at (view_name view.now) segments.now snapshots.now }
    ensures buffer { items_of result.1.now ≡ buffer_at (view_name view.now) buffer.now.items snapshots.now }
{
    match view {
        View::Now => (segments, buffer.as_slice()),
        View::Named(name) => {
            let snapshot = snapshot_named(snapshots, name);
            (&snapshot.segments, snapshot.buffer.as_slice())
        }
    }
}
