//! The documents that a shape has, and what the walks that find them count.

ghost use Rattle.std.specs.Prelude.{◌≡◌, ◌≤◌, ◌+◌, ◌*◌, ◌++◌, ℕ, [], ◌∷◌, length, Contains, IsTrue, IfOk, OnOk};
ghost use Rattle.std.specs.List.Sorted.{IsStrictlyIncreasing};
ghost use Rattle.point_codec.specs.Points.{Region};
ghost use Rattle.point_codec.specs.Seen.{items_of};
ghost use Rattle.inner_pack.specs.Places.{front};
ghost use Rattle.inner_pack.specs.Trees.{IndexTree};
ghost use Rattle.inner_pack.specs.Bodies.{HasTree};
ghost use Rattle.cell_relate.specs.Relations.{KeepsShape};
ghost use Rattle.page_cache.specs.Cache.{MarksGo, Agrees};
ghost use Rattle.page_cache.specs.Causes.{HasPageCause};
ghost use Rattle.page_cache.specs.Evidence.{OnDamage, NotDamaged};
ghost use Rattle.page_cache.specs.Reading.{ReadsCached, ReadsNothing};
ghost use Rattle.segment_file.specs.Damages.{IsLeafDamageOf};
ghost use Rattle.bkd_reader.specs.Unread.{AreKept, IsTouched};
ghost use Rattle.documents.specs.Entries.{numbers_found};
ghost use Rattle.segment_view.specs.LiveSegments.{Contents, IsRead, AreRead, live_segment, heads_of, ids_of};
ghost use Rattle.segment_view.specs.LiveSegments.{live_in_parts};
ghost use Rattle.segment_view.specs.Costs.{leaves_in, AreTested, AreTouched, AreTouchedKept, AsksAtMost, IsCostOf};
ghost use Rattle.segment_view.specs.Costs.{ReadsTouched};
ghost use Rattle.segment_view.specs.Found.{AreFound};
ghost use Rattle.segment_view.specs.Calm.{IsCalm};
ghost use Rattle.segment_view.specs.Damages.{IsPartDamage, IsReadDamage};

use crate::answers::Visit;
use crate::ordering::ascending;
use crate::segments::Segments;
use bkd_reader::{Cost, intersect, survey};
use cell_relate::Shape;
use live_bits::LiveBits;
use outer_io::Pages;
use page_cache::{PageCache, PageFault};
use point_codec::Entry;
use segment_file::SegmentHead;
use std::alloc::{AllocError, Global};

/// The numbers of the live entries of the segments and of the entries of the buffer that the shape has, each once and
/// ascending, and what is counted of the segments on the way.
///
/// Only entries of the buffer and of leaves whose own cell the shape crosses are tested, only leaves whose own cell
/// is not outside are read, and where their pages are all kept nothing is read. These entries and these leaves are
/// counted, and those of a segment without a live number too, of which nothing is read. The answer may be a damage of a
/// leaf that had to be read, Failed and Memory.
pub fn visit<const D: usize, S: Shape<D>, F: Pages>(
    alloc: Global,
    segments: &Segments<D>,
    buffer: &[Entry<D>],
    cache: &mut PageCache,
    folder: &mut F,
    shape: &mut S,
) -> Result<Visit, PageFault>
    ensures found { IsTrue F.told → Agrees (F.files folder.old) cache.old → (c : Contents)
        → AreRead D (F.files folder.old) c segments.now
        → IfOk result
        (λ v. AreFound (S.has shape.old) (live_in_parts c segments.now ++ items_of buffer.now) v.docs.items) }
    ensures rises { IfOk result (λ v. IsStrictlyIncreasing v.docs.items) }
    // What it costs, over every folder.
    ensures asks { AsksAtMost D (S.crosses shape.old) (heads_of segments.now) (length buffer.now)
        (S.tests shape.old) (S.tests shape.new) (S.compares shape.old) (S.compares shape.new) }
    ensures reads { ReadsTouched D (S.has shape.old) (S.crosses shape.old) segments.now cache.old cache.new
        (F.reads folder.old) (F.reads folder.new) result }
    ensures counts { IfOk result
        (λ v. IsCostOf D (S.has shape.old) (S.crosses shape.old) (heads_of segments.now) v.cost) }
    // What stays.
    ensures shape { KeepsShape (S.has shape.old) (S.has shape.new) (S.crosses shape.old) (S.crosses shape.new) }
    ensures reading { ReadsCached F.told (Contains (ids_of segments.now)) (F.files folder.old) (F.files folder.new)
        cache.old cache.new (F.faults folder.old) (F.faults folder.new) result }
    // What a damage says.
    ensures shown { OnDamage result (IsPartDamage D segments.now) }
    ensures damage { IsTrue F.told → Agrees (F.files folder.old) cache.old
        → OnDamage result (IsLeafDamageOf (F.files folder.old)) }
    ensures whole { IsTrue F.told → Agrees (F.files folder.old) cache.old → (c : Contents)
        → AreRead D (F.files folder.old) c segments.now → NotDamaged result }
{
    let mut hits = Vec::new(alloc);
    let cost = visit_segments(alloc, segments, cache, folder, shape, &mut hits)?;
    visit_buffer(buffer, shape, &mut hits)?;
    let docs = ascending(alloc, hits)?;
    Ok(Visit { docs, cost })
}

/// Appends the numbers of the live entries of the segments that the shape has, and sums what the walks count.
fn visit_segments<const D: usize, S: Shape<D>, F: Pages>(
    alloc: Global,
    segments: &Segments<D>,
    cache: &mut PageCache,
    folder: &mut F,
    shape: &mut S,
    hits: &mut Vec<u32>,
) -> Result<Cost, PageFault>
    ensures found { IsTrue F.told → Agrees (F.files folder.old) cache.old → (c : Contents)
        → AreRead D (F.files folder.old) c segments.now
        → OnOk result
        (hits.new.items ≡ hits.old.items ++ numbers_found (S.has shape.old) (live_in_parts c segments.now)) }
    ensures tests { (n : ℕ) → AreTested D (S.crosses shape.old) (heads_of segments.now) n
        → S.tests shape.new ≤ S.tests shape.old + n }
    ensures compares { S.compares shape.new ≤ S.compares shape.old + 2 * leaves_in (heads_of segments.now) }
    ensures reads { (n : ℕ) → AreTouched D (S.has shape.old) (S.crosses shape.old) (heads_of segments.now) n
        → F.reads folder.new ≤ F.reads folder.old + n }
    ensures kept { AreTouchedKept D cache.old (S.has shape.old) (S.crosses shape.old) segments.now
        → ReadsNothing (F.reads folder.old) (F.reads folder.new) cache.old cache.new result }
    ensures tested { IfOk result (λ n. AreTested D (S.crosses shape.old) (heads_of segments.now) n.tested) }
    ensures touched { IfOk result
        (λ n. AreTouched D (S.has shape.old) (S.crosses shape.old) (heads_of segments.now) n.touched) }
    ensures has { S.has shape.new ≡ S.has shape.old }
    ensures crosses { S.crosses shape.new ≡ S.crosses shape.old }
    ensures marks { MarksGo cache.old cache.new }
    ensures calm { IsCalm F.told (F.files folder.old) (F.files folder.new) cache.old cache.new (ids_of segments.now) }
    ensures cause { HasPageCause (F.faults folder.old) (F.faults folder.new) result }
    ensures shown { OnDamage result (IsPartDamage D segments.now) }
    ensures damage { IsTrue F.told → Agrees (F.files folder.old) cache.old
        → OnDamage result (IsLeafDamageOf (F.files folder.old)) }
    ensures whole { IsTrue F.told → Agrees (F.files folder.old) cache.old → (c : Contents)
        → AreRead D (F.files folder.old) c segments.now → NotDamaged result }
{
    let mut all = Cost {
        tested: 0,
        touched: 0,
    };
    for i in 0..segments.len() {
        let (head, live) = segments.part(i);
        let one = visit_one(alloc, head, live, cache, folder, shape, hits)?;
        all = Cost {
            tested: all.tested + one.tested,
            touched: all.touched + one.touched,
        };
    }
    Ok(all)
}

/// Appends the numbers of the live entries of a segment that the shape has, and answers what the walk counts. Where no
/// number is live nothing is read, and what a walk would count is surveyed.
fn visit_one<const D: usize, S: Shape<D>, F: Pages>(
    alloc: Global,
    head: &SegmentHead<D>,
    live: &LiveBits,
    cache: &mut PageCache,
    folder: &mut F,
    shape: &mut S,
    hits: &mut Vec<u32>,
) -> Result<Cost, PageFault>
    ensures found { IsTrue F.told → Agrees (F.files folder.old) cache.old → (c : Contents)
        → IsRead D (F.files folder.old) c (live_segment head.now live.now)
        → OnOk result
        (hits.new.items ≡ hits.old.items ++ numbers_found (S.has shape.old)
        (live_in_parts c (live_segment head.now live.now ∷ []))) }
    ensures tests { (n : ℕ) → AreTested D (S.crosses shape.old) (head.now ∷ []) n
        → S.tests shape.new ≤ S.tests shape.old + n }
    ensures compares { S.compares shape.new ≤ S.compares shape.old + 2 * head.now.index.leaves }
    ensures reads { (n : ℕ) → AreTouched D (S.has shape.old) (S.crosses shape.old) (head.now ∷ []) n
        → F.reads folder.new ≤ F.reads folder.old + n }
    ensures kept { (root : Region) (t : IndexTree) → HasTree D head.now.index root t
        → AreKept cache.old head.now (IsTouched (S.has shape.old) (S.crosses shape.old)) front t
        → ReadsNothing (F.reads folder.old) (F.reads folder.new) cache.old cache.new result }
    ensures tested { IfOk result (λ n. AreTested D (S.crosses shape.old) (head.now ∷ []) n.tested) }
    ensures touched { IfOk result
        (λ n. AreTouched D (S.has shape.old) (S.crosses shape.old) (head.now ∷ []) n.touched) }
    ensures few_tested { IfOk result (λ n. n.tested ≤ 4000 * 8388608) }
    ensures few_touched { IfOk result (λ n. n.touched ≤ 8388608) }
    ensures has { S.has shape.new ≡ S.has shape.old }
    ensures crosses { S.crosses shape.new ≡ S.crosses shape.old }
    ensures marks { MarksGo cache.old cache.new }
    ensures calm { IsCalm F.told (F.files folder.old) (F.files folder.new) cache.old cache.new (head.now.id ∷ []) }
    ensures cause { HasPageCause (F.faults folder.old) (F.faults folder.new) result }
    ensures shown { OnDamage result (IsReadDamage D head.now) }
    ensures damage { IsTrue F.told → Agrees (F.files folder.old) cache.old
        → OnDamage result (IsLeafDamageOf (F.files folder.old)) }
    ensures whole { IsTrue F.told → Agrees (F.files folder.old) cache.old → (c : Contents)
        → IsRead D (F.files folder.old) c (live_segment head.now live.now) → NotDamaged result }
{
    head.index().is_spelled();
    if live.live_count() == 0 {
        let tally = survey(head, shape);
        return Ok(Cost {
            tested: tally.tested,
            touched: tally.touched,
        });
    }
    intersect(alloc, head, cache, folder, shape, live, hits)
}

/// Appends the numbers of the buffer's entries that the shape has, for each of which it is asked.
fn visit_buffer<const D: usize, S: Shape<D>>(
    buffer: &[Entry<D>],
    shape: &mut S,
    hits: &mut Vec<u32>,
) -> Result<(), AllocError>
    ensures found { OnOk result
        (hits.new.items ≡ hits.old.items ++ numbers_found (S.has shape.old) (items_of buffer.now)) }
    ensures tests { S.tests shape.new ≤ S.tests shape.old + length buffer.now }
    ensures compares { S.compares shape.new ≡ S.compares shape.old }
    ensures has { S.has shape.new ≡ S.has shape.old }
    ensures crosses { S.crosses shape.new ≡ S.crosses shape.old }
{
    for entry in buffer {
        if !shape.contains(&entry.point) {
            continue;
        }
        hits.push(entry.doc)?;
    }
    Ok(())
}
