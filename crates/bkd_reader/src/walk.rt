//! The walk: cells outside are left, cells inside are taken whole, and crossed ones are opened.

ghost use Rattle.std.specs.Prelude.{◌≡◌, ◌≤◌, ◌+◌, ◌*◌, ◌++◌, ℕ, List, ℤ, Bool, true, IsTrue, IfOk, OnOk};
ghost use Rattle.outer_io.specs.Files.{bytes_of};
ghost use Rattle.outer_io.specs.declared.file_name.FileName.TheVariants.{Segment};
ghost use Rattle.point_codec.specs.Points.{Item, Region};
ghost use Rattle.cell_relate.specs.Relations.{AllAnswer, KeepsShape};
ghost use Rattle.inner_pack.specs.Places.{Spot, front};
ghost use Rattle.inner_pack.specs.Trees.{IndexTree, cell_of};
ghost use Rattle.inner_pack.specs.Bodies.{HasTree};
ghost use Rattle.inner_pack.specs.Nodes.{IsAt};
ghost use Rattle.page_cache.specs.Cache.{Agrees};
ghost use Rattle.page_cache.specs.Evidence.{OnDamage, NotDamaged};
ghost use Rattle.page_cache.specs.Reading.{ReadsCached, ReadsNothing};
ghost use Rattle.segment_file.specs.Heads.{count_of};
ghost use Rattle.segment_file.specs.Segments.{HoldsTree, IsSegment};
ghost use Rattle.segment_file.specs.Damages.{IsLeafDamage, IsLeafDamageOf};
ghost use Rattle.bkd_reader.specs.Below.{IsRoot};
ghost use Rattle.bkd_reader.specs.Counts.{asked_cells, tested_entries, touched_leaves, IsCost};
ghost use Rattle.bkd_reader.specs.Hits.{AreHits, Appends, Begins, hits_in};
ghost use Rattle.bkd_reader.specs.Unread.{AreKept, IsAny, IsTouched, ReadsLeaves};

use crate::costs::leaves_below;
use crate::crossed::test_leaf;
use crate::inside::collect_leaf;
use cell_relate::{Relation, Shape};
use inner_pack::NodeAt;
use live_bits::LiveBits;
use outer_io::Pages;
use page_cache::{PageCache, PageFault};
use segment_file::SegmentHead;
use std::alloc::Global;

/// What a walk meets.
#[derive(Clone, Copy, PartialEq, Eq, Debug)]
pub struct Cost {
    /// The entries, live or dead, of leaves whose own cell is crossed.
    pub tested: u64,
    /// The leaves whose own cell is not outside.
    pub touched: u64,
}

/// Appends the numbers of the live entries of the segment that the shape has, in the order of the leaves, and answers
/// what the walk counts.
///
/// A number stands there once for each of its entries that the shape has. No cell is asked for below one that isn't
/// crossed, only entries of leaves whose own cell the shape crosses are tested, only leaves whose own cell is not
/// outside are read, and where their pages are all kept nothing is read. No page is looked at that the answer doesn't
/// need: a damage elsewhere in the segment is not met.
/// After an error the hits begin with what they held, and may have more behind it.
pub fn intersect<const D: usize, S: Shape<D>, F: Pages>(
    alloc: Global,
    head: &SegmentHead<D>,
    cache: &mut PageCache,
    folder: &mut F,
    shape: &mut S,
    live: &LiveBits,
    hits: &mut Vec<u32>,
) -> Result<Cost, PageFault>
    // What is found.
    ensures begins { Begins hits.old.items hits.new.items }
    ensures found { IsTrue F.told → Agrees (F.files folder.old) cache.old → (items : List Item)
        → IsSegment D (bytes_of (F.files folder.old (Segment head.now.id))) head.now items
        → OnOk result (hits.new.items ≡ hits.old.items ++ hits_in (S.has shape.old) live.now items) }
    ensures hits { IsTrue F.told → Agrees (F.files folder.old) cache.old → (root : Region) (t : IndexTree)
        → HasTree D head.now.index root t
        → OnOk result
        (Appends hits.old.items hits.new.items
        (AreHits D (bytes_of (F.files folder.old (Segment head.now.id))) head.now
        (S.has shape.old) live.now 0 front t)) }
    // What it costs, over every folder.
    ensures tests { (root : Region) (t : IndexTree) → HasTree D head.now.index root t
        → S.tests shape.new ≤ S.tests shape.old + tested_entries (S.crosses shape.old) (count_of head.now) 0 t }
    ensures compares { (root : Region) (t : IndexTree) → HasTree D head.now.index root t
        → S.compares shape.new ≤ S.compares shape.old + asked_cells (S.crosses shape.old) root t }
    ensures reads { (root : Region) (t : IndexTree) → HasTree D head.now.index root t
        → ReadsLeaves head.now (S.has shape.old) (S.crosses shape.old) front t (F.reads folder.old)
        (F.reads folder.new) cache.old cache.new result }
    ensures counts { (root : Region) (t : IndexTree) → HasTree D head.now.index root t
        → IfOk result (IsCost head.now (S.has shape.old) (S.crosses shape.old) t) }
    // What stays.
    ensures shape { KeepsShape (S.has shape.old) (S.has shape.new) (S.crosses shape.old) (S.crosses shape.new) }
    ensures reading { ReadsCached F.told (λ i. i ≡ head.now.id) (F.files folder.old) (F.files folder.new)
        cache.old cache.new (F.faults folder.old) (F.faults folder.new) result }
    // What an error says.
    ensures shown { (root : Region) (t : IndexTree) → HasTree D head.now.index root t
        → OnDamage result (IsLeafDamage D head.now 0 front t) }
    ensures damage { IsTrue F.told → Agrees (F.files folder.old) cache.old
        → OnDamage result (IsLeafDamageOf (F.files folder.old)) }
    ensures whole { IsTrue F.told → Agrees (F.files folder.old) cache.old → (items : List Item)
        → IsSegment D (bytes_of (F.files folder.old (Segment head.now.id))) head.now items → NotDamaged result }
{
    visit(
        alloc,
        head,
        &head.index().walk(),
        cache,
        folder,
        shape,
        live,
        hits,
    )
}

/// Appends the numbers of the live points of the shape at or below a node.
fn visit<const D: usize, S: Shape<D>, F: Pages>(
    alloc: Global,
    head: &SegmentHead<D>,
    node: &NodeAt<'_, D>,
    cache: &mut PageCache,
    folder: &mut F,
    shape: &mut S,
    live: &LiveBits,
    hits: &mut Vec<u32>,
) -> Result<Cost, PageFault>
    ensures begins { Begins hits.old.items hits.new.items }
    ensures hits { IsTrue F.told → Agrees (F.files folder.old) cache.old
        → (first : ℕ) (s : Spot) (path : Region) (t : IndexTree) → IsRoot node.now first s path t
        → OnOk result
        (Appends hits.old.items hits.new.items
        (AreHits D (bytes_of (F.files folder.old (Segment head.now.id))) head.now
        (S.has shape.old) live.now first s t)) }
    ensures tests { (first : ℕ) (s : Spot) (path : Region) (t : IndexTree) → IsRoot node.now first s path t
        → S.tests shape.new ≤ S.tests shape.old + tested_entries (S.crosses shape.old) (count_of head.now) first t }
    ensures compares { (first : ℕ) (s : Spot) (path : Region) (t : IndexTree) → IsAt node.now first s path t
        → S.compares shape.new ≤ S.compares shape.old + asked_cells (S.crosses shape.old) path t }
    ensures reads { (first : ℕ) (s : Spot) (path : Region) (t : IndexTree) → IsRoot node.now first s path t
        → F.reads folder.new ≤ F.reads folder.old + touched_leaves (S.has shape.old) (S.crosses shape.old) t }
    ensures kept { (first : ℕ) (s : Spot) (path : Region) (t : IndexTree) → IsRoot node.now first s path t
        → AreKept cache.old head.now (IsTouched (S.has shape.old) (S.crosses shape.old)) s t
        → ReadsNothing (F.reads folder.old) (F.reads folder.new) cache.old cache.new result }
    ensures tested { (first : ℕ) (s : Spot) (path : Region) (t : IndexTree) → IsRoot node.now first s path t
        → IfOk result (λ n. n.tested ≡ tested_entries (S.crosses shape.old) (count_of head.now) first t) }
    ensures touched { (first : ℕ) (s : Spot) (path : Region) (t : IndexTree) → IsRoot node.now first s path t
        → IfOk result (λ n. n.touched ≡ touched_leaves (S.has shape.old) (S.crosses shape.old) t) }
    ensures few_tested { IfOk result (λ n. n.tested ≤ 65535 * node.now.leaves) }
    ensures few_touched { IfOk result (λ n. n.touched ≤ node.now.leaves) }
    ensures has { S.has shape.new ≡ S.has shape.old }
    ensures crosses { S.crosses shape.new ≡ S.crosses shape.old }
    ensures reading { ReadsCached F.told (λ i. i ≡ head.now.id) (F.files folder.old) (F.files folder.new)
        cache.old cache.new (F.faults folder.old) (F.faults folder.new) result }
    ensures shown { (first : ℕ) (s : Spot) (path : Region) (t : IndexTree) → IsAt node.now first s path t
        → OnDamage result (IsLeafDamage D head.now first s t) }
    ensures damage { IsTrue F.told → Agrees (F.files folder.old) cache.old
        → OnDamage result (IsLeafDamageOf (F.files folder.old)) }
    ensures whole { IsTrue F.told → Agrees (F.files folder.old) cache.old
        → (first : ℕ) (s : Spot) (path : Region) (t : IndexTree) (items : List Item) → IsAt node.now first s path t
        → HoldsTree D (bytes_of (F.files folder.old (Segment head.now.id))) head.now first s t items
        → NotDamaged result }
{
    match shape.compare(&node.cell()) {
        Relation::Outside => Ok(Cost {
            tested: 0,
            touched: 0,
        }),
        Relation::Inside => take_all(alloc, head, node, cache, folder, live, hits),
        Relation::Crosses => match node.children() {
            Some((left, right)) => {
                let front = visit(alloc, head, &left, cache, folder, shape, live, hits)?;
                let back = visit(alloc, head, &right, cache, folder, shape, live, hits)?;
                Ok(Cost {
                    tested: front.tested + back.tested,
                    touched: front.touched + back.touched,
                })
            }
            None => test_leaf(alloc, head, node, cache, folder, shape, live, hits),
        },
    }
}

/// Appends the numbers of the live entries below a node all points of whose cell the shape has, and counts the leaves.
/// The shape is not asked, and no entry counts as tested.
fn take_all<const D: usize, F: Pages>(
    alloc: Global,
    head: &SegmentHead<D>,
    node: &NodeAt<'_, D>,
    cache: &mut PageCache,
    folder: &mut F,
    live: &LiveBits,
    hits: &mut Vec<u32>,
) -> Result<Cost, PageFault>
    ensures begins { Begins hits.old.items hits.new.items }
    ensures hits { IsTrue F.told → Agrees (F.files folder.old) cache.old
        → (first : ℕ) (s : Spot) (path : Region) (t : IndexTree) → IsRoot node.now first s path t
        → (has : List ℤ → Bool) → AllAnswer has true (cell_of path t)
        → OnOk result
        (Appends hits.old.items hits.new.items
        (AreHits D (bytes_of (F.files folder.old (Segment head.now.id))) head.now has live.now first s t)) }
    ensures untested { IfOk result (λ n. n.tested ≡ 0) }
    ensures touched { IfOk result (λ n. n.touched ≡ node.now.leaves) }
    ensures few_tested { IfOk result (λ n. n.tested ≤ 65535 * node.now.leaves) }
    ensures few_touched { IfOk result (λ n. n.touched ≤ node.now.leaves) }
    ensures reads { F.reads folder.new ≤ F.reads folder.old + node.now.leaves }
    ensures kept { (first : ℕ) (s : Spot) (path : Region) (t : IndexTree) → IsAt node.now first s path t
        → AreKept cache.old head.now IsAny s t
        → ReadsNothing (F.reads folder.old) (F.reads folder.new) cache.old cache.new result }
    ensures reading { ReadsCached F.told (λ i. i ≡ head.now.id) (F.files folder.old) (F.files folder.new)
        cache.old cache.new (F.faults folder.old) (F.faults folder.new) result }
    ensures shown { (first : ℕ) (s : Spot) (path : Region) (t : IndexTree) → IsAt node.now first s path t
        → OnDamage result (IsLeafDamage D head.now first s t) }
    ensures damage { IsTrue F.told → Agrees (F.files folder.old) cache.old
        → OnDamage result (IsLeafDamageOf (F.files folder.old)) }
    ensures whole { IsTrue F.told → Agrees (F.files folder.old) cache.old
        → (first : ℕ) (s : Spot) (path : Region) (t : IndexTree) (items : List Item) → IsAt node.now first s path t
        → HoldsTree D (bytes_of (F.files folder.old (Segment head.now.id))) head.now first s t items
        → NotDamaged result }
{
    collect_all(alloc, head, node, cache, folder, live, hits)?;
    Ok(Cost {
        tested: 0,
        touched: leaves_below(node),
    })
}

/// Appends the numbers of the live entries below a node all points of whose cell the shape has. The shape is not asked.
fn collect_all<const D: usize, F: Pages>(
    alloc: Global,
    head: &SegmentHead<D>,
    node: &NodeAt<'_, D>,
    cache: &mut PageCache,
    folder: &mut F,
    live: &LiveBits,
    hits: &mut Vec<u32>,
) -> Result<(), PageFault>
    ensures begins { Begins hits.old.items hits.new.items }
    ensures hits { IsTrue F.told → Agrees (F.files folder.old) cache.old
        → (first : ℕ) (s : Spot) (path : Region) (t : IndexTree) → IsRoot node.now first s path t
        → (has : List ℤ → Bool) → AllAnswer has true (cell_of path t)
        → OnOk result
        (Appends hits.old.items hits.new.items
        (AreHits D (bytes_of (F.files folder.old (Segment head.now.id))) head.now has live.now first s t)) }
    ensures reads { F.reads folder.new ≤ F.reads folder.old + node.now.leaves }
    ensures kept { (first : ℕ) (s : Spot) (path : Region) (t : IndexTree) → IsAt node.now first s path t
        → AreKept cache.old head.now IsAny s t
        → ReadsNothing (F.reads folder.old) (F.reads folder.new) cache.old cache.new result }
    ensures reading { ReadsCached F.told (λ i. i ≡ head.now.id) (F.files folder.old) (F.files folder.new)
        cache.old cache.new (F.faults folder.old) (F.faults folder.new) result }
    ensures shown { (first : ℕ) (s : Spot) (path : Region) (t : IndexTree) → IsAt node.now first s path t
        → OnDamage result (IsLeafDamage D head.now first s t) }
    ensures damage { IsTrue F.told → Agrees (F.files folder.old) cache.old
        → OnDamage result (IsLeafDamageOf (F.files folder.old)) }
    ensures whole { IsTrue F.told → Agrees (F.files folder.old) cache.old
        → (first : ℕ) (s : Spot) (path : Region) (t : IndexTree) (items : List Item) → IsAt node.now first s path t
        → HoldsTree D (bytes_of (F.files folder.old (Segment head.now.id))) head.now first s t items
        → NotDamaged result }
{
    match node.children() {
        Some((left, right)) => {
            collect_all(alloc, head, &left, cache, folder, live, hits)?;
            collect_all(alloc, head, &right, cache, folder, live, hits)
        }
        None => collect_leaf(alloc, head, node, cache, folder, live, hits),
    }
}
