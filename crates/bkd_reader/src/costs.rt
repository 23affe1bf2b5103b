//! What a walk counts, and what it would count without a page read.

ghost use Rattle.std.specs.Prelude.{◌≡◌, ◌≤◌, ◌+◌, ◌*◌, ℕ};
ghost use Rattle.point_codec.specs.Points.{Region};
ghost use Rattle.inner_pack.specs.Places.{Spot};
ghost use Rattle.inner_pack.specs.Trees.{IndexTree, leaf_count};
ghost use Rattle.inner_pack.specs.Bodies.{HasTree};
ghost use Rattle.inner_pack.specs.Nodes.{IsAt};
ghost use Rattle.segment_file.specs.Heads.{count_of};
ghost use Rattle.bkd_reader.specs.Below.{IsRoot};
ghost use Rattle.bkd_reader.specs.Counts.{asked_cells, tested_entries, touched_leaves};

use cell_relate::{Relation, Shape};
use inner_pack::NodeAt;
use segment_file::SegmentHead;

/// What a walk would meet, and of how many leaves.
#[derive(Clone, Copy, PartialEq, Eq, Debug)]
pub struct Tally {
    /// The entries, live or dead, of leaves whose own cell is crossed.
    pub tested: u64,
    /// The leaves whose own cell is not outside.
    pub touched: u64,
    /// How many leaves there are.
    pub leaves: u64,
}

/// What a walk over the segment costs for this shape. It reads no page and takes no memory, and asks for the cells that
/// the walk asks for: what lies below a cell that isn't crossed is counted at once.
pub fn survey<const D: usize, S: Shape<D>>(head: &SegmentHead<D>, shape: &mut S) -> Tally
    ensures counts { (root : Region) (t : IndexTree) → HasTree D head.now.index root t
        → (result.tested ≡ tested_entries (S.crosses shape.old) (count_of head.now) 0 t)
        × (result.touched ≡ touched_leaves (S.has shape.old) (S.crosses shape.old) t)
        × (result.leaves ≡ leaf_count t) }
    ensures tests { S.tests shape.new ≡ S.tests shape.old }
    ensures compares { (root : Region) (t : IndexTree) → HasTree D head.now.index root t
        → S.compares shape.new ≤ S.compares shape.old + asked_cells (S.crosses shape.old) root t }
    ensures has { S.has shape.new ≡ S.has shape.old }
    ensures crosses { S.crosses shape.new ≡ S.crosses shape.old }
{
    let (tested, touched) = cost(head, &head.index().walk(), shape);
    Tally {
        tested,
        touched,
        leaves: u64::from(head.index().leaves()),
    }
}

/// How many entries in leaves at or below a node the walk tests at most, and how many of these leaves it touches.
fn cost<const D: usize, S: Shape<D>>(
    head: &SegmentHead<D>,
    node: &NodeAt<'_, D>,
    shape: &mut S,
) -> (u64, u64)
    ensures tested { (first : ℕ) (s : Spot) (path : Region) (t : IndexTree) → IsRoot node.now first s path t
        → result.0 ≡ tested_entries (S.crosses shape.old) (count_of head.now) first t }
    ensures touched { (first : ℕ) (s : Spot) (path : Region) (t : IndexTree) → IsRoot node.now first s path t
        → result.1 ≡ touched_leaves (S.has shape.old) (S.crosses shape.old) t }
    ensures tests { S.tests shape.new ≡ S.tests shape.old }
    ensures compares { (first : ℕ) (s : Spot) (path : Region) (t : IndexTree) → IsAt node.now first s path t
        → S.compares shape.new ≤ S.compares shape.old + asked_cells (S.crosses shape.old) path t }
    ensures has { S.has shape.new ≡ S.has shape.old }
    ensures crosses { S.crosses shape.new ≡ S.crosses shape.old }
    ensures few_tested { result.0 ≤ 65535 * node.now.leaves }
    ensures few_touched { result.1 ≤ node.now.leaves }
{
    match shape.compare(&node.cell()) {
        Relation::Outside => (0, 0),
        Relation::Inside => (0, leaves_below(node)),
        Relation::Crosses => match node.children() {
            Some((left, right)) => {
                let (left_tested, left_touched) = cost(head, &left, shape);
                let (right_tested, right_touched) = cost(head, &right, shape);
                (left_tested + right_tested, left_touched + right_touched)
            }
            None => (entries_of(head, node), 1),
        },
    }
}

/// How many leaves there are at or below a node.
pub(crate) fn leaves_below<const D: usize>(node: &NodeAt<'_, D>) -> u64
    ensures { result ≡ node.now.leaves }
{
    u64::from(node.leaf_count())
}

/// How many entries a leaf has, live or dead.
pub(crate) fn entries_of<const D: usize>(head: &SegmentHead<D>, node: &NodeAt<'_, D>) -> u64
    ensures count { (first : ℕ) (s : Spot) (path : Region) (t : IndexTree) → IsAt node.now first s path t
        → result ≡ count_of head.now first }
    ensures few { result ≤ 65535 }
{
    u64::from(head.count_of(node.first_leaf()))
}
