//! How many leaves are as near as a search goes.

ghost use Rattle.std.specs.Prelude.{◌≡◌, ◌≤◌, ◌+◌, ℕ, length, IfOk, if◌then◌else◌};
ghost use Rattle.point_codec.specs.Points.{Region};
ghost use Rattle.inner_pack.specs.Places.{Spot};
ghost use Rattle.inner_pack.specs.Trees.{IndexTree, HasCells};
ghost use Rattle.inner_pack.specs.Bodies.{HasTree};
ghost use Rattle.inner_pack.specs.Nodes.{IsAt};
ghost use Rattle.nearest_query.specs.Segments.{is_within, near_leaves};
ghost use Rattle.nearest_query.specs.Search.{World, HasRoots, one_within, sum_of_dead};

use inner_pack::NodeAt;
use live_bits::LiveBits;
use point_codec::Point;
use segment_file::SegmentHead;
use std::alloc::AllocError;

/// How many leaves a search took out, together with those within the bound of the segments without a live number, which
/// no search looks at. Memory tells that they are 2 ^ 64 or more: no memory has room for so many.
pub fn survey_dead<const D: usize>(
    taken: u64,
    heads: &[SegmentHead<D>],
    lives: &[LiveBits],
    at: &Point<D>,
    bound: Option<u128>,
) -> Result<u64, AllocError>
    requires { length lives.now ≡ length heads.now }
    ensures { (w : World) → HasRoots D w → w.heads ≡ heads.now → w.lives ≡ lives.now → w.at ≡ at.now.c
        → IfOk result (λ n. n ≡ taken + sum_of_dead w (one_within w bound) (length heads.now)) }
{
    let mut near = taken;
    for i in 0..heads.len() {
        if lives[i].live_count() > 0 {
            continue;
        }
        let Some(more) = near.checked_add(survey_near(&heads[i], at, bound)) else {
            return Err(AllocError);
        };
        near = more;
    }
    Ok(near)
}

/// How many leaves of the segment have a cell whose least squared distance from the point is at most the bound; all
/// where there is none. Nothing is read, no memory is taken, and below a node that is farther nothing is looked at.
pub fn survey_near<const D: usize>(head: &SegmentHead<D>, at: &Point<D>, bound: Option<u128>) -> u64
    ensures { (root : Region) (t : IndexTree) → HasTree D head.now.index root t
        → result ≡ near_leaves at.now.c bound t }
{
    near_below(&head.index().walk(), at, bound)
}

/// How many leaves at or below a node have a cell within the bound.
fn near_below<const D: usize>(node: &NodeAt<'_, D>, at: &Point<D>, bound: Option<u128>) -> u64
    ensures value { (first : ℕ) (s : Spot) (path : Region) (t : IndexTree) → IsAt node.now first s path t
        → HasCells D path t → result ≡ near_leaves at.now.c bound t }
    ensures fits { result ≤ node.now.leaves }
{
    let one = one_within(node.cell().least_dist2(at), bound);
    if one == 0 {
        return 0;
    }
    match node.children() {
        Some((left, right)) => near_below(&left, at, bound) + near_below(&right, at, bound),
        None => one,
    }
}

/// 1 where the distance is at most the bound, and else 0.
fn one_within(dist2: u128, bound: Option<u128>) -> u64
    ensures value { result ≡ if is_within bound dist2 then 1 else 0 }
    ensures small { result ≤ 1 }
{
    match bound {
        None => 1,
        Some(greatest) if dist2 <= greatest => 1,
        Some(_) => 0,
    }
}
