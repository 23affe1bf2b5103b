//! What queries would cost, without a page read.

ghost use Rattle.std.specs.Prelude.{◌≡◌, ◌≤◌, ◌+◌, ◌*◌, [], ◌∷◌};
ghost use Rattle.nearest_query.specs.Segments.{AreNearLeaves};
ghost use Rattle.segment_view.specs.LiveSegments.{heads_of};
ghost use Rattle.segment_view.specs.Costs.{leaves_in, AreTested, AreTouched};

use crate::segments::Segments;
use bkd_reader::Tally;
use cell_relate::Shape;
use point_codec::Point;
use segment_file::SegmentHead;

/// What a visit of the segments costs for this shape, together. It reads no page and takes no memory, and asks for the
/// cells that the visit asks for.
pub fn survey<const D: usize, S: Shape<D>>(segments: &Segments<D>, shape: &mut S) -> Tally
    ensures tested { AreTested D (S.crosses shape.old) (heads_of segments.now) result.tested }
    ensures touched { AreTouched D (S.has shape.old) (S.crosses shape.old) (heads_of segments.now) result.touched }
    ensures leaves { result.leaves ≡ leaves_in (heads_of segments.now) }
    ensures tests { S.tests shape.new ≡ S.tests shape.old }
    ensures compares { S.compares shape.new ≤ S.compares shape.old + 2 * leaves_in (heads_of segments.now) }
    ensures has { S.has shape.new ≡ S.has shape.old }
    ensures crosses { S.crosses shape.new ≡ S.crosses shape.old }
{
    let mut all = Tally {
        tested: 0,
        touched: 0,
        leaves: 0,
    };
    for i in 0..segments.len() {
        let (head, _) = segments.part(i);
        let one = survey_one(head, shape);
        all = Tally {
            tested: all.tested + one.tested,
            touched: all.touched + one.touched,
            leaves: all.leaves + one.leaves,
        };
    }
    all
}

/// How many leaves of one segment a query of this shape tests and touches.
fn survey_one<const D: usize, S: Shape<D>>(head: &SegmentHead<D>, shape: &mut S) -> Tally
    ensures tested { AreTested D (S.crosses shape.old) (head.now ∷ []) result.tested }
    ensures touched { AreTouched D (S.has shape.old) (S.crosses shape.old) (head.now ∷ []) result.touched }
    ensures leaves { result.leaves ≡ head.now.index.leaves }
    ensures tests { S.tests shape.new ≡ S.tests shape.old }
    ensures compares { S.compares shape.new ≤ S.compares shape.old + 2 * head.now.index.leaves }
    ensures has { S.has shape.new ≡ S.has shape.old }
    ensures crosses { S.crosses shape.new ≡ S.crosses shape.old }
    ensures few_tested { result.tested ≤ 4000 * 8388608 }
    ensures few_touched { result.touched ≤ 8388608 }
    ensures few_leaves { result.leaves ≤ 8388608 }
{
    head.index().is_spelled();
    bkd_reader::survey(head, shape)
}

/// How many leaves of the segments have a cell whose least squared distance from the point is at most the bound; all
/// where there is none.
/// Nothing is read, and no memory is taken.
pub fn survey_near<const D: usize>(
    segments: &Segments<D>,
    at: &Point<D>,
    bound: Option<u128>,
) -> u64
    ensures { AreNearLeaves D at.now.c bound (heads_of segments.now) result }
{
    let mut near = 0;
    for head in segments.heads() {
        near += near_one(head, at, bound);
    }
    near
}

/// How many leaves of one segment have a cell within the bound.
fn near_one<const D: usize>(head: &SegmentHead<D>, at: &Point<D>, bound: Option<u128>) -> u64
    ensures value { AreNearLeaves D at.now.c bound (head.now ∷ []) result }
    ensures few { result ≤ 8388608 }
{
    head.index().is_spelled();
    nearest_query::survey_near(head, at, bound)
}
