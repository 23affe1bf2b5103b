//! How much room the live entries of some segments take.

ghost use Rattle.std.specs.Prelude.{◌≤◌, ◌+◌, [], ◌∷◌, length, sum_by};
ghost use Rattle.segment_view.specs.LiveSegments.{live_segment, parts_among};

use crate::segments::Segments;
use live_bits::LiveBits;
use segment_file::SegmentHead;

/// No leaf has more entries: those of the largest leaf, of one dimension.
const MOST_IN_LEAF: usize = 500;

/// Room for the live entries of the segments of these ids, where each live number has one, and for a leaf more: the
/// entries of a leaf are added at once, live or dead.
pub(crate) fn room_for<const D: usize>(segments: &Segments<D>, ids: &[u64]) -> usize
    ensures { result ≤ 500 + sum_by (λ p. length p.live.live) (parts_among ids.now segments.now) }
{
    let mut room = MOST_IN_LEAF;
    for i in 0..segments.len() {
        let (head, live) = segments.part(i);
        let more = room_of(head, live, ids);
        room = room.saturating_add(more as usize);
    }
    room
}

/// Room for those of a segment, where its id is one of these. Never for more than the segment has.
fn room_of<const D: usize>(head: &SegmentHead<D>, live: &LiveBits, ids: &[u64]) -> u32
    ensures live { result ≤ sum_by (λ p. length p.live.live)
        (parts_among ids.now (live_segment head.now live.now ∷ [])) }
    ensures entries { result ≤ head.now.entries }
{
    if !ids.contains(&head.id()) {
        return 0;
    }
    live.live_count().min(head.entries())
}
