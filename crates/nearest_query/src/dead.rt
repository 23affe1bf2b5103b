//! Leaves without a live entry, which the cache remembers as dead.

ghost use Rattle.std.specs.Prelude.{◌≡◌, ◌<◌, ◌⊎◌, ◌↔◌, ℕ, List, [], IsTrue};
ghost use Rattle.page_cache.specs.Cache.{Keeps, KeepsDead};
ghost use Rattle.segment_file.specs.Heads.{page_of};
ghost use Rattle.nearest_query.specs.Dead.{IsKnownDead};
ghost use Rattle.nearest_query.specs.Segments.{live_items};

use inner_pack::{LeafPlace, NodeAt};
use leaf_codec::LeafView;
use live_bits::LiveBits;
use page_cache::PageCache;
use segment_file::SegmentHead;

/// Whether the live set is watched over, and leaves of the segment may be dead: not while each entry has a live number
/// of its own.
pub fn may_be_dead<const D: usize>(head: &SegmentHead<D>, live: &LiveBits, watched: bool) -> bool
    ensures { IsTrue result → IsTrue watched }
{
    watched && live.live_count() < head.entries()
}

/// Whether the live set is watched over, and no entry of the leaf is live.
pub fn has_none_live<const D: usize>(view: &LeafView<'_, D>, live: &LiveBits, watched: bool) -> bool
    ensures { IsTrue result → IsTrue watched × (live_items live.now view.now ≡ []) }
{
    if !watched {
        return false;
    }
    for i in 0..view.count() {
        if live.is_live(view.doc(i)) {
            return false;
        }
    }
    true
}

/// Whether the live set is watched over, and the leaf of the node is known to be dead. Its page isn't used by that.
pub fn is_known_dead<const D: usize>(
    cache: &PageCache,
    head: &SegmentHead<D>,
    node: &NodeAt<'_, D>,
    watched: bool,
) -> bool
    requires { node.now.leaves ≡ 1 }
    ensures { IsTrue result → IsTrue watched × IsKnownDead cache.now head.now node.now }
{
    if !watched {
        return false;
    }
    let Some(place) = node.leaf_place() else {
        unreachable!()
    };
    cache.is_dead(head.id(), head.page_of(place), place.offset, place.length)
}

/// Remembers the leaf at the place as dead, if it is.
pub fn remember<const D: usize>(
    cache: &mut PageCache,
    head: &SegmentHead<D>,
    place: LeafPlace,
    dead: bool,
)
    requires { place.page < 8388608 }
    ensures marks { (i n offset len : ℕ) (page : List ℕ) → KeepsDead cache.new i n offset len page
        → KeepsDead cache.old i n offset len page
        ⊎ (IsTrue dead × Keeps cache.old i n page × (i ≡ head.now.id) × (n ≡ page_of head.now place.page)
        × (offset ≡ place.offset) × (len ≡ place.length)) }
    ensures keeps { (i n : ℕ) (page : List ℕ) → Keeps cache.new i n page ↔ Keeps cache.old i n page }
{
    if dead {
        cache.mark_dead(head.id(), head.page_of(place), place.offset, place.length);
    }
}
