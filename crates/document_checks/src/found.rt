//! Entries beside the live numbers that need them.

ghost use Rattle.std.specs.Prelude.{◌≡◌, true, IfOk, IfNone, IfSome, count_by};
ghost use Rattle.point_codec.specs.Seen.{items_of};
ghost use Rattle.leaf_codec.specs.LeafOrder.{NoneTwice};
ghost use Rattle.documents.specs.Entries.{has_entry};
ghost use Rattle.document_checks.specs.Crowded.{AreFew, IsLeastCrowded};

use crate::Memory;
use crate::doubles::doubled;
use live_bits::LiveBits;
use point_codec::Entry;
use std::alloc::Global;

/// How many of the live numbers have an entry; and the least number of which one entry stands twice in the list, or of
/// which there are more than 16 entries, if there is one. Entries may stand in any order. Where their numbers are live
/// and all different the list is gone through once, and the call takes memory of the set's bits; else also that of
/// `doubled`, one after the other.
pub fn tally<const D: usize>(
    alloc: Global,
    live: &LiveBits,
    entries: &[Entry<D>],
) -> Result<(u32, Option<u32>), Memory>
    ensures found { IfOk result
        (λ r. r.0 ≡ count_by (λ number. has_entry number (items_of entries.now)) live.now.live) }
    ensures none { IfOk result (λ r. IfNone r.1 (NoneTwice (items_of entries.now) × AreFew (items_of entries.now))) }
    ensures some { IfOk result (λ r. IfSome r.1 (λ number. IsLeastCrowded number (items_of entries.now))) }
{
    let found = live_with_entries(alloc, live, entries)?;
    if found.1 {
        return Ok((found.0, None));
    }
    Ok((found.0, doubled(alloc, entries)?))
}

/// How many of the live numbers have an entry, and whether each entry has a live number that none before it has.
fn live_with_entries<const D: usize>(
    alloc: Global,
    live: &LiveBits,
    entries: &[Entry<D>],
) -> Result<(u32, bool), Memory>
    ensures found { IfOk result
        (λ r. r.0 ≡ count_by (λ number. has_entry number (items_of entries.now)) live.now.live) }
    ensures alone { IfOk result
        (λ r. r.1 ≡ true → NoneTwice (items_of entries.now) × AreFew (items_of entries.now)) }
{
    let mut left = live.copy(alloc)?;
    let mut alone = true;
    for entry in entries {
        alone &= left.clear(entry.doc);
    }
    Ok((live.live_count() - left.live_count(), alone))
}
