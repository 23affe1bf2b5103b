//! Entries in order.

ghost use Rattle.std.specs.Prelude.{◌≡◌};
ghost use Rattle.std.specs.List.Sorted.{IsPermutation, IsSorted};
ghost use Rattle.point_codec.specs.Seen.{items_of};
ghost use Rattle.leaf_codec.specs.LeafOrder.{item_of};
ghost use Rattle.document_checks.specs.Crowded.{by_number};

use point_codec::Entry;
use std::cmp::Ordering;

/// Puts entries in order of number, and then of coordinates.
pub(crate) fn put_in_order<const D: usize>(entries: &mut Vec<Entry<D>>)
    ensures sorted { IsSorted by_number (items_of entries.new.items) }
    ensures moved { IsPermutation (items_of entries.old.items) (items_of entries.new.items) }
{
    entries.sort_unstable_by(
        |a, b| -> Ordering
            ensures { result ≡ by_number (item_of a.entry.now) (item_of b.entry.now) }
        { by_number(a, b) },
    );
}

/// The order of entries by number, and then by coordinates.
fn by_number<const D: usize>(a: &Entry<D>, b: &Entry<D>) -> Ordering
    ensures { result ≡ by_number (item_of a.now) (item_of b.now) }
{
    match a.doc.cmp(&b.doc) {
        Ordering::Equal => a.point.c.cmp(&b.point.c),
        other => other,
    }
}
