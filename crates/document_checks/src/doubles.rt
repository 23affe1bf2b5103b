//! Entries that stand twice, and numbers with too many of them.

ghost use Rattle.std.specs.Prelude.{◌≡◌, ◌<◌, ◌≤◌, ◌+◌, ◌-◌, ◌/◌, ◌&&◌, ◌||◌, ℕ, true, false, nat_eq, length, filter};
ghost use Rattle.std.specs.Prelude.{count_by, All, IfOk, IfSome, IfNone};
ghost use Rattle.point_codec.specs.Seen.{items_of};
ghost use Rattle.point_codec.specs.declared.entries.Entry.{Entry};
ghost use Rattle.leaf_codec.specs.LeafOrder.{item_of, NoneTwice};
ghost use Rattle.document_checks.specs.Marks.{is_marked};
ghost use Rattle.document_checks.specs.Crowded.{by_number, AreFew, IsFirstRepeat, IsLeastCrowded, repeats_at};

use crate::Memory;
use crate::marks::{is_marked, mark};
use point_codec::Entry;
use std::alloc::Global;
use std::cmp::Ordering;

/// The greatest number of points of one document.
const MOST_OF_ONE: usize = 16;

/// The least number of which one entry stands twice in the list, or of which there are more than 16 entries, if there
/// is one. Entries may stand in any order. Where no two entries have one number, nothing is sorted, and the call
/// takes memory of two bits for each number from the least of the entries to the greatest; else also that of the
/// entries whose number another one has.
pub fn doubled<const D: usize>(alloc: Global, entries: &[Entry<D>]) -> Result<Option<u32>, Memory>
    ensures none { IfOk result (λ r. IfNone r (NoneTwice (items_of entries.now) × AreFew (items_of entries.now))) }
    ensures some { IfOk result (λ r. IfSome r (λ number. IsLeastCrowded number (items_of entries.now))) }
{
    let (least, greatest) = reach(entries);
    let words = (greatest.saturating_sub(least) / 64 + 1) as usize;
    let Some(again) = numbers_again(alloc, entries, least, words)? else {
        return Ok(None);
    };
    let list = entries_again(alloc, entries, least, again.as_slice())?;
    Ok(crowded(list))
}

/// Bounds of the entries' numbers: the least and the greatest, where there are entries.
fn reach<const D: usize>(entries: &[Entry<D>]) -> (u32, u32)
    ensures { All (λ e. (result.0 ≤ e.doc) × (e.doc ≤ result.1)) entries.now }
{
    let mut least = u32::MAX;
    let mut greatest = 0;
    for entry in entries {
        least = least.min(entry.doc);
        greatest = greatest.max(entry.doc);
    }
    (least, greatest)
}

/// Marks for the numbers that two entries have, at their places behind `base`. None where there is no such number.
fn numbers_again<const D: usize>(
    alloc: Global,
    entries: &[Entry<D>],
    base: u32,
    words: usize,
) -> Result<Option<Vec<u64>>, Memory>
    requires { All (λ e. (base ≤ e.doc) × ((e.doc - base) / 64 < words)) entries.now }
    ensures none { IfOk result (λ r. IfNone r ((n : ℕ) → count_by (λ e. nat_eq e.doc n) entries.now ≤ 1)) }
    ensures some { IfOk result
        (λ r. IfSome r
        (λ v. (n : ℕ) → 2 ≤ count_by (λ e. nat_eq e.doc n) entries.now → is_marked v.items (n - base) ≡ true)) }
    ensures len { IfOk result (λ r. IfSome r (λ v. length v.items ≡ words)) }
{
    let mut seen = vec![in alloc; 0u64; words]?;
    let mut again = vec![in alloc; 0u64; words]?;
    if !mark_all(seen.as_mut_slice(), again.as_mut_slice(), entries, base) {
        return Ok(None);
    }
    Ok(Some(again))
}

/// Marks the number of each entry as seen, and in `again` where it was seen, at their places behind `base`. Answers
/// whether one was.
fn mark_all<const D: usize>(
    seen: &mut [u64],
    again: &mut [u64],
    entries: &[Entry<D>],
    base: u32,
) -> bool
    requires room { All (λ e. (base ≤ e.doc) × ((e.doc - base) / 64 < length seen.old)) entries.now }
    requires as_long { length again.old ≡ length seen.old }
    ensures none { result ≡ false → (n : ℕ) → count_by (λ e. nat_eq e.doc n) entries.now ≤ 1 }
    ensures some { (n : ℕ) → 2 ≤ count_by (λ e. nat_eq e.doc n) entries.now → is_marked again.new (n - base) ≡ true }
{
    let mut some = false;
    for entry in entries {
        some |= mark_again(seen, again, entry.doc - base);
    }
    some
}

/// Marks the number as seen, and in `again` where it was seen. Answers whether it was.
fn mark_again(seen: &mut [u64], again: &mut [u64], number: u32) -> bool
    requires seen { number / 64 < length seen.old }
    requires again { number / 64 < length again.old }
    ensures was { result ≡ is_marked seen.old number }
    ensures seen { (n : ℕ) → is_marked seen.new n ≡ (is_marked seen.old n || nat_eq n number) }
    ensures again { (n : ℕ)
        → is_marked again.new n ≡ (is_marked again.old n || (is_marked seen.old number && nat_eq n number)) }
{
    let was = mark(seen, number);
    if was {
        mark(again, number);
    }
    was
}

/// The entries whose numbers are marked, at their places behind `base`.
fn entries_again<const D: usize>(
    alloc: Global,
    entries: &[Entry<D>],
    base: u32,
    again: &[u64],
) -> Result<Vec<Entry<D>>, Memory>
    requires { All (λ e. (base ≤ e.doc) × ((e.doc - base) / 64 < length again.now)) entries.now }
    ensures { IfOk result (λ v. v.items ≡ filter (λ e. is_marked again.now (e.doc - base)) entries.now) }
{
    let mut list = Vec::new(alloc);
    for entry in entries {
        if is_marked(again, entry.doc - base) {
            list.push(*entry)?;
        }
    }
    Ok(list)
}

/// The least number of which one entry stands twice in the list, or of which there are more than 16 entries.
fn crowded<const D: usize>(list: Vec<Entry<D>>) -> Option<u32>
    ensures none { IfNone result (NoneTwice (items_of list.entry.items) × AreFew (items_of list.entry.items)) }
    ensures some { IfSome result (λ number. IsLeastCrowded number (items_of list.entry.items)) }
{
    let mut list = list;
    list.sort_unstable_by(
        |a, b| -> Ordering
            ensures { result ≡ by_number (item_of a.entry.now) (item_of b.entry.now) }
        { by_number(a, b) },
    );
    first_crowded(list.as_slice())
}

/// The order of entries by number, and then by coordinates.
fn by_number<const D: usize>(a: &Entry<D>, b: &Entry<D>) -> Ordering
    ensures { result ≡ by_number (item_of a.now) (item_of b.now) }
{
    match a.doc.cmp(&b.doc) {
        Ordering::Equal => a.point.c.cmp(&b.point.c),
        other => other,
    }
}

/// The number of the first entry that repeats one before it.
fn first_crowded<const D: usize>(list: &[Entry<D>]) -> Option<u32>
    ensures none { IfNone result
        ((k : ℕ) (d : Entry D) → 1 ≤ k → k < length list.now → repeats_at d list.now k ≡ false) }
    ensures some { IfSome result (IsFirstRepeat list.now) }
{
    for k in 1..list.len() {
        if repeats_at(list, k) {
            return Some(list[k].doc);
        }
    }
    None
}

/// Whether entry `k` is the one before it, or has the number of the sixteenth before it.
fn repeats_at<const D: usize>(list: &[Entry<D>], k: usize) -> bool
    requires some { 1 ≤ k }
    requires within { k < length list.now }
    ensures { (d : Entry D) → result ≡ repeats_at d list.now k }
{
    if by_number(&list[k - 1], &list[k]) == Ordering::Equal {
        return true;
    }
    k >= MOST_OF_ONE && list[k - MOST_OF_ONE].doc == list[k].doc
}
