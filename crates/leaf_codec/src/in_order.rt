//! Whether the entries of a leaf stand in leaf order and inside a cell.

ghost use Rattle.std.specs.Prelude.{◌≡◌, ◌≢◌, ◌≤◌, ◌<◌, ◌^◌, ◌+◌, ◌*◌, ◌↔◌, ℕ, IsTrue, length, true, pos};
ghost use Rattle.std.specs.Prelude.{nat_lt, if◌then◌else◌, slice_index_or, FitsSigned, bit_and, take, drop};
ghost use Rattle.std.specs.Int.{w32};
ghost use Rattle.std.specs.declared.cmp.Ordering.TheVariants.{Less};
ghost use Rattle.point_codec.specs.Points.{in_box};
ghost use Rattle.point_codec.specs.Keys.{key};
ghost use Rattle.point_codec.specs.Seen.{region_of};
ghost use Rattle.leaf_codec.specs.LeafOrder.{leaf_cmp, item_of};
ghost use Rattle.leaf_codec.specs.Raw.{offset_at, key_at, point_at, raw_item};
ghost use Rattle.leaf_codec.specs.Views.{IsParts, IsReadable, AreSlots, AscendInside, items_said, raw_numbers_of};
ghost use Rattle.leaf_codec.specs.Views.{raw_keys_of};
ghost use Rattle.leaf_codec.specs.Words.{number_of};

use crate::order::by_leaf_order;
use crate::read_numbers::Numbers;
use crate::read_parts::{Parts, Slots};
use crate::words::word;
use point_codec::{Cell, Entry, Point, sortable};

/// Whether the entries ascend strictly in leaf order and lie inside the cell.
pub fn are_in_order<const D: usize>(
    numbers: &Numbers,
    parts: &Parts,
    slots: &Slots<D>,
    cell: &Cell<D>,
) -> bool
    requires readable { IsReadable D numbers.now parts.now slots.now }
    requires some { 1 ≤ numbers.now.count }
    ensures { IsTrue result ↔ AscendInside (if nat_lt parts.now.sorted D then parts.now.sorted else 0)
        (region_of cell.now) (items_said D numbers.now parts.now) }
{
    let d = leading::<D>(parts);
    if !ascend(numbers, parts, slots, d) {
        return false;
    }
    lie_inside(parts, slots, cell, d)
}

/// The dimension that leads in leaf order.
pub fn leading<const D: usize>(parts: &Parts) -> usize
    requires { 1 ≤ D }
    ensures value { result ≡ if nat_lt parts.now.sorted D then parts.now.sorted else 0 }
    ensures within { result < D }
{
    if parts.sorted < D { parts.sorted } else { 0 }
}

/// Entry `i` of the leaf: its document's number and its point.
fn entry<const D: usize>(numbers: &Numbers, parts: &Parts, slots: &Slots<D>, i: usize) -> Entry<D>
    requires readable { IsReadable D numbers.now parts.now slots.now }
    requires within { i < numbers.now.count }
    ensures { item_of result ≡ raw_item D (raw_numbers_of numbers.now) (raw_keys_of parts.now) i }
{
    Entry {
        doc: numbers.number(i),
        point: slots.point(parts, i),
    }
}

/// Whether the entries ascend strictly in leaf order where dimension `d` leads.
fn ascend<const D: usize>(numbers: &Numbers, parts: &Parts, slots: &Slots<D>, d: usize) -> bool
    requires readable { IsReadable D numbers.now parts.now slots.now }
    requires some { 1 ≤ numbers.now.count }
    requires dimension { d < D }
    ensures { IsTrue result ↔ ((k : ℕ) → k + 1 < numbers.now.count
        → leaf_cmp d (raw_item D (raw_numbers_of numbers.now) (raw_keys_of parts.now) k)
        (raw_item D (raw_numbers_of numbers.now) (raw_keys_of parts.now) (k + 1)) ≡ Less) }
{
    let mut at = climb(numbers, parts, slots, d, 1);
    while at < numbers.count {
        let last = entry(numbers, parts, slots, at - 1);
        let next = entry(numbers, parts, slots, at);
        if !by_leaf_order(d, &last, &next).is_lt() {
            return false;
        }
        at = climb(numbers, parts, slots, d, at + 1);
    }
    true
}

/// The first entry from `from` on that is not above the one before by its coordinate `d` and then its number, or the
/// number of entries. Entries that tie in both are few, so they are left to the caller.
fn climb<const D: usize>(
    numbers: &Numbers,
    parts: &Parts,
    slots: &Slots<D>,
    d: usize,
    from: usize,
) -> usize
    requires readable { IsReadable D numbers.now parts.now slots.now }
    requires dimension { d < D }
    requires from { (1 ≤ from) × (from ≤ numbers.now.count) }
    ensures within { (from ≤ result) × (result ≤ numbers.now.count) }
    ensures up { (k : ℕ) → from ≤ k + 1 → k + 1 < result
        → leaf_cmp d (raw_item D (raw_numbers_of numbers.now) (raw_keys_of parts.now) k)
        (raw_item D (raw_numbers_of numbers.now) (raw_keys_of parts.now) (k + 1)) ≡ Less }
{
    let mut last = place(numbers, parts, slots, d, from - 1);
    for i in from..numbers.count {
        let next = place(numbers, parts, slots, d, i);
        if next <= last {
            return i;
        }
        last = next;
    }
    numbers.count
}

/// The key of entry `i` in dimension `d` and behind it its number, in one word, so that one comparison does for both.
fn place<const D: usize>(
    numbers: &Numbers,
    parts: &Parts,
    slots: &Slots<D>,
    d: usize,
    i: usize,
) -> u64
    requires readable { IsReadable D numbers.now parts.now slots.now }
    requires dimension { d < D }
    requires within { i < numbers.now.count }
    ensures value { result ≡ number_of (key_at D (raw_keys_of parts.now) i d) * 2 ^ 32 +
        (numbers.now.least + offset_at (raw_numbers_of numbers.now) i) }
    ensures small { numbers.now.least + offset_at (raw_numbers_of numbers.now) i < 2 ^ 32 }
{
    u64::from(slots.rank(parts, i, d)) * (1 << 32) + u64::from(numbers.number(i))
}

/// Whether the points lie inside the cell, where their coordinates ascend in dimension `d`, the leading one.
fn lie_inside<const D: usize>(parts: &Parts, slots: &Slots<D>, cell: &Cell<D>, d: usize) -> bool
    requires dims { (1 ≤ D) × (D ≤ 8) }
    requires parts { IsParts D parts.now }
    requires slots { AreSlots D parts.now slots.now }
    requires some { 1 ≤ parts.now.count }
    requires leading { d ≡ if nat_lt parts.now.sorted D then parts.now.sorted else 0 }
    requires rises { (k : ℕ) → k + 1 < parts.now.count
        → number_of (key_at D (raw_keys_of parts.now) k d) ≤ number_of
        (key_at D (raw_keys_of parts.now) (k + 1) d) }
    ensures { IsTrue result ↔
        ((i : ℕ) → i < parts.now.count → in_box (region_of cell.now) (point_at D (raw_keys_of parts.now) i) ≡ true) }
{
    let lo = coordinates(&cell.lo);
    let hi = coordinates(&cell.hi);
    for e in 0..D {
        let low = key_number(lo, e);
        let high = key_number(hi, e);
        if !lie_between(parts, slots, d, e, low, high) {
            return false;
        }
    }
    true
}

/// The key of coordinate `e`, as a number.
fn key_number(coordinates: &[i32], e: usize) -> u32
    requires { e < length coordinates.now }
    ensures value { result ≡ number_of (key (slice_index_or coordinates.now e (pos 0))) }
    ensures fits { FitsSigned w32 (slice_index_or coordinates.now e (pos 0)) }
{
    u32::from_be_bytes(sortable(coordinates[e]))
}

/// The coordinates of the point.
fn coordinates<const D: usize>(p: &Point<D>) -> &[i32]
    requires { D ≤ 8 }
    ensures value { result.now ≡ p.now.c }
    ensures long { length p.now.c ≡ D }
{
    &p.c
}

/// Whether the keys in dimension `e` lie between two numbers, where those in dimension `d`, the leading one, ascend.
fn lie_between<const D: usize>(
    parts: &Parts,
    slots: &Slots<D>,
    d: usize,
    e: usize,
    low: u32,
    high: u32,
) -> bool
    requires dims { (1 ≤ D) × (D ≤ 8) }
    requires parts { IsParts D parts.now }
    requires slots { AreSlots D parts.now slots.now }
    requires some { 1 ≤ parts.now.count }
    requires leading { d ≡ if nat_lt parts.now.sorted D then parts.now.sorted else 0 }
    requires rises { (k : ℕ) → k + 1 < parts.now.count
        → number_of (key_at D (raw_keys_of parts.now) k d) ≤ number_of
        (key_at D (raw_keys_of parts.now) (k + 1) d) }
    requires dimension { e < D }
    ensures { IsTrue result ↔
        ((i : ℕ) → i < parts.now.count → (low ≤ number_of (key_at D (raw_keys_of parts.now) i e))
        × (number_of (key_at D (raw_keys_of parts.now) i e) ≤ high)) }
{
    if e == d {
        return ends_between(parts, slots, e, low, high);
    }
    rests_between(parts, slots, e, low, high)
}

/// Whether the keys in dimension `e`, which ascend, lie between two numbers: the first and the last one tell.
fn ends_between<const D: usize>(
    parts: &Parts,
    slots: &Slots<D>,
    e: usize,
    low: u32,
    high: u32,
) -> bool
    requires dims { (1 ≤ D) × (D ≤ 8) }
    requires parts { IsParts D parts.now }
    requires slots { AreSlots D parts.now slots.now }
    requires some { 1 ≤ parts.now.count }
    requires dimension { e < D }
    requires rises { (k : ℕ) → k + 1 < parts.now.count
        → number_of (key_at D (raw_keys_of parts.now) k e) ≤ number_of
        (key_at D (raw_keys_of parts.now) (k + 1) e) }
    ensures { IsTrue result ↔
        ((i : ℕ) → i < parts.now.count → (low ≤ number_of (key_at D (raw_keys_of parts.now) i e))
        × (number_of (key_at D (raw_keys_of parts.now) i e) ≤ high)) }
{
    if slots.rank(parts, 0, e) < low {
        return false;
    }
    slots.rank(parts, parts.count - 1, e) <= high
}

/// Whether the keys in dimension `e`, which isn't the sorted one, lie between two numbers: the prefix is the same in
/// all of them, so what is left of each tells.
fn rests_between<const D: usize>(
    parts: &Parts,
    slots: &Slots<D>,
    e: usize,
    low: u32,
    high: u32,
) -> bool
    requires dims { (1 ≤ D) × (D ≤ 8) }
    requires parts { IsParts D parts.now }
    requires slots { AreSlots D parts.now slots.now }
    requires some { 1 ≤ parts.now.count }
    requires dimension { e < D }
    requires other { e ≢ parts.now.sorted }
    ensures { IsTrue result ↔
        ((i : ℕ) → i < parts.now.count → (low ≤ number_of (key_at D (raw_keys_of parts.now) i e))
        × (number_of (key_at D (raw_keys_of parts.now) i e) ≤ high)) }
{
    let base = slots.bases[e];
    if high < base {
        return false;
    }
    words_between(
        parts.words,
        slots.places[e],
        parts.stride,
        slots.masks[e],
        parts.count,
        low.saturating_sub(base),
        high - base,
    )
}

/// Whether the words at `start`, `start + stride` and so on, `count` of them, lie between two numbers in the bits of
/// the mask. Not inlined: within `read` its loop would keep its place in memory.
#[inline(never)]
fn words_between(
    bytes: &[u8],
    start: usize,
    stride: usize,
    mask: u32,
    count: usize,
    low: u32,
    high: u32,
) -> bool
    requires within { (i : ℕ) → i < count → start + i * stride + 4 ≤ length bytes.now }
    ensures { IsTrue result ↔ ((i : ℕ) → i < count
        → (low ≤ bit_and (number_of (take 4 (drop (start + i * stride) bytes.now))) mask)
        × (bit_and (number_of (take 4 (drop (start + i * stride) bytes.now))) mask ≤ high)) }
{
    for i in 0..count {
        let left = word(bytes, start + i * stride) & mask;
        if left < low {
            return false;
        }
        if high < left {
            return false;
        }
    }
    true
}
