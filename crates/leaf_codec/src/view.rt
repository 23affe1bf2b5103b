//! Reading a leaf in place.

ghost use Rattle.std.specs.Prelude.{◌≡◌, ◌≤◌, ◌<◌, ◌+◌, ◌*◌, ◌↔◌, ℕ, List, length, All, IfSome, IfNone, IsSomeAnd};
ghost use Rattle.std.specs.Prelude.{IsTrue, slice_get, slice_index, nat_lt, if◌then◌else◌, ◌==◌, true, take, drop};
ghost use Rattle.std.specs.Prelude.{int_lt, int_le, FitsSigned, ◌++◌, map, OnOk, OnErr};
ghost use Rattle.std.specs.Int.{w32};
ghost use Rattle.std.specs.List.{list_any, range_with_len};
ghost use Rattle.point_codec.specs.Points.{Item};
ghost use Rattle.point_codec.specs.Seen.{region_of};
ghost use Rattle.leaf_codec.specs.Ascending.{AscendIn, coordinate};
ghost use Rattle.leaf_codec.specs.Dimensions.{count_values};
ghost use Rattle.leaf_codec.specs.Leaves.{SpellsLeafIn, SpellsSomeIn};
ghost use Rattle.leaf_codec.specs.Raw.{RawNumbers, place_of, raw_items};
ghost use Rattle.leaf_codec.specs.Views.{IsParts, IsReadable, AreDimensionsOf, items_said};
ghost use Rattle.leaf_codec.specs.Views.{raw_keys_of, IsWide, NeverFall};

use crate::byte_set::ByteSet;
use crate::guess::guess;
use crate::in_order::{are_in_order, leading};
use crate::numbers_out::push_all;
use crate::read_numbers::Numbers;
use crate::read_parts::{Parts, Slots};
use crate::size::greatest_leaf;
use point_codec::{Cell, Point};
use std::alloc::AllocError;
use std::marker::Model;

/// The entries of a leaf, read in its bytes. Contracts see the list of them.
#[derive(Drop)]
pub struct LeafView<'a, const D: usize> {
    numbers: Numbers<'a>,
    parts: Parts<'a>,
    slots: Slots<D>,
    ghost readable: { IsReadable D numbers parts slots },
    ghost ascending: { AscendIn (if nat_lt parts.sorted D then parts.sorted else 0) (items_said D numbers parts) },
}

impl<'a, const D: usize> Model for LeafView<'a, D> {
    ghost use Rattle.std.specs.Prelude.{List};
    ghost use Rattle.point_codec.specs.Points.{Item};
    ghost use Rattle.leaf_codec.specs.Views.{items_said};

    ghost Value = { List Item };

    ghost view = { λ v. items_said D v.numbers v.parts };
}

impl<'a, const D: usize> LeafView<'a, D> {
    /// The `count` entries that the bytes spell, all inside the cell. None exactly where the bytes spell no such list.
    pub fn read(b: &'a [u8], cell: &Cell<D>, count: u16) -> Option<LeafView<'a, D>>
        ensures some { IfSome result (λ view. SpellsLeafIn D b.now count (region_of cell.now) view) }
        ensures none { IfNone result ((items : List Item) → SpellsLeafIn D b.now count (region_of cell.now) items → ⊥) }
    {
        if count == 0 || count > greatest_leaf(D as u8) {
            return None;
        }
        let (numbers, at) = Numbers::read(b, count)?;
        let parts = Parts::read(b, at, D, count as usize)?;
        let slots = Slots::of(&parts);
        if !numbers.are_canonical() {
            return None;
        }
        if !are_in_order(&numbers, &parts, &slots, cell) {
            return None;
        }
        if !has_these_dimensions::<D>(&parts) {
            return None;
        }
        Some(LeafView {
            numbers,
            parts,
            slots,
        })
    }

    /// The same entries where it is known that the bytes spell some: nothing is checked again.
    pub fn of_valid(b: &'a [u8], cell: &Cell<D>, count: u16) -> LeafView<'a, D>
        requires { SpellsSomeIn D b.now count (region_of cell.now) }
        ensures { SpellsLeafIn D b.now count (region_of cell.now) result }
    {
        let Some((numbers, at)) = Numbers::read(b, count) else {
            unreachable!()
        };
        let Some(parts) = Parts::read(b, at, D, count as usize) else {
            unreachable!()
        };
        let slots = Slots::of(&parts);
        LeafView {
            numbers,
            parts,
            slots,
        }
    }

    /// How many entries the leaf has.
    pub fn count(&self) -> u16
        ensures { result ≡ length self.now }
    {
        self.numbers.count as u16
    }

    /// The document's number of entry `i`.
    pub fn doc(&self, i: u16) -> u32
        requires { i < length self.now }
        ensures { IsSomeAnd (slice_get self.now i) (λ x. result ≡ x.doc) }
    {
        self.numbers.number(i as usize)
    }

    /// Appends the numbers of all entries, in their order. For want of memory none is appended.
    pub fn push_numbers(&self, out: &mut Vec<u32>) -> Result<(), AllocError>
        ensures ok { OnOk result (out.new.items ≡ out.old.items ++ map (λ x. x.doc) self.now) }
        ensures err { OnErr result (out.new.items ≡ out.old.items) }
    {
        push_all(&self.numbers, out)
    }

    /// The point of entry `i`.
    pub fn point(&self, i: u16) -> Point<D>
        requires { i < length self.now }
        ensures { IsSomeAnd (slice_get self.now i) (λ x. result.c ≡ x.at) }
    {
        self.slots.point(&self.parts, i as usize)
    }

    /// The dimension by which the entries are sorted; 0 where all points are equal.
    pub fn sorted_dimension(&self) -> usize
        ensures within { result < D }
        ensures points { All (λ x. length x.at ≡ D) self.now }
        ensures ascends { AscendIn result self.now }
    {
        leading::<D>(&self.parts)
    }

    /// The coordinate of entry `i` in dimension `d`.
    pub fn coordinate(&self, i: u16, d: usize) -> i32
        requires within { i < length self.now }
        requires dimension { d < D }
        ensures { IsSomeAnd (slice_get self.now i) (λ x. result ≡ coordinate d x) }
    {
        self.slots.coordinate(&self.parts, i as usize, d)
    }

    /// How many entries have a coordinate below `x` in dimension `d`, along which the coordinates ascend. It looks near
    /// a guess, and then by halves, so at few of them.
    pub fn count_below(&self, d: usize, x: &i32) -> u16
        requires dimension { d < D }
        requires ascends { AscendIn d self.now }
        ensures within { result ≤ length self.now }
        ensures below { All (λ y. int_lt (coordinate d y) x.now ≡ true) (take result self.now) }
        ensures above { All (λ y. int_le x.now (coordinate d y) ≡ true) (drop result self.now) }
    {
        let mut from = 0;
        let mut end = self.count();
        let mut at = guess(&self.parts, &self.slots, d, x);
        let mut step = 8;
        while at < end {
            if self.coordinate(at, d) < *x {
                from = at + 1;
                at = from + step.min(end - from);
                step = 256.min(2 * step);
            } else {
                end = at;
            }
        }
        while from < end {
            let half = from + (end - from) / 2;
            if self.coordinate(half, d) < *x {
                from = half + 1;
            } else {
                end = half;
            }
        }
        from
    }

    /// Between which places the entries stand whose coordinates in dimension `d` are from `low` to `high`, where the
    /// coordinates ascend along it. Where there is none the second place may be before the first.
    pub fn between(&self, d: usize, low: &i32, high: &i32) -> (u16, u16)
        requires dimension { d < D }
        requires ascends { AscendIn d self.now }
        ensures within { (result.0 ≤ length self.now) × (result.1 ≤ length self.now) }
        ensures below { All (λ y. int_lt (coordinate d y) low.now ≡ true) (take result.0 self.now) }
        ensures from { All (λ y. int_le low.now (coordinate d y) ≡ true) (drop result.0 self.now) }
        ensures to { All (λ y. int_le (coordinate d y) high.now ≡ true) (take result.1 self.now) }
        ensures above { All (λ y. int_lt high.now (coordinate d y) ≡ true) (drop result.1 self.now) }
    {
        let from = self.count_below(d, low);
        if *high == i32::MAX {
            self.coordinates_fit(d);
            return (from, self.count());
        }
        let next = *high + 1;
        (from, self.count_below(d, &next))
    }

    /// Coordinates are of 32 bits: said for the proof, nothing runs.
    fn coordinates_fit(&self, d: usize)
        requires { d < D }
        ensures { All (λ y. FitsSigned w32 (coordinate d y)) self.now }
    {
        let _count = self.numbers.count;
    }
}

/// Whether the prefixes are as long as they can be, and the sorted dimension is the narrowest. The sorted bytes never
/// fall, so they tell how many there are; the other dimensions are looked at until they show as many.
fn has_these_dimensions<const D: usize>(parts: &Parts) -> bool
    requires dims { (1 ≤ D) × (D ≤ 8) }
    requires parts { IsParts D parts.now }
    requires some { 1 ≤ parts.now.count }
    requires rises { parts.now.sorted < D → NeverFall (raw_keys_of parts.now).bytes }
    ensures { (n : RawNumbers)
        → IsTrue result ↔ AreDimensionsOf D
        (raw_items D parts.now.count n (raw_keys_of parts.now)) parts.now.lengths.now parts.now.sorted }
{
    if parts.sorted == D {
        return true;
    }
    let least = count_rising(&parts.table[..parts.count]) as usize;
    if least < 2 {
        return false;
    }
    let mut place = 4;
    for d in 0..D {
        if !is_wide::<D>(parts, d, place, least) {
            return false;
        }
        place += parts.gap(d);
    }
    true
}

/// Whether dimension `d`, whose rests begin at `place`, is no narrower than the sorted one, in which `least` values
/// are, and wider where it comes before that one. Nothing is asked of the sorted one, and of one that doesn't vary.
fn is_wide<const D: usize>(parts: &Parts, d: usize, place: usize, least: usize) -> bool
    requires parts { IsParts D parts.now }
    requires within { d < D }
    requires some { (1 ≤ least) × (least ≤ 500) }
    requires place { place ≡ 4 + place_of parts.now.lengths.now parts.now.sorted d }
    ensures { (n : RawNumbers)
        → IsTrue result ↔ IsWide (raw_items D parts.now.count n (raw_keys_of parts.now))
        parts.now.lengths.now parts.now.sorted least d }
{
    if d == parts.sorted {
        return true;
    }
    if parts.lengths[d] >= 4 {
        return true;
    }
    let need = least + usize::from(d < parts.sorted);
    takes_values(parts.words, place, parts.stride, parts.count, need)
}

/// Whether the bytes at `start`, `start + stride` and so on, `count` of them, take `need` different values or more.
fn takes_values(bytes: &[u8], start: usize, stride: usize, count: usize, need: usize) -> bool
    requires within { (i : ℕ) → i < count → start + i * stride < length bytes.now }
    requires some { 1 ≤ need }
    ensures { IsTrue result ↔ (need ≤ count_values
        (λ b. list_any (λ i. slice_index bytes.now (start + i * stride) == b) (range_with_len 0 count))) }
{
    let mut seen = ByteSet::new();
    let mut found = 0;
    for i in 0..count {
        let more = seen.add(bytes[start + i * stride]);
        found += more;
        if found == need {
            return true;
        }
    }
    false
}

/// How many different values bytes take that never fall: each that isn't the one before is one more.
fn count_rising(bytes: &[u8]) -> u16
    requires some { 1 ≤ length bytes.now }
    requires few { length bytes.now ≤ 500 }
    requires rises { NeverFall bytes.now }
    ensures value { result ≡ count_values (λ v. list_any (λ b. b == v) bytes.now) }
    ensures few { result ≤ length bytes.now }
{
    let mut count = 1u16;
    for i in 1..bytes.len() {
        count += u16::from(bytes[i] != bytes[i - 1]);
    }
    count
}
