//! Reading the keys of a leaf: shared prefixes, sorted bytes and rests.

ghost use Rattle.std.specs.Prelude.{◌≡◌, ◌≤◌, ◌<◌, ◌^◌, ◌*◌, ◌+◌, ◌-◌, ◌++◌, ℕ, List, length, All, IfSome, IsSome};
ghost use Rattle.std.specs.Prelude.{IsTrue, ◌↔◌, take, drop};
ghost use Rattle.leaf_codec.specs.Dimensions.{told_of};
ghost use Rattle.leaf_codec.specs.Raw.{RawKeys, AreRawKeys, MaySort, keys_bytes, sorted_raw, start_of, gap_of};
ghost use Rattle.leaf_codec.specs.Raw.{place_of, key_at, point_at};
ghost use Rattle.leaf_codec.specs.Views.{BeginsWithKeys, IsParts, AreSlots, raw_keys_of};
ghost use Rattle.leaf_codec.specs.Words.{number_of, coordinate, AreBytes};

use crate::read_sorted::{Table, take_sorted};
use crate::words::{mask, word};
use byte_cursor::cut;
use point_codec::{Point, from_sortable};

/// What the bytes of a leaf say of its keys.
#[derive(Clone, Copy)]
pub struct Parts<'a> {
    /// How many entries the leaf has.
    pub count: usize,
    /// The length of each dimension's shared prefix.
    pub lengths: &'a [u8],
    /// The prefixes, one after another.
    pub prefixes: &'a [u8],
    /// The sorted dimension, or the number of dimensions where there is none.
    pub sorted: usize,
    /// The sorted byte of each entry.
    pub table: Table,
    /// Four bytes, and what is left of the keys, entry by entry.
    pub words: &'a [u8],
    /// How many bytes are left of an entry's keys.
    pub stride: usize,
}

impl<'a> Parts<'a> {
    /// The parts of a leaf of `count` entries from `at` on, to its end.
    pub fn read(leaf: &'a [u8], at: usize, dims: usize, count: usize) -> Option<Parts<'a>>
        requires dims { (1 ≤ dims) × (dims ≤ 8) }
        requires few { count ≤ 500 }
        requires behind { 4 ≤ at }
        requires within { at ≤ length leaf.now }
        ensures found { IfSome result (BeginsWithKeys (drop at leaf.now) dims count) }
        ensures only { (r : RawKeys) → AreRawKeys dims count r → drop at leaf.now ≡ keys_bytes dims r → IsSome result }
    {
        let (lengths, rest) = cut(&leaf[at..], dims)?;
        let (prefixes, rest) = cut(rest, total(lengths)?)?;
        let (sorted, table, rest) = sorted_at(rest, lengths, count)?;
        is_table(&table);
        let stride = stride(lengths, sorted);
        if rest.len() != count * stride {
            return None;
        }
        let words = &leaf[leaf.len() - rest.len() - 4..];
        Some(Parts {
            count,
            lengths,
            prefixes,
            sorted,
            table,
            words,
            stride,
        })
    }

    /// How many bytes are left of the key in dimension `d`.
    pub fn gap(&self, d: usize) -> usize
        requires within { d < length self.now.lengths.now }
        requires told { told_of self.now.lengths.now self.now.sorted d ≤ 4 }
        ensures { result ≡ gap_of self.now.lengths.now self.now.sorted d }
    {
        gap(self.lengths, self.sorted, d)
    }
}

/// A table is 500 bytes: said for the proof, nothing runs.
fn is_table(table: &Table)
    ensures long { length table.now ≡ 500 }
    ensures bytes { AreBytes table.now }
{
    are_bytes(table);
}

/// Bytes are below 256: said for the proof, nothing runs.
fn are_bytes(bytes: &[u8])
    ensures { AreBytes bytes.now }
{}

/// The sorted dimension, or the number of dimensions where there is none, its bytes, and what follows them.
fn sorted_at<'a>(b: &'a [u8], lengths: &[u8], count: usize) -> Option<(usize, Table, &'a [u8])>
    requires few { count ≤ 500 }
    requires dims { length lengths.now ≤ 8 }
    ensures sorts { IfSome result (λ x. MaySort lengths.now x.0) }
    ensures found { IfSome result (λ x. b.now ≡ sorted_raw (length lengths.now) x.0 (take count x.1) ++ x.2.now) }
    ensures only { (s : ℕ) (bytes tail : List ℕ) → MaySort lengths.now s → length bytes ≡ count
        → b.now ≡ sorted_raw (length lengths.now) s bytes ++ tail → IsSome result }
{
    if are_whole(lengths) {
        return Some((lengths.len(), [0; 500], b));
    }
    let (first, rest) = b.split_first()?;
    let sorted = *first as usize;
    if sorted >= lengths.len() || lengths[sorted] >= 4 {
        return None;
    }
    let (table, rest) = take_sorted(rest, count)?;
    Some((sorted, table, rest))
}

/// Whether each prefix is a whole key.
fn are_whole(lengths: &[u8]) -> bool
    ensures { IsTrue result ↔ All (λ n. n ≡ 4) lengths.now }
{
    for d in 0..lengths.len() {
        if lengths[d] != 4 {
            return false;
        }
    }
    true
}

/// How many bytes the prefixes take, or None where one is longer than a key.
fn total(lengths: &[u8]) -> Option<usize>
    requires { length lengths.now ≤ 8 }
    ensures short { IfSome result (λ n. All (λ length. length ≤ 4) lengths.now) }
    ensures found { IfSome result (λ n. n ≡ start_of lengths.now (length lengths.now)) }
    ensures only { All (λ length. length ≤ 4) lengths.now → IsSome result }
{
    let mut total = 0;
    for d in 0..lengths.len() {
        if lengths[d] > 4 {
            return None;
        }
        total += lengths[d] as usize;
    }
    Some(total)
}

/// How many bytes of the key in dimension `d` stand neither in the prefix nor among the sorted bytes.
fn gap(lengths: &[u8], sorted: usize, d: usize) -> usize
    requires within { d < length lengths.now }
    requires told { told_of lengths.now sorted d ≤ 4 }
    ensures { result ≡ gap_of lengths.now sorted d }
{
    4 - lengths[d] as usize - usize::from(d == sorted)
}

/// How many bytes are left of an entry's keys.
fn stride(lengths: &[u8], sorted: usize) -> usize
    requires dims { length lengths.now ≤ 8 }
    requires told { (d : ℕ) → d < length lengths.now → told_of lengths.now sorted d ≤ 4 }
    ensures value { result ≡ place_of lengths.now sorted (length lengths.now) }
    ensures few { result ≤ 32 }
{
    let mut stride = 0;
    for d in 0..lengths.len() {
        stride += gap(lengths, sorted, d);
    }
    stride
}

/// How the words of an entry become its keys: dimension by dimension a key is the base, the sorted byte times the
/// scale, and those bits of the word at the place that the mask has.
#[derive(Clone, Copy)]
pub struct Slots<const D: usize> {
    pub bases: [u32; D],
    pub scales: [u32; D],
    pub masks: [u32; D],
    pub places: [usize; D],
}

impl<const D: usize> Slots<D> {
    /// The slots of these parts.
    pub fn of(parts: &Parts) -> Slots<D>
        requires dims { (1 ≤ D) × (D ≤ 8) }
        requires parts { IsParts D parts.now }
        ensures { AreSlots D parts.now result }
    {
        let mut bases = [0; D];
        let mut scales = [0; D];
        let mut masks = [0; D];
        let mut places = [0; D];
        let mut from = 0;
        let mut place = 0;
        for d in 0..D {
            let length = parts.lengths[d] as usize;
            let gap = parts.gap(d);
            bases[d] = base(&parts.prefixes[from..from + length]);
            masks[d] = mask(gap);
            if d == parts.sorted {
                scales[d] = mask(gap) + 1;
            }
            from += length;
            place += gap;
            places[d] = place;
        }
        Slots {
            bases,
            scales,
            masks,
            places,
        }
    }

    /// The point of entry `i`.
    pub fn point(&self, parts: &Parts, i: usize) -> Point<D>
        requires dims { (1 ≤ D) × (D ≤ 8) }
        requires parts { IsParts D parts.now }
        requires slots { AreSlots D parts.now self.now }
        requires within { i < parts.now.count }
        ensures { result.c ≡ point_at D (raw_keys_of parts.now) i }
    {
        let mut c = [0; D];
        for d in 0..D {
            c[d] = self.coordinate(parts, i, d);
        }
        Point { c }
    }

    /// The coordinate of entry `i` in dimension `d`.
    pub fn coordinate(&self, parts: &Parts, i: usize, d: usize) -> i32
        requires dims { (1 ≤ D) × (D ≤ 8) }
        requires parts { IsParts D parts.now }
        requires slots { AreSlots D parts.now self.now }
        requires within { i < parts.now.count }
        requires dimension { d < D }
        ensures { result ≡ coordinate (key_at D (raw_keys_of parts.now) i d) }
    {
        from_sortable(self.rank(parts, i, d).to_be_bytes())
    }

    /// The key of entry `i` in dimension `d`, as a number.
    pub fn rank(&self, parts: &Parts, i: usize, d: usize) -> u32
        requires dims { (1 ≤ D) × (D ≤ 8) }
        requires parts { IsParts D parts.now }
        requires slots { AreSlots D parts.now self.now }
        requires within { i < parts.now.count }
        requires dimension { d < D }
        ensures { result ≡ number_of (key_at D (raw_keys_of parts.now) i d) }
    {
        let left = word(parts.words, i * parts.stride + self.places[d]) & self.masks[d];
        self.bases[d] + u32::from(parts.table[i]) * self.scales[d] + left
    }
}

/// A prefix of at most four bytes, as the front of a word.
fn base(prefix: &[u8]) -> u32
    requires { length prefix.now ≤ 4 }
    ensures { result ≡ number_of prefix.now * 256 ^ (4 - length prefix.now) }
{
    match prefix {
        [] => 0,
        [a] => u32::from_be_bytes([*a, 0, 0, 0]),
        [a, b] => u32::from_be_bytes([*a, *b, 0, 0]),
        [a, b, c] => u32::from_be_bytes([*a, *b, *c, 0]),
        [a, b, c, d, ..] => u32::from_be_bytes([*a, *b, *c, *d]),
    }
}
