//! Reading the numbers of a leaf.

ghost use Rattle.std.specs.Prelude.{◌≡◌, ◌≢◌, false, ◌≤◌, ◌<◌, ◌^◌, ◌*◌, ◌+◌, ◌++◌, ◌∷◌, ◌↔◌, ℕ, List, IfSome};
ghost use Rattle.std.specs.Prelude.{IsSome, IsTrue};
ghost use Rattle.std.specs.Int.{w16, to_be_bytes};
ghost use Rattle.byte_cursor.specs.Vint.{vint};
ghost use Rattle.leaf_codec.specs.Raw.{RawNumbers, AreRawNumbers, numbers_bytes, offset_at};
ghost use Rattle.leaf_codec.specs.Views.{raw_numbers_of, IsNumbers, AreCanonNumbers, BeginsWithNumbers, IsSpan};
ghost use Rattle.leaf_codec.specs.Views.{AreBounds};

use crate::words::{mask, word};
use crate::write_numbers::width;
use byte_cursor::Cursor;
use point_codec::MOST_POINTS;

/// The numbers of a leaf in their bytes.
#[derive(Clone, Copy)]
pub struct Numbers<'a> {
    /// How many numbers the leaf has, one for each entry.
    pub count: usize,
    /// The least of the numbers, which is stored once and less which they are spelled.
    pub least: u32,
    /// How many bytes each number takes, less the least. 0: the numbers are a row.
    pub width: usize,
    /// Four bytes, and these bytes.
    pub words: &'a [u8],
    /// The bits of a word that are the number's.
    pub mask: u32,
}

/// What is seen of all numbers of a leaf, each less the least.
#[derive(Drop)]
struct Span {
    /// The greatest of the numbers, less the least.
    greatest: u32,
    /// Whether 0 is among them.
    from_least: bool,
    /// Whether each is its place.
    row: bool,
}

impl<'a> Numbers<'a> {
    /// Number `i` less the least.
    fn offset(&self, i: usize) -> u32
        requires numbers { IsNumbers self.now }
        requires within { i < self.now.count }
        ensures value { result ≡ offset_at (raw_numbers_of self.now) i }
        ensures fits { result < 2 ^ 24 }
    {
        if self.width == 0 {
            return i as u32;
        }
        self.wide_offset(i)
    }

    /// The document's number of entry `i`: the least one and the offset that the bytes give.
    pub fn number(&self, i: usize) -> u32
        requires numbers { IsNumbers self.now }
        requires within { i < self.now.count }
        ensures value { result ≡ self.now.least + offset_at (raw_numbers_of self.now) i }
    {
        self.least + self.offset(i)
    }

    /// Whether the numbers have no other spelling and are below `MOST_POINTS`.
    pub fn are_canonical(&self) -> bool
        requires numbers { IsNumbers self.now }
        requires some { 1 ≤ self.now.count }
        ensures { IsTrue result ↔ AreCanonNumbers self.now.count (raw_numbers_of self.now) }
    {
        if self.width == 0 {
            return self.number(self.count - 1) < MOST_POINTS;
        }
        let span = self.span();
        if span.row || !span.from_least {
            return false;
        }
        self.least + span.greatest < MOST_POINTS && self.width == width(span.greatest) as usize
    }

    /// The same where the numbers are no row.
    fn wide_offset(&self, i: usize) -> u32
        requires numbers { IsNumbers self.now }
        requires wide { self.now.width ≢ 0 }
        requires within { i < self.now.count }
        ensures { result ≡ offset_at (raw_numbers_of self.now) i }
    {
        word(self.words, self.width * (i + 1)) & self.mask
    }

    /// Which numbers there are, less the least, where they are no row.
    fn span(&self) -> Span
        requires numbers { IsNumbers self.now }
        requires wide { self.now.width ≢ 0 }
        requires some { 1 ≤ self.now.count }
        ensures { IsSpan self.now.count (raw_numbers_of self.now) result.greatest result.from_least result.row }
    {
        let (least, greatest) = self.ends();
        Span {
            greatest,
            from_least: least == 0,
            row: self.is_row(),
        }
    }

    /// The least and the greatest of the numbers, less the one that is said to be the least.
    fn ends(&self) -> (u32, u32)
        requires numbers { IsNumbers self.now }
        requires wide { self.now.width ≢ 0 }
        requires some { 1 ≤ self.now.count }
        ensures { AreBounds self.now.count (raw_numbers_of self.now) result.0 result.1 }
    {
        let first = self.wide_offset(0);
        let mut least = first;
        let mut greatest = first;
        for i in 1..self.count {
            let offset = self.wide_offset(i);
            least = least.min(offset);
            greatest = greatest.max(offset);
        }
        (least, greatest)
    }

    /// Whether each number, less the least, is its place. Mostly the first one tells that they aren't.
    fn is_row(&self) -> bool
        requires numbers { IsNumbers self.now }
        requires wide { self.now.width ≢ 0 }
        ensures yes { IsTrue result → (i : ℕ) → i < self.now.count → offset_at (raw_numbers_of self.now) i ≡ i }
        ensures no { result ≡ false → (i : ℕ) × (i < self.now.count) × (offset_at (raw_numbers_of self.now) i ≢ i) }
    {
        for i in 0..self.count {
            if self.wide_offset(i) != i as u32 {
                return false;
            }
        }
        true
    }

    /// The numbers with which the leaf begins, `count` of them, and where the bytes behind them begin.
    pub fn read(leaf: &'a [u8], count: u16) -> Option<(Numbers<'a>, usize)>
        requires { count ≤ 500 }
        ensures found { IfSome result (λ x. BeginsWithNumbers leaf.now count x.0 x.1) }
        ensures only { (r : RawNumbers) (tail : List ℕ) → AreRawNumbers count r
            → leaf.now ≡ to_be_bytes w16 count ++ (numbers_bytes r ++ tail) → IsSome result }
    {
        let rest = after_count(leaf, count)?;
        let (width, least, rest) = form_and_least(rest)?;
        let count = count as usize;
        if rest.len() < count * width {
            return None;
        }
        let start = leaf.len() - rest.len();
        let end = start + count * width;
        let numbers = Numbers {
            count,
            least,
            width,
            words: &leaf[start - 4..end],
            mask: mask(width),
        };
        Some((numbers, end))
    }
}

/// What follows the number of entries, where it is `count`.
fn after_count(leaf: &[u8], count: u16) -> Option<&[u8]>
    ensures found { IfSome result (λ rest. leaf.now ≡ to_be_bytes w16 count ++ rest.now) }
    ensures only { (rest : List ℕ) → leaf.now ≡ to_be_bytes w16 count ++ rest → IsSome result }
{
    let mut cursor = Cursor::new(leaf);
    let Ok(n) = cursor.take_u16() else {
        return None;
    };
    if n != count {
        return None;
    }
    Some(cursor.rest())
}

/// The form and the least number, and what follows them.
fn form_and_least(bytes: &[u8]) -> Option<(usize, u32, &[u8])>
    ensures form { IfSome result (λ x. x.0 ≤ 3) }
    ensures least { IfSome result (λ x. x.1 < 2 ^ 24) }
    ensures found { IfSome result (λ x. bytes.now ≡ x.0 ∷ vint x.1 ++ x.2.now) }
    ensures only { (form least : ℕ) (rest : List ℕ) → form ≤ 3 → least < 2 ^ 24 → bytes.now ≡ form ∷ vint least ++ rest
        → IsSome result }
{
    let mut cursor = Cursor::new(bytes);
    let Ok(form) = cursor.take_u8() else {
        return None;
    };
    if form > 3 {
        return None;
    }
    let Ok(least) = cursor.take_vint() else {
        return None;
    };
    if least >= MOST_POINTS {
        return None;
    }
    Some((form as usize, least, cursor.rest()))
}
