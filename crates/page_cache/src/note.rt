//! Notes of leaves that were read in a page that is kept.

ghost use Rattle.std.specs.Prelude.{◌≡◌, ◌≤◌, ◌↔◌, ℕ, List, IsTrue, length, take};
ghost use Rattle.point_codec.specs.Seen.{region_of};
ghost use Rattle.page_cache.specs.Notes.{HasLeaf, Fits};

use point_codec::{Cell, Point};

/// A leaf that was read in a page: where it stands in the page's payload, how many entries it has, and the cell that
/// they lie in. What a note says of a page is known without a look at its bytes.
#[derive(Clone, Copy)]
pub struct LeafNote {
    /// The number of dimensions; 0 where the note is of no leaf.
    dims: u8,
    offset: u16,
    length: u16,
    count: u16,
    lo: [i32; 8],
    hi: [i32; 8],
}

impl LeafNote {
    /// The note of a leaf of `count` entries inside the cell.
    #[tactic(auto, unfolding(crate::specs::Notes::Fits))]
    pub fn of<const D: usize>(cell: &Cell<D>, offset: u16, length: u16, count: u16) -> LeafNote
        ensures { (page : List ℕ) → Fits result page ↔ HasLeaf D page offset length count (region_of cell.now) }
    {
        LeafNote {
            dims: D as u8,
            offset,
            length,
            count,
            lo: in_front(coordinates(&cell.lo)),
            hi: in_front(coordinates(&cell.hi)),
        }
    }

    /// The note of no leaf, which fits any page.
    #[tactic(auto, unfolding(crate::specs::Notes::Fits))]
    pub(crate) fn empty() -> LeafNote
        ensures { (page : List ℕ) → Fits result page }
    {
        LeafNote {
            dims: 0,
            offset: 0,
            length: 0,
            count: 0,
            lo: [0; 8],
            hi: [0; 8],
        }
    }

    /// Whether it is the same note.
    pub(crate) fn is(&self, other: &LeafNote) -> bool
        ensures { IsTrue result → self.now ≡ other.now }
    {
        if self.dims != other.dims {
            return false;
        }
        if self.offset != other.offset {
            return false;
        }
        if self.length != other.length {
            return false;
        }
        if self.count != other.count {
            return false;
        }
        if !are_same(&self.lo, &other.lo) {
            return false;
        }
        are_same(&self.hi, &other.hi)
    }

    /// In which of four places the note is put: leaves of one page begin far apart.
    pub(crate) fn slot(&self) -> usize
        ensures { result ≤ 3 }
    {
        usize::from(self.offset / 1024 % 4)
    }
}

/// The coordinates of a point.
fn coordinates<const D: usize>(p: &Point<D>) -> &[i32]
    requires { D ≤ 8 }
    ensures value { result.now ≡ p.now.c }
    ensures long { length p.now.c ≡ D }
{
    &p.c
}

/// Whether these are the same numbers.
fn are_same(a: &[i32; 8], b: &[i32; 8]) -> bool
    ensures { IsTrue result → a.now ≡ b.now }
{
    a == b
}

/// The coordinates at the front of eight.
fn in_front(coordinates: &[i32]) -> [i32; 8]
    requires { length coordinates.now ≤ 8 }
    ensures { take (length coordinates.now) result ≡ coordinates.now }
{
    let mut all = [0; 8];
    all[..coordinates.len()].copy_from_slice(coordinates);
    all
}
