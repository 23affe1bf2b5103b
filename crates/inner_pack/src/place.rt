//! Where leaves stand in the leaf pages of a segment, and where the next one fits.

ghost use Rattle.std.specs.Prelude.{◌≡◌, ◌≤◌, ◌+◌, ◌<◌, ◌^◌};
ghost use Rattle.inner_pack.specs.Places.{leaf_begin, leaf_end};

use page_file::PAYLOAD_LEN;

/// How many bytes of a leaf page hold leaves.
pub(crate) const PAYLOAD: u16 = PAYLOAD_LEN as u16;

/// The place of a leaf in the leaf pages of its segment.
#[derive(Clone, Copy, PartialEq, Eq, Debug)]
pub struct LeafPlace {
    /// The leaf page, counted from 0.
    pub page: u32,
    /// Where the leaf begins in the page's payload.
    pub offset: u16,
    /// How many bytes spell it.
    pub length: u16,
}

/// A leaf page, and an offset in its payload of 4,064 bytes.
#[derive(Clone, Copy, Debug)]
pub(crate) struct Mark {
    pub page: u32,
    pub offset: u16,
}

impl Mark {
    ghost use Rattle.inner_pack.specs.Heads.{spot_of};

    /// Where a leaf begins that comes next behind the mark.
    pub(crate) fn fit(self, length: u16) -> Mark
        requires length { length ≤ 4064 }
        requires offset { self.offset ≤ 4064 }
        requires page { self.page + 1 < 2 ^ 32 }
        ensures { spot_of result ≡ leaf_begin (spot_of self) length }
    {
        if self.offset + length <= PAYLOAD {
            self
        } else {
            Mark {
                page: self.page + 1,
                offset: 0,
            }
        }
    }

    /// Where a leaf ends that begins at the mark.
    pub(crate) fn behind(self, length: u16) -> Mark
        requires { self.offset + length ≤ 4064 }
        ensures { spot_of result ≡ leaf_end (spot_of self) length }
    {
        Mark {
            page: self.page,
            offset: self.offset + length,
        }
    }
}
