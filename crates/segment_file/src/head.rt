//! The head of a segment.

use byte_cursor::Memory;
use inner_pack::{Index, LeafPlace};
use page_cache::pages_for;
use std::alloc::Global;
use std::marker::Model;

/// What is known of a segment without reading a leaf: its id, how many entries it has and a leaf has, and its
/// index. Contracts see these four.
#[derive(Debug, Drop)]
pub struct SegmentHead<const D: usize> {
    pub(crate) id: u64,
    pub(crate) entries: u32,
    pub(crate) leaf_size: u16,
    pub(crate) index: Index<D>,
}

impl<const D: usize> Model for SegmentHead<D> {
    ghost use Rattle.segment_file.specs.Heads.{Head, HasRanges};
    ghost use Rattle.segment_file.specs.Written.{head_of};

    ghost Value = { Head };

    ghost view = { λ h. head_of h.id h.entries h.leaf_size h.index };

    ghost invariant = { λ h. HasRanges D (head_of h.id h.entries h.leaf_size h.index) };
}

impl<const D: usize> SegmentHead<D> {
    ghost use Rattle.std.specs.Prelude.{◌≡◌, ◌<◌, IfOk};
    ghost use Rattle.segment_file.specs.Heads.{HasRanges, count_of, page_of};

    /// The segment's number, which its file has in its name.
    pub fn id(&self) -> u64
        ensures { result ≡ self.now.id }
    {
        self.id
    }

    /// The number of entries, 1 to 16,777,216.
    pub fn entries(&self) -> u32
        ensures { result ≡ self.now.entries }
    {
        self.entries
    }

    /// How many entries a leaf has; the last one may have fewer.
    pub fn leaf_size(&self) -> u16
        ensures { result ≡ self.now.leaf_size }
    {
        self.leaf_size
    }

    /// The index of the segment, which leads to its leaves.
    pub fn index(&self) -> &Index<D>
        ensures value { result.now ≡ self.now.index }
        ensures ranges { HasRanges D self.now }
    {
        &self.index
    }

    /// The page of the file in which a leaf of this place stands. A segment has at most 8,388,608 leaf pages.
    pub fn page_of(&self, p: LeafPlace) -> u32
        requires { p.page < 8388608 }
        ensures { result ≡ page_of self.now p.page }
    {
        1 + pages_for(self.index.body().len() as u32) + p.page
    }

    /// How many entries the leaf of this number has; none where there is no such leaf.
    pub fn count_of(&self, leaf: u32) -> u16
        ensures { result ≡ count_of self.now leaf }
    {
        let before = u64::from(leaf) * u64::from(self.leaf_size);
        let left = u64::from(self.entries).saturating_sub(before);
        left.min(u64::from(self.leaf_size)) as u16
    }

    /// A copy of the head.
    pub fn copy(&self, alloc: Global) -> Result<SegmentHead<D>, Memory>
        ensures { IfOk result (λ h. h ≡ self.now) }
    {
        Ok(SegmentHead {
            id: self.id,
            entries: self.entries,
            leaf_size: self.leaf_size,
            index: self.index.copy(alloc)?,
        })
    }
}
