//! Segments with their live bits.

use crate::pairs::{
    clear_in, copy_heads, copy_lives, has_id, insert_pair, is_live_in, place_of, remove_pairs,
    sizes_of,
};
use live_bits::LiveBits;
use point_codec::MOST_POINTS;
use segment_file::SegmentHead;
use std::alloc::{AllocError, Global};
use std::marker::Model;

/// The error of a call for which no memory could be had.
pub type Memory = AllocError;

/// The greatest number of segments. An index has fewer, since each segment has an entry of its own, and no more points
/// are ever given.
const MOST_SEGMENTS: usize = MOST_POINTS as usize;

/// Segments with their live bits, in ascending order of their ids. Contracts see a list of both.
#[derive(Debug, Drop)]
pub struct Segments<const D: usize> {
    heads: Vec<SegmentHead<D>>,
    lives: Vec<LiveBits>,
}

impl<const D: usize> Model for Segments<D> {
    ghost use Rattle.std.specs.Prelude.{List};
    ghost use Rattle.segment_view.specs.LiveSegments.{LiveSegment, parts_of, AreInStep};

    ghost Value = { List LiveSegment };

    ghost view = { λ s. parts_of s.heads.items s.lives.items };

    ghost invariant = { λ s. AreInStep D s.heads.items s.lives.items };
}

impl<const D: usize> Segments<D> {
    ghost use Rattle.std.specs.Prelude.{◌≡◌, ◌<◌, ◌≤◌, ◌↔◌, [], Some, false, length, map, slice_get, IsTrue, IfOk};
    ghost use Rattle.std.specs.Prelude.{OnOk, OnErr};
    ghost use Rattle.std.specs.List.Sorted.{IsStrictlyIncreasing};
    ghost use Rattle.documents.specs.Entries.{is_among};
    ghost use Rattle.segment_view.specs.LiveSegments.{live_segment, heads_of, lives_of, ids_of, parts_but, has_live};
    ghost use Rattle.segment_view.specs.LiveSegments.{cleared_parts};
    ghost use Rattle.segment_view.specs.LiveSegments.{IsPlaced};

    /// An empty list of segments and their live bits.
    pub fn new(alloc: Global) -> Segments<D>
        requires { D ≤ 8 }
        ensures { result ≡ [] }
    {
        Segments {
            heads: Vec::new(alloc),
            lives: Vec::new(alloc),
        }
    }

    /// How many segments there are.
    pub fn len(&self) -> usize
        ensures value { result ≡ length self.now }
        ensures few { result ≤ MOST_POINTS }
        ensures dims { D ≤ 8 }
    {
        self.heads.len()
    }

    /// Whether the list has no segment.
    pub fn is_empty(&self) -> bool
        ensures { IsTrue result ↔ (self.now ≡ []) }
    {
        self.heads.is_empty()
    }

    /// The heads of the segments, in strictly ascending order of their ids.
    pub fn heads(&self) -> &[SegmentHead<D>]
        ensures value { result.now ≡ heads_of self.now }
        ensures ascend { IsStrictlyIncreasing (ids_of self.now) }
        ensures few { length result.now ≤ MOST_POINTS }
    {
        self.heads.as_slice()
    }

    /// The live bits of the segments, in the order of `heads`.
    pub fn lives(&self) -> &[LiveBits]
        ensures { result.now ≡ lives_of self.now }
    {
        self.lives.as_slice()
    }

    /// Whether one of them has this id.
    pub fn has(&self, id: u64) -> bool
        ensures { result ≡ is_among (ids_of self.now) id }
    {
        has_id(self.heads.as_slice(), id)
    }

    /// The head and the live bits at a place.
    pub fn part(&self, i: usize) -> (&SegmentHead<D>, &LiveBits)
        requires { i < length self.now }
        ensures { slice_get self.now i ≡ Some (live_segment result.0.now result.1.now) }
    {
        (&self.heads[i], &self.lives[i])
    }

    /// How many entries each has, live or dead.
    pub fn sizes(&self, alloc: Global) -> Result<Vec<u32>, Memory>
        ensures { IfOk result (λ v. v.items ≡ map (λ p. p.head.entries) self.now) }
    {
        sizes_of(alloc, self.heads.as_slice())
    }

    /// Whether the number is live in one of them.
    pub fn is_live(&self, doc: u32) -> bool
        ensures { result ≡ has_live doc self.now }
    {
        is_live_in(self.lives.as_slice(), doc)
    }

    /// Takes the number out of the live ones, and answers whether it was one. Takes no memory.
    pub fn clear(&mut self, doc: u32) -> bool
        ensures answer { result ≡ has_live doc self.old }
        ensures after { self.new ≡ cleared_parts doc self.old }
    {
        clear_in(&mut self.lives, doc)
    }

    /// A copy of the segments.
    pub fn copy(&self, alloc: Global) -> Result<Segments<D>, Memory>
        ensures { IfOk result (λ s. s ≡ self.now) }
    {
        let heads = copy_heads(alloc, self.heads.as_slice())?;
        let lives = copy_lives(alloc, self.lives.as_slice())?;
        Ok(Segments { heads, lives })
    }

    /// Puts a segment at the place that its id gives. For want of memory nothing changes.
    pub fn insert(&mut self, head: SegmentHead<D>, live: LiveBits) -> Result<(), Memory>
        requires { is_among (ids_of self.old) head.id ≡ false }
        ensures placed { OnOk result (IsPlaced (live_segment head.entry live) self.old self.new) }
        ensures ascend { IsStrictlyIncreasing (ids_of self.new) }
        ensures refused { OnErr result (self.new ≡ self.old) }
    {
        if self.heads.len() >= MOST_SEGMENTS {
            return Err(AllocError);
        }
        let place = place_of(self.heads.as_slice(), head.id());
        insert_pair(&mut self.heads, &mut self.lives, place, head, live)?;
        Ok(())
    }

    /// Takes out the segments of these ids. Takes no memory.
    pub fn remove(&mut self, ids: &[u64])
        ensures rest { self.new ≡ parts_but ids.now self.old }
        ensures ascend { IsStrictlyIncreasing (ids_of self.new) }
    {
        remove_pairs(&mut self.heads, &mut self.lives, ids);
    }
}
