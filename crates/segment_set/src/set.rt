//! The set, and what is known of it without its files.

ghost use Rattle.std.specs.Prelude.{◌≡◌, ◌≤◌, ◌↔◌, [], None, false, IfOk, is_some};
ghost use Rattle.outer_io.specs.Files.{Files};
ghost use Rattle.leaf_codec.specs.Leaves.{leaf_limit};
ghost use Rattle.page_cache.specs.Cache.{room_of};
ghost use Rattle.index_model.specs.State.{new_index};

use crate::buffer::Buffer;
use crate::settings::Settings;
use crate::snapshots::Snapshot;
use commit_list::{Commit, Listed};
use file_names::FileNames;
use live_bits::LiveBits;
use page_cache::{Memory, PageCache};
use segment_build::NewSegment;
use segment_file::SegmentHead;
use segment_view::Segments;
use std::alloc::{AllocError, Global};
use std::marker::Model;

/// A merge that is begun: the ids of its inputs, and the segment that is built of what was live in them, whose live
/// bits follow the deletions since. Nothing is built where nothing was live.
#[derive(Drop)]
pub(crate) struct Begun<const D: usize> {
    pub(crate) inputs: Vec<u64>,
    pub(crate) built: Option<NewSegment<D>>,
}

impl<const D: usize> Model for Begun<D> {
    ghost use Rattle.segment_set.specs.Sets.{BegunMerge};

    ghost Value = { BegunMerge };

    ghost view = { λ b. record { inputs = b.inputs.items; built = b.built } };
}

/// A set of segments of `D` dimensions. Contracts see it as `SetData`.
#[derive(Drop)]
pub struct SegmentSet<const D: usize> {
    pub(crate) leaf_size: u16,
    pub(crate) forks: u8,
    pub(crate) points_given: u32,
    pub(crate) names: FileNames,
    pub(crate) segments: Segments<D>,
    // the entries that wait, and the number of the next document
    pub(crate) buffer: Buffer<D>,
    pub(crate) snapshots: Vec<Snapshot<D>>,
    pub(crate) begun: Option<Begun<D>>,
    pub(crate) cache: PageCache,
    pub(crate) saved: Option<Commit>,
}

impl<const D: usize> Model for SegmentSet<D> {
    ghost use Rattle.segment_set.specs.Sets.{SetData, IsWell};

    ghost Value = { SetData };

    ghost view = { λ s. record {
      leaf_size = s.leaf_size;
      next = s.buffer.next;
      points_given = s.points_given;
      names = s.names;
      parts = s.segments;
      buffer = s.buffer.items;
      snapshots = s.snapshots.items;
      begun = s.begun;
      cache = s.cache;
      saved = s.saved;
    } };

    ghost invariant = { λ s. IsWell D (record {
      leaf_size = s.leaf_size;
      next = s.buffer.next;
      points_given = s.points_given;
      names = s.names;
      parts = s.segments;
      buffer = s.buffer.items;
      snapshots = s.snapshots.items;
      begun = s.begun;
      cache = s.cache;
      saved = s.saved;
    }) };
}

impl<const D: usize> SegmentSet<D> {
    ghost use Rattle.segment_set.specs.Seen.{Sees};
    ghost use Rattle.live_bits.specs.LiveSet.{IsLiveSet};
    ghost use Rattle.segment_set.specs.Sets.{IsWell};
    ghost use Rattle.segment_set.specs.Kept.{IsAsCommitted};
    ghost use Rattle.segment_set.specs.Faithful.{IsFaithful};

    /// A set without documents, over a folder without an index.
    pub fn new(alloc: Global, leaf_size: u16, settings: Settings) -> Result<SegmentSet<D>, Memory>
        requires dims { (1 ≤ D) × (D ≤ 8) }
        requires least_leaf { 2 ≤ leaf_size }
        requires greatest_leaf { leaf_size ≤ leaf_limit D }
        ensures seen { IfOk result (λ s. (files : Files) → Sees D files s (new_index D leaf_size)) }
        ensures faithful { IfOk result (λ s. (files : Files) → IsFaithful D files s) }
        ensures unsaved { IfOk result (λ s. s.saved ≡ None) }
        ensures names { IfOk result (λ s. s.names ≡ record { names = []; next_segment = 0 }) }
        ensures room { IfOk result (λ s. room_of s.cache ≡ settings.cache_pages) }
    {
        Ok(SegmentSet {
            leaf_size,
            forks: settings.forks,
            points_given: 0,
            names: FileNames::new(alloc),
            segments: Segments::new(alloc),
            buffer: Buffer::new(alloc, 0),
            snapshots: Vec::new(alloc),
            begun: None,
            cache: PageCache::new(alloc, settings.cache_pages)?,
            saved: None,
        })
    }

    /// The number of the next document.
    pub fn next(&self) -> u32
        ensures { result ≡ self.now.next }
    {
        self.buffer.next()
    }

    /// How many points were ever given.
    pub fn points_given(&self) -> u32
        ensures { result ≡ self.now.points_given }
    {
        self.points_given
    }

    /// The greatest number of entries of a leaf.
    pub fn leaf_size(&self) -> u16
        ensures value { result ≡ self.now.leaf_size }
        ensures well { IsWell D self.now }
    {
        self.leaf_size
    }

    /// Whether a merge is begun.
    pub fn is_merging(&self) -> bool
        ensures { result ≡ is_some self.now.begun }
    {
        self.begun.is_some()
    }

    /// Whether the set isn't as the commit says: its next number, points given, segments or the number of live
    /// numbers of one of them is another, or the buffer isn't empty.
    pub fn differs(&self, c: &Commit) -> bool
        ensures same { (result ≡ false) ↔ IsAsCommitted self.now c.now }
        ensures sets { result ≡ false → All (λ p. IsLiveSet p.live) self.now.parts }
    {
        if self.buffer.next() != c.next()
            || self.points_given != c.points_given()
            || !self.buffer.is_empty()
        {
            return true;
        }
        !are_listed(self.segments.heads(), self.segments.lives(), c.listed())
    }
}

ghost use Rattle.std.specs.Prelude.{true, length, map, All};
ghost use Rattle.live_bits.specs.LiveSet.{IsLiveSet};

/// Whether just these segments are listed, each with as many live numbers.
fn are_listed<const D: usize>(
    heads: &[SegmentHead<D>],
    lives: &[LiveBits],
    listed: &[Listed],
) -> bool
    requires { length lives.now ≡ length heads.now }
    ensures sets { result ≡ true → All IsLiveSet lives.now }
    ensures same { (result ≡ true)
        ↔ ((map (λ h. h.id) heads.now ≡ map (λ l. l.segment) listed.now)
        × (map (λ s. length s.live) lives.now ≡ map (λ l. l.live) listed.now)) }
{
    if heads.len() != listed.len() {
        return false;
    }
    for (i, one) in listed.iter().enumerate() {
        if heads[i].id() != one.segment || lives[i].live_count() != one.live {
            return false;
        }
    }
    true
}
