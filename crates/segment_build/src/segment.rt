//! A segment that is built in memory, and can be written to its file.

use bkd_build::Built;
use live_bits::LiveBits;
use outer_io::{Folder, WriteFault};
use segment_file::{SegmentHead, write_segment};
use std::alloc::Global;
use std::marker::Model;

/// A segment in memory: the canonical tree of its entries, spelled, and which of its numbers are live. Nothing of it
/// is in a file yet.
#[derive(Debug, Drop)]
pub struct NewSegment<const D: usize> {
    pub(crate) built: Built<D>,
    pub(crate) leaf_size: u16,
    pub(crate) entries: u32,
    pub(crate) live: LiveBits,
}

impl<const D: usize> Model for NewSegment<D> {
    ghost use Rattle.segment_build.specs.NewSegments.{NewSegmentData, HasSomeEntries};

    ghost Value = { NewSegmentData };

    ghost view = { λ n. record {
      index = n.built.index;
      leaves = n.built.leaves;
      leaf_size = n.leaf_size;
      entries = n.entries;
      live = n.live;
    } };

    ghost invariant = { λ n. ∥ HasSomeEntries D
        (record {
          index = n.built.index;
          leaves = n.built.leaves;
          leaf_size = n.leaf_size;
          entries = n.entries;
          live = n.live;
        }) ∥₁ };
}

impl<const D: usize> NewSegment<D> {
    ghost use Rattle.std.specs.Prelude.{◌≡◌, ◌≤◌, List, IsTrue, IfOk};
    ghost use Rattle.outer_io.specs.Files.{bytes_of, SameBut};
    ghost use Rattle.outer_io.specs.declared.file_name.FileName.TheVariants.{Segment};
    ghost use Rattle.point_codec.specs.Points.{Item};
    ghost use Rattle.live_bits.specs.LiveSet.{is_live, live_set_without};
    ghost use Rattle.outer_io.specs.Faults.{HasWriteCause};
    ghost use Rattle.segment_file.specs.Segments.{IsSegment};
    ghost use Rattle.segment_file.specs.Written.{head_of};
    ghost use Rattle.segment_build.specs.NewSegments.{HasEntries, IsCanonical};

    /// The live numbers among those of its entries.
    pub fn live(&self) -> &LiveBits
        ensures { result.now ≡ self.now.live }
    {
        &self.live
    }

    /// The live numbers, without the tree.
    pub fn into_live(self) -> LiveBits
        ensures { result ≡ self.entry.live }
    {
        self.live
    }

    /// The number of entries, 1 to 16,777,216, live or not.
    pub fn entries(&self) -> u32
        ensures value { result ≡ self.now.entries }
        ensures some { (1 ≤ result) × (result ≤ 16777216) }
    {
        self.entries
    }

    /// Takes a number out of the live ones, and answers whether it was live. The entries stay.
    pub fn clear(&mut self, doc: u32) -> bool
        ensures answer { result ≡ is_live self.old.live doc }
        ensures after { self.new ≡ record self.old { live = live_set_without doc self.old.live } }
        ensures entries { (items : List Item) → HasEntries D items self.old → HasEntries D items self.new }
    {
        self.live.clear(doc)
    }

    /// Writes the segment's file, and answers its head. The segment stays as it is, so that it can be written again
    /// after a refusal.
    pub fn write<F: Folder>(
        &self,
        alloc: Global,
        folder: &mut F,
        id: u64,
    ) -> Result<SegmentHead<D>, WriteFault>
        ensures head { IfOk result (λ h. h ≡ head_of id self.now.entries self.now.leaf_size self.now.index) }
        ensures written { IsTrue F.told → (items : List Item) → HasEntries D items self.now
            → IfOk result (λ h. IsSegment D (bytes_of (F.files folder.new (Segment id))) h items) }
        ensures canon { (items : List Item) → HasEntries D items self.now → IfOk result (λ h. IsCanonical D h items) }
        ensures others { IsTrue F.told → SameBut (Segment id) (F.files folder.old) (F.files folder.new) }
        ensures reads { F.reads folder.new ≡ F.reads folder.old }
        ensures cause { HasWriteCause (F.faults folder.old) (F.faults folder.new) result }
    {
        let index = self.built.index().copy(alloc)?;
        write_segment(
            alloc,
            folder,
            id,
            self.leaf_size,
            self.entries,
            index,
            self.built.leaves(),
        )
    }
}
