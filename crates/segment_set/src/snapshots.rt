//! Snapshots: views that are kept under a name, and how they are taken, found and let go.

ghost use Rattle.std.specs.Prelude.{◌≡◌, ◌≤◌, ◌<◌, ◌++◌, ◌∷◌, ◌↔◌, [], None, Some, false, true, not, length, filter};
ghost use Rattle.std.specs.Prelude.{OnOk, OnErr, IsErrOf};
ghost use Rattle.std.specs.Str.{bytes_eq};
ghost use Rattle.outer_io.specs.Files.{Files};
ghost use Rattle.index_model.specs.State.{Index, at_rest};

use crate::faults::SnapFault;
use crate::set::SegmentSet;
use point_codec::{Entry, Name};
use segment_view::Segments;
use std::alloc::Global;
use std::marker::Model;

/// A view that is kept under a name. It owns what it shows: copies of the heads, the live bits and the buffer.
#[derive(Drop)]
pub(crate) struct Snapshot<const D: usize> {
    pub(crate) name: Name,
    pub(crate) segments: Segments<D>,
    pub(crate) buffer: Vec<Entry<D>>,
}

impl<const D: usize> Model for Snapshot<D> {
    ghost use Rattle.point_codec.specs.Seen.{items_of};
    ghost use Rattle.segment_set.specs.Sets.{NamedView};

    ghost Value = { NamedView };

    ghost view = { λ s. record { name = s.name; parts = s.segments; buffer = items_of s.buffer.items } };
}

impl<const D: usize> Snapshot<D> {
    /// Whether this is the snapshot's name.
    fn is_named(&self, name: &Name) -> bool
        ensures { result ≡ bytes_eq self.now.name name.now }
    {
        self.name.as_bytes() == name.as_bytes()
    }
}

impl<const D: usize> SegmentSet<D> {
    ghost use Rattle.segment_set.specs.Sets.{NamedView, has_name, set_released, set_snapped};
    ghost use Rattle.segment_set.specs.Seen.{Sees};
    ghost use Rattle.segment_set.specs.Faithful.{IsFaithful};
    ghost use Rattle.segment_set.specs.declared.faults.SnapFault.TheVariants.{Taken, TooMany};

    /// Whether a snapshot has this name.
    pub fn has_snapshot(&self, name: &Name) -> bool
        ensures { result ≡ has_name name.now self.now.snapshots }
    {
        has_name(self.snapshots.as_slice(), name)
    }

    /// Keeps what is live now under a name. Taken exactly where a snapshot has the name; then TooMany exactly where
    /// there are 16.
    pub fn snapshot(&mut self, alloc: Global, name: Name) -> Result<(), SnapFault>
        ensures seen { (files : Files) (i : Index) → Sees D files self.old i
            → OnOk result
            (Sees D files self.new
            (record i { snapshots = i.snapshots ++ record { name = name; docs = i.docs } ∷ [] })) }
        ensures faithful { (files : Files) → IsFaithful D files self.old → IsFaithful D files self.new }
        ensures taken { IsErrOf result Taken ↔ (has_name name self.old.snapshots ≡ true) }
        ensures too_many { IsErrOf result TooMany ↔
            ((has_name name self.old.snapshots ≡ false) × (16 ≤ length self.old.snapshots)) }
        ensures refused { OnErr result (self.new ≡ self.old) }
        ensures kept { OnOk result (self.new ≡ set_snapped name self.old) }
    {
        if has_name(self.snapshots.as_slice(), &name) {
            return Err(SnapFault::Taken);
        }
        if self.snapshots.len() >= 16 {
            return Err(SnapFault::TooMany);
        }
        let segments = self.segments.copy(alloc)?;
        self.buffer.settle();
        let buffer = Vec::from_slice(alloc, self.buffer.as_slice())?;
        self.snapshots.reserve(1)?;
        self.snapshots.push_reserved(Snapshot {
            name,
            segments,
            buffer,
        });
        Ok(())
    }

    /// Lets the snapshot of this name go. False exactly where there is none.
    pub fn release(&mut self, name: &Name) -> bool
        ensures found { result ≡ has_name name.now self.old.snapshots }
        ensures seen { (files : Files) (i : Index) → Sees D files self.old i
            → Sees D files self.new
            (record i { snapshots = filter (λ s. not (bytes_eq s.name name.now)) i.snapshots }) }
        ensures faithful { (files : Files) → IsFaithful D files self.old → IsFaithful D files self.new }
        ensures kept { self.new ≡ set_released name.now self.old }
    {
        let found = has_name(self.snapshots.as_slice(), name);
        let_go(&mut self.snapshots, name);
        found
    }

    /// Lets all snapshots go, and the begun merge.
    pub fn rest(&mut self)
        ensures seen { (files : Files) (i : Index) → Sees D files self.old i → Sees D files self.new (at_rest i) }
        ensures faithful { (files : Files) → IsFaithful D files self.old → IsFaithful D files self.new }
        ensures kept { self.new ≡ record self.old { snapshots = []; begun = None } }
    {
        self.snapshots.clear();
        self.begun = None;
    }
}

ghost use Rattle.segment_set.specs.Sets.{has_name, view_of};

/// Whether a snapshot has this name.
pub(crate) fn has_name<const D: usize>(snapshots: &[Snapshot<D>], name: &Name) -> bool
    ensures { result ≡ has_name name.now snapshots.now }
{
    for snapshot in snapshots {
        if snapshot.is_named(name) {
            return true;
        }
    }
    false
}

/// The snapshot of this name.
pub(crate) fn snapshot_named<'a, const D: usize>(
    snapshots: &'a [Snapshot<D>],
    name: &Name,
) -> &'a Snapshot<D>
    requires { has_name name.now snapshots.now ≡ true }
    ensures { view_of name.now snapshots.now ≡ Some result.now }
{
    for snapshot in snapshots {
        if snapshot.is_named(name) {
            return snapshot;
        }
    }
    unreachable!()
}

/// Takes the snapshots of this name out.
fn let_go<const D: usize>(snapshots: &mut Vec<Snapshot<D>>, name: &Name)
    ensures { snapshots.new.items ≡ filter (λ v. not (bytes_eq v.name name.now)) snapshots.old.items }
{
    snapshots.retain(
        |snapshot| -> bool
            ensures { result ≡ not (bytes_eq snapshot.now.name name.entry.now) }
        { !snapshot.is_named(name) },
    );
}
