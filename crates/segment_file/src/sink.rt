//! What the leaves of a segment are read into.

ghost use Rattle.std.specs.Prelude.{◌≡◌, ◌≤◌, ◌+◌, ◌++◌, ◌∷◌, ◌<◌, [], Some, length, slice_get, filter, OnOk};
ghost use Rattle.std.specs.Prelude.{vec_capacity, vec_len};
ghost use Rattle.point_codec.specs.Points.{Item};
ghost use Rattle.point_codec.specs.Seen.{items_of};
ghost use Rattle.live_bits.specs.LiveSet.{is_live};
ghost use Rattle.segment_file.specs.Sinks.{Adds, set_without_entries};

use byte_cursor::Memory;
use leaf_codec::LeafView;
use live_bits::LiveBits;
use point_codec::Entry;

/// What the entries of leaves are added to, one leaf after the other.
#[derive(Drop)]
pub(crate) enum LeafSink<const D: usize> {
    /// The live entries, in the order of the leaves.
    Entries(Vec<Entry<D>>),
    /// The live numbers of which no entry was added.
    Numbers(LiveBits),
}

impl<const D: usize> LeafSink<D> {
    /// Adds the entries of a leaf.
    pub(crate) fn add_leaf(&mut self, view: &LeafView<'_, D>, live: &LiveBits) -> Result<(), Memory>
        ensures { OnOk result (Adds self.old live.now view.now self.new) }
    {
        match self {
            LeafSink::Entries(entries) => push_live(view, live, entries)?,
            LeafSink::Numbers(left) => clear_all(view, left),
        }
        Ok(())
    }
}

/// Appends those of the leaf's entries that are live.
fn push_live<const D: usize>(
    view: &LeafView<'_, D>,
    live: &LiveBits,
    entries: &mut Vec<Entry<D>>,
) -> Result<(), Memory>
    ensures { OnOk result
        (items_of entries.new.items ≡ items_of entries.old.items ++ filter (λ x. is_live live.now x.doc) view.now) }
{
    entries.reserve(view.count() as usize)?;
    push_reserved(view, live, entries);
    Ok(())
}

/// Appends those of the leaf's entries that are live, for all of which there is room.
fn push_reserved<const D: usize>(
    view: &LeafView<'_, D>,
    live: &LiveBits,
    entries: &mut Vec<Entry<D>>,
)
    requires { vec_len entries.old + length view.now ≤ vec_capacity entries.old }
    ensures { items_of entries.new.items
        ≡ items_of entries.old.items ++ filter (λ x. is_live live.now x.doc) view.now }
{
    for i in 0..view.count() {
        push_if_live(view, i, live, entries);
    }
}

/// Appends entry `i` of the leaf where it is live. There is room for it.
fn push_if_live<const D: usize>(
    view: &LeafView<'_, D>,
    i: u16,
    live: &LiveBits,
    entries: &mut Vec<Entry<D>>,
)
    requires within { i < length view.now }
    requires room { vec_len entries.old < vec_capacity entries.old }
    ensures one { (x : Item) → slice_get view.now i ≡ Some x
        → items_of entries.new.items ≡ items_of entries.old.items ++ filter (λ y. is_live live.now y.doc) (x ∷ []) }
    ensures room { (vec_len entries.new ≤ vec_len entries.old + 1)
        × (vec_capacity entries.new ≡ vec_capacity entries.old) }
{
    let doc = view.doc(i);
    if live.is_live(doc) {
        entries.push_reserved(Entry {
            doc,
            point: view.point(i),
        });
    }
}

/// Takes the number of each entry of the leaf out of the set.
fn clear_all<const D: usize>(view: &LeafView<'_, D>, left: &mut LiveBits)
    ensures { left.new ≡ set_without_entries view.now left.old }
{
    for i in 0..view.count() {
        left.clear(view.doc(i));
    }
}
