//! What is built, and the build.

ghost use Rattle.std.specs.Prelude.{◌≡◌, ◌≤◌, ◌<◌, ◌^◌, length, All, IfOk};
ghost use Rattle.std.specs.List.Sorted.{IsPermutation};
ghost use Rattle.point_codec.specs.Seen.{items_of};
ghost use Rattle.leaf_codec.specs.LeafOrder.{NoneTwice};
ghost use Rattle.leaf_codec.specs.Leaves.{leaf_limit};
ghost use Rattle.bkd_build.specs.Canon.{IsBuilt};

use crate::gate::Gate;
use crate::parts::{BuiltSubtree, cell_round};
use crate::tree::build_part;
use byte_cursor::{Bytes, Memory};
use inner_pack::Index;
use point_codec::Entry;
use std::alloc::Global;
use std::marker::{Model, Sync};
use std::thread::Threads;

/// The canonical tree of some entries, ready to be written: its index, and the bytes of its leaves in order.
/// Contracts see it as these two.
#[derive(Debug, Drop)]
pub struct Built<const D: usize> {
    index: Index<D>,
    leaves: Vec<Bytes>,
}

impl<const D: usize> Model for Built<D> {
    ghost use Rattle.bkd_build.specs.Canon.{BuiltValue};

    ghost Value = { BuiltValue };

    ghost view = { λ b. record { index = b.index; leaves = b.leaves.items } };
}

impl<const D: usize> Built<D> {
    ghost use Rattle.std.specs.Prelude.{◌≡◌};

    /// The index, of form 3.
    pub fn index(&self) -> &Index<D>
        ensures { result.now ≡ self.now.index }
    {
        &self.index
    }

    /// The bytes of each leaf, in order.
    pub fn leaves(&self) -> &[Bytes]
        ensures { result.now ≡ self.now.leaves }
    {
        self.leaves.as_slice()
    }

    /// The index, and the bytes of each leaf in order.
    pub fn into_parts(self) -> (Index<D>, Vec<Bytes>)
        requires { (1 ≤ D) × (D ≤ 8) }
        ensures index { result.0 ≡ self.entry.index }
        ensures leaves { result.1.items ≡ self.entry.leaves }
    {
        let Built { index, leaves } = self;
        (index, leaves)
    }
}

/// Builds the canonical tree of the entries with leaves of `leaf_size` entries (the greatest is
/// `leaf_codec::greatest_leaf`). The
/// slice holds the same entries in some order afterwards, also where memory is wanting.
///
/// The halves of the nodes of its upper `forks` levels are built in threads of their own, where these can be made.
/// The left half then first calls `gate.pass(0)`, and the right one `gate.pass(1)`. Nothing that is built depends on
/// `forks` or the gate.
pub fn build<const D: usize, R: Threads + Sync, G: Gate>(
    rt: &R,
    alloc: Global,
    entries: &mut [Entry<D>],
    leaf_size: u16,
    forks: u8,
    gate: &G,
) -> Result<Built<D>, Memory>
    requires dims { (1 ≤ D) × (D ≤ 8) }
    requires some { 1 ≤ length entries.old }
    requires few { length entries.old ≤ 2 ^ 24 }
    requires numbers { All (λ e. e.doc < 2 ^ 24) entries.old }
    requires once { NoneTwice (items_of entries.old) }
    requires least_leaf { 2 ≤ leaf_size }
    requires greatest_leaf { leaf_size ≤ leaf_limit D }
    ensures same { IsPermutation entries.old entries.new }
    ensures built { IfOk result (λ b. IsBuilt D leaf_size (items_of entries.old) b) }
{
    let root = cell_round(entries);
    let part = build_part(rt, alloc, entries, &root, leaf_size as usize, forks, gate)?;
    let BuiltSubtree {
        nodes,
        lengths,
        cells,
        leaves,
    } = part;
    let index = Index::pack(
        alloc,
        root,
        nodes.as_slice(),
        lengths.as_slice(),
        cells.as_slice(),
    )?;
    Ok(Built { index, leaves })
}
