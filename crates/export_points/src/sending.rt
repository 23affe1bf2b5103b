//! An export, sent in pieces.

ghost use Rattle.std.specs.Prelude.{◌≤◌, ◌++◌, ℕ, List, IsTrue};
ghost use Rattle.std.specs.Prelude.{IfErr, IsErrOf, OnOk};
ghost use Rattle.std.specs.List.{flat_map};
ghost use Rattle.outer_io.specs.Faults.{Rose};
ghost use Rattle.point_codec.specs.Seen.{items_of};
ghost use Rattle.leaf_codec.specs.LeafOrder.{item_of};
ghost use Rattle.documents.specs.Documents.{Document};
ghost use Rattle.documents.specs.Entries.{AreDocs};
ghost use Rattle.export_points.specs.Ends.{IsCut, IsOfSink, IsSentBut, Sends};
ghost use Rattle.export_points.specs.Exported.{export_text, record_text};

use crate::order::put_in_order;
use crate::texts::{put_header, put_record};
use outer_io::Sink;
use point_codec::Entry;
use run_status::{Stop, send};
use std::alloc::Global;

/// A piece is sent as soon as it has so many bytes.
const PIECE: usize = 65_536;

/// What a piece has room for: its bytes, and a record that ends behind them.
const ROOM: usize = PIECE + 128;

/// Sends the export of documents whose entries these are, in any order. One piece of it at a time is in memory.
pub(crate) fn send_entries<const D: usize, K: Sink>(
    alloc: Global,
    as_ranges: bool,
    entries: Vec<Entry<D>>,
    out: &mut K,
) -> Result<u64, Stop>
    ensures sends { (docs : List Document) → (n : ℕ) → AreDocs n (items_of entries.entry.items) docs
        → Sends (IsTrue K.told) (export_text as_ranges D docs) 0 (K.written out.old) (K.written out.new) result }
    ensures only { IsOfSink result }
    ensures sink { IsErrOf result Stop.SinkFault → Rose (K.faults out.old) (K.faults out.new) }
{
    let mut entries = entries;
    put_in_order(&mut entries);
    let mut piece = Vec::with_capacity(alloc, ROOM)?;
    put_header(&mut piece, as_ranges, D)?;
    send_records(out, &mut piece, entries.as_slice())?;
    send(out, piece.as_slice(), 0)
}

/// Appends the records of entries to a piece, and sends it each time that it is full. What is left of it is not sent.
fn send_records<const D: usize, K: Sink>(
    out: &mut K,
    piece: &mut Vec<u8>,
    entries: &[Entry<D>],
) -> Result<(), Stop>
    ensures sent { IsTrue K.told → OnOk result (IsSentBut piece.new.items (K.written out.old) (K.written out.new)
        (piece.old.items ++ flat_map record_text (items_of entries.now))) }
    ensures cut { IfErr result (IsCut (IsTrue K.told) (piece.old.items ++ flat_map record_text (items_of entries.now))
        (K.written out.old) (K.written out.new)) }
    ensures sink { IsErrOf result Stop.SinkFault → Rose (K.faults out.old) (K.faults out.new) }
    ensures later { K.faults out.old ≤ K.faults out.new }
{
    for entry in entries {
        send_record(out, piece, entry)?;
    }
    Ok(())
}

/// Appends a record to a piece, and sends it where it is full.
fn send_record<const D: usize, K: Sink>(
    out: &mut K,
    piece: &mut Vec<u8>,
    entry: &Entry<D>,
) -> Result<(), Stop>
    ensures sent { IsTrue K.told → OnOk result (IsSentBut piece.new.items (K.written out.old) (K.written out.new)
        (piece.old.items ++ record_text (item_of entry.now))) }
    ensures cut { IfErr result (IsCut (IsTrue K.told) (piece.old.items ++ record_text (item_of entry.now))
        (K.written out.old) (K.written out.new)) }
    ensures sink { IsErrOf result Stop.SinkFault → Rose (K.faults out.old) (K.faults out.new) }
    ensures later { K.faults out.old ≤ K.faults out.new }
{
    put_record(piece, entry)?;
    if piece.len() < PIECE {
        return Ok(());
    }
    send(out, piece.as_slice(), ())?;
    piece.clear();
    Ok(())
}
