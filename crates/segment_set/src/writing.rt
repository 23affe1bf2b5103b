//! Entries become a segment beside the others: those of the buffer, and those that are added at once.

ghost use Rattle.std.specs.Prelude.{◌≡◌, ◌≤◌, ◌<◌, ◌^◌, [], length};
ghost use Rattle.std.specs.Prelude.{All, IsTrue, OnOk, OnErr};
ghost use Rattle.point_codec.specs.Seen.{items_of};
ghost use Rattle.leaf_codec.specs.LeafOrder.{NoneTwice};
ghost use Rattle.page_cache.specs.Causes.{HasPageCause};
ghost use Rattle.page_cache.specs.Evidence.{NotDamaged};
ghost use Rattle.document_checks.specs.Crowded.{AreFew};
ghost use Rattle.segment_set.specs.Sets.{IsNamed};
ghost use Rattle.segment_set.specs.Kept.{KeepsNamed};
ghost use Rattle.segment_set.specs.Merges.{IsBufferWritten};

use crate::buffer::Buffer;
use crate::build_plan::BuildPlan;
use crate::rewriting::swap;
use bkd_build::Gate;
use file_names::FileNames;
use outer_io::Folder;
use page_cache::PageFault;
use point_codec::Entry;
use segment_build::build_segment;
use segment_view::Segments;
use std::alloc::Global;
use std::marker::Sync;
use std::thread::Threads;

/// Writes what waits in the buffer as a segment, and empties the buffer. A refusal leaves segments and buffer.
pub(crate) fn write_buffer<const D: usize, R: Threads + Sync, F: Folder, G: Gate>(
    rt: &R,
    alloc: Global,
    folder: &mut F,
    names: &mut FileNames,
    segments: &mut Segments<D>,
    buffer: &mut Buffer<D>,
    plan: &BuildPlan<D>,
    gate: &G,
) -> Result<(), PageFault>
    requires dims { D ≤ 8 }
    requires named { All (IsNamed names.old) segments.old }
    requires some { 1 ≤ length buffer.old.items }
    requires few { length buffer.old.items ≤ 16384 }
    requires numbers { All (λ x. x.doc < 2 ^ 24) buffer.old.items }
    requires once { NoneTwice buffer.old.items }
    requires sixteen { AreFew buffer.old.items }
    ensures written { OnOk result
        (IsBufferWritten D (IsTrue F.told) plan.now.leaf_size names.old names.new (F.files folder.new)
        buffer.old.items segments.old segments.new) }
    ensures emptied { OnOk result (buffer.new.items ≡ []) }
    ensures next { buffer.new.next ≡ buffer.old.next }
    ensures refused { OnErr result ((segments.new ≡ segments.old) × (buffer.new.items ≡ buffer.old.items)) }
    ensures kept { KeepsNamed (IsTrue F.told) names.old names.new (F.files folder.old) (F.files folder.new) }
    ensures reads { F.reads folder.new ≡ F.reads folder.old }
    ensures cause { HasPageCause (F.faults folder.old) (F.faults folder.new) result }
    ensures whole { NotDamaged result }
{
    buffer.settle();
    // a build leaves its entries in another order
    let mut copy = Vec::from_slice(alloc, buffer.as_slice())?;
    write_entries(
        rt,
        alloc,
        folder,
        names,
        segments,
        copy.as_mut_slice(),
        plan,
        gate,
    )?;
    buffer.clear();
    Ok(())
}

/// Builds a segment of these entries, and writes it beside the others. The slice holds the same entries in some order
/// afterwards. A refusal leaves the segments.
pub(crate) fn write_entries<const D: usize, R: Threads + Sync, F: Folder, G: Gate>(
    rt: &R,
    alloc: Global,
    folder: &mut F,
    names: &mut FileNames,
    segments: &mut Segments<D>,
    entries: &mut [Entry<D>],
    plan: &BuildPlan<D>,
    gate: &G,
) -> Result<(), PageFault>
    requires dims { D ≤ 8 }
    requires named { All (IsNamed names.old) segments.old }
    requires some { 1 ≤ length entries.old }
    requires few { length entries.old ≤ 2 ^ 24 }
    requires numbers { All (λ x. x.doc < 2 ^ 24) (items_of entries.old) }
    requires once { NoneTwice (items_of entries.old) }
    requires sixteen { AreFew (items_of entries.old) }
    ensures written { OnOk result
        (IsBufferWritten D (IsTrue F.told) plan.now.leaf_size names.old names.new (F.files folder.new)
        (items_of entries.old) segments.old segments.new) }
    ensures refused { OnErr result (segments.new ≡ segments.old) }
    ensures kept { KeepsNamed (IsTrue F.told) names.old names.new (F.files folder.old) (F.files folder.new) }
    ensures reads { F.reads folder.new ≡ F.reads folder.old }
    ensures cause { HasPageCause (F.faults folder.old) (F.faults folder.new) result }
    ensures whole { NotDamaged result }
{
    let new = build_segment(rt, alloc, entries, plan.leaf_size, plan.forks, gate)?;
    swap(alloc, folder, names, segments, &new, &[])
}
