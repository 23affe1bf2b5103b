//! What is told of a line.

ghost use Rattle.std.specs.Prelude.{◌≡◌, ◌≢◌, ◌≤◌, ◌++◌, true, IsTrue, IfOk, OnErr, IsErrOf};
ghost use Rattle.script_lang.specs.Replies.{line_fault_text, refused_text};
ghost use Rattle.script_lang.specs.Seen.{IsWithinLimits, request_of};
ghost use Rattle.ring_parity.specs.Rings.{all_edges};
ghost use Rattle.polygon_query.specs.Shape as polygons;
ghost use Rattle.index_model.specs.Step.{in_plane_polygon};
ghost use Rattle.explain_queries.specs.Explained.{Tells, TellsLine, TellsNear, TellsShape, bare};
ghost use Rattle.explain_queries.specs.Explains.{Explains, InScope};
ghost use Rattle.run_status.specs.Told.{IsTold};

use crate::texts::{put_near, put_shape};
use cell_relate::{BoxShape, Shape};
use outer_io::Folder;
use page_cache::PageFault;
use point_codec::{Point, View};
use polygon_query::PolygonShape;
use ring_parity::Rings;
use script_lang::{
    Command, First, LineFault, Refusal, put_line_fault, put_refusal, read_first, read_line,
};
use segment_set::SegmentSet;
use std::alloc::{AllocError, Global};

/// Appends what is told of a line where an index is there. True where the line is refused. No file changes.
pub fn explain_line<const D: usize, F: Folder>(
    alloc: Global,
    set: &mut SegmentSet<D>,
    folder: &mut F,
    number: u64,
    line: &[u8],
    reply: &mut Vec<u8>,
) -> Result<bool, PageFault>
    requires some { 1 ≤ D }
    requires few { D ≤ 8 }
    ensures { Explains D (IsTrue F.told) (λ s t. TellsLine s number line.now t)
        (record {
          set = set.old;
          files = F.files folder.old;
          reads = F.reads folder.old;
          faults = F.faults folder.old;
          text = reply.old.items;
        })
        (record {
          set = set.new;
          files = F.files folder.new;
          reads = F.reads folder.new;
          faults = F.faults folder.new;
          text = reply.new.items;
        }) result }
{
    match read_line::<D>(alloc, line) {
        Ok(command) => explain(alloc, set, folder, number, &command, reply),
        Err(LineFault::Memory) => Err(PageFault::Memory),
        Err(fault) => refuse_line(number, &fault, reply),
    }
}

/// Appends what is told of a line where no index is there. True where the line is refused.
pub fn explain_first(number: u64, line: &[u8], reply: &mut Vec<u8>) -> Result<bool, AllocError>
    ensures { IfOk result (IsTold (TellsLine bare number line.now) reply.old.items reply.new.items) }
{
    match read_first(line) {
        Ok(First::Blank) => Ok(false),
        Ok(
            First::Create {
                dims: _,
                leaf_size: _,
            },
        ) => {
            put_refusal(reply, number, Refusal::NotQuery)?;
            Ok(true)
        }
        Err(LineFault::Memory) => Err(AllocError),
        Err(fault) => {
            put_line_fault(reply, number, &fault)?;
            Ok(true)
        }
    }
}

/// Appends what is told of a command. True where it is refused: it is no query, or one of a snapshot, and a stored
/// index has none.
fn explain<const D: usize, F: Folder>(
    alloc: Global,
    set: &mut SegmentSet<D>,
    folder: &mut F,
    number: u64,
    command: &Command<D>,
    reply: &mut Vec<u8>,
) -> Result<bool, PageFault>
    requires { IsWithinLimits (request_of command.now) }
    ensures { Explains D (IsTrue F.told) (λ s t. Tells s number (request_of command.now) t)
        (record {
          set = set.old;
          files = F.files folder.old;
          reads = F.reads folder.old;
          faults = F.faults folder.old;
          text = reply.old.items;
        })
        (record {
          set = set.new;
          files = F.files folder.new;
          reads = F.reads folder.new;
          faults = F.faults folder.new;
          text = reply.new.items;
        }) result }
{
    match command {
        Command::Blank => Ok(false),
        Command::InBox { view, lo, hi } => match view {
            View::Now => {
                let mut shape = BoxShape::new(*lo, *hi);
                tell_shape(alloc, set, folder, &mut shape, reply)
            }
            View::Named(_) => refuse_snapshot(number, reply),
        },
        Command::Polygon { view, rings } => match view {
            View::Now => tell_polygon(alloc, set, folder, rings, reply),
            View::Named(_) => refuse_snapshot(number, reply),
        },
        Command::Nearest { view, k, at } => match view {
            View::Now => tell_near(alloc, set, folder, *k, at, reply),
            View::Named(_) => refuse_snapshot(number, reply),
        },
        _ => refuse(number, Refusal::NotQuery, reply),
    }
}

/// Appends why a line can't be read.
fn refuse_line(number: u64, fault: &LineFault, reply: &mut Vec<u8>) -> Result<bool, PageFault>
    requires { fault.now ≢ LineFault.Memory }
    ensures refused { IfOk result
        (λ refused. (refused ≡ true) × (reply.new.items ≡ reply.old.items ++ line_fault_text number fault.now)) }
    ensures memory { OnErr result (IsErrOf result PageFault.Memory) }
{
    put_line_fault(reply, number, fault)?;
    Ok(true)
}

/// Appends why a command is refused.
fn refuse(number: u64, why: Refusal, reply: &mut Vec<u8>) -> Result<bool, PageFault>
    ensures refused { IfOk result
        (λ refused. (refused ≡ true) × (reply.new.items ≡ reply.old.items ++ refused_text number why)) }
    ensures memory { OnErr result (IsErrOf result PageFault.Memory) }
{
    put_refusal(reply, number, why)?;
    Ok(true)
}

/// Appends that there is no such snapshot: a stored index has none.
fn refuse_snapshot(number: u64, reply: &mut Vec<u8>) -> Result<bool, PageFault>
    ensures refused { IfOk result
        (λ refused. (refused ≡ true)
        × (reply.new.items ≡ reply.old.items ++ refused_text number Refusal.UnknownSnapshot)) }
    ensures memory { OnErr result (IsErrOf result PageFault.Memory) }
{
    refuse(number, Refusal::UnknownSnapshot, reply)
}

/// Appends what a polygon tests and touches of the stored segments, and how many documents it hits.
fn tell_polygon<const D: usize, F: Folder>(
    alloc: Global,
    set: &mut SegmentSet<D>,
    folder: &mut F,
    rings: &Rings,
    reply: &mut Vec<u8>,
) -> Result<bool, PageFault>
    ensures { Explains D (IsTrue F.told)
        (λ s t. InScope s
        (λ i u. TellsShape i.dims s.heads i.docs (in_plane_polygon i.dims rings.now)
        (polygons.crosses i.dims (all_edges rings.now)) u) t)
        (record {
          set = set.old;
          files = F.files folder.old;
          reads = F.reads folder.old;
          faults = F.faults folder.old;
          text = reply.old.items;
        })
        (record {
          set = set.new;
          files = F.files folder.new;
          reads = F.reads folder.new;
          faults = F.faults folder.new;
          text = reply.new.items;
        }) result }
{
    let mut shape = PolygonShape::new(alloc, rings)?;
    tell_shape(alloc, set, folder, &mut shape, reply)
}

/// Appends what a shape tests and touches of the stored segments, and how many documents it hits.
fn tell_shape<const D: usize, S: Shape<D>, F: Folder>(
    alloc: Global,
    set: &mut SegmentSet<D>,
    folder: &mut F,
    shape: &mut S,
    reply: &mut Vec<u8>,
) -> Result<bool, PageFault>
    ensures { Explains D (IsTrue F.told)
        (λ s t. InScope s (λ i u. TellsShape i.dims s.heads i.docs (S.has shape.old) (S.crosses shape.old) u) t)
        (record {
          set = set.old;
          files = F.files folder.old;
          reads = F.reads folder.old;
          faults = F.faults folder.old;
          text = reply.old.items;
        })
        (record {
          set = set.new;
          files = F.files folder.new;
          reads = F.reads folder.new;
          faults = F.faults folder.new;
          text = reply.new.items;
        }) result }
{
    let found = set.visit(alloc, folder, &View::Now, shape)?;
    put_shape(reply, &found.cost, found.docs.len())?;
    Ok(false)
}

/// Appends what a query for the nearest touches of the stored segments, and how many documents it finds.
fn tell_near<const D: usize, F: Folder>(
    alloc: Global,
    set: &mut SegmentSet<D>,
    folder: &mut F,
    k: u16,
    at: &Point<D>,
    reply: &mut Vec<u8>,
) -> Result<bool, PageFault>
    requires some { 1 ≤ k }
    requires few { k ≤ 10000 }
    ensures { Explains D (IsTrue F.told) (λ s t. InScope s (λ i u. TellsNear i.dims s.heads i.docs k at.now.c u) t)
        (record {
          set = set.old;
          files = F.files folder.old;
          reads = F.reads folder.old;
          faults = F.faults folder.old;
          text = reply.old.items;
        })
        (record {
          set = set.new;
          files = F.files folder.new;
          reads = F.reads folder.new;
          faults = F.faults folder.new;
          text = reply.new.items;
        }) result }
{
    let found = set.nearest(alloc, folder, &View::Now, at, k)?;
    put_near(reply, found.touched, found.docs.len())?;
    Ok(false)
}
