//! The answers to lines of counts.

ghost use Rattle.std.specs.Prelude.{◌≡◌, ◌≢◌, ◌≤◌, ◌++◌, true, IfOk, IsErrOf, IsTrue, OnErr};
ghost use Rattle.script_lang.specs.Replies.{line_fault_text, refusal_text};
ghost use Rattle.run_status.specs.Told.{IsTold};
ghost use Rattle.count_queries.specs.Asks.{box_from};
ghost use Rattle.count_queries.specs.Counted.{TellsBuckets, TellsCount, TellsPoints, bare};
ghost use Rattle.count_queries.specs.Texts.{grid_fault_text};
ghost use Rattle.count_queries.specs.Counts.{CountsLine, InScope};

use crate::lines::{CountFault, CountLine, read_count_line};
use crate::texts::{put_buckets, put_grid_fault, put_points};
use crate::wanted::read_bare;
use outer_io::Pages;
use page_cache::{PageCache, PageFault};
use point_codec::Point;
use point_counts::{GridFault, GridPlan, count, grid};
use script_lang::{LineFault, put_line_fault};
use segment_view::Segments;
use std::alloc::{AllocError, Global};

/// Appends what is told of a line where an index is there. True where the line is refused. No file changes.
pub(crate) fn answer_line<const D: usize, F: Pages>(
    alloc: Global,
    segments: &Segments<D>,
    cache: &mut PageCache,
    folder: &mut F,
    number: u64,
    line: &[u8],
    reply: &mut Vec<u8>,
) -> Result<bool, PageFault>
    requires some { 1 ≤ D }
    requires few { D ≤ 8 }
    ensures { CountsLine D (IsTrue F.told) segments.now (λ s t. TellsCount s number line.now t)
        (record {
          files = F.files folder.old;
          cache = cache.old;
          reads = F.reads folder.old;
          faults = F.faults
              folder.old;
          text = reply.old.items;
        })
        (record {
          files = F.files folder.new;
          cache = cache.new;
          reads = F.reads folder.new;
          faults = F.faults
              folder.new;
          text = reply.new.items;
        }) result }
{
    match read_count_line::<D>(line) {
        Ok(CountLine::Blank) => Ok(false),
        Ok(CountLine::Points { lo, hi }) => {
            answer_points(alloc, segments, cache, folder, &lo, &hi, reply)
        }
        Ok(CountLine::Grid(plan)) => answer_grid(alloc, segments, cache, folder, &plan, reply),
        Err(CountFault::Line(fault)) => refuse_line(number, &fault, reply),
        Err(CountFault::Grid(fault)) => refuse_grid(number, &fault, reply),
        Err(CountFault::Memory) => Err(PageFault::Memory),
    }
}

/// Appends what is told of a line where no index is there. True where the line is refused.
pub(crate) fn answer_bare(number: u64, line: &[u8], reply: &mut Vec<u8>) -> Result<bool, AllocError>
    ensures { IfOk result (IsTold (TellsCount bare number line.now) reply.old.items reply.new.items) }
{
    match read_bare(line) {
        Ok(()) => Ok(false),
        Err(LineFault::Memory) => Err(AllocError),
        Err(fault) => {
            put_line_fault(reply, number, &fault)?;
            Ok(true)
        }
    }
}

/// Appends how many points lie in a box.
fn answer_points<const D: usize, F: Pages>(
    alloc: Global,
    segments: &Segments<D>,
    cache: &mut PageCache,
    folder: &mut F,
    lo: &Point<D>,
    hi: &Point<D>,
    reply: &mut Vec<u8>,
) -> Result<bool, PageFault>
    ensures { CountsLine D (IsTrue F.told) segments.now
        (λ s t. InScope s (λ i u. TellsPoints i s.parts (box_from (lo.now.c, hi.now.c)) u) t)
        (record {
          files = F.files folder.old;
          cache = cache.old;
          reads = F.reads folder.old;
          faults = F.faults
              folder.old;
          text = reply.old.items;
        })
        (record {
          files = F.files folder.new;
          cache = cache.new;
          reads = F.reads folder.new;
          faults = F.faults
              folder.new;
          text = reply.new.items;
        }) result }
{
    let n = count(alloc, segments, &[], cache, folder, lo, hi)?;
    put_points(reply, n)?;
    Ok(false)
}

/// Appends the buckets of a grid that have a point.
fn answer_grid<const D: usize, F: Pages>(
    alloc: Global,
    segments: &Segments<D>,
    cache: &mut PageCache,
    folder: &mut F,
    plan: &GridPlan<D>,
    reply: &mut Vec<u8>,
) -> Result<bool, PageFault>
    ensures { CountsLine D (IsTrue F.told) segments.now (λ s t. InScope s (λ i u. TellsBuckets i s.parts plan.now u) t)
        (record {
          files = F.files folder.old;
          cache = cache.old;
          reads = F.reads folder.old;
          faults = F.faults
              folder.old;
          text = reply.old.items;
        })
        (record {
          files = F.files folder.new;
          cache = cache.new;
          reads = F.reads folder.new;
          faults = F.faults
              folder.new;
          text = reply.new.items;
        }) result }
{
    let buckets = grid(alloc, segments, &[], cache, folder, plan)?;
    put_buckets(reply, buckets.as_slice())?;
    Ok(false)
}

/// Appends why a line can't be read.
fn refuse_line(number: u64, fault: &LineFault, reply: &mut Vec<u8>) -> Result<bool, PageFault>
    requires { fault.now ≢ LineFault.Memory }
    ensures refused { IfOk result (λ refused. (refused ≡ true)
        × (reply.new.items ≡ reply.old.items ++ line_fault_text number fault.now)) }
    ensures memory { OnErr result (IsErrOf result PageFault.Memory) }
{
    put_line_fault(reply, number, fault)?;
    Ok(true)
}

/// Appends that there is no such grid.
fn refuse_grid(number: u64, fault: &GridFault, reply: &mut Vec<u8>) -> Result<bool, PageFault>
    ensures refused { IfOk result (λ refused. (refused ≡ true)
        × (reply.new.items ≡ reply.old.items ++ refusal_text number (grid_fault_text fault.now))) }
    ensures memory { OnErr result (IsErrOf result PageFault.Memory) }
{
    put_grid_fault(reply, number, fault)?;
    Ok(true)
}
