//! How many live points a box has, and how many each bucket of a grid.

ghost use Rattle.std.specs.Prelude.{◌≡◌, ◌≤◌, ◌<◌, ◌+◌, ◌/◌, ◌%◌, ◌^◌, ◌++◌, ℕ, List, length, IsTrue, IfOk, OnOk};
ghost use Rattle.point_codec.specs.Points.{Item, Region};
ghost use Rattle.point_codec.specs.Seen.{items_of};
ghost use Rattle.cell_relate.specs.Boxes.{crosses};
ghost use Rattle.page_cache.specs.Cache.{Agrees};
ghost use Rattle.page_cache.specs.Causes.{HasPageCause};
ghost use Rattle.page_cache.specs.Evidence.{OnDamage, NotDamaged};
ghost use Rattle.segment_file.specs.Damages.{IsLeafDamageOf};
ghost use Rattle.segment_view.specs.LiveSegments.{Contents, AreRead, ids_of, live_in_parts};
ghost use Rattle.segment_view.specs.Calm.{IsCalm};
ghost use Rattle.segment_view.specs.Damages.{IsPartDamage};
ghost use Rattle.point_counts.specs.Grids.{number_in, bucket_count, IsGrid};
ghost use Rattle.point_counts.specs.Tables.{HasCounts, AddsCounts, all_at, place_in};
ghost use Rattle.point_counts.specs.Costs.{OpensLeaves, is_parted};

use crate::plan::{Bucket, GridPlan};
use crate::sorting::{Sorting, WholeBox};
use crate::tallies::{count_buffer, count_segments};
use outer_io::Pages;
use page_cache::{PageCache, PageFault};
use point_codec::{Entry, Point};
use segment_view::Segments;
use std::alloc::{AllocError, Global};

/// The greatest number of buffered entries that are counted.
const MOST_BUFFERED: usize = 0xffff_ffff;

/// How many live entries of the segments and of the buffer have their point in the box from `lo` to `hi`, both counted.
///
/// Of a segment without a live number no leaf is read, of a clean one only leaves whose own cell the box's edge
/// crosses, of another those whose own cell is not outside; a kept page is found without a read. The answer may be a
/// damage of a leaf that had to be read, Failed and Memory.
pub fn count<const D: usize, F: Pages>(
    alloc: Global,
    segments: &Segments<D>,
    buffer: &[Entry<D>],
    cache: &mut PageCache,
    folder: &mut F,
    lo: &Point<D>,
    hi: &Point<D>,
) -> Result<u64, PageFault>
    ensures exact { let bounds : Region = record { lo = lo.now.c; hi = hi.now.c } in IsTrue F.told
        → Agrees (F.files folder.old) cache.old
        → (c : Contents) → AreRead D (F.files folder.old) c segments.now
        → IfOk result (λ n. n ≡ number_in bounds (live_in_parts c segments.now ++ items_of buffer.now)) }
    ensures reads { let bounds : Region = record { lo = lo.now.c; hi = hi.now.c } in
        (n : ℕ) → OpensLeaves D bounds (crosses bounds) segments.now n → F.reads folder.new ≤ F.reads folder.old + n }
    ensures calm { IsCalm F.told (F.files folder.old) (F.files folder.new) cache.old cache.new (ids_of segments.now) }
    // What an error says.
    ensures cause { HasPageCause (F.faults folder.old) (F.faults folder.new) result }
    ensures shown { OnDamage result (IsPartDamage D segments.now) }
    ensures damage { IsTrue F.told → Agrees (F.files folder.old) cache.old
        → OnDamage result (IsLeafDamageOf (F.files folder.old)) }
    ensures whole { IsTrue F.told → Agrees (F.files folder.old) cache.old → (c : Contents)
        → AreRead D (F.files folder.old) c segments.now → NotDamaged result }
{
    let mut table = [0];
    let sorting = WholeBox { lo: *lo, hi: *hi };
    count_all(alloc, segments, buffer, cache, folder, &sorting, &mut table)?;
    Ok(table[0])
}

/// The buckets of the plan in which some live entry of the segments or of the buffer has its point, each with the
/// number of these entries, ascending by x and then y.
///
/// Of a segment without a live number no leaf is read, of a clean one only leaves whose own cell the box's edge or that
/// of a bucket cuts, of another those whose own cell is not outside of the box. The answer may be a damage of a leaf
/// that had to be read, Failed and Memory.
pub fn grid<const D: usize, F: Pages>(
    alloc: Global,
    segments: &Segments<D>,
    buffer: &[Entry<D>],
    cache: &mut PageCache,
    folder: &mut F,
    plan: &GridPlan<D>,
) -> Result<Vec<Bucket>, PageFault>
    ensures exact { IsTrue F.told → Agrees (F.files folder.old) cache.old → (c : Contents)
        → AreRead D (F.files folder.old) c segments.now
        → IfOk result (λ v. IsGrid plan.now (live_in_parts c segments.now ++ items_of buffer.now) v.items) }
    ensures reads { (n : ℕ) → OpensLeaves D plan.now.bounds (is_parted plan.now) segments.now n
        → F.reads folder.new ≤ F.reads folder.old + n }
    ensures calm { IsCalm F.told (F.files folder.old) (F.files folder.new) cache.old cache.new (ids_of segments.now) }
    // What an error says.
    ensures cause { HasPageCause (F.faults folder.old) (F.faults folder.new) result }
    ensures shown { OnDamage result (IsPartDamage D segments.now) }
    ensures damage { IsTrue F.told → Agrees (F.files folder.old) cache.old
        → OnDamage result (IsLeafDamageOf (F.files folder.old)) }
    ensures whole { IsTrue F.told → Agrees (F.files folder.old) cache.old → (c : Contents)
        → AreRead D (F.files folder.old) c segments.now → NotDamaged result }
{
    let mut table = vec![in alloc; 0u64; plan.bucket_count()]?;
    count_all(
        alloc,
        segments,
        buffer,
        cache,
        folder,
        plan,
        table.as_mut_slice(),
    )?;
    Ok(filled(alloc, plan, table.as_slice())?)
}

/// Counts the live entries of the segments and the entries of the buffer, each at its place. A buffer of more entries
/// than numbers of 32 bits tell is answered by want of memory.
fn count_all<const D: usize, S: Sorting<D>, F: Pages>(
    alloc: Global,
    segments: &Segments<D>,
    buffer: &[Entry<D>],
    cache: &mut PageCache,
    folder: &mut F,
    sorting: &S,
    table: &mut [u64],
) -> Result<(), PageFault>
    ensures counts { IsTrue F.told → Agrees (F.files folder.old) cache.old → (c : Contents)
        → AreRead D (F.files folder.old) c segments.now
        → OnOk result (AddsCounts (all_at (S.bounds sorting.now) (S.place sorting.now)
        (live_in_parts c segments.now ++ items_of buffer.now)) table.old table.new) }
    ensures few { IsTrue F.told → (c : Contents) → AreRead D (F.files folder.old) c segments.now
        → OnOk result (length (live_in_parts c segments.now ++ items_of buffer.now) < 2 ^ 64) }
    ensures reads { (n : ℕ) → OpensLeaves D (S.bounds sorting.now) (S.parts sorting.now) segments.now n
        → F.reads folder.new ≤ F.reads folder.old + n }
    ensures calm { IsCalm F.told (F.files folder.old) (F.files folder.new) cache.old cache.new (ids_of segments.now) }
    ensures cause { HasPageCause (F.faults folder.old) (F.faults folder.new) result }
    ensures shown { OnDamage result (IsPartDamage D segments.now) }
    ensures damage { IsTrue F.told → Agrees (F.files folder.old) cache.old
        → OnDamage result (IsLeafDamageOf (F.files folder.old)) }
    ensures whole { IsTrue F.told → Agrees (F.files folder.old) cache.old → (c : Contents)
        → AreRead D (F.files folder.old) c segments.now → NotDamaged result }
{
    if buffer.len() > MOST_BUFFERED {
        return Err(PageFault::Memory);
    }
    count_segments(alloc, segments, cache, folder, sorting, table)?;
    count_buffer(buffer, sorting, table);
    Ok(())
}

/// The buckets whose count is not 0, from a table of all, column by column.
fn filled<const D: usize>(
    alloc: Global,
    plan: &GridPlan<D>,
    table: &[u64],
) -> Result<Vec<Bucket>, AllocError>
    requires whole { length table.now ≡ bucket_count plan.now }
    ensures { (entries : List Item) → length entries < 2 ^ 64
        → HasCounts (all_at plan.now.bounds (place_in plan.now) entries) table.now
        → IfOk result (λ v. IsGrid plan.now entries v.items) }
{
    let rows = plan.rows();
    let mut buckets = Vec::new(alloc);
    for k in 0..table.len() {
        let n = table[k];
        if n == 0 {
            continue;
        }
        buckets.push(bucket_at(k, rows, n))?;
    }
    Ok(buckets)
}

/// The bucket of this place in a table of so many rows.
fn bucket_at(k: usize, rows: usize, n: u64) -> Bucket
    requires some { 1 ≤ rows }
    requires few { k < 65536 }
    ensures { result ≡ record { x = k / rows; y = k % rows; n = n } }
{
    Bucket {
        x: (k / rows) as u32,
        y: (k % rows) as u32,
        n,
    }
}
