//! The replies to a list of queries, by one thread or several.

ghost use Rattle.std.specs.Prelude.{◌<◌, ◌≤◌, All, IfOk};
ghost use Rattle.std.specs.Thread.{IsSync};
ghost use Rattle.batch_run.specs.Residents.{AreReplies};
ghost use Rattle.batch_run.specs.Queries.{IsInRange};

use crate::Memory;
use crate::answers::answer_all;
use crate::queries::{Query, Reply};
use crate::resident::Resident;
use bkd_build::Gate;
use std::alloc::Global;
use std::marker::Sync;
use std::thread::{Threads, join};

/// How many pages of the copy all parts of a batch keep together, with what is known of them: 64 megabytes.
const KEPT_PAGES: u32 = 16384;

/// How many pages each part keeps at least.
const LEAST_PAGES: u32 = 64;

/// The replies to queries, in their order: what the documents that the copy holds are asked. A query for the nearest
/// asks for 1 to 10,000.
///
/// The upper `forks` levels cut the list in two halves, which are answered in threads of their own, where these can be
/// made. The left half then first calls `gate.pass(0)`, and the right one `gate.pass(1)`. No reply depends on `forks`
/// or the gate.
pub fn batch<const D: usize, R: Threads + Sync, G: Gate>(
    rt: &R,
    alloc: Global,
    resident: &Resident<D>,
    queries: &[Query<D>],
    forks: u8,
    gate: &G,
) -> Result<Vec<Reply>, Memory>
    requires { All (IsInRange D) queries.now }
    ensures { IfOk result (λ v. AreReplies resident.now queries.now v.items) }
{
    answer_part(rt, alloc, resident, queries, forks, KEPT_PAGES, gate)
}

/// The replies to a part of the list. It keeps so many pages, of which each half of it has half.
#[cycle(parts)]
fn answer_part<const D: usize, R: Threads + Sync, G: Gate>(
    rt: &R,
    alloc: Global,
    resident: &Resident<D>,
    queries: &[Query<D>],
    forks: u8,
    pages: u32,
    gate: &G,
) -> Result<Vec<Reply>, Memory>
    requires range { All (IsInRange D) queries.now }
    requires some { 1 ≤ pages }
    requires few { pages ≤ 16384 }
    ensures { IfOk result (λ v. AreReplies resident.now queries.now v.items) }
{
    if forks == 0 || queries.len() < 2 {
        return answer_all(alloc, resident, queries, pages);
    }
    let (left, right) = queries.split_at(queries.len() / 2);
    let half = (pages / 2).max(LEAST_PAGES);
    let (first, second) = both(rt, alloc, resident, left, right, forks, half, gate);
    let mut replies = first?;
    let mut others = second?;
    replies.append(&mut others)?;
    Ok(replies)
}

/// The replies to both halves, found beside each other.
#[cycle(parts)]
fn both<const D: usize, R: Threads + Sync, G: Gate>(
    rt: &R,
    alloc: Global,
    resident: &Resident<D>,
    left: &[Query<D>],
    right: &[Query<D>],
    forks: u8,
    pages: u32,
    gate: &G,
) -> (Result<Vec<Reply>, Memory>, Result<Vec<Reply>, Memory>)
    requires forks { 0 < forks }
    requires some { 1 ≤ pages }
    requires few { pages ≤ 16384 }
    requires left { All (IsInRange D) left.now }
    requires right { All (IsInRange D) right.now }
    ensures left { IfOk result.0 (λ v. AreReplies resident.now left.now v.items) }
    ensures right { IfOk result.1 (λ v. AreReplies resident.now right.now v.items) }
{
    join(
        rt,
        || -> Result<Vec<Reply>, Memory>
            requires { IsSync R.row × IsSync G.row × (0 < forks) × (1 ≤ pages) × (pages ≤ 16384)
                × All (IsInRange D) left.now }
            ensures { IfOk result (λ v. AreReplies resident.entry.now left.entry.now v.items) }
        {
            gate.pass(0);
            answer_part(rt, alloc, resident, left, forks - 1, pages, gate)
        },
        || -> Result<Vec<Reply>, Memory>
            requires { IsSync R.row × IsSync G.row × (0 < forks) × (1 ≤ pages) × (pages ≤ 16384)
                × All (IsInRange D) right.now }
            ensures { IfOk result (λ v. AreReplies resident.entry.now right.entry.now v.items) }
        {
            gate.pass(1);
            answer_part(rt, alloc, resident, right, forks - 1, pages, gate)
        },
    )
}
