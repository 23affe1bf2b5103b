//! Makes an index of drawn documents in a folder that has none, and says what drawn queries find in it.

ghost use Rattle.std.specs.Prelude.{◌≡◌, ◌≤◌, ◌<◌, ◌^◌, ◌+◌, ◌-◌, ◌*◌, ℕ, cond, true, length, None, IsTrue};
ghost use Rattle.std.specs.Prelude.{IfOk, IsOk, OnOk};
ghost use Rattle.std.specs.List.{sum_by};
ghost use Rattle.outer_io.specs.Files.{Files};
ghost use Rattle.outer_io.specs.declared.file_name.FileName.TheVariants.{Commit as CommitName};
ghost use Rattle.page_cache.specs.Causes.{HasPageCause};
ghost use Rattle.page_cache.specs.Evidence.{OnDamage};
ghost use Rattle.documents.specs.Nearest.{found_of};
ghost use Rattle.index_model.specs.State.{State};
ghost use Rattle.stored_index.specs.Stored.{IsStored};
ghost use Rattle.index_opening.specs.Evidence.{IsEvident};
ghost use Rattle.commands.specs.Opens.{ReadsOrStays};
ghost use Rattle.segment_set.specs.Faithful.{IsFaithful};
ghost use Rattle.index_core.specs.Brought.{KeepsCommit};
ghost use Rattle.index_core.specs.Sessions.{Guards, IsSetTraced};
ghost use Rattle.index_core.specs.Effects.{BringsCanonical};
ghost use Rattle.index_core.specs.KeptLive.{KeepsLive};
ghost use Rattle.index_core.specs.Light.{KeepsLevels};
ghost use Rattle.index_core.specs.Steps.{KeepsUndone};
ghost use Rattle.index_core.specs.Whole.{DoesWhole, HasNewCanonical};
ghost use Rattle.drawn_points.specs.Draws.{draw, points};
ghost use Rattle.drawn_points.specs.Generated.{box_hits, generate_answer, near_sum};
ghost use Rattle.generate_index.specs.Generates.{IsDrawn, Makes, made_docs};

use crate::drawing::drawn_entries;
use crate::texts::{put_exists, put_summary};
use bkd_build::Gate;
use cell_relate::BoxShape;
use commit_list::read_commit;
use drawn_points::{Draws, documents_added, documents_deleted, index_made, sums_are_small};
use index_core::{Session, Work};
use leaf_codec::greatest_leaf;
use outer_io::Folder;
use page_cache::PageFault;
use point_codec::Near;
use std::marker::Sync;
use std::thread::Threads;

/// How many boxes are asked for, and how many queries for the nearest.
const BOXES: u32 = 64;

const QUERIES: u32 = 16;

/// How many documents each query for the nearest asks for.
const NEAREST: u16 = 10;

/// What is said of a generated index.
#[derive(Clone, Copy, Debug)]
pub struct Summary {
    /// How many documents were made, and how many of them are live.
    pub docs: u32,
    pub live: u32,
    /// The hits of all boxes.
    pub hits: u64,
    /// The squared distances of all answers to the queries for the nearest.
    pub near: u128,
}

/// Makes an index of so many drawn documents in a folder that has none, deletes every tenth, asks drawn queries, and
/// commits. What is said of it is appended to `text`; the answer is true where an index is there, which is refused
/// and leaves the folder.
pub fn generate<R: Threads + Sync, F: Folder, G: Gate>(
    work: &Work<'_, R, G>,
    docs: u32,
    seed: u32,
    folder: &mut F,
    text: &mut Vec<u8>,
) -> Result<bool, PageFault>
    requires { docs ≤ 1000000 }
    ensures generates { IsTrue F.told → (state : State) → IsStored (F.files folder.old) state
        → DoesWhole (F.files folder.new) state (generate_answer state docs seed) text.old.items text.new.items result }
    ensures unchanged { IsTrue F.told
        → IfOk result (λ refused. refused ≡ true → F.files folder.new ≡ F.files folder.old) }
    ensures canon { IsTrue F.told → (state : State) → IsStored (F.files folder.old) state
        → OnOk result (HasNewCanonical (F.files folder.old) (F.files folder.new)) }
    ensures levels { IsTrue F.told → (state : State) → IsStored (F.files folder.old) state
        → OnOk result (KeepsLevels (F.files folder.old) (F.files folder.new)) }
    // whatever the folder holds
    ensures undone { IsTrue F.told → KeepsUndone (F.files folder.old) (F.files folder.new) result }
    ensures lasting { IsTrue F.told → KeepsCommit (F.files folder.old) (F.files folder.new) }
    ensures lasts { IsTrue F.told → KeepsLive (λ number. ⊥) (F.files folder.old) (F.files folder.new) }
    ensures opened { IsTrue F.told → ReadsOrStays (IsOk result) (F.files folder.old) (F.files folder.new) }
    ensures cause { HasPageCause (F.faults folder.old) (F.faults folder.new) result }
    ensures evident { OnDamage result (IsEvident (IsTrue F.told) (F.files folder.new)) }
{
    match read_commit(work.alloc, folder) {
        Ok(Some(_)) => {
            put_exists(text)?;
            Ok(true)
        }
        Ok(None) => generate_first(work, docs, seed, folder, text),
        Err(fault) => Err(fault),
    }
}

/// Makes the index in a folder that has none.
fn generate_first<R: Threads + Sync, F: Folder, G: Gate>(
    work: &Work<'_, R, G>,
    docs: u32,
    seed: u32,
    folder: &mut F,
    text: &mut Vec<u8>,
) -> Result<bool, PageFault>
    requires { docs ≤ 1000000 }
    ensures generates { IsTrue F.told → F.files folder.old CommitName ≡ None
        → DoesWhole (F.files folder.new) None (generate_answer None docs seed) text.old.items text.new.items result }
    ensures done { IfOk result (λ refused. refused ≡ true → ⊥) }
    ensures canon { IsTrue F.told → F.files folder.old CommitName ≡ None
        → OnOk result (HasNewCanonical (F.files folder.old) (F.files folder.new)) }
    ensures levels { IsTrue F.told → F.files folder.old CommitName ≡ None
        → OnOk result (KeepsLevels (F.files folder.old) (F.files folder.new)) }
    ensures undone { IsTrue F.told → F.files folder.old CommitName ≡ None
        → KeepsUndone (F.files folder.old) (F.files folder.new) result }
    ensures lasting { IsTrue F.told → F.files folder.old CommitName ≡ None
        → KeepsCommit (F.files folder.old) (F.files folder.new) }
    ensures cause { HasPageCause (F.faults folder.old) (F.faults folder.new) result }
    ensures evident { OnDamage result
        (IsEvident (IsTrue F.told × (F.files folder.old CommitName ≡ None)) (F.files folder.new)) }
{
    index_made();
    documents_added();
    documents_deleted();
    let mut session = Session::<2>::create(work.alloc, greatest_leaf(2), work.settings)?;
    let summary = fill(work, &mut session, folder, docs, seed)?;
    put_summary(text, &summary)?;
    session.commit(work.rt, work.alloc, folder, work.gate)?;
    Ok(false)
}

/// Adds the documents to a session that has none, deletes every tenth, and asks the queries.
fn fill<R: Threads + Sync, F: Folder, G: Gate>(
    work: &Work<'_, R, G>,
    session: &mut Session<2>,
    folder: &mut F,
    docs: u32,
    seed: u32,
) -> Result<Summary, PageFault>
    requires few { docs ≤ 1000000 }
    requires none { session.old.set.points_given ≡ 0 }
    ensures makes { Makes (IsTrue F.told) (IsDrawn seed 0 0) (IsDrawn seed docs docs)
        (record { files = F.files folder.old; session = session.old; faults = F.faults folder.old })
        (record { files = F.files folder.new; session = session.new; faults = F.faults folder.new }) result }
    ensures summary { IsTrue F.told
        → IsDrawn seed 0 0
        (record { files = F.files folder.old; session = session.old; faults = F.faults folder.old })
        → IfOk result
        (λ s. (s.docs ≡ docs) × (s.live ≡ length (made_docs seed docs))
        × (s.hits ≡ box_hits (made_docs seed docs) (points seed docs 64))
        × (s.near ≡ near_sum (made_docs seed docs) (points seed (docs + 64) 16))) }
{
    let mut draws = Draws::new(seed);
    add_drawn(work, session, folder, docs, &mut draws)?;
    let live = delete_tenths(session, docs);
    let hits = ask_boxes(work, session, folder, &mut draws)?;
    let near = ask_nearest(work, session, folder, &mut draws)?;
    Ok(Summary {
        docs,
        live,
        hits,
        near,
    })
}

/// Adds so many drawn documents to a session that has none, all at once.
fn add_drawn<R: Threads + Sync, F: Folder, G: Gate>(
    work: &Work<'_, R, G>,
    session: &mut Session<2>,
    folder: &mut F,
    docs: u32,
    draws: &mut Draws,
) -> Result<(), PageFault>
    requires few { docs ≤ 1000000 }
    requires none { session.old.set.points_given ≡ 0 }
    ensures makes { Makes (IsTrue F.told) (IsDrawn draws.old 0 0) (IsDrawn draws.old docs 0)
        (record { files = F.files folder.old; session = session.old; faults = F.faults folder.old })
        (record { files = F.files folder.new; session = session.new; faults = F.faults folder.new }) result }
    ensures drawn { OnOk result (draws.new ≡ draw draws.old (2 * docs)) }
{
    documents_added();
    documents_deleted();
    // where no points are given its next number is 0
    let _next = session.next();
    let mut entries = drawn_entries(work.alloc, docs, draws)?;
    session.add_entries(
        work.rt,
        work.alloc,
        folder,
        entries.as_mut_slice(),
        work.gate,
    )
}

/// Deletes the documents below `docs` whose numbers are multiples of 10, and answers how many of that many are left.
fn delete_tenths(session: &mut Session<2>, docs: u32) -> u32
    requires { docs ≤ 1000000 }
    ensures made { (files : Files) (faults seed : ℕ)
        → IsDrawn seed docs 0 (record { files = files; session = session.old; faults = faults })
        → IsDrawn seed docs docs (record { files = files; session = session.new; faults = faults }) }
    ensures live { (files : Files) (faults seed : ℕ)
        → IsDrawn seed docs 0 (record { files = files; session = session.old; faults = faults })
        → result ≡ length (made_docs seed docs) }
    ensures guards { (files : Files) → Guards 2 files session.old → Guards 2 files session.new }
    ensures faithful { (files : Files) → IsFaithful 2 files session.old.set → IsFaithful 2 files session.new.set }
    ensures traced { (files : Files) → IsSetTraced 2 files session.old.set → IsSetTraced 2 files session.new.set }
    ensures canon { (files : Files) → BringsCanonical 2 files files session.old.set.parts session.new.set.parts }
{
    documents_deleted();
    let mut live = docs;
    let mut number = 0;
    'deletes: while number < docs {
        let goes = session.delete_document(number);
        live = left(live, goes);
        number += 10;
    }
    live
}

/// How many are left of so many, where one goes or none.
fn left(live: u32, goes: bool) -> u32
    ensures { result ≡ live - cond goes 1 0 }
{
    live.saturating_sub(u32::from(goes))
}

/// The hits of all drawn boxes, of which there are few (`drawn_points::sums_are_small`).
fn ask_boxes<R: Threads + Sync, F: Folder, G: Gate>(
    work: &Work<'_, R, G>,
    session: &mut Session<2>,
    folder: &mut F,
    draws: &mut Draws,
) -> Result<u64, PageFault>
    ensures makes { (seed n : ℕ) → Makes (IsTrue F.told) (IsDrawn seed n n) (IsDrawn seed n n)
        (record { files = F.files folder.old; session = session.old; faults = F.faults folder.old })
        (record { files = F.files folder.new; session = session.new; faults = F.faults folder.new }) result }
    ensures hits { IsTrue F.told → (seed n : ℕ)
        → IsDrawn seed n n (record { files = F.files folder.old; session = session.old; faults = F.faults folder.old })
        → draws.old ≡ draw seed (2 * n)
        → IfOk result (λ hits. hits ≡ box_hits (made_docs seed n) (points seed n 64)) }
    ensures drawn { (seed n : ℕ) → draws.old ≡ draw seed (2 * n) → OnOk result (draws.new ≡ draw seed (2 * (n + 64))) }
{
    sums_are_small();
    // so many documents are few
    let _points_given = session.points_given();
    let mut hits: u64 = 0;
    let mut boxes = 0;
    'boxes: while boxes < BOXES {
        let (lo, hi) = draws.corners();
        let mut shape = BoxShape::new(lo, hi);
        let found = session.hits_of(work.alloc, folder, &mut shape)?;
        hits = hits.saturating_add(found.docs.len() as u64);
        boxes += 1;
    }
    Ok(hits)
}

/// The squared distances of all answers to the drawn queries for the nearest, whose sum is small too.
fn ask_nearest<R: Threads + Sync, F: Folder, G: Gate>(
    work: &Work<'_, R, G>,
    session: &mut Session<2>,
    folder: &mut F,
    draws: &mut Draws,
) -> Result<u128, PageFault>
    ensures makes { (seed n : ℕ) → Makes (IsTrue F.told) (IsDrawn seed n n) (IsDrawn seed n n)
        (record { files = F.files folder.old; session = session.old; faults = F.faults folder.old })
        (record { files = F.files folder.new; session = session.new; faults = F.faults folder.new }) result }
    ensures near { IsTrue F.told → (seed n : ℕ)
        → IsDrawn seed n n (record { files = F.files folder.old; session = session.old; faults = F.faults folder.old })
        → draws.old ≡ draw seed (2 * (n + 64))
        → IfOk result (λ near. near ≡ near_sum (made_docs seed n) (points seed (n + 64) 16)) }
{
    sums_are_small();
    let mut near: u128 = 0;
    let mut queries = 0;
    'queries: while queries < QUERIES {
        let at = draws.point();
        let found = session.nearest_to(work.alloc, folder, &at, NEAREST)?;
        near = near.saturating_add(distances_of(found.docs.as_slice()));
        queries += 1;
    }
    Ok(near)
}

/// The sum of the squared distances, where it is small.
fn distances_of(found: &[Near]) -> u128
    ensures { sum_by (λ f. f.0) (found_of found.now) < 2 ^ 128 → result ≡ sum_by (λ f. f.0) (found_of found.now) }
{
    let mut sum: u128 = 0;
    for near in found {
        sum = sum.saturating_add(near.dist2);
    }
    sum
}
