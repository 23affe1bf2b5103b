//! The points of a file go into the index of a folder.

ghost use Rattle.std.specs.Prelude.{◌≡◌, ◌≤◌, ◌<◌, ◌+◌, ◌^◌, MatchOption, true, length, None, Ok, Err, IsTrue};
ghost use Rattle.std.specs.Prelude.{IfOk, IsOk, OnOk};
ghost use Rattle.outer_io.specs.Files.{bytes_of};
ghost use Rattle.outer_io.specs.declared.file_name.FileName.TheVariants.{Commit as CommitName};
ghost use Rattle.page_cache.specs.Causes.{HasPageCause};
ghost use Rattle.page_cache.specs.Evidence.{OnDamage};
ghost use Rattle.commit_list.specs.CommitFiles.{IsCommitFile};
ghost use Rattle.index_model.specs.State.{State};
ghost use Rattle.stored_index.specs.Stored.{IsStored};
ghost use Rattle.index_opening.specs.Evidence.{IsEvident};
ghost use Rattle.commands.specs.Opens.{Opens, OpensOrStays};
ghost use Rattle.segment_set.specs.AtOnce.{AreNumbered, points_in};
ghost use Rattle.index_core.specs.Brought.{KeepsCommit};
ghost use Rattle.index_core.specs.KeptLive.{KeepsLive};
ghost use Rattle.index_core.specs.Light.{KeepsLevels};
ghost use Rattle.index_core.specs.Steps.{KeepsUndone};
ghost use Rattle.index_core.specs.Whole.{DoesWhole, HasNewCanonical};
ghost use Rattle.load_points.specs.Loaded.{load_answer, columns_answer};
ghost use Rattle.load_points.specs.Loads.{HasIndexDims, HasKept, IsLoading, Loads, StartsFrom, StartsNone};

use crate::refusals::{refuse_dims, refuse_file};
use crate::texts::{put_full, put_loaded};
use bkd_build::Gate;
use byte_cursor::Bytes;
use commit_list::{Commit, read_commit};
use csv_load::{CsvFault, read_entries};
use index_core::{Session, Work};
use leaf_codec::greatest_leaf;
use outer_io::Folder;
use page_cache::PageFault;
use point_codec::{Entry, MOST_POINTS};
use std::alloc::AllocError;
use std::marker::Sync;
use std::thread::Threads;

/// Adds the points of a CSV file to the index of a folder, and commits; the columns of these names are the
/// dimensions. Where no index is there, one is made. The answer is appended to `text`; it is true where the load is
/// refused: then the folder's files stay as they are.
pub fn load<R: Threads + Sync, F: Folder, G: Gate>(
    work: &Work<'_, R, G>,
    columns: &[Bytes],
    input: &[u8],
    folder: &mut F,
    text: &mut Vec<u8>,
) -> Result<bool, PageFault>
    requires some { 1 ≤ length columns.now }
    requires few { length columns.now ≤ 8 }
    ensures loads { IsTrue F.told → (state : State) → IsStored (F.files folder.old) state
        → DoesWhole (F.files folder.new) state
        (load_answer state input.now columns.now) text.old.items text.new.items result }
    ensures unchanged { IsTrue F.told
        → IfOk result (λ refused. refused ≡ true → F.files folder.new ≡ F.files folder.old) }
    ensures canon { IsTrue F.told → (state : State) → IsStored (F.files folder.old) state
        → OnOk result (HasNewCanonical (F.files folder.old) (F.files folder.new)) }
    ensures levels { IsTrue F.told → (state : State) → IsStored (F.files folder.old) state
        → OnOk result (KeepsLevels (F.files folder.old) (F.files folder.new)) }
    // whatever the folder holds
    ensures undone { IsTrue F.told → KeepsUndone (F.files folder.old) (F.files folder.new) result }
    ensures lasting { IsTrue F.told → KeepsCommit (F.files folder.old) (F.files folder.new) }
    ensures lasts { IsTrue F.told → KeepsLive (λ number. ⊥) (F.files folder.old) (F.files folder.new) }
    ensures opened { IsTrue F.told → OpensOrStays (IsOk result) (F.files folder.old) (F.files folder.new) }
    ensures cause { HasPageCause (F.faults folder.old) (F.faults folder.new) result }
    ensures evident { OnDamage result (IsEvident (IsTrue F.told) (F.files folder.new)) }
{
    match read_commit(work.alloc, folder) {
        Ok(Some(commit)) => load_stored(work, commit, columns, input, folder, text),
        Ok(None) => load_first(work, columns, input, folder, text),
        Err(fault) => Err(fault),
    }
}

/// Loads into a folder that has no index.
fn load_first<R: Threads + Sync, F: Folder, G: Gate>(
    work: &Work<'_, R, G>,
    columns: &[Bytes],
    input: &[u8],
    folder: &mut F,
    text: &mut Vec<u8>,
) -> Result<bool, PageFault>
    requires some { 1 ≤ length columns.now }
    requires few { length columns.now ≤ 8 }
    ensures { Loads (IsTrue F.told) (F.files folder.old CommitName ≡ None) (StartsNone (F.files folder.old))
        (λ stored. load_answer stored input.now columns.now)
        (record { files = F.files folder.old; faults = F.faults folder.old; text = text.old.items })
        (record { files = F.files folder.new; faults = F.faults folder.new; text = text.new.items }) result }
{
    match columns.len() {
        1 => load_new::<1, R, F, G>(work, columns, input, folder, text),
        2 => load_new::<2, R, F, G>(work, columns, input, folder, text),
        3 => load_new::<3, R, F, G>(work, columns, input, folder, text),
        4 => load_new::<4, R, F, G>(work, columns, input, folder, text),
        5 => load_new::<5, R, F, G>(work, columns, input, folder, text),
        6 => load_new::<6, R, F, G>(work, columns, input, folder, text),
        7 => load_new::<7, R, F, G>(work, columns, input, folder, text),
        _ => load_new::<8, R, F, G>(work, columns, input, folder, text),
    }
}

/// Loads into a new index of `D` dimensions.
fn load_new<const D: usize, R: Threads + Sync, F: Folder, G: Gate>(
    work: &Work<'_, R, G>,
    columns: &[Bytes],
    input: &[u8],
    folder: &mut F,
    text: &mut Vec<u8>,
) -> Result<bool, PageFault>
    requires some { 1 ≤ D }
    requires few { D ≤ 8 }
    requires named { length columns.now ≡ D }
    ensures { Loads (IsTrue F.told) (F.files folder.old CommitName ≡ None) (StartsNone (F.files folder.old))
        (λ stored. load_answer stored input.now columns.now)
        (record { files = F.files folder.old; faults = F.faults folder.old; text = text.old.items })
        (record { files = F.files folder.new; faults = F.faults folder.new; text = text.new.items }) result }
{
    match Session::<D>::create(work.alloc, greatest_leaf(D as u8), work.settings) {
        Ok(mut session) => load_into(work, &mut session, columns, input, folder, text),
        Err(AllocError) => Err(PageFault::Memory),
    }
}

/// Loads into the index that a commit lists.
fn load_stored<R: Threads + Sync, F: Folder, G: Gate>(
    work: &Work<'_, R, G>,
    commit: Commit,
    columns: &[Bytes],
    input: &[u8],
    folder: &mut F,
    text: &mut Vec<u8>,
) -> Result<bool, PageFault>
    requires some { 1 ≤ length columns.now }
    requires few { length columns.now ≤ 8 }
    ensures loads { Loads (IsTrue F.told) (IsCommitFile (bytes_of (F.files folder.old CommitName)) commit)
        (StartsFrom (F.files folder.old) commit) (λ stored. load_answer stored input.now columns.now)
        (record { files = F.files folder.old; faults = F.faults folder.old; text = text.old.items })
        (record { files = F.files folder.new; faults = F.faults folder.new; text = text.new.items }) result }
    ensures opened { IsTrue F.told → IsCommitFile (bytes_of (F.files folder.old CommitName)) commit → IsOk result
        → Opens (F.files folder.old) }
{
    match commit.dims() {
        1 => load_over::<1, R, F, G>(work, commit, columns, input, folder, text),
        2 => load_over::<2, R, F, G>(work, commit, columns, input, folder, text),
        3 => load_over::<3, R, F, G>(work, commit, columns, input, folder, text),
        4 => load_over::<4, R, F, G>(work, commit, columns, input, folder, text),
        5 => load_over::<5, R, F, G>(work, commit, columns, input, folder, text),
        6 => load_over::<6, R, F, G>(work, commit, columns, input, folder, text),
        7 => load_over::<7, R, F, G>(work, commit, columns, input, folder, text),
        _ => load_over::<8, R, F, G>(work, commit, columns, input, folder, text),
    }
}

/// Loads into the index of `D` dimensions that a commit lists.
fn load_over<const D: usize, R: Threads + Sync, F: Folder, G: Gate>(
    work: &Work<'_, R, G>,
    commit: Commit,
    columns: &[Bytes],
    input: &[u8],
    folder: &mut F,
    text: &mut Vec<u8>,
) -> Result<bool, PageFault>
    requires dims { commit.dims ≡ D }
    requires least_dims { 1 ≤ D }
    requires most_dims { D ≤ 8 }
    requires some { 1 ≤ length columns.now }
    requires few { length columns.now ≤ 8 }
    ensures loads { Loads (IsTrue F.told) (IsCommitFile (bytes_of (F.files folder.old CommitName)) commit)
        (StartsFrom (F.files folder.old) commit) (λ stored. load_answer stored input.now columns.now)
        (record { files = F.files folder.old; faults = F.faults folder.old; text = text.old.items })
        (record { files = F.files folder.new; faults = F.faults folder.new; text = text.new.items }) result }
    ensures opened { IsTrue F.told → IsCommitFile (bytes_of (F.files folder.old CommitName)) commit → IsOk result
        → Opens (F.files folder.old) }
{
    match Session::<D>::attach(work.alloc, folder, commit, work.settings) {
        Ok(mut session) => load_open(work, &mut session, columns, input, folder, text),
        Err(fault) => Err(fault),
    }
}

/// Loads in a session over the index that is there, or refuses the file whose columns are not as many as its
/// dimensions.
fn load_open<const D: usize, R: Threads + Sync, F: Folder, G: Gate>(
    work: &Work<'_, R, G>,
    session: &mut Session<D>,
    columns: &[Bytes],
    input: &[u8],
    folder: &mut F,
    text: &mut Vec<u8>,
) -> Result<bool, PageFault>
    requires least_dims { 1 ≤ D }
    requires most_dims { D ≤ 8 }
    requires some { 1 ≤ length columns.now }
    requires few { length columns.now ≤ 8 }
    ensures { Loads (IsTrue F.told) (HasKept D (F.files folder.old) session.old)
        (λ stored. IsLoading D (F.files folder.old) session.old stored × HasIndexDims (F.files folder.old) D stored)
        (λ stored. load_answer stored input.now columns.now)
        (record { files = F.files folder.old; faults = F.faults folder.old; text = text.old.items })
        (record { files = F.files folder.new; faults = F.faults folder.new; text = text.new.items }) result }
{
    let count = columns.len();
    if count == D {
        load_into(work, session, columns, input, folder, text)
    } else {
        refuse_dims(work.alloc, D as u8, columns, input, text)
    }
}

/// Loads in a session that has as many dimensions as there are columns.
fn load_into<const D: usize, R: Threads + Sync, F: Folder, G: Gate>(
    work: &Work<'_, R, G>,
    session: &mut Session<D>,
    columns: &[Bytes],
    input: &[u8],
    folder: &mut F,
    text: &mut Vec<u8>,
) -> Result<bool, PageFault>
    requires some { 1 ≤ D }
    requires few { D ≤ 8 }
    requires named { length columns.now ≡ D }
    ensures { Loads (IsTrue F.told) (HasKept D (F.files folder.old) session.old)
        (IsLoading D (F.files folder.old) session.old) (λ stored. load_answer stored input.now columns.now)
        (record { files = F.files folder.old; faults = F.faults folder.old; text = text.old.items })
        (record { files = F.files folder.new; faults = F.faults folder.new; text = text.new.items }) result }
{
    match read_entries::<D>(work.alloc, input, columns, session.next()) {
        Ok(mut entries) => add_all(work, session, entries.as_mut_slice(), folder, text),
        Err(CsvFault::Memory) => Err(PageFault::Memory),
        Err(fault) => refuse_file(text, columns, &fault),
    }
}

/// Adds all points and commits, or refuses them where they don't fit.
fn add_all<const D: usize, R: Threads + Sync, F: Folder, G: Gate>(
    work: &Work<'_, R, G>,
    session: &mut Session<D>,
    entries: &mut [Entry<D>],
    folder: &mut F,
    text: &mut Vec<u8>,
) -> Result<bool, PageFault>
    requires few { D ≤ 8 }
    requires numbered { session.old.set.points_given + length entries.old ≤ 2 ^ 24
        → AreNumbered session.old.set.next entries.old }
    ensures { Loads (IsTrue F.told) (HasKept D (F.files folder.old) session.old)
        (IsLoading D (F.files folder.old) session.old) (λ stored. columns_answer D stored (points_in entries.old))
        (record { files = F.files folder.old; faults = F.faults folder.old; text = text.old.items })
        (record { files = F.files folder.new; faults = F.faults folder.new; text = text.new.items }) result }
{
    match fitting(session.points_given(), entries.len()) {
        Some(count) => add_fitting(work, session, entries, count, folder, text),
        None => {
            put_full(text)?;
            Ok(true)
        }
    }
}

/// How many points these are, where they fit behind those that were given.
fn fitting(points_given: u32, count: usize) -> Option<u32>
    requires { points_given ≤ 2 ^ 24 }
    ensures { MatchOption result (2 ^ 24 < points_given + count) (λ n. (n ≡ count) × (points_given + count ≤ 2 ^ 24)) }
{
    if count > (MOST_POINTS - points_given) as usize {
        return None;
    }
    Some(count as u32)
}

/// Adds all points, which fit, and commits.
fn add_fitting<const D: usize, R: Threads + Sync, F: Folder, G: Gate>(
    work: &Work<'_, R, G>,
    session: &mut Session<D>,
    entries: &mut [Entry<D>],
    count: u32,
    folder: &mut F,
    text: &mut Vec<u8>,
) -> Result<bool, PageFault>
    requires few { D ≤ 8 }
    requires numbered { AreNumbered session.old.set.next entries.old }
    requires counted { count ≡ length entries.old }
    requires fits { session.old.set.points_given + length entries.old ≤ 2 ^ 24 }
    ensures { Loads (IsTrue F.told) (HasKept D (F.files folder.old) session.old)
        (IsLoading D (F.files folder.old) session.old) (λ stored. columns_answer D stored (points_in entries.old))
        (record { files = F.files folder.old; faults = F.faults folder.old; text = text.old.items })
        (record { files = F.files folder.new; faults = F.faults folder.new; text = text.new.items }) result }
{
    put_loaded(text, count, session.next() + count)?;
    session.add_entries(work.rt, work.alloc, folder, entries, work.gate)?;
    session.commit(work.rt, work.alloc, folder, work.gate)?;
    Ok(false)
}
