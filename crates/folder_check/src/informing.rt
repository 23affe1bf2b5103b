//! How large the index is, by what opening it reads.

ghost use Rattle.std.specs.Prelude.{◌≡◌, ◌≤◌, ◌+◌, ◌-◌, ◌^◌, ◌++◌, ℕ, List, length, min, sum_by, IsTrue};
ghost use Rattle.std.specs.Prelude.{IfOk, OnOk, OnErr};
ghost use Rattle.outer_io.specs.Files.{bytes_of};
ghost use Rattle.outer_io.specs.declared.file_name.FileName.TheVariants.{Commit as CommitName};
ghost use Rattle.live_bits.specs.LiveSet.{LiveSet};
ghost use Rattle.page_cache.specs.Causes.{HasPageCause};
ghost use Rattle.page_cache.specs.Evidence.{NotDamaged, OnDamage};
ghost use Rattle.commit_list.specs.CommitFiles.{IsCommitFile};
ghost use Rattle.segment_file.specs.Heads.{Head};
ghost use Rattle.stored_index.specs.Opening.{segments_pages};
ghost use Rattle.stored_index.specs.Stored.{HaveHeads, HaveLive, IsUndefined};
ghost use Rattle.index_opening.specs.Evidence.{IsEvident, IsFound};
ghost use Rattle.folder_check.specs.Informed.{HasParts, IsInformed, IsInforming, listed_bytes as both_lengths};
ghost use Rattle.folder_check.specs.Informed.{stored_bytes as all_lengths};

use crate::checking::live_documents;
use crate::texts::{info_line, none_line};
use commit_list::{Commit, Listed, read_commit};
use index_opening::open_index;
use outer_io::{FileName, Folder};
use page_cache::PageFault;
use std::alloc::Global;

/// Appends `no index`, or how large the index is, as a line
/// `dims D leaf B next N points G live L segments S bytes Y`. Read are the Commit file, and the heads, indexes and live
/// bits of the segments that it lists, and a damage is that of one of these: no leaf is read, so a damaged one does not
/// show. No file changes.
pub fn info<F: Folder>(alloc: Global, folder: &mut F, text: &mut Vec<u8>) -> Result<(), PageFault>
    ensures tells { IsTrue F.told
        → OnOk result
        ((told : List ℕ) × IsInformed (F.files folder.old) told × (text.new.items ≡ text.old.items ++ told)) }
    ensures kept { OnErr result (text.new.items ≡ text.old.items) }
    ensures files { IsTrue F.told → F.files folder.new ≡ F.files folder.old }
    ensures reads { IsTrue F.told → (pages : ℕ) → IsInforming (F.files folder.old) pages
        → F.reads folder.new ≤ F.reads folder.old + pages }
    ensures cause { HasPageCause (F.faults folder.old) (F.faults folder.new) result }
    ensures undefined { IsTrue F.told → OnDamage result (λ _. IsUndefined (F.files folder.old)) }
    ensures named { IsTrue F.told → OnDamage result (IsFound (F.files folder.old)) }
    ensures evident { OnDamage result (IsEvident (IsTrue F.told) (F.files folder.old)) }
{
    let line = informed(alloc, folder)?;
    text.extend_from_slice(line.as_slice())?;
    Ok(())
}

/// The line that is told of the folder.
fn informed<F: Folder>(alloc: Global, folder: &mut F) -> Result<Vec<u8>, PageFault>
    ensures tells { IsTrue F.told → IfOk result (λ v. IsInformed (F.files folder.old) v.items) }
    ensures files { IsTrue F.told → F.files folder.new ≡ F.files folder.old }
    ensures reads { IsTrue F.told → (pages : ℕ) → IsInforming (F.files folder.old) pages
        → F.reads folder.new ≤ F.reads folder.old + pages }
    ensures cause { HasPageCause (F.faults folder.old) (F.faults folder.new) result }
    ensures undefined { IsTrue F.told → OnDamage result (λ _. IsUndefined (F.files folder.old)) }
    ensures named { IsTrue F.told → OnDamage result (IsFound (F.files folder.old)) }
    ensures evident { OnDamage result (IsEvident (IsTrue F.told) (F.files folder.old)) }
{
    let Some(commit) = read_commit(alloc, folder)? else {
        return Ok(none_line(alloc)?);
    };
    let bytes = commit_bytes(alloc, folder, &commit)?;
    Ok(info_line(alloc, &commit, live_documents(commit.listed()), bytes)?)
}

/// How many bytes the Commit file and the files that it lists have, where what it lists can be opened.
fn commit_bytes<F: Folder>(alloc: Global, folder: &mut F, c: &Commit) -> Result<u64, PageFault>
    ensures bytes { IsTrue F.told → IfOk result (λ n. n ≡ all_lengths (F.files folder.old) c.now) }
    ensures parts { IsTrue F.told → OnOk result (HasParts (F.files folder.old) c.now) }
    ensures files { IsTrue F.told → F.files folder.new ≡ F.files folder.old }
    ensures reads { IsTrue F.told → (heads : List Head) (sets : List LiveSet)
        → HaveHeads (F.files folder.old) c.now heads
        → HaveLive (F.files folder.old) c.now sets
        → F.reads folder.new ≤ F.reads folder.old + segments_pages (F.files folder.old) c.now.listed heads }
    ensures cause { HasPageCause (F.faults folder.old) (F.faults folder.new) result }
    ensures undefined { IsTrue F.told → IsCommitFile (bytes_of (F.files folder.old CommitName)) c.now
        → OnDamage result (λ _. IsUndefined (F.files folder.old)) }
    ensures named { IsTrue F.told → IsCommitFile (bytes_of (F.files folder.old CommitName)) c.now
        → OnDamage result (IsFound (F.files folder.old)) }
    ensures evident { OnDamage result
        (IsEvident (IsTrue F.told × IsCommitFile (bytes_of (F.files folder.old CommitName)) c.now)
        (F.files folder.old)) }
{
    open_commit(alloc, folder, c)?;
    stored_bytes(folder, c)
}

/// Opens the segments that a commit lists, in as many dimensions as it has.
fn open_commit<F: Folder>(alloc: Global, folder: &mut F, c: &Commit) -> Result<(), PageFault>
    ensures parts { IsTrue F.told → OnOk result (HasParts (F.files folder.old) c.now) }
    ensures files { IsTrue F.told → F.files folder.new ≡ F.files folder.old }
    ensures reads { IsTrue F.told → (heads : List Head) (sets : List LiveSet)
        → HaveHeads (F.files folder.old) c.now heads
        → HaveLive (F.files folder.old) c.now sets
        → F.reads folder.new ≤ F.reads folder.old + segments_pages (F.files folder.old) c.now.listed heads }
    ensures cause { HasPageCause (F.faults folder.old) (F.faults folder.new) result }
    ensures undefined { IsTrue F.told → IsCommitFile (bytes_of (F.files folder.old CommitName)) c.now
        → OnDamage result (λ _. IsUndefined (F.files folder.old)) }
    ensures named { IsTrue F.told → IsCommitFile (bytes_of (F.files folder.old CommitName)) c.now
        → OnDamage result (IsFound (F.files folder.old)) }
    ensures evident { OnDamage result
        (IsEvident (IsTrue F.told × IsCommitFile (bytes_of (F.files folder.old CommitName)) c.now)
        (F.files folder.old)) }
{
    match c.dims() {
        1 => open_parts::<1, F>(alloc, folder, c),
        2 => open_parts::<2, F>(alloc, folder, c),
        3 => open_parts::<3, F>(alloc, folder, c),
        4 => open_parts::<4, F>(alloc, folder, c),
        5 => open_parts::<5, F>(alloc, folder, c),
        6 => open_parts::<6, F>(alloc, folder, c),
        7 => open_parts::<7, F>(alloc, folder, c),
        _ => open_parts::<8, F>(alloc, folder, c),
    }
}

/// Opens the segments that a commit of `D` dimensions lists.
fn open_parts<const D: usize, F: Folder>(
    alloc: Global,
    folder: &mut F,
    c: &Commit,
) -> Result<(), PageFault>
    requires { c.now.dims ≡ D }
    ensures parts { IsTrue F.told → OnOk result (HasParts (F.files folder.old) c.now) }
    ensures files { IsTrue F.told → F.files folder.new ≡ F.files folder.old }
    ensures reads { IsTrue F.told → (heads : List Head) (sets : List LiveSet)
        → HaveHeads (F.files folder.old) c.now heads
        → HaveLive (F.files folder.old) c.now sets
        → F.reads folder.new ≤ F.reads folder.old + segments_pages (F.files folder.old) c.now.listed heads }
    ensures cause { HasPageCause (F.faults folder.old) (F.faults folder.new) result }
    ensures undefined { IsTrue F.told → IsCommitFile (bytes_of (F.files folder.old CommitName)) c.now
        → OnDamage result (λ _. IsUndefined (F.files folder.old)) }
    ensures named { IsTrue F.told → IsCommitFile (bytes_of (F.files folder.old CommitName)) c.now
        → OnDamage result (IsFound (F.files folder.old)) }
    ensures evident { OnDamage result
        (IsEvident (IsTrue F.told × IsCommitFile (bytes_of (F.files folder.old CommitName)) c.now)
        (F.files folder.old)) }
{
    let _segments = open_index::<D, F>(alloc, folder, c)?;
    Ok(())
}

/// How many bytes the Commit file and the files that it lists have, as far as 64 bits hold it.
fn stored_bytes<F: Folder>(folder: &mut F, c: &Commit) -> Result<u64, PageFault>
    ensures bytes { IsTrue F.told → IfOk result (λ n. n ≡ all_lengths (F.files folder.old) c.now) }
    ensures files { IsTrue F.told → F.files folder.new ≡ F.files folder.old }
    ensures reads { F.reads folder.new ≡ F.reads folder.old }
    ensures cause { HasPageCause (F.faults folder.old) (F.faults folder.new) result }
    ensures undamaged { NotDamaged result }
{
    let commit = bytes_in(folder, &FileName::Commit)?;
    let listed = listed_bytes(folder, c.listed())?;
    Ok(commit.saturating_add(listed))
}

/// How many bytes the files of listed segments have, as far as 64 bits hold it.
fn listed_bytes<F: Folder>(folder: &mut F, listed: &[Listed]) -> Result<u64, PageFault>
    ensures bytes { IsTrue F.told → IfOk result
        (λ n. n ≡ min (sum_by (both_lengths (F.files folder.old)) listed.now) (2 ^ 64 - 1)) }
    ensures files { IsTrue F.told → F.files folder.new ≡ F.files folder.old }
    ensures reads { F.reads folder.new ≡ F.reads folder.old }
    ensures cause { HasPageCause (F.faults folder.old) (F.faults folder.new) result }
    ensures undamaged { NotDamaged result }
{
    let mut bytes = 0_u64;
    for s in listed {
        let more = both_bytes(folder, s)?;
        bytes = bytes.saturating_add(more);
    }
    Ok(bytes)
}

/// How many bytes both files of a listed segment have, as far as 64 bits hold it.
fn both_bytes<F: Folder>(folder: &mut F, s: &Listed) -> Result<u64, PageFault>
    ensures bytes { IsTrue F.told → IfOk result
        (λ n. n ≡ min (both_lengths (F.files folder.old) s.now) (2 ^ 64 - 1)) }
    ensures files { IsTrue F.told → F.files folder.new ≡ F.files folder.old }
    ensures reads { F.reads folder.new ≡ F.reads folder.old }
    ensures cause { HasPageCause (F.faults folder.old) (F.faults folder.new) result }
    ensures undamaged { NotDamaged result }
{
    let live = FileName::Live {
        segment: s.segment,
        generation: s.generation,
    };
    let of_segment = bytes_in(folder, &FileName::Segment(s.segment))?;
    let of_live = bytes_in(folder, &live)?;
    Ok(of_segment.saturating_add(of_live))
}

/// How many bytes a file has. One that isn't there has none.
fn bytes_in<F: Folder>(folder: &mut F, name: &FileName) -> Result<u64, PageFault>
    ensures bytes { IsTrue F.told → IfOk result (λ n. n ≡ length (bytes_of (F.files folder.old name.now))) }
    ensures files { IsTrue F.told → F.files folder.new ≡ F.files folder.old }
    ensures reads { F.reads folder.new ≡ F.reads folder.old }
    ensures cause { HasPageCause (F.faults folder.old) (F.faults folder.new) result }
    ensures undamaged { NotDamaged result }
{
    Ok(folder.size(name)?.unwrap_or(0))
}
