//! The check of a folder.

ghost use Rattle.std.specs.Prelude.{◌≡◌, ◌≤◌, ◌<◌, ◌+◌, ◌^◌, ◌++◌, ℕ, List, [], sum_by, true, IsTrue};
ghost use Rattle.std.specs.Prelude.{IfOk, OnOk, OnErr};
ghost use Rattle.outer_io.specs.Files.{bytes_of};
ghost use Rattle.outer_io.specs.declared.file_name.FileName.TheVariants.{Commit as CommitName};
ghost use Rattle.live_bits.specs.LiveSet.{LiveSet};
ghost use Rattle.point_codec.specs.Seen.{items_of};
ghost use Rattle.documents.specs.Documents.{Document};
ghost use Rattle.documents.specs.Entries.{AreDocs};
ghost use Rattle.page_cache.specs.Causes.{HasPageCause};
ghost use Rattle.page_cache.specs.Evidence.{OnDamage, NotDamaged};
ghost use Rattle.commit_list.specs.CommitFiles.{IsCommitFile};
ghost use Rattle.segment_file.specs.Heads.{Head};
ghost use Rattle.index_model.specs.State.{State};
ghost use Rattle.stored_index.specs.Stored.{HaveHeads, HaveLive, HoldsIndex, IsStored, IsUndefined};
ghost use Rattle.index_opening.specs.Evidence.{IsEvident, IsFound};
ghost use Rattle.folder_check.specs.Checked.{IsChecked, IsChecking, both_pages};
ghost use Rattle.folder_check.specs.First.{IsFirst, IsFirstOfCommit};

use crate::findings::judge;
use crate::reading::read_leaves;
use crate::texts::{none_line, ok_line};
use commit_list::{Commit, Listed, read_commit};
use index_opening::open_index;
use outer_io::Folder;
use page_cache::PageFault;
use point_codec::Entry;
use segment_file::one_segment;
use std::alloc::Global;

/// Reads every page of each file that the Commit file lists, and appends `no index`, or how large the index is, as a
/// line
/// `ok dims D leaf B next N live L segments S`. It ends so exactly where the folder stores a state. Where it stores
/// none, the first damage of these is answered:
///
/// - that of the Commit file;
/// - of the segments in order of id, that of the head and the index, and then of the live bits;
/// - the least live number that isn't below the next number (NotGiven) or is live in two segments (Doubled);
/// - the first page or leaf of the segments in order;
/// - the first segment in which a live number has no entry (Unequal, its file of live bits);
/// - the least live number that has one point twice or more than 16 entries (Doubled);
/// - more live entries than points were given (Unequal, the Commit file).
///
/// Of one segment at a time the live entries are in memory, and a bit for each number; of a segment with as many
/// entries as live numbers, a bit for each number alone. No file changes.
pub fn check<F: Folder>(alloc: Global, folder: &mut F, text: &mut Vec<u8>) -> Result<(), PageFault>
    ensures tells { IsTrue F.told
        → OnOk result
        ((told : List ℕ) × IsChecked (F.files folder.old) told × (text.new.items ≡ text.old.items ++ told)) }
    ensures kept { OnErr result (text.new.items ≡ text.old.items) }
    ensures files { IsTrue F.told → F.files folder.new ≡ F.files folder.old }
    ensures reads { IsTrue F.told → (pages : ℕ) → IsChecking (F.files folder.old) pages
        → F.reads folder.new ≤ F.reads folder.old + pages }
    ensures cause { HasPageCause (F.faults folder.old) (F.faults folder.new) result }
    // a damage is answered where no state is stored, and there alone
    ensures undefined { IsTrue F.told → OnDamage result (λ _. IsUndefined (F.files folder.old)) }
    ensures whole { IsTrue F.told → (state : State) → IsStored (F.files folder.old) state → NotDamaged result }
    // it names the Commit file or one that it lists, and two numbers are a pair of these files
    ensures named { IsTrue F.told → OnDamage result (IsFound (F.files folder.old)) }
    // and it is the first of the order
    ensures first { IsTrue F.told → OnDamage result (IsFirst (IsTrue F.told) (F.files folder.old)) }
    ensures evident { OnDamage result (IsEvident (IsTrue F.told) (F.files folder.old)) }
{
    let line = checked(alloc, folder)?;
    text.extend_from_slice(line.as_slice())?;
    Ok(())
}

/// The line that is told of the folder.
fn checked<F: Folder>(alloc: Global, folder: &mut F) -> Result<Vec<u8>, PageFault>
    ensures tells { IsTrue F.told → IfOk result (λ v. IsChecked (F.files folder.old) v.items) }
    ensures files { IsTrue F.told → F.files folder.new ≡ F.files folder.old }
    ensures reads { IsTrue F.told → (pages : ℕ) → IsChecking (F.files folder.old) pages
        → F.reads folder.new ≤ F.reads folder.old + pages }
    ensures cause { HasPageCause (F.faults folder.old) (F.faults folder.new) result }
    ensures undefined { IsTrue F.told → OnDamage result (λ _. IsUndefined (F.files folder.old)) }
    ensures named { IsTrue F.told → OnDamage result (IsFound (F.files folder.old)) }
    ensures first { IsTrue F.told → OnDamage result (IsFirst (IsTrue F.told) (F.files folder.old)) }
    ensures evident { OnDamage result (IsEvident (IsTrue F.told) (F.files folder.old)) }
{
    let Some(commit) = read_commit(alloc, folder)? else {
        return Ok(none_line(alloc)?);
    };
    check_commit(alloc, folder, &commit)?;
    Ok(ok_line(alloc, &commit, live_documents(commit.listed()))?)
}

/// Looks at what a commit lists, in as many dimensions as it has.
fn check_commit<F: Folder>(alloc: Global, folder: &mut F, c: &Commit) -> Result<(), PageFault>
    ensures holds { IsTrue F.told → IsCommitFile (bytes_of (F.files folder.old CommitName)) c.now
        → OnOk result ((docs : List Document) × HoldsIndex (F.files folder.old) c.now docs) }
    ensures files { IsTrue F.told → F.files folder.new ≡ F.files folder.old }
    ensures reads { IsTrue F.told → (heads : List Head) (sets : List LiveSet)
        → HaveHeads (F.files folder.old) c.now heads
        → HaveLive (F.files folder.old) c.now sets
        → F.reads folder.new ≤ F.reads folder.old + sum_by (both_pages (F.files folder.old)) c.now.listed }
    ensures cause { HasPageCause (F.faults folder.old) (F.faults folder.new) result }
    ensures undefined { IsTrue F.told → IsCommitFile (bytes_of (F.files folder.old CommitName)) c.now
        → OnDamage result (λ _. IsUndefined (F.files folder.old)) }
    ensures named { IsTrue F.told → IsCommitFile (bytes_of (F.files folder.old CommitName)) c.now
        → OnDamage result (IsFound (F.files folder.old)) }
    ensures first { IsTrue F.told → OnDamage result (IsFirstOfCommit (IsTrue F.told) (F.files folder.old) c.now) }
    ensures evident { OnDamage result
        (IsEvident (IsTrue F.told × IsCommitFile (bytes_of (F.files folder.old CommitName)) c.now)
        (F.files folder.old)) }
{
    match c.dims() {
        1 => check_index::<1, F>(alloc, folder, c),
        2 => check_index::<2, F>(alloc, folder, c),
        3 => check_index::<3, F>(alloc, folder, c),
        4 => check_index::<4, F>(alloc, folder, c),
        5 => check_index::<5, F>(alloc, folder, c),
        6 => check_index::<6, F>(alloc, folder, c),
        7 => check_index::<7, F>(alloc, folder, c),
        _ => check_index::<8, F>(alloc, folder, c),
    }
}

/// Looks at the segments that a commit of `D` dimensions lists: opens them all, then reads the leaves of all, and
/// then looks through what was found.
pub fn check_index<const D: usize, F: Folder>(
    alloc: Global,
    folder: &mut F,
    c: &Commit,
) -> Result<(), PageFault>
    requires { c.now.dims ≡ D }
    ensures holds { IsTrue F.told → IsCommitFile (bytes_of (F.files folder.old CommitName)) c.now
        → OnOk result ((docs : List Document) × HoldsIndex (F.files folder.old) c.now docs) }
    ensures files { IsTrue F.told → F.files folder.new ≡ F.files folder.old }
    ensures reads { IsTrue F.told → (heads : List Head) (sets : List LiveSet)
        → HaveHeads (F.files folder.old) c.now heads
        → HaveLive (F.files folder.old) c.now sets
        → F.reads folder.new ≤ F.reads folder.old + sum_by (both_pages (F.files folder.old)) c.now.listed }
    ensures cause { HasPageCause (F.faults folder.old) (F.faults folder.new) result }
    ensures undefined { IsTrue F.told → IsCommitFile (bytes_of (F.files folder.old CommitName)) c.now
        → OnDamage result (λ _. IsUndefined (F.files folder.old)) }
    ensures named { IsTrue F.told → IsCommitFile (bytes_of (F.files folder.old CommitName)) c.now
        → OnDamage result (IsFound (F.files folder.old)) }
    ensures first { IsTrue F.told → OnDamage result (IsFirstOfCommit (IsTrue F.told) (F.files folder.old) c.now) }
    ensures evident { OnDamage result
        (IsEvident (IsTrue F.told × IsCommitFile (bytes_of (F.files folder.old CommitName)) c.now)
        (F.files folder.old)) }
{
    // they are at most 8
    let _dims = c.dims();
    let mut none = Vec::new(alloc);
    look_through::<D, F>(alloc, folder, c, false, &mut none)
}

/// The live entries of the segments that a commit of `D` dimensions lists, in the order of the segments and of their
/// leaves. It looks at all that `check_index` looks at, and answers the same damages; each page is read once at most.
pub fn stored_entries<const D: usize, F: Folder>(
    alloc: Global,
    folder: &mut F,
    c: &Commit,
) -> Result<Vec<Entry<D>>, PageFault>
    requires { c.now.dims ≡ D }
    ensures entries { IsTrue F.told → IsCommitFile (bytes_of (F.files folder.old CommitName)) c.now
        → IfOk result (λ v. (docs : List Document) × HoldsIndex (F.files folder.old) c.now docs
        × AreDocs c.now.next (items_of v.items) docs) }
    ensures files { IsTrue F.told → F.files folder.new ≡ F.files folder.old }
    ensures reads { IsTrue F.told → (heads : List Head) (sets : List LiveSet)
        → HaveHeads (F.files folder.old) c.now heads
        → HaveLive (F.files folder.old) c.now sets
        → F.reads folder.new ≤ F.reads folder.old + sum_by (both_pages (F.files folder.old)) c.now.listed }
    ensures cause { HasPageCause (F.faults folder.old) (F.faults folder.new) result }
    ensures undefined { IsTrue F.told → IsCommitFile (bytes_of (F.files folder.old CommitName)) c.now
        → OnDamage result (λ _. IsUndefined (F.files folder.old)) }
    ensures named { IsTrue F.told → IsCommitFile (bytes_of (F.files folder.old CommitName)) c.now
        → OnDamage result (IsFound (F.files folder.old)) }
    ensures first { IsTrue F.told → OnDamage result (IsFirstOfCommit (IsTrue F.told) (F.files folder.old) c.now) }
    ensures evident { OnDamage result
        (IsEvident (IsTrue F.told × IsCommitFile (bytes_of (F.files folder.old CommitName)) c.now)
        (F.files folder.old)) }
{
    // where each document has one point, the list is never moved
    let room = live_documents(c.listed()).saturating_add(u64::from(c.leaf_size()));
    let mut entries = Vec::with_capacity(alloc, room as usize)?;
    look_through::<D, F>(alloc, folder, c, true, &mut entries)?;
    Ok(entries)
}

/// Looks at the segments that a commit of `D` dimensions lists. Where `keeps` is set their live entries are put behind
/// those of `kept`.
fn look_through<const D: usize, F: Folder>(
    alloc: Global,
    folder: &mut F,
    c: &Commit,
    keeps: bool,
    kept: &mut Vec<Entry<D>>,
) -> Result<(), PageFault>
    requires { c.now.dims ≡ D }
    ensures holds { IsTrue F.told → IsCommitFile (bytes_of (F.files folder.old CommitName)) c.now
        → OnOk result ((docs : List Document) × HoldsIndex (F.files folder.old) c.now docs) }
    ensures kept { keeps ≡ true → IsTrue F.told → IsCommitFile (bytes_of (F.files folder.old CommitName)) c.now
        → kept.old.items ≡ []
        → OnOk result ((docs : List Document) × HoldsIndex (F.files folder.old) c.now docs
        × AreDocs c.now.next (items_of kept.new.items) docs) }
    ensures files { IsTrue F.told → F.files folder.new ≡ F.files folder.old }
    ensures reads { IsTrue F.told → (heads : List Head) (sets : List LiveSet)
        → HaveHeads (F.files folder.old) c.now heads
        → HaveLive (F.files folder.old) c.now sets
        → F.reads folder.new ≤ F.reads folder.old + sum_by (both_pages (F.files folder.old)) c.now.listed }
    ensures cause { HasPageCause (F.faults folder.old) (F.faults folder.new) result }
    ensures undefined { IsTrue F.told → IsCommitFile (bytes_of (F.files folder.old CommitName)) c.now
        → OnDamage result (λ _. IsUndefined (F.files folder.old)) }
    ensures named { IsTrue F.told → IsCommitFile (bytes_of (F.files folder.old CommitName)) c.now
        → OnDamage result (IsFound (F.files folder.old)) }
    ensures first { IsTrue F.told → OnDamage result (IsFirstOfCommit (IsTrue F.told) (F.files folder.old) c.now) }
    ensures evident { OnDamage result
        (IsEvident (IsTrue F.told × IsCommitFile (bytes_of (F.files folder.old CommitName)) c.now)
        (F.files folder.old)) }
{
    let segments = open_index::<D, F>(alloc, folder, c)?;
    let findings = read_leaves(alloc, folder, &segments, keeps, kept)?;
    // the entries of a file are one list
    one_segment();
    judge(c.listed(), c.points_given(), findings.as_slice())
}

/// How many documents are live, by what the commit says of its segments.
pub(crate) fn live_documents(listed: &[Listed]) -> u64
    requires { sum_by (λ s. s.live) listed.now < 2 ^ 64 }
    ensures { result ≡ sum_by (λ s. s.live) listed.now }
{
    listed.iter().map(|s| u64::from(s.live)).sum()
}
