//! The file of the commit, read and written.

ghost use Rattle.std.specs.Prelude.{◌≡◌, ◌≤◌, ◌+◌, ◌*◌, ◌/◌, ◌++◌, ◌⊎◌, ℕ, List, None, Some, length, vec_len, IsTrue};
ghost use Rattle.std.specs.Prelude.{IfOk, OnSome, OnOk, OnErr, IsErrOf, MatchOption, replicate, ◌↔◌};
ghost use Rattle.outer_io.specs.Files.{Files, bytes_of, SameButTwo};
ghost use Rattle.outer_io.specs.declared.file_name.FileName.TheVariants.{Commit as CommitName, CommitNew};
ghost use Rattle.outer_io.specs.Faults.{HasWriteCause};
ghost use Rattle.page_cache.specs.Causes.{HasPageCause, IsSteady};
ghost use Rattle.page_cache.specs.Bodies.{pages_for as pages_for_body};
ghost use Rattle.page_cache.specs.Evidence.{OnDamage, NotDamaged, SizeWithin, IsFileDamage, IsFileDamageOf};
ghost use Rattle.page_cache.specs.Evidence.{ArePayloadsOf};
ghost use Rattle.page_cache.specs.FilePages.{ArePages, payloads_of};
ghost use Rattle.page_cache.specs.declared.faults.Damage.TheVariants.{Body};
ghost use Rattle.page_cache.specs.FirstPages.{first_name, first_payload, IsFirstPage};
ghost use Rattle.page_cache.specs.declared.faults.PageFault.TheVariants as page;
ghost use Rattle.outer_io.specs.declared.faults.WriteFault.TheVariants as write;
ghost use Rattle.commit_list.specs.Commits.{CommitData};
ghost use Rattle.commit_list.specs.Layout.{BeginsBody};
ghost use Rattle.commit_list.specs.CommitFiles.{IsCommitFile, IsWrittenCommit, SpellsFilled, HasNoFilled};
ghost use Rattle.commit_list.specs.CommitFiles.{IsCommitDamage, IsCommitDamageOf};

use crate::commits::Commit;
use crate::reading::{body_length, decode};
use crate::writing::encode_commit;
use byte_cursor::{Bytes, Memory};
use outer_io::{FileName, Folder, WriteFault};
use page_cache::{Damage, FirstPage, PAYLOAD_LEN, PageFault, pages_for, pages_of, read_payloads};
use std::alloc::Global;

/// The commit of the folder, in either layout. None exactly where the folder has no Commit.
///
/// What is out of its format is looked for in this order: the size and the first page; the numbers in front of
/// the list (Body with the first page's payload); the size that they need; the other page; all else (Body with
/// all payloads). Each page is read once, so reads rise by at most two. No file is changed.
pub fn read_commit<F: Folder>(alloc: Global, folder: &mut F) -> Result<Option<Commit>, PageFault>
    ensures found { IsTrue F.told → IfOk result (λ found. MatchOption found (F.files folder.old CommitName ≡ None)
        (IsCommitFile (bytes_of (F.files folder.old CommitName)))) }
    ensures files { IsTrue F.told → F.files folder.new ≡ F.files folder.old }
    ensures reads { F.reads folder.new ≤ F.reads folder.old + 2 }
    ensures pages { IsTrue F.told → IfOk result (λ found. OnSome found
        (F.reads folder.new ≤ F.reads folder.old + length (bytes_of (F.files folder.old CommitName)) / 4096)) }
    // and where the file says a commit, or isn't there, whatever is answered
    ensures most { IsTrue F.told → (c : CommitData) → IsCommitFile (bytes_of (F.files folder.old CommitName)) c
        → F.reads folder.new ≤ F.reads folder.old + length (bytes_of (F.files folder.old CommitName)) / 4096 }
    ensures unread { IsTrue F.told → F.files folder.old CommitName ≡ None → F.reads folder.new ≡ F.reads folder.old }
    ensures cause { HasPageCause (F.faults folder.old) (F.faults folder.new) result }
    ensures steady { IsSteady (F.faults folder.old) (F.faults folder.new) result }
    ensures shown { OnDamage result IsCommitDamage }
    ensures damage { IsTrue F.told → OnDamage result (IsCommitDamageOf (F.files folder.old)) }
    ensures absent { IsTrue F.told → F.files folder.old CommitName ≡ None → NotDamaged result }
    ensures whole { IsTrue F.told → (c : CommitData) → IsCommitFile (bytes_of (F.files folder.old CommitName)) c
        → NotDamaged result }
{
    let Some(first) = FirstPage::find(alloc, folder, &FileName::Commit)? else {
        return Ok(None);
    };
    let commit = read_from(alloc, folder, &first)?;
    Ok(Some(commit))
}

/// The commit of the file that has this first page.
fn read_from<F: Folder>(
    alloc: Global,
    folder: &mut F,
    first: &FirstPage,
) -> Result<Commit, PageFault>
    requires { first_name first.now ≡ CommitName }
    ensures found { IsTrue F.told → IsFirstPage (F.files folder.old) first.now
        → IfOk result (IsCommitFile (bytes_of (F.files folder.old CommitName))) }
    ensures files { IsTrue F.told → F.files folder.new ≡ F.files folder.old }
    ensures reads { F.reads folder.new ≤ F.reads folder.old + 1 }
    ensures pages { IsTrue F.told → IsFirstPage (F.files folder.old) first.now
        → OnOk result
        (F.reads folder.new + 1 ≤ F.reads folder.old + length (bytes_of (F.files folder.old CommitName)) / 4096) }
    ensures most { IsTrue F.told → IsFirstPage (F.files folder.old) first.now
        → (c : CommitData) → IsCommitFile (bytes_of (F.files folder.old CommitName)) c
        → F.reads folder.new + 1 ≤ F.reads folder.old + length (bytes_of (F.files folder.old CommitName)) / 4096 }
    ensures cause { HasPageCause (F.faults folder.old) (F.faults folder.new) result }
    ensures steady { IsSteady (F.faults folder.old) (F.faults folder.new) result }
    ensures shown { OnDamage result IsCommitDamage }
    ensures damage { IsTrue F.told → IsFirstPage (F.files folder.old) first.now
        → OnDamage result (IsCommitDamageOf (F.files folder.old)) }
    ensures whole { IsTrue F.told → IsFirstPage (F.files folder.old) first.now
        → (c : CommitData) → IsCommitFile (bytes_of (F.files folder.old CommitName)) c → NotDamaged result }
{
    let length = length_of(alloc, first)?;
    let pages = pages_for(length);
    first.check_size(pages)?;
    let payloads = all_payloads(alloc, folder, first, pages)?;
    commit_of(alloc, payloads, length)
}

/// The payloads of the first `pages` pages of the Commit, of which the first one is read.
fn all_payloads<F: Folder>(
    alloc: Global,
    folder: &mut F,
    first: &FirstPage,
    pages: u32,
) -> Result<Vec<u8>, PageFault>
    requires some { 1 ≤ pages }
    requires name { first_name first.now ≡ CommitName }
    ensures files { IsTrue F.told → F.files folder.new ≡ F.files folder.old }
    ensures reads { F.reads folder.new + 1 ≤ F.reads folder.old + pages }
    ensures cause { HasPageCause (F.faults folder.old) (F.faults folder.new) result }
    ensures steady { IsSteady (F.faults folder.old) (F.faults folder.new) result }
    ensures len { IfOk result (λ v. vec_len v ≡ 4064 * pages) }
    ensures front { IfOk result (λ v. (rest : List ℕ) × (v.items ≡ first_payload first.now ++ rest)) }
    ensures payloads { IsTrue F.told → IsFirstPage (F.files folder.old) first.now
        → IfOk result (λ v. v.items ≡ payloads_of (bytes_of (F.files folder.old CommitName)) 0 pages) }
    ensures pages { IsTrue F.told → IsFirstPage (F.files folder.old) first.now
        → OnOk result (ArePages CommitName (bytes_of (F.files folder.old CommitName)) 0 pages) }
    ensures shown { OnDamage result (IsFileDamage CommitName) }
    ensures within { OnDamage result (SizeWithin (4096 * pages)) }
    ensures damage { IsTrue F.told → OnDamage result (IsFileDamageOf (F.files folder.old)) }
    ensures whole { IsTrue F.told → ArePages CommitName (bytes_of (F.files folder.old CommitName)) 1 pages
        → NotDamaged result }
{
    let rest = read_payloads(alloc, folder, &FileName::Commit, pages - 1)?;
    let mut all = Vec::with_capacity(alloc, PAYLOAD_LEN * pages as usize)?;
    all.extend_from_slice(first.payload())?;
    all.extend_from_slice(rest.as_slice())?;
    Ok(all)
}

/// The length of the body that the file's first page begins.
fn length_of(alloc: Global, first: &FirstPage) -> Result<u32, PageFault>
    requires { first_name first.now ≡ CommitName }
    ensures begins { IfOk result (BeginsBody (first_payload first.now)) }
    ensures failed { IsErrOf result page.Failed → ⊥ }
    ensures shown { OnDamage result IsCommitDamage }
    ensures damage { (files : Files) → IsFirstPage files first.now → OnDamage result (IsCommitDamageOf files) }
    ensures whole { (n : ℕ) → BeginsBody (first_payload first.now) n → NotDamaged result }
{
    match body_length(first.payload()) {
        Some(length) => Ok(length),
        None => {
            let bytes = Vec::from_slice(alloc, first.payload())?;
            Err(no_commit(bytes))
        }
    }
}

/// The commit that the joined payloads of the file say, which begin a body of this length.
fn commit_of(alloc: Global, payloads: Vec<u8>, len: u32) -> Result<Commit, PageFault>
    requires begins { BeginsBody payloads.items len }
    requires long { vec_len payloads ≡ 4064 * pages_for_body len }
    ensures found { IfOk result (SpellsFilled payloads.items) }
    ensures failed { IsErrOf result page.Failed → ⊥ }
    ensures shown { OnDamage result IsCommitDamage }
    ensures damage { (files : Files) → ArePayloadsOf files CommitName payloads.items
        → OnDamage result (IsCommitDamageOf files) }
    ensures whole { (c : CommitData) → SpellsFilled payloads.items c → NotDamaged result }
{
    match decode_filled(alloc, payloads.as_slice(), len)? {
        Some(commit) => Ok(commit),
        None => Err(no_commit(payloads)),
    }
}

/// The damage of a Commit file whose payloads are of no commit.
fn no_commit(payloads: Vec<u8>) -> PageFault
    ensures { result ≡ page.Damaged (Body CommitName payloads.items) }
{
    PageFault::Damaged(Damage::Body {
        file: FileName::Commit,
        bytes: Bytes::new(payloads),
    })
}

/// The commit whose body, filled up with zeros, the payloads are, which begin a body of this length. None exactly
/// where they are that of none.
fn decode_filled(alloc: Global, payloads: &[u8], len: u32) -> Result<Option<Commit>, Memory>
    requires begins { BeginsBody payloads.now len }
    requires long { length payloads.now ≡ 4064 * pages_for_body len }
    ensures { IfOk result (λ found. MatchOption found (HasNoFilled payloads.now) (SpellsFilled payloads.now)) }
{
    let (body, filling) = payloads.split_at(len as usize);
    if !is_zero(filling) {
        return Ok(None);
    }
    decode(alloc, body)
}

/// Whether all the bytes are zero.
fn is_zero(bytes: &[u8]) -> bool
    ensures { IsTrue result ↔ (bytes.now ≡ replicate (length bytes.now) 0) }
{
    bytes.iter().all(|b| *b == 0)
}

/// Makes the commit the folder's: it is written beside the Commit of before, and then put into its place by its
/// name. After want of memory the Commit is as before; after a failure it is as before or this one.
pub fn write_commit<F: Folder>(alloc: Global, folder: &mut F, c: &Commit) -> Result<(), WriteFault>
    ensures written { IsTrue F.told → OnOk result (IsWrittenCommit (bytes_of (F.files folder.new CommitName)) c.now) }
    ensures commit { IsTrue F.told → OnOk result (IsCommitFile (bytes_of (F.files folder.new CommitName)) c.now) }
    ensures gone { IsTrue F.told → OnOk result (F.files folder.new CommitNew ≡ None) }
    ensures kept { IsTrue F.told → OnErr result ((F.files folder.new CommitName ≡ F.files folder.old CommitName)
        ⊎ IsWrittenCommit (bytes_of (F.files folder.new CommitName)) c.now) }
    ensures memory { IsTrue F.told → IsErrOf result write.Memory
        → F.files folder.new CommitName ≡ F.files folder.old CommitName }
    ensures others { IsTrue F.told → SameButTwo CommitNew CommitName (F.files folder.old) (F.files folder.new) }
    ensures reads { F.reads folder.new ≡ F.reads folder.old }
    ensures cause { HasWriteCause (F.faults folder.old) (F.faults folder.new) result }
{
    let body = encode_commit(alloc, c)?;
    let pages = pages_of(alloc, &FileName::Commit, body.as_slice())?;
    replace(folder, pages.as_slice())
}

/// Makes the bytes the Commit of the folder, whole or not at all.
fn replace<F: Folder>(folder: &mut F, bytes: &[u8]) -> Result<(), WriteFault>
    ensures written { IsTrue F.told → OnOk result (F.files folder.new CommitName ≡ Some bytes.now) }
    ensures gone { IsTrue F.told → OnOk result (F.files folder.new CommitNew ≡ None) }
    ensures kept { IsTrue F.told → OnErr result ((F.files folder.new CommitName ≡ F.files folder.old CommitName)
        ⊎ (F.files folder.new CommitName ≡ Some bytes.now)) }
    ensures memory { IsTrue F.told → IsErrOf result write.Memory
        → F.files folder.new CommitName ≡ F.files folder.old CommitName }
    ensures others { IsTrue F.told → SameButTwo CommitNew CommitName (F.files folder.old) (F.files folder.new) }
    ensures reads { F.reads folder.new ≡ F.reads folder.old }
    ensures cause { HasWriteCause (F.faults folder.old) (F.faults folder.new) result }
{
    folder.write_file(&FileName::CommitNew, bytes)?;
    folder.rename(&FileName::CommitNew, &FileName::Commit)?;
    Ok(())
}
