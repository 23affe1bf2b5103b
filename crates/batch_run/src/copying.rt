//! Copying the files of an index into memory.

ghost use Rattle.std.specs.Prelude.{◌≡◌, ◌<◌, ◌≤◌, ◌+◌, ◌*◌, ◌^◌, ◌++◌, All, take, drop};
ghost use Rattle.std.specs.Prelude.{IsTrue, IfOk, OnOk};
ghost use Rattle.outer_io.specs.Files.{bytes_of, SameBut};
ghost use Rattle.outer_io.specs.MemFolder.{folder_files};
ghost use Rattle.outer_io.specs.declared.file_name.FileName.TheVariants.{Commit as CommitName};
ghost use Rattle.page_cache.specs.Causes.{HasPageCause};
ghost use Rattle.page_cache.specs.Evidence.{NotDamaged};
ghost use Rattle.commit_list.specs.CommitFiles.{IsCommitFile};
ghost use Rattle.batch_run.specs.Copies.{IsCopied, ReadsListed, pages_in};

use crate::Memory;
use commit_list::{Commit, encode_commit};
use outer_io::{FileName, MemFolder, Pages};
use page_cache::{PAGE_LEN, PageFault, pages_of};
use std::alloc::Global;

/// A copy in memory of the files that a commit lists, with a file of that commit. Each page is read once.
pub(crate) fn copy_index<F: Pages>(
    alloc: Global,
    folder: &mut F,
    c: &Commit,
) -> Result<MemFolder, PageFault>
    ensures commit { IfOk result (λ copy. IsCommitFile (bytes_of (folder_files copy CommitName)) c.now) }
    ensures copied { IsTrue F.told
        → IfOk result (λ copy. All (IsCopied (F.files folder.old) (folder_files copy)) c.now.listed) }
    ensures files { IsTrue F.told → F.files folder.new ≡ F.files folder.old }
    ensures reads { IsTrue F.told
        → OnOk result (ReadsListed (F.files folder.old) c.now (F.reads folder.old) (F.reads folder.new)) }
    ensures cause { HasPageCause (F.faults folder.old) (F.faults folder.new) result }
    ensures undamaged { NotDamaged result }
{
    let mut copy = MemFolder::new(alloc, Vec::new(alloc));
    copy.put(FileName::Commit, commit_file(alloc, c)?)?;
    for s in c.listed() {
        copy_file(alloc, folder, FileName::Segment(s.segment), &mut copy)?;
        let live = FileName::Live {
            segment: s.segment,
            generation: s.generation,
        };
        copy_file(alloc, folder, live, &mut copy)?;
    }
    Ok(copy)
}

/// The file of a commit.
fn commit_file(alloc: Global, c: &Commit) -> Result<Vec<u8>, Memory>
    ensures { IfOk result (λ v. IsCommitFile v.items c.now) }
{
    let body = encode_commit(alloc, c)?;
    pages_of(alloc, &FileName::Commit, body.as_slice())
}

/// Copies a file. One that isn't there is copied as one without bytes.
fn copy_file<F: Pages>(
    alloc: Global,
    folder: &mut F,
    name: FileName,
    copy: &mut MemFolder,
) -> Result<(), PageFault>
    ensures copied { IsTrue F.told
        → OnOk result (bytes_of (folder_files copy.new name) ≡ bytes_of (F.files folder.old name)) }
    ensures others { SameBut name (folder_files copy.old) (folder_files copy.new) }
    ensures files { IsTrue F.told → F.files folder.new ≡ F.files folder.old }
    ensures reads { IsTrue F.told → OnOk result
        (F.reads folder.new ≤ F.reads folder.old + pages_in (bytes_of (F.files folder.old name))) }
    ensures cause { HasPageCause (F.faults folder.old) (F.faults folder.new) result }
    ensures undamaged { NotDamaged result }
{
    let bytes = read_file(alloc, folder, &name)?;
    copy.put(name, bytes)?;
    Ok(())
}

/// The bytes of a file.
fn read_file<F: Pages>(alloc: Global, folder: &mut F, name: &FileName) -> Result<Vec<u8>, PageFault>
    ensures bytes { IsTrue F.told → IfOk result (λ v. v.items ≡ bytes_of (F.files folder.old name.now)) }
    ensures files { IsTrue F.told → F.files folder.new ≡ F.files folder.old }
    ensures reads { IsTrue F.told → OnOk result
        (F.reads folder.new ≤ F.reads folder.old + pages_in (bytes_of (F.files folder.old name.now))) }
    ensures cause { HasPageCause (F.faults folder.old) (F.faults folder.new) result }
    ensures undamaged { NotDamaged result }
{
    let mut bytes = Vec::new(alloc);
    let Some(size) = folder.size(name)? else {
        return Ok(bytes);
    };
    bytes.reserve(size as usize)?;
    for page in 0..size.div_ceil(PAGE_LEN as u64) {
        append_page(folder, name, page, &mut bytes)?;
    }
    Ok(bytes)
}

/// Appends what a file has of a page.
fn append_page<F: Pages>(
    folder: &mut F,
    name: &FileName,
    page: u64,
    bytes: &mut Vec<u8>,
) -> Result<(), PageFault>
    requires { 4096 * page < 2 ^ 64 }
    ensures page { IsTrue F.told → OnOk result (bytes.new.items
        ≡ bytes.old.items ++ take 4096 (drop (4096 * page) (bytes_of (F.files folder.old name.now)))) }
    ensures files { IsTrue F.told → F.files folder.new ≡ F.files folder.old }
    ensures reads { F.reads folder.new ≤ F.reads folder.old + 1 }
    ensures cause { HasPageCause (F.faults folder.old) (F.faults folder.new) result }
    ensures undamaged { NotDamaged result }
{
    let mut part = [0; PAGE_LEN];
    let count = folder.read_at(name, PAGE_LEN as u64 * page, &mut part)?;
    bytes.extend_from_slice(&part[..count])?;
    Ok(())
}
