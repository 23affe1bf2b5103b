//! A folder that is a directory of the system.
ghost use Rattle.std.specs.Prelude.{◌≡◌, ◌≤◌, ◌⊎◌, None, false, IfOk, IsSome, string_bytes};
ghost use Rattle.std.specs.Fd.{file_raw_fd};
ghost use Rattle.outer_io.specs.DirFolder.{descriptor_path, path_or_dot};

mod calls;
mod names;

use crate::custody::{Custody, Hold, State};
use crate::faults::{Failed, WriteFault};
use crate::file_name::FileName;
use crate::folder::{Folder, Pages};
use crate::open_files::OpenFiles;
use crate::reason::{Faults, Reason};
use crate::unsynced::Unsynced;
pub use names::Aside;
use std::alloc::{Alloc, AllocError, Global};
use std::fs;
use std::fs::{File, Files};
use std::os::fd::AsRawFd;
use std::time::Clock;

/// A folder over a directory that exists, which nobody else writes. It tells no files, since no clause can say what
/// the system keeps. The files that were read last stay open, each until it is written, renamed or removed. A rename
/// is a barrier: what was written before it is on the disk before the name changes, and the new name when the call is
/// done.
#[derive(Drop)]
pub struct DirFolder<R: Files<File = File> + Clock> {
    rt: R,
    alloc: Global,
    /// The path of the directory: by its descriptor where it is open, so that it is the same one wherever it is moved.
    dir: String,
    /// The path of the call's file, and of a rename's second one, in memory that is taken at first.
    path: String,
    other: String,
    custody: Custody,
    aside: Option<Aside>,
    opened: OpenFiles<File>,
    unsynced: Unsynced<File>,
    reads: u64,
    faults: Faults,
}

/// The length of the longest name of a file.
const LONGEST_NAME: usize = 42;

impl<R: Files<File = File> + Clock + Alloc + Clone + Drop> DirFolder<R> {
    ghost use Rattle.outer_io.specs.DirFolder.{directory_path, path_or_dot, directory_faults, directory_reads};
    ghost use Rattle.outer_io.specs.DirFolder.{IsReached};

    /// A folder over this directory. An empty text is the directory that the program runs in. The memory for paths
    /// and for the two lists of files is taken here.
    pub fn new(rt: R, alloc: Global, dir: &str) -> Result<DirFolder<R>, AllocError>
        ensures dir { IfOk result (λ f. directory_path f ≡ path_or_dot dir.now) }
        ensures faults { IfOk result (λ f. directory_faults f ≡ 0) }
        ensures reads { IfOk result (λ f. directory_reads f ≡ 0) }
    {
        DirFolder::with(rt, alloc, or_dot(dir), Custody::unopened())
    }

    /// A folder over this directory.
    fn with(rt: R, alloc: Global, dir: &str, custody: Custody) -> Result<DirFolder<R>, AllocError>
        ensures dir { IfOk result (λ f. directory_path f ≡ dir.now) }
        ensures custody { IfOk result (λ f. f.custody ≡ custody) }
        ensures faults { IfOk result (λ f. directory_faults f ≡ 0) }
        ensures reads { IfOk result (λ f. directory_reads f ≡ 0) }
    {
        let length = dir.len().saturating_add(1 + LONGEST_NAME);
        Ok(DirFolder {
            rt,
            alloc,
            dir: String::from_str(alloc, dir)?,
            path: String::with_capacity(alloc, length)?,
            other: String::with_capacity(alloc, length)?,
            custody,
            aside: None,
            opened: OpenFiles::new(alloc)?,
            unsynced: Unsynced::new(alloc)?,
            reads: 0,
            faults: Faults::new(),
        })
    }

    /// A folder over this directory, held in this way. Where another run holds it, it is tried again for `wait`
    /// seconds. If it can't be held each call fails, and `reason` says why. An empty text is the directory that the
    /// program runs in.
    pub fn open(
        rt: R,
        alloc: Global,
        dir: &str,
        hold: Hold,
        wait: u32,
    ) -> Result<DirFolder<R>, AllocError>
        ensures reached { IfOk result (IsReached dir.now) }
        ensures faults { IfOk result (λ f. directory_faults f ≡ 0) }
        ensures reads { IfOk result (λ f. directory_reads f ≡ 0) }
    {
        let name = or_dot(dir);
        // (the dot refuses what is no directory, and doesn't wait for a pipe)
        let itself = format!(in alloc; "{name}/.")?;
        match fs::open(&rt, itself.as_str()) {
            Ok(file) => {
                let path = path_of(&rt, alloc, name, &file)?;
                let custody = Custody::of(&rt, file, hold, wait);
                let mut folder = DirFolder::with(rt, alloc, path.as_str(), custody)?;
                folder.keep_commit();
                Ok(folder)
            }
            Err(e) => DirFolder::with(rt, alloc, name, Custody::lost(Reason::NoDirectory(e))),
        }
    }

    /// Whether a call has changed a file, or tried to.
    pub fn is_changed(&self) -> bool {
        match self.custody.state {
            State::Changing => true,
            State::Alone | State::Shared | State::Lost(_) => false,
        }
    }

    /// Where the files were put that no commit listed, if there were some.
    pub fn aside(&self) -> Option<Aside> {
        self.aside
    }

    /// Why the last call that failed did.
    pub fn reason(&self) -> Option<Reason>
        ensures { 1 ≤ directory_faults self.now → IsSome result }
    {
        self.faults.last()
    }
}

impl<R: Files<File = File> + Clock + Alloc + Clone + Drop> Pages for DirFolder<R> {
    ghost use Rattle.outer_io.specs.DirFolder.{directory_faults, directory_reads};

    ghost told = { false };

    ghost files = { λ _ _. None };

    ghost faults = { directory_faults };

    ghost reads = { directory_reads };

    fn size(&mut self, n: &FileName) -> Result<Option<u64>, Failed> {
        match self.length_of(n) {
            Ok(length) => Ok(length),
            Err(reason) => Err(self.faults.raise(reason)),
        }
    }

    fn read_at(&mut self, n: &FileName, at: u64, buf: &mut [u8]) -> Result<usize, Failed> {
        self.reads = self.reads.saturating_add(1);
        match self.bytes_at(n, at, buf) {
            Ok(count) => Ok(count),
            Err(reason) => Err(self.faults.raise(reason)),
        }
    }
}

impl<R: Files<File = File> + Clock + Alloc + Clone + Drop> Folder for DirFolder<R> {
    /// A file that is there is cut to nothing before it is written.
    fn write_file(&mut self, n: &FileName, b: &[u8]) -> Result<(), WriteFault> {
        match self.write_whole(n, b) {
            Ok(()) => Ok(()),
            Err(reason) => Err(self.faults.raise(reason).into()),
        }
    }

    fn append(&mut self, n: &FileName, b: &[u8]) -> Result<(), WriteFault> {
        match self.write_behind(n, b) {
            Ok(()) => Ok(()),
            Err(reason) => Err(self.faults.raise(reason).into()),
        }
    }

    /// A file that isn't there is a fault, as the system has it.
    fn rename(&mut self, from: &FileName, to: &FileName) -> Result<(), Failed> {
        match self.give_name(from, to) {
            Ok(()) => Ok(()),
            Err(reason) => Err(self.faults.raise(reason)),
        }
    }

    fn remove(&mut self, n: &FileName) -> Result<(), Failed> {
        match self.remove_if_there(n) {
            Ok(()) => Ok(()),
            Err(reason) => Err(self.faults.raise(reason)),
        }
    }
}

/// The path of an open directory: by its descriptor where the system has one, else by its name.
fn path_of<R: Files>(rt: &R, alloc: Global, name: &str, file: &File) -> Result<String, AllocError>
    ensures { IfOk result (λ path.
        (string_bytes path ≡ descriptor_path (file_raw_fd file.now)) ⊎ (string_bytes path ≡ name.now)) }
{
    let by_number = format!(in alloc; "/proc/self/fd/{}", file.as_raw_fd())?;
    match fs::metadata(rt, by_number.as_str()) {
        Ok(there) if there.is_dir() => Ok(by_number),
        _ => String::from_str(alloc, name),
    }
}

/// The path, where an empty one is the directory that the program runs in.
fn or_dot(dir: &str) -> &str
    ensures { result.now ≡ path_or_dot dir.now }
{
    if dir.is_empty() { "." } else { dir }
}
