//! The files of an index's own names in a directory, and how those are put aside that no commit lists.
ghost use Rattle.std.specs.Prelude.{◌≡◌, IfOk, IfSome};
ghost use Rattle.outer_io.specs.Faults.{HasCause};
ghost use Rattle.outer_io.specs.Names.{name_text};

use super::DirFolder;
use super::calls::{set_path, sync_directory};
use crate::faults::Failed;
use crate::file_name::FileName;
use crate::reason::Reason;
use std::alloc::{Alloc, AllocError, Global};
use std::fs::{File, Files};
use std::io::ErrorKind;
use std::time::Clock;
use std::{fmt, fs, io};

/// Where a folder's files were put that no commit listed.
#[derive(Clone, Copy)]
pub struct Aside {
    /// How many files there were.
    files: usize,
    /// The number of the directory that they are in.
    number: u32,
}

/// The most directories of files put aside that there may be in a folder.
const MOST_ASIDE: u32 = 9_999;

impl<R: Files<File = File> + Clock + Alloc + Clone + Drop> DirFolder<R> {
    ghost use Rattle.outer_io.specs.DirFolder.{StaysCounted, directory_faults, directory_reads};

    /// The files in the directory that have a name of an index's, in the order of the system. Others aren't the
    /// index's.
    pub fn names(&mut self) -> Result<Vec<FileName>, Failed>
        ensures cause { HasCause (directory_faults self.old) (directory_faults self.new) result }
        ensures reads { directory_reads self.new ≡ directory_reads self.old }
    {
        match self.list() {
            Ok(names) => Ok(names),
            Err(e) => Err(self.faults.raise(Reason::Listing(e))),
        }
    }

    /// The names in the directory that are an index's.
    fn list(&self) -> io::Result<Vec<FileName>> {
        let mut names = Vec::new(self.alloc);
        for entry in fs::read_dir(&self.rt, self.dir.as_str())? {
            let entry = match entry {
                Ok(entry) => entry,
                // (what is no text is no name of an index)
                Err(e) if e.kind() == ErrorKind::InvalidFilename => continue,
                Err(e) => return Err(e),
            };
            if let Some(name) = named(self.alloc, entry.file_name())? {
                names.push(name)?;
            }
        }
        Ok(names)
    }

    /// Puts the files aside that are there without a Commit. They may be the only copy of what it listed.
    pub(super) fn put_aside(&mut self) -> Result<(), Reason>
        ensures { StaysCounted self.old self.new }
    {
        match self.move_unlisted() {
            Ok(()) => Ok(()),
            Err(e) => Err(Reason::Aside(e)),
        }
    }

    fn move_unlisted(&mut self) -> io::Result<()>
        ensures { StaysCounted self.old self.new }
    {
        if self.find(&FileName::Commit)?.is_some() {
            return Ok(());
        }
        let names = self.list()?;
        if names.is_empty() {
            return Ok(());
        }
        let (number, aside) = self.make_aside()?;
        for name in names.as_slice() {
            self.move_to(aside.as_str(), name)?;
        }
        sync_directory(&self.rt, aside.as_str())?;
        self.aside = Some(Aside {
            files: names.len(),
            number,
        });
        Ok(())
    }

    /// Makes a directory for them, and answers its number and its path.
    fn make_aside(&self) -> io::Result<(u32, String)> {
        for number in 1..=MOST_ASIDE {
            let dir = self.dir.as_str();
            let path = format!(in self.alloc; "{dir}/unlisted-{number}")?;
            match fs::create_dir(&self.rt, path.as_str()) {
                Ok(()) => return Ok((number, path)),
                Err(e) if e.kind() == ErrorKind::AlreadyExists => continue,
                Err(e) => return Err(e),
            }
        }
        Err(ErrorKind::AlreadyExists.into())
    }

    /// Moves a file to another directory.
    fn move_to(&mut self, aside: &str, name: &FileName) -> io::Result<()>
        ensures { StaysCounted self.old self.new }
    {
        self.opened.close(name);
        set_path(&mut self.path, self.dir.as_str(), name)?;
        set_path(&mut self.other, aside, name)?;
        fs::rename(&self.rt, self.path.as_str(), self.other.as_str())
    }
}

/// The file of an index that has this name.
fn named(alloc: Global, text: &str) -> Result<Option<FileName>, AllocError>
    ensures { IfOk result (λ found. IfSome found (λ name. name_text name ≡ text.now)) }
{
    let Some(name) = guess(text) else {
        return Ok(None);
    };
    // (a number may be written in other ways too, which are no names of an index)
    let spelled = format!(in alloc; "{name}")?;
    Ok(if spelled.as_str() == text {
        Some(name)
    } else {
        None
    })
}

/// The file that a name may be of.
fn guess(text: &str) -> Option<FileName> {
    match text {
        "commit.bkd" => return Some(FileName::Commit),
        "commit.new" => return Some(FileName::CommitNew),
        _ => {}
    }
    let body = text.strip_suffix(".bkd")?;
    if let Some(id) = body.strip_prefix("seg-") {
        return Some(FileName::Segment(number(id)?));
    }
    let (segment, generation) = body.strip_prefix("live-")?.split_once("-")?;
    Some(FileName::Live {
        segment: number(segment)?,
        generation: number(generation)?,
    })
}

/// The number that these digits of 16 spell.
fn number(digits: &str) -> Option<u64> {
    u64::from_str_radix(digits, 16).ok()
}

/// Where they are, and how many.
impl fmt::Display for Aside {
    fn fmt<W: fmt::Write>(&self, f: &mut fmt::Formatter<W>) -> fmt::Result {
        let number = self.number;
        match self.files {
            1 => write!(f, "a file that no commit lists is now in unlisted-{number}"),
            files => write!(
                f,
                "{files} files that no commit lists are now in unlisted-{number}"
            ),
        }
    }
}
