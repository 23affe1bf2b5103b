//! The calls of the system that a folder over a directory makes.
ghost use Rattle.std.specs.Prelude.{◌≡◌, ◌++◌, OnOk, string_bytes, codes};
ghost use Rattle.std.specs.Io.{ReadsAtMost};
ghost use Rattle.outer_io.specs.Names.{name_text};

use super::DirFolder;
use crate::custody::State;
use crate::file_bytes::{hold_same, read_fully};
use crate::file_name::FileName;
use crate::open_files::Opened;
use crate::reason::{Call, Reason};
use std::alloc::Alloc;
use std::fs::{File, Files, OpenFile, OpenOptions};
use std::io::{ErrorKind, Write};
use std::time::Clock;
use std::{fs, io};

impl<R: Files<File = File> + Clock + Alloc + Clone + Drop> DirFolder<R> {
    ghost use Rattle.outer_io.specs.DirFolder.{StaysCounted};

    /// Keeps the Commit open that is there, where the directory is shared.
    pub(super) fn keep_commit(&mut self)
        ensures { StaysCounted self.old self.new }
    {
        if let State::Shared = self.custody.state {
            match self.find(&FileName::Commit) {
                Ok(file) => self.custody.commit = file,
                Err(e) => self.custody.state = State::Lost(Call::Read.failed(&FileName::Commit, e)),
            }
        }
    }

    /// Opens a file to read it, and answers None where there is no such file.
    pub(super) fn find(&mut self, n: &FileName) -> io::Result<Option<File>>
        ensures { StaysCounted self.old self.new }
    {
        set_path(&mut self.path, self.dir.as_str(), n)?;
        match fs::open(&self.rt, self.path.as_str()) {
            Ok(file) => Ok(Some(file)),
            Err(e) if e.kind() == ErrorKind::NotFound => Ok(None),
            Err(e) => Err(e),
        }
    }

    /// Before the first call that changes a file: takes the directory alone, where it is shared, and puts aside what
    /// no commit lists, where there is none.
    fn hold_alone(&mut self) -> Result<(), Reason>
        ensures { StaysCounted self.old self.new }
    {
        let begun = match self.custody.state {
            State::Shared => self.step(),
            State::Alone => Ok(()),
            State::Changing => return Ok(()),
            State::Lost(reason) => return Err(reason),
        };
        let begun = match begun {
            Ok(()) => self.put_aside(),
            Err(reason) => Err(reason),
        };
        self.custody.state = match begun {
            Ok(()) => State::Changing,
            Err(reason) => State::Lost(reason),
        };
        begun
    }

    /// Takes a shared directory alone. The system lets go of the one lock before it gives the other, so another run
    /// may have committed between, over what this one has read.
    fn step(&mut self) -> Result<(), Reason>
        ensures { StaysCounted self.old self.new }
    {
        self.custody.take_alone(&self.rt)?;
        let failed = |e| Call::Read.failed(&FileName::Commit, e);
        let now = self.find(&FileName::Commit).map_err(failed)?;
        let same = match (&self.custody.commit, &now) {
            (None, None) => true,
            (Some(then), Some(now)) => hold_same(then, now).map_err(failed)?,
            _ => false,
        };
        if same { Ok(()) } else { Err(Reason::Overtaken) }
    }

    /// The length of a file, and None where there is no such file.
    pub(super) fn length_of(&mut self, n: &FileName) -> Result<Option<u64>, Reason>
        ensures { StaysCounted self.old self.new }
    {
        self.custody.is_held()?;
        let failed = |e| Call::Read.failed(n, e);
        set_path(&mut self.path, self.dir.as_str(), n).map_err(failed)?;
        match fs::metadata(&self.rt, self.path.as_str()) {
            Ok(metadata) => Ok(Some(metadata.len())),
            Err(e) if e.kind() == ErrorKind::NotFound => Ok(None),
            Err(e) => Err(failed(e)),
        }
    }

    /// Reads a file, which stays open. One that isn't there has no bytes.
    pub(super) fn bytes_at(
        &mut self,
        n: &FileName,
        at: u64,
        buf: &mut [u8],
    ) -> Result<usize, Reason>
        ensures bound { ReadsAtMost result buf.new }
        ensures stays { StaysCounted self.old self.new }
    {
        self.custody.is_held()?;
        let failed = |e| Call::Read.failed(n, e);
        if let Some(file) = self.opened.get(n) {
            return read_fully(file, at, buf).map_err(failed);
        }
        match self.find(n).map_err(failed)? {
            Some(file) => {
                let count = read_fully(&file, at, buf);
                self.opened.keep(*n, file);
                count.map_err(failed)
            }
            None => Ok(0),
        }
    }

    /// Makes these bytes the whole of a file.
    pub(super) fn write_whole(&mut self, n: &FileName, b: &[u8]) -> Result<(), Reason>
        ensures { StaysCounted self.old self.new }
    {
        self.hold_alone()?;
        let mut how = OpenOptions::new();
        how.write(true).create(true).truncate(true);
        self.open_to_write(&how, n)?;
        self.write_on(n, b)
    }

    /// Puts these bytes behind those of a file, by the handle that has written to it if there is one.
    pub(super) fn write_behind(&mut self, n: &FileName, b: &[u8]) -> Result<(), Reason>
        ensures { StaysCounted self.old self.new }
    {
        self.hold_alone()?;
        if self.unsynced.get(n).is_none() {
            let mut how = OpenOptions::new();
            how.append(true).create(true);
            self.open_to_write(&how, n)?;
        }
        self.write_on(n, b)
    }

    /// Opens a file in this way, to be synced at the next barrier. Where too many wait for it, the one that has
    /// waited for longest is synced now.
    fn open_to_write(&mut self, how: &OpenOptions, n: &FileName) -> Result<(), Reason>
        ensures { StaysCounted self.old self.new }
    {
        let failed = |e| Call::Write.failed(n, e);
        self.opened.close(n);
        set_path(&mut self.path, self.dir.as_str(), n).map_err(failed)?;
        let file = how.open(&self.rt, self.path.as_str()).map_err(failed)?;
        self.unsynced.remove(n);
        if self.unsynced.is_full() {
            sync_files(&self.unsynced.files()[..1])?;
            self.unsynced.drop_first();
        }
        self.unsynced.add(*n, file);
        Ok(())
    }

    /// Writes these bytes where the last call has left off.
    fn write_on(&mut self, n: &FileName, b: &[u8]) -> Result<(), Reason>
        ensures { StaysCounted self.old self.new }
    {
        match self.unsynced.get(n) {
            Some(file) => file.write_all(b).map_err(|e| Call::Write.failed(n, e)),
            None => Err(Call::Write.failed(n, ErrorKind::NotFound.into())),
        }
    }

    /// Brings all files that were written since the last barrier to the disk, and their names.
    fn sync_written(&mut self) -> Result<(), Reason>
        ensures { StaysCounted self.old self.new }
    {
        sync_files(self.unsynced.files())?;
        self.unsynced.clear();
        self.sync_names()
    }

    /// Waits until the names in the directory are on the disk, where its file system can be asked to.
    fn sync_names(&self) -> Result<(), Reason> {
        let synced = match &self.custody.dir {
            Some(dir) => dir.sync_all(),
            None => sync_directory(&self.rt, self.dir.as_str()),
        };
        match synced {
            Err(e) if e.kind() != ErrorKind::InvalidInput => Err(Reason::Names(e)),
            _ => Ok(()),
        }
    }

    /// Renames a file, behind all that was written and before all that will be.
    pub(super) fn give_name(&mut self, from: &FileName, to: &FileName) -> Result<(), Reason>
        ensures { StaysCounted self.old self.new }
    {
        self.hold_alone()?;
        let failed = |e| Call::Rename.failed(from, e);
        self.opened.close(from);
        self.opened.close(to);
        self.sync_written()?;
        set_path(&mut self.path, self.dir.as_str(), from).map_err(failed)?;
        set_path(&mut self.other, self.dir.as_str(), to).map_err(failed)?;
        fs::rename(&self.rt, self.path.as_str(), self.other.as_str()).map_err(failed)?;
        self.sync_names()
    }

    /// Takes a file away where it is there.
    pub(super) fn remove_if_there(&mut self, n: &FileName) -> Result<(), Reason>
        ensures { StaysCounted self.old self.new }
    {
        self.hold_alone()?;
        let failed = |e| Call::Remove.failed(n, e);
        self.opened.close(n);
        set_path(&mut self.path, self.dir.as_str(), n).map_err(failed)?;
        match fs::remove_file(&self.rt, self.path.as_str()) {
            Err(e) if e.kind() != ErrorKind::NotFound => Err(failed(e)),
            _ => {
                self.unsynced.remove(n);
                Ok(())
            }
        }
    }
}

/// Writes the path of a file.
pub(super) fn set_path(path: &mut String, dir: &str, n: &FileName) -> io::Result<()>
    ensures { OnOk result (string_bytes path.new ≡ dir.now ++ codes "/" ++ name_text n.now) }
{
    path.clear();
    write!(path, "{dir}/{n}")?;
    Ok(())
}

/// Waits until the bytes of these files are on the disk.
fn sync_files(files: &[Opened<File>]) -> Result<(), Reason> {
    for opened in files {
        opened
            .file
            .sync_all()
            .map_err(|e| Call::Sync.failed(&opened.name, e))?;
    }
    Ok(())
}

pub(super) fn sync_directory<R: Files<File = File>>(rt: &R, dir: &str) -> io::Result<()> {
    fs::open(rt, dir)?.sync_all()
}
