//! Why the last call on a directory failed.
ghost use Rattle.std.specs.Prelude.{◌≡◌, ◌≤◌, IsSome};
ghost use Rattle.outer_io.specs.Counts.{RisesByOne};

use crate::faults::{Failed, FaultCount};
use crate::file_name::FileName;
use std::{fmt, io};

/// Why a folder of the system failed.
#[derive(Clone, Copy)]
pub enum Reason {
    /// A call on a file failed.
    Call {
        call: Call,
        name: FileName,
        error: io::Error,
    },
    /// The names in the directory couldn't be brought to the disk.
    Names(io::Error),
    /// The names in the directory couldn't be read.
    Listing(io::Error),
    /// The files that no commit lists couldn't be put aside.
    Aside(io::Error),
    /// The directory can't be opened.
    NoDirectory(io::Error),
    /// The file system can't lock the directory.
    NoLock(io::Error),
    /// Another run holds the directory.
    Held,
    /// Another run has committed since the directory was opened.
    Overtaken,
}

/// What was done to a file.
#[derive(Clone, Copy)]
pub enum Call {
    Read,
    Write,
    Sync,
    Rename,
    Remove,
}

impl Call {
    /// The reason that this call on a file ended with an error.
    pub(crate) fn failed(self, name: &FileName, error: io::Error) -> Reason {
        Reason::Call {
            call: self,
            name: *name,
            error,
        }
    }
}

impl fmt::Display for Call {
    fn fmt<W: fmt::Write>(&self, f: &mut fmt::Formatter<W>) -> fmt::Result {
        f.write_str(match self {
            Call::Read => "reading",
            Call::Write => "writing",
            Call::Sync => "bringing to the disk",
            Call::Rename => "renaming",
            Call::Remove => "removing",
        })
    }
}

impl Reason {
    /// What the system said, if it was asked.
    pub fn error(&self) -> Option<io::Error> {
        match self {
            Reason::Call { error, .. } => Some(*error),
            Reason::Names(error)
            | Reason::Listing(error)
            | Reason::Aside(error)
            | Reason::NoDirectory(error)
            | Reason::NoLock(error) => Some(*error),
            Reason::Held | Reason::Overtaken => None,
        }
    }
}

/// What failed, without what the system said.
impl fmt::Display for Reason {
    fn fmt<W: fmt::Write>(&self, f: &mut fmt::Formatter<W>) -> fmt::Result {
        match self {
            Reason::Call { call, name, .. } => write!(f, "{call} {name}"),
            Reason::Names(_) => write!(f, "bringing the names in the folder to the disk"),
            Reason::Listing(_) => write!(f, "reading the names in the folder"),
            Reason::Aside(_) => write!(f, "putting aside the files that no commit lists"),
            Reason::NoDirectory(_) => write!(f, "opening the folder"),
            Reason::NoLock(_) => write!(f, "locking the folder (--no-lock works without)"),
            Reason::Held => write!(f, "another run works in the folder"),
            Reason::Overtaken => write!(f, "another run has committed meanwhile: run this again"),
        }
    }
}

/// How many calls on a directory failed, and why the last of them did.
#[derive(Drop)]
pub(crate) struct Faults {
    count: FaultCount,
    last: Option<Reason>,
    ghost known: { 1 ≤ count.raised → IsSome last },
}

impl Faults {
    pub(crate) fn new() -> Faults
        ensures { result.count.raised ≡ 0 }
    {
        Faults {
            count: FaultCount::new(),
            last: None,
        }
    }

    /// Counts a call that failed for this reason.
    pub(crate) fn raise(&mut self, reason: Reason) -> Failed
        ensures raised { RisesByOne self.old.count.raised self.new.count.raised }
        ensures later { self.old.count.raised ≤ self.new.count.raised }
    {
        self.last = Some(reason);
        self.count.raise()
    }

    /// The reason of the last call that failed.
    pub(crate) fn last(&self) -> Option<Reason>
        ensures { 1 ≤ self.now.count.raised → IsSome result }
    {
        self.last
    }
}
