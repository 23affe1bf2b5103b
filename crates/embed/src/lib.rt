//! How another crate embeds the index: a session over a folder, requests as lines of text, replies as text. The example
//! keeps places on a map, and asks which of them is the nearest.
#![tactic(auto)]

use bkd_build::OpenGate;
use index_core::{Applied, Session, Settings};
use outer_io::Folder;
use page_cache::PageFault;
use script_lang::{LineFault, read_line};
use std::alloc::Global;
use std::marker::Sync;
use std::thread::Threads;

/// How many pages the session keeps, and in how many levels its builds run in two threads.
const SETTINGS: Settings = Settings {
    cache_pages: 1024,
    forks: 1,
};

/// How many entries a leaf holds at most.
const LEAF: u16 = 333;

/// Why places can't be kept or found.
#[derive(Drop)]
pub enum PlacesFault {
    /// A line can't be read: it is none of the language's requests.
    Line(LineFault),
    /// The index can't do a request, and is as it was: the folder failed, a file is damaged, or memory is wanting.
    Index(PageFault),
    /// The index has refused a request, and is as it was.
    Refused,
}

impl From<LineFault> for PlacesFault {
    fn from(fault: LineFault) -> PlacesFault {
        PlacesFault::Line(fault)
    }
}

impl From<PageFault> for PlacesFault {
    fn from(fault: PageFault) -> PlacesFault {
        PlacesFault::Index(fault)
    }
}

/// Places of two coordinates in a folder that holds no index yet.
#[derive(Drop)]
pub struct Places {
    session: Session<2>,
}

impl Places {
    /// An index without places. No folder is touched before a line is asked.
    pub fn new(alloc: Global) -> Result<Places, PlacesFault> {
        let Ok(session) = Session::create(alloc, LEAF, SETTINGS) else {
            return Err(PlacesFault::Index(PageFault::Memory));
        };
        Ok(Places { session })
    }

    /// Does what a line of a script asks, for example `add 13404954 52520008`, `nearest 1 12000000 42000000` or
    /// `commit`, and appends the reply to `reply`. What isn't committed is gone with the session.
    pub fn ask<R: Threads + Sync, F: Folder>(
        &mut self,
        rt: &R,
        alloc: Global,
        folder: &mut F,
        line: &str,
        reply: &mut Vec<u8>,
    ) -> Result<(), PlacesFault> {
        let command = read_line(alloc, line.as_bytes())?;
        match self
            .session
            .apply(rt, alloc, folder, &command, reply, &OpenGate)?
        {
            Applied::Done => Ok(()),
            Applied::Refused(_) => Err(PlacesFault::Refused),
        }
    }
}
