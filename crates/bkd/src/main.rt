//! The program `bkd`: an index of integer points in a folder.
#![tactic(auto)]

mod asked;
mod files;
mod notes;
mod progress;
mod watch;
mod watched;

use asked::{Asked, AskedFault, LONGEST_WAIT, read_asked};
use bkd_build::OpenGate;
use bkd_top::{Status, code, run, status_line};
use clean_folder::run_clean;
use leftovers::take_away;
use notes::{Note, aside_note, status_note};
use outer_io::{Aside, DirFolder, StdSink, StdSource, write_all};
use page_cache::PageFault;
use std::alloc::{Alloc, AllocError, Global};
use std::fs::{File, Files};
use std::io::Lock;
use std::marker::Sync;
use std::process::ExitCode;
use std::thread::Threads;
use std::time::Clock;
use std::{env, io};
use watch::{Watch, wants_notes};
use watched::Watched;

/// How a run ended, and what there is to tell of it beside its status.
type Ended = (Status, Option<String>);

fn main(rt: HostRuntime) -> ExitCode {
    let (status, note) = run_words(&rt, &rt);
    let mut told = Vec::new(rt.alloc());
    if let Some(note) = note {
        told.extend_from_slice(note.as_bytes()).unwrap_or(());
    }
    // the exit status says the same as the line, so nothing is lost where standard error takes no more
    if status_line(rt.alloc(), &status, &mut told).is_ok() {
        let _ = write_all(&mut StdSink::new(rt.stderr().lock()), told.as_slice());
    }
    ExitCode::from(code(&status))
}

/// Runs the program over its arguments, its streams and its directory.
fn run_words<R: Threads + Sync>(rt: &HostRuntime, threads: &R) -> Ended {
    let alloc = rt.alloc();
    let asked = match env::args(rt) {
        Ok(words) => read_asked(alloc, words),
        Err(e) if e.kind() == io::ErrorKind::OutOfMemory => Err(AskedFault::Memory),
        Err(_) => Err(AskedFault::NotText),
    };
    let note = match asked {
        Ok(asked) => return run_asked(rt, threads, &asked),
        Err(AskedFault::Memory) => return (Status::Memory, None),
        Err(AskedFault::NotText) => format!(in alloc; "bkd: a word is not UTF-8\n"),
        Err(AskedFault::Wait) => {
            format!(in alloc;
                "bkd: --wait takes seconds, 0 to {LONGEST_WAIT}, and stands once, as in: --wait 10\n"
            )
        }
    };
    (Status::Usage, told(rt, Note::Wanted(note)))
}

/// Runs the program as it is asked to.
fn run_asked<R: Threads + Sync>(rt: &HostRuntime, threads: &R, asked: &Asked) -> Ended {
    let alloc = rt.alloc();
    let words = asked.words.as_slice();
    let Ok(mut folder) = DirFolder::open(rt, alloc, asked.dir(), asked.hold, asked.wait) else {
        return (Status::Memory, None);
    };
    let names = asked.is_clean().then(|| folder.names());
    let watch = Watch::new(rt, asked);
    let mut folder = Watched::new(folder, watch.as_ref());
    let mut input = Watched::new(StdSource::new(rt.stdin().lock()), watch.as_ref());
    let mut output = Watched::new(StdSink::new(rt.stdout().lock()), watch.as_ref());
    let status = match names {
        Some(Ok(names)) => run_clean(alloc, names.as_slice(), &mut folder, &mut output),
        Some(Err(_)) => Status::FolderFault,
        None => run(
            threads,
            alloc,
            words,
            &mut input,
            &mut folder,
            &mut output,
            &OpenGate,
        ),
    };
    if let Some(watch) = &watch {
        watch.end();
    }
    let mut folder = folder.into_inner();
    let reason = folder.reason();
    let aside = folder.aside();
    if folder.is_changed() {
        // what is left after a fault here the next run takes away
        let _ = tidy(alloc, &mut folder);
    }
    let note = match status_note(rt, words, reason, &status) {
        Some(note) => told(rt, note),
        None => None,
    };
    (status, with_aside(rt, aside, note))
}

/// A note, behind one that says where files were put aside, if some were.
fn with_aside(rt: &HostRuntime, aside: Option<Aside>, note: Option<String>) -> Option<String> {
    match aside {
        Some(aside) => told(rt, Note::Wanted(aside_note(rt.alloc(), &aside, note))),
        None => note,
    }
}

/// Takes away what this run and those that were stopped before it have left in a folder that this run has changed.
fn tidy<R: Files<File = File> + Clock + Alloc + Clone + Drop>(
    alloc: Global,
    folder: &mut DirFolder<R>,
) -> Result<(), PageFault> {
    let names = folder.names()?;
    take_away(alloc, folder, names.as_slice())
}

/// A note, where there is memory for it and somebody wants it.
fn told(rt: &HostRuntime, note: Note) -> Option<String> {
    match note {
        Note::Always(note) => note.ok(),
        Note::Wanted(Ok(note)) if wants_notes(rt) => Some(note),
        Note::Wanted(_) => None,
    }
}
