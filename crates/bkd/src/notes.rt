//! What the program tells of its status: lines on standard error before the status's own.

use bkd_top::Status;
use outer_io::{Aside, Reason};
use run_notes::usage_note;
use std::alloc::{AllocError, Global};
use std::io::{Lock, Read};

/// What is told of a status, to whom it may concern.
#[derive(Drop)]
pub(crate) enum Note {
    /// To all.
    Always(Result<String, AllocError>),
    /// To those that want notes.
    Wanted(Result<String, AllocError>),
}

/// What there is to tell of a status.
pub(crate) fn status_note(
    rt: &HostRuntime,
    words: &[String],
    reason: Option<Reason>,
    status: &Status,
) -> Option<Note> {
    let alloc = rt.alloc();
    match status {
        Status::Usage => Some(Note::Wanted(usage_note(alloc, words))),
        Status::FolderFault => match reason {
            Some(reason @ (Reason::Call { .. } | Reason::Names(_))) => {
                Some(Note::Wanted(reason_note(alloc, &reason)))
            }
            // that the directory can't be held is told to all, since something else is to be done then
            Some(reason) => Some(Note::Always(reason_note(alloc, &reason))),
            None => None,
        },
        Status::SourceFault => Some(Note::Wanted(input_note(rt))),
        Status::SinkFault => Some(Note::Wanted(String::from_str(
            alloc,
            "bkd: the output takes no more: it was closed, or its disk is full; the last commit stands\n",
        ))),
        Status::TooLarge => Some(Note::Wanted(String::from_str(
            alloc,
            "bkd: an input has 536,870,912 bytes at most: cut it in two\n",
        ))),
        Status::Damaged(_) => Some(Note::Wanted(String::from_str(
            alloc,
            "bkd: nothing was changed; copy the folder as it is, and see docs/DAMAGE.md\n",
        ))),
        _ => None,
    }
}

/// Why the folder failed.
fn reason_note(alloc: Global, reason: &Reason) -> Result<String, AllocError> {
    match reason.error() {
        Some(error) => {
            let said = said(format!(in alloc; "{error}")?, alloc)?;
            format!(in alloc; "bkd: {reason}: {said}\n")
        }
        None => format!(in alloc; "bkd: {reason}\n"),
    }
}

/// Where files were put that no commit lists, before what else there is to tell.
pub(crate) fn aside_note(
    alloc: Global,
    aside: &Aside,
    note: Option<String>,
) -> Result<String, AllocError> {
    let mut told = format!(in alloc; "bkd: {aside}\n")?;
    if let Some(note) = note {
        told.push_str(note.as_str())?;
    }
    Ok(told)
}

/// What the system said, without its number: that says no more than the text, which begins a sentence where it comes
/// from.
fn said(error: String, alloc: Global) -> Result<String, AllocError> {
    let mut said = match error.as_str().split_once(" (os error") {
        Some((said, _)) => String::from_str(alloc, said)?,
        None => error,
    };
    said.make_ascii_lowercase();
    Ok(said)
}

/// Why the input failed, as far as it fails again.
fn input_note(rt: &HostRuntime) -> Result<String, AllocError> {
    let alloc = rt.alloc();
    match rt.stdin().lock().read(&mut [0; 1]) {
        Err(e) => {
            let said = said(format!(in alloc; "{e}")?, alloc)?;
            format!(in alloc; "bkd: reading the input: {said}\n")
        }
        Ok(_) => format!(in alloc; "bkd: reading the input failed\n"),
    }
}
