//! Who looks at a run: the notes that are told while it goes, and the line that says how far it is.

use crate::asked::Asked;
use crate::files::{input_size, look_into};
use crate::progress::{Meter, is_looked_at, put};
use outer_io::FileName;
use run_notes::{Kept, Scene, line_note, table_note};
use std::alloc::{AllocError, Global};
use std::cell::RefCell;
use std::env;
use std::io::IsTerminal;

/// Is told what goes in and out, by all three that a run works on. What it does changes nothing of the run.
#[derive(Drop)]
pub(crate) struct Watch<'a> {
    inside: RefCell<Inside<'a>>,
}

#[derive(Drop)]
struct Inside<'a> {
    rt: &'a HostRuntime,
    asked: &'a Asked,
    kept: Kept,
    /// The dimensions that the Commit tells, 0 where none was read.
    dims: usize,
    /// How many refused lines may still be explained.
    left: u32,
    has_told_files: bool,
    meter: Option<Meter<'a>>,
    /// The output is shown on a terminal.
    is_shown: bool,
}

/// How many refused lines of a script are explained, and of a session that nobody types, so that its notes fit into a
/// pipe that nobody reads.
const MOST_NOTES: u32 = 20;

const MOST_OF_SESSION: u32 = 100;

/// How long the answer of a command that is refused as a whole can be: it names a column.
const LONGEST_REFUSAL: usize = 4_096;

/// Whether somebody wants notes: who looks at a terminal, or set BKD_NOTES to 1.
pub(crate) fn wants_notes(rt: &HostRuntime) -> bool {
    is_looked_at(rt)
        || match env::var(rt, "BKD_NOTES") {
            Ok(value) => value.as_str() == "1",
            Err(_) => false,
        }
}

impl<'a> Watch<'a> {
    /// Watches a run that is asked for so; None where nobody looks.
    pub(crate) fn new(rt: &'a HostRuntime, asked: &'a Asked) -> Option<Watch<'a>> {
        if !wants_notes(rt) {
            return None;
        }
        let meter = if is_looked_at(rt) {
            meter(rt, asked)
        } else {
            None
        };
        Some(Watch {
            inside: RefCell::new(Inside {
                rt,
                asked,
                kept: Kept::new(rt.alloc(), asked.command() == "session"),
                dims: 0,
                left: match asked.command() {
                    "session" if rt.stdin().is_terminal() => u32::MAX,
                    "session" => MOST_OF_SESSION,
                    _ => MOST_NOTES,
                },
                has_told_files: false,
                meter,
                is_shown: rt.stdout().is_terminal(),
            }),
        })
    }

    /// A piece of the input was read.
    pub(crate) fn took(&self, piece: &[u8]) {
        if let Ok(mut inside) = self.inside.try_borrow_mut() {
            inside.kept.add(piece);
            let asked = inside.asked;
            if let Some(meter) = &mut inside.meter {
                meter.input.add(piece.len());
                if asked.answers_lines() {
                    meter
                        .lines
                        .expect(piece.iter().filter(|b| **b == b'\n').count());
                }
                if asked.command() == "session" {
                    meter.rest();
                }
                meter.tick();
            }
        }
    }

    /// These bytes of a file were read.
    pub(crate) fn read(&self, name: &FileName, at: u64, bytes: &[u8]) {
        if let Ok(mut inside) = self.inside.try_borrow_mut() {
            if let (
                FileName::Commit,
                0,
                [
                    b'B',
                    b'K',
                    b'D',
                    b'P',
                    b'C',
                    b'O',
                    b'M',
                    _,
                    dims @ 1..=8,
                    ..
                ],
            ) = (name, at, bytes)
            {
                inside.dims = usize::from(*dims);
            }
            if let Some(meter) = &mut inside.meter {
                meter.read.add(bytes.len());
                meter.tick();
            }
        }
    }

    /// So many bytes of a file were written.
    pub(crate) fn wrote(&self, count: usize) {
        if let Ok(mut inside) = self.inside.try_borrow_mut()
            && let Some(meter) = &mut inside.meter
        {
            meter.written.add(count);
            meter.tick();
        }
    }

    /// An answer is to be written. What there is to say of it goes before it, so that who has read it can have that.
    pub(crate) fn answers(&self, text: &[u8]) {
        if let Ok(mut inside) = self.inside.try_borrow_mut() {
            let inside = &mut *inside;
            inside.look_at(text);
            if let Some(meter) = &mut inside.meter {
                if inside.asked.answers_lines() {
                    meter.lines.add(1);
                }
                if inside.is_shown {
                    meter.rest();
                } else {
                    meter.tick();
                }
            }
        }
    }

    /// The run has ended.
    pub(crate) fn end(&self) {
        if let Ok(mut inside) = self.inside.try_borrow_mut()
            && let Some(meter) = &mut inside.meter
        {
            meter.clear();
        }
    }
}

/// The line of a run on a terminal.
fn meter<'a>(rt: &'a HostRuntime, asked: &'a Asked) -> Option<Meter<'a>> {
    let command = asked.command();
    let files = match command {
        "check" | "batch" | "export" => look_into(rt, asked.dir()).bytes,
        _ => 0,
    };
    Meter::new(rt, command, input_size(rt), files)
}

impl Inside<'_> {
    /// Explains what an answer refuses.
    fn look_at(&mut self, text: &[u8]) {
        match self.asked.command() {
            "load" | "check" | "generate" | "export" | "info" if text.len() < LONGEST_REFUSAL => {
                let note = table_note(self.rt.alloc(), &self.kept, text);
                self.tell(note);
                if text == b"no index\n".as_slice() {
                    self.tell_of_files();
                }
            }
            "batch" => {
                for line in text.split(|b| *b == b'\n') {
                    if line.starts_with(b"line ") {
                        self.look_at_line(line);
                    }
                }
            }
            _ => {
                if text.starts_with(b"line ") {
                    self.look_at_line(text);
                }
            }
        }
    }

    /// Explains a line of an answer, if it tells that a line was refused.
    fn look_at_line(&mut self, line: &[u8]) {
        let Some((number, cause)) = refusal_of(line) else {
            return;
        };
        if self.left == 0 {
            return;
        }
        self.left -= 1;
        let note = self.note_of(number, cause);
        self.tell(note);
        if cause == "no index" {
            self.tell_of_files();
        }
        if self.left == 0 {
            let alloc = self.rt.alloc();
            self.tell(format!(in alloc;
                "bkd: line {number}: lines behind this one are not explained\n"
            ));
        }
    }

    /// What is said of a refused line.
    fn note_of(&mut self, number: u64, cause: &str) -> Result<String, AllocError> {
        let alloc = self.rt.alloc();
        self.kept.go_to(number);
        let dims = if self.dims > 0 {
            self.dims
        } else {
            self.kept.created()
        };
        let line = String::from_str(alloc, text_of(self.kept.line(number)))?;
        let scene = Scene {
            command: self.asked.command(),
            dims,
            line: line.as_str(),
        };
        line_note(alloc, &scene, number, cause)
    }

    /// Says once which files of an index are there though there is none.
    fn tell_of_files(&mut self) {
        if self.has_told_files {
            return;
        }
        self.has_told_files = true;
        let found = look_into(self.rt, self.asked.dir());
        if !found.has_commit && found.others > 0 {
            let note = found.note(self.rt.alloc());
            self.tell(note);
        }
    }

    fn tell(&mut self, note: Result<String, AllocError>) {
        if let Ok(note) = note {
            if let Some(meter) = &mut self.meter {
                meter.clear();
            }
            put(self.rt, note.as_str());
        }
    }
}

/// The text of a line; none where it isn't there, or is no text.
fn text_of(line: Option<&[u8]>) -> &str {
    match line {
        Some(bytes) => std::str::from_utf8(bytes).unwrap_or(""),
        None => "",
    }
}

/// The number of the line that an answer refuses, and why.
fn refusal_of(answer: &[u8]) -> Option<(u64, &str)> {
    let text = std::str::from_utf8(answer).ok()?;
    let (number, cause) = text.strip_prefix("line ")?.split_once(": ")?;
    Some((number.parse::<u64>().ok()?, cause.trim_end_matches('\n')))
}
