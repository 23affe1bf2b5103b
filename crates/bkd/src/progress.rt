//! How far a run is: one line on a terminal, which is written again at most ten times a second and is gone at the end.

use outer_io::{StdSink, write_all};
use std::alloc::{AllocError, Global};
use std::fmt;
use std::io::{IsTerminal, Lock};
use std::time::{Duration, Instant};

/// How many bytes, or lines, are done of how many, where that is known.
#[derive(Clone, Copy)]
pub(crate) struct Part {
    done: u64,
    all: u64,
}

impl Part {
    /// Nothing yet of so many; 0 where it isn't known.
    pub(crate) fn of(all: u64) -> Part {
        Part { done: 0, all }
    }

    pub(crate) fn add(&mut self, count: usize) {
        self.done = self.done.saturating_add(count as u64);
    }

    pub(crate) fn expect(&mut self, count: usize) {
        self.all = self.all.saturating_add(count as u64);
    }

    fn is_begun(self) -> bool {
        self.done > 0
    }
}

/// A part in megabytes.
#[derive(Clone, Copy)]
struct Megabytes(Part);

impl fmt::Display for Megabytes {
    fn fmt<W: fmt::Write>(&self, f: &mut fmt::Formatter<W>) -> fmt::Result {
        let Part { done, all } = self.0;
        put_megabytes(f, done)?;
        if all > 0 {
            f.write_str(" of ")?;
            put_megabytes(f, all.max(done))?;
        }
        f.write_str(" MB")
    }
}

fn put_megabytes<W: fmt::Write>(f: &mut fmt::Formatter<W>, bytes: u64) -> fmt::Result {
    let tenths = bytes / 100_000;
    let (whole, tenth) = (tenths / 10, tenths % 10);
    write!(f, "{whole}.{tenth}")
}

/// The line, and what it tells.
#[derive(Drop)]
pub(crate) struct Meter<'a> {
    rt: &'a HostRuntime,
    command: &'a str,
    /// Bytes of the input, lines of it that were answered, bytes of files that were read and written.
    pub(crate) input: Part,
    pub(crate) lines: Part,
    pub(crate) read: Part,
    pub(crate) written: Part,
    /// When there was something else to look at last, or the line was written.
    since: Instant,
    is_shown: bool,
}

/// How long nothing is shown, and how long the line then stands, in milliseconds.
const PATIENCE: u64 = 300;

const PAUSE: u64 = 100;

impl<'a> Meter<'a> {
    /// A meter of a command; None where there is no clock.
    pub(crate) fn new(
        rt: &'a HostRuntime,
        command: &'a str,
        input: u64,
        files: u64,
    ) -> Option<Meter<'a>> {
        Some(Meter {
            rt,
            command,
            input: Part::of(input),
            lines: Part::of(0),
            read: Part::of(files),
            written: Part::of(0),
            since: Instant::now(rt).ok()?,
            is_shown: false,
        })
    }

    /// Shows how far the run is, if it is time to.
    pub(crate) fn tick(&mut self) {
        let pause = Duration::from_millis(if self.is_shown { PAUSE } else { PATIENCE });
        if let Ok(now) = Instant::now(self.rt)
            && now.duration_since(self.since) >= pause
        {
            self.since = now;
            self.is_shown = true;
            if let Ok(text) = self.text(self.rt.alloc()) {
                put(self.rt, text.as_str());
            }
        }
    }

    /// Takes the line away.
    pub(crate) fn clear(&mut self) {
        if self.is_shown {
            put(self.rt, "\r\x1b[K");
            self.is_shown = false;
        }
    }

    /// Takes the line away where what comes now is shown on the terminal, or was typed there: the line waits again.
    pub(crate) fn rest(&mut self) {
        self.clear();
        if let Ok(now) = Instant::now(self.rt) {
            self.since = now;
        }
    }

    fn text(&self, alloc: Global) -> Result<String, AllocError> {
        let mut text = format!(in alloc; "\rbkd: {}", self.command)?;
        let mut before = ": ";
        let (input, read, written) = (self.input, self.read, self.written);
        if input.is_begun() && !(read.is_begun() || written.is_begun()) {
            let input = Megabytes(input);
            write!(text, "{before}input {input}")?;
            before = ", ";
        }
        let Part { done, all } = self.lines;
        if done > 0 {
            write!(text, "{before}line {done} of {all}")?;
            before = ", ";
        }
        if read.is_begun() {
            let read = Megabytes(read);
            write!(text, "{before}read {read}")?;
            before = ", ";
        }
        if written.is_begun() {
            let written = Megabytes(written);
            write!(text, "{before}written {written}")?;
        }
        text.push_str("\x1b[K")?;
        Ok(text)
    }
}

/// Writes a text to standard error; what can't be written there is no fault.
pub(crate) fn put(rt: &HostRuntime, text: &str) {
    let _ = write_all(&mut StdSink::new(rt.stderr().lock()), text.as_bytes());
}

/// Whether somebody looks at standard error.
pub(crate) fn is_looked_at(rt: &HostRuntime) -> bool {
    rt.stderr().is_terminal()
}
