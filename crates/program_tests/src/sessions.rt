//! Sessions: the rows of `run` over sources that give few bytes at a time, an answer before the next line, and what a
//! fault of the source leaves.

ghost use Rattle.std.specs.Prelude.{[], false};
ghost use Rattle.outer_io.specs.MemSink.{sink_faults};

use crate::asserts::same;
use crate::fixtures::{empty_folder, words_of};
use crate::rows::ROWS;
use crate::runs::{check_answers, check_said, run_from};
use bkd_build::OpenGate;
use bkd_top::run;
use outer_io::{Failed, FileName, MemSink, Sink, Source};
use std::alloc::Global;
use std::marker::Sync;
use std::process::Abort;
use std::sync::atomic::{AtomicU64, Ordering};
use std::test::Fail;
use std::thread::Threads;

/// The words of a session.
const SESSION: [&str; 2] = [".", "session"];

/// How many bytes a call gives at most.
const PIECES: [usize; 4] = [1, 2, 7, 65_536];

/// A source that gives so many bytes at a time.
#[derive(Drop)]
struct Pieces<'a> {
    left: &'a [u8],
    most: usize,
}

impl Source for Pieces<'_> {
    ghost told = { false };

    ghost left = { λ _. [] };

    ghost faults = { λ _. 0 };

    fn read(&mut self, buf: &mut [u8]) -> Result<usize, Failed> {
        let count = self.most.min(buf.len()).min(self.left.len());
        let (given, left) = self.left.split_at(count);
        buf[..count].copy_from_slice(given);
        self.left = left;
        Ok(count)
    }
}

/// A script answers so in a session, whatever its source gives at a time.
fn check_script<R: Threads + Sync + Abort>(
    rt: &R,
    alloc: Global,
    script: &str,
    answers: &str,
    refused: u64,
) -> Result<(), Fail> {
    for most in PIECES {
        let mut input = Pieces {
            left: script.as_bytes(),
            most,
        };
        let mut folder = empty_folder(alloc);
        let (status, output) = run_from(rt, alloc, &SESSION, &mut input, &mut folder)?;
        check_answers(
            rt,
            alloc,
            script,
            (&status, &output),
            answers.as_bytes(),
            refused,
        )?;
    }
    Ok(())
}

#[test]
fn each_row_of_run(rt: HostRuntime) -> Result<(), Fail> {
    for row in ROWS {
        check_script(&rt, rt.alloc(), row.script, row.answers, row.refused)?;
    }
    Ok(())
}

/// Scripts whose last line has no byte 10, or that have empty lines, with their answers.
const ENDS: [(&str, &str); 4] = [
    ("create 2\nadd 1 2", "ok\ndoc 0\n"),
    ("create 1\r\n\r\nadd 5\r", "ok\ndoc 0\n"),
    ("\n\n\ncreate 1", "ok\n"),
    ("", ""),
];

#[test]
fn ends_of_lines(rt: HostRuntime) -> Result<(), Fail> {
    for (script, answers) in ENDS {
        check_script(&rt, rt.alloc(), script, answers, 0)?;
    }
    Ok(())
}

/// A line that is too long is one line, told when its end has come, and the lines behind it have their own numbers.
#[test]
fn a_line_that_is_too_long(rt: HostRuntime) -> Result<(), Fail> {
    let alloc = rt.alloc();
    let mut script = b"create 1\nadd ".to_vec(alloc)?;
    script.resize(script.len() + 5_000_000, b'7')?;
    script.extend_from_slice(b"\nadd x\nadd 5\n")?;
    let mut input = Pieces {
        left: script.as_slice(),
        most: 65_536,
    };
    let mut folder = empty_folder(alloc);
    let (status, output) = run_from(&rt, alloc, &SESSION, &mut input, &mut folder)?;
    check_answers(
        &rt,
        alloc,
        "a line that is too long",
        (&status, &output),
        b"ok\nline 2: too long\nline 3: bad number in word 2\ndoc 0\n",
        2,
    )
}

/// A sink that counts the calls on it.
#[derive(Drop)]
struct Counted<'a> {
    sink: MemSink,
    calls: &'a AtomicU64,
}

impl Sink for Counted<'_> {
    ghost told = { false };

    ghost written = { λ _. [] };

    ghost faults = { λ k. sink_faults k.sink };

    fn write(&mut self, bytes: &[u8]) -> Result<usize, Failed> {
        self.calls.fetch_add(1, Ordering::SeqCst);
        self.sink.write(bytes)
    }
}

/// A source that gives a line a call, and fails unless all lines before it are answered.
#[derive(Drop)]
struct Waiting<'a> {
    lines: &'a [&'static str],
    given: u64,
    answers: &'a AtomicU64,
    faults: u64,
}

impl Source for Waiting<'_> {
    ghost told = { false };

    ghost left = { λ _. [] };

    ghost faults = { λ s. s.faults };

    fn read(&mut self, buf: &mut [u8]) -> Result<usize, Failed> {
        if self.answers.load(Ordering::SeqCst) != self.given {
            self.faults = self.faults.saturating_add(1);
            return Err(Failed);
        }
        let [line, others @ ..] = self.lines else {
            return Ok(0);
        };
        let count = line.len().min(buf.len());
        buf[..count].copy_from_slice(&line.as_bytes()[..count]);
        self.lines = others;
        self.given = self.given.saturating_add(1);
        Ok(count)
    }
}

/// Lines of which each has an answer.
const ANSWERED: [&str; 5] = [
    "create 2\n",
    "add 1 2\n",
    "nonsense\n",
    "box 0 0 5 5\n",
    "commit\n",
];

/// The whole answer to a line is out before the source is asked again.
#[test]
fn each_answer_comes_before_the_next_line(rt: HostRuntime) -> Result<(), Fail> {
    let alloc = rt.alloc();
    let answers = AtomicU64::new(0);
    let mut input = Waiting {
        lines: &ANSWERED,
        given: 0,
        answers: &answers,
        faults: 0,
    };
    let mut output = Counted {
        sink: MemSink::new(alloc, 1_000, Vec::new(alloc))?,
        calls: &answers,
    };
    let words = words_of(alloc, &SESSION)?;
    let mut folder = empty_folder(alloc);
    let status = run(
        &rt,
        alloc,
        words.as_slice(),
        &mut input,
        &mut folder,
        &mut output,
        &OpenGate,
    );
    check_said(&rt, alloc, &status, "refused 1\n")?;
    same(
        &rt,
        std::str::from_utf8(output.sink.bytes()),
        Ok("ok\ndoc 0\nline 3: unknown command\nhits 1\n0\nok\n"),
    );
    Ok(())
}

/// A source that gives a piece a call, and fails after so many calls.
#[derive(Drop)]
struct Failing<'a> {
    pieces: &'a [&'static str],
    calls: u64,
    faults: u64,
}

impl Source for Failing<'_> {
    ghost told = { false };

    ghost left = { λ _. [] };

    ghost faults = { λ s. s.faults };

    fn read(&mut self, buf: &mut [u8]) -> Result<usize, Failed> {
        if self.calls == 0 {
            self.faults = self.faults.saturating_add(1);
            return Err(Failed);
        }
        self.calls -= 1;
        let [piece, others @ ..] = self.pieces else {
            return Ok(0);
        };
        let count = piece.len().min(buf.len());
        buf[..count].copy_from_slice(&piece.as_bytes()[..count]);
        self.pieces = others;
        Ok(count)
    }
}

/// The call of the source that fails, what went out before, and whether an index is stored then.
const FAULTS: [(u64, &str, bool); 3] = [
    (0, "", false),
    (1, "ok\ndoc 0\n", false),
    (2, "ok\ndoc 0\ndoc 1\nok\n", true),
];

/// A fault of the source leaves what the lines before it committed, and commits nothing.
#[test]
fn a_source_that_fails(rt: HostRuntime) -> Result<(), Fail> {
    let alloc = rt.alloc();
    for (call, answers, is_stored) in FAULTS {
        let mut input = Failing {
            pieces: &["create 1\nadd 5\nadd ", "7\ncommit\nadd 9", "\n"],
            calls: call,
            faults: 0,
        };
        let mut folder = empty_folder(alloc);
        let (status, output) = run_from(&rt, alloc, &SESSION, &mut input, &mut folder)?;
        check_said(&rt, alloc, &status, "source fault\n")?;
        same(&rt, std::str::from_utf8(output.bytes()), Ok(answers));
        assert_eq!(rt; folder.get(&FileName::Commit).is_some(), is_stored);
    }
    Ok(())
}
