//! Sources and sinks over the readers and writers of std.
ghost use Rattle.std.specs.Prelude.{◌≡◌, ◌≤◌, ◌<◌, [], false, length, IfOk};
ghost use Rattle.std.specs.Io.{ReadsAtMost, WritesAtMost};
ghost use Rattle.std.specs.Io.KnownBytes.{ReadConsumes};
ghost use Rattle.outer_io.specs.Faults.{HasCause};
ghost use Rattle.outer_io.specs.Flushed.{WritesFlushed};

use crate::faults::{Failed, FaultCount};
use crate::sink::Sink;
use crate::source::Source;
use std::io;
use std::io::{ErrorKind, Read, Write};

/// A source over a reader, as the standard input. It tells no bytes, since no clause can say what the system gives.
#[derive(Drop)]
pub struct StdSource<R> {
    input: R,
    faults: FaultCount,
}

impl<R> StdSource<R> {
    ghost use Rattle.outer_io.specs.StdStreams.{input_faults, input_of};

    /// A source over this reader. Takes no memory.
    pub fn new(input: R) -> StdSource<R>
        ensures faults { input_faults result ≡ 0 }
        ensures input { input_of result ≡ input }
    {
        StdSource {
            input,
            faults: FaultCount::new(),
        }
    }
}

impl<R: Read> Source for StdSource<R> {
    ghost use Rattle.outer_io.specs.StdStreams.{input_faults, input_of};

    ghost told = { false };

    ghost left = { λ _. [] };

    ghost faults = { input_faults };

    /// Gives what the reader gave: where it knows its bytes, just these.
    fn read(&mut self, buf: &mut [u8]) -> Result<usize, Failed>
        ensures fits { IfOk result (λ n. n ≤ length buf.new) }
        ensures cause { HasCause (input_faults self.old) (input_faults self.new) result }
        ensures given { ReadConsumes (R.remaining (input_of self.old))
            (R.remaining (input_of self.new)) result buf.new }
    {
        match read_again(&mut self.input, buf) {
            Ok(count) => Ok(count),
            Err(_) => Err(self.faults.raise()),
        }
    }
}

/// A sink over a writer, as the standard output. It tells no bytes, since no clause can say what the system takes.
/// What a call took has left a buffer that the writer may have.
#[derive(Drop)]
pub struct StdSink<W> {
    output: W,
    faults: FaultCount,
}

impl<W> StdSink<W> {
    ghost use Rattle.outer_io.specs.StdStreams.{output_faults, output_of};

    /// A sink over this writer. Takes no memory.
    pub fn new(output: W) -> StdSink<W>
        ensures faults { output_faults result ≡ 0 }
        ensures output { output_of result ≡ output }
    {
        StdSink {
            output,
            faults: FaultCount::new(),
        }
    }
}

impl<W: Write> Sink for StdSink<W> {
    ghost use Rattle.outer_io.specs.StdStreams.{output_faults, output_of};

    ghost told = { false };

    ghost written = { λ _. [] };

    ghost faults = { output_faults };

    /// Hands on to the writer: one that knows its bytes has those that were taken. A writer that takes nothing of a
    /// piece that isn't empty has failed.
    fn write(&mut self, b: &[u8]) -> Result<usize, Failed>
        ensures fits { IfOk result (λ n. n ≤ length b.now) }
        ensures some { IfOk result (λ n. 0 < length b.now → 0 < n) }
        ensures cause { HasCause (output_faults self.old) (output_faults self.new) result }
        ensures handed { WritesFlushed (W.contents (output_of self.old))
            (W.contents (output_of self.new)) result b.now }
    {
        match write_again(&mut self.output, b) {
            Ok(count) if count > 0 || b.is_empty() => Ok(count),
            _ => Err(self.faults.raise()),
        }
    }
}

/// Reads, again where a signal cut it short.
fn read_again<R: Read>(input: &mut R, buf: &mut [u8]) -> io::Result<usize>
    ensures fits { ReadsAtMost result buf.new }
    ensures given { ReadConsumes (R.remaining input.old) (R.remaining input.new) result buf.new }
{
    'again: for _ in 0..u64::MAX {
        match input.read(buf) {
            Err(e) if e.kind() == ErrorKind::Interrupted => {}
            result => return result,
        }
    }
    Err(ErrorKind::Interrupted.into())
}

/// Writes, again where a signal cut it short, and flushes what was written.
fn write_again<W: Write>(output: &mut W, b: &[u8]) -> io::Result<usize>
    ensures fits { WritesAtMost result b.now }
    ensures handed { WritesFlushed (W.contents output.old) (W.contents output.new) result b.now }
{
    'again: for _ in 0..u64::MAX {
        match output.write(b) {
            Err(e) if e.kind() == ErrorKind::Interrupted => {}
            Err(e) => return Err(e),
            Ok(count) => {
                output.flush()?;
                return Ok(count);
            }
        }
    }
    Err(ErrorKind::Interrupted.into())
}
