//! The reader that gives the lines of a source, and holds one piece of it at most.

ghost use Rattle.std.specs.List.{position_or_len};
ghost use Rattle.std.specs.Prelude.{◌≡◌, ◌==◌, ◌≤◌, ◌<◌, ◌+◌, ◌^◌, ◌++◌, ℕ, List, length, take, vec_len, IfOk, OnOk};
ghost use Rattle.std.specs.Prelude.{IsTrue, true, false};

use crate::faults::ReadFault;
use outer_io::{Failed, Source};
use std::alloc::{AllocError, Global};

/// How many bytes the source is asked for: what a pipe holds.
const PIECE: usize = 65_536;

/// How many bytes of a line are kept: a line may have 4,194,304 and a byte 13, and one more shows that it has too many.
const KEPT: usize = 4_194_306;

/// Gives the lines of a source, one after the other. It holds what it has read of the source and not given yet, at most
/// 65,536 bytes.
#[derive(Drop)]
pub struct LineReader {
    piece: Vec<u8>,
    at: usize,
    end: usize,
    has_ended: bool,
    ghost begun: { at ≤ end },
    ghost within: { end ≤ vec_len piece },
    ghost size: { vec_len piece ≡ 65536 },
}

impl LineReader {
    ghost use Rattle.outer_io.specs.Faults.{HasCause};
    ghost use Rattle.line_source.specs.Faults.{HasReadCause};
    ghost use Rattle.line_source.specs.Reader.{Gives, HoldsBytes, IsUnread, KnowsEnd, TakesPart, kept_bytes, waiting};

    /// A reader that has read nothing. It takes memory for one piece.
    pub fn new(alloc: Global) -> Result<LineReader, AllocError>
        ensures { IfOk result IsUnread }
    {
        Ok(LineReader {
            piece: vec![in alloc; 0; PIECE]?,
            at: 0,
            end: 0,
            has_ended: false,
        })
    }

    /// Reads the next line into `line`, without its byte 10, in place of what that holds. False where no line is
    /// left. The source is asked for bytes only where none are held, and never again after its end.
    ///
    /// Of a line above 4,194,306 bytes the first 4,194,306 are given, which are too many for a line of a script as the
    /// whole line is;
    /// the others are read and dropped.
    pub fn next_line<S: Source>(
        &mut self,
        source: &mut S,
        line: &mut Vec<u8>,
    ) -> Result<bool, ReadFault>
        ensures gives { Gives (IsTrue S.told) self.old (S.left source.old) self.new
            (S.left source.new) line.new.items result }
        ensures ahead { length (waiting self.new) ≤ 2 ^ 16 }
        ensures kept { length line.new.items ≤ 2 ^ 22 + 2 }
        // no line is left only where the source has ended, and behind its end it is not asked again
        ensures ended { IfOk result (λ is_more. is_more ≡ false → self.new.has_ended ≡ true) }
        ensures behind { self.old.has_ended ≡ true → source.new ≡ source.old }
        ensures cause { HasReadCause (S.faults source.old) (S.faults source.new) result }
    {
        line.clear();
        let mut is_begun = false;
        'pieces: for _ in 0..u64::MAX {
            if !self.hold(source)? {
                return Ok(is_begun);
            }
            is_begun = true;
            if self.extend_line(line)? {
                return Ok(true);
            }
        }
        Err(ReadFault::Memory)
    }

    /// Reads a piece where nothing is held. False at the end of the source.
    fn hold<S: Source>(&mut self, source: &mut S) -> Result<bool, Failed>
        ensures holds { IsTrue S.told → KnowsEnd self.old (S.left source.old)
            → IfOk result (HoldsBytes self.new (waiting self.old ++ S.left source.old) (S.left source.new)) }
        ensures some { IfOk result (λ is_more. is_more ≡ true → self.new.at < self.new.end) }
        ensures ended { IfOk result (λ is_more. is_more ≡ false → self.new.has_ended ≡ true) }
        ensures behind { self.old.has_ended ≡ true → (source.new ≡ source.old) × (self.new.has_ended ≡ true) }
        ensures cause { HasCause (S.faults source.old) (S.faults source.new) result }
    {
        if self.at < self.end {
            return Ok(true);
        }
        if self.has_ended {
            return Ok(false);
        }
        let count = source.read(self.piece.as_mut_slice())?;
        self.at = 0;
        self.end = count;
        self.has_ended = count == 0;
        Ok(count > 0)
    }

    /// Takes what is held up to a byte 10 and with it, or all that is held, to the end of a line. True where a byte 10
    /// was there.
    fn extend_line(&mut self, line: &mut Vec<u8>) -> Result<bool, AllocError>
        requires some { self.old.at < self.old.end }
        requires kept { length line.old.items ≤ 4194306 }
        ensures takes { (seen : List ℕ) → line.old.items ≡ kept_bytes seen
            → IfOk result (TakesPart self.old self.new seen line.new.items) }
        ensures kept { length line.new.items ≤ 4194306 }
    {
        let held = &self.piece.as_slice()[self.at..self.end];
        let count = line_len(held);
        append(line, &held[..count])?;
        if count < held.len() {
            self.at += count + 1;
            Ok(true)
        } else {
            self.at = self.end;
            Ok(false)
        }
    }
}

/// How many bytes stand before the first byte 10.
fn line_len(bytes: &[u8]) -> usize
    ensures value { result ≡ position_or_len (λ b. b == 10) bytes.now }
    ensures bound { result ≤ length bytes.now }
{
    bytes
        .iter()
        .position(|b| *b == b'\n')
        .unwrap_or(bytes.len())
}

/// Appends to a line what is still kept of it.
fn append(line: &mut Vec<u8>, part: &[u8]) -> Result<(), AllocError>
    requires { length line.old.items ≤ 4194306 }
    ensures appended { OnOk result (line.new.items ≡ take 4194306 (line.old.items ++ part.now)) }
    ensures kept { length line.new.items ≤ 4194306 }
{
    let count = part.len().min(KEPT - line.len());
    line.extend_from_slice(&part[..count])
}
