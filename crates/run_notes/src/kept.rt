//! What was read of the input, so that a note can show the line that it speaks of.

use std::alloc::Global;

/// The bytes that were read, and the line that was gone to last.
#[derive(Drop)]
pub struct Kept {
    bytes: Vec<u8>,
    /// Of what was read before only the last line is kept: all others are answered.
    slides: bool,
    /// What came isn't all there.
    is_cut: bool,
    /// Where a line begins, and its number, counted from 1.
    at: usize,
    number: u64,
    /// The dimensions of the first `create` among the lines before that one, 0 where there is none.
    created: usize,
}

/// How many bytes are kept at most.
const MOST_KEPT: usize = 67_108_864;

impl Kept {
    pub fn new(alloc: Global, slides: bool) -> Kept {
        Kept {
            bytes: Vec::new(alloc),
            slides,
            is_cut: false,
            at: 0,
            number: 1,
            created: 0,
        }
    }

    /// Keeps a piece of the input.
    pub fn add(&mut self, piece: &[u8]) {
        if self.slides {
            self.slide();
        }
        let room = MOST_KEPT.saturating_sub(self.bytes.len());
        self.is_cut = self.is_cut
            || piece.len() > room
            || self.bytes.extend_from_slice(piece).is_err();
    }

    /// All that was read, where it is all there.
    pub fn whole(&self) -> Option<&[u8]> {
        if self.is_cut {
            None
        } else {
            Some(self.bytes.as_slice())
        }
    }

    /// The dimensions that a `create` before the line that was gone to asks for, 0 where there is none.
    pub fn created(&self) -> usize {
        self.created
    }

    /// Goes to the line of this number, as far as there are lines. Numbers ascend from call to call.
    pub fn go_to(&mut self, number: u64) {
        for _ in self.number..number {
            if self.pass().is_none() {
                break;
            }
        }
    }

    /// The line of this number, where it was gone to and is there.
    pub fn line(&self, number: u64) -> Option<&[u8]> {
        if self.number != number {
            return None;
        }
        let rest = self.bytes.get(self.at..)?;
        match rest.iter().position(|b| *b == b'\n') {
            Some(len) => rest.get(..len),
            None if self.is_cut => None,
            None => Some(rest),
        }
    }

    /// Goes to the next line.
    fn pass(&mut self) -> Option<()> {
        let rest = self.bytes.get(self.at..)?;
        let len = rest.iter().position(|b| *b == b'\n')?;
        if self.created == 0 {
            self.created = created_by(rest.get(..len)?);
        }
        self.at = self.at.saturating_add(len).saturating_add(1);
        self.number = self.number.saturating_add(1);
        Some(())
    }

    /// Lets all but the last line go.
    fn slide(&mut self) {
        for _ in 0..self.bytes.len() {
            if self.pass().is_none() {
                break;
            }
        }
        let at = self.at.min(self.bytes.len());
        self.bytes.drain(..at);
        self.at = 0;
    }
}

/// The dimensions of a line `create`, 0 where it is none.
fn created_by(line: &[u8]) -> usize {
    let Some(rest) = line.strip_prefix(b"create ") else {
        return 0;
    };
    match rest {
        [digit @ b'1'..=b'8'] | [digit @ b'1'..=b'8', b' ' | b'\r', ..] => usize::from(
            *digit - b'0',
        ),
        _ => 0,
    }
}
