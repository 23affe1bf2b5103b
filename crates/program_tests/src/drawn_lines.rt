//! Lines of scripts that are drawn.

use crate::draws::Draws;
use std::test::Fail;

/// Lines on two dimensions, each as likely as the others. Each A, B, C and D stands for a digit that is drawn.
const PATTERNS: [&[u8]; 24] = [
    b"add A -B",
    b"add A -B",
    b"add A -B",
    b"add A -B",
    b"add A -B",
    b"add A -B",
    b"add A -B",
    b"add A B C D A -D",
    b"delete AB",
    b"delete A",
    b"delete box A -B A -B",
    b"box A -B 9 C",
    b"box @sA 0 -9 9 9",
    b"nearest A B -C",
    b"nearest @sA 7 B -C",
    b"flush",
    b"merge",
    b"merge begin A 0 B 1",
    b"merge end",
    b"snapshot sA",
    b"release sA",
    b"commit",
    b"reopen",
    b"flush",
];

const DIGITS: [u8; 10] = *b"0123456789";

impl Draws {
    fn digit(&mut self) -> u8 {
        DIGITS[self.below(10) as usize]
    }

    fn pattern(&mut self) -> &'static [u8] {
        PATTERNS[self.below(24) as usize]
    }

    /// Puts a line behind a script.
    pub fn put_line(&mut self, script: &mut Vec<u8>) -> Result<(), Fail> {
        let digits = [self.digit(), self.digit(), self.digit(), self.digit()];
        for byte in self.pattern() {
            script.push(drawn(digits, *byte))?;
        }
        script.push(b'\n')?;
        Ok(())
    }
}

/// What a byte of a pattern stands for.
fn drawn(digits: [u8; 4], byte: u8) -> u8 {
    match byte {
        b'A' => digits[0],
        b'B' => digits[1],
        b'C' => digits[2],
        b'D' => digits[3],
        other => other,
    }
}
