//! Bytes that are there already, as a source.

ghost use Rattle.std.specs.Prelude.{true, min};

use outer_io::{Failed, Source};

/// A source over bytes that are there already. It tells them, and never fails.
#[derive(Drop)]
pub struct HeldBytes<'a> {
    /// The bytes that are left.
    pub left: &'a [u8],
}

impl Source for HeldBytes<'_> {
    ghost told = { true };

    ghost left = { λ s. s.left.now };

    ghost faults = { λ _. 0 };

    /// Gives as many bytes as are left and fit.
    fn read(&mut self, buf: &mut [u8]) -> Result<usize, Failed> {
        let count = buf.len().min(self.left.len());
        let (given, left) = self.left.split_at(count);
        buf[..count].copy_from_slice(given);
        self.left = left;
        Ok(count)
    }
}
