//! Sources, from which bytes are read once, and the call that reads one to its end.
ghost use Rattle.std.specs.Prelude.{◌≡◌, ℕ, ◌≤◌, ◌<◌, Bool, List, [], ◌++◌, length, take, vec_len, IsTrue, IfOk, OnOk};
ghost use Rattle.std.specs.Prelude.{OnErr, IsErr, IsErrOf};
ghost use Rattle.outer_io.specs.Faults.{HasCause, HasReadAllCause};
ghost use Rattle.outer_io.specs.Parts.{ReadsPart};

use crate::faults::{Failed, ReadAll};
use std::alloc::Global;

/// A stream of bytes that is read once.
pub trait Source {
    /// Whether the type tells its bytes. What is said of bytes holds where it does.
    ghost told: { Bool };

    /// The bytes that are left.
    ghost left: { Self → List ℕ };

    /// How many calls failed, up to the last value of u64.
    ghost faults: { Self → ℕ };

    /// Gives the next bytes, at most as many as the buffer holds, and answers how many. They stand at the front of
    /// the buffer; what stands behind them afterwards isn't said. 0 for a buffer that isn't empty is the end.
    fn read(&mut self, buf: &mut [u8]) -> Result<usize, Failed>
        ensures fits { IfOk result (λ n. n ≤ length buf.new) }
        ensures bytes { IsTrue told → IfOk result (λ n. left self.old ≡ take n buf.new ++ left self.new) }
        ensures end { IsTrue told → IfOk result (λ n. n ≡ 0 → 0 < length buf.new → left self.new ≡ []) }
        ensures kept { IsTrue told → OnErr result (left self.new ≡ left self.old) }
        ensures cause { HasCause (faults self.old) (faults self.new) result };
}

/// How many bytes a call on a source is asked for: what a pipe holds.
const PIECE: usize = 65_536;

/// Reads a source to its end. `TooLarge` is answered just where more than `limit` bytes are left and no call fails.
/// After an Err some of the bytes were taken.
pub fn read_all<S: Source>(alloc: Global, s: &mut S, limit: u64) -> Result<Vec<u8>, ReadAll>
    ensures whole { IsTrue S.told → IfOk result (λ v. v.items ≡ S.left s.old) }
    ensures end { IsTrue S.told → OnOk result (S.left s.new ≡ []) }
    ensures fits { IfOk result (λ v. vec_len v ≤ limit) }
    ensures too_large { IsTrue S.told → IsErrOf result ReadAll.TooLarge → limit < length (S.left s.old) }
    ensures limited { IsTrue S.told → limit < length (S.left s.old) → IsErr result }
    ensures taken { IsTrue S.told → ReadsPart (S.left s.old) (S.left s.new) }
    ensures cause { HasReadAllCause (S.faults s.old) (S.faults s.new) result }
{
    let mut all = Vec::new(alloc);
    let mut piece = [0; PIECE];
    'pieces: loop {
        let count = s.read(&mut piece)?;
        if count == 0 {
            return Ok(all);
        }
        if count as u64 > limit - all.len() as u64 {
            return Err(ReadAll::TooLarge);
        }
        all.extend_from_slice(&piece[..count])?;
    }
}
