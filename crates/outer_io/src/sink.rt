//! Sinks, to which bytes are written once, and the call that writes all bytes of a slice to one.
ghost use Rattle.std.specs.Prelude.{◌≡◌, ℕ, ◌≤◌, ◌<◌, Bool, List, ◌++◌, length, take, IsTrue, IfOk, OnOk, OnErr};
ghost use Rattle.outer_io.specs.Faults.{HasCause};
ghost use Rattle.outer_io.specs.Parts.{WritesPart};

use crate::faults::Failed;

/// A stream of bytes that is written once.
pub trait Sink {
    /// Whether the type tells its bytes. What is said of bytes holds where it does.
    ghost told: { Bool };

    /// The bytes that went out.
    ghost written: { Self → List ℕ };

    /// How many calls failed, up to the last value of u64.
    ghost faults: { Self → ℕ };

    /// Takes a prefix of `b` and answers its length, which is at least 1 for a piece that isn't empty. After `Failed`
    /// a prefix, perhaps an empty one, went out.
    fn write(&mut self, b: &[u8]) -> Result<usize, Failed>
        ensures fits { IfOk result (λ n. n ≤ length b.now) }
        ensures some { IfOk result (λ n. 0 < length b.now → 0 < n) }
        ensures bytes { IsTrue told → IfOk result (λ n. written self.new ≡ written self.old ++ take n b.now) }
        ensures torn { IsTrue told → OnErr result (WritesPart (written self.old) (written self.new) b.now) }
        ensures cause { HasCause (faults self.old) (faults self.new) result };
}

/// Writes all of `b`. After `Failed` a prefix of it, perhaps an empty one, went out.
pub fn write_all<K: Sink>(k: &mut K, b: &[u8]) -> Result<(), Failed>
    ensures written { IsTrue K.told → OnOk result (K.written k.new ≡ K.written k.old ++ b.now) }
    ensures torn { IsTrue K.told → OnErr result (WritesPart (K.written k.old) (K.written k.new) b.now) }
    ensures cause { HasCause (K.faults k.old) (K.faults k.new) result }
{
    let mut at = 0;
    while at < b.len() {
        at += k.write(&b[at..])?;
    }
    Ok(())
}
