//! A source over bytes in memory, which can be told which of its calls fail.
ghost use Rattle.std.specs.Prelude.{◌≡◌, ◌≤◌, ◌<◌, ◌++◌, ◌↔◌, [], None, true, length, take, min, vec_len, IfOk, OnErr};
ghost use Rattle.std.specs.Prelude.{IsErr, IsTrue};
ghost use Rattle.outer_io.specs.Counts.{RisesByOne};
ghost use Rattle.outer_io.specs.Faults.{HasCause};
ghost use Rattle.outer_io.specs.Plan.{CallFails, plan_from, after_call};

use crate::calls::Calls;
use crate::copy::copy_front;
use crate::faults::Failed;
use crate::source::Source;

/// A source over bytes in memory. It tells its bytes, and those of its calls fail whose numbers, counted from 0, were
/// named when it was made.
#[derive(Drop)]
pub struct MemSource {
    bytes: Vec<u8>,
    at: usize,
    calls: Calls,
    ghost within: { at ≤ vec_len bytes },
}

impl MemSource {
    ghost use Rattle.outer_io.specs.MemSource.{source_left, source_plan, source_faults};

    /// A source of these bytes. Takes no memory.
    pub fn new(bytes: Vec<u8>, fail: Vec<u64>) -> MemSource
        ensures left { source_left result ≡ bytes.items }
        ensures plan { source_plan result ≡ plan_from fail.items None }
        ensures faults { source_faults result ≡ 0 }
    {
        MemSource {
            bytes,
            at: 0,
            calls: Calls::new(fail),
        }
    }
}

impl Source for MemSource {
    ghost use Rattle.outer_io.specs.MemSource.{source_left, source_plan, source_faults};

    ghost told = { true };

    ghost left = { source_left };

    ghost faults = { source_faults };

    /// Gives as many bytes as are left and fit. A failing call takes none.
    fn read(&mut self, buf: &mut [u8]) -> Result<usize, Failed>
        ensures fits { IfOk result (λ n. n ≤ length buf.new) }
        ensures bytes { IsTrue true → IfOk result (λ n. source_left self.old ≡ take n buf.new ++ source_left self.new) }
        ensures end { IsTrue true → IfOk result (λ n. n ≡ 0 → 0 < length buf.new → source_left self.new ≡ []) }
        ensures kept { IsTrue true → OnErr result (source_left self.new ≡ source_left self.old) }
        ensures cause { HasCause (source_faults self.old) (source_faults self.new) result }

        ensures exact { IsErr result ↔ CallFails (source_plan self.old) }
        ensures plan { source_plan self.new ≡ after_call (source_plan self.old) }
        ensures most { IfOk result (λ n. n ≡ min (length buf.new) (length (source_left self.old))) }
        ensures raised { OnErr result (RisesByOne (source_faults self.old) (source_faults self.new)) }
    {
        self.calls.count()?;
        let count = copy_front(&self.bytes[self.at..], buf);
        self.at += count;
        Ok(count)
    }
}
