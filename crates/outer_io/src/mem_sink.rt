//! A sink that keeps its bytes in memory, and can be told which of its calls fail.
ghost use Rattle.std.specs.Prelude.{◌≡◌, ◌+◌, ◌≤◌, ◌<◌, ◌++◌, ◌↔◌, ◌⊎◌, [], None, true, length, take, min, vec_len};
ghost use Rattle.std.specs.Prelude.{vec_capacity, IfOk, OnErr, IsErr, IsTrue};
ghost use Rattle.outer_io.specs.Counts.{RisesByOne};
ghost use Rattle.outer_io.specs.Faults.{HasCause};
ghost use Rattle.outer_io.specs.Parts.{WritesPart};
ghost use Rattle.outer_io.specs.Plan.{CallFails, plan_from, after_call};

use crate::calls::Calls;
use crate::faults::Failed;
use crate::sink::Sink;
use std::alloc::{AllocError, Global};

/// A sink that keeps its bytes in memory, up to the room that it was made with. It tells its bytes, and those of its
/// calls fail whose numbers, counted from 0, were named when it was made.
#[derive(Drop)]
pub struct MemSink {
    bytes: Vec<u8>,
    room: usize,
    calls: Calls,
    ghost within: { vec_len bytes ≤ room },
    ghost reserved: { room ≤ vec_capacity bytes },
}

impl MemSink {
    ghost use Rattle.outer_io.specs.MemSink.{sink_written, sink_room, sink_plan, sink_faults};

    /// An empty sink with room for so many bytes. All memory that it ever takes is taken here.
    pub fn new(alloc: Global, room: usize, fail: Vec<u64>) -> Result<MemSink, AllocError>
        ensures written { IfOk result (λ k. sink_written k ≡ []) }
        ensures room { IfOk result (λ k. sink_room k ≡ room) }
        ensures plan { IfOk result (λ k. sink_plan k ≡ plan_from fail.items None) }
        ensures faults { IfOk result (λ k. sink_faults k ≡ 0) }
    {
        Ok(MemSink {
            bytes: Vec::with_capacity(alloc, room)?,
            room,
            calls: Calls::new(fail),
        })
    }

    /// The bytes that it took.
    pub fn bytes(&self) -> &[u8]
        ensures { result.now ≡ sink_written self.now }
    {
        self.bytes.as_slice()
    }
}

impl Sink for MemSink {
    ghost use Rattle.outer_io.specs.MemSink.{sink_written, sink_room, sink_plan, sink_faults};

    ghost told = { true };

    ghost written = { sink_written };

    ghost faults = { sink_faults };

    /// Takes as many bytes as it has room left for, and fails where it has none for a piece that isn't empty. A
    /// failing call takes none.
    fn write(&mut self, b: &[u8]) -> Result<usize, Failed>
        ensures fits { IfOk result (λ n. n ≤ length b.now) }
        ensures some { IfOk result (λ n. 0 < length b.now → 0 < n) }
        ensures bytes { IsTrue true → IfOk result (λ n. sink_written self.new ≡ sink_written self.old ++ take n b.now) }
        ensures torn { IsTrue true → OnErr result (WritesPart (sink_written self.old) (sink_written self.new) b.now) }
        ensures cause { HasCause (sink_faults self.old) (sink_faults self.new) result }

        ensures exact { IsErr result ↔
            (CallFails (sink_plan self.old) ⊎ ((0 < length b.now) × (sink_room self.old ≡ 0))) }
        ensures plan { sink_plan self.new ≡ after_call (sink_plan self.old) }
        ensures most { IfOk result (λ n. n ≡ min (length b.now) (sink_room self.old)) }
        ensures room { IfOk result (λ n. sink_room self.new + n ≡ sink_room self.old) }
        ensures none { OnErr result (sink_written self.new ≡ sink_written self.old) }
        ensures raised { OnErr result (RisesByOne (sink_faults self.old) (sink_faults self.new)) }
    {
        self.calls.count()?;
        let room = self.room - self.bytes.len();
        if room == 0 && !b.is_empty() {
            return Err(self.calls.fault());
        }
        let count = room.min(b.len());
        self.bytes.extend_from_slice(&b[..count]).unwrap();
        Ok(count)
    }
}
