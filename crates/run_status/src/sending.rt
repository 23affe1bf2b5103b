//! Sends the answer to a line, and hands on what is known of the line.

ghost use Rattle.std.specs.Prelude.{◌≡◌, ◌≤◌, IfOk, IsErrOf, OnErr, IsTrue};
ghost use Rattle.outer_io.specs.Faults.{Rose};
ghost use Rattle.run_status.specs.Sent.{IsSent};

use crate::stop::Stop;
use outer_io::{Sink, write_all};

/// Sends an answer in one piece, and hands on what is known of its line.
pub fn send<T: Copy, K: Sink>(out: &mut K, reply: &[u8], known: T) -> Result<T, Stop>
    ensures known { IfOk result (λ x. x ≡ known) }
    ensures text { IsTrue K.told → IsSent reply.now (K.written out.old) (K.written out.new) result }
    ensures sink { IsErrOf result Stop.SinkFault → Rose (K.faults out.old) (K.faults out.new) }
    ensures later { K.faults out.old ≤ K.faults out.new }
    ensures cause { OnErr result (IsErrOf result Stop.SinkFault) }
{
    match write_all(out, reply) {
        Ok(()) => Ok(known),
        Err(_) => Err(Stop::SinkFault),
    }
}
