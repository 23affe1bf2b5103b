//! The answer to one line.

ghost use Rattle.std.specs.Prelude.{◌≡◌, ◌≢◌, ◌≤◌, ◌++◌, ◌⊎◌, ℕ, List, Some, None, Ok, false, true, IfOk, IsErrOf};
ghost use Rattle.std.specs.Prelude.{OnErr, IsTrue};
ghost use Rattle.outer_io.specs.Faults.{Rose};
ghost use Rattle.page_cache.specs.Causes.{HasPageCause};
ghost use Rattle.page_cache.specs.Evidence.{OnDamage};
ghost use Rattle.index_core.specs.Brought.{KeepsCommit};
ghost use Rattle.index_core.specs.Lasting.{LosesNone, TakesOut};
ghost use Rattle.index_core.specs.Carried.{Carries, IsEvidentOver};
ghost use Rattle.index_core.specs.Sessions.{Trusts};
ghost use Rattle.index_core.specs.Steps.{is_committing};
ghost use Rattle.script_lang.specs.Replies.{refused_text};
ghost use Rattle.range_docs.specs.Replies.{range_fault_text};
ghost use Rattle.script_lang.specs.Seen.{IsWithinLimits, request_of};
ghost use Rattle.index_model.specs.State.{Index, State};
ghost use Rattle.run_status.specs.Sent.{IsSent};
ghost use Rattle.script_run.specs.LineAnswers.{SendsReply, IsFirstAnswer, IsNewWithin, Replies, IsSessionOf};
ghost use Rattle.stored_index.specs.Kept.{SameKept};
ghost use Rattle.script_run.specs.Costs.{asks_commit};
ghost use Rattle.script_run.specs.Languages.{answer, line_request};
ghost use Rattle.script_run.specs.Leads.{Passes};
ghost use Rattle.script_run.specs.Taking.{TakesOutBy};
ghost use Rattle.run_status.specs.Ends.{HasStopCause, OnStopDamage};

use crate::language::Language;
use crate::lines::Work;
use bkd_build::Gate;
use index_core::{Applied, Session};
use outer_io::{Folder, Sink};
use page_cache::PageFault;
use range_docs::{RangeFault, put_range_fault};
use run_status::{Memory, Stop, send, stopped};
use script_lang::{Command, First, LineFault, Refusal, put_ok, put_refusal};
use std::alloc::AllocError;
use std::marker::Sync;
use std::thread::Threads;

/// What a line did where no index is there.
#[derive(Clone, Copy, PartialEq, Eq, Debug)]
pub enum Opening {
    /// There is still no index.
    Nothing { refused: bool },
    /// A new index is there.
    Made { dims: u8, leaf_size: u16 },
}

/// Answers a line where an index is there, and sends the answer. True where the line is refused. Of a line that is
/// too long a part that is too long too may stand for it: the answer is that of each line that reads as this one.
pub fn answer_line<const D: usize, R: Threads + Sync, F: Folder, K: Sink, G: Gate>(
    work: &Work<'_, R, G>,
    session: &mut Session<D>,
    folder: &mut F,
    number: u64,
    line: &[u8],
    reply: &mut Vec<u8>,
    out: &mut K,
) -> Result<bool, Stop>
    requires some { 1 ≤ D }
    requires few { D ≤ 8 }
    ensures answers { IsTrue F.told → (i : Index) → (stored : State)
        → IsSessionOf D (F.files folder.old) session.old i stored
        → (bytes : List ℕ)
        → line_request work.now.language (Some D) bytes ≡ line_request work.now.language (Some D) line.now
        → SendsReply work.now.language (IsTrue K.told) D
        (record { number = number; index = i; stored = stored; bytes = bytes }) (F.files folder.new) session.new
        (K.written out.old) (K.written out.new) result }
    ensures passes { IsTrue F.told → (i : Index) → (stored : State)
        → IsSessionOf D (F.files folder.old) session.old i stored
        → (bytes : List ℕ)
        → line_request work.now.language (Some D) bytes ≡ line_request work.now.language (Some D) line.now
        → Passes work.now.language D number i bytes
        (record { files = F.files folder.old; session = session.old; reads = F.reads folder.old })
        (record { files = F.files folder.new; session = session.new; reads = F.reads folder.new }) result }
    ensures cause { HasStopCause (F.faults folder.old) (F.faults folder.new) (K.faults out.old)
        (K.faults out.new) result }
    ensures trusts { IsTrue F.told → Trusts D (F.files folder.old) session.old
        → Trusts D (F.files folder.new) session.new }
    ensures kept { IsTrue F.told → Trusts D (F.files folder.old) session.old
        → asks_commit (line_request work.now.language (Some D) line.now) ≡ false
        → SameKept (F.files folder.old) (F.files folder.new) }
    ensures lasting { IsTrue F.told → Trusts D (F.files folder.old) session.old
        → KeepsCommit (F.files folder.old) (F.files folder.new) }
    ensures lasts { IsTrue F.told → Trusts D (F.files folder.old) session.old
        → LosesNone D (TakesOutBy (line_request work.now.language (Some D) line.now)) (F.files folder.old)
        (F.files folder.new) session.old.set session.new.set }
    ensures carries { IsTrue F.told
        → Carries (F.files folder.old) (F.files folder.new) session.old.set session.new.set }
    ensures evident { OnStopDamage result
        (IsEvidentOver (F.files folder.old) session.old.set
        (IsTrue F.told × Trusts D (F.files folder.old) session.old) (F.files folder.new)) }
{
    reply.clear();
    match reply_to(work, session, folder, number, line, reply) {
        Ok(refused) => send(out, reply.as_slice(), refused),
        Err(fault) => stopped(fault),
    }
}

/// Reads a line, does what it asks, and appends the answer. True where the line is refused.
fn reply_to<const D: usize, R: Threads + Sync, F: Folder, G: Gate>(
    work: &Work<'_, R, G>,
    session: &mut Session<D>,
    folder: &mut F,
    number: u64,
    line: &[u8],
    reply: &mut Vec<u8>,
) -> Result<bool, PageFault>
    requires some { 1 ≤ D }
    requires few { D ≤ 8 }
    ensures replies { IsTrue F.told → (i : Index) → (stored : State)
        → IsSessionOf D (F.files folder.old) session.old i stored
        → (bytes : List ℕ)
        → line_request work.now.language (Some D) bytes ≡ line_request work.now.language (Some D) line.now
        → Replies work.now.language D (record { number = number; index = i; stored = stored; bytes = bytes })
        (F.files folder.new) session.new reply.old.items reply.new.items result }
    ensures passes { IsTrue F.told → (i : Index) → (stored : State)
        → IsSessionOf D (F.files folder.old) session.old i stored
        → (bytes : List ℕ)
        → line_request work.now.language (Some D) bytes ≡ line_request work.now.language (Some D) line.now
        → Passes work.now.language D number i bytes
        (record { files = F.files folder.old; session = session.old; reads = F.reads folder.old })
        (record { files = F.files folder.new; session = session.new; reads = F.reads folder.new }) result }
    ensures cause { HasPageCause (F.faults folder.old) (F.faults folder.new) result }
    ensures trusts { IsTrue F.told → Trusts D (F.files folder.old) session.old
        → Trusts D (F.files folder.new) session.new }
    ensures kept { IsTrue F.told → Trusts D (F.files folder.old) session.old
        → asks_commit (line_request work.now.language (Some D) line.now) ≡ false
        → SameKept (F.files folder.old) (F.files folder.new) }
    ensures lasting { IsTrue F.told → Trusts D (F.files folder.old) session.old
        → KeepsCommit (F.files folder.old) (F.files folder.new) }
    ensures lasts { IsTrue F.told → Trusts D (F.files folder.old) session.old
        → LosesNone D (TakesOutBy (line_request work.now.language (Some D) line.now)) (F.files folder.old)
        (F.files folder.new) session.old.set session.new.set }
    ensures carries { IsTrue F.told
        → Carries (F.files folder.old) (F.files folder.new) session.old.set session.new.set }
    ensures evident { OnDamage result
        (IsEvidentOver (F.files folder.old) session.old.set
        (IsTrue F.told × Trusts D (F.files folder.old) session.old) (F.files folder.new)) }
{
    match work.language.read_line::<D>(work.alloc, line) {
        Ok(command) => obey(work, session, folder, number, &command, reply),
        Err(RangeFault::Memory) => Err(PageFault::Memory),
        Err(fault) => refuse_line(number, &fault, reply),
    }
}

/// Does what a command asks, and appends the answer. True where it is refused.
fn obey<const D: usize, R: Threads + Sync, F: Folder, G: Gate>(
    work: &Work<'_, R, G>,
    session: &mut Session<D>,
    folder: &mut F,
    number: u64,
    command: &Command<D>,
    reply: &mut Vec<u8>,
) -> Result<bool, PageFault>
    requires { IsWithinLimits (request_of command.now) }
    ensures replies { IsTrue F.told → (i : Index) → (stored : State)
        → IsSessionOf D (F.files folder.old) session.old i stored
        → (bytes : List ℕ) → line_request work.now.language (Some D) bytes ≡ Ok (request_of command.now)
        → Replies work.now.language D (record { number = number; index = i; stored = stored; bytes = bytes })
        (F.files folder.new) session.new reply.old.items reply.new.items result }
    ensures passes { IsTrue F.told → (i : Index) → (stored : State)
        → IsSessionOf D (F.files folder.old) session.old i stored
        → (bytes : List ℕ) → line_request work.now.language (Some D) bytes ≡ Ok (request_of command.now)
        → Passes work.now.language D number i bytes
        (record { files = F.files folder.old; session = session.old; reads = F.reads folder.old })
        (record { files = F.files folder.new; session = session.new; reads = F.reads folder.new }) result }
    ensures cause { HasPageCause (F.faults folder.old) (F.faults folder.new) result }
    ensures trusts { IsTrue F.told → Trusts D (F.files folder.old) session.old
        → Trusts D (F.files folder.new) session.new }
    ensures kept { IsTrue F.told → Trusts D (F.files folder.old) session.old
        → is_committing (request_of command.now) ≡ false → SameKept (F.files folder.old) (F.files folder.new) }
    ensures lasting { IsTrue F.told → Trusts D (F.files folder.old) session.old
        → KeepsCommit (F.files folder.old) (F.files folder.new) }
    ensures lasts { IsTrue F.told → Trusts D (F.files folder.old) session.old
        → LosesNone D (TakesOut (request_of command.now)) (F.files folder.old)
        (F.files folder.new) session.old.set session.new.set }
    ensures carries { IsTrue F.told
        → Carries (F.files folder.old) (F.files folder.new) session.old.set session.new.set }
    ensures evident { OnDamage result
        (IsEvidentOver (F.files folder.old) session.old.set
        (IsTrue F.told × Trusts D (F.files folder.old) session.old) (F.files folder.new)) }
{
    match session.apply(work.rt, work.alloc, folder, command, reply, work.gate) {
        Ok(Applied::Done) => Ok(false),
        Ok(Applied::Refused(why)) => refuse(number, why, reply),
        Err(fault) => Err(fault),
    }
}

/// Appends why a line can't be read.
fn refuse_line(number: u64, fault: &RangeFault, reply: &mut Vec<u8>) -> Result<bool, PageFault>
    requires refused { fault.now ≢ RangeFault.Memory }
    requires by_line { fault.now ≢ RangeFault.Line LineFault.Memory }
    ensures refused { IfOk result
        (λ refused. (refused ≡ true) × (reply.new.items ≡ reply.old.items ++ range_fault_text number fault.now)) }
    ensures memory { OnErr result (IsErrOf result PageFault.Memory) }
{
    put_range_fault(reply, number, fault)?;
    Ok(true)
}

/// Appends why a command is refused.
fn refuse(number: u64, why: Refusal, reply: &mut Vec<u8>) -> Result<bool, PageFault>
    ensures refused { IfOk result
        (λ refused. (refused ≡ true) × (reply.new.items ≡ reply.old.items ++ refused_text number why)) }
    ensures memory { OnErr result (IsErrOf result PageFault.Memory) }
{
    put_refusal(reply, number, why)?;
    Ok(true)
}

/// Answers a line where no index is there, and sends the answer.
pub fn answer_first<K: Sink>(
    language: Language,
    number: u64,
    line: &[u8],
    reply: &mut Vec<u8>,
    out: &mut K,
) -> Result<Opening, Stop>
    ensures opening { IfOk result (λ opening. IsFirstAnswer (answer language number None line.now) opening) }
    ensures limits { IfOk result IsNewWithin }
    ensures text { IsTrue K.told
        → IsSent (answer language number None line.now).text (K.written out.old) (K.written out.new) result }
    ensures sink { IsErrOf result Stop.SinkFault → Rose (K.faults out.old) (K.faults out.new) }
    ensures later { K.faults out.old ≤ K.faults out.new }
    ensures cause { OnErr result (IsErrOf result Stop.SinkFault ⊎ IsErrOf result Stop.Memory) }
{
    reply.clear();
    let opening = first_reply_to(language, number, line, reply)?;
    send(out, reply.as_slice(), opening)
}

/// Reads a line where no index is there, and appends the answer.
fn first_reply_to(
    language: Language,
    number: u64,
    line: &[u8],
    reply: &mut Vec<u8>,
) -> Result<Opening, Memory>
    ensures opening { IfOk result (λ opening. IsFirstAnswer (answer language number None line.now) opening) }
    ensures limits { IfOk result IsNewWithin }
    ensures text { IfOk result (λ _. reply.new.items ≡ reply.old.items ++ (answer language number None line.now).text) }
{
    match language.read_first(line) {
        Ok(First::Blank) => Ok(Opening::Nothing { refused: false }),
        Ok(First::Create { dims, leaf_size }) => {
            put_ok(reply)?;
            Ok(Opening::Made { dims, leaf_size })
        }
        Err(RangeFault::Memory) => Err(AllocError),
        Err(fault) => {
            put_range_fault(reply, number, &fault)?;
            Ok(Opening::Nothing { refused: true })
        }
    }
}
