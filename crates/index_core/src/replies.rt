//! What becomes of a command, said by what the call on the set answered.

ghost use Rattle.std.specs.Prelude.{◌≡◌};
ghost use Rattle.index_core.specs.Replies.{add_answer, begin_answer, end_answer, snap_answer, text_after};

use index_model::Applied;
use page_cache::PageFault;
use script_lang::Refusal;
use segment_set::{AddFault, BeginFault, EndFault, SnapFault};

/// Of a document to be added.
pub(crate) fn add_answer(done: Result<u32, AddFault>) -> Result<Applied, PageFault>
    ensures { result ≡ add_answer done }
{
    match done {
        Ok(_) => Ok(Applied::Done),
        Err(AddFault::Full) => Ok(Applied::Refused(Refusal::Full)),
        Err(AddFault::Failed) => Err(PageFault::Failed),
        Err(AddFault::Damaged(damage)) => Err(PageFault::Damaged(damage)),
        Err(AddFault::Memory) => Err(PageFault::Memory),
    }
}

/// Of a merge to be begun.
pub(crate) fn begin_answer(done: Result<(), BeginFault>) -> Result<Applied, PageFault>
    ensures { result ≡ begin_answer done }
{
    match done {
        Ok(()) => Ok(Applied::Done),
        Err(BeginFault::Begun) => Ok(Applied::Refused(Refusal::Begun)),
        Err(BeginFault::Failed) => Err(PageFault::Failed),
        Err(BeginFault::Damaged(damage)) => Err(PageFault::Damaged(damage)),
        Err(BeginFault::Memory) => Err(PageFault::Memory),
    }
}

/// Of a merge to be ended.
pub(crate) fn end_answer(done: Result<(), EndFault>) -> Result<Applied, PageFault>
    ensures { result ≡ end_answer done }
{
    match done {
        Ok(()) => Ok(Applied::Done),
        Err(EndFault::NotBegun) => Ok(Applied::Refused(Refusal::NotBegun)),
        Err(EndFault::Failed) => Err(PageFault::Failed),
        Err(EndFault::Damaged(damage)) => Err(PageFault::Damaged(damage)),
        Err(EndFault::Memory) => Err(PageFault::Memory),
    }
}

/// Of a snapshot to be taken.
pub(crate) fn snap_answer(done: Result<(), SnapFault>) -> Result<Applied, PageFault>
    ensures { result ≡ snap_answer done }
{
    match done {
        Ok(()) => Ok(Applied::Done),
        Err(SnapFault::Taken) => Ok(Applied::Refused(Refusal::NameTaken)),
        Err(SnapFault::TooMany) => Ok(Applied::Refused(Refusal::TooManySnapshots)),
        Err(SnapFault::Memory) => Err(PageFault::Memory),
    }
}

/// Takes a reply back that was written before the command was refused: the text is as long as before.
pub(crate) fn take_back(out: &mut Vec<u8>, before: usize, answer: &Result<Applied, PageFault>)
    ensures { out.new.items ≡ text_after answer.now before out.old.items }
{
    if let Ok(Applied::Refused(_)) = answer {
        out.truncate(before);
    }
}
