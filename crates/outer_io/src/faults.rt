//! Why a call on the outside may fail, and the count of those that did.
ghost use Rattle.std.specs.Prelude.{◌≡◌, ◌≤◌};
ghost use Rattle.outer_io.specs.Counts.{RisesByOne};

use std::alloc::AllocError;
use thiserror::Error;

/// The source, sink or folder failed, and counted it.
#[derive(Clone, Copy, PartialEq, Eq, Debug, Error)]
#[error("the call failed")]
pub struct Failed;

/// Why a file wasn't written.
#[derive(Clone, Copy, PartialEq, Eq, Debug, Error)]
pub enum WriteFault {
    /// The folder failed, and counted it.
    #[error("the call failed")]
    Failed,
    /// Want of memory, which is no fault of the folder.
    #[error("out of memory")]
    Memory,
}

/// Why a source wasn't read to its end.
#[derive(Clone, Copy, PartialEq, Eq, Debug, Error)]
pub enum ReadAll {
    /// The source failed, and counted it.
    #[error("the source failed")]
    Failed,
    /// More bytes than the limit are left.
    #[error("too many bytes")]
    TooLarge,
    /// There was not enough memory for the bytes.
    #[error("out of memory")]
    Memory,
}

/// How many calls failed, up to the last value of u64.
#[derive(Drop)]
pub(crate) struct FaultCount {
    raised: u64,
}

impl FaultCount {
    pub(crate) fn new() -> FaultCount
        ensures { result.raised ≡ 0 }
    {
        FaultCount { raised: 0 }
    }

    /// Counts a call that failed.
    pub(crate) fn raise(&mut self) -> Failed
        ensures raised { RisesByOne self.old.raised self.new.raised }
        ensures later { self.old.raised ≤ self.new.raised }
    {
        self.raised = self.raised.saturating_add(1);
        Failed
    }
}

impl From<Failed> for WriteFault {
    ghost use Rattle.std.specs.Prelude.{◌≡◌};
    ghost use Rattle.outer_io.specs.declared.faults.WriteFault.TheVariants as write;

    ghost from_gives = { λ _ e. e ≡ write.Failed };

    fn from(_failed: Failed) -> WriteFault {
        WriteFault::Failed
    }
}

impl From<AllocError> for WriteFault {
    ghost use Rattle.std.specs.Prelude.{◌≡◌};
    ghost use Rattle.outer_io.specs.declared.faults.WriteFault.TheVariants as write;

    ghost from_gives = { λ _ e. e ≡ write.Memory };

    fn from(_memory: AllocError) -> WriteFault {
        WriteFault::Memory
    }
}

impl From<Failed> for ReadAll {
    ghost use Rattle.std.specs.Prelude.{◌≡◌};
    ghost use Rattle.outer_io.specs.declared.faults.ReadAll.TheVariants as all;

    ghost from_gives = { λ _ e. e ≡ all.Failed };

    fn from(_failed: Failed) -> ReadAll {
        ReadAll::Failed
    }
}

impl From<AllocError> for ReadAll {
    ghost use Rattle.std.specs.Prelude.{◌≡◌};
    ghost use Rattle.outer_io.specs.declared.faults.ReadAll.TheVariants as all;

    ghost from_gives = { λ _ e. e ≡ all.Memory };

    fn from(_memory: AllocError) -> ReadAll {
        ReadAll::Memory
    }
}
