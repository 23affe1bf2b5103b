//! Why a line wasn't read.

use outer_io::Failed;
use std::alloc::AllocError;
use thiserror::Error;

/// Why the next line wasn't read. What has come of it is lost.
#[derive(Clone, Copy, PartialEq, Eq, Debug, Error)]
pub enum ReadFault {
    /// The source failed, and counted it.
    #[error("the source failed")]
    Failed,
    /// There was not enough memory for the line.
    #[error("out of memory")]
    Memory,
}

impl From<Failed> for ReadFault {
    ghost use Rattle.std.specs.Prelude.{◌≡◌};
    ghost use Rattle.line_source.specs.declared.faults.ReadFault.TheVariants as line;

    ghost from_gives = { λ _ e. e ≡ line.Failed };

    fn from(_failed: Failed) -> ReadFault {
        ReadFault::Failed
    }
}

impl From<AllocError> for ReadFault {
    ghost use Rattle.std.specs.Prelude.{◌≡◌};
    ghost use Rattle.line_source.specs.declared.faults.ReadFault.TheVariants as line;

    ghost from_gives = { λ _ e. e ≡ line.Memory };

    fn from(_memory: AllocError) -> ReadFault {
        ReadFault::Memory
    }
}
