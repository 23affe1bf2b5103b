//! Why a run stops before its end, and its status.

ghost use Rattle.std.specs.Prelude.{◌≡◌, ◌==◌, if◌then◌else◌, Err};
ghost use Rattle.run_status.specs.Stops.{status_of, stop_of};

use crate::status::Status;
use page_cache::{Damage, PageFault};
use std::alloc::AllocError;

/// Why a run stops before its end.
#[derive(Debug, Drop)]
pub enum Stop {
    /// A call on the sink failed, so the output may be cut off.
    SinkFault,
    /// A call on the folder failed, and was counted.
    FolderFault,
    /// The folder's files are damaged.
    Damaged(Damage),
    /// There was not enough memory to go on.
    Memory,
}

impl From<AllocError> for Stop {
    ghost use Rattle.std.specs.Prelude.{◌≡◌};
    ghost use Rattle.run_status.specs.declared.stop.Stop.TheVariants.{Memory};

    ghost from_gives = { λ _ e. e ≡ Memory };

    fn from(_: AllocError) -> Stop {
        Stop::Memory
    }
}

impl From<PageFault> for Stop {
    ghost use Rattle.std.specs.Prelude.{◌≡◌};
    ghost use Rattle.run_status.specs.Stops.{stop_of};

    ghost from_gives = { λ fault e. e ≡ stop_of fault };

    fn from(fault: PageFault) -> Stop {
        match fault {
            PageFault::Failed => Stop::FolderFault,
            PageFault::Damaged(damage) => Stop::Damaged(damage),
            PageFault::Memory => Stop::Memory,
        }
    }
}

/// Stops for a fault of something stored.
pub fn stopped<T>(fault: PageFault) -> Result<T, Stop>
    ensures { result ≡ Err (stop_of fault) }
{
    Err(Stop::from(fault))
}

/// The status of lines that were all answered, of which so many were refused, or that stopped.
pub fn status_of(done: Result<u64, Stop>) -> Status
    ensures { result ≡ status_of done }
{
    match done {
        Ok(refused) => ended(refused),
        Err(Stop::SinkFault) => Status::SinkFault,
        Err(Stop::FolderFault) => Status::FolderFault,
        Err(Stop::Damaged(damage)) => Status::Damaged(damage),
        Err(Stop::Memory) => Status::Memory,
    }
}

/// The status of lines that were all answered, of which so many were refused.
fn ended(refused: u64) -> Status
    ensures { result ≡ (if refused == 0 then Status.Done else Status.SomeRefused refused) }
{
    if refused == 0 {
        Status::Done
    } else {
        Status::SomeRefused { count: refused }
    }
}
