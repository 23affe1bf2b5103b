//! What calls of a set answer besides what they are asked for.

use page_cache::{Damage, PageFault};
use std::alloc::AllocError;

/// Why a document was not added.
#[derive(Debug, Drop)]
pub enum AddFault {
    /// More than 16,777,216 points would be given.
    Full,
    /// A call on the folder failed.
    Failed,
    /// The files are damaged, as this shows.
    Damaged(Damage),
    /// There was not enough memory; the document was not added.
    Memory,
}

/// Why no merge was begun.
#[derive(Debug, Drop)]
pub enum BeginFault {
    /// A merge is begun already, and not ended.
    Begun,
    /// A call on the folder failed.
    Failed,
    /// The files are damaged, as this shows.
    Damaged(Damage),
    /// There was not enough memory; no merge was begun.
    Memory,
}

/// Why no merge was ended.
#[derive(Debug, Drop)]
pub enum EndFault {
    /// There is no begun merge that could be ended.
    NotBegun,
    /// A call on the folder failed.
    Failed,
    /// The files are damaged. `merge_end` reads nothing, and so never answers this.
    Damaged(Damage),
    /// There was not enough memory; the merge is still begun.
    Memory,
}

/// Why no snapshot was taken.
#[derive(Clone, Copy, PartialEq, Eq, Debug)]
pub enum SnapFault {
    /// A snapshot has the name.
    Taken,
    /// There are 16 snapshots already, which are the most.
    TooMany,
    /// There was not enough memory; nothing was changed.
    Memory,
}

impl From<PageFault> for AddFault {
    ghost use Rattle.std.specs.Prelude.{◌≡◌};
    ghost use Rattle.segment_set.specs.Faults.{add_fault};

    ghost from_gives = { λ fault e. e ≡ add_fault fault };

    fn from(fault: PageFault) -> AddFault {
        match fault {
            PageFault::Failed => AddFault::Failed,
            PageFault::Damaged(damage) => AddFault::Damaged(damage),
            PageFault::Memory => AddFault::Memory,
        }
    }
}

impl From<PageFault> for BeginFault {
    ghost use Rattle.std.specs.Prelude.{◌≡◌};
    ghost use Rattle.segment_set.specs.Faults.{begin_fault};

    ghost from_gives = { λ fault e. e ≡ begin_fault fault };

    fn from(fault: PageFault) -> BeginFault {
        match fault {
            PageFault::Failed => BeginFault::Failed,
            PageFault::Damaged(damage) => BeginFault::Damaged(damage),
            PageFault::Memory => BeginFault::Memory,
        }
    }
}

impl From<PageFault> for EndFault {
    ghost use Rattle.std.specs.Prelude.{◌≡◌};
    ghost use Rattle.segment_set.specs.Faults.{end_fault};

    ghost from_gives = { λ fault e. e ≡ end_fault fault };

    fn from(fault: PageFault) -> EndFault {
        match fault {
            PageFault::Failed => EndFault::Failed,
            PageFault::Damaged(damage) => EndFault::Damaged(damage),
            PageFault::Memory => EndFault::Memory,
        }
    }
}

impl From<AllocError> for AddFault {
    ghost use Rattle.std.specs.Prelude.{◌≡◌};
    ghost use Rattle.segment_set.specs.declared.faults.AddFault.TheVariants.{Memory};

    ghost from_gives = { λ _ e. e ≡ Memory };

    fn from(_: AllocError) -> AddFault {
        AddFault::Memory
    }
}

impl From<AllocError> for SnapFault {
    ghost use Rattle.std.specs.Prelude.{◌≡◌};
    ghost use Rattle.segment_set.specs.declared.faults.SnapFault.TheVariants.{Memory};

    ghost from_gives = { λ _ e. e ≡ Memory };

    fn from(_: AllocError) -> SnapFault {
        SnapFault::Memory
    }
}

impl From<AllocError> for BeginFault {
    ghost use Rattle.std.specs.Prelude.{◌≡◌};
    ghost use Rattle.segment_set.specs.declared.faults.BeginFault.TheVariants.{Memory};

    ghost from_gives = { λ _ e. e ≡ Memory };

    fn from(_: AllocError) -> BeginFault {
        BeginFault::Memory
    }
}
