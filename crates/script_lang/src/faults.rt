//! Why a line is refused.

ghost use Rattle.std.specs.Prelude.{◌≡◌};
ghost use Rattle.script_lang.specs.declared.faults.LineFault.TheVariants as fault;
ghost use Rattle.script_lang.specs.Refusals.{fault_of};

use polygon_query::{GeoFault, GeoRefused};
use std::alloc::{AllocError, AllocFailed};

/// Want of memory, where it is the only fault.
pub type Memory = AllocError;

/// Why a line cannot be read. Of several faults it is the first of this order, but for `Memory`, which may come
/// anywhere.
#[derive(Clone, Copy, PartialEq, Eq, Debug)]
pub enum LineFault {
    /// More than 4,194,304 bytes, without a byte 13 at the end.
    TooLong,
    NotUtf8,
    /// No index is there, and the line is not `create`.
    NoIndex,
    /// The first word is no command.
    Unknown,
    /// The word behind `@`, or the name of a snapshot, is no name.
    BadName,
    /// A polygon where the index has other than two dimensions.
    NotTwo,
    /// The command has no form with so many words, or with such a second word.
    Words,
    /// This word is no number of its form. Words are counted from 1.
    Number { word: u32 },
    /// An index has 1 to 8 dimensions.
    Dims,
    /// A leaf has 2 points at least, and no more than fit into 4,000 bytes.
    LeafSize,
    /// A query for the nearest asks for 1 to 10,000 documents.
    BadK,
    /// The polygon's text has this fault.
    Geo(GeoFault),
    Memory,
}

impl From<AllocError> for LineFault {
    ghost from_gives = { λ _ f. f ≡ fault.Memory };

    fn from(_: AllocError) -> LineFault {
        LineFault::Memory
    }
}

impl<T: Drop> From<AllocFailed<T>> for LineFault {
    ghost from_gives = { λ _ f. f ≡ fault.Memory };

    fn from(_: AllocFailed<T>) -> LineFault {
        LineFault::Memory
    }
}

impl From<GeoRefused> for LineFault {
    ghost from_gives = { λ refused f. f ≡ fault_of refused };

    fn from(refused: GeoRefused) -> LineFault {
        match refused {
            GeoRefused::Fault(fault) => LineFault::Geo(fault),
            GeoRefused::Memory => LineFault::Memory,
        }
    }
}

/// Why a line that can be read is refused: what it asks does not fit the index as it is.
#[derive(Clone, Copy, PartialEq, Eq, Debug)]
pub enum Refusal {
    /// `create`, and an index is there.
    Exists,
    /// All numbers of documents or all points are given.
    Full,
    /// `merge begin`, and a merge is begun.
    Begun,
    /// `merge end`, and no merge is begun.
    NotBegun,
    UnknownSnapshot,
    NameTaken,
    TooManySnapshots,
    /// A line that is no query where only queries are read.
    NotQuery,
}
