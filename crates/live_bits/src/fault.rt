//! Why bytes were not read.

ghost use Rattle.std.specs.Prelude.{◌≡◌};
ghost use Rattle.live_bits.specs.declared.fault.BitsFault.TheVariants.{Memory};

use byte_cursor::Bytes;
use std::alloc::AllocError;

/// The error of a call for which no memory could be had.
pub type Memory = AllocError;

/// Why live bits were not read.
#[derive(Debug, Drop)]
pub enum BitsFault {
    /// The bytes are no body for this segment and generation. They are handed back.
    NotBits { b: Bytes },
    /// There was not enough memory; nothing is said of the bytes.
    Memory,
}

impl From<AllocError> for BitsFault {
    ghost from_gives = { λ _ e. e ≡ Memory };

    fn from(_e: AllocError) -> BitsFault {
        BitsFault::Memory
    }
}
