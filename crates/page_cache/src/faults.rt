//! Why a page, a file or a segment wasn't read or written.

use byte_cursor::Bytes;
use outer_io::{Failed, FileName, WriteFault};
use page_file::PageBytes;
use std::alloc::AllocError;

/// The error of a call for which no memory could be had.
pub type Memory = AllocError;

/// Why something stored wasn't read.
#[derive(Debug, Drop)]
pub enum PageFault {
    /// The folder failed, and counted it.
    Failed,
    /// The files are not what was written.
    Damaged(Damage),
    /// There was not enough memory; nothing is said of the files.
    Memory,
}

/// What is wrong with the files, with the bytes or numbers that show it.
#[derive(Debug, Drop)]
pub enum Damage {
    /// The bytes are no page for this place: their digest is another.
    Page {
        file: FileName,
        number: u32,
        bytes: Box<PageBytes>,
    },
    /// A part of a valid page spells no leaf of the entries that the head and the index give.
    Leaf {
        file: FileName,
        number: u32,
        /// Where the part begins in the page, in bytes.
        offset: u16,
        /// The bytes of the part.
        length: u16,
        bytes: Box<PageBytes>,
    },
    /// The payload of the first page, or the joined payloads, of valid pages that break the file's format.
    Body {
        file: FileName,
        bytes: Bytes,
    },
    /// There is no file of this name, though it is needed.
    Missing {
        file: FileName,
    },
    /// The file ends at another byte than its layout needs.
    Size {
        file: FileName,
        size: u64,
        needed: u64,
    },
    /// Two stored numbers that must agree differ.
    Unequal {
        file: FileName,
        said: u64,
        found: u64,
    },
    /// A live document's number isn't below the next number.
    NotGiven {
        doc: u32,
        next: u32,
    },
    /// A document's number is live twice.
    Doubled {
        doc: u32,
    },
}

impl From<Failed> for PageFault {
    ghost use Rattle.std.specs.Prelude.{◌≡◌};
    ghost use Rattle.page_cache.specs.declared.faults.PageFault.TheVariants as page;

    ghost from_gives = { λ _ e. e ≡ page.Failed };

    fn from(_failed: Failed) -> PageFault {
        PageFault::Failed
    }
}

impl From<AllocError> for PageFault {
    ghost use Rattle.std.specs.Prelude.{◌≡◌};
    ghost use Rattle.page_cache.specs.declared.faults.PageFault.TheVariants as page;

    ghost from_gives = { λ _ e. e ≡ page.Memory };

    fn from(_memory: AllocError) -> PageFault {
        PageFault::Memory
    }
}

impl From<Damage> for PageFault {
    ghost use Rattle.std.specs.Prelude.{◌≡◌};
    ghost use Rattle.page_cache.specs.declared.faults.PageFault.TheVariants as page;

    ghost from_gives = { λ d e. e ≡ page.Damaged d };

    fn from(damage: Damage) -> PageFault {
        PageFault::Damaged(damage)
    }
}

impl From<WriteFault> for PageFault {
    ghost use Rattle.std.specs.Prelude.{◌≡◌};
    ghost use Rattle.page_cache.specs.Causes.{page_fault};

    ghost from_gives = { λ w e. e ≡ page_fault w };

    fn from(fault: WriteFault) -> PageFault {
        match fault {
            WriteFault::Failed => PageFault::Failed,
            WriteFault::Memory => PageFault::Memory,
        }
    }
}
