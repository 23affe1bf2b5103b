//! What is told of the files that were taken away.

ghost use Rattle.std.specs.Prelude.{◌≡◌, IfOk};
ghost use Rattle.clean_folder.specs.Cleaned.{removed_text};

use crate::removing::Removed;
use itoa::Buffer;
use std::alloc::{AllocError, Global};

/// How many files were taken away, and how many bytes they had.
#[tactic(auto, unfolding(crate::specs::Cleaned::removed_text))]
pub(crate) fn removed_line(alloc: Global, removed: &Removed) -> Result<Vec<u8>, AllocError>
    ensures { IfOk result (λ v. v.items ≡ removed_text removed.now.files removed.now.bytes) }
{
    let mut digits = Buffer::new();
    let mut line = Vec::new(alloc);
    line.extend_from_slice(b"removed ")?;
    line.extend_from_slice(digits.format(removed.files).as_bytes())?;
    line.extend_from_slice(b" files ")?;
    line.extend_from_slice(digits.format(removed.bytes).as_bytes())?;
    line.extend_from_slice(b" bytes\n")?;
    Ok(line)
}
