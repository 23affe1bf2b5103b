//! What is said of a generated index. For want of memory a part of it may be appended.

ghost use Rattle.std.specs.Prelude.{◌≡◌, ◌++◌, OnOk, codes, decimal};
ghost use Rattle.script_lang.specs.Replies.{text_line};

use crate::generator::Summary;
use itoa::Buffer;
use std::alloc::AllocError;

/// Appends how many documents were made and live, and what the queries found.
pub fn put_summary(text: &mut Vec<u8>, s: &Summary) -> Result<(), AllocError>
    ensures { OnOk result
        (text.new.items ≡ text.old.items ++
        (text_line (codes "docs " ++ decimal s.now.docs ++ codes " live " ++ decimal s.now.live)
        ++ text_line (codes "box hits " ++ decimal s.now.hits) ++ text_line
        (codes "nearest sum " ++ decimal s.now.near))) }
{
    let mut digits = Buffer::new();
    text.extend_from_slice(b"docs ")?;
    text.extend_from_slice(digits.format(s.docs).as_bytes())?;
    text.extend_from_slice(b" live ")?;
    text.extend_from_slice(digits.format(s.live).as_bytes())?;
    text.extend_from_slice(b"\nbox hits ")?;
    text.extend_from_slice(digits.format(s.hits).as_bytes())?;
    text.extend_from_slice(b"\nnearest sum ")?;
    text.extend_from_slice(digits.format(s.near).as_bytes())?;
    text.push(b'\n')?;
    Ok(())
}

/// Appends that an index is there.
pub fn put_exists(text: &mut Vec<u8>) -> Result<(), AllocError>
    ensures { OnOk result (text.new.items ≡ text.old.items ++ text_line (codes "index exists")) }
{
    text.extend_from_slice(b"index exists\n")
}
