//! What is told of a folder.

ghost use Rattle.std.specs.Prelude.{◌≡◌, ◌++◌, OnOk, IfOk, decimal};
ghost use Rattle.folder_check.specs.Checked.{none_text, ok_text};
ghost use Rattle.folder_check.specs.Informed.{info_text};

use commit_list::Commit;
use itoa::Buffer;
use std::alloc::{AllocError, Global};

/// That there is no index.
#[tactic(auto, unfolding(crate::specs::Checked::none_text))]
pub(crate) fn none_line(alloc: Global) -> Result<Vec<u8>, AllocError>
    ensures { IfOk result (λ v. v.items ≡ none_text) }
{
    let mut line = Vec::new(alloc);
    line.extend_from_slice(b"no index\n")?;
    Ok(line)
}

/// How large the index of a commit is that has so many live documents.
pub(crate) fn ok_line(alloc: Global, c: &Commit, live: u64) -> Result<Vec<u8>, AllocError>
    ensures { IfOk result (λ v. v.items ≡ ok_text c.now live) }
{
    let mut line = Vec::new(alloc);
    put_number(&mut line, b"ok dims ", u64::from(c.dims()))?;
    put_number(&mut line, b" leaf ", u64::from(c.leaf_size()))?;
    put_number(&mut line, b" next ", u64::from(c.next()))?;
    put_number(&mut line, b" live ", live)?;
    put_number(&mut line, b" segments ", c.listed().len() as u64)?;
    line.extend_from_slice(b"\n")?;
    Ok(line)
}

/// How large the index of a commit is that has so many live documents, and whose files have so many bytes.
pub(crate) fn info_line(
    alloc: Global,
    c: &Commit,
    live: u64,
    bytes: u64,
) -> Result<Vec<u8>, AllocError>
    ensures { IfOk result (λ v. v.items ≡ info_text c.now live bytes) }
{
    let mut line = Vec::new(alloc);
    put_number(&mut line, b"dims ", u64::from(c.dims()))?;
    put_number(&mut line, b" leaf ", u64::from(c.leaf_size()))?;
    put_number(&mut line, b" next ", u64::from(c.next()))?;
    put_number(&mut line, b" points ", u64::from(c.points_given()))?;
    put_number(&mut line, b" live ", live)?;
    put_number(&mut line, b" segments ", c.listed().len() as u64)?;
    put_number(&mut line, b" bytes ", bytes)?;
    line.extend_from_slice(b"\n")?;
    Ok(line)
}

/// Appends a number behind its words.
fn put_number(text: &mut Vec<u8>, words: &[u8], number: u64) -> Result<(), AllocError>
    ensures { OnOk result (text.new.items ≡ text.old.items ++ words.now ++ decimal number) }
{
    let mut digits = Buffer::new();
    text.extend_from_slice(words)?;
    text.extend_from_slice(digits.format(number).as_bytes())?;
    Ok(())
}
