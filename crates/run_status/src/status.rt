//! How a run of the program ended.

ghost use Rattle.std.specs.Prelude.{◌≡◌, ◌++◌, OnOk, OnErr, take, length, codes, decimal};
ghost use Rattle.damage_text.specs.Texts.{damage_text};
ghost use Rattle.run_status.specs.Texts.{line_of, number_of};

use damage_text::put_damage;
use itoa::Buffer;
use page_cache::Damage;
use std::alloc::{AllocError, Global};

/// The error of a call for which no memory could be had.
pub type Memory = AllocError;

/// How a run of the program ended; `code` gives the exit status.
#[derive(Debug, Drop)]
pub enum Status {
    /// All that was asked was done, and nothing was refused.
    Done,
    /// The words are not those of a command.
    Usage,
    /// Every line was answered, and this many of them were refused.
    SomeRefused { count: u64 },
    /// The input could not be read.
    SourceFault,
    /// A call on the folder failed.
    FolderFault,
    /// The output could not be written.
    SinkFault,
    /// The folder's files are damaged.
    Damaged(Damage),
    /// There was not enough memory to go on.
    Memory,
    /// The input has more than 536,870,912 bytes.
    TooLarge,
}

/// The number of a status, which is the exit status of the program.
pub fn code(s: &Status) -> u8
    ensures { result ≡ number_of s.now }
{
    match s {
        Status::Done => 0,
        Status::Usage => 1,
        Status::SomeRefused { count: _ } => 2,
        Status::SourceFault => 3,
        Status::FolderFault => 4,
        Status::SinkFault => 5,
        Status::Damaged(_) => 6,
        Status::Memory => 7,
        Status::TooLarge => 8,
    }
}

/// Appends the line that the program prints for a status on standard error; nothing where all was done. For want of
/// memory a part of it may be appended.
#[tactic(auto, unfolding(crate::specs::Texts::line_of))]
pub fn status_line(alloc: Global, s: &Status, out: &mut Vec<u8>) -> Result<(), Memory>
    ensures ok { OnOk result (out.new.items ≡ out.old.items ++ line_of s.now) }
    ensures memory { OnErr result (take (length out.old.items) out.new.items ≡ out.old.items) }
{
    match s {
        Status::Done => Ok(()),
        Status::Usage => out.extend_from_slice(
            b"usage: bkd FOLDER run|load|explain|check|generate|session|count|ranges|batch|export|info|clean [options]\n",
        ),
        Status::SomeRefused { count } => put_refused(out, *count),
        Status::SourceFault => out.extend_from_slice(b"source fault\n"),
        Status::FolderFault => out.extend_from_slice(b"folder fault\n"),
        Status::SinkFault => out.extend_from_slice(b"sink fault\n"),
        Status::Damaged(damage) => put_damaged(alloc, out, damage),
        Status::Memory => out.extend_from_slice(b"out of memory\n"),
        Status::TooLarge => out.extend_from_slice(b"input too large\n"),
    }
}

fn put_refused(out: &mut Vec<u8>, count: u64) -> Result<(), Memory>
    ensures ok { OnOk result (out.new.items ≡ out.old.items ++ (codes "refused " ++ decimal count ++ codes "\n")) }
    ensures memory { OnErr result (take (length out.old.items) out.new.items ≡ out.old.items) }
{
    let mut digits = Buffer::new();
    out.extend_from_slice(b"refused ")?;
    out.extend_from_slice(digits.format(count).as_bytes())?;
    out.push(b'\n')?;
    Ok(())
}

fn put_damaged(alloc: Global, out: &mut Vec<u8>, damage: &Damage) -> Result<(), Memory>
    ensures ok { OnOk result
        (out.new.items ≡ out.old.items ++ (codes "damaged: " ++ damage_text damage.now ++ codes "\n")) }
    ensures memory { OnErr result (take (length out.old.items) out.new.items ≡ out.old.items) }
{
    let mut text = String::new(alloc);
    put_damage(&mut text, damage)?;
    out.extend_from_slice(b"damaged: ")?;
    out.extend_from_slice(text.as_bytes())?;
    out.push(b'\n')?;
    Ok(())
}
