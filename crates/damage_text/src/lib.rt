//! What is said of damaged files.
#![tactic(auto)]

ghost use Rattle.std.specs.Prelude.{◌≡◌, ◌++◌, OnOk, string_bytes};
ghost use Rattle.damage_text.specs.Texts.{damage_text, size_text};

use outer_io::FileName;
use page_cache::Damage;
use std::alloc::AllocError;
use std::fmt::Write;

/// The error of a call for which no memory could be had.
pub type Memory = AllocError;

/// Appends what is said of a damage: the name of the file, or the number of the document, and what is wrong with it.
/// For want of memory a part of it may be appended.
#[tactic(auto, unfolding(crate::specs::Texts::damage_text))]
pub fn put_damage(text: &mut String, damage: &Damage) -> Result<(), Memory>
    ensures { OnOk result (string_bytes text.new ≡ string_bytes text.old ++ damage_text damage.now) }
{
    match damage {
        Damage::Page { file, number, .. } => write!(text, "{file} page {number}"),
        Damage::Leaf {
            file,
            number,
            offset,
            ..
        } => write!(text, "{file} page {number} leaf at {offset}"),
        Damage::Body { file, .. } => write!(text, "{file} body"),
        Damage::Missing { file } => write!(text, "{file} missing"),
        Damage::Size { file, size, needed } => put_size(text, file, *size, *needed),
        Damage::Unequal { file, said, found } => write!(text, "{file} says {said}, found {found}"),
        Damage::NotGiven { doc, next } => write!(text, "document {doc} beyond {next}"),
        Damage::Doubled { doc } => write!(text, "document {doc} twice"),
    }
}

/// Appends how long a file is, and how long it must be.
fn put_size(text: &mut String, file: &FileName, size: u64, needed: u64) -> Result<(), Memory>
    ensures { OnOk result (string_bytes text.new ≡ string_bytes text.old ++ size_text file.now size needed) }
{
    write!(text, "{file} has {size} bytes")?;
    write!(text, ", needs {needed}")
}
