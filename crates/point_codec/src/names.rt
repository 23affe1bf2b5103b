//! The names of snapshots, and what a query looks at.

ghost use Rattle.std.specs.Prelude.{◌≡◌, ℕ, ◌-◌, ◌≤◌, ◌++◌, ◌&&◌, length, replicate, nat_le, MatchOption, true, false};
ghost use Rattle.std.specs.List.{list_all};
ghost use Rattle.point_codec.specs.Names.{is_name, is_name_byte};

use std::marker::Model;

/// The name of a snapshot: 1 to 32 bytes of ASCII letters, digits, `_` and `-`.
#[derive(Clone, Copy, PartialEq, Eq, Debug)]
pub struct Name {
    len: u8,
    // the `len` bytes of the name, then zeros
    bytes: [u8; 32],
}

impl Model for Name {
    ghost use Rattle.std.specs.Prelude.{List, ℕ, take, length, ◌++◌, ◌-◌, replicate};
    ghost use Rattle.point_codec.specs.Names.{IsPadded, padded_again, padded_length};

    ghost Value = { List ℕ };

    ghost view = { λ a. take a.len a.bytes };

    ghost invariant = { λ a. IsPadded a.len a.bytes };

    ghost inverse = { λ name. record { len = length name; bytes = name ++ replicate (32 - length name) 0 } };

    ghost inverse_ok = { λ a h i.
        record { len = padded_length a.len a.bytes h i; bytes = padded_again a.len a.bytes h i } };
}

impl Name {
    /// The name of these bytes, or None where they are no name.
    pub fn new(b: &[u8]) -> Option<Name>
        ensures { MatchOption result (is_name b.now ≡ false) (λ name. (is_name b.now ≡ true) × (name ≡ b.now)) }
    {
        if !is_name(b) {
            return None;
        }
        Some(Name {
            len: b.len() as u8,
            bytes: padded(b),
        })
    }

    /// The bytes of the name.
    pub fn as_bytes(&self) -> &[u8]
        ensures value { result.now ≡ self.now }
        ensures name { is_name self.now ≡ true }
    {
        &self.bytes[..self.len as usize]
    }
}

/// The bytes, and zeros behind them.
fn padded(b: &[u8]) -> [u8; 32]
    requires { length b.now ≤ 32 }
    ensures { result ≡ b.now ++ replicate (32 - length b.now) 0 }
{
    let mut bytes = [0; 32];
    bytes[..b.len()].copy_from_slice(b);
    bytes
}

fn is_name(b: &[u8]) -> bool
    ensures { result ≡ is_name b.now }
{
    has_name_length(b) && are_name_bytes(b)
}

fn are_name_bytes(b: &[u8]) -> bool
    ensures { result ≡ list_all is_name_byte b.now }
{
    b.iter().all(|x| is_name_byte(*x))
}

fn has_name_length(b: &[u8]) -> bool
    ensures { result ≡ (nat_le 1 (length b.now) && nat_le (length b.now) 32) }
{
    !b.is_empty() && b.len() <= 32
}

fn is_name_byte(b: u8) -> bool
    ensures { result ≡ is_name_byte b }
{
    b.is_ascii_alphanumeric() || b == b'_' || b == b'-'
}

/// What a query looks at: the live documents, or a snapshot.
#[derive(Clone, Copy, PartialEq, Eq, Debug)]
pub enum View {
    /// The documents that are live at the time of the query.
    Now,
    /// The documents that were live when the snapshot of this name was taken.
    Named(Name),
}
