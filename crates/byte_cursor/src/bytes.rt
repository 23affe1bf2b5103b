//! A vector of bytes, seen by contracts as the list of them.

use std::marker::Model;

/// Owned bytes. Contracts see them as the list of the bytes, with no capacity and no pointer.
#[derive(Debug, Drop)]
pub struct Bytes {
    items: Vec<u8>,
}

impl Model for Bytes {
    ghost use Rattle.std.specs.Prelude.{ℕ, List};

    ghost Value = { List ℕ };

    ghost view = { λ b. b.items.items };
}

impl Bytes {
    ghost use Rattle.std.specs.Prelude.{◌≡◌};

    /// Takes the vector over. No memory is taken.
    pub fn new(v: Vec<u8>) -> Bytes
        ensures { result ≡ v.items }
    {
        Bytes { items: v }
    }

    /// All the bytes in their order, borrowed.
    pub fn as_slice(&self) -> &[u8]
        ensures { result.now ≡ self.now }
    {
        self.items.as_slice()
    }

    /// Gives the vector back. No memory is taken.
    pub fn into_vec(self) -> Vec<u8>
        ensures { result.items ≡ self }
    {
        let Bytes { items } = self;
        items
    }
}
