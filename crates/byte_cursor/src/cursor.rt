//! A cursor over borrowed bytes.

ghost use Rattle.std.specs.Prelude.{◌≡◌, ◌≢◌, ◌<◌, ◌++◌, ◌∷◌, ◌^◌, ◌↔◌, ℕ, List, length, IfOk, OnErr, IsErr, IsErrOf};
ghost use Rattle.std.specs.Prelude.{Ok};
ghost use Rattle.std.specs.Bool.{OnTrue, OnFalse};
ghost use Rattle.std.specs.Int.{w16, w32, w64, to_be_bytes};
ghost use Rattle.byte_cursor.specs.Cursor.{cursor_rest};
ghost use Rattle.byte_cursor.specs.Vint.{BeginsWithVint, HasVint, IsCutVint};

use byteorder::{BigEndian, ByteOrder};

/// Too few bytes are left for the field.
#[derive(Clone, Copy, Debug, PartialEq, Eq)]
pub struct Short;

/// Why no vint could be taken.
#[derive(Clone, Copy, Debug, PartialEq, Eq)]
pub enum VintFault {
    /// The bytes end inside the vint.
    Short,
    /// The bytes begin with no canonical vint of a number below 2^32.
    NotCanonical,
}

/// A place in borrowed bytes. Contracts see the bytes that are left, `cursor_rest`.
///
/// A take gives the field that these begin with and leaves the rest. A refused take leaves all as it was.
#[derive(Clone, Copy, Debug)]
pub struct Cursor<'a> {
    bytes: &'a [u8],
}

impl<'a> Cursor<'a> {
    /// A cursor before the first of the bytes.
    pub fn new(b: &'a [u8]) -> Cursor<'a>
        ensures { cursor_rest result ≡ b.now }
    {
        Cursor { bytes: b }
    }

    /// The bytes that are left.
    pub fn rest(&self) -> &'a [u8]
        ensures { result.now ≡ cursor_rest self.now }
    {
        self.bytes
    }

    /// Takes the next byte. `Short` exactly where none is left; then nothing is taken.
    pub fn take_u8(&mut self) -> Result<u8, Short>
        ensures ok { IfOk result (λ n. cursor_rest self.old ≡ n ∷ cursor_rest self.new) }
        ensures short { IsErr result ↔ (length (cursor_rest self.old) < 1) }
        ensures err { OnErr result (cursor_rest self.new ≡ cursor_rest self.old) }
    {
        match self.bytes {
            [] => Err(Short),
            [first, rest @ ..] => {
                self.bytes = rest;
                Ok(*first)
            }
        }
    }

    /// Takes a number of 16 bits, the greatest byte first.
    pub fn take_u16(&mut self) -> Result<u16, Short>
        ensures ok { IfOk result (λ n. cursor_rest self.old ≡ to_be_bytes w16 n ++ cursor_rest self.new) }
        ensures short { IsErr result ↔ (length (cursor_rest self.old) < 2) }
        ensures err { OnErr result (cursor_rest self.new ≡ cursor_rest self.old) }
    {
        let front = self.take_slice(2)?;
        Ok(number_u16(front))
    }

    /// Takes a number of 32 bits, the greatest byte first.
    pub fn take_u32(&mut self) -> Result<u32, Short>
        ensures ok { IfOk result (λ n. cursor_rest self.old ≡ to_be_bytes w32 n ++ cursor_rest self.new) }
        ensures short { IsErr result ↔ (length (cursor_rest self.old) < 4) }
        ensures err { OnErr result (cursor_rest self.new ≡ cursor_rest self.old) }
    {
        let front = self.take_slice(4)?;
        Ok(number_u32(front))
    }

    /// Takes a number of 64 bits, the greatest byte first.
    pub fn take_u64(&mut self) -> Result<u64, Short>
        ensures ok { IfOk result (λ n. cursor_rest self.old ≡ to_be_bytes w64 n ++ cursor_rest self.new) }
        ensures short { IsErr result ↔ (length (cursor_rest self.old) < 8) }
        ensures err { OnErr result (cursor_rest self.new ≡ cursor_rest self.old) }
    {
        let front = self.take_slice(8)?;
        Ok(number_u64(front))
    }

    /// Takes `n` bytes as they stand.
    pub fn take_slice(&mut self, n: usize) -> Result<&'a [u8], Short>
        ensures ok { IfOk result
            (λ front. (length front.now ≡ n) × (cursor_rest self.old ≡ front.now ++ cursor_rest self.new)) }
        ensures short { IsErr result ↔ (length (cursor_rest self.old) < n) }
        ensures err { OnErr result (cursor_rest self.new ≡ cursor_rest self.old) }
    {
        if self.bytes.len() < n {
            return Err(Short);
        }
        let (front, rest) = self.bytes.split_at(n);
        self.bytes = rest;
        Ok(front)
    }

    /// Takes these very bytes, if they stand next, and answers whether they did.
    pub fn take_exact(&mut self, want: &[u8]) -> bool
        ensures taken { OnTrue result (cursor_rest self.old ≡ want.now ++ cursor_rest self.new) }
        ensures other { OnFalse result ((rest : List ℕ) → cursor_rest self.old ≢ want.now ++ rest) }
        ensures stays { OnFalse result (cursor_rest self.new ≡ cursor_rest self.old) }
    {
        match self.bytes.strip_prefix(want) {
            Some(rest) => {
                self.bytes = rest;
                true
            }
            None => false,
        }
    }

    /// Takes the canonical vint of a number below 2^32.
    pub fn take_vint(&mut self) -> Result<u32, VintFault>
        ensures ok { IfOk result (λ n. BeginsWithVint (cursor_rest self.old) n (cursor_rest self.new)) }
        // A vint that is there is taken.
        ensures taken { (n : ℕ) (rest : List ℕ) → n < 2 ^ 32 → BeginsWithVint (cursor_rest self.old) n rest
            → (result ≡ Ok n) × (cursor_rest self.new ≡ rest) }

        ensures short { IsErrOf result VintFault.Short ↔ IsCutVint (cursor_rest self.old) }
        ensures not_canonical { IsErrOf result VintFault.NotCanonical
            ↔ ((¬ IsCutVint (cursor_rest self.old)) × (¬ HasVint (cursor_rest self.old))) }
        ensures err { OnErr result (cursor_rest self.new ≡ cursor_rest self.old) }
    {
        let (n, rest) = vint_at(self.bytes)?;
        self.bytes = rest;
        Ok(n)
    }
}

/// The number that the two bytes spell.
fn number_u16(front: &[u8]) -> u16
    requires { length front.now ≡ 2 }
    ensures { to_be_bytes w16 result ≡ front.now }
{
    BigEndian::read_u16(front)
}

/// The number that the four bytes spell.
fn number_u32(front: &[u8]) -> u32
    requires { length front.now ≡ 4 }
    ensures { to_be_bytes w32 result ≡ front.now }
{
    BigEndian::read_u32(front)
}

/// The number that the eight bytes spell.
fn number_u64(front: &[u8]) -> u64
    requires { length front.now ≡ 8 }
    ensures { to_be_bytes w64 result ≡ front.now }
{
    BigEndian::read_u64(front)
}

/// The vint that the bytes begin with, and the bytes after it.
fn vint_at(bytes: &[u8]) -> Result<(u32, &[u8]), VintFault>
    ensures ok { IfOk result (λ x. BeginsWithVint bytes.now x.0 x.1.now) }
    ensures taken { (n : ℕ) (rest : List ℕ) → n < 2 ^ 32 → BeginsWithVint bytes.now n rest
        → IfOk result (λ x. (x.0 ≡ n) × (x.1.now ≡ rest)) }
    ensures short { IsErrOf result VintFault.Short ↔ IsCutVint bytes.now }
    ensures none { OnErr result (¬ HasVint bytes.now) }
{
    // The five groups have 35 bits, so that no sum wraps.
    let mut value = 0u64;
    let mut weight = 1u64;
    let mut ahead = Cursor::new(bytes);
    for at in 0..5u32 {
        let Ok(byte) = ahead.take_u8() else {
            return Err(VintFault::Short);
        };
        let group = u64::from(byte);
        if group < 128 {
            let number = value + weight * group;
            if number > 0xffff_ffff {
                return Err(VintFault::NotCanonical);
            }
            // A last group of zero only stands alone.
            if group == 0 && at > 0 {
                return Err(VintFault::NotCanonical);
            }
            return Ok((number as u32, ahead.rest()));
        }
        value += weight * (group - 128);
        weight *= 128;
    }
    Err(VintFault::NotCanonical)
}
