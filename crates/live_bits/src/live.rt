//! The set of live numbers.

ghost use Rattle.std.specs.Prelude.{◌≡◌, ◌≤◌, ◌<◌, ◌+◌, ◌++◌, ℕ, All, IfOk, IfErr, length, nat_eq, IsTrue, true};
ghost use Rattle.std.specs.Prelude.{take, drop, filter};
ghost use Rattle.std.specs.List.{list_any};
ghost use Rattle.live_bits.specs.LiveSet.{is_live, live_set_without, IsLiveSet, Spans};
ghost use Rattle.live_bits.specs.LiveBody.{IsLiveBody, has_bit};
ghost use Rattle.live_bits.specs.Refusal.{Refuses};

use crate::bits::{bit_at, clear_bit, count_set};
use crate::body::{Sizes, parse, spell};
use crate::docs::{lie_between, reach, set_docs};
use crate::fault::{BitsFault, Memory};
use crate::words::{word_after, word_from};
use byte_cursor::Bytes;
use std::alloc::Global;
use std::marker::Model;

/// The live documents of a segment. Contracts see the base, the span and the ascending list of the live
/// numbers, each of which is from the base to below base plus span, and that at most 16,777,216.
#[derive(Debug, Drop)]
pub struct LiveBits {
    base: u32,
    span: u32,
    /// How many bits are set.
    count: u32,
    /// The bits as they stand in a file.
    bits: Vec<u8>,
}

impl Model for LiveBits {
    ghost use Rattle.live_bits.specs.LiveSet.{LiveSet};

    ghost Value = { LiveSet };

    ghost use Rattle.live_bits.specs.LiveBody.{AreCountedBits, live_set};

    ghost view = { λ b. live_set b.base b.span b.bits.items };

    ghost invariant = { λ b. AreCountedBits b.base b.span b.count b.bits.items };
}

impl LiveBits {
    /// The set of these numbers, each below 16,777,216, in any order and with repetitions.
    pub fn of_docs(alloc: Global, docs: &[u32]) -> Result<LiveBits, Memory>
        requires { All (λ d. d < 16777216) docs.now }
        ensures live { IfOk result (λ b. is_live b ≡ (λ n. list_any (λ d. nat_eq d n) docs.now)) }
        ensures spans { IfOk result (λ b. Spans b.base b.span docs.now) }
        ensures set { IfOk result IsLiveSet }
    {
        let (base, span) = reach(docs);
        let mut bits = vec![in alloc; 0u8; ((span + 7) / 8) as usize]?;
        set_docs(bits.as_mut_slice(), base, docs);
        let count = count_set(bits.as_slice());
        Ok(LiveBits {
            base,
            span,
            count,
            bits,
        })
    }

    /// The set whose body for this segment and generation the bytes are.
    pub fn read(
        alloc: Global,
        segment: u64,
        generation: u64,
        b: Bytes,
    ) -> Result<LiveBits, BitsFault>
        ensures ok { IfOk result (λ s. IsLiveBody segment generation s b) }
        ensures err { IfErr result (Refuses segment generation b) }
    {
        let Some((sizes, bits)) = parse(segment, generation, b.as_slice()) else {
            return Err(BitsFault::NotBits { b });
        };
        Ok(LiveBits {
            base: sizes.base,
            span: sizes.span,
            count: sizes.count,
            bits: Vec::from_slice(alloc, bits)?,
        })
    }

    /// The one body of the set for this segment and generation.
    pub fn write(&self, alloc: Global, segment: u64, generation: u64) -> Result<Bytes, Memory>
        ensures { IfOk result (IsLiveBody segment generation self.now) }
    {
        let sizes = Sizes {
            base: self.base,
            span: self.span,
            count: self.count,
        };
        spell(alloc, segment, generation, sizes, self.bits.as_slice())
    }

    /// A copy of the set.
    pub fn copy(&self, alloc: Global) -> Result<LiveBits, Memory>
        ensures { IfOk result (λ b. b ≡ self.now) }
    {
        let bits = Vec::from_slice(alloc, self.bits.as_slice())?;
        Ok(LiveBits {
            base: self.base,
            span: self.span,
            count: self.count,
            bits,
        })
    }

    /// The number of the first bit.
    pub fn base(&self) -> u32
        ensures value { result ≡ self.now.base }
        ensures set { IsLiveSet self.now }
    {
        self.base
    }

    /// How many numbers have a bit.
    pub fn span(&self) -> u32
        ensures value { result ≡ self.now.span }
        ensures set { IsLiveSet self.now }
    {
        self.span
    }

    /// How many numbers are live.
    pub fn live_count(&self) -> u32
        ensures value { result ≡ length self.now.live }
        ensures set { IsLiveSet self.now }
    {
        self.count
    }

    /// Whether the number is live.
    pub fn is_live(&self, doc: u32) -> bool
        ensures { result ≡ is_live self.now doc }
    {
        match doc.checked_sub(self.base) {
            None => false,
            Some(i) if i >= self.span => false,
            // where all of them are live, the bits are left alone
            Some(_) if self.count == self.span => true,
            Some(i) => bit_at(self.bits.as_slice(), i),
        }
    }

    /// Of the numbers from place `from` on keeps the live ones, in their order.
    pub fn keep_live(&self, numbers: &mut Vec<u32>, from: usize)
        requires { from ≤ length numbers.old.items }
        ensures { numbers.new.items
            ≡ take from numbers.old.items ++ filter (is_live self.now) (drop from numbers.old.items) }
    {
        if self.has_all(&numbers.as_slice()[from..]) {
            return;
        }
        let end = self.move_live(numbers.as_mut_slice(), from);
        numbers.truncate(end);
    }

    /// Moves those of the numbers from place `from` on that are live up to that place, in their order, and answers
    /// where they end.
    fn move_live(&self, numbers: &mut [u32], from: usize) -> usize
        requires { from ≤ length numbers.old }
        ensures { take result numbers.new ≡ take from numbers.old ++ filter (is_live self.now) (drop from numbers.old) }
    {
        let mut kept = from;
        for i in from..numbers.len() {
            let number = numbers[i];
            if !self.is_live(number) {
                continue;
            }
            numbers[kept] = number;
            kept += 1;
        }
        kept
    }

    /// Whether it is seen at once that all of the numbers are live: they lie in the span, of which each number is.
    fn has_all(&self, numbers: &[u32]) -> bool
        ensures { IsTrue result → All (λ n. is_live self.now n ≡ true) numbers.now }
    {
        if self.count != self.span {
            return false;
        }
        lie_between(numbers, self.base, self.base + self.span)
    }

    /// Which of the 64 numbers from `first` on are live: bit `k` of the answer is that of `first + k`.
    pub fn word(&self, first: u32) -> u64
        ensures { (k : ℕ) → k < 64 → has_bit result k ≡ is_live self.now (first + k) }
    {
        match first.checked_sub(self.base) {
            Some(i) => word_from(self.bits.as_slice(), i),
            None => word_after(self.bits.as_slice(), self.base - first),
        }
    }

    /// Takes the number out, and answers whether it was live.
    pub fn clear(&mut self, doc: u32) -> bool
        ensures answer { result ≡ is_live self.old doc }
        ensures after { self.new ≡ live_set_without doc self.old }
    {
        if !self.is_live(doc) {
            return false;
        }
        clear_bit(self.bits.as_mut_slice(), doc - self.base);
        self.count -= 1;
        true
    }
}
