//! The body of a file of live bits.

ghost use Rattle.std.specs.Prelude.{◌≡◌, ◌≢◌, ◌<◌, ◌^◌, ◌++◌, ℕ, List, length, codes, IfSome, IfNone, IfOk};
ghost use Rattle.std.specs.Bool.{OnTrue, OnFalse};
ghost use Rattle.std.specs.Int.{w32, w64, to_be_bytes};
ghost use Rattle.byte_cursor.specs.Cursor.{cursor_rest};
ghost use Rattle.live_bits.specs.LiveBody.{head, live_set, IsLiveBody, AreCountedBits, HasNoSet};

use crate::bits::{count_set, is_filled};
use crate::fault::Memory;
use byte_cursor::{Bytes, Cursor, put_slice, put_u32, put_u64};
use point_codec::MOST_POINTS;
use std::alloc::Global;

/// What a body begins with.
const MAGIC: &[u8; 8] = b"BKDPLIV1";

/// The bytes of a body before its bits.
const HEAD_LEN: usize = 36;

/// The numbers of a body that say what its bits mean.
#[derive(Clone, Copy)]
pub(crate) struct Sizes {
    pub(crate) base: u32,
    pub(crate) span: u32,
    pub(crate) count: u32,
}

/// The sizes and the bits of the body for this segment and generation. None exactly where the bytes are no
/// such body.
pub(crate) fn parse(segment: u64, generation: u64, body: &[u8]) -> Option<(Sizes, &[u8])>
    ensures some { IfSome result (λ p. IsLiveBody segment generation (live_set p.0.base p.0.span p.1.now) body.now) }
    ensures stored { IfSome result (λ p. AreCountedBits p.0.base p.0.span p.0.count p.1.now) }
    ensures none { IfNone result (HasNoSet segment generation body.now) }
{
    let (sizes, bits) = fields_of(segment, generation, body)?;
    if sizes.span > MOST_POINTS {
        return None;
    }
    if sizes.base > MOST_POINTS - sizes.span {
        return None;
    }
    if !is_filled(bits, sizes.span) {
        return None;
    }
    if count_set(bits) != sizes.count {
        return None;
    }
    Some((sizes, bits))
}

/// The sizes in front, whatever they say, and the bytes after them.
pub(crate) fn fields_of(segment: u64, generation: u64, body: &[u8]) -> Option<(Sizes, &[u8])>
    ensures some { IfSome result (λ p. body.now ≡ head segment generation p.0.base p.0.span p.0.count ++ p.1.now) }
    ensures fits { IfSome result (λ p. (p.0.base < 2 ^ 32) × (p.0.span < 2 ^ 32) × (p.0.count < 2 ^ 32)) }
    ensures none { IfNone result ((base span count : ℕ) (bits : List ℕ)
        → body.now ≡ head segment generation base span count ++ bits → ⊥) }
{
    let mut cursor = Cursor::new(body);
    if !takes_name(&mut cursor, segment, generation) {
        return None;
    }
    let sizes = take_sizes(&mut cursor)?;
    Some((sizes, cursor.rest()))
}

/// Takes the magic bytes, the segment and the generation, if the bytes begin with them.
fn takes_name(cursor: &mut Cursor<'_>, segment: u64, generation: u64) -> bool
    ensures taken { OnTrue result (cursor_rest cursor.old
        ≡ codes "BKDPLIV1" ++ to_be_bytes w64 segment ++ to_be_bytes w64 generation ++ cursor_rest cursor.new) }
    ensures other { OnFalse result ((rest : List ℕ) → cursor_rest cursor.old
        ≢ codes "BKDPLIV1" ++ to_be_bytes w64 segment ++ to_be_bytes w64 generation ++ rest) }
{
    if !cursor.take_exact(MAGIC) {
        return false;
    }
    if !cursor.take_exact(&segment.to_be_bytes()) {
        return false;
    }
    cursor.take_exact(&generation.to_be_bytes())
}

/// Takes the base, the span and the count.
fn take_sizes(cursor: &mut Cursor<'_>) -> Option<Sizes>
    ensures taken { IfSome result (λ s. cursor_rest cursor.old
        ≡ to_be_bytes w32 s.base ++ to_be_bytes w32 s.span ++ to_be_bytes w32 s.count ++ cursor_rest cursor.new) }
    ensures fits { IfSome result (λ s. (s.base < 2 ^ 32) × (s.span < 2 ^ 32) × (s.count < 2 ^ 32)) }
    ensures short { IfNone result (length (cursor_rest cursor.old) < 12) }
{
    let base = cursor.take_u32().ok()?;
    let span = cursor.take_u32().ok()?;
    let count = cursor.take_u32().ok()?;
    Some(Sizes { base, span, count })
}

/// The body of the set with these sizes and bits.
pub(crate) fn spell(
    alloc: Global,
    segment: u64,
    generation: u64,
    sizes: Sizes,
    bits: &[u8],
) -> Result<Bytes, Memory>
    requires { AreCountedBits sizes.base sizes.span sizes.count bits.now }
    ensures { IfOk result (IsLiveBody segment generation (live_set sizes.base sizes.span bits.now)) }
{
    let mut out = Vec::with_capacity(alloc, HEAD_LEN.saturating_add(bits.len()))?;
    put_slice(&mut out, MAGIC)?;
    put_u64(&mut out, segment)?;
    put_u64(&mut out, generation)?;
    put_u32(&mut out, sizes.base)?;
    put_u32(&mut out, sizes.span)?;
    put_u32(&mut out, sizes.count)?;
    put_slice(&mut out, bits)?;
    Ok(Bytes::new(out))
}
