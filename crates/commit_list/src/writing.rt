//! Spells the body of a commit, always in the second layout.

ghost use Rattle.std.specs.Prelude.{◌≡◌, ◌<◌, ◌++◌, ◌^◌, All, IfOk, OnOk};
ghost use Rattle.std.specs.List.{flat_map};
ghost use Rattle.commit_list.specs.Layout.{commit_body, spell_listed, spell_head, SpellsCommit};

use crate::commits::Commit;
use crate::head::{Head, Layout, SECOND};
use crate::listed::Listed;
use byte_cursor::{Bytes, Memory, put_slice, put_u8, put_u16, put_u32, put_u64};
use std::alloc::Global;

/// The bytes of a body before its list.
const HEAD_LEN: usize = 29;

/// The bytes of a listed segment.
const LISTED_LEN: usize = 24;

/// The one body of the commit in the layout that is written.
pub fn encode_commit(alloc: Global, c: &Commit) -> Result<Bytes, Memory>
    ensures spelling { IfOk result (λ b. b ≡ commit_body c.now) }
    ensures spells { IfOk result (λ b. SpellsCommit b c.now) }
{
    let listed = c.listed();
    let head = Head {
        layout: Layout::Second,
        dims: c.dims(),
        leaf_size: c.leaf_size(),
        next: c.next(),
        points_given: c.points_given(),
        next_segment: c.next_segment(),
        count: listed.len() as u16,
    };
    let mut out = Vec::with_capacity(alloc, HEAD_LEN + LISTED_LEN * listed.len())?;
    put_head(&mut out, head)?;
    put_list(&mut out, listed)?;
    Ok(Bytes::new(out))
}

/// Appends a head of the second layout.
#[tactic(auto, unfolding(crate::specs::Layout::spell_head, crate::specs::Layout::spell_numbers, crate::specs::Layout::magic, crate::specs::Layout::spell_given))]
fn put_head(out: &mut Vec<u8>, head: Head) -> Result<(), Memory>
    requires { head.layout ≡ Layout.Second }
    ensures { OnOk result (out.new.items ≡ out.old.items ++ spell_head head) }
{
    put_slice(out, SECOND)?;
    put_u8(out, head.dims)?;
    put_u16(out, head.leaf_size)?;
    put_u32(out, head.next)?;
    put_u32(out, head.points_given)?;
    put_u64(out, head.next_segment)?;
    put_u16(out, head.count)
}

/// Appends the segments of a list.
fn put_list(out: &mut Vec<u8>, listed: &[Listed]) -> Result<(), Memory>
    ensures spelling { OnOk result (out.new.items ≡ out.old.items ++ flat_map spell_listed listed.now) }
    ensures fits { OnOk result (All (λ s. s.generation < 2 ^ 64) listed.now) }
{
    for s in listed {
        put_listed(out, *s)?;
    }
    Ok(())
}

/// Appends a segment of a list.
#[tactic(auto, unfolding(crate::specs::Layout::spell_listed))]
fn put_listed(out: &mut Vec<u8>, s: Listed) -> Result<(), Memory>
    ensures spelling { OnOk result (out.new.items ≡ out.old.items ++ spell_listed s) }
    ensures fits { s.generation < 2 ^ 64 }
{
    put_u64(out, s.segment)?;
    put_u64(out, s.generation)?;
    put_u32(out, s.entries)?;
    put_u32(out, s.live)
}
