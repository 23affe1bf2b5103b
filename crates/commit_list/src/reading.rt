//! Reads the body of a commit, in either layout, and says by its first bytes how long it is.

ghost use Rattle.std.specs.Prelude.{◌≢◌, ◌*◌, ℕ, length, IfOk, IfSome, IfNone, MatchOption};
ghost use Rattle.commit_list.specs.Layout.{BeginsBody, SpellsCommit, HasNoCommit, SpellsList};

use crate::commits::Commit;
use crate::head::head_of;
use crate::listed::{Listed, are_listed, take_listed};
use byte_cursor::{Cursor, Memory};
use std::alloc::Global;

/// The length of the body that the bytes begin, by the numbers in front of its list. None exactly where one
/// of these is out of its range, or too few bytes are there: then no body of a commit begins so.
pub fn body_length(bytes: &[u8]) -> Option<u32>
    ensures some { IfSome result (BeginsBody bytes.now) }
    ensures none { IfNone result ((n : ℕ) → BeginsBody bytes.now n → ⊥) }
{
    let (head, _) = head_of(bytes)?;
    if !head.is_in_range() {
        return None;
    }
    Some(head.body_length())
}

/// The commit whose body the bytes are, in either layout. None exactly where they are the body of none.
pub fn decode(alloc: Global, bytes: &[u8]) -> Result<Option<Commit>, Memory>
    ensures { IfOk result (λ found. MatchOption found (HasNoCommit bytes.now) (SpellsCommit bytes.now)) }
{
    let Some((head, rest)) = head_of(bytes) else {
        return Ok(None);
    };
    if !head.is_in_range() {
        return Ok(None);
    }
    let Some(listed) = read_list(alloc, rest, head.count)? else {
        return Ok(None);
    };
    if !are_listed(head.next_segment, listed.as_slice()) {
        return Ok(None);
    }
    Ok(Some(Commit::new(
        head.dims,
        head.leaf_size,
        head.next,
        head.points_given,
        head.next_segment,
        listed,
    )))
}

/// The list of so many segments that the bytes spell. None exactly where the bytes are too few or too many.
fn read_list(alloc: Global, bytes: &[u8], count: u16) -> Result<Option<Vec<Listed>>, Memory>
    ensures { IfOk result
        (λ found. MatchOption found (length bytes.now ≢ 24 * count) (λ v. SpellsList bytes.now count v.items)) }
{
    let mut listed = Vec::with_capacity(alloc, usize::from(count))?;
    let mut cursor = Cursor::new(bytes);
    for _i in 0..count {
        let Some(s) = take_listed(&mut cursor) else {
            return Ok(None);
        };
        listed.push(s)?;
    }
    if !cursor.rest().is_empty() {
        return Ok(None);
    }
    Ok(Some(listed))
}
