//! A listed segment, and the rules that a list meets.

ghost use Rattle.std.specs.Prelude.{◌≡◌, ◌<◌, ◌++◌, ◌↔◌, length, IsTrue, IfSome, IfNone};
ghost use Rattle.byte_cursor.specs.Cursor.{cursor_rest};
ghost use Rattle.commit_list.specs.Commits.{IsListed, AreListed};
ghost use Rattle.commit_list.specs.Layout.{spell_listed, FitsListed};

use byte_cursor::Cursor;
use point_codec::MOST_POINTS;

/// A segment in the list of a commit.
#[derive(Clone, Copy, Debug, PartialEq, Eq)]
pub struct Listed {
    /// The id of the segment, by which its files are named.
    pub segment: u64,
    /// The generation of its live bits.
    pub generation: u64,
    /// How many entries it has.
    pub entries: u32,
    /// How many of its documents are live.
    pub live: u32,
}

/// Whether the commit with this next segment id may list the segment.
fn is_listed(next_segment: u64, s: &Listed) -> bool
    ensures { IsTrue result ↔ IsListed next_segment s.now }
{
    if s.segment >= next_segment {
        return false;
    }
    if s.entries == 0 {
        return false;
    }
    if s.entries > MOST_POINTS {
        return false;
    }
    s.live <= s.entries
}

/// Whether the commit with this next segment id may list these segments.
pub(crate) fn are_listed(next_segment: u64, listed: &[Listed]) -> bool
    ensures { IsTrue result ↔ AreListed next_segment listed.now }
{
    // The least id that the next segment may have.
    let mut least = 0;
    for s in listed {
        if !is_listed(next_segment, s) {
            return false;
        }
        if s.segment < least {
            return false;
        }
        least = s.segment + 1;
    }
    true
}

/// Takes the 24 bytes of a listed segment. None only where fewer are left.
#[tactic(auto, unfolding(crate::specs::Layout::spell_listed))]
pub(crate) fn take_listed(cursor: &mut Cursor<'_>) -> Option<Listed>
    ensures taken { IfSome result (λ s. cursor_rest cursor.old ≡ spell_listed s ++ cursor_rest cursor.new) }
    ensures fits { IfSome result FitsListed }
    ensures short { IfNone result (length (cursor_rest cursor.old) < 24) }
{
    let segment = cursor.take_u64().ok()?;
    let generation = cursor.take_u64().ok()?;
    let entries = cursor.take_u32().ok()?;
    let live = cursor.take_u32().ok()?;
    Some(Listed {
        segment,
        generation,
        entries,
        live,
    })
}
