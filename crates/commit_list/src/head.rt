//! What stands in front of the list, in either layout.

ghost use Rattle.std.specs.Prelude.{◌≡◌, ◌≢◌, ◌≤◌, ◌<◌, ◌+◌, ◌*◌, ◌++◌, ◌↔◌, ℕ, List, length, IsTrue, IfSome, IfNone};
ghost use Rattle.byte_cursor.specs.Cursor.{cursor_rest};
ghost use Rattle.commit_list.specs.Commits.{AreInRange};
ghost use Rattle.commit_list.specs.Layout.{magic, spell_given, spell_numbers, spell_head, given_length, head_length};
ghost use Rattle.commit_list.specs.Layout.{SaysGiven, FitsHead};
ghost use Rattle.commit_list.specs.declared.head.Head.{Head};
ghost use Rattle.commit_list.specs.declared.head.Layout.{Layout};

use byte_cursor::Cursor;
use point_codec::MOST_POINTS;

/// What a body of the first layout begins with.
const FIRST: &[u8; 8] = b"BKDPCOM1";

/// What a body of the second layout begins with.
pub(crate) const SECOND: &[u8; 8] = b"BKDPCOM2";

/// The greatest number of listed segments.
const MOST_SEGMENTS: u16 = 200;

/// The two layouts of a body.
#[derive(Clone, Copy, Debug, PartialEq, Eq)]
pub(crate) enum Layout {
    /// It has no field for the points given, and is only read.
    First,
    /// It has a field for the points given, and is what is written.
    Second,
}

/// The numbers in front of the list.
#[derive(Clone, Copy, Debug)]
pub(crate) struct Head {
    pub(crate) layout: Layout,
    pub(crate) dims: u8,
    pub(crate) leaf_size: u16,
    pub(crate) next: u32,
    pub(crate) points_given: u32,
    pub(crate) next_segment: u64,
    /// How many segments the list has.
    pub(crate) count: u16,
}

impl Head {
    /// Whether the numbers are in range.
    pub(crate) fn is_in_range(&self) -> bool
        ensures { IsTrue result ↔
            AreInRange self.now.dims self.now.leaf_size self.now.next self.now.points_given self.now.count }
    {
        if self.dims == 0 {
            return false;
        }
        if self.dims > 8 {
            return false;
        }
        if self.leaf_size < 2 {
            return false;
        }
        if self.leaf_size > 4000 / (4 + 4 * u16::from(self.dims)) {
            return false;
        }
        if self.next > self.points_given {
            return false;
        }
        if self.points_given > MOST_POINTS {
            return false;
        }
        self.count <= MOST_SEGMENTS
    }

    /// The length of the body that has this head.
    pub(crate) fn body_length(&self) -> u32
        ensures { result ≡ head_length self.now.layout + 24 * self.now.count }
    {
        self.layout.head_length() + 24 * u32::from(self.count)
    }
}

impl Layout {
    /// The length of the head in this layout.
    #[tactic(auto, unfolding(crate::specs::Layout::given_length))]
    fn head_length(self) -> u32
        ensures value { result ≡ head_length self }
        ensures most { result ≤ 29 }
    {
        match self {
            Layout::First => 25,
            Layout::Second => 29,
        }
    }
}

/// The head that the bytes begin with, whatever its numbers say, and the bytes after it.
pub(crate) fn head_of(bytes: &[u8]) -> Option<(Head, &[u8])>
    ensures some { IfSome result (λ p. bytes.now ≡ spell_head p.0 ++ p.1.now) }
    ensures fits { IfSome result (λ p. FitsHead p.0) }
    ensures none { IfNone result ((h : Head) (rest : List ℕ) → bytes.now ≢ spell_head h ++ rest) }
{
    let mut cursor = Cursor::new(bytes);
    let layout = take_layout(&mut cursor)?;
    let head = take_numbers(&mut cursor, layout)?;
    Some((head, cursor.rest()))
}

/// Takes what a body of one of the layouts begins with.
#[tactic(auto, unfolding(crate::specs::Layout::magic))]
fn take_layout(cursor: &mut Cursor<'_>) -> Option<Layout>
    ensures taken { IfSome result (λ l. cursor_rest cursor.old ≡ magic l ++ cursor_rest cursor.new) }
    ensures other { IfNone result ((l : Layout) (rest : List ℕ) → cursor_rest cursor.old ≢ magic l ++ rest) }
{
    if cursor.take_exact(SECOND) {
        return Some(Layout::Second);
    }
    if cursor.take_exact(FIRST) {
        return Some(Layout::First);
    }
    None
}

/// Takes the numbers behind it.
fn take_numbers(cursor: &mut Cursor<'_>, layout: Layout) -> Option<Head>
    ensures layout { IfSome result (λ h. h.layout ≡ layout) }
    ensures taken { IfSome result (λ h. cursor_rest cursor.old ≡ spell_numbers h ++ cursor_rest cursor.new) }
    ensures fits { IfSome result FitsHead }
    ensures short { IfNone result (length (cursor_rest cursor.old) < 17 + given_length layout) }
{
    let dims = cursor.take_u8().ok()?;
    let leaf_size = cursor.take_u16().ok()?;
    let next = cursor.take_u32().ok()?;
    let points_given = take_given(cursor, layout, next)?;
    let next_segment = cursor.take_u64().ok()?;
    let count = cursor.take_u16().ok()?;
    Some(Head {
        layout,
        dims,
        leaf_size,
        next,
        points_given,
        next_segment,
        count,
    })
}

/// Takes the points given, which are the next number where the layout has no field for them.
#[tactic(auto, unfolding(crate::specs::Layout::spell_given, crate::specs::Layout::given_length))]
fn take_given(cursor: &mut Cursor<'_>, layout: Layout, next: u32) -> Option<u32>
    ensures taken { IfSome result (λ g. cursor_rest cursor.old ≡ spell_given layout g ++ cursor_rest cursor.new) }
    ensures says { IfSome result (SaysGiven layout next) }
    ensures long { IfSome result
        (λ _. length (cursor_rest cursor.old) ≡ given_length layout + length (cursor_rest cursor.new)) }
    ensures short { IfNone result (length (cursor_rest cursor.old) < given_length layout) }
{
    match layout {
        Layout::First => Some(next),
        Layout::Second => cursor.take_u32().ok(),
    }
}
