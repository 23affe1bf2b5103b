//! The fields of a head, on the first page of a segment's file.

ghost use Rattle.std.specs.Prelude.{◌≡◌, ◌≢◌, ◌<◌, ◌++◌, ◌↔◌, Bool, ℕ, List, length, codes, if◌then◌else◌, IsTrue};
ghost use Rattle.std.specs.Prelude.{IfOk, IfSome, IfNone};
ghost use Rattle.byte_cursor.specs.Cursor.{cursor_rest};
ghost use Rattle.page_cache.specs.Bodies.{padded_body};
ghost use Rattle.segment_file.specs.Heads.{Fields, AreFields, magic, fields_bytes, numbers_bytes};
ghost use Rattle.segment_file.specs.FieldsSeen.{fields_said, AreNarrow, HasFields};

use crate::payloads::is_blank;
use byte_cursor::{Cursor, Memory, put_slice, put_u8, put_u16, put_u32};
use leaf_codec::greatest_leaf;
use point_codec::MOST_POINTS;
use std::alloc::Global;

/// What the first page begins with where the index has form 1 or 2.
const MAGIC: &[u8; 8] = b"BKDPSEG1";

/// What it begins with where the index has form 3.
const OWN_CELLS_MAGIC: &[u8; 8] = b"BKDPSEG2";

/// The form of an index whose leaves have cells of their own.
const OWN_CELLS: u8 = 3;

/// The fields at fixed offsets.
#[derive(Clone, Copy)]
pub(crate) struct HeadFields {
    pub(crate) dims: u8,
    pub(crate) form: u8,
    pub(crate) leaf_size: u16,
    pub(crate) entries: u32,
    pub(crate) leaves: u32,
    pub(crate) index_length: u32,
    pub(crate) leaf_pages: u32,
}

impl HeadFields {
    /// The fields of a payload. None exactly where one of them is out of its range, or a byte behind them isn't
    /// zero.
    pub(crate) fn parse(payload: &[u8]) -> Option<HeadFields>
        requires { length payload.now ≡ 4064 }
        ensures some { IfSome result (HasFields payload.now) }
        ensures none { IfNone result ((f : Fields) → AreFields f → payload.now ≢ padded_body (fields_bytes f)) }
    {
        let mut cursor = Cursor::new(payload);
        let own_cells = take_magic(&mut cursor)?;
        let fields = take_numbers(&mut cursor)?;
        if own_cells != (fields.form == OWN_CELLS) {
            return None;
        }
        if !fields.are_in_range() {
            return None;
        }
        if !is_blank(cursor.rest()) {
            return None;
        }
        Some(fields)
    }

    /// Whether each field is in its range.
    fn are_in_range(&self) -> bool
        ensures { IsTrue result ↔ AreFields (fields_said self.now) }
    {
        if self.dims == 0 || self.dims > 8 {
            return false;
        }
        if self.form == 0 || self.form > OWN_CELLS {
            return false;
        }
        if self.leaf_size < 2 || self.leaf_size > greatest_leaf(self.dims) {
            return false;
        }
        if self.entries == 0 || self.entries > MOST_POINTS {
            return false;
        }
        self.leaves == (self.entries + u32::from(self.leaf_size) - 1) / u32::from(self.leaf_size)
    }

    /// The bytes of the fields.
    pub(crate) fn write(&self, alloc: Global) -> Result<Vec<u8>, Memory>
        ensures { IfOk result (λ v. v.items ≡ fields_bytes (fields_said self.now)) }
    {
        let mut out = Vec::with_capacity(alloc, 28)?;
        put_slice(&mut out, magic_of(self.form))?;
        put_u8(&mut out, self.dims)?;
        put_u8(&mut out, self.form)?;
        put_u16(&mut out, self.leaf_size)?;
        put_u32(&mut out, self.entries)?;
        put_u32(&mut out, self.leaves)?;
        put_u32(&mut out, self.index_length)?;
        put_u32(&mut out, self.leaf_pages)?;
        Ok(out)
    }
}

/// What the first page of a segment whose index has this form begins with.
fn magic_of(form: u8) -> &'static [u8]
    ensures { result.now ≡ magic form }
{
    if form == OWN_CELLS {
        OWN_CELLS_MAGIC.as_slice()
    } else {
        MAGIC.as_slice()
    }
}

/// Takes the magic bytes, and answers whether they are those of own cells.
fn take_magic(cursor: &mut Cursor<'_>) -> Option<bool>
    ensures taken { IfSome result
        (λ own. cursor_rest cursor.old ≡
        (if own then codes "BKDPSEG2" else codes "BKDPSEG1") ++ cursor_rest cursor.new) }
    ensures other { IfNone result
        ((own : Bool) (rest : List ℕ)
        → cursor_rest cursor.old ≢ (if own then codes "BKDPSEG2" else codes "BKDPSEG1") ++ rest) }
{
    if cursor.take_exact(MAGIC) {
        return Some(false);
    }
    if cursor.take_exact(OWN_CELLS_MAGIC) {
        return Some(true);
    }
    None
}

/// Takes the fields behind the magic bytes, whatever they say.
fn take_numbers(cursor: &mut Cursor<'_>) -> Option<HeadFields>
    ensures taken { IfSome result
        (λ f. cursor_rest cursor.old ≡ numbers_bytes (fields_said f) ++ cursor_rest cursor.new) }
    ensures narrow { IfSome result (λ f. AreNarrow (fields_said f)) }
    ensures short { IfNone result (length (cursor_rest cursor.old) < 20) }
{
    let dims = cursor.take_u8().ok()?;
    let form = cursor.take_u8().ok()?;
    let leaf_size = cursor.take_u16().ok()?;
    let entries = cursor.take_u32().ok()?;
    let leaves = cursor.take_u32().ok()?;
    let index_length = cursor.take_u32().ok()?;
    let leaf_pages = cursor.take_u32().ok()?;
    Some(HeadFields {
        dims,
        form,
        leaf_size,
        entries,
        leaves,
        index_length,
        leaf_pages,
    })
}
