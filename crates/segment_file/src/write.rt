//! Writes the file of a segment: its head, its index and its leaves.

ghost use Rattle.std.specs.Prelude.{◌≡◌, ◌≤◌, ◌<◌, ◌+◌, ◌^◌, ◌++◌, ◌∷◌, ℕ, List, [], All, length, IsTrue, IfOk, OnOk};
ghost use Rattle.outer_io.specs.Files.{bytes_of, SameBut};
ghost use Rattle.outer_io.specs.declared.file_name.FileName.TheVariants.{Segment};
ghost use Rattle.point_codec.specs.Points.{Item};
ghost use Rattle.page_cache.specs.Bodies.{padded_body};
ghost use Rattle.outer_io.specs.Faults.{HasWriteCause};
ghost use Rattle.segment_file.specs.Heads.{fields_bytes};
ghost use Rattle.segment_file.specs.FieldsSeen.{fields_said};
ghost use Rattle.segment_file.specs.Pieced.{piece_id, piece_pages, so_far, open_page, IsPaged};
ghost use Rattle.segment_file.specs.Pieced.{laid_pages};
ghost use Rattle.segment_file.specs.Segments.{IsSegment};
ghost use Rattle.segment_file.specs.Written.{head_of, FitsSegment, CanWrite};

use crate::fields::HeadFields;
use crate::head::SegmentHead;
use crate::pieces::Pieces;
use byte_cursor::Bytes;
use inner_pack::Index;
use outer_io::{Folder, WriteFault};
use page_cache::PAYLOAD_LEN;
use std::alloc::Global;

/// Writes the file of a segment: its head, its index and its leaves, which spell so many entries, a leaf's each. The
/// pages are handed to the folder in pieces of many pages. On a refusal the file holds any bytes or isn't there.
pub fn write_segment<const D: usize, F: Folder>(
    alloc: Global,
    folder: &mut F,
    id: u64,
    leaf_size: u16,
    entries: u32,
    index: Index<D>,
    leaves: &[Bytes],
) -> Result<SegmentHead<D>, WriteFault>
    requires { ∥ CanWrite D id leaf_size entries index leaves.now ∥₁ }
    ensures head { IfOk result (λ h. h ≡ head_of id entries leaf_size index.entry) }
    ensures written { IsTrue F.told → (items : List Item)
        → FitsSegment D id leaf_size entries index.entry leaves.now items
        → IfOk result (λ h. IsSegment D (bytes_of (F.files folder.new (Segment id))) h items) }
    ensures others { IsTrue F.told → SameBut (Segment id) (F.files folder.old) (F.files folder.new) }
    ensures reads { F.reads folder.new ≡ F.reads folder.old }
    ensures cause { HasWriteCause (F.faults folder.old) (F.faults folder.new) result }
{
    let Ok(index_length) = u32::try_from(index.body().len()) else {
        return Err(WriteFault::Memory);
    };
    let fields = HeadFields {
        dims: D as u8,
        form: index.form(),
        leaf_size,
        entries,
        leaves: index.leaves(),
        index_length,
        leaf_pages: index.leaf_pages(),
    };
    put_segment(alloc, folder, id, fields, index.body(), leaves)?;
    Ok(SegmentHead {
        id,
        entries,
        leaf_size,
        index,
    })
}

/// Writes the pages of a segment with these fields, this index and these leaves.
fn put_segment<F: Folder>(
    alloc: Global,
    folder: &mut F,
    id: u64,
    fields: HeadFields,
    index: &[u8],
    leaves: &[Bytes],
) -> Result<(), WriteFault>
    requires short { length index.now < 2 ^ 32 }
    requires leaves { All (λ b. length b ≤ 4064) leaves.now }
    requires few { length leaves.now ≤ 8388608 }
    ensures written { IsTrue F.told → OnOk result ((count : ℕ) × IsPaged (Segment id) count
        (padded_body (fields_bytes (fields_said fields)) ++ padded_body index.now ++ laid_pages [] leaves.now)
        (bytes_of (F.files folder.new (Segment id)))) }
    ensures others { IsTrue F.told → SameBut (Segment id) (F.files folder.old) (F.files folder.new) }
    ensures reads { F.reads folder.new ≡ F.reads folder.old }
    ensures cause { HasWriteCause (F.faults folder.old) (F.faults folder.new) result }
{
    let mut pieces = Pieces::new(alloc, id)?;
    let first = fields.write(alloc)?;
    pieces.push(folder, first.as_slice())?;
    pieces.push(folder, index)?;
    put_leaves(folder, &mut pieces, leaves)?;
    pieces.hand_over(folder)?;
    Ok(())
}

/// Adds the leaf pages: a leaf stands behind the one before where the page has room, and else on the next page. What
/// is left of a page is zero. No page is open before, and none behind.
fn put_leaves<F: Folder>(
    folder: &mut F,
    pieces: &mut Pieces,
    leaves: &[Bytes],
) -> Result<(), WriteFault>
    requires leaves { All (λ b. length b ≤ 4064) leaves.now }
    requires ended { open_page pieces.old ≡ [] }
    requires room { piece_pages pieces.old + length leaves.now + 1 < 2 ^ 32 }
    ensures id { piece_id pieces.new ≡ piece_id pieces.old }
    ensures ended { OnOk result (open_page pieces.new ≡ []) }
    ensures put { IsTrue F.told → OnOk result ((payloads : List ℕ)
        → IsPaged (Segment (piece_id pieces.old)) (piece_pages pieces.old) payloads
        (so_far (bytes_of (F.files folder.old (Segment (piece_id pieces.old)))) pieces.old)
        → IsPaged (Segment (piece_id pieces.old)) (piece_pages pieces.new) (payloads ++ laid_pages [] leaves.now)
        (so_far (bytes_of (F.files folder.new (Segment (piece_id pieces.old)))) pieces.new)) }
    ensures others { IsTrue F.told → SameBut (Segment (piece_id pieces.old)) (F.files folder.old) (F.files folder.new) }
    ensures reads { F.reads folder.new ≡ F.reads folder.old }
    ensures cause { HasWriteCause (F.faults folder.old) (F.faults folder.new) result }
{
    for leaf in leaves {
        make_room(folder, pieces, leaf.as_slice())?;
        pieces.add(leaf.as_slice())?;
    }
    pieces.end_page(folder)
}

/// Ends the open page where it has no room for the leaf.
fn make_room<F: Folder>(folder: &mut F, pieces: &mut Pieces, leaf: &[u8]) -> Result<(), WriteFault>
    requires leaf { length leaf.now ≤ 4064 }
    requires room { piece_pages pieces.old + 1 < 2 ^ 32 }
    ensures id { piece_id pieces.new ≡ piece_id pieces.old }
    ensures pages { OnOk result (piece_pages pieces.new ≤ piece_pages pieces.old + 1) }
    ensures fits { OnOk result (length (open_page pieces.new) + length leaf.now ≤ 4064) }
    ensures put { IsTrue F.told → OnOk result ((payloads : List ℕ) (leaves : List (List ℕ))
        → IsPaged (Segment (piece_id pieces.old)) (piece_pages pieces.old) payloads
        (so_far (bytes_of (F.files folder.old (Segment (piece_id pieces.old)))) pieces.old)
        → (more : List ℕ)
        × IsPaged (Segment (piece_id pieces.old)) (piece_pages pieces.new) more
        (so_far (bytes_of (F.files folder.new (Segment (piece_id pieces.old)))) pieces.new)
        × (payloads ++ laid_pages (open_page pieces.old) (leaf.now ∷ leaves) ≡ more ++ laid_pages
        (open_page pieces.new ++ leaf.now) leaves)) }
    ensures others { IsTrue F.told → SameBut (Segment (piece_id pieces.old)) (F.files folder.old) (F.files folder.new) }
    ensures reads { F.reads folder.new ≡ F.reads folder.old }
    ensures cause { HasWriteCause (F.faults folder.old) (F.faults folder.new) result }
{
    if pieces.open_len() + leaf.len() <= PAYLOAD_LEN {
        return Ok(());
    }
    pieces.end_page(folder)?;
    Ok(())
}
