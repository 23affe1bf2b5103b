//! Opens a segment by its head and its index, and reads no leaf page.

ghost use Rattle.std.specs.Prelude.{◌≡◌, ◌≢◌, ◌≤◌, ◌+◌, ◌*◌, ◌++◌, ◌↔◌, ℕ, List, length, vec_len, IsTrue, IsOk, IfOk};
ghost use Rattle.std.specs.Prelude.{OnOk, IsErrOf};
ghost use Rattle.outer_io.specs.Files.{Files, bytes_of};
ghost use Rattle.outer_io.specs.declared.file_name.FileName.TheVariants.{Segment};
ghost use Rattle.inner_pack.specs.Bodies.{IsSpelled};
ghost use Rattle.page_file.specs.Page.{payload_of};
ghost use Rattle.page_cache.specs.Bodies.{pages_for as pages_for_body};
ghost use Rattle.page_cache.specs.FilePages.{page_at, IsFilePage, ArePages, payloads_of};
ghost use Rattle.page_cache.specs.FirstPages.{first_name, first_payload, first_size, IsFirstPage};
ghost use Rattle.page_cache.specs.declared.faults.PageFault.TheVariants as page;
ghost use Rattle.page_cache.specs.Causes.{HasPageCause};
ghost use Rattle.page_cache.specs.Evidence.{OnDamage, NotDamaged};
ghost use Rattle.segment_file.specs.Heads.{Head, index_pages};
ghost use Rattle.segment_file.specs.Segments.{IsHeadOf, AreBeforeLeaves};
ghost use Rattle.segment_file.specs.Damages.{BeginsNoHead, IsBodyDamage, IsPairDamage, IsHeadDamage, IsHeadDamageOf};
ghost use Rattle.segment_file.specs.Kept.{OnFault};
ghost use Rattle.segment_file.specs.FieldsSeen.{HasFields, IsIndexOf};

use crate::fields::HeadFields;
use crate::head::SegmentHead;
use crate::payloads::{is_blank, joined};
use byte_cursor::Bytes;
use inner_pack::Index;
use outer_io::{FileName, Pages};
use page_cache::{Damage, FirstPage, PAGE_LEN, PageFault, pages_for, read_payloads};
use std::alloc::Global;

/// Reads the head and the index of a segment, and no leaf page. Damages come in this order: the file is missing; it
/// has no first page; that page is none for its place; its fields are out of range (Body); it has other dimensions
/// than `D` (Unequal, `D` as said); the size; the index pages; the index (Body); the number of leaf pages (Unequal,
/// the head's number as said).
pub fn open_segment<const D: usize, F: Pages>(
    alloc: Global,
    folder: &mut F,
    id: u64,
) -> Result<SegmentHead<D>, PageFault>
    requires { (1 ≤ D) × (D ≤ 8) }
    ensures files { IsTrue F.told → F.files folder.new ≡ F.files folder.old }
    ensures reads { IfOk result (λ h. F.reads folder.new ≤ F.reads folder.old + 1 + index_pages h) }
    // and where the file has a head, whatever is answered
    ensures most { IsTrue F.told → (h : Head) → h.id ≡ id → IsHeadOf D (bytes_of (F.files folder.old (Segment id))) h
        → F.reads folder.new ≤ F.reads folder.old + 1 + index_pages h }
    // no leaf page is read, whatever is answered
    ensures no_leaf { IsTrue F.told → (n : ℕ) × (F.reads folder.new ≤ F.reads folder.old + n)
        × AreBeforeLeaves (bytes_of (F.files folder.old (Segment id))) n }
    ensures cause { HasPageCause (F.faults folder.old) (F.faults folder.new) result }
    ensures id { IfOk result (λ h. h.id ≡ id) }
    ensures spelled { IfOk result (λ h. IsSpelled D h.index) }
    ensures head { IsTrue F.told → IfOk result (IsHeadOf D (bytes_of (F.files folder.old (Segment id)))) }
    ensures shown { OnDamage result (IsHeadDamage id) }
    ensures damage { IsTrue F.told → OnDamage result (IsHeadDamageOf D (F.files folder.old)) }
    ensures whole { IsTrue F.told → (h : Head) → h.id ≡ id → IsHeadOf D (bytes_of (F.files folder.old (Segment id))) h
        → NotDamaged result }
{
    let (first, fields) = read_head::<D, F>(alloc, folder, id)?;
    let index = read_index::<D, F>(alloc, folder, id, first.payload(), fields)?;
    agree(
        id,
        u64::from(fields.leaf_pages),
        u64::from(index.leaf_pages()),
    )?;
    Ok(SegmentHead {
        id,
        entries: fields.entries,
        leaf_size: fields.leaf_size,
        index,
    })
}

/// The first page of a segment and its fields, in the dimensions `D`, where the file has the size that these need.
fn read_head<const D: usize, F: Pages>(
    alloc: Global,
    folder: &mut F,
    id: u64,
) -> Result<(FirstPage, HeadFields), PageFault>
    requires { (1 ≤ D) × (D ≤ 8) }
    ensures files { IsTrue F.told → F.files folder.new ≡ F.files folder.old }
    ensures reads { F.reads folder.new ≤ F.reads folder.old + 1 }
    ensures cause { HasPageCause (F.faults folder.old) (F.faults folder.new) result }
    ensures name { IfOk result (λ r. first_name r.0 ≡ Segment id) }
    ensures first { IsTrue F.told → IfOk result (λ r. IsFirstPage (F.files folder.old) r.0) }
    ensures fields { IfOk result (λ r. HasFields (first_payload r.0) r.1) }
    ensures dims { IfOk result (λ r. r.1.dims ≡ D) }
    ensures size { IfOk result (λ r. first_size r.0 ≡ 4096 * (1 + pages_for_body r.1.index_length + r.1.leaf_pages)) }
    ensures shown { OnDamage result (IsHeadDamage id) }
    ensures damage { IsTrue F.told → OnDamage result (IsHeadDamageOf D (F.files folder.old)) }
    ensures whole { IsTrue F.told → (h : Head) → h.id ≡ id → IsHeadOf D (bytes_of (F.files folder.old (Segment id))) h
        → NotDamaged result }
{
    let first = FirstPage::read(alloc, folder, &FileName::Segment(id))?;
    let fields = fields_of(alloc, id, first.payload())?;
    agree(id, D as u64, u64::from(fields.dims))?;
    check_size(&first, id, fields)?;
    Ok((first, fields))
}

/// The fields of the payload of a first page. Where they are out of range, the damage carries the payload.
fn fields_of(alloc: Global, id: u64, payload: &[u8]) -> Result<HeadFields, PageFault>
    requires { length payload.now ≡ 4064 }
    ensures fields { IfOk result (HasFields payload.now) }
    ensures shown { OnDamage result (IsHeadDamage id) }
    ensures carried { OnDamage result (IsBodyDamage (Segment id) payload.now) }
    ensures no_fault { IsErrOf result page.Failed → ⊥ }
{
    match HeadFields::parse(payload) {
        Some(fields) => Ok(fields),
        None => Err(no_head(alloc, id, payload, &[])),
    }
}

/// The damage that these payloads, one behind the other, begin no head and index.
fn no_head(alloc: Global, id: u64, first: &[u8], index: &[u8]) -> PageFault
    requires { BeginsNoHead (first.now ++ index.now) }
    ensures shown { OnFault result (IsHeadDamage id) }
    ensures carried { OnFault result (IsBodyDamage (Segment id) (first.now ++ index.now)) }
    ensures no_fault { result ≢ page.Failed }
{
    match joined(alloc, first, index) {
        Ok(bytes) => PageFault::Damaged(Damage::Body {
            file: FileName::Segment(id),
            bytes: Bytes::new(bytes),
        }),
        Err(_) => PageFault::Memory,
    }
}

/// Whether the two numbers of the segment's file agree.
fn agree(id: u64, said: u64, found: u64) -> Result<(), PageFault>
    ensures ok { IsOk result ↔ (said ≡ found) }
    ensures shown { OnDamage result (IsHeadDamage id) }
    ensures pair { OnDamage result (IsPairDamage (Segment id) said found) }
    ensures no_fault { IsErrOf result page.Failed → ⊥ }
{
    if said == found {
        Ok(())
    } else {
        Err(PageFault::Damaged(Damage::Unequal {
            file: FileName::Segment(id),
            said,
            found,
        }))
    }
}

/// Whether the file has just the pages that the fields say.
fn check_size(first: &FirstPage, id: u64, fields: HeadFields) -> Result<(), PageFault>
    requires { first_name first.now ≡ Segment id }
    ensures ok { IsOk result ↔
        (first_size first.now ≡ 4096 * (1 + pages_for_body fields.index_length + fields.leaf_pages)) }
    ensures shown { OnDamage result (IsHeadDamage id) }
    ensures damage { (D : ℕ) (files : Files) → IsFirstPage files first.now → HasFields (first_payload first.now) fields
        → OnDamage result (IsHeadDamageOf D files) }
    ensures no_fault { IsErrOf result page.Failed → ⊥ }
{
    let pages = 1 + u64::from(pages_for(fields.index_length)) + u64::from(fields.leaf_pages);
    let needed = PAGE_LEN as u64 * pages;
    if first.size() == needed {
        Ok(())
    } else {
        Err(PageFault::Damaged(Damage::Size {
            file: FileName::Segment(id),
            size: first.size(),
            needed,
        }))
    }
}

/// The index of a segment whose first page has this payload and these fields.
fn read_index<const D: usize, F: Pages>(
    alloc: Global,
    folder: &mut F,
    id: u64,
    payload: &[u8],
    fields: HeadFields,
) -> Result<Index<D>, PageFault>
    requires dims { (1 ≤ D) × (D ≤ 8) × (fields.dims ≡ D) }
    requires long { length payload.now ≡ 4064 }
    requires fields { HasFields payload.now fields }
    ensures files { IsTrue F.told → F.files folder.new ≡ F.files folder.old }
    ensures reads { F.reads folder.new ≤ F.reads folder.old + pages_for_body fields.index_length }
    ensures cause { HasPageCause (F.faults folder.old) (F.faults folder.new) result }
    ensures index { IfOk result (λ i. (payloads : List ℕ) × IsIndexOf D fields payloads i) }
    ensures payloads { IsTrue F.told
        → IfOk result
        (IsIndexOf D fields
        (payloads_of (bytes_of (F.files folder.old (Segment id))) 1 (pages_for_body fields.index_length))) }
    ensures pages { IsTrue F.told
        → OnOk result
        (ArePages (Segment id) (bytes_of (F.files folder.old (Segment id))) 1
        (1 + pages_for_body fields.index_length)) }
    ensures shown { OnDamage result (IsHeadDamage id) }
    ensures damage { IsTrue F.told → IsFilePage (Segment id) (bytes_of (F.files folder.old (Segment id))) 0
        → payload.now ≡ payload_of (page_at (bytes_of (F.files folder.old (Segment id))) 0)
        → length (bytes_of (F.files folder.old (Segment id))) ≡ 4096 *
        (1 + pages_for_body fields.index_length + fields.leaf_pages)
        → OnDamage result (IsHeadDamageOf D (F.files folder.old)) }
    ensures whole { IsTrue F.told → (h : Head) → h.id ≡ id → IsHeadOf D (bytes_of (F.files folder.old (Segment id))) h
        → payload.now ≡ payload_of (page_at (bytes_of (F.files folder.old (Segment id))) 0) → NotDamaged result }
{
    let pages = pages_for(fields.index_length);
    let payloads = read_payloads(alloc, folder, &FileName::Segment(id), pages)?;
    index_of(alloc, id, payload, fields, payloads)
}

/// The index that fills the payloads behind the first page.
fn index_of<const D: usize>(
    alloc: Global,
    id: u64,
    payload: &[u8],
    fields: HeadFields,
    payloads: Vec<u8>,
) -> Result<Index<D>, PageFault>
    requires dims { (1 ≤ D) × (D ≤ 8) × (fields.dims ≡ D) }
    requires fields { HasFields payload.now fields }
    requires long { vec_len payloads ≡ 4064 * pages_for_body fields.index_length }
    ensures index { IfOk result (IsIndexOf D fields payloads.items) }
    ensures shown { OnDamage result (IsHeadDamage id) }
    ensures carried { OnDamage result (IsBodyDamage (Segment id) (payload.now ++ payloads.items)) }
    ensures no_fault { IsErrOf result page.Failed → ⊥ }
{
    let (body, rest) = payloads.as_slice().split_at(fields.index_length as usize);
    if !is_blank(rest) {
        return Err(no_head(alloc, id, payload, payloads.as_slice()));
    }
    let body = Bytes::new(Vec::from_slice(alloc, body)?);
    match Index::read(fields.form, fields.leaves, body) {
        Ok(index) => Ok(index),
        Err(_) => Err(no_head(alloc, id, payload, payloads.as_slice())),
    }
}
