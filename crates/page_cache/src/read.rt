//! Pages read from a file.

ghost use Rattle.std.specs.Prelude.{◌≡◌, ◌≤◌, ◌<◌, ◌+◌, ◌*◌, ◌++◌, ◌↔◌, length, vec_len, IsTrue, IfOk, OnOk};
ghost use Rattle.std.specs.Prelude.{IfErr, OnErr};
ghost use Rattle.outer_io.specs.Counts.{RisesByOne};
ghost use Rattle.outer_io.specs.Faults.{HasCause};
ghost use Rattle.outer_io.specs.Files.{bytes_of};
ghost use Rattle.page_file.specs.Page.{IsPage, payload_of};
ghost use Rattle.page_cache.specs.FilePages.{kind_of, number_of, IsFilePage, ArePages, payloads_of};
ghost use Rattle.page_cache.specs.Evidence.{OnDamage, NotDamaged, IsPageOf, seen_end, SizeWithin, IsPageDamage};
ghost use Rattle.page_cache.specs.Evidence.{IsPageDamageOf, IsFileDamage, IsFileDamageOf};
ghost use Rattle.page_cache.specs.declared.faults.PageFault.TheVariants as fault;
ghost use Rattle.page_cache.specs.declared.faults.Damage.TheVariants as damage;
ghost use Rattle.page_cache.specs.Reading.{OnlyReads};

use crate::faults::{Damage, Memory, PageFault};
use outer_io::{Failed, FileName, Pages};
use page_file::{PAGE_LEN, PAYLOAD_LEN, PageBytes, PageView};
use std::alloc::Global;

/// The kind and the number that the digests of the file's pages cover.
pub(crate) fn place_of(name: &FileName) -> (u8, u64)
    ensures { (result.0 ≡ kind_of name.now) × (result.1 ≡ number_of name.now) }
{
    match *name {
        FileName::Segment(id) => (1, id),
        FileName::Live { segment, .. } => (2, segment),
        FileName::Commit | FileName::CommitNew => (3, 0),
    }
}

/// A page of zeros, which is room to read one.
fn blank_page(alloc: Global) -> Result<Box<PageBytes>, Memory> {
    Ok(Box::new(alloc, PageBytes { b: [0; PAGE_LEN] })?)
}

/// Whether the bytes are a page for that place.
fn is_page(name: &FileName, number: u32, page: &PageBytes) -> bool
    ensures { IsTrue result ↔ IsPage (kind_of name.now) (number_of name.now) number page.now.b }
{
    let (kind, file) = place_of(name);
    PageView::check(kind, file, number, page).is_some()
}

/// The page, if it is one for that place.
fn checked(name: &FileName, number: u32, page: Box<PageBytes>) -> Result<Box<PageBytes>, PageFault>
    ensures same { IfOk result (λ p. p ≡ page) }
    ensures valid { OnOk result (IsPage (kind_of name.now) (number_of name.now) number page.value.b) }
    ensures other { IfErr result (λ e. e ≡ fault.Damaged (damage.Page name.now number page)) }
    ensures invalid { OnErr result (IsPage (kind_of name.now) (number_of name.now) number page.value.b → ⊥) }
{
    if is_page(name, number, &page) {
        Ok(page)
    } else {
        Err(PageFault::Damaged(Damage::Page {
            file: *name,
            number,
            bytes: page,
        }))
    }
}

/// Reads the bytes where a page of a file stands, by one call, and says how many there are.
fn read_bytes<F: Pages>(
    folder: &mut F,
    name: &FileName,
    number: u32,
    page: &mut PageBytes,
) -> Result<usize, Failed>
    ensures files { IsTrue F.told → F.files folder.new ≡ F.files folder.old }
    ensures reads { RisesByOne (F.reads folder.old) (F.reads folder.new) }
    ensures cause { HasCause (F.faults folder.old) (F.faults folder.new) result }
    ensures whole { IsTrue F.told
        → IfOk result (λ count. 4096 ≤ count → IsPageOf (F.files folder.old) name.now number page.new.b) }
    ensures end { IsTrue F.told
        → IfOk result (λ count. count < 4096 → 4096 * number + count ≡ seen_end (F.files folder.old) name.now number) }
    ensures none { IsTrue F.told
        → IfOk result
        (λ count. count < 4096 → IsFilePage name.now (bytes_of (F.files folder.old name.now)) number → ⊥) }
{
    let count = folder.read_at(name, PAGE_LEN as u64 * u64::from(number), &mut page.b)?;
    Ok(count)
}

/// Reads a page of a file over other bytes, by one call. Takes no memory.
pub(crate) fn read_over<F: Pages>(
    folder: &mut F,
    name: &FileName,
    number: u32,
    mut page: Box<PageBytes>,
) -> Result<Box<PageBytes>, PageFault>
    ensures reading { OnlyReads F.told (F.files folder.old) (F.files folder.new)
        (F.faults folder.old) (F.faults folder.new) result }
    ensures reads { F.reads folder.new ≤ F.reads folder.old + 1 }
    ensures once { OnOk result (RisesByOne (F.reads folder.old) (F.reads folder.new)) }
    ensures valid { IfOk result (λ p. IsPage (kind_of name.now) (number_of name.now) number p.value.b) }
    ensures bytes { IsTrue F.told → IfOk result (λ p. IsPageOf (F.files folder.old) name.now number p.value.b) }
    ensures shown { OnDamage result (IsPageDamage name.now number) }
    ensures damage { IsTrue F.told → OnDamage result (IsPageDamageOf (F.files folder.old) number) }
    ensures whole { IsTrue F.told → IsFilePage name.now (bytes_of (F.files folder.old name.now)) number
        → NotDamaged result }
{
    let count = read_bytes(folder, name, number, &mut page)?;
    if count < PAGE_LEN {
        let begin = PAGE_LEN as u64 * u64::from(number);
        return Err(PageFault::Damaged(Damage::Size {
            file: *name,
            size: begin + count as u64,
            needed: begin + PAGE_LEN as u64,
        }));
    }
    checked(name, number, page)
}

/// Reads a page of a file by one call.
pub(crate) fn read_page<F: Pages>(
    alloc: Global,
    folder: &mut F,
    name: &FileName,
    number: u32,
) -> Result<Box<PageBytes>, PageFault>
    ensures reading { OnlyReads F.told (F.files folder.old) (F.files folder.new)
        (F.faults folder.old) (F.faults folder.new) result }
    ensures reads { F.reads folder.new ≤ F.reads folder.old + 1 }
    ensures once { OnOk result (RisesByOne (F.reads folder.old) (F.reads folder.new)) }
    ensures valid { IfOk result (λ p. IsPage (kind_of name.now) (number_of name.now) number p.value.b) }
    ensures bytes { IsTrue F.told → IfOk result (λ p. IsPageOf (F.files folder.old) name.now number p.value.b) }
    ensures shown { OnDamage result (IsPageDamage name.now number) }
    ensures damage { IsTrue F.told → OnDamage result (IsPageDamageOf (F.files folder.old) number) }
    ensures whole { IsTrue F.told → IsFilePage name.now (bytes_of (F.files folder.old name.now)) number
        → NotDamaged result }
{
    let page = blank_page(alloc)?;
    read_over(folder, name, number, page)
}

/// The payload of a page.
pub(crate) fn payload_bytes(page: &PageBytes) -> &[u8]
    ensures bytes { result.now ≡ payload_of page.now.b }
    ensures len { length result.now ≡ 4064 }
{
    let (payload, _) = page.b.as_slice().split_at(PAYLOAD_LEN);
    payload
}

/// Appends the payloads of `count` pages of a file behind its first, each read by one call.
pub(crate) fn append_payloads<F: Pages>(
    alloc: Global,
    folder: &mut F,
    name: &FileName,
    count: u32,
    out: &mut Vec<u8>,
) -> Result<(), PageFault>
    ensures reading { OnlyReads F.told (F.files folder.old) (F.files folder.new)
        (F.faults folder.old) (F.faults folder.new) result }
    ensures reads { F.reads folder.new ≤ F.reads folder.old + count }
    ensures payloads { IsTrue F.told
        → OnOk result
        (out.new.items ≡ out.old.items ++ payloads_of (bytes_of (F.files folder.old name.now)) 1 count) }
    ensures len { OnOk result (vec_len out.new ≡ vec_len out.old + 4064 * count) }
    ensures pages { IsTrue F.told
        → OnOk result (ArePages name.now (bytes_of (F.files folder.old name.now)) 1 (1 + count)) }
    ensures shown { OnDamage result (IsFileDamage name.now) }
    ensures within { OnDamage result (SizeWithin (4096 * (1 + count))) }
    ensures damage { IsTrue F.told → OnDamage result (IsFileDamageOf (F.files folder.old)) }
    ensures whole { IsTrue F.told → ArePages name.now (bytes_of (F.files folder.old name.now)) 1 (1 + count)
        → NotDamaged result }
{
    let mut page = blank_page(alloc)?;
    'pages: for i in 0..count {
        page = read_over(folder, name, 1 + i, page)?;
        out.extend_from_slice(payload_bytes(&page))?;
    }
    Ok(())
}

/// The payloads of `count` pages of a file behind its first, one after another. Each page is read by one call. The
/// first page that isn't there whole, or is none for its place, is the damage.
pub fn read_payloads<F: Pages>(
    alloc: Global,
    folder: &mut F,
    name: &FileName,
    count: u32,
) -> Result<Vec<u8>, PageFault>
    ensures reading { OnlyReads F.told (F.files folder.old) (F.files folder.new)
        (F.faults folder.old) (F.faults folder.new) result }
    ensures reads { F.reads folder.new ≤ F.reads folder.old + count }
    ensures payloads { IsTrue F.told
        → IfOk result (λ v. v.items ≡ payloads_of (bytes_of (F.files folder.old name.now)) 1 count) }
    ensures len { IfOk result (λ v. vec_len v ≡ 4064 * count) }
    ensures pages { IsTrue F.told
        → OnOk result (ArePages name.now (bytes_of (F.files folder.old name.now)) 1 (1 + count)) }
    ensures shown { OnDamage result (IsFileDamage name.now) }
    ensures within { OnDamage result (SizeWithin (4096 * (1 + count))) }
    ensures damage { IsTrue F.told → OnDamage result (IsFileDamageOf (F.files folder.old)) }
    ensures whole { IsTrue F.told → ArePages name.now (bytes_of (F.files folder.old name.now)) 1 (1 + count)
        → NotDamaged result }
{
    let mut out = Vec::with_capacity(alloc, count as usize * PAYLOAD_LEN)?;
    append_payloads(alloc, folder, name, count, &mut out)?;
    Ok(out)
}
