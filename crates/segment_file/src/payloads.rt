//! Payloads of pages in memory: whether they are blank, and how they are joined.

ghost use Rattle.std.specs.Prelude.{◌≡◌, ◌≤◌, ◌↔◌, ◌++◌, ◌+◌, ◌*◌, ℕ, List, IsTrue, IfOk, OnOk, length, vec_len};
ghost use Rattle.std.specs.Prelude.{replicate};
ghost use Rattle.outer_io.specs.Files.{bytes_of};
ghost use Rattle.page_cache.specs.Causes.{HasPageCause};
ghost use Rattle.page_cache.specs.Evidence.{OnDamage, NotDamaged, SizeWithin, IsFileDamage, IsFileDamageOf};
ghost use Rattle.page_cache.specs.FilePages.{ArePages, payloads_of};
ghost use Rattle.page_cache.specs.FirstPages.{first_name, first_payload, IsFirstPage};

use byte_cursor::Memory;
use outer_io::{FileName, Pages};
use page_cache::{FirstPage, PageFault, read_payloads};
use std::alloc::Global;

/// Whether all the bytes are zero.
pub(crate) fn is_blank(bytes: &[u8]) -> bool
    ensures { IsTrue result ↔ (bytes.now ≡ replicate (length bytes.now) 0) }
{
    bytes.iter().all(|b| *b == 0)
}

/// The bytes one behind the other.
pub(crate) fn joined(alloc: Global, front: &[u8], back: &[u8]) -> Result<Vec<u8>, Memory>
    ensures items { IfOk result (λ v. v.items ≡ front.now ++ back.now) }
    ensures len { IfOk result (λ v. vec_len v ≡ length front.now + length back.now) }
{
    let mut all = Vec::with_capacity(alloc, front.len().saturating_add(back.len()))?;
    all.extend_from_slice(front)?;
    all.extend_from_slice(back)?;
    Ok(all)
}

/// The payloads of the first `pages` pages of a file, of which the first one is read.
pub(crate) fn all_payloads<F: Pages>(
    alloc: Global,
    folder: &mut F,
    name: &FileName,
    first: &FirstPage,
    pages: u32,
) -> Result<Vec<u8>, PageFault>
    requires some { 1 ≤ pages }
    requires name { first_name first.now ≡ name.now }
    ensures files { IsTrue F.told → F.files folder.new ≡ F.files folder.old }
    ensures reads { F.reads folder.new + 1 ≤ F.reads folder.old + pages }
    ensures cause { HasPageCause (F.faults folder.old) (F.faults folder.new) result }
    ensures len { IfOk result (λ v. vec_len v ≡ 4064 * pages) }
    ensures front { IfOk result (λ v. (rest : List ℕ) × (v.items ≡ first_payload first.now ++ rest)) }
    ensures payloads { IsTrue F.told → IsFirstPage (F.files folder.old) first.now
        → IfOk result (λ v. v.items ≡ payloads_of (bytes_of (F.files folder.old name.now)) 0 pages) }
    ensures pages { IsTrue F.told → IsFirstPage (F.files folder.old) first.now
        → OnOk result (ArePages name.now (bytes_of (F.files folder.old name.now)) 0 pages) }
    ensures shown { OnDamage result (IsFileDamage name.now) }
    ensures within { OnDamage result (SizeWithin (4096 * pages)) }
    ensures damage { IsTrue F.told → OnDamage result (IsFileDamageOf (F.files folder.old)) }
    ensures whole { IsTrue F.told → ArePages name.now (bytes_of (F.files folder.old name.now)) 1 pages
        → NotDamaged result }
{
    let rest = read_payloads(alloc, folder, name, pages - 1)?;
    Ok(joined(alloc, first.payload(), rest.as_slice())?)
}
