//! The first page of a file that is read whole or from its head on.

ghost use Rattle.page_file.specs.Page.{IsPage};
ghost use Rattle.page_cache.specs.FilePages.{kind_of, number_of};

use crate::faults::{Damage, PageFault};
use crate::read::{append_payloads, payload_bytes, read_page};
use outer_io::{FileName, Pages};
use page_file::{PAGE_LEN, PAYLOAD_LEN, PageBytes};
use std::alloc::Global;

/// The first page of a file, with the file's name and size.
///
/// A file is looked at in this order: it is there; it has a first page; the first page is one for its place; the
/// fields at fixed offsets in it, which its reader knows; the size of the file, `check_size`; the other pages by
/// number, `joined`; then what its reader knows of the whole.
#[derive(Drop)]
pub struct FirstPage {
    name: FileName,
    size: u64,
    page: Box<PageBytes>,
    ghost valid: { IsPage (kind_of name) (number_of name) 0 page.value.b },
}

impl FirstPage {
    ghost use Rattle.std.specs.Prelude.{◌≡◌, ◌≤◌, ◌+◌, ◌*◌, length, vec_len, IsTrue, IsOk, IfOk, OnOk, IfSome, IfNone};
    ghost use Rattle.std.specs.Prelude.{None, IsErrOf, ◌↔◌};
    ghost use Rattle.outer_io.specs.Files.{bytes_of};
    ghost use Rattle.page_cache.specs.FilePages.{IsFilePage, ArePages, payloads_of};
    ghost use Rattle.page_cache.specs.Evidence.{OnDamage, NotDamaged, SizeNeeds, SizeWithin, IsSizeDamage};
    ghost use Rattle.page_cache.specs.Evidence.{IsFileDamage, IsFileDamageOf};
    ghost use Rattle.page_cache.specs.FirstPages.{first_name, first_payload, first_size, IsFirstPage};
    ghost use Rattle.page_cache.specs.declared.faults.PageFault.TheVariants as page;
    ghost use Rattle.page_cache.specs.Reading.{OnlyReads};

    /// Reads the size and the first page of a file, and None where it isn't there. Size where the file has fewer
    /// bytes than a page, and then Page, are the damages.
    #[tactic(auto, unfolding(crate::specs::FirstPages::first_name, crate::specs::FirstPages::first_payload, crate::specs::FirstPages::first_size))]
    pub fn find<F: Pages>(
        alloc: Global,
        folder: &mut F,
        name: &FileName,
    ) -> Result<Option<FirstPage>, PageFault>
        ensures reading { OnlyReads F.told (F.files folder.old) (F.files folder.new)
            (F.faults folder.old) (F.faults folder.new) result }
        ensures reads { F.reads folder.new ≤ F.reads folder.old + 1 }
        ensures name { IfOk result (λ found. IfSome found (λ p. first_name p ≡ name.now)) }
        ensures first { IsTrue F.told → IfOk result (λ found. IfSome found (IsFirstPage (F.files folder.old))) }
        ensures none { IsTrue F.told → IfOk result (λ found. IfNone found (F.files folder.old name.now ≡ None)) }
        ensures shown { OnDamage result (IsFileDamage name.now) }
        ensures needed { OnDamage result (SizeNeeds 4096) }
        ensures damage { IsTrue F.told → OnDamage result (IsFileDamageOf (F.files folder.old)) }
        ensures absent { IsTrue F.told → F.files folder.old name.now ≡ None → NotDamaged result }
        // a file that isn't there is not read
        ensures unread { IsTrue F.told → F.files folder.old name.now ≡ None → F.reads folder.new ≡ F.reads folder.old }
        ensures whole { IsTrue F.told → IsFilePage name.now (bytes_of (F.files folder.old name.now)) 0
            → NotDamaged result }
    {
        let Some(size) = folder.size(name)? else {
            return Ok(None);
        };
        if size < PAGE_LEN as u64 {
            return Err(PageFault::Damaged(Damage::Size {
                file: *name,
                size,
                needed: PAGE_LEN as u64,
            }));
        }
        let page = read_page(alloc, folder, name, 0)?;
        Ok(Some(FirstPage {
            name: *name,
            size,
            page,
        }))
    }

    /// Reads the size and the first page of a file. Missing, Size where the file has fewer bytes than a page, and
    /// then Page are the damages.
    #[tactic(auto, unfolding(crate::specs::FirstPages::first_name, crate::specs::FirstPages::first_payload, crate::specs::FirstPages::first_size))]
    pub fn read<F: Pages>(
        alloc: Global,
        folder: &mut F,
        name: &FileName,
    ) -> Result<FirstPage, PageFault>
        ensures reading { OnlyReads F.told (F.files folder.old) (F.files folder.new)
            (F.faults folder.old) (F.faults folder.new) result }
        ensures reads { F.reads folder.new ≤ F.reads folder.old + 1 }
        ensures name { IfOk result (λ p. first_name p ≡ name.now) }
        ensures first { IsTrue F.told → IfOk result (IsFirstPage (F.files folder.old)) }
        ensures shown { OnDamage result (IsFileDamage name.now) }
        ensures needed { OnDamage result (SizeNeeds 4096) }
        ensures damage { IsTrue F.told → OnDamage result (IsFileDamageOf (F.files folder.old)) }
        ensures whole { IsTrue F.told → IsFilePage name.now (bytes_of (F.files folder.old name.now)) 0
            → NotDamaged result }
    {
        match FirstPage::find(alloc, folder, name)? {
            Some(first) => Ok(first),
            None => Err(PageFault::Damaged(Damage::Missing { file: *name })),
        }
    }

    /// The payload of the page, 4,064 bytes.
    #[tactic(auto, unfolding(crate::specs::FirstPages::first_name, crate::specs::FirstPages::first_payload, crate::specs::FirstPages::first_size))]
    pub fn payload(&self) -> &[u8]
        ensures bytes { result.now ≡ first_payload self.now }
        ensures len { length result.now ≡ 4064 }
    {
        payload_bytes(&self.page)
    }

    /// The size of the file in bytes.
    #[tactic(auto, unfolding(crate::specs::FirstPages::first_name, crate::specs::FirstPages::first_payload, crate::specs::FirstPages::first_size))]
    pub fn size(&self) -> u64
        ensures { result ≡ first_size self.now }
    {
        self.size
    }

    /// Whether the file has just so many pages; else the Size that it has and needs. Takes no memory.
    #[tactic(auto, unfolding(crate::specs::FirstPages::first_name, crate::specs::FirstPages::first_payload, crate::specs::FirstPages::first_size))]
    pub fn check_size(&self, pages: u32) -> Result<(), PageFault>
        ensures ok { IsOk result ↔ (first_size self.now ≡ 4096 * pages) }
        ensures failed { IsErrOf result page.Failed → ⊥ }
        ensures shown { OnDamage result (IsFileDamage (first_name self.now)) }
        ensures size { OnDamage result (IsSizeDamage (first_name self.now) (first_size self.now) (4096 * pages)) }
    {
        let needed = PAGE_LEN as u64 * u64::from(pages);
        if self.size == needed {
            Ok(())
        } else {
            Err(PageFault::Damaged(Damage::Size {
                file: self.name,
                size: self.size,
                needed,
            }))
        }
    }

    /// The payloads of the first `pages` pages of the file, this one's and those of the others, which are read by
    /// one call each, one after another.
    #[tactic(auto, unfolding(crate::specs::FirstPages::first_name, crate::specs::FirstPages::first_payload, crate::specs::FirstPages::first_size))]
    pub fn joined<F: Pages>(
        &self,
        alloc: Global,
        folder: &mut F,
        pages: u32,
    ) -> Result<Vec<u8>, PageFault>
        requires { 1 ≤ pages }
        ensures reading { OnlyReads F.told (F.files folder.old) (F.files folder.new)
            (F.faults folder.old) (F.faults folder.new) result }
        ensures reads { F.reads folder.new + 1 ≤ F.reads folder.old + pages }
        ensures len { IfOk result (λ v. vec_len v ≡ 4064 * pages) }
        ensures payloads { IsTrue F.told → IsFirstPage (F.files folder.old) self.now
            → IfOk result
            (λ v. v.items ≡ payloads_of (bytes_of (F.files folder.old (first_name self.now))) 0 pages) }
        ensures pages { IsTrue F.told → IsFirstPage (F.files folder.old) self.now
            → OnOk result
            (ArePages (first_name self.now) (bytes_of (F.files folder.old (first_name self.now))) 0 pages) }
        ensures shown { OnDamage result (IsFileDamage (first_name self.now)) }
        ensures within { OnDamage result (SizeWithin (4096 * pages)) }
        ensures damage { IsTrue F.told → OnDamage result (IsFileDamageOf (F.files folder.old)) }
        ensures whole { IsTrue F.told
            → ArePages (first_name self.now) (bytes_of (F.files folder.old (first_name self.now))) 1 pages
            → NotDamaged result }
    {
        let mut out = Vec::with_capacity(alloc, pages as usize * PAYLOAD_LEN)?;
        out.extend_from_slice(self.payload())?;
        append_payloads(alloc, folder, &self.name, pages - 1, &mut out)?;
        Ok(out)
    }
}
