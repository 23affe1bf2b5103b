//! The cache of pages of segment files.

ghost use Rattle.page_cache.specs.Keys.{AllValid};

use crate::faults::{Memory, PageFault};
use crate::kept::{
    KeptPages, add_note, has_dead_part, keep, kept_page, mark_part, remove_page, remove_pages,
    touch,
};
use crate::key::PageKey;
use crate::leaf_part::LeafPart;
use crate::note::LeafNote;
use crate::read::read_page;
use lru::LruCache;
use outer_io::{FileName, Pages};
use page_file::{PageBytes, PageView};
use std::alloc::Global;
use std::num::NonZeroUsize;

/// The kind of a segment's file.
const SEGMENT_KIND: u8 = 1;

/// Pages of segment files, those that were used last, each known to be a page for its place.
#[derive(Drop)]
pub struct PageCache {
    pages: KeptPages,
    ghost valid: { AllValid pages.entries },
}

impl PageCache {
    ghost use Rattle.std.specs.Prelude.{◌≡◌, ◌≢◌, ◌≤◌, ◌+◌, ◌⊎◌, ℕ, List, [], IsTrue, IsOk, OnOk, OnErr, IfOk, IfSome};
    ghost use Rattle.std.specs.Prelude.{◌↔◌, IfNone, OnSome};
    ghost use Rattle.outer_io.specs.Counts.{RisesByOne};
    ghost use Rattle.outer_io.specs.Files.{Files, bytes_of};
    ghost use Rattle.outer_io.specs.declared.file_name.FileName.TheVariants.{Segment};
    ghost use Rattle.page_file.specs.Page.{IsPage};
    ghost use Rattle.page_cache.specs.FilePages.{kind_of, number_of, IsFilePage};
    ghost use Rattle.page_cache.specs.Evidence.{OnDamage, NotDamaged, IsPageOf, IsPageDamage, IsPageDamageOf};
    ghost use Rattle.page_cache.specs.Causes.{IsSteady};
    ghost use Rattle.page_cache.specs.Keys.{page_key, keys_but};
    ghost use Rattle.page_cache.specs.Notes.{Fits};
    ghost use Rattle.page_cache.specs.Cache.{Keeps, IsKept, KeepsFile, Agrees, room_of, order_of, of_others, IsUsed};
    ghost use Rattle.page_cache.specs.Cache.{KeepsOf, KeepsPages, KeepsDead, MarksGo, IsKeptOf};
    ghost use Rattle.page_cache.specs.Reading.{ReadsCached};

    /// A cache with room for so many pages, 1 to 65,536, that keeps none.
    #[tactic(auto, unfolding(crate::specs::Cache::Keeps, crate::specs::Cache::IsKept, crate::specs::Cache::KeepsFile, crate::specs::Cache::Agrees, crate::specs::Cache::room_of, crate::specs::Cache::order_of))]
    pub fn new(alloc: Global, pages: u32) -> Result<PageCache, Memory>
        requires some { 1 ≤ pages }
        requires fits { pages ≤ 65536 }
        ensures room { IfOk result (λ c. room_of c ≡ pages) }
        ensures order { IfOk result (λ c. order_of c ≡ []) }
        ensures empty { IfOk result (λ c. (id : ℕ) → KeepsFile c id → ⊥) }
        ensures agrees { IfOk result (λ c. (files : Files) → Agrees files c) }
    {
        let room = NonZeroUsize::new(pages as usize).unwrap();
        Ok(PageCache {
            pages: LruCache::sparse(alloc, room)?,
        })
    }

    /// Sees to it that a page of a segment's file is kept. A page that is kept is found without a read and without
    /// memory. Another is read by one call; where the room is full, the page least lately used goes for it. A
    /// refusal leaves all kept pages.
    #[tactic(auto, unfolding(crate::specs::Cache::Keeps, crate::specs::Cache::IsKept, crate::specs::Cache::KeepsFile, crate::specs::Cache::Agrees, crate::specs::Cache::room_of, crate::specs::Cache::order_of))]
    pub fn load<F: Pages>(
        &mut self,
        alloc: Global,
        folder: &mut F,
        id: u64,
        number: u32,
    ) -> Result<(), PageFault>
        ensures reading { ReadsCached F.told (λ i. i ≡ id) (F.files folder.old) (F.files folder.new)
            self.old self.new (F.faults folder.old) (F.faults folder.new) result }
        ensures reads { F.reads folder.new ≤ F.reads folder.old + 1 }
        ensures steady { IsSteady (F.faults folder.old) (F.faults folder.new) result }
        ensures hit { IsKept self.old id number → IsOk result × (F.reads folder.new ≡ F.reads folder.old)
            × KeepsPages self.old self.new }
        ensures once { (IsKept self.old id number → ⊥)
            → OnOk result (RisesByOne (F.reads folder.old) (F.reads folder.new)) }
        ensures used { OnOk result (IsUsed id number self.old self.new) }
        ensures refused { OnErr result (order_of self.new ≡ order_of self.old) }
        ensures room { room_of self.new ≡ room_of self.old }
        ensures stays { (i n : ℕ) (bytes : List ℕ) → Keeps self.new i n bytes
            → Keeps self.old i n bytes ⊎ ((i ≡ id) × (n ≡ number) × (IsKept self.old id number → ⊥)) }
        ensures shown { OnDamage result (IsPageDamage (Segment id) number) }
        ensures damage { IsTrue F.told → OnDamage result (IsPageDamageOf (F.files folder.old) number) }
        ensures whole { IsTrue F.told → IsFilePage (Segment id) (bytes_of (F.files folder.old (Segment id))) number
            → NotDamaged result }
    {
        let key = PageKey { id, number };
        if touch(&mut self.pages, key) {
            return Ok(());
        }
        let page = read_page(alloc, folder, &FileName::Segment(id), number)?;
        keep(&mut self.pages, key, page)?;
        Ok(())
    }

    /// A page that is kept. It computes no digest.
    #[tactic(auto, unfolding(crate::specs::Cache::Keeps, crate::specs::Cache::IsKept, crate::specs::Cache::KeepsFile, crate::specs::Cache::Agrees, crate::specs::Cache::room_of, crate::specs::Cache::order_of))]
    pub fn view(&self, id: u64, number: u32) -> PageView<'_>
        requires { IsKept self.now id number }
        ensures place { (result.kind ≡ 1) × (result.file ≡ id) × (result.number ≡ number) }
        ensures bytes { Keeps self.now id number result.bytes.now.b }
        // No other page is kept for that place.
        ensures only { (bytes : List ℕ) → Keeps self.now id number bytes → bytes ≡ result.bytes.now.b }
        ensures file { (files : Files) → Agrees files self.now → IsPageOf files (Segment id) number result.bytes.now.b }
    {
        let page = kept_page(&self.pages, PageKey { id, number });
        PageView::of_valid(SEGMENT_KIND, id, number, page.bytes())
    }

    /// A page that is kept, and whether this leaf of it was noted. It computes no digest.
    #[tactic(auto, unfolding(crate::specs::Cache::Keeps, crate::specs::Cache::IsKept, crate::specs::Cache::KeepsFile, crate::specs::Cache::Agrees, crate::specs::Cache::room_of, crate::specs::Cache::order_of))]
    pub fn noted_view(&self, id: u64, number: u32, note: &LeafNote) -> (PageView<'_>, bool)
        requires { IsKept self.now id number }
        ensures place { (result.0.kind ≡ 1) × (result.0.file ≡ id) × (result.0.number ≡ number) }
        ensures bytes { Keeps self.now id number result.0.bytes.now.b }
        // No other page is kept for that place.
        ensures only { (bytes : List ℕ) → Keeps self.now id number bytes → bytes ≡ result.0.bytes.now.b }
        ensures file { (files : Files) → Agrees files self.now
            → IsPageOf files (Segment id) number result.0.bytes.now.b }
        ensures noted { IsTrue result.1 → Fits note.now result.0.bytes.now.b }
    {
        let page = kept_page(&self.pages, PageKey { id, number });
        let view = PageView::of_valid(SEGMENT_KIND, id, number, page.bytes());
        (view, page.has(note))
    }

    /// Notes a leaf that was read in a page. What is kept stays as it is, and nothing is noted of a page that isn't
    /// kept. Takes no memory.
    #[tactic(auto, unfolding(crate::specs::Cache::Keeps, crate::specs::Cache::IsKept, crate::specs::Cache::KeepsFile, crate::specs::Cache::Agrees, crate::specs::Cache::room_of, crate::specs::Cache::order_of))]
    pub fn note(&mut self, id: u64, number: u32, note: LeafNote)
        requires { (bytes : List ℕ) → Keeps self.old id number bytes → Fits note bytes }
        ensures { self.new ≡ self.old }
    {
        add_note(&mut self.pages, PageKey { id, number }, note);
    }

    /// Marks a leaf of a page that is kept as dead: the cache knows then that its caller told so. What is kept stays as
    /// it is, and what was marked before may go for it. Takes no memory.
    pub fn mark_dead(&mut self, id: u64, number: u32, offset: u16, length: u16)
        ensures dead { (i n at len : ℕ) (bytes : List ℕ) → KeepsDead self.new i n at len bytes
            → KeepsDead self.old i n at len bytes
            ⊎ (Keeps self.old i n bytes × (i ≡ id) × (n ≡ number) × (at ≡ offset) × (len ≡ length)) }
        ensures keeps { (i n : ℕ) (bytes : List ℕ) → Keeps self.new i n bytes ↔ Keeps self.old i n bytes }
        ensures order { order_of self.new ≡ order_of self.old }
        ensures room { room_of self.new ≡ room_of self.old }
    {
        let part = LeafPart { offset, length };
        mark_part(&mut self.pages, PageKey { id, number }, part);
    }

    /// Whether a leaf is known to be dead: it is of a page that is kept then. This is no use of the page.
    #[tactic(auto, unfolding(crate::specs::Cache::Keeps, crate::specs::Cache::KeepsDead, crate::specs::Cache::IsKept))]
    pub fn is_dead(&self, id: u64, number: u32, offset: u16, length: u16) -> bool
        ensures { IsTrue result → (bytes : List ℕ) × KeepsDead self.now id number offset length bytes }
    {
        let part = LeafPart { offset, length };
        has_dead_part(&self.pages, PageKey { id, number }, part)
    }

    /// Removes a page, and leaves the others. None exactly where it isn't kept; then all stays as it was. Takes no
    /// memory.
    #[tactic(auto, unfolding(crate::specs::Cache::Keeps, crate::specs::Cache::IsKept, crate::specs::Cache::KeepsFile, crate::specs::Cache::Agrees, crate::specs::Cache::room_of, crate::specs::Cache::order_of))]
    pub fn remove(&mut self, file: &FileName, number: u32) -> Option<Box<PageBytes>>
        ensures none { IfNone result (IsKeptOf self.old file.now number → ⊥) }
        ensures some { IfSome result (λ p. KeepsOf self.old file.now number p.value.b) }
        ensures valid { IfSome result (λ p. IsPage (kind_of file.now) (number_of file.now) number p.value.b) }
        ensures gone { IsKeptOf self.new file.now number → ⊥ }
        ensures order { OnSome result
            (order_of self.new ≡ keys_but (page_key (number_of file.now) number) (order_of self.old)) }
        ensures refused { IfNone result (order_of self.new ≡ order_of self.old) }
        ensures stays { (i n : ℕ) (bytes : List ℕ) → Keeps self.old i n bytes
            → Keeps self.new i n bytes ⊎ ((file.now ≡ Segment i) × (number ≡ n)) }
        ensures others { (i n : ℕ) (bytes : List ℕ) → Keeps self.new i n bytes → Keeps self.old i n bytes }
        ensures marks { MarksGo self.old self.new }
        ensures fewer { (i : ℕ) → KeepsFile self.new i → KeepsFile self.old i }
        ensures agrees { (files : Files) → Agrees files self.old → Agrees files self.new }
        ensures room { room_of self.new ≡ room_of self.old }
    {
        let FileName::Segment(id) = *file else {
            return None;
        };
        remove_page(&mut self.pages, PageKey { id, number })
    }

    /// Takes all pages of a segment's file out, and leaves those of others as they are. Takes no memory.
    #[tactic(auto, unfolding(crate::specs::Cache::Keeps, crate::specs::Cache::IsKept, crate::specs::Cache::KeepsFile, crate::specs::Cache::Agrees, crate::specs::Cache::room_of, crate::specs::Cache::order_of))]
    pub fn forget(&mut self, id: u64)
        ensures gone { KeepsFile self.new id → ⊥ }
        ensures order { order_of self.new ≡ of_others id (order_of self.old) }
        ensures others { (i n : ℕ) (bytes : List ℕ) → i ≢ id → Keeps self.old i n bytes → Keeps self.new i n bytes }
        ensures marks { MarksGo self.old self.new }
        ensures fewer { (i : ℕ) → KeepsFile self.new i → KeepsFile self.old i }
        ensures agrees { (files : Files) → Agrees files self.old → Agrees files self.new }
        ensures room { room_of self.new ≡ room_of self.old }
    {
        remove_pages(&mut self.pages, id);
    }
}
