//! The kept pages by themselves: a list of pages by their keys, the last used first.

ghost use Rattle.std.specs.Prelude.{◌≡◌, ◌⊎◌, ◌<◌, ◌-◌, ◌++◌, ◌∷◌, [], cond, ℕ, List, take, filter};
ghost use Rattle.std.specs.Prelude.{option_map};
ghost use Rattle.std.specs.Prelude.{Contains, IsTrue, IfSome, IfNone, OnOk, OnErr};
ghost use Rattle.std.specs.Bool.{OnTrue, OnFalse};
ghost use Rattle.std.specs.Map.{keys_of};
ghost use Rattle.page_cache.specs.declared.key.PageKey.{PageKey};
ghost use Rattle.page_cache.specs.Notes.{Fits};
ghost use Rattle.page_cache.specs.Keys.{KeptData, Kept, fresh, keys_but, HasKey, KeepsIn, KeepsDeadIn};
ghost use Rattle.page_cache.specs.Keys.{KeepsNoMore, KeepsOneMore, MarksOne, is_of_other};

use crate::faults::Memory;
use crate::kept_page::KeptPage;
use crate::key::PageKey;
use crate::leaf_part::LeafPart;
use crate::note::LeafNote;
use lru::LruCache;
use page_file::PageBytes;

/// Pages by their keys, the last used first, up to a number of them.
pub(crate) type KeptPages = LruCache<PageKey, KeptPage>;

/// Whether the page is kept. It then stands first.
pub(crate) fn touch(pages: &mut KeptPages, key: PageKey) -> bool
    ensures found { OnTrue result (HasKey pages.new.entries key) }
    ensures missing { OnFalse result (HasKey pages.old.entries key → ⊥) }
    ensures fewer { KeepsNoMore pages.old.entries pages.new.entries }
    ensures more { KeepsNoMore pages.new.entries pages.old.entries }
    ensures first { OnTrue result (keys_of pages.new.entries ≡ key ∷ keys_but key (keys_of pages.old.entries)) }
    ensures same { OnFalse result (pages.new.entries ≡ pages.old.entries) }
    ensures room { pages.new.cap ≡ pages.old.cap }
{
    pages.promote(&key)
}

/// Keeps a page that isn't kept, and puts it first. Where the room is full the last goes for it.
pub(crate) fn keep(pages: &mut KeptPages, key: PageKey, page: Box<PageBytes>) -> Result<(), Memory>
    requires { HasKey pages.old.entries key → ⊥ }
    ensures kept { OnOk result (Contains pages.new.entries (key, fresh page)) }
    ensures one { KeepsOneMore key (fresh page) pages.old.entries pages.new.entries }
    ensures first { OnOk result
        (keys_of pages.new.entries ≡ key ∷ take (pages.old.cap - 1) (keys_of pages.old.entries)) }
    ensures room { pages.new.cap ≡ pages.old.cap }
    ensures same { OnErr result (pages.new.entries ≡ pages.old.entries) }
{
    pages.put(key, KeptPage::new(page))?;
    Ok(())
}

/// A page that is kept.
pub(crate) fn kept_page(pages: &KeptPages, key: PageKey) -> &KeptPage
    requires { HasKey pages.now.entries key }
    ensures kept { Contains pages.now.entries (key, result.now) }
    ensures only { (bytes : List ℕ) → KeepsIn pages.now.entries key bytes → bytes ≡ result.now.page.value.b }
{
    // it says that no key stands twice
    let _kept = pages.len();
    match pages.peek(&key) {
        Some(page) => page,
        None => unreachable!(),
    }
}

/// Takes a page out, if it is kept.
pub(crate) fn remove_page(pages: &mut KeptPages, key: PageKey) -> Option<Box<PageBytes>>
    ensures some { IfSome result (λ p. KeepsIn pages.old.entries key p.value.b) }
    ensures none { IfNone result (HasKey pages.old.entries key → ⊥) }
    ensures gone { HasKey pages.new.entries key → ⊥ }
    ensures fewer { KeepsNoMore pages.old.entries pages.new.entries }
    ensures stays { (e : PageKey × KeptData) → Contains pages.old.entries e → Contains pages.new.entries e
        ⊎ (e.0 ≡ key) }
    ensures order { keys_of pages.new.entries ≡ keys_but key (keys_of pages.old.entries) }
    ensures same { IfNone result (pages.new.entries ≡ pages.old.entries) }
    ensures room { pages.new.cap ≡ pages.old.cap }
{
    // it says that no key stands twice
    let _kept = pages.len();
    page_of(pages.pop(&key))
}

/// The page without its notes.
fn page_of(kept: Option<KeptPage>) -> Option<Box<PageBytes>>
    ensures { result ≡ option_map (λ k. k.page) kept }
{
    match kept {
        Some(kept) => Some(kept.into_page()),
        None => None,
    }
}

/// Notes a leaf of a page, if that is kept.
pub(crate) fn add_note(pages: &mut KeptPages, key: PageKey, note: LeafNote)
    requires { (bytes : List ℕ) → KeepsIn pages.old.entries key bytes → Fits note bytes }
    ensures { pages.new ≡ pages.old }
{
    if let Some(page) = pages.peek_mut(&key) {
        page.add(note);
    }
}

/// Marks a leaf of a page as dead, if that is kept.
pub(crate) fn mark_part(pages: &mut KeptPages, key: PageKey, part: LeafPart)
    ensures marks { MarksOne key part pages.old.entries pages.new.entries }
    ensures room { pages.new.cap ≡ pages.old.cap }
{
    if let Some(page) = pages.peek_mut(&key) {
        page.mark(part);
    }
}

/// Whether the page is kept and a leaf of it was told to be dead.
pub(crate) fn has_dead_part(pages: &KeptPages, key: PageKey, part: LeafPart) -> bool
    ensures { IsTrue result → (bytes : List ℕ) × KeepsDeadIn pages.now.entries key part bytes }
{
    match pages.peek(&key) {
        Some(page) => page.has_dead(&part),
        None => false,
    }
}

/// Takes the last page out where it is of the segment's file, and else puts it first.
fn rotate(pages: &mut KeptPages, id: u64)
    ensures turned { (front : Kept) (last : PageKey × KeptData) → pages.old.entries ≡ front ++ last ∷ []
        → pages.new.entries ≡ cond (is_of_other id last.0) (last ∷ front) front }
    ensures room { pages.new.cap ≡ pages.old.cap }
{
    // it says that no key stands twice
    let _kept = pages.len();
    let Some((last, _)) = pages.peek_lru() else {
        return;
    };
    let key = *last;
    if key.id == id {
        drop(pages.pop_lru());
    } else {
        pages.promote(&key);
    }
}

/// Takes all pages of the segment's file out. The others stay in their order.
pub(crate) fn remove_pages(pages: &mut KeptPages, id: u64)
    ensures others { pages.new.entries ≡ filter (λ e. is_of_other id e.0) pages.old.entries }
    ensures room { pages.new.cap ≡ pages.old.cap }
{
    let kept = pages.len();
    'turns: for _ in 0..kept {
        rotate(pages, id);
    }
}
