//! Laws of pages, bodies and caches. Each function has an empty body: its contract is the law.

ghost use Rattle.std.specs.Prelude.{◌≡◌, ◌+◌, ◌*◌, ◌++◌, ℕ, List, length};
ghost use Rattle.outer_io.specs.Files.{Files};
ghost use Rattle.outer_io.specs.declared.file_name.FileName.{FileName};
ghost use Rattle.outer_io.specs.declared.file_name.FileName.TheVariants.{Segment};
ghost use Rattle.page_file.specs.Page.{payload_of};
ghost use Rattle.page_cache.specs.declared.cache.PageCache.{PageCache};
ghost use Rattle.page_cache.specs.FilePages.{page_at, ArePages, payloads_of};
ghost use Rattle.page_cache.specs.Bodies.{pages_for, ArePagesOf, IsBodyFile};
ghost use Rattle.page_cache.specs.Cache.{Keeps, KeepsFile, Agrees};
ghost use Rattle.page_cache.specs.Evidence.{IsPageOf};

/// A cache agrees with other files too where those of which it keeps pages are the same.
pub fn agreement_is_of_kept_files()
    ensures { (old new : Files) (c : PageCache) → ((id : ℕ) → KeepsFile c id → new (Segment id) ≡ old (Segment id))
        → Agrees old c → Agrees new c }
{}

/// What a cache keeps is the page of the file where it agrees.
pub fn pages_that_agree()
    ensures { (files : Files) (c : PageCache) (id number : ℕ) (bytes : List ℕ)
        → Agrees files c → Keeps c id number bytes → IsPageOf files (Segment id) number bytes }
{}

/// Two bodies of one length that a file is are the same.
pub fn bodies_of_one_length_are_equal()
    ensures { (name : FileName) (bytes a b : List ℕ) → length a ≡ length b → IsBodyFile name bytes a
        → IsBodyFile name bytes b → a ≡ b }
{}

/// The payloads of a run of pages are those of its parts.
pub fn payloads_join()
    ensures parts { (bytes : List ℕ) (from a b : ℕ)
        → payloads_of bytes from (a + b) ≡ payloads_of bytes from a ++ payloads_of bytes (from + a) b }
    ensures one { (bytes : List ℕ) (n : ℕ) → payloads_of bytes n 1 ≡ payload_of (page_at bytes n) }
{}

/// Pages that are put behind so many whole pages of a file are its pages from there on, and the pages before stay.
pub fn pages_put_behind()
    ensures pages { (name : FileName) (first : ℕ) (body old bytes : List ℕ) → length old ≡ 4096 * first
        → ArePagesOf name first body bytes
        → ArePages name (old ++ bytes) first (first + pages_for (length body)) }
    ensures payloads { (name : FileName) (first : ℕ) (body old bytes : List ℕ) → length old ≡ 4096 * first
        → ArePagesOf name first body bytes
        → payloads_of (old ++ bytes) first (pages_for (length body)) ≡ payloads_of bytes 0 (pages_for (length body)) }
    ensures before { (name : FileName) (from end : ℕ) (old bytes : List ℕ) → ArePages name old from end
        → ArePages name (old ++ bytes) from end }
    ensures same { (name : FileName) (from count : ℕ) (old bytes : List ℕ) → ArePages name old from (from + count)
        → payloads_of (old ++ bytes) from count ≡ payloads_of old from count }
{}
