//! Laws on what a damage shows. Each function has an empty body: its contract is the law.

ghost use Rattle.std.specs.Prelude.{◌≡◌, ℕ, List, None, length, take, drop};
ghost use Rattle.outer_io.specs.Files.{Files};
ghost use Rattle.outer_io.specs.declared.file_name.FileName.{FileName};
ghost use Rattle.outer_io.specs.declared.file_name.FileName.TheVariants.{Commit};
ghost use Rattle.page_cache.specs.Evidence.{IsPageOf};
ghost use Rattle.page_cache.specs.FilePages.{kind_of, number_of};
ghost use Rattle.page_file.specs.Page.{IsPage, payload_of};
ghost use Rattle.page_cache.specs.declared.faults.Damage.TheVariants.{Unequal};
ghost use Rattle.index_opening.specs.Evidence.{HoldsWhole, IsHeadIn, IsOfEntries, IsOfListed, IsTrueOf, LacksLeaf};

/// A file that holds a segment whole has no damage: each of its pages, of 4,096 bytes, is one for its place, and no
/// leaf lacks.
pub fn whole_is_undamaged()
    ensures page { (files : Files) (file : FileName) → HoldsWhole files file → (number : ℕ) (bytes : List ℕ)
        → length bytes ≡ 4096 → IsPageOf files file number bytes → IsPage (kind_of file) (number_of file) number bytes }
    ensures leaf { (files : Files) (file : FileName) → HoldsWhole files file → (page offset len : ℕ) (bytes : List ℕ)
        → IsPageOf files file page bytes
        → LacksLeaf (IsHeadIn files) file page offset len (take len (drop offset (payload_of bytes))) → ⊥ }
{}

/// Where there is no Commit file no two numbers are true of the files.
pub fn unequal_needs_a_commit()
    ensures { (before files : Files) → files Commit ≡ None → (file : FileName) (said found : ℕ)
        → IsTrueOf (IsOfListed before) (IsOfEntries files) files (Unequal file said found) → ⊥ }
{}
