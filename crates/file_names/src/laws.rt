//! Laws of names and of lists of them. Each function has an empty body: its contract is the law.

ghost use Rattle.std.specs.Prelude.{◌≡◌, ◌≢◌, ◌==◌, ◌&&◌, ◌||◌, ◌↔◌, ℕ, Bool, true, false, not, List, [], ◌∷◌, ◌++◌};
ghost use Rattle.std.specs.Prelude.{filter, Contains};
ghost use Rattle.outer_io.specs.declared.file_name.FileName.{FileName};
ghost use Rattle.outer_io.specs.declared.file_name.FileName.TheVariants.{Segment, Live};
ghost use Rattle.outer_io.specs.Names.{same_name};
ghost use Rattle.file_names.specs.Names.{is_named, NameList, AreBelow};

/// Names are the same exactly where they are equal. Those of segments are told apart by id, those of live bits by
/// segment and generation, and no segment has the name of live bits.
pub fn names_are_apart()
    ensures itself { (name : FileName) → same_name name name ≡ true }
    ensures equal { (a b : FileName) → same_name a b ≡ true → a ≡ b }
    ensures other { (a b : FileName) → a ≢ b → same_name a b ≡ false }
    ensures apart { (a b : FileName) → same_name a b ≡ false → a ≢ b }
    ensures either_way { (a b : FileName) → same_name a b ≡ same_name b a }
    ensures segments { (a b : ℕ) → same_name (Segment a) (Segment b) ≡ (a == b) }
    ensures generations { (a m b n : ℕ) → same_name (Live a m) (Live b n) ≡ ((a == b) && (m == n)) }
    ensures kinds { (id segment generation : ℕ) → Segment id ≢ Live segment generation }
{}

/// What is named by a list of none, of one more, and of two together; and that to be named is to stand in the list.
pub fn names_of_lists()
    ensures none { (name : FileName) → is_named [] name ≡ false }
    ensures first { (n name : FileName) (ns : List FileName)
        → is_named (n ∷ ns) name ≡ (same_name n name || is_named ns name) }
    ensures joined { (ms ns : List FileName) (name : FileName)
        → is_named (ms ++ ns) name ≡ (is_named ms name || is_named ns name) }
    ensures stands { (ns : List FileName) (name : FileName) → (is_named ns name ≡ true) ↔ Contains ns name }
    ensures apart { (ns : List FileName) (a b : FileName) → is_named ns a ≡ true → is_named ns b ≡ false → a ≢ b }
    ensures next { (n : NameList) → AreBelow n → is_named n.names (Segment n.next_segment) ≡ false }
{}

/// A name that joins a list is in it, and nothing else changes.
pub fn names_join()
    ensures joins { (ns : List FileName) (name : FileName) → is_named (ns ++ name ∷ []) name ≡ true }
    ensures stays { (ns : List FileName) (name other : FileName) → is_named ns other ≡ true
        → is_named (ns ++ name ∷ []) other ≡ true }
    ensures others { (ns : List FileName) (name other : FileName) → other ≢ name
        → is_named (ns ++ name ∷ []) other ≡ is_named ns other }
{}

/// A list from which names are taken has just those that are kept; so without one name it has all the others.
pub fn names_kept()
    ensures kept { (keep : FileName → Bool) (ns : List FileName) (name : FileName)
        → is_named (filter keep ns) name ≡ (is_named ns name && keep name) }
    ensures gone { (ns : List FileName) (name : FileName)
        → is_named (filter (λ n. not (same_name n name)) ns) name ≡ false }
    ensures others { (ns : List FileName) (name other : FileName) → other ≢ name
        → is_named (filter (λ n. not (same_name n name)) ns) other ≡ is_named ns other }
{}
