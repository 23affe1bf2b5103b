//! Laws of the generated index. Each function has an empty body: its contract is the law.

ghost use Rattle.std.specs.Prelude.{◌≡◌, ◌≤◌, ◌+◌, ◌*◌, ◌%◌, ◌^◌, ◌++◌, ℕ, ℤ, Some, List, [], ◌∷◌, All, length};
ghost use Rattle.documents.specs.Documents.{Document, docs_without};
ghost use Rattle.documents.specs.Nearest.{nearest};
ghost use Rattle.index_model.specs.State.{new_index};
ghost use Rattle.drawn_points.specs.Draws.{point, points};
ghost use Rattle.drawn_points.specs.Generated.{box_hits, document, documents, kept_docs, made_state, near_sum};

/// The index that is made has each document but those whose numbers are multiples of 10.
pub fn index_made()
    ensures { (seed n : ℕ) → n ≤ 2 ^ 24
        → made_state seed n ≡ Some
        (record (new_index 2 333) { next = n; points_given = n; docs = kept_docs n (documents seed n) }) }
{}

/// Its documents come one after the other.
pub fn documents_added()
    ensures none { (seed : ℕ) → documents seed 0 ≡ [] }
    ensures more { (seed n : ℕ) → documents seed (n + 1) ≡ documents seed n ++ document seed n ∷ [] }
{}

/// Of ten numbers from a multiple of 10 on only the first one's document goes.
pub fn documents_deleted()
    ensures none { (seed n : ℕ) → kept_docs 0 (documents seed n) ≡ documents seed n }
    ensures more { (seed n bound : ℕ) → bound % 10 ≡ 0
        → kept_docs (bound + 10) (documents seed n) ≡ docs_without bound (kept_docs bound (documents seed n)) }
    ensures all { (seed n bound : ℕ) → n ≤ bound → kept_docs bound (documents seed n) ≡ kept_docs n (documents seed n) }
{}

/// The sums that are told are small: a box hits no more documents than there are, and two drawn points are at most
/// 200,000 apart in each dimension.
pub fn sums_are_small()
    ensures boxes { (docs : List Document) (centers : List (List ℤ))
        → box_hits docs centers ≤ length centers * length docs }
    ensures answers { (seed n bound i : ℕ)
        → All (λ found. found.0 ≤ 80000000000) (nearest 10 (point seed i) (kept_docs bound (documents seed n))) }
    ensures near { (seed n bound i m : ℕ)
        → near_sum (kept_docs bound (documents seed n)) (points seed i m) ≤ m * 800000000000 }
{}
