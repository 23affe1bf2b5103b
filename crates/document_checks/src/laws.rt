//! Laws of entries that stand once. Each function has an empty body: its contract is the law.

ghost use Rattle.std.specs.Prelude.{◌≢◌, ◌<◌, ◌↔◌, ℕ, List, All, AllPairs};
ghost use Rattle.point_codec.specs.Points.{Item};
ghost use Rattle.leaf_codec.specs.LeafOrder.{NoneTwice};
ghost use Rattle.documents.specs.Entries.{MakeDocs};
ghost use Rattle.document_checks.specs.Crowded.{AreFew, IsCrowded};

/// No entry stands twice exactly where no two of the list are equal.
pub fn none_twice()
    ensures { (xs : List Item) → NoneTwice xs ↔ AllPairs (λ x y. x ≢ y) xs }
{}

/// Entries are those of documents where none stands twice, each number has few enough and is below the next; and they
/// are not where a number has too many or one of them twice.
pub fn fits_docs()
    ensures fit { (next : ℕ) (xs : List Item) → NoneTwice xs → AreFew xs → All (λ x. x.doc < next) xs
        → MakeDocs next xs }
    ensures crowded { (next number : ℕ) (xs : List Item) → IsCrowded number xs → MakeDocs next xs → ⊥ }
{}
