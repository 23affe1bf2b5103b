//! Laws of the nearest. Each function has an empty body: its contract is the law.

ghost use Rattle.std.specs.Prelude.{◌≡◌, ℕ, List};
ghost use Rattle.point_codec.specs.declared.entries.Near.{Near};
ghost use Rattle.documents.specs.NearestEntries.{IsNearest};

/// There is one list of the nearest numbers. Where the entries are those of documents, it is the nearest documents
/// (`docs_nearest` of the crate `documents`).
pub fn one_nearest()
    ensures { (k : ℕ) (entries f g : List Near) → IsNearest k entries f → IsNearest k entries g → f ≡ g }
{}
