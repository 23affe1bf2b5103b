//! Laws of documents as entries. Each function has an empty body: its contract is the law.

ghost use Rattle.std.specs.Prelude.{◌≡◌, ◌≤◌, ◌+◌, ◌++◌, ◌↔◌, ℕ, ℤ, Bool, not, List, [], ◌∷◌, filter, length, Contains};
ghost use Rattle.std.specs.Prelude.{sum_by};
ghost use Rattle.std.specs.List.Sorted.{IsPermutation, IsStrictlyIncreasing};
ghost use Rattle.point_codec.specs.Points.{Item, ArePoints};
ghost use Rattle.point_codec.specs.declared.entries.Near.{Near};
ghost use Rattle.documents.specs.Documents.{Document, docs_without, hits, is_live, docs_failing};
ghost use Rattle.documents.specs.Entries.{AreDocs, MakeDocs, SameTotals, entries_but, entries_of, has_entry, is_among};
ghost use Rattle.documents.specs.Entries.{numbers_found};
ghost use Rattle.documents.specs.Nearest.{found_of, nearest};
ghost use Rattle.documents.specs.NearestEntries.{IsNearest, nears_of};

/// Entries in any order are those of one list of documents only.
pub fn one_list()
    ensures { (m n : ℕ) (xs ys : List Item) (docs others : List Document) → AreDocs m xs docs → AreDocs n ys others
        → IsPermutation xs ys → docs ≡ others }
{}

/// The order of the entries doesn't matter, nor how many numbers beyond the documents' are given.
pub fn docs_in_any_order()
    ensures order { (n : ℕ) (xs ys : List Item) (docs : List Document) → AreDocs n xs docs → IsPermutation xs ys
        → AreDocs n ys docs }
    ensures later { (m n : ℕ) (xs : List Item) (docs : List Document) → AreDocs m xs docs → m ≤ n → AreDocs n xs docs }
    ensures none { (n : ℕ) → AreDocs n [] [] }
{}

/// Entries are those of documents exactly where their numbers are below the next, a number has at most 16 of them,
/// and none stands twice.
pub fn docs_exist()
    ensures { (n : ℕ) (xs : List Item) → MakeDocs n xs ↔ ((docs : List Document) × AreDocs n xs docs) }
{}

/// Lists are permutations of each other exactly where any sum over both is one.
pub fn permutations_by_totals()
    ensures { (xs ys : List Item) → IsPermutation xs ys ↔ SameTotals xs ys }
{}

/// A new document has the next number, and its entries join the others.
pub fn docs_added()
    ensures { (n : ℕ) (xs : List Item) (docs : List Document) (points : List (List ℤ)) → AreDocs n xs docs
        → ArePoints points
        → AreDocs (n + 1) (xs ++ entries_of (record { number = n; points = points }))
        (docs ++ record { number = n; points = points } ∷ []) }
{}

/// Numbers that are kept keep their documents: in general, without one number, and without those of which a point
/// passes.
pub fn docs_kept()
    ensures kept { (n : ℕ) (xs : List Item) (docs : List Document) (keeps : ℕ → Bool) → AreDocs n xs docs
        → AreDocs n (filter (λ x. keeps x.doc) xs) (filter (λ d. keeps d.number) docs) }
    ensures deleted { (n : ℕ) (xs : List Item) (docs : List Document) (number : ℕ) → AreDocs n xs docs
        → AreDocs n (entries_but number xs) (docs_without number docs) }
    ensures without { (n : ℕ) (xs : List Item) (docs : List Document) (test : List ℤ → Bool) → AreDocs n xs docs
        → AreDocs n (filter (λ x. not (is_among (hits test docs) x.doc)) xs) (docs_failing test docs) }
{}

/// The numbers of the entries whose points pass, each once and ascending, are the hits.
pub fn docs_hits()
    ensures { (n : ℕ) (xs : List Item) (docs : List Document) (test : List ℤ → Bool) (found : List ℕ)
        → AreDocs n xs docs
        → IsStrictlyIncreasing found → ((number : ℕ) → Contains found number ↔ Contains (numbers_found test xs) number)
        → found ≡ hits test docs }
{}

/// A document of a number is there exactly where an entry of that number is.
pub fn docs_live()
    ensures { (n : ℕ) (xs : List Item) (docs : List Document) (number : ℕ) → AreDocs n xs docs
        → is_live number docs ≡ has_entry number xs }
{}

/// There are as many entries as the documents have points, and no more documents than numbers were given.
pub fn docs_counted()
    ensures entries { (n : ℕ) (xs : List Item) (docs : List Document) → AreDocs n xs docs
        → length xs ≡ sum_by (λ d. length d.points) docs }
    ensures docs { (n : ℕ) (xs : List Item) (docs : List Document) → AreDocs n xs docs → length docs ≤ n }
{}

/// The numbers nearest among the entries are the nearest documents.
pub fn docs_nearest()
    ensures { (n k : ℕ) (xs : List Item) (docs : List Document) (at : List ℤ) (found : List Near) → AreDocs n xs docs
        → IsNearest k (nears_of at xs) found → found_of found ≡ nearest k at docs }
{}
