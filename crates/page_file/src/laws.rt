//! Laws of pages. Each function has an empty body: its contract is the law.

ghost use Rattle.std.specs.Prelude.{◌≡◌, ℕ, List, length};
ghost use Rattle.page_file.specs.Page.{IsPage, payload_of};

/// A page has 4,064 bytes of payload.
pub fn payload_length()
    ensures { (kind file number : ℕ) (bytes : List ℕ) → IsPage kind file number bytes
        → length (payload_of bytes) ≡ 4064 }
{}

/// There is one page with a payload for a place.
pub fn pages_are_unique()
    ensures { (kind file number : ℕ) (a b : List ℕ) → IsPage kind file number a → IsPage kind file number b
        → payload_of a ≡ payload_of b → a ≡ b }
{}
