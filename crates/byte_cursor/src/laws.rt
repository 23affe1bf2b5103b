//! Laws of the spellings. Each function has an empty body: its contract is the law.

ghost use Rattle.std.specs.Prelude.{◌≡◌, ◌≤◌, ◌<◌, ◌^◌, ◌++◌, ◌↔◌, ℕ, List, length};
ghost use Rattle.std.specs.Int.{Width, byte_len, to_be_bytes};
ghost use Rattle.byte_cursor.specs.Vint.{IsVint, vint};

/// What `put_u8` to `put_u64` appended is what the takes of that width take, whatever follows it: no bytes
/// begin with two numbers of one width.
pub fn numbers_are_unique()
    ensures { (w : Width) (m n : ℕ) (x y : List ℕ) → m < 256 ^ byte_len w → n < 256 ^ byte_len w
        → to_be_bytes w m ++ x ≡ to_be_bytes w n ++ y → (m ≡ n) × (x ≡ y) }
{}

/// No vint begins another, and no bytes are the vint of two numbers: so what `put_vint` appended is what
/// `take_vint` takes, whatever follows it.
pub fn vints_are_unique()
    ensures one { (a b x y : List ℕ) (m n : ℕ) → IsVint a m → IsVint b n → a ++ x ≡ b ++ y
        → (a ≡ b) × (m ≡ n) × (x ≡ y) }
    // A number has one vint.
    ensures spelling { (a b : List ℕ) (n : ℕ) → IsVint a n → IsVint b n → a ≡ b }
{}

/// Each number below 2^32 has a vint, of one to five bytes.
pub fn vints_exist()
    ensures exists { (n : ℕ) → n < 2 ^ 32 → (a : List ℕ) × IsVint a n }
    ensures length { (a : List ℕ) (n : ℕ) → n < 2 ^ 32 → IsVint a n → (1 ≤ length a) × (length a ≤ 5) }
{}

/// The canonical vint of a number below 2^32 is `vint` of it, and no other bytes are.
pub fn vints_are_spelled()
    ensures { (a : List ℕ) (n : ℕ) → n < 2 ^ 32 → IsVint a n ↔ (a ≡ vint n) }
{}
