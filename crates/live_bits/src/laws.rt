//! Laws of live sets and their bodies. Each function has an empty body: its contract is the law.

ghost use Rattle.std.specs.Prelude.{◌≡◌, ◌+◌, ◌&&◌, ◌↔◌, ℕ, List, true, false, not, nat_eq, length};
ghost use Rattle.live_bits.specs.LiveSet.{LiveSet, IsLiveSet, is_live, live_set_without};
ghost use Rattle.live_bits.specs.LiveBody.{IsLiveBody};

/// Bytes are the body of one set at most, and a set has one body at most, for a segment and a generation.
pub fn bodies_are_unique()
    ensures set { (segment generation : ℕ) (s t : LiveSet) (bytes : List ℕ)
        → IsLiveBody segment generation s bytes → IsLiveBody segment generation t bytes → s ≡ t }
    ensures body { (segment generation : ℕ) (s : LiveSet) (a b : List ℕ)
        → IsLiveBody segment generation s a → IsLiveBody segment generation s b → a ≡ b }
{}

/// The set without a number has all the others, and one fewer where the number was live.
pub fn clearing_takes_one_out()
    ensures others { (s : LiveSet) (doc n : ℕ)
        → is_live (live_set_without doc s) n ≡ (is_live s n && not (nat_eq n doc)) }
    ensures count { (s : LiveSet) (doc : ℕ) → IsLiveSet s → is_live s doc ≡ true
        → length (live_set_without doc s).live + 1 ≡ length s.live }
    ensures dead { (s : LiveSet) (doc : ℕ) → is_live s doc ≡ false → live_set_without doc s ≡ s }
    ensures set { (s : LiveSet) (doc : ℕ) → IsLiveSet s → IsLiveSet (live_set_without doc s) }
{}

/// No number is live exactly where the count is zero.
pub fn none_is_live()
    ensures { (s : LiveSet) → (length s.live ≡ 0) ↔ (is_live s ≡ (λ _. false)) }
{}
