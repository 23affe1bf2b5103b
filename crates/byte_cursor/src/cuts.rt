//! Cuts borrowed bytes in two without a copy, and says where they are too few.

ghost use Rattle.std.specs.Prelude.{◌≡◌, ◌++◌, ℕ, List, length, IfSome, IsSomeAnd};

/// The first `n` bytes and the others, where there are so many.
pub fn cut(b: &[u8], n: usize) -> Option<(&[u8], &[u8])>
    ensures found { IfSome result (λ x. (length x.0.now ≡ n) × (b.now ≡ x.0.now ++ x.1.now)) }
    ensures only { (front rest : List ℕ) → length front ≡ n → b.now ≡ front ++ rest
        → IsSomeAnd result (λ x. (x.0.now ≡ front) × (x.1.now ≡ rest)) }
{
    if b.len() < n {
        return None;
    }
    Some(b.split_at(n))
}
