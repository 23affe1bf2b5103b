//! Runs of equal bytes, in pieces of at most 256.

ghost use Rattle.std.specs.Prelude.{◌≡◌, ◌≤◌, ◌<◌, ◌∷◌, length, drop, slice_index};
ghost use Rattle.leaf_codec.specs.Spelling.{pieces};

/// The length of the first piece: the bytes from the front on that equal the first one, at most 256 of them.
pub fn first_piece(bytes: &[u8]) -> usize
    requires { 0 < length bytes.now }
    ensures some { 1 ≤ result }
    ensures few { result ≤ 256 }
    ensures within { result ≤ length bytes.now }
    ensures piece { pieces bytes.now ≡ (slice_index bytes.now 0, result) ∷ pieces (drop result bytes.now) }
{
    let most = bytes.len().min(256);
    for n in 1..most {
        if bytes[n] != bytes[0] {
            return n;
        }
    }
    most
}

/// How many pieces the bytes make.
pub fn count_pieces(bytes: &[u8]) -> usize
    ensures value { result ≡ length (pieces bytes.now) }
    ensures few { result ≤ length bytes.now }
{
    let mut rest = bytes;
    let mut count = 0;
    while !rest.is_empty() {
        rest = &rest[first_piece(rest)..];
        count += 1;
    }
    count
}
