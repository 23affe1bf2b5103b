//! Words of four bytes, of which the last ones are a number.

ghost use Rattle.std.specs.Prelude.{◌≡◌, ◌≤◌, ◌+◌, ◌-◌, ◌^◌, length, take, drop};
ghost use Rattle.leaf_codec.specs.Words.{number_of};

/// The four bytes from `at` on as a number.
pub fn word(bytes: &[u8], at: usize) -> u32
    requires { at + 4 ≤ length bytes.now }
    ensures { result ≡ number_of (take 4 (drop at bytes.now)) }
{
    u32::from_be_bytes([bytes[at], bytes[at + 1], bytes[at + 2], bytes[at + 3]])
}

/// The bits of a word's last `n` bytes.
pub fn mask(n: usize) -> u32
    requires { n ≤ 4 }
    ensures { result ≡ 256 ^ n - 1 }
{
    match n {
        0 => 0,
        1 => 0xff,
        2 => 0xffff,
        3 => 0xff_ffff,
        _ => 0xffff_ffff,
    }
}
