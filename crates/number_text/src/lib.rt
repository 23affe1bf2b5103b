//! Numbers as texts: the decimal numbers and the coordinates that scripts and CSV files hold.
//! No call takes memory.
#![tactic(auto)]

ghost use Rattle.std.specs.Prelude.{◌≡◌, ◌≤◌, ◌-◌, ◌^◌, IfSome, option_map, pos, neg_ℤ};
ghost use Rattle.number_text.specs.Number.{number_up_to, number, coordinate};

/// The number that one or more ASCII digits write, if it is at most `limit`. Leading zeros are allowed; a sign, a
/// blank or any other byte is not.
pub fn number_up_to(b: &[u8], limit: u32) -> Option<u32>
    ensures value { result ≡ number_up_to limit b.now }
    ensures bound { IfSome result (λ n. n ≤ limit) }
{
    let mut value: u64 = 0;
    for &c in b {
        if !c.is_ascii_digit() {
            return None;
        }
        value = value * 10 + u64::from(c - b'0');
        if value > u64::from(limit) {
            return None;
        }
    }
    if b.is_empty() {
        None
    } else {
        Some(value as u32)
    }
}

/// A number of a script: one or more ASCII digits with a value up to 4,294,967,295.
pub fn number(b: &[u8]) -> Option<u32>
    ensures { result ≡ number b.now }
{
    number_up_to(b, u32::MAX)
}

/// A coordinate: an optional `-` and one or more ASCII digits, from -2147483648 to 2147483647.
/// `-0` and leading zeros are allowed; a `+`, a blank, a fraction or an exponent is not.
pub fn coordinate(b: &[u8]) -> Option<i32>
    ensures { result ≡ coordinate b.now }
{
    match b {
        [b'-', digits @ ..] => negated(digits),
        _ => positive(b),
    }
}

fn negated(digits: &[u8]) -> Option<i32>
    ensures { result ≡ option_map (λ n. neg_ℤ (pos n)) (number_up_to (2 ^ 31) digits.now) }
{
    let size = number_up_to(digits, 1 << 31)?;
    Some((-i64::from(size)) as i32)
}

fn positive(digits: &[u8]) -> Option<i32>
    ensures { result ≡ option_map pos (number_up_to (2 ^ 31 - 1) digits.now) }
{
    let size = number_up_to(digits, i32::MAX as u32)?;
    Some(size as i32)
}
