//! Numbers of texts, at the ends of their ranges.

use crate::asserts::{same, same_at};
use number_text::{coordinate, number, number_up_to};

/// Texts, and the numbers that they are.
const NUMBERS: [(&[u8], Option<u32>); 9] = [
    (b"0", Some(0)),
    (b"007", Some(7)),
    (b"4294967295", Some(4_294_967_295)),
    (b"4294967296", None),
    (b"99999999999999999999999", None),
    (b"", None),
    (b"-0", None),
    (b"+1", None),
    (b"12a", None),
];

#[test]
fn reads_numbers(rt: HostRuntime) {
    for (text, want) in NUMBERS {
        same_at(&rt, number(text), want, &text);
    }
    same(&rt, number_up_to(b"16777215", 16_777_215), Some(16_777_215));
    same(&rt, number_up_to(b"16777216", 16_777_215), None);
}

/// Texts, and the coordinates that they are.
const COORDINATES: [(&[u8], Option<i32>); 14] = [
    (b"13404954", Some(13_404_954)),
    (b"-0", Some(0)),
    (b"-007", Some(-7)),
    (b"2147483647", Some(2_147_483_647)),
    (b"2147483648", None),
    (b"-2147483648", Some(-2_147_483_648)),
    (b"-2147483649", None),
    (b"", None),
    (b"-", None),
    (b"--1", None),
    (b"+5", None),
    (b"1.0", None),
    (b"1e2", None),
    (b" 1", None),
];

#[test]
fn reads_coordinates(rt: HostRuntime) {
    for (text, want) in COORDINATES {
        same_at(&rt, coordinate(text), want, &text);
    }
}
