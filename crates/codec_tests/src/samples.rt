//! What several of the tests take.

ghost use Rattle.std.specs.Prelude.{◌≡◌, ◌≤◌};

use point_codec::{Entry, Point};

/// Three leaves of one dimension, of 12, 9 and 9 bytes, over the cell from 5 to 7, split at 7 twice, in each form.
pub const TABLE: [u8; 42] = [
    0x80, 0, 0, 5, 0x80, 0, 0, 7, 0, 0x80, 0, 0, 7, 0, 0x80, 0, 0, 7, 0, 0, 0, 0, 0, 0, 0, 12, 0,
    0, 0, 0, 0, 12, 0, 9, 0, 0, 0, 0, 0, 21, 0, 9,
];

pub const PACKED: [u8; 20] = [
    0x80, 0, 0, 5, 0x80, 0, 0, 7, 3, 7, 0, 21, 6, 4, 0, 12, 1, 12, 9, 9,
];

pub const OWN: [u8; 44] = [
    0x80, 0, 0, 5, 0x80, 0, 0, 7, // the root cell
    3, 7, 0, 21, 22, // the root
    4, 0, 12, 9, // its left child
    12, 0x80, 0, 0, 5, 0x80, 0, 0, 7, // the leaves
    9, 0x80, 0, 0, 7, 0x80, 0, 0, 7, //
    9, 0x80, 0, 0, 7, 0x80, 0, 0, 7, //
];

/// These leaves: number 0 at 5 and 1 at 7; numbers 2 and 3 at 7; number 4 at 7.
pub const FIRST: [u8; 12] = [0, 2, 0, 0, 3, 0x80, 0, 0, 0, 0, 5, 7];

pub const SECOND: [u8; 9] = [0, 2, 0, 2, 4, 0x80, 0, 0, 7];

pub const THIRD: [u8; 9] = [0, 1, 0, 4, 4, 0x80, 0, 0, 7];

pub fn entry<const D: usize>(doc: u32, c: [i32; D]) -> Entry<D>
    requires { (1 ≤ D) × (D ≤ 8) }
    ensures { result.doc ≡ doc }
{
    Entry {
        doc,
        point: Point { c },
    }
}
