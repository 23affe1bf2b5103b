//! Values from outside: the keys are those of Lucene's sortable integers; the others were reckoned by hand.

use crate::asserts::{same, same_at};
use point_codec::{Cell, Entry, Name, Point, Points, from_sortable, key_order, sortable};
use std::alloc::Global;
use std::cmp::Ordering;
use std::test::Fail;

/// Coordinates in order, and their keys.
const KEYS: [(i32, [u8; 4]); 5] = [
    (-2147483648, [0, 0, 0, 0]),
    (-1, [0x7f, 0xff, 0xff, 0xff]),
    (0, [0x80, 0, 0, 0]),
    (5, [0x80, 0, 0, 5]),
    (2147483647, [0xff, 0xff, 0xff, 0xff]),
];

#[test]
fn writes_keys(rt: HostRuntime) {
    for (x, key) in KEYS {
        same_at(&rt, sortable(x), key, &x);
        same_at(&rt, from_sortable(key), x, &x);
    }
}

fn order_of(x: i32, y: i32) -> Ordering {
    if x < y {
        Ordering::Less
    } else if x > y {
        Ordering::Greater
    } else {
        Ordering::Equal
    }
}

#[test]
fn keys_have_the_order_of_coordinates(rt: HostRuntime) {
    for (x, key) in KEYS {
        for (y, other) in KEYS {
            same_at(&rt, key_order(&key, &other), order_of(x, y), &(x, y));
        }
    }
}

const LONG: [u8; 33] = [b'x'; 33];

/// Bytes, and whether they are a name.
const NAMES: [(&[u8], bool); 5] = [
    (b"", false),
    (b"a.b", false),
    (b"a b", false),
    (b"A-z_9", true),
    (&LONG, false),
];

#[test]
fn tells_names(rt: HostRuntime) -> Result<(), Fail> {
    for (bytes, is_name) in NAMES {
        same(&rt, Name::new(bytes).is_some(), is_name);
    }
    same(&rt, Name::new(&LONG[..32]).is_some(), true);
    let name = Name::new(b"A-z_9").ok_or("a name")?;
    same(&rt, name.as_bytes(), b"A-z_9".as_slice());
    Ok(())
}

const LOW: Point<2> = Point { c: [-1, 7] };

const HIGH: Point<2> = Point { c: [2, -7] };

/// What the list of these points is made into.
fn in_order(alloc: Global, points: &[Point<2>]) -> Result<Points<2>, Fail> {
    let list = points.to_vec(alloc)?;
    if list.is_empty() || list.len() > 16 {
        return Err("not 1 to 16 points".into());
    }
    Ok(Points::of(list))
}

#[test]
fn puts_points_in_order(rt: HostRuntime) -> Result<(), Fail> {
    let mixed = in_order(rt.alloc(), &[HIGH, LOW, HIGH, LOW])?;
    same(&rt, mixed.as_slice(), [LOW, HIGH].as_slice());
    let ascending = in_order(rt.alloc(), &[LOW, LOW, HIGH, HIGH])?;
    same(&rt, ascending.as_slice(), [LOW, HIGH].as_slice());
    let one = in_order(rt.alloc(), &[HIGH, HIGH])?;
    same(&rt, one.as_slice(), [HIGH].as_slice());
    Ok(())
}

#[test]
fn measures_the_greatest_distance(rt: HostRuntime) {
    let (least, greatest) = (Point { c: [i32::MIN; 8] }, Point { c: [i32::MAX; 8] });
    same(&rt, least.dist2(&greatest), 147573952520956936200);
    same(&rt, greatest.dist2(&least), 147573952520956936200);
    same(&rt, least.dist2(&least), 0);
}

const ENTRIES: [Entry<2>; 3] = [
    Entry {
        doc: 4,
        point: Point { c: [3, -5] },
    },
    Entry {
        doc: 0,
        point: Point { c: [-1, 8] },
    },
    Entry {
        doc: 9,
        point: Point { c: [2, 9] },
    },
];

/// The cell of the entries, if the corners are those of one.
fn cell(lo: [i32; 2], hi: [i32; 2]) -> Option<Cell<2>> {
    Cell::new(Point { c: lo }, Point { c: hi })
}

#[test]
fn finds_cells(rt: HostRuntime) {
    same(&rt, Cell::<2>::of(&[]), None);
    same(&rt, Cell::of(&ENTRIES), cell([-1, -5], [3, 9]));
    same(&rt, cell([3, 9], [-1, -5]), None);
}

#[test]
fn cells_have_corners(rt: HostRuntime) -> Result<(), Fail> {
    let it = Cell::of(&ENTRIES).ok_or("a cell")?;
    same(&rt, (it.lo().c, it.hi().c), ([-1, -5], [3, 9]));
    Ok(())
}

/// The cell of the entries and what it is split into in the second dimension at 8.
fn split() -> Result<[Cell<2>; 3], &'static str> {
    let whole = Cell::of(&ENTRIES).ok_or("a cell")?;
    let (left, right) = whole.split(1, 8);
    Ok([whole, left, right])
}

#[test]
fn cuts_cells(rt: HostRuntime) -> Result<(), Fail> {
    let [_, left, right] = split()?;
    same(&rt, Some(left), cell([-1, -5], [3, 8]));
    same(&rt, Some(right), cell([-1, 8], [3, 9]));
    Ok(())
}

/// Points; whether the cell has them, and its left half and its right one; and their distance to the cell.
const HAD: [([i32; 2], [bool; 3], u128); 6] = [
    ([0, 0], [true, true, false], 0),
    ([3, 9], [true, false, true], 0),
    ([-1, 8], [true, true, true], 0),
    ([-1, -6], [false, false, false], 1),
    ([6, 13], [false, false, false], 25),
    ([-4, 0], [false, false, false], 9),
];

#[test]
fn cells_have_points(rt: HostRuntime) -> Result<(), Fail> {
    let [whole, left, right] = split()?;
    for (c, had, _) in HAD {
        let p = Point { c };
        same_at(&rt, [whole.has(&p), left.has(&p), right.has(&p)], had, &c);
    }
    Ok(())
}

#[test]
fn cells_are_near_points(rt: HostRuntime) -> Result<(), Fail> {
    let [whole, _, _] = split()?;
    for (c, _, dist2) in HAD {
        same_at(&rt, whole.least_dist2(&Point { c }), dist2, &c);
    }
    Ok(())
}
