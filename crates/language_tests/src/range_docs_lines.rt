use crate::asserts::{same, same_at};
use range_docs::RangeFault::{Line, NotRange, NotRanges};
use range_docs::{RangeFault, put_range_fault, read_range_first, read_range_line};
use script_lang::LineFault::{
    BadName, Dims, LeafSize, NoIndex, NotUtf8, Number, TooLong, Unknown, Words,
};
use script_lang::{Command, First};
use std::alloc::Global;
use std::test::Fail;

// 17 ranges of one dimension
const SEVENTEEN: &[u8] = b"add 1 1 2 2 3 3 4 4 5 5 6 6 7 7 8 8 9 9 1 2 1 3 1 4 1 5 1 6 1 7 1 8 1 9";

// lines that have a fault where ranges have one dimension
const CHANGES: [(&[u8], RangeFault); 28] = [
    (b"create", Line(Words)),
    (b"create 0", Line(Dims)),
    (b"create 5", Line(Dims)),
    (b"create 4294967295 leaf 1", Line(Dims)),
    (b"create 5 leaf x", Line(Number { word: 4 })),
    (b"create 1 leaf 1", Line(LeafSize)),
    (b"create 1 leaf 334", Line(LeafSize)),
    (b"create 4 leaf 112", Line(LeafSize)),
    (b"create 1 leaves 3", Line(Words)),
    (b"add", Line(Words)),
    (b"add 1", Line(Words)),
    (b"add 1 2 3", Line(Words)),
    (SEVENTEEN, Line(Words)),
    (b"add 5 1 2", Line(Words)),
    (b"add 5 x", Line(Number { word: 3 })),
    (b"add 5 x 2", Line(Words)),
    (b"add 5 1 x 2", Line(Number { word: 4 })),
    (b"add 5 1", NotRange),
    (b"add 1 2 5 1", NotRange),
    (b"delete", Line(Words)),
    (b"delete x", Line(Number { word: 2 })),
    (b"delete 1 2", Line(Words)),
    (b"delete box", Line(Words)),
    (b"delete box 1 2", Line(Words)),
    (b"flush 1", Line(Words)),
    (b"merge begin x", Line(Number { word: 3 })),
    (b"snapshot a.b", Line(BadName)),
    (b"release a b", Line(Words)),
];

const QUERIES: [(&[u8], RangeFault); 16] = [
    (b"box 1 2", Line(Unknown)),
    (b"polygon {", Line(Unknown)),
    (b"nearest 1 0 0", Line(Unknown)),
    (b"overlaps 1 2", Line(Unknown)),
    (b"\xff", Line(NotUtf8)),
    (b"intersects @ 5 1", Line(BadName)),
    (b"intersects 5", Line(Words)),
    (b"intersects @a 5 1 2", Line(Words)),
    (b"intersects x", Line(Words)),
    (b"intersects 5 x 2", Line(Words)),
    (b"intersects 5 x", Line(Number { word: 3 })),
    (b"within @a 5 x", Line(Number { word: 4 })),
    (b"intersects 5 1", NotRange),
    (b"within @a 5 1", NotRange),
    (b"contains 2147483647 -2147483648", NotRange),
    (b"contains 1 2 3 4", Line(Words)),
];

/// The fault of a line where ranges have one dimension, if it has one.
fn fault_of_one(alloc: Global, line: &[u8]) -> Option<RangeFault> {
    read_range_line::<2>(alloc, line).err()
}

/// The fault of a line where ranges have two dimensions, if it has one.
fn fault_of_two(alloc: Global, line: &[u8]) -> Option<RangeFault> {
    read_range_line::<4>(alloc, line).err()
}

#[test]
fn first_fault(rt: HostRuntime) {
    for (line, fault) in CHANGES {
        same_at(&rt, fault_of_one(rt.alloc(), line), Some(fault), &line);
    }
    for (line, fault) in QUERIES {
        same_at(&rt, fault_of_one(rt.alloc(), line), Some(fault), &line);
    }
}

#[test]
fn the_second_range_is_none(rt: HostRuntime) {
    let added = fault_of_two(rt.alloc(), b"add 1 3 5 2");
    same(&rt, added, Some(NotRange));
    let asked = fault_of_two(rt.alloc(), b"contains 1 3 5 2");
    same(&rt, asked, Some(NotRange));
}

/// Lines for an index whose points are no ranges.
const OF_POINTS: [&[u8]; 5] = [b"add 1", b"create 1", b"box @ 1", b"\xff", b"delete 0"];

/// The faults of a line where points have one dimension, and seven.
fn odd_faults(alloc: Global, line: &[u8]) -> [Option<RangeFault>; 2] {
    [
        read_range_line::<1>(alloc, line).err(),
        read_range_line::<7>(alloc, line).err(),
    ]
}

#[test]
fn no_ranges(rt: HostRuntime) {
    for line in OF_POINTS {
        same_at(
            &rt,
            odd_faults(rt.alloc(), line),
            [Some(NotRanges); 2],
            &line,
        );
    }
}

const BLANK: [&[u8]; 3] = [b"", b" \t\r", b" # add 1"];

/// Whether a line asks nothing, where points have three dimensions, and four.
fn are_blank(alloc: Global, line: &[u8]) -> [bool; 2] {
    let of_three = read_range_line::<3>(alloc, line);
    let of_four = read_range_line::<4>(alloc, line);
    [
        matches!(of_three, Ok(Command::Blank)),
        matches!(of_four, Ok(Command::Blank)),
    ]
}

#[test]
fn blank_lines(rt: HostRuntime) {
    for line in BLANK {
        same_at(&rt, are_blank(rt.alloc(), line), [true; 2], &line);
    }
}

/// Lines where there is no index, and what they ask.
const FIRST: [(&[u8], Result<First, RangeFault>); 5] = [
    (b"add 1 2", Err(Line(NoIndex))),
    (b"create 0", Err(Line(Dims))),
    (b" # create 1", Ok(First::Blank)),
    (
        b"create 2\r",
        Ok(First::Create {
            dims: 4,
            leaf_size: 200,
        }),
    ),
    (
        b"create 4 leaf 111",
        Ok(First::Create {
            dims: 8,
            leaf_size: 111,
        }),
    ),
];

#[test]
fn without_an_index(rt: HostRuntime) -> Result<(), Fail> {
    for (line, asked) in FIRST {
        same_at(&rt, read_range_first(line), asked, &line);
    }
    let long = vec![in rt.alloc(); b' '; 4_194_305]?;
    same(&rt, read_range_first(&long), Err(Line(TooLong)));
    Ok(())
}

#[test]
fn refusals(rt: HostRuntime) -> Result<(), Fail> {
    let mut out = Vec::new(rt.alloc());
    for fault in [NotRange, NotRanges, Line(Number { word: 3 })] {
        put_range_fault(&mut out, 12, &fault)?;
    }
    same(
        &rt,
        out.as_slice(),
        b"line 12: not a range\nline 12: not ranges\nline 12: bad number in word 3\n".as_slice(),
    );
    Ok(())
}
