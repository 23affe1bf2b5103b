//! What lines ask of an index of ranges.

use crate::asserts::{same, same_at};
use point_codec::{Name, Point, View};
use range_docs::read_range_line;
use script_lang::Command;
use std::alloc::Global;
use std::test::Fail;

const LEAST: i32 = -2_147_483_648;

const GREATEST: i32 = 2_147_483_647;

/// A box that is asked for, and of what.
type BoxQuery<const D: usize> = (View, Point<D>, Point<D>);

/// What a line where ranges have one dimension asks of a box.
fn asked_of_one(alloc: Global, line: &[u8]) -> Result<BoxQuery<2>, Fail> {
    let Command::InBox { view, lo, hi } = read_range_line(alloc, line)? else {
        return Err("no box")?;
    };
    Ok((view, lo, hi))
}

/// What a box over ranges of two dimensions asks.
fn asked_of_two(alloc: Global, line: &[u8]) -> Result<BoxQuery<4>, Fail> {
    let Command::InBox { view, lo, hi } = read_range_line(alloc, line)? else {
        return Err("no box")?;
    };
    Ok((view, lo, hi))
}

/// What a line where ranges have three dimensions asks of a box.
fn asked_of_three(alloc: Global, line: &[u8]) -> Result<BoxQuery<6>, Fail> {
    let Command::InBox { view, lo, hi } = read_range_line(alloc, line)? else {
        return Err("no box")?;
    };
    Ok((view, lo, hi))
}

/// The view of a name; none is that of now.
fn view_of(name: &[u8]) -> Result<View, &'static str> {
    if name.is_empty() {
        return Ok(View::Now);
    }
    Ok(View::Named(Name::new(name).ok_or("no name")?))
}

/// Lines, the name of what they ask, and the corners of the box.
const BOXES_OF_ONE: [(&[u8], &[u8], [i32; 2], [i32; 2]); 4] = [
    (b"intersects 5 6", b"", [LEAST, 5], [6, GREATEST]),
    (b"within @s-1 4 9", b"s-1", [4, 4], [9, 9]),
    (b"contains 4 5", b"", [LEAST, 5], [4, GREATEST]),
    (b"contains @a 4 4", b"a", [LEAST, 4], [4, GREATEST]),
];

#[test]
fn boxes_of_one_dimension(rt: HostRuntime) -> Result<(), Fail> {
    for (line, name, lo, hi) in BOXES_OF_ONE {
        let wanted = (view_of(name)?, Point { c: lo }, Point { c: hi });
        same_at(&rt, asked_of_one(rt.alloc(), line)?, wanted, &line);
    }
    Ok(())
}

const BOXES_OF_TWO: [(&[u8], [i32; 4], [i32; 4]); 3] = [
    (
        b"intersects 2 2 3 3",
        [LEAST, LEAST, 2, 2],
        [3, 3, GREATEST, GREATEST],
    ),
    (b"within 0 1 4 3", [0, 1, 0, 1], [4, 3, 4, 3]),
    (
        b"contains 0 1 2 3",
        [LEAST, LEAST, 2, 3],
        [0, 1, GREATEST, GREATEST],
    ),
];

#[test]
fn boxes_of_more_dimensions(rt: HostRuntime) -> Result<(), Fail> {
    for (line, lo, hi) in BOXES_OF_TWO {
        let (_, from, to) = asked_of_two(rt.alloc(), line)?;
        same_at(&rt, (from, to), (Point { c: lo }, Point { c: hi }), &line);
    }
    Ok(())
}

#[test]
fn a_box_of_three_dimensions(rt: HostRuntime) -> Result<(), Fail> {
    let (_, lo, hi) = asked_of_three(rt.alloc(), b"within 1 2 3 4 5 6")?;
    let from = Point {
        c: [1, 2, 3, 1, 2, 3],
    };
    let to = Point {
        c: [4, 5, 6, 4, 5, 6],
    };
    same(&rt, (lo, hi), (from, to));
    Ok(())
}

#[test]
fn added_ranges(rt: HostRuntime) -> Result<(), Fail> {
    let Command::Add(points) = read_range_line::<2>(rt.alloc(), b"add 3 9 1 5 7 7 1 5")? else {
        return Err("no ranges")?;
    };
    let wanted = [[1, 5], [3, 9], [7, 7]].map(|c| Point { c });
    same(&rt, points.as_slice(), wanted.as_slice());
    Ok(())
}

#[test]
fn an_added_range_of_four_dimensions(rt: HostRuntime) -> Result<(), Fail> {
    let Command::Add(points) = read_range_line::<8>(rt.alloc(), b"add 1 2 3 4 1 2 3 5")? else {
        return Err("no ranges")?;
    };
    let wanted = Point {
        c: [1, 2, 3, 4, 1, 2, 3, 5],
    };
    same(&rt, points.as_slice(), [wanted].as_slice());
    Ok(())
}

/// What a command without ranges asks.
#[derive(Clone, Copy, PartialEq, Eq, Debug)]
enum OtherAsked {
    Create(u8, u16),
    Delete(u32),
    Flush,
    Merge,
    MergeEnd,
    Commit,
    Reopen,
    None,
}

fn other_of<const D: usize>(command: &Command<D>) -> OtherAsked {
    match command {
        Command::Create { dims, leaf_size } => OtherAsked::Create(*dims, *leaf_size),
        Command::Delete(doc) => OtherAsked::Delete(*doc),
        Command::Flush => OtherAsked::Flush,
        Command::Merge => OtherAsked::Merge,
        Command::MergeEnd => OtherAsked::MergeEnd,
        Command::Commit => OtherAsked::Commit,
        Command::Reopen => OtherAsked::Reopen,
        _ => OtherAsked::None,
    }
}

/// What a line asks where ranges have so many dimensions: one, two or four.
fn other_of_line(alloc: Global, dims: u8, line: &[u8]) -> Result<OtherAsked, Fail> {
    Ok(match dims {
        1 => other_of(&read_range_line::<2>(alloc, line)?),
        2 => other_of(&read_range_line::<4>(alloc, line)?),
        _ => other_of(&read_range_line::<8>(alloc, line)?),
    })
}

const OTHERS: [(u8, &[u8], OtherAsked); 7] = [
    (1, b"create 3 leaf 142", OtherAsked::Create(6, 142)),
    (1, b"delete 007", OtherAsked::Delete(7)),
    (1, b"flush", OtherAsked::Flush),
    (2, b"merge", OtherAsked::Merge),
    (2, b"merge end", OtherAsked::MergeEnd),
    (4, b"commit", OtherAsked::Commit),
    (4, b"reopen", OtherAsked::Reopen),
];

#[test]
fn other_commands(rt: HostRuntime) -> Result<(), Fail> {
    for (dims, line, wanted) in OTHERS {
        same_at(&rt, other_of_line(rt.alloc(), dims, line)?, wanted, &line);
    }
    Ok(())
}

#[test]
fn begins_a_merge(rt: HostRuntime) -> Result<(), Fail> {
    let Command::MergeBegin(positions) = read_range_line::<6>(rt.alloc(), b"merge begin 2 0")?
    else {
        return Err("no positions")?;
    };
    same(&rt, positions.as_slice(), [2, 0].as_slice());
    Ok(())
}

#[test]
fn makes_a_snapshot(rt: HostRuntime) -> Result<(), Fail> {
    let Command::Snapshot(name) = read_range_line::<6>(rt.alloc(), b"snapshot a")? else {
        return Err("no snapshot")?;
    };
    same(&rt, name.as_bytes(), b"a".as_slice());
    Ok(())
}

#[test]
fn releases_a_snapshot(rt: HostRuntime) -> Result<(), Fail> {
    let Command::Release(name) = read_range_line::<8>(rt.alloc(), b"release a")? else {
        return Err("no release")?;
    };
    same(&rt, name.as_bytes(), b"a".as_slice());
    Ok(())
}
