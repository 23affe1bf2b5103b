use crate::asserts::{same, same_at};
use point_codec::{Name, Point, View};
use polygon_query::GeoFault;
use script_lang::LineFault::{
    BadK, BadName, Dims, Geo, LeafSize, NoIndex, NotTwo, NotUtf8, Number, Unknown, Words,
};
use script_lang::{Command, First, LineFault, read_first, read_line};
use std::alloc::Global;
use std::test::Fail;

// 17 points of one dimension, and as many words of which the first is none
const SEVENTEEN: &[u8] = b"add 1 2 3 4 5 6 7 8 9 10 11 12 13 14 15 16 17";

const NO_SEVENTEEN: &[u8] = b"add x 2 3 4 5 6 7 8 9 10 11 12 13 14 15 16 17";

// 16 points but for the last word
const NO_SIXTEEN: &[u8] = b"add 1 2 3 4 5 6 7 8 9 10 11 12 13 14 15 y";

const POLYGON: &[u8] =
    br#"polygon @_ {"type": "Polygon", "coordinates": [[[0,0],[4,0],[4,4],[0,0]]]} "#;

/// Lines of two dimensions, and the first fault of each.
const FAULTS: [(&[u8], LineFault); 48] = [
    (b"near 1 0 0", Unknown),
    (b"\xff# a note", NotUtf8),
    (b"create 9 leaf 1", Dims),
    (b"create 2 leaf 334", LeafSize),
    (b"create 2 leaf 1", LeafSize),
    (b"create 9 leaf x", Number { word: 4 }),
    (b"create 2 leaves 3", Words),
    (b"add 1", Words),
    (b"add 1 2 3", Words),
    (b"add", Words),
    (b"add 1 x", Number { word: 3 }),
    (b"add 1 2147483648", Number { word: 3 }),
    (b"add -2147483649 y", Number { word: 2 }),
    (b"add 1 +2", Number { word: 3 }),
    (b"add x", Words),
    (b"add 1 x 3", Words),
    (b"add 1 2 x", Words),
    (b"add 1 2 3 x y 6", Number { word: 5 }),
    (b"delete", Words),
    (b"delete box 1", Words),
    (b"delete box x 0 5", Words),
    (b"delete 1 2", Words),
    (b"delete 4294967296", Number { word: 2 }),
    (b"box @ 0 0 5 5", BadName),
    (b"box @a.b 0 0 5", BadName),
    (b"box @a 0 0 5", Words),
    (b"box @a 0 0 5 x", Number { word: 6 }),
    (b"box x 0 5 5 y", Words),
    (b"box 0 x 5 y", Number { word: 3 }),
    (b"nearest 0 0 0", BadK),
    (b"nearest 10001 0 0", BadK),
    (b"nearest 10001 0 0x", Number { word: 4 }),
    (b"nearest 1 0", Words),
    (b"nearest", Words),
    (b"nearest x 0", Words),
    (b"nearest x y 0", Number { word: 2 }),
    (b"nearest 1 0 y 0", Words),
    (b"polygon", Words),
    (b"polygon @a ", Words),
    (b"polygon {", Geo(GeoFault::NotJson)),
    (b"flush 1", Words),
    (b"merge 1", Words),
    (b"merge begin 0 -1", Number { word: 4 }),
    (b"merge end 0", Words),
    (b"snapshot", Words),
    (b"snapshot a.b c", BadName),
    (b"snapshot a b.c", Words),
    (b"release a b", Words),
];

/// The fault of a line of two dimensions, if it has one.
fn fault(alloc: Global, line: &[u8]) -> Option<LineFault> {
    read_line::<2>(alloc, line).err()
}

#[test]
fn first_fault(rt: HostRuntime) {
    for (line, wanted) in FAULTS {
        same_at(&rt, fault(rt.alloc(), line), Some(wanted), &line);
    }
}

/// The fault of a line of one dimension, if it has one.
fn fault_of_one(alloc: Global, line: &[u8]) -> Option<LineFault> {
    read_line::<1>(alloc, line).err()
}

#[test]
fn first_fault_of_one_dimension(rt: HostRuntime) {
    same(&rt, fault_of_one(rt.alloc(), b"polygon {"), Some(NotTwo));
    same(&rt, fault_of_one(rt.alloc(), SEVENTEEN), Some(Words));
    same(&rt, fault_of_one(rt.alloc(), NO_SEVENTEEN), Some(Words));
    let last = fault_of_one(rt.alloc(), NO_SIXTEEN);
    same(&rt, last, Some(Number { word: 17 }));
}

/// What a line asks where there is no index.
pub(crate) fn first(line: &[u8]) -> Result<First, LineFault> {
    read_first(line)
}

#[test]
fn first_lines(rt: HostRuntime) {
    same(&rt, first(b"box @ 0 0 5 5"), Err(NoIndex));
    same(&rt, first(b"create 9"), Err(Dims));
    same(&rt, first(b" \t#create 9"), Ok(First::Blank));
    same(
        &rt,
        first(b"create 2\r"),
        Ok(First::Create {
            dims: 2,
            leaf_size: 333,
        }),
    );
}

/// What a line asks of an index of two dimensions.
fn two(alloc: Global, line: &[u8]) -> Result<Command<2>, Fail> {
    Ok(read_line(alloc, line)?)
}

/// What a line asks of an index of one dimension.
fn one(alloc: Global, line: &[u8]) -> Result<Command<1>, Fail> {
    Ok(read_line(alloc, line)?)
}

/// The points that an `add` of two repeated points gives, in order.
const POINTS: [Point<2>; 2] = [
    Point {
        c: [-2_147_483_648, 7],
    },
    Point { c: [3, 0] },
];

#[test]
fn adds(rt: HostRuntime) -> Result<(), Fail> {
    let Command::Add(points) = two(rt.alloc(), b"\tadd 3 -0 -2147483648 007  3 0 \r")? else {
        return Err("no points")?;
    };
    same(&rt, points.as_slice(), POINTS.as_slice());
    Ok(())
}

#[test]
fn deletes_a_box(rt: HostRuntime) -> Result<(), Fail> {
    let Command::DeleteBox { lo, hi } = two(rt.alloc(), b"delete box 1 2 2147483647 4")? else {
        return Err("no box")?;
    };
    let from = lo.c;
    let to = hi.c;
    same(&rt, (from, to), ([1, 2], [2_147_483_647, 4]));
    Ok(())
}

#[test]
fn asks_a_box(rt: HostRuntime) -> Result<(), Fail> {
    let Command::InBox { view, lo, hi } = one(rt.alloc(), b"box\t@s-1 -1 5")? else {
        return Err("no box")?;
    };
    let from = lo.c;
    let to = hi.c;
    same(&rt, (view, from, to), (named(b"s-1")?, [-1], [5]));
    Ok(())
}

#[test]
fn asks_the_nearest(rt: HostRuntime) -> Result<(), Fail> {
    let Command::Nearest { view, k, at } = one(rt.alloc(), b"nearest 10000 6")? else {
        return Err("no point")?;
    };
    let from = at.c;
    same(&rt, (view, k, from), (View::Now, 10_000, [6]));
    Ok(())
}

#[test]
fn asks_a_polygon(rt: HostRuntime) -> Result<(), Fail> {
    let Command::Polygon { view, rings } = two(rt.alloc(), POLYGON)? else {
        return Err("no polygon")?;
    };
    same(&rt, (view, rings.as_slice().len()), (named(b"_")?, 1));
    Ok(())
}

#[test]
fn begins_a_merge(rt: HostRuntime) -> Result<(), Fail> {
    let Command::MergeBegin(positions) = two(rt.alloc(), b"merge begin 4294967295 0 0")? else {
        return Err("no positions")?;
    };
    same(&rt, positions.as_slice(), [4_294_967_295, 0, 0].as_slice());
    Ok(())
}

fn named(name: &[u8]) -> Result<View, &'static str> {
    Ok(View::Named(Name::new(name).ok_or("no name")?))
}

/// What a line of a command without points asks.
#[derive(Clone, Copy, PartialEq, Eq, Debug)]
enum OtherCommand {
    Blank,
    Create(u8, u16),
    Delete(u32),
    Flush,
    Merge,
    MergeEnd,
    Commit,
    Reopen,
    Other,
}

/// What a command of two dimensions asks.
fn asked_by(command: &Command<2>) -> OtherCommand {
    match command {
        Command::Blank => OtherCommand::Blank,
        Command::Create { dims, leaf_size } => OtherCommand::Create(*dims, *leaf_size),
        Command::Delete(doc) => OtherCommand::Delete(*doc),
        Command::Flush => OtherCommand::Flush,
        Command::Merge => OtherCommand::Merge,
        Command::MergeEnd => OtherCommand::MergeEnd,
        Command::Commit => OtherCommand::Commit,
        Command::Reopen => OtherCommand::Reopen,
        _ => OtherCommand::Other,
    }
}

/// Lines of commands without points.
const OTHERS: [(&[u8], OtherCommand); 8] = [
    (b" # add 1", OtherCommand::Blank),
    (b"create 8 leaf 111", OtherCommand::Create(8, 111)),
    (b"delete 007", OtherCommand::Delete(7)),
    (b"flush ", OtherCommand::Flush),
    (b"merge", OtherCommand::Merge),
    (b"merge end", OtherCommand::MergeEnd),
    (b"commit", OtherCommand::Commit),
    (b"reopen", OtherCommand::Reopen),
];

#[test]
fn other_commands(rt: HostRuntime) -> Result<(), Fail> {
    for (line, asked) in OTHERS {
        same_at(&rt, asked_by(&two(rt.alloc(), line)?), asked, &line);
    }
    Ok(())
}

/// The snapshot that a line makes.
fn made(alloc: Global, line: &[u8]) -> Result<Name, Fail> {
    match two(alloc, line)? {
        Command::Snapshot(name) => Ok(name),
        _ => Err("no snapshot")?,
    }
}

/// The snapshot that a line lets go.
fn released(alloc: Global, line: &[u8]) -> Result<Name, Fail> {
    match two(alloc, line)? {
        Command::Release(name) => Ok(name),
        _ => Err("no release")?,
    }
}

#[test]
fn snapshots(rt: HostRuntime) -> Result<(), Fail> {
    let name = made(rt.alloc(), b"snapshot a")?;
    same(&rt, name.as_bytes(), b"a".as_slice());
    let name = released(rt.alloc(), b"release a")?;
    same(&rt, name.as_bytes(), b"a".as_slice());
    Ok(())
}
