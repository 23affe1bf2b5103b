//! Bodies of commits: outside vectors and bad bytes.

use crate::asserts::{holds, holds_at, same, same_at};
use crate::samples::changed;
use byte_cursor::{put_slice, put_u16, put_u32, put_u64};
use commit_list::{Commit, Listed, body_length, decode, encode_commit};
use std::alloc::Global;
use std::process::Abort;
use std::test::Fail;

/// 2 dimensions, leaf size 333, next number 1, 2 points given, next segment 1; segment 0 of generation 1 with 2
/// entries, 1 live.
pub const BODY: [u8; 53] = [
    0x42, 0x4b, 0x44, 0x50, 0x43, 0x4f, 0x4d, 0x32, // the magic bytes
    2, // dimensions
    0x01, 0x4d, // leaf size
    0, 0, 0, 1, // next number
    0, 0, 0, 2, // points given
    0, 0, 0, 0, 0, 0, 0, 1, // next segment
    0, 1, // listed segments
    0, 0, 0, 0, 0, 0, 0, 0, // segment
    0, 0, 0, 0, 0, 0, 0, 1, // generation
    0, 0, 0, 2, // entries
    0, 0, 0, 1, // live
];

/// In the layout of before: the same with 1 point given and 1 entry.
pub const OLD_BODY: [u8; 49] = [
    0x42, 0x4b, 0x44, 0x50, 0x43, 0x4f, 0x4d, 0x31, // the magic bytes
    2, // dimensions
    0x01, 0x4d, // leaf size
    0, 0, 0, 1, // next number
    0, 0, 0, 0, 0, 0, 0, 1, // next segment
    0, 1, // listed segments
    0, 0, 0, 0, 0, 0, 0, 0, // segment
    0, 0, 0, 0, 0, 0, 0, 1, // generation
    0, 0, 0, 1, // entries
    0, 0, 0, 1, // live
];

/// The commit of a body that is one.
pub fn read(rt: &(impl Abort + AllocGlobal), body: &[u8]) -> Result<Commit, Fail> {
    match decode(rt.alloc(), body)? {
        Some(c) => Ok(c),
        None => Err("no commit")?,
    }
}

/// The segment of the body.
const LISTED: Listed = Listed {
    segment: 0,
    generation: 1,
    entries: 2,
    live: 1,
};

#[test]
fn one_commit(rt: HostRuntime) -> Result<(), Fail> {
    let c = read(&rt, BODY.as_slice())?;
    same(
        &rt,
        (
            c.dims(),
            c.leaf_size(),
            c.next(),
            c.points_given(),
            c.next_segment(),
        ),
        (2, 333, 1, 2, 1),
    );
    let [listed] = c.listed() else {
        return Err("one segment")?;
    };
    same(&rt, *listed, LISTED);
    Ok(())
}

#[test]
fn one_body(rt: HostRuntime) -> Result<(), Fail> {
    let c = read(&rt, BODY.as_slice())?;
    same(
        &rt,
        encode_commit(rt.alloc(), &c)?.as_slice(),
        BODY.as_slice(),
    );
    same(&rt, body_length(BODY.as_slice()), Some(53));
    Ok(())
}

#[test]
fn made_by_numbers(rt: HostRuntime) -> Result<(), Fail> {
    let c = Commit::new(2, 333, 1, 2, 1, Vec::new(rt.alloc()));
    let mut want = BODY.to_vec(rt.alloc())?;
    want.truncate(29);
    want[28] = 0;
    same(
        &rt,
        encode_commit(rt.alloc(), &c)?.as_slice(),
        want.as_slice(),
    );
    Ok(())
}

#[test]
fn the_layout_of_before(rt: HostRuntime) -> Result<(), Fail> {
    let c = read(&rt, OLD_BODY.as_slice())?;
    same(&rt, (c.next(), c.points_given()), (1, 1));
    same(&rt, body_length(OLD_BODY.as_slice()), Some(49));
    Ok(())
}

/// What is written of it is the layout of now, with one point given and one entry.
#[test]
fn the_layout_of_before_is_not_written(rt: HostRuntime) -> Result<(), Fail> {
    let c = read(&rt, OLD_BODY.as_slice())?;
    let mut want = BODY.to_vec(rt.alloc())?;
    want[18] = 1;
    want[48] = 1;
    same(
        &rt,
        encode_commit(rt.alloc(), &c)?.as_slice(),
        want.as_slice(),
    );
    Ok(())
}

/// Whether the bytes, with one of them changed or put behind them, are the body of a commit.
fn is_body(rt: &impl AllocGlobal, bytes: &[u8], at: usize, byte: u8) -> Result<bool, Fail> {
    let bytes = changed(rt, bytes, at, byte)?;
    Ok(decode(rt.alloc(), bytes.as_slice())?.is_some())
}

/// Single bytes of `BODY` changed: where, to what, and whether that is a commit.
const CHANGES: [(usize, u8, bool); 21] = [
    (53, 0, false), // one byte more
    (0, 0x43, false), // the magic bytes
    (7, 0x31, false), // the magic bytes of before
    (8, 0, false), // no dimension
    (8, 8, false), // a leaf size above what 8 dimensions have
    (8, 9, false),
    (9, 2, false), // a leaf size of 589
    (10, 0x4e, false), // a leaf size of 334
    (14, 2, true), // next as points given
    (14, 3, false), // next above points given
    (15, 1, false), // 16,777,218 points given
    (26, 0, false), // the next id as the listed one
    (28, 0, false), // a list of none
    (28, 2, false), // a list of two
    (36, 1, false), // an id as the next id
    (44, 0, true), // generation 0
    (45, 1, false), // 16,777,218 entries
    (48, 0, false), // no entry
    (48, 1, true), // all live
    (52, 0, true), // none live
    (52, 3, false), // more live than entries
];

#[test]
fn no_front_is_a_body(rt: HostRuntime) -> Result<(), Fail> {
    for len in 0..BODY.len() {
        holds_at(&rt, decode(rt.alloc(), &BODY[..len])?.is_none(), &len);
    }
    Ok(())
}

#[test]
fn one_byte_changed(rt: HostRuntime) -> Result<(), Fail> {
    for (at, byte, want) in CHANGES {
        same_at(
            &rt,
            is_body(&rt, BODY.as_slice(), at, byte)?,
            want,
            &(at, byte),
        );
    }
    Ok(())
}

/// Appends a listed segment of the greatest numbers, none of them live.
fn put_listed(out: &mut Vec<u8>, segment: u64) -> Result<(), Fail> {
    put_u64(out, segment)?;
    put_u64(out, u64::MAX)?;
    put_u32(out, 16_777_216)?;
    put_u32(out, 0)?;
    Ok(())
}

/// The body of so many segments, whose ids are the even numbers.
pub fn long_body(alloc: Global, count: u16) -> Result<Vec<u8>, Fail> {
    let mut out = Vec::new(alloc);
    put_slice(&mut out, &BODY[..19])?;
    put_u64(&mut out, 1000)?;
    put_u16(&mut out, count)?;
    for i in 0..count {
        put_listed(&mut out, 2 * u64::from(i))?;
    }
    Ok(out)
}

/// The body of so many segments is that of a commit of as many, which is written so.
fn lists(rt: &(impl Abort + AllocGlobal), count: u16) -> Result<(), Fail> {
    let body = long_body(rt.alloc(), count)?;
    let c = read(rt, body.as_slice())?;
    same(rt, c.listed().len(), usize::from(count));
    same(
        rt,
        encode_commit(rt.alloc(), &c)?.as_slice(),
        body.as_slice(),
    );
    Ok(())
}

#[test]
fn least_and_most_segments(rt: HostRuntime) -> Result<(), Fail> {
    lists(&rt, 0)?;
    lists(&rt, 200)
}

#[test]
fn too_many_segments(rt: HostRuntime) -> Result<(), Fail> {
    let body = long_body(rt.alloc(), 201)?;
    holds(&rt, decode(rt.alloc(), body.as_slice())?.is_none());
    same(&rt, body_length(body.as_slice()), None);
    Ok(())
}

/// What the first id becomes where the second one is 2, and whether that is a commit: two ids in the wrong order are
/// none, nor are two that are the same.
const FIRST_IDS: [(u8, bool); 4] = [(0, true), (1, true), (2, false), (3, false)];

#[test]
fn ids_ascend(rt: HostRuntime) -> Result<(), Fail> {
    let body = long_body(rt.alloc(), 3)?;
    for (first, want) in FIRST_IDS {
        same_at(&rt, is_body(&rt, body.as_slice(), 36, first)?, want, &first);
    }
    Ok(())
}
