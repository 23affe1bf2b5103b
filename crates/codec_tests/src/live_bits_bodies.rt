//! Outside vectors, bad bytes, and each call that takes memory once.

use crate::asserts::{same, same_at};
use byte_cursor::Bytes;
use live_bits::{BitsFault, LiveBits};
use std::alloc::Global;
use std::process::Abort;
use std::test::Fail;

/// The body of segment 2, generation 1 with the numbers 3, 4 and 9.
const BODY: [u8; 37] = [
    0x42, 0x4b, 0x44, 0x50, 0x4c, 0x49, 0x56, 0x31, // the magic bytes
    0, 0, 0, 0, 0, 0, 0, 2, // segment
    0, 0, 0, 0, 0, 0, 0, 1, // generation
    0, 0, 0, 3, // base
    0, 0, 0, 7, // span
    0, 0, 0, 3, // live
    0x43,
];

/// The base, the span and how many are live.
fn sizes(set: &LiveBits) -> (u32, u32, u32) {
    (set.base(), set.span(), set.live_count())
}

/// Writes the set as that of segment 2, generation 1: these are the bytes of the body.
fn spells(rt: &(impl Abort + AllocGlobal), set: &LiveBits) -> Result<(), Fail> {
    same(rt, set.write(rt.alloc(), 2, 1)?.as_slice(), BODY.as_slice());
    Ok(())
}

/// The set of the body's numbers.
fn made(rt: &impl AllocGlobal) -> Result<LiveBits, Fail> {
    Ok(LiveBits::of_docs(rt.alloc(), &[9, 3, 4, 9, 3])?)
}

/// What the body is read as.
fn read(rt: &impl AllocGlobal) -> Result<LiveBits, Fail> {
    let given = Bytes::new(BODY.to_vec(rt.alloc())?);
    Ok(LiveBits::read(rt.alloc(), 2, 1, given)?)
}

#[test]
fn one_set(rt: HostRuntime) -> Result<(), Fail> {
    let set = made(&rt)?;
    same(&rt, sizes(&set), (3, 7, 3));
    spells(&rt, &set)?;
    spells(&rt, &read(&rt)?)
}

/// Numbers, and whether they are live.
const LIVE: [(u32, bool); 7] = [
    (0, false),
    (3, true),
    (4, true),
    (5, false),
    (9, true),
    (10, false),
    (u32::MAX, false),
];

#[test]
fn live_numbers(rt: HostRuntime) -> Result<(), Fail> {
    let set = read(&rt)?;
    for (doc, live) in LIVE {
        same_at(&rt, set.is_live(doc), live, &doc);
    }
    Ok(())
}

/// Numbers, and the word from each on.
const WORDS: [(u32, u64); 5] = [(0, 0x218), (3, 0x43), (4, 0x21), (10, 0), (u32::MAX, 0)];

#[test]
fn words(rt: HostRuntime) -> Result<(), Fail> {
    let set = read(&rt)?;
    for (first, word) in WORDS {
        same_at(&rt, set.word(first), word, &first);
    }
    Ok(())
}

/// Numbers that are cleared in turn, and whether they were live.
const CLEARED: [(u32, bool); 6] = [
    (4, true),
    (4, false),
    (8, false),
    (2, false),
    (11, false),
    (3, true),
];

/// Which of the body's numbers are live.
fn three(set: &LiveBits) -> (bool, bool, bool) {
    (set.is_live(3), set.is_live(4), set.is_live(9))
}

#[test]
fn cleared_numbers(rt: HostRuntime) -> Result<(), Fail> {
    let mut set = made(&rt)?;
    let before = set.copy(rt.alloc())?;
    for (doc, was) in CLEARED {
        same_at(&rt, set.clear(doc), was, &doc);
    }
    same(&rt, sizes(&set), (3, 7, 1));
    same(&rt, three(&set), (false, false, true));
    spells(&rt, &before)
}

/// The numbers that a set is made of, one that is then cleared, how many numbers are passed over, and those of the
/// seven numbers that stay.
type Kept = (&'static [u32], Option<u32>, usize, &'static [u32]);

/// The seven numbers of which each row says which stay; 3 is there twice.
const ASKED: [u32; 7] = [5, 3, 8, 3, 4, 6, 7];

const KEPT: [Kept; 10] = [
    // all of a span, which has all of them
    (&[3, 4, 5, 6, 7, 8], None, 0, &ASKED),
    (&[3, 4, 5, 6, 7, 8], None, 7, &ASKED),
    // all of a span, beyond which some lie
    (&[4, 5, 6, 7, 8], None, 0, &[5, 8, 4, 6, 7]),
    (&[3, 4, 5, 6, 7], None, 1, &[5, 3, 3, 4, 6, 7]),
    (&[5], None, 0, &[5]),
    // one is dead: the first, the last, one in the middle
    (&[3, 4, 5, 6, 7, 8], Some(5), 0, &[3, 8, 3, 4, 6, 7]),
    (&[3, 4, 5, 6, 7, 8], Some(7), 2, &[5, 3, 8, 3, 4, 6]),
    (&[3, 4, 5, 6, 7, 8], Some(3), 2, &[5, 3, 8, 4, 6, 7]),
    // of numbers that aren't live only those stay that are passed over
    (&[], None, 0, &[]),
    (&[5], Some(5), 3, &[5, 3, 8]),
];

#[test]
fn kept_numbers(rt: HostRuntime) -> Result<(), Fail> {
    for (docs, dead, from, stay) in KEPT {
        if from > ASKED.len() || docs.iter().any(|d| *d >= 1 << 24) {
            return Err("not what a set is asked for".into());
        }
        let mut set = LiveBits::of_docs(rt.alloc(), docs)?;
        if let Some(doc) = dead {
            set.clear(doc);
        }
        let mut numbers = ASKED.to_vec(rt.alloc())?;
        set.keep_live(&mut numbers, from);
        same_at(&rt, numbers.as_slice(), stay, &(docs, dead, from));
    }
    Ok(())
}

#[test]
fn no_numbers(rt: HostRuntime) -> Result<(), Fail> {
    let none = LiveBits::of_docs(rt.alloc(), &[])?;
    same(&rt, sizes(&none), (0, 0, 0));
    same(&rt, none.write(rt.alloc(), 0, 0)?.as_slice().len(), 36);
    Ok(())
}

/// The least number and the greatest one.
fn ends(alloc: Global) -> Result<LiveBits, Fail> {
    Ok(LiveBits::of_docs(alloc, &[16_777_215, 0])?)
}

#[test]
fn the_widest_span(rt: HostRuntime) -> Result<(), Fail> {
    same(&rt, sizes(&ends(rt.alloc())?), (0, 16_777_216, 2));
    Ok(())
}

#[test]
fn the_longest_body(rt: HostRuntime) -> Result<(), Fail> {
    let body = ends(rt.alloc())?.write(rt.alloc(), u64::MAX, u64::MAX)?;
    same(&rt, body.as_slice().len(), 36 + 2_097_152);
    let read = LiveBits::read(rt.alloc(), u64::MAX, u64::MAX, body)?;
    same(
        &rt,
        (read.live_count(), read.is_live(16_777_215)),
        (2, true),
    );
    Ok(())
}

/// How many numbers are live in the body, if it is one. Bytes that are none have to come back as they were.
fn live_in(rt: &(impl Abort + AllocGlobal), bytes: &[u8]) -> Result<Option<u32>, Fail> {
    let given = Bytes::new(bytes.to_vec(rt.alloc())?);
    match LiveBits::read(rt.alloc(), 2, 1, given) {
        Ok(set) => Ok(Some(set.live_count())),
        Err(BitsFault::NotBits { b }) => {
            same(rt, b.as_slice(), bytes);
            Ok(None)
        }
        Err(BitsFault::Memory) => Err("memory is wanting")?,
    }
}

#[test]
fn no_front_is_a_body(rt: HostRuntime) -> Result<(), Fail> {
    for len in 0..BODY.len() {
        same_at(&rt, live_in(&rt, &BODY[..len])?, None, &len);
    }
    Ok(())
}

/// One byte more; and single bytes changed: magic, segment, generation, span, count, a bit, a bit past the span.
const CHANGES: [(usize, u8); 10] = [
    (37, 0),
    (0, 0x43),
    (15, 3),
    (23, 0),
    (28, 1),
    (31, 6),
    (31, 9),
    (35, 2),
    (36, 0x42),
    (36, 0xc3),
];

/// The body with one byte changed, or put behind it.
fn changed(alloc: Global, at: usize, byte: u8) -> Result<Vec<u8>, Fail> {
    let mut bytes = BODY.to_vec(alloc)?;
    if at < bytes.len() {
        bytes[at] = byte;
    } else {
        bytes.push(byte)?;
    }
    Ok(bytes)
}

#[test]
fn no_body(rt: HostRuntime) -> Result<(), Fail> {
    for (at, byte) in CHANGES {
        let bytes = changed(rt.alloc(), at, byte)?;
        same_at(&rt, live_in(&rt, bytes.as_slice())?, None, &(at, byte));
    }
    Ok(())
}

/// The base at its end.
#[test]
fn greatest_base(rt: HostRuntime) -> Result<(), Fail> {
    let mut bytes = BODY.to_vec(rt.alloc())?;
    bytes.truncate(36);
    for (base, answer) in [(0u8, Some(0)), (1, None)] {
        assert_eq!(rt; bytes.len(), 36);
        bytes[24] = 1;
        bytes[27] = base;
        bytes[31] = 0;
        bytes[35] = 0;
        same(&rt, live_in(&rt, bytes.as_slice())?, answer);
    }
    Ok(())
}

/// Of all bytes that differ from the body in one byte, as many are a body as a reader in another language finds.
#[test]
fn one_byte_changed(rt: HostRuntime) -> Result<(), Fail> {
    let mut found = 0u32;
    for at in 0..BODY.len() {
        for byte in 0..=255 {
            let mut bytes = BODY;
            bytes[at] = byte;
            let live = live_in(&rt, &bytes)?;
            found = found.saturating_add(u32::from(live == Some(3) && bytes != BODY));
        }
    }
    same(&rt, found, 800);
    Ok(())
}
