//! Answers that were reckoned by hand: over a buffer, over stored segments and over both; how often a search reads;
//! and what it says of a leaf that is damaged.

use crate::asserts::{same, same_at};
use crate::stored::{
    ASTRAY, AT_TEN, ONE_FIELDS, ONE_TO_NINE, Stored, THREE_LEAVES, TWO_FIELDS, open_alone, store,
};
use crate::walks::place;
use live_bits::LiveBits;
use nearest_query::{Nearest, nearest, survey_near};
use outer_io::MemFolder;
use page_cache::{PageCache, PageFault};
use point_codec::{Entry, Near, Point};
use segment_file::SegmentHead;
use std::alloc::{AllocError, Global};
use std::test::Fail;

/// A segment whose one entry is number 2 at 10.
const LATE: Stored = Stored {
    id: 7,
    fields: &ONE_FIELDS,
    index: &AT_TEN,
    leaves: &[0, 1, 0, 2, 4, 0x80, 0, 0, 10],
};

/// A segment whose one entry is number 1 at -10.
const OPPOSITE: Stored = Stored {
    id: 8,
    fields: &ONE_FIELDS,
    index: &[
        0x7f, 0xff, 0xff, 0xf6, 0x7f, 0xff, 0xff, 0xf6, 9, 0x7f, 0xff, 0xff, 0xf6, 0x7f, 0xff,
        0xff, 0xf6,
    ],
    leaves: &[0, 1, 0, 1, 4, 0x7f, 0xff, 0xff, 0xf6],
};

/// A segment whose one entry is number 0 at 10.
const EARLY: Stored = Stored {
    id: 9,
    fields: &ONE_FIELDS,
    index: &AT_TEN,
    leaves: &[0, 1, 0, 0, 4, 0x80, 0, 0, 10],
};

/// Number 0 at 1 and at 9.
const TWO_POINTS: Stored = Stored {
    id: 7,
    fields: &TWO_FIELDS,
    index: &ONE_TO_NINE,
    leaves: &[0, 2, 1, 0, 0, 0, 3, 0x80, 0, 0, 0, 0, 1, 9],
};

/// A buffer whose one entry is number 3 at -10.
const BUFFER: [Entry<1>; 1] = [Entry {
    doc: 3,
    point: Point { c: [-10] },
}];

/// Live bits of the numbers from 0 to 4.
fn five_live(alloc: Global) -> Result<LiveBits, AllocError> {
    LiveBits::of_docs(alloc, &[0, 1, 2, 3, 4])
}

/// A folder with three segments, and their heads.
fn three_stored(alloc: Global) -> Result<(MemFolder, [SegmentHead<1>; 3]), Fail> {
    let mut folder = MemFolder::new(alloc, Vec::new(alloc));
    let heads = [
        store(alloc, &mut folder, &LATE)?,
        store(alloc, &mut folder, &OPPOSITE)?,
        store(alloc, &mut folder, &EARLY)?,
    ];
    Ok((folder, heads))
}

/// The nearest among three segments and number 3 at -10, where call number `fail` of the folder fails.
fn nearest_of_three(
    alloc: Global,
    at: i32,
    k: u16,
    fail: u64,
) -> Result<Result<Nearest, PageFault>, Fail> {
    if k < 1 || k > 10_000 {
        return Err("not 1 to 10,000".into());
    }
    let (mut folder, heads) = three_stored(alloc)?;
    let lives = [five_live(alloc)?, five_live(alloc)?, five_live(alloc)?];
    let mut cache = PageCache::new(alloc, 4)?;
    folder.plan(vec![in alloc; fail]?, None);
    Ok(nearest(
        alloc,
        &heads,
        &lives,
        &BUFFER,
        &mut cache,
        &mut folder,
        &Point { c: [at] },
        k,
        false,
    ))
}

/// The nearest two of a segment.
fn two_nearest(
    alloc: Global,
    folder: &mut MemFolder,
    cache: &mut PageCache,
    heads: &[SegmentHead<1>; 1],
    at: i32,
) -> Result<Nearest, PageFault> {
    let lives = [five_live(alloc)?];
    nearest(
        alloc,
        heads,
        &lives,
        &[],
        cache,
        folder,
        &Point { c: [at] },
        2,
        false,
    )
}

/// The nearest two of one segment, asked for twice over one cache, where call number `fail` of the folder fails.
fn asked_twice(
    alloc: Global,
    segment: &Stored,
    at: i32,
    fail: u64,
) -> Result<(Result<Nearest, PageFault>, Result<Nearest, PageFault>), Fail> {
    let mut folder = MemFolder::new(alloc, Vec::new(alloc));
    let heads = [store(alloc, &mut folder, segment)?];
    let mut cache = PageCache::new(alloc, 4)?;
    folder.plan(vec![in alloc; fail]?, None);
    let first = two_nearest(alloc, &mut folder, &mut cache, &heads, at);
    let second = two_nearest(alloc, &mut folder, &mut cache, &heads, at);
    Ok((first, second))
}

/// Where it is asked from, for how many, and those that are found.
const FOUND: [(i32, u16, &[Near]); 2] = [
    (
        0,
        2,
        &[Near { doc: 0, dist2: 100 }, Near { doc: 1, dist2: 100 }],
    ),
    (
        -9,
        10,
        &[
            Near { doc: 1, dist2: 1 },
            Near { doc: 3, dist2: 1 },
            Near { doc: 0, dist2: 361 },
            Near { doc: 2, dist2: 361 },
        ],
    ),
];

#[test]
fn segments_and_a_buffer_by_number(rt: HostRuntime) -> Result<(), Fail> {
    for (at, k, expected) in FOUND {
        let found = nearest_of_three(rt.alloc(), at, k, 9)??;
        same_at(&rt, found.docs.as_slice(), expected, &(k, at));
    }
    Ok(())
}

/// How many are asked for, the number of the call that fails, and whether the search ends without it.
const READS: [(u16, u64, bool, &str); 4] = [
    (1, 0, false, "one leaf is read"),
    (2, 1, true, "and no other"),
    (3, 2, false, "three are read"),
    (3, 3, true, "and no page twice"),
];

#[test]
fn only_leaves_that_may_count_are_read(rt: HostRuntime) -> Result<(), Fail> {
    for (k, fail, done, said) in READS {
        same_at(
            &rt,
            nearest_of_three(rt.alloc(), -9, k, fail)?.is_ok(),
            done,
            &said,
        );
    }
    Ok(())
}

#[test]
fn nothing_is_read_where_no_number_is_live(rt: HostRuntime) -> Result<(), Fail> {
    let (mut folder, heads) = three_stored(rt.alloc())?;
    let lives = [
        LiveBits::of_docs(rt.alloc(), &[])?,
        LiveBits::of_docs(rt.alloc(), &[])?,
        LiveBits::of_docs(rt.alloc(), &[])?,
    ];
    let mut cache = PageCache::new(rt.alloc(), 4)?;
    folder.plan(vec![in rt.alloc(); 0]?, None);
    let found = nearest(
        rt.alloc(),
        &heads,
        &lives,
        &BUFFER,
        &mut cache,
        &mut folder,
        &Point { c: [0] },
        3,
        false,
    )?;
    same(
        &rt,
        found.docs.as_slice(),
        [Near { doc: 3, dist2: 100 }].as_slice(),
    );
    same(&rt, found.touched, 3);
    Ok(())
}

/// The two nearest to 6 among the three leaves, and the one that is nearest to 9 of two points.
const TWO_FOUND: [Near; 2] = [Near { doc: 0, dist2: 1 }, Near { doc: 1, dist2: 1 }];

const ONE_FOUND: [Near; 1] = [Near { doc: 0, dist2: 0 }];

#[test]
fn a_kept_page_is_not_read_again(rt: HostRuntime) -> Result<(), Fail> {
    let (first, second) = asked_twice(rt.alloc(), &THREE_LEAVES, 6, 1)?;
    same(&rt, first?.docs.as_slice(), TWO_FOUND.as_slice());
    same(&rt, second?.docs.as_slice(), TWO_FOUND.as_slice());
    let (first, _) = asked_twice(rt.alloc(), &TWO_POINTS, 9, 1)?;
    same(&rt, first?.docs.as_slice(), ONE_FOUND.as_slice());
    Ok(())
}

#[test]
fn a_leaf_astray_where_it_is_read(rt: HostRuntime) -> Result<(), Fail> {
    let (found, _) = asked_twice(rt.alloc(), &ASTRAY, 6, 9)?;
    let seen = match &found {
        Err(fault) => place(fault),
        Ok(_) => None,
    };
    same(&rt, seen, Some((2, 12, 9)));
    Ok(())
}

/// Number 9 at 6.
const BESIDE: [Entry<1>; 1] = [Entry {
    doc: 9,
    point: Point { c: [6] },
}];

/// How many leaves are touched where so many are asked for from 5, beside number 9.
fn touched_leaves(alloc: Global, live: LiveBits, k: u16) -> Result<u64, Fail> {
    if k < 1 || k > 10_000 {
        return Err("not 1 to 10,000".into());
    }
    let (mut folder, head) = open_alone(alloc, &THREE_LEAVES)?;
    let mut cache = PageCache::new(alloc, 4)?;
    let found = nearest(
        alloc,
        &[head],
        &[live],
        &BESIDE,
        &mut cache,
        &mut folder,
        &Point { c: [5] },
        k,
        false,
    )?;
    Ok(found.touched)
}

/// For how many it is asked, and how many leaves are as near as the last one found: at a distance below that of two
/// leaves, at theirs, and where fewer are found.
const TOUCHED: [(u16, u64); 3] = [(2, 1), (3, 3), (10, 3)];

/// These figures where no number of the segment is live: number 9 is the only one.
const TOUCHED_DEAD: [(u16, u64); 2] = [(1, 1), (2, 3)];

#[test]
fn leaves_within_a_bound(rt: HostRuntime) -> Result<(), Fail> {
    for (k, leaves) in TOUCHED {
        let live = five_live(rt.alloc())?;
        same_at(&rt, touched_leaves(rt.alloc(), live, k)?, leaves, &k);
    }
    for (k, leaves) in TOUCHED_DEAD {
        let live = LiveBits::of_docs(rt.alloc(), &[])?;
        same_at(&rt, touched_leaves(rt.alloc(), live, k)?, leaves, &k);
    }
    let (_folder, head) = open_alone(rt.alloc(), &THREE_LEAVES)?;
    for (bound, leaves) in [(Some(3), 1), (Some(4), 3), (None, 3)] {
        let surveyed = survey_near(&head, &Point { c: [5] }, bound);
        same_at(&rt, surveyed, leaves, &bound);
    }
    Ok(())
}
