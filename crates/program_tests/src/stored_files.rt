//! Six documents in two segments of a folder: what a run leaves of the files, and what is said where one is missing,
//! damaged or another's.

use crate::stories::{Lines, RUN, Step, tell};
use outer_io::FileName;
use std::test::Fail;

const FIRST: &str = "add 0 0\nadd 10 10 -3 4\nadd 5 5\nflush\n";

const SECOND: &str = "add 5 5\nadd -8 -6\nadd 20 0 0 20 20 20\nflush\n";

/// The lines that write the two segments, with their answers.
const TWO: &[Lines] = &[
    ("create 2 leaf 2\n", "ok\n"),
    (FIRST, "doc 0\ndoc 1\ndoc 2\nok\n"),
    (SECOND, "doc 3\ndoc 4\ndoc 5\nok\n"),
];

const ALL: Lines = ("box -9 -9 30 30\n", "hits 6\n0\n1\n2\n3\n4\n5\n");

const FIRST_LIVE: FileName = FileName::Live {
    segment: 0,
    generation: 1,
};

const SECOND_LIVE: FileName = FileName::Live {
    segment: 1,
    generation: 1,
};

/// The segment that both are merged into, and its live numbers.
const MERGED: FileName = FileName::Segment(2);

const MERGED_LIVE: FileName = FileName::Live {
    segment: 2,
    generation: 1,
};

/// The files of the two segments.
const FILES: &[FileName] = &[
    FileName::Segment(0),
    FileName::Segment(1),
    FIRST_LIVE,
    SECOND_LIVE,
];

/// A snapshot needs the segments behind a merge, up to the end of its run, which leaves none of their files.
const SNAPSHOT_AT_THE_END: &[Step] = &[
    Step::Call(RUN, &[], TWO, ""),
    Step::There(FILES, &[MERGED, MERGED_LIVE]),
    Step::Call(
        RUN,
        &[],
        &[("snapshot before\nmerge\n", "ok\nok\n"), ALL],
        "",
    ),
    Step::There(&[MERGED, MERGED_LIVE], FILES),
    Step::Call(RUN, &[], &[ALL], ""),
];

/// Once the snapshot is released the next commit takes the files of both. It lists the merged one with the live numbers
/// that it had.
const RELEASED_SNAPSHOT: &[Step] = &[
    Step::Call(RUN, &[], TWO, ""),
    Step::Call(
        RUN,
        &[],
        &[
            ("snapshot before\nmerge\ncommit\n", "ok\nok\nok\n"),
            ("release before\nadd 50 50\n", "ok\ndoc 6\n"),
        ],
        "",
    ),
    Step::There(
        &[
            MERGED,
            MERGED_LIVE,
            FileName::Segment(3),
            FileName::Live {
                segment: 3,
                generation: 1,
            },
        ],
        FILES,
    ),
    Step::There(
        &[],
        &[FileName::Live {
            segment: 2,
            generation: 2,
        }],
    ),
];

/// Behind a merge the first call fails that takes a file away: the commit stands, and all files do.
const FAILING_SWEEP: &[Step] = &[
    Step::Call(RUN, &[], TWO, ""),
    Step::Call(RUN, &[18], &[("merge\n", "ok\n")], "folder fault\n"),
    Step::There(FILES, &[]),
    Step::There(&[MERGED, MERGED_LIVE], &[]),
    Step::Call(RUN, &[], &[ALL], ""),
];

/// A file is turned, and then gone.
const SEGMENT_LOST: &[Step] = &[
    Step::Call(RUN, &[], TWO, ""),
    Step::Turn(FileName::Segment(0)),
    Step::Call(RUN, &[], &[], "damaged: seg-0000000000000000.bkd page 0\n"),
    Step::Lose(FileName::Segment(0)),
    Step::Call(RUN, &[], &[], "damaged: seg-0000000000000000.bkd missing\n"),
];

const LIVE_LOST: &[Step] = &[
    Step::Call(RUN, &[], TWO, ""),
    Step::Turn(SECOND_LIVE),
    Step::Call(
        RUN,
        &[],
        &[],
        "damaged: live-0000000000000001-0000000000000001.bkd page 0\n",
    ),
    Step::Lose(SECOND_LIVE),
    Step::Call(
        RUN,
        &[],
        &[],
        "damaged: live-0000000000000001-0000000000000001.bkd missing\n",
    ),
];

/// The live numbers 3 and 4 of the second segment; 3, 4 and 6; 2, 3 and 4.
const TOO_FEW: &[u8] =
    b"BKDPLIV1\0\0\0\0\0\0\0\x01\0\0\0\0\0\0\0\x01\0\0\0\x03\0\0\0\x02\0\0\0\x02\x03";

const NOT_GIVEN: &[u8] =
    b"BKDPLIV1\0\0\0\0\0\0\0\x01\0\0\0\0\0\0\0\x01\0\0\0\x03\0\0\0\x04\0\0\0\x03\x0b";

const LIVE_TWICE: &[u8] =
    b"BKDPLIV1\0\0\0\0\0\0\0\x01\0\0\0\0\0\0\0\x01\0\0\0\x02\0\0\0\x03\0\0\0\x03\x07";

const OTHER_LIVE_NUMBERS: &[Step] = &[
    Step::Call(RUN, &[], TWO, ""),
    Step::Put(SECOND_LIVE, TOO_FEW),
    Step::Call(
        RUN,
        &[],
        &[],
        "damaged: live-0000000000000001-0000000000000001.bkd says 3, found 2\n",
    ),
    Step::Put(SECOND_LIVE, NOT_GIVEN),
    Step::Call(RUN, &[], &[], "damaged: document 6 beyond 6\n"),
    Step::Put(SECOND_LIVE, LIVE_TWICE),
    Step::Call(RUN, &[], &[], "damaged: document 2 twice\n"),
];

/// Segments of the same id: one with another leaf size, and one with other documents.
const OTHER_SEGMENTS: &[Step] = &[
    Step::Call(RUN, &[], TWO, ""),
    Step::Take(FileName::Segment(1), &["create 2 leaf 3\n", FIRST, SECOND]),
    Step::Call(
        RUN,
        &[],
        &[],
        "damaged: seg-0000000000000001.bkd says 2, found 3\n",
    ),
    Step::Take(FileName::Segment(1), &["create 2 leaf 2\n", SECOND, FIRST]),
    Step::Call(
        RUN,
        &[],
        &[],
        "damaged: seg-0000000000000001.bkd says 5, found 4\n",
    ),
];

const STORIES: &[&[Step]] = &[
    SNAPSHOT_AT_THE_END,
    RELEASED_SNAPSHOT,
    FAILING_SWEEP,
    SEGMENT_LOST,
    LIVE_LOST,
    OTHER_LIVE_NUMBERS,
    OTHER_SEGMENTS,
];

#[test]
fn each_story(rt: HostRuntime) -> Result<(), Fail> {
    tell(&rt, rt.alloc(), STORIES)
}
