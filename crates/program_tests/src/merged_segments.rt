//! Which segments stand after flushes and merges, each told by its entries and its live numbers.

use crate::stories::{CHECK, EXPLAIN, Lines, RUN, Step, tell};
use outer_io::FileName;
use std::test::Fail;

/// Nine documents of one point, flushed one after the other, in leaves of two.
const NINE: Lines = (
    "create 1 leaf 2\nadd 0\nflush\nadd 1\nflush\nadd 2\nflush\nadd 3\nflush\nadd 4\nflush\nadd 5\nflush\n\
    add 6\nflush\nadd 7\nflush\nadd 8\nflush\n",
    "ok\ndoc 0\nok\ndoc 1\nok\ndoc 2\nok\ndoc 3\nok\ndoc 4\nok\ndoc 5\nok\ndoc 6\nok\ndoc 7\nok\ndoc 8\nok\n",
);

/// One dimension, leaves of 2, next 10, given 10, next segment 11, and the segment: 10 of generation 1, nine entries,
/// all live.
const ONE_OF_NINE: &[u8] = b"BKDPCOM2\x01\0\x02\0\0\0\x0a\0\0\0\x0a\0\0\0\0\0\0\0\x0b\0\x01\
\0\0\0\0\0\0\0\x0a\0\0\0\0\0\0\0\x01\0\0\0\x09\0\0\0\x09";

/// A commit writes the tenth segment, and the next one settles first: what was deleted isn't in the one that ten
/// become.
const TEN_BECOME_ONE: &[Step] = &[
    Step::Call(RUN, &[], &[NINE, ("add 9\n", "doc 9\n")], ""),
    Step::Call(
        CHECK,
        &[],
        &[("", "ok dims 1 leaf 2 next 10 live 10 segments 10\n")],
        "",
    ),
    Step::Call(
        EXPLAIN,
        &[],
        &[("nearest 99 0\n", "touched 10 near 10\n")],
        "",
    ),
    Step::Call(RUN, &[], &[("delete 3\n", "deleted 1\n")], ""),
    Step::Begins(FileName::Commit, ONE_OF_NINE),
    Step::Call(
        EXPLAIN,
        &[],
        &[("nearest 99 0\n", "touched 5 near 9\n")],
        "",
    ),
];

/// One dimension, leaves of 2, next 11, given 11, next segment 12, and the segments: 10 and 11 of generation 1, of ten
/// entries and of one, all live.
const TEN_AND_ONE: &[u8] = b"BKDPCOM2\x01\0\x02\0\0\0\x0b\0\0\0\x0b\0\0\0\0\0\0\0\x0c\0\x02\
\0\0\0\0\0\0\0\x0a\0\0\0\0\0\0\0\x01\0\0\0\x0a\0\0\0\x0a\
\0\0\0\0\0\0\0\x0b\0\0\0\0\0\0\0\x01\0\0\0\x01\0\0\0\x01";

const TEN_OF_ELEVEN: &[Step] = &[
    Step::Call(
        RUN,
        &[],
        &[
            NINE,
            ("add 9\nflush\nadd 10\nflush\n", "doc 9\nok\ndoc 10\nok\n"),
        ],
        "",
    ),
    Step::Begins(FileName::Commit, TEN_AND_ONE),
];

/// Three segments of one entry each. A merge takes the first and the third of them once each, and the third document is
/// deleted meanwhile.
const TWO_OF_THREE: &[Lines] = &[
    (
        "create 1 leaf 2\nadd 0\nflush\nadd 1\nflush\nadd 2\nflush\n",
        "ok\ndoc 0\nok\ndoc 1\nok\ndoc 2\nok\n",
    ),
    (
        "merge begin 2 0 2 7\ndelete 2\nmerge end\n",
        "ok\ndeleted 1\nok\n",
    ),
];

/// Segment 1 of one entry and segment 3 of two, one live number each.
const ONE_AND_TWO: &[u8] = b"BKDPCOM2\x01\0\x02\0\0\0\x03\0\0\0\x03\0\0\0\0\0\0\0\x04\0\x02\
\0\0\0\0\0\0\0\x01\0\0\0\0\0\0\0\x01\0\0\0\x01\0\0\0\x01\
\0\0\0\0\0\0\0\x03\0\0\0\0\0\0\0\x01\0\0\0\x02\0\0\0\x01";

/// Segment 3 alone, whose live bits didn't change.
const TWO: &[u8] = b"BKDPCOM2\x01\0\x02\0\0\0\x03\0\0\0\x03\0\0\0\0\0\0\0\x04\0\x01\
\0\0\0\0\0\0\0\x03\0\0\0\0\0\0\0\x01\0\0\0\x02\0\0\0\x01";

/// Its live entry in segment 4.
const ONE: &[u8] = b"BKDPCOM2\x01\0\x02\0\0\0\x03\0\0\0\x03\0\0\0\0\0\0\0\x05\0\x01\
\0\0\0\0\0\0\0\x04\0\0\0\0\0\0\0\x01\0\0\0\x01\0\0\0\x01";

/// Of the second merge nothing is live any more, so its segment goes. A merge of all then writes the segment anew that
/// has a dead entry, and lets the one be that has none: behind the seven calls of the opening no call is made.
const POSITIONS: &[Step] = &[
    Step::Call(RUN, &[], TWO_OF_THREE, ""),
    Step::Begins(FileName::Commit, ONE_AND_TWO),
    Step::Call(
        RUN,
        &[],
        &[(
            "merge begin 0\ndelete 1\nmerge end\n",
            "ok\ndeleted 1\nok\n",
        )],
        "",
    ),
    Step::Begins(FileName::Commit, TWO),
    Step::Call(RUN, &[], &[("merge\n", "ok\n")], ""),
    Step::Begins(FileName::Commit, ONE),
    Step::Call(RUN, &[7], &[("merge\n", "ok\n")], ""),
    Step::Call(RUN, &[6], &[], "folder fault\n"),
];

const STORIES: &[&[Step]] = &[TEN_BECOME_ONE, TEN_OF_ELEVEN, POSITIONS];

#[test]
fn each_story(rt: HostRuntime) -> Result<(), Fail> {
    tell(&rt, rt.alloc(), STORIES)
}
