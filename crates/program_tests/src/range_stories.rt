//! Stories of the command `ranges`: its questions, its faults, and ranges through snapshots, merges and reopenings.

use crate::stories::{RUN, Step, tell};
use std::process::Abort;
use std::test::Fail;

const RANGES: &[&str] = &[".", "ranges"];

/// Touching ends, one range within another, and the three questions; and a line that is no range.
const SPANS: &[Step] = &[
    Step::Call(
        RANGES,
        &[],
        &[
            ("create 1\n", "ok\n"),
            ("add 1 5\nadd 4 9\nadd 7 7\n", "doc 0\ndoc 1\ndoc 2\n"),
            ("intersects 5 6\n", "hits 2\n0\n1\n"),
            ("within 4 9\n", "hits 2\n1\n2\n"),
            ("contains 4 5\n", "hits 2\n0\n1\n"),
            ("add 5 1\n", "line 8: not a range\n"),
        ],
        "refused 1\n",
    ),
    // what is stored is ranges again, and points to the other commands
    Step::Call(RANGES, &[], &[("contains 7 7\n", "hits 2\n1\n2\n")], ""),
    Step::Call(RUN, &[], &[("box 4 9 4 9\n", "hits 1\n1\n")], ""),
];

/// Rectangles that touch in a corner.
const RECTANGLES: &[Step] = &[Step::Call(
    RANGES,
    &[],
    &[
        ("create 2\n", "ok\n"),
        ("add 0 0 2 2\nadd 3 3 4 4\n", "doc 0\ndoc 1\n"),
        ("intersects 2 2 3 3\n", "hits 2\n0\n1\n"),
        ("within 0 0 4 3\n", "hits 1\n0\n"),
    ],
    "",
)];

/// A document of two ranges, of three dimensions.
const BLOCKS: &[Step] = &[Step::Call(
    RANGES,
    &[],
    &[
        ("create 3 leaf 142\n", "ok\n"),
        (
            "add 0 0 0 2 2 2\nadd 3 3 3 4 4 4 5 5 5 9 9 9\n",
            "doc 0\ndoc 1\n",
        ),
        ("intersects 2 2 2 3 3 3\n", "hits 2\n0\n1\n"),
        (
            "contains 5 5 5 9 9 9\ncontains 4 4 4 5 5 5\n",
            "hits 1\n1\nhits 0\n",
        ),
        (
            "within 0 0 0 4 4 4\nwithin 0 0 0 4 4 3\n",
            "hits 2\n0\n1\nhits 1\n0\n",
        ),
    ],
    "",
)];

/// The greatest ranges of four dimensions, and one on each side of 0.
const FOUR: &[Step] = &[Step::Call(
    RANGES,
    &[],
    &[
        ("create 4\n", "ok\n"),
        ("add -1 -1 -1 -1 1 1 1 1\n", "doc 0\n"),
        (
            "add -2147483648 -2147483648 -2147483648 -2147483648 2147483647 2147483647 2147483647 2147483647\n",
            "doc 1\n",
        ),
        (
            "intersects 1 1 1 1 5 5 5 5\nintersects 2 1 1 1 5 5 5 5\n",
            "hits 2\n0\n1\nhits 1\n1\n",
        ),
        (
            "within -1 -1 -1 -1 1 1 1 1\nwithin 0 -1 -1 -1 1 1 1 1\n",
            "hits 1\n0\nhits 0\n",
        ),
        (
            "contains 0 0 0 0 0 0 0 0\ncontains 0 0 0 0 0 0 0 2\n",
            "hits 2\n0\n1\nhits 1\n1\n",
        ),
    ],
    "",
)];

/// Snapshots, deletions, a merge around other lines, and a reopening.
const KEPT: &[Step] = &[
    Step::Call(
        RANGES,
        &[],
        &[
            (
                "create 1 leaf 2\nadd 1 5\nflush\nsnapshot a\n",
                "ok\ndoc 0\nok\nok\n",
            ),
            ("add 6 9\nflush\ndelete 0\n", "doc 1\nok\ndeleted 1\n"),
            (
                "intersects 0 9\nintersects @a 0 9\n",
                "hits 1\n1\nhits 1\n0\n",
            ),
            (
                "merge begin 0 1\ndelete 1\nadd 2 2\nmerge end\n",
                "ok\ndeleted 1\ndoc 2\nok\n",
            ),
            (
                "contains 7 7\ncontains @a 2 4\nwithin 2 3\n",
                "hits 0\nhits 1\n0\nhits 1\n2\n",
            ),
            (
                "merge\nreopen\nwithin @a 0 9\n",
                "ok\nok\nline 19: unknown snapshot\n",
            ),
            ("within 0 9\n", "hits 1\n2\n"),
        ],
        "refused 1\n",
    ),
    Step::Call(
        RANGES,
        &[],
        &[("intersects 0 9\ndelete 2\n", "hits 1\n2\ndeleted 1\n")],
        "",
    ),
    Step::Call(RANGES, &[], &[("intersects 0 9\n", "hits 0\n")], ""),
];

/// Faults in their order, and the lines that are of points alone.
const FAULTS: &[Step] = &[
    Step::Call(
        RANGES,
        &[],
        &[
            (
                "within 1 2\ncreate 5\ncreate 0\n",
                "line 1: no index\nline 2: dims\nline 3: dims\n",
            ),
            (
                "create 2 leaf 201\ncreate 2 leaf 200\n",
                "line 4: leaf size\nok\n",
            ),
            (
                "box 0 0 9 9\npolygon {\n",
                "line 6: unknown command\nline 7: unknown command\n",
            ),
            (
                "nearest 1 0 0\ndelete box 0 0 9 9\n",
                "line 8: unknown command\nline 9: wrong words\n",
            ),
            (
                "add 1 2 3\nadd 5 5 1 x\n",
                "line 10: wrong words\nline 11: bad number in word 5\n",
            ),
            (
                "add 5 5 6 4\nwithin @a 2 1 1 1\n",
                "line 12: not a range\nline 13: not a range\n",
            ),
            (
                "contains @a 1 1 2 2\ncontains @a.b 2 1 1 1\n",
                "line 14: unknown snapshot\nline 15: bad name\n",
            ),
            (
                "# a note\n\nadd 1 1 1 1\ncreate 1\n",
                "doc 0\nline 19: index exists\n",
            ),
        ],
        "refused 15\n",
    ),
    Step::Call(RANGES, &[], &[("intersects 0 0 9 9\n", "hits 1\n0\n")], ""),
];

/// Over an odd number of dimensions no line but a blank one is taken, and nothing is changed.
const NO_RANGES: &[Step] = &[
    Step::Call(
        RUN,
        &[],
        &[
            (
                "create 1\nadd 1\nadd 2\nflush\nadd 3\nflush\n",
                "ok\ndoc 0\ndoc 1\nok\ndoc 2\nok\n",
            ),
            (
                "merge begin 0 1\ndelete 1\nmerge end\nreopen\n",
                "ok\ndeleted 1\nok\nok\n",
            ),
        ],
        "",
    ),
    Step::Call(
        RANGES,
        &[],
        &[("delete 0\n", "line 1: not ranges\n")],
        "refused 1\n",
    ),
    Step::Call(
        RANGES,
        &[],
        &[
            ("\n# a note\nadd x\n", "line 3: not ranges\n"),
            (
                "create 9\ncommit\nbox 0 9\n",
                "line 4: not ranges\nline 5: not ranges\nline 6: not ranges\n",
            ),
        ],
        "refused 4\n",
    ),
    Step::Call(RUN, &[], &[("box 0 9\n", "hits 2\n0\n2\n")], ""),
];

#[test]
fn ranges_are_found(rt: HostRuntime) -> Result<(), Fail> {
    tell(&rt, rt.alloc(), &[SPANS, RECTANGLES, BLOCKS, FOUR])
}

#[test]
fn ranges_are_kept(rt: HostRuntime) -> Result<(), Fail> {
    tell(&rt, rt.alloc(), &[KEPT])
}

#[test]
fn lines_that_are_no_ranges(rt: HostRuntime) -> Result<(), Fail> {
    tell(&rt, rt.alloc(), &[FAULTS, NO_RANGES])
}
