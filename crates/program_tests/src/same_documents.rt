//! Six documents of one to three points, with answers that were reckoned by hand, whatever stands between.

use crate::stories::{EXPLAIN, Lines, RUN, Step, tell};
use outer_io::FileName;
use std::test::Fail;

/// Documents 0 to 5, in leaves of two entries.
pub const SIX: Lines = (
    "create 2 leaf 2\nadd 0 0\nadd 10 10 -3 4\nadd 5 5\nadd 5 5\nadd -8 -6\nadd 20 0 0 20 20 20\n",
    "ok\ndoc 0\ndoc 1\ndoc 2\ndoc 3\ndoc 4\ndoc 5\n",
);

/// Boxes round all, round the points of two, of one and of four, in a gap, and one with its ends turned round; the
/// three that are nearest to the origin.
const LOOK: &str =
    "box -9 -9 30 30\nbox 5 5 5 5\nbox -3 4 -3 4\nbox 0 0 9 20\nbox 1 1 4 4\nbox 6 0 0 6\n\
nearest 3 0 0\n";

const ALL: &str =
    "hits 6\n0\n1\n2\n3\n4\n5\nhits 2\n2\n3\nhits 1\n1\nhits 4\n0\n2\n3\n5\nhits 0\nhits 0\n\
near 3\n0 0\n1 25\n2 50\n";

/// The documents are all there.
pub const SEE_ALL: Lines = (LOOK, ALL);

/// All but 2 and 5 are there.
const SEE_LEFT: Lines = (
    LOOK,
    "hits 4\n0\n1\n3\n4\nhits 1\n3\nhits 1\n1\nhits 2\n0\n3\nhits 0\nhits 0\nnear 3\n0 0\n1 25\n3 50\n",
);

/// In a snapshot they are all there.
const LOOK_BACK: Lines = (
    "box @before -9 -9 30 30\nbox @before 5 5 5 5\nbox @before -3 4 -3 4\nbox @before 0 0 9 20\n\
    box @before 1 1 4 4\nbox @before 6 0 0 6\nnearest @before 3 0 0\n",
    ALL,
);

/// Takes 2 out by its number, and 5 by two of its points.
const DELETE_TWO: Lines = (
    "delete 2\ndelete 2\ndelete 6\ndelete box 0 20 20 20\ndelete box 0 20 20 20\n",
    "deleted 1\ndeleted 0\ndeleted 0\ndeleted 1\ndeleted 0\n",
);

const FLUSH: Lines = ("flush\n", "ok\n");

const MERGE: Lines = ("merge\n", "ok\n");

const COMMIT: Lines = ("commit\n", "ok\n");

/// Two dimensions, leaves of 2, next 6, given 9.
const SIX_GIVEN: &[u8] = b"BKDPCOM2\x02\0\x02\0\0\0\x06\0\0\0\x09";

const WHATEVER_STANDS_BETWEEN: &[Step] = &[
    Step::Call(
        RUN,
        &[],
        &[
            SIX,
            SEE_ALL,
            ("snapshot before\n", "ok\n"),
            FLUSH,
            SEE_ALL,
            ("merge begin 0\n", "ok\n"),
            DELETE_TWO,
            SEE_LEFT,
            ("merge end\n", "ok\n"),
            SEE_LEFT,
            MERGE,
            SEE_LEFT,
            LOOK_BACK,
            COMMIT,
            COMMIT,
            SEE_LEFT,
            LOOK_BACK,
            (
                "release before\nrelease before\n",
                "ok\nline 77: unknown snapshot\n",
            ),
        ],
        "refused 1\n",
    ),
    Step::Begins(FileName::Commit, SIX_GIVEN),
    Step::Call(RUN, &[], &[SEE_LEFT, ("add 1 1\n", "doc 6\n")], ""),
    Step::Call(RUN, &[], &[("box 1 1 1 1\n", "hits 1\n6\n")], ""),
];

/// A box round all takes every leaf of five and tests no point.
const COSTS: &[Step] = &[
    Step::Call(RUN, &[], &[SIX, FLUSH], ""),
    Step::Call(
        EXPLAIN,
        &[],
        &[
            ("box -9 -9 30 30\n", "tested 0 touched 5 hits 6\n"),
            ("nearest 9 0 0\n", "touched 5 near 6\n"),
        ],
        "",
    ),
];

/// Sixteen snapshots, and those that are refused then.
const SNAPSHOTS: Lines = (
    "snapshot a\nsnapshot b\nsnapshot c\nsnapshot d\nsnapshot e\nsnapshot f\nsnapshot g\nsnapshot h\n\
    snapshot i\nsnapshot j\nsnapshot k\nsnapshot l\nsnapshot m\nsnapshot n\nsnapshot o\nsnapshot p\n\
    snapshot a\nsnapshot z\n",
    "ok\nok\nok\nok\nok\nok\nok\nok\nok\nok\nok\nok\nok\nok\nok\nok\n\
    line 24: name taken\nline 25: too many snapshots\n",
);

/// A merge is ended that isn't begun, and begun twice.
const MERGES: Lines = (
    "merge end\nmerge begin\nmerge begin\n",
    "line 26: no merge begun\nok\nline 28: merge begun\n",
);

const REFUSALS: &[Step] = &[Step::Call(
    RUN,
    &[],
    &[SIX, SNAPSHOTS, MERGES, SEE_ALL],
    "refused 4\n",
)];

/// A commit of one document which has all points but one, in leaves of two entries.
const NEARLY_FULL: &[u8] = b"BKDPCOM2\x02\0\x02\0\0\0\x01\0\xff\xff\xff\0\0\0\0\0\0\0\0\0\0";

/// Two dimensions, leaves of 2, next 2, given 16,777,216.
const FULL: &[u8] = b"BKDPCOM2\x02\0\x02\0\0\0\x02\x01\0\0\0";

/// The sixteen-millionth point and no more.
const GIVEN: &[Step] = &[
    Step::Put(FileName::Commit, NEARLY_FULL),
    Step::Call(
        RUN,
        &[],
        &[
            ("add 0 0 1 0\n", "line 1: full\n"),
            ("add 0 0\n", "doc 1\n"),
            ("add 0 0\n", "line 3: full\n"),
        ],
        "refused 2\n",
    ),
    Step::Begins(FileName::Commit, FULL),
];

/// The call of a flush fails, where nothing is stored and where the six are; then a read of a merge, the call that
/// writes what is merged, and the first one of the commit behind it. All is seen as before, and done when asked again.
const FAILING: &[Step] = &[
    Step::Call(
        RUN,
        &[1],
        &[SIX, SEE_ALL, ("flush\n", "")],
        "folder fault\n",
    ),
    Step::Call(
        RUN,
        &[],
        &[("flush\n", "line 1: no index\n")],
        "refused 1\n",
    ),
    Step::Call(RUN, &[], &[SIX, FLUSH, SEE_ALL], ""),
    Step::Call(
        RUN,
        &[7],
        &[("add 100 100\n", "doc 6\n"), ("flush\n", "")],
        "folder fault\n",
    ),
    Step::Call(
        RUN,
        &[],
        &[SEE_ALL, ("add 100 100\n", "doc 6\n"), FLUSH],
        "",
    ),
    Step::Call(RUN, &[12], &[("merge\n", "")], "folder fault\n"),
    Step::Call(RUN, &[14], &[("merge\n", "")], "folder fault\n"),
    Step::Call(RUN, &[15], &[MERGE], "folder fault\n"),
    Step::Call(RUN, &[], &[SEE_ALL, MERGE, SEE_ALL], ""),
];

const STORIES: &[&[Step]] = &[WHATEVER_STANDS_BETWEEN, COSTS, REFUSALS, GIVEN, FAILING];

#[test]
fn each_story(rt: HostRuntime) -> Result<(), Fail> {
    tell(&rt, rt.alloc(), STORIES)
}
