//! Which files of live bits a commit writes: those of segments in which a document was deleted, and of new ones.

use crate::stories::{Lines, RUN, Step, tell};
use outer_io::FileName;
use std::test::Fail;

/// Three segments of two documents each.
const THREE: &[Lines] = &[
    (
        "create 1 leaf 2\nadd 0\nadd 1\nflush\n",
        "ok\ndoc 0\ndoc 1\nok\n",
    ),
    ("add 2\nadd 3\nflush\n", "doc 2\ndoc 3\nok\n"),
    ("add 4\nadd 5\nflush\n", "doc 4\ndoc 5\nok\n"),
];

const FIRST: FileName = FileName::Live {
    segment: 0,
    generation: 1,
};

const FIRST_ANEW: FileName = FileName::Live {
    segment: 0,
    generation: 2,
};

const SECOND: FileName = FileName::Live {
    segment: 1,
    generation: 1,
};

const SECOND_ANEW: FileName = FileName::Live {
    segment: 1,
    generation: 2,
};

const THIRD: FileName = FileName::Live {
    segment: 2,
    generation: 1,
};

const THIRD_ANEW: FileName = FileName::Live {
    segment: 2,
    generation: 2,
};

const FOURTH: FileName = FileName::Live {
    segment: 3,
    generation: 1,
};

/// A deletion in one segment writes that one's. It is so over a commit that was opened, over one that the same run has
/// written, and behind a reopening.
const ONE_AFTER_THE_OTHER: &[Step] = &[
    Step::Call(RUN, &[], THREE, ""),
    Step::There(&[FIRST, SECOND, THIRD], &[]),
    Step::Call(RUN, &[], &[("delete 2\n", "deleted 1\n")], ""),
    Step::There(
        &[FIRST, SECOND_ANEW, THIRD],
        &[FIRST_ANEW, SECOND, THIRD_ANEW],
    ),
    Step::Call(
        RUN,
        &[],
        &[("delete 0\nreopen\ndelete 4\n", "deleted 1\nok\ndeleted 1\n")],
        "",
    ),
    Step::There(
        &[FIRST_ANEW, SECOND_ANEW, THIRD_ANEW],
        &[FIRST, SECOND, THIRD],
    ),
    Step::Call(RUN, &[], &[("box 0 9\n", "hits 3\n1\n3\n5\n")], ""),
];

/// A document that is added writes those of its segment alone.
const ONE_MORE: &[Step] = &[
    Step::Call(RUN, &[], THREE, ""),
    Step::Call(
        RUN,
        &[],
        &[("delete 5\ncommit\nadd 6\n", "deleted 1\nok\ndoc 6\n")],
        "",
    ),
    Step::There(
        &[FIRST, SECOND, THIRD_ANEW, FOURTH],
        &[FIRST_ANEW, SECOND_ANEW, THIRD],
    ),
    Step::Call(RUN, &[], &[("box 0 9\n", "hits 6\n0\n1\n2\n3\n4\n6\n")], ""),
];

const STORIES: &[&[Step]] = &[ONE_AFTER_THE_OTHER, ONE_MORE];

#[test]
fn each_story(rt: HostRuntime) -> Result<(), Fail> {
    tell(&rt, rt.alloc(), STORIES)
}
