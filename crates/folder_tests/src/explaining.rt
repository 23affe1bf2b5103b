//! Lines of queries, with what is told of them.

use crate::asserts::same;
use bkd_build::OpenGate;
use explain_queries::{explain_first, explain_line};
use outer_io::MemFolder;
use point_codec::{Point, Points};
use segment_set::{SegmentSet, Settings};
use std::process::Abort;
use std::test::Fail;

const SETTINGS: Settings = Settings {
    cache_pages: 4,
    forks: 0,
};

/// A line, what is told of it, and whether it is refused.
type Row = (&'static str, &'static str, bool);

const LINES: &[Row] = &[
    ("box 7 8", "tested 2 touched 3 hits 4\n", false),
    ("box 0 9", "tested 0 touched 3 hits 5\n", false),
    ("box 6 6", "tested 2 touched 1 hits 0\n", false),
    ("box 9 8", "tested 0 touched 0 hits 0\n", false),
    ("nearest 1 5", "touched 1 near 1\n", false),
    ("nearest 9 5", "touched 3 near 5\n", false),
    ("  ", "", false),
    ("# flush", "", false),
    ("flush", "line 9: not a query\n", true),
    ("create 1", "line 9: not a query\n", true),
    ("delete box 1 2", "line 9: not a query\n", true),
    ("snapshot a", "line 9: not a query\n", true),
    ("box @a 1 2", "line 9: unknown snapshot\n", true),
    ("nearest @a 1 2", "line 9: unknown snapshot\n", true),
    ("box 1", "line 9: wrong words\n", true),
    ("polygon {", "line 9: not two dimensions\n", true),
];

const FIRST_LINES: &[Row] = &[
    ("", "", false),
    ("box 7 8", "line 2: no index\n", true),
    ("create 1", "line 2: not a query\n", true),
    ("create 9", "line 2: dims\n", true),
];

/// Leaves 5 7, 7 7 and 7, of documents 0 to 4.
#[test]
fn tells_of_each_line(rt: HostRuntime) -> Result<(), Fail> {
    let alloc = rt.alloc();
    let mut folder = MemFolder::new(alloc, Vec::new(alloc));
    let mut set = SegmentSet::<1>::new(alloc, 2, SETTINGS)?;
    for x in [5, 7, 7, 7, 7] {
        let mut list = Vec::new(alloc);
        list.push(Point { c: [x] })?;
        set.add(&rt, alloc, &mut folder, &Points::of(list), &OpenGate)?;
    }
    set.flush(&rt, alloc, &mut folder, &OpenGate)?;
    for (line, text, is_refused) in LINES {
        let mut reply = Vec::new(alloc);
        let refused = explain_line(alloc, &mut set, &mut folder, 9, line.as_bytes(), &mut reply)?;
        same(
            &rt,
            (std::str::from_utf8(reply.as_slice()), refused),
            (Ok(*text), *is_refused),
        );
    }
    Ok(())
}

#[test]
fn tells_without_an_index(rt: HostRuntime) -> Result<(), Fail> {
    let alloc = rt.alloc();
    for (line, text, is_refused) in FIRST_LINES {
        let mut reply = Vec::new(alloc);
        let refused = explain_first(2, line.as_bytes(), &mut reply)?;
        same(
            &rt,
            (std::str::from_utf8(reply.as_slice()), refused),
            (Ok(*text), *is_refused),
        );
    }
    Ok(())
}
