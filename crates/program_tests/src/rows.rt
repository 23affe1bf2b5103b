//! Scripts through the top call, each with what it has to answer: one table.

use crate::fixtures::empty_folder;
use crate::runs::{check_answers, outcome};
use std::alloc::Global;
use std::marker::Sync;
use std::process::Abort;
use std::test::Fail;
use std::thread::Threads;

/// A script, what it answers, and how many of its lines are refused.
pub struct Row {
    pub script: &'static str,
    pub answers: &'static str,
    pub refused: u64,
}

pub const ROWS: &[Row] = &[
    // boxes, deletions and lines that are refused
    Row {
        script: "",
        answers: "",
        refused: 0,
    },
    Row {
        script: "create 2\nadd 1 2\nbox 0 0 5 5\n",
        answers: "ok\ndoc 0\nhits 1\n0\n",
        refused: 0,
    },
    Row {
        script: "box 0 0 5 5\n",
        answers: "line 1: no index\n",
        refused: 1,
    },
    Row {
        script: "create 2\nadd 1 2\nbox 0 0 5 5\nbox 5 0 0 5",
        answers: "ok\ndoc 0\nhits 1\n0\nhits 0\n",
        refused: 0,
    },
    Row {
        script: "create 2\nadd -2147483648 2147483647\nbox -2147483648 -2147483648 2147483647 2147483647\n",
        answers: "ok\ndoc 0\nhits 1\n0\n",
        refused: 0,
    },
    Row {
        script: "create 1 leaf 2\nadd 5\nadd 7\nadd 7\nadd 7\nadd 7\nflush\nbox 7 8\n",
        answers: "ok\ndoc 0\ndoc 1\ndoc 2\ndoc 3\ndoc 4\nok\nhits 4\n1\n2\n3\n4\n",
        refused: 0,
    },
    Row {
        script: "create 2\nadd 1 2\nbox 0 0 5 5\ndelete 0\ndelete 0\ndelete 99\n",
        answers: "ok\ndoc 0\nhits 1\n0\ndeleted 1\ndeleted 0\ndeleted 0\n",
        refused: 0,
    },
    Row {
        script: "create 9\ncreate 2 leaf 334\nadd 1 2\ncreate 2\nadd 1\nadd 1 x\nadd 1 2147483648\nnear 1 0 0\nnearest 0 0 0\ncreate 2\nsnapshot a.b\n",
        answers: "line 1: dims\nline 2: leaf size\nline 3: no index\nok\nline 5: wrong words\nline 6: bad number in word 3\nline 7: bad number in word 3\nline 8: unknown command\nline 9: bad k\nline 10: index exists\nline 11: bad name\n",
        refused: 10,
    },
    Row {
        script: "# a note\r\n\ncreate 1\r\n",
        answers: "ok\n",
        refused: 0,
    },
    // begun and ended merges, and snapshots of what is gone
    Row {
        script: "create 1\nadd 1\nadd 2\nflush\nadd 3\nflush\nmerge begin 0 1\ndelete 1\nmerge end\nreopen\nbox 0 9\n",
        answers: "ok\ndoc 0\ndoc 1\nok\ndoc 2\nok\nok\ndeleted 1\nok\nok\nhits 2\n0\n2\n",
        refused: 0,
    },
    Row {
        script: "create 1\nadd 1\nadd 2\nsnapshot a\ndelete 0\nflush\nmerge\nbox @a 0 9\nbox 0 9\nreopen\nbox @a 0 9\n",
        answers: "ok\ndoc 0\ndoc 1\nok\ndeleted 1\nok\nok\nhits 2\n0\n1\nhits 1\n1\nok\nline 11: unknown snapshot\n",
        refused: 1,
    },
    Row {
        script: "create 1\nadd 5\nadd 6\nadd 9\nmerge end\nmerge begin\nmerge begin 7\nmerge end\ndelete box 5 6\nbox 0 9\n",
        answers: "ok\ndoc 0\ndoc 1\ndoc 2\nline 5: no merge begun\nok\nline 7: merge begun\nok\ndeleted 2\nhits 1\n2\n",
        refused: 2,
    },
    Row {
        script: "create 1\nsnapshot a\nsnapshot a\nrelease b\nrelease a\nbox @a 0 9\n",
        answers: "ok\nok\nline 3: name taken\nline 4: unknown snapshot\nok\nline 6: unknown snapshot\n",
        refused: 3,
    },
    Row {
        script: "create 1\nsnapshot s1\nsnapshot s2\nsnapshot s3\nsnapshot s4\nsnapshot s5\nsnapshot s6\nsnapshot s7\nsnapshot s8\nsnapshot s9\nsnapshot s10\nsnapshot s11\nsnapshot s12\nsnapshot s13\nsnapshot s14\nsnapshot s15\nsnapshot s16\nsnapshot s17\n",
        answers: "ok\nok\nok\nok\nok\nok\nok\nok\nok\nok\nok\nok\nok\nok\nok\nok\nok\nline 18: too many snapshots\n",
        refused: 1,
    },
    Row {
        script: "create 1\nadd 1\nflush\nmerge begin 0 0 9\ndelete 0\nmerge end\nadd 2\nbox 0 9\n",
        answers: "ok\ndoc 0\nok\nok\ndeleted 1\nok\ndoc 1\nhits 1\n1\n",
        refused: 0,
    },
    Row {
        script: "create 1\nadd 1\nflush\nsnapshot a\ndelete 0\nbox @a 0 9\n",
        answers: "ok\ndoc 0\nok\nok\ndeleted 1\nhits 1\n0\n",
        refused: 0,
    },
    // the nearest, and documents of several points
    Row {
        script: "create 1\nadd 10\nflush\nadd -10\nadd 10\nflush\nnearest 2 0\n",
        answers: "ok\ndoc 0\nok\ndoc 1\ndoc 2\nok\nnear 2\n0 100\n1 100\n",
        refused: 0,
    },
    Row {
        script: "create 8\nadd 2147483647 2147483647 2147483647 2147483647 2147483647 2147483647 2147483647 2147483647\nnearest 1 -2147483648 -2147483648 -2147483648 -2147483648 -2147483648 -2147483648 -2147483648 -2147483648\nnearest 10001 -2147483648 -2147483648 -2147483648 -2147483648 -2147483648 -2147483648 -2147483648 -2147483648\nnearest 10000 -2147483648 -2147483648 -2147483648 -2147483648 -2147483648 -2147483648 -2147483648 -2147483648\n",
        answers: "ok\ndoc 0\nnear 1\n0 147573952520956936200\nline 4: bad k\nnear 1\n0 147573952520956936200\n",
        refused: 1,
    },
    Row {
        script: "create 2\nnearest 3 0 0\nadd 3 4\nadd 0 5\nnearest 1 0 0\n",
        answers: "ok\nnear 0\ndoc 0\ndoc 1\nnear 1\n0 25\n",
        refused: 0,
    },
    Row {
        script: "create 2\nadd 0 0 10 10\nbox 9 9 11 11\nbox 0 0 10 10\nnearest 1 1 1\nadd 1 2 3\n",
        answers: "ok\ndoc 0\nhits 1\n0\nhits 1\n0\nnear 1\n0 2\nline 6: wrong words\n",
        refused: 1,
    },
    Row {
        script: "create 1\nadd 1 9\nflush\nadd 2\nnearest 2 9\ndelete box 8 9\nbox 0 9\n",
        answers: "ok\ndoc 0\nok\ndoc 1\nnear 2\n0 0\n1 49\ndeleted 1\nhits 1\n1\n",
        refused: 0,
    },
    // polygons, whose edges belong to them
    Row {
        script: "create 2\nadd -6 0\nadd 0 0\nadd 5 0\npolygon {\"type\":\"Polygon\",\"coordinates\":[[[0,-5],[5,0],[0,5],[-5,0],[0,-5]]]}\n",
        answers: "ok\ndoc 0\ndoc 1\ndoc 2\nhits 2\n1\n2\n",
        refused: 0,
    },
    Row {
        script: "create 2\nadd 5 5\nadd 4 5\nadd 1 1\nadd 11 5\npolygon {\"type\":\"Polygon\",\"coordinates\":[[[0,0],[10,0],[10,10],[0,10],[0,0]],[[4,4],[6,4],[6,6],[4,6],[4,4]]]}\n",
        answers: "ok\ndoc 0\ndoc 1\ndoc 2\ndoc 3\nhits 2\n1\n2\n",
        refused: 0,
    },
    Row {
        script: "create 2\nadd 2000000000 0\nadd 0 2000000000\nadd -2000000000 0\npolygon {\"type\":\"Polygon\",\"coordinates\":[[[-2147483648,-2147483648],[2147483647,2147483647],[2147483647,-2147483648],[-2147483648,2147483647],[-2147483648,-2147483648]]]}\n",
        answers: "ok\ndoc 0\ndoc 1\ndoc 2\nhits 2\n0\n2\n",
        refused: 0,
    },
    Row {
        script: "create 2\npolygon {\"type\":\"Polygon\",\"coordinates\":[[[0,0],[4,0],[4,4],[0,4]]]}\npolygon {\"type\":\"Polygon\",\"coordinates\":[[[0,0],[1.5,0],[4,4],[0,0]]]}\npolygon {\"type\":\"Polygon\",\"coordinates\":[[[0,0],[4,0],[0,0]]]}\npolygon {\"type\":\"Point\",\"coordinates\":[0,0]}\npolygon {\n",
        answers: "ok\nline 2: polygon ring 0 is not closed\nline 3: polygon ring 0 position 1 is not whole\nline 4: polygon ring 0 has too few positions\nline 5: not a polygon\nline 6: polygon is not json\n",
        refused: 5,
    },
    Row {
        script: "create 2\npolygon {\"type\":\"Polygon\",\"coordinates\":[]}\n",
        answers: "ok\nhits 0\n",
        refused: 0,
    },
    Row {
        script: "create 1\npolygon {\n",
        answers: "ok\nline 2: not two dimensions\n",
        refused: 1,
    },
];

/// A row over an empty folder.
fn check_row<R: Threads + Sync + Abort>(rt: &R, alloc: Global, row: &Row) -> Result<(), Fail> {
    let mut folder = empty_folder(alloc);
    let (status, output) = outcome(rt, alloc, row.script.as_bytes(), &mut folder)?;
    check_answers(
        rt,
        alloc,
        row.script,
        (&status, &output),
        row.answers.as_bytes(),
        row.refused,
    )
}

#[test]
fn each_row(rt: HostRuntime) -> Result<(), Fail> {
    for row in ROWS {
        check_row(&rt, rt.alloc(), row)?;
    }
    Ok(())
}
