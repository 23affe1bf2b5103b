//! Loading, explaining and generating through the top call, with what they have to answer.

use crate::asserts::{holds, same, same_at};
use bkd_top::{Status, code};
use commit_list::read_commit;
use outer_io::{FileName, MemFolder};
use page_cache::Damage;
use page_file::seal;
use program_tests::fixtures::called;
use std::alloc::Global;
use std::fmt::Write;
use std::marker::Sync;
use std::process::Abort;
use std::test::Fail;
use std::thread::Threads;

/// One call after the other on one folder: the words, the input, the exit status and what is written.
type Call = (&'static [&'static str], &'static str, u8, &'static str);

fn check<R: Threads + Sync + Abort>(
    rt: &R,
    alloc: Global,
    folder: &mut MemFolder,
    calls: &[Call],
) -> Result<(), Fail> {
    for (words, input, number, answer) in calls {
        let (status, text) = called(rt, alloc, words, input, folder)?;
        same_at(rt, text.as_str(), *answer, &(words, input));
        same_at(rt, code(&status), *number, &(words, input));
    }
    Ok(())
}

/// 334 points in a row, of which one leaf has 333.
fn row_of_points(alloc: Global) -> Result<String, Fail> {
    let mut file = String::from_str(alloc, "x,y\n")?;
    for i in 0..334 {
        writeln!(file, "{i},0")?;
    }
    Ok(file)
}

const LOAD: &[&str] = &[".", "load", "--columns", "x,y"];

/// The folder of these points.
fn loaded_row<R: Threads + Sync + Abort>(rt: &R, alloc: Global) -> Result<MemFolder, Fail> {
    let mut folder = MemFolder::new(alloc, Vec::new(alloc));
    let file = row_of_points(alloc)?;
    let (status, text) = called(rt, alloc, LOAD, file.as_str(), &mut folder)?;
    same(rt, text.as_str(), "loaded 334\nnext 334\n");
    same(rt, code(&status), 0);
    Ok(folder)
}

const ROW_OF_POINTS: &[Call] = &[
    (
        &[".", "explain"],
        "box -1 -1 400 1\nbox 0 0 332 0\n",
        0,
        "tested 0 touched 2 hits 334\ntested 0 touched 1 hits 333\n",
    ),
    (
        &[".", "run"],
        "nearest 1 5 1\nbox 331 0 340 0\n",
        0,
        "near 1\n5 1\nhits 3\n331\n332\n333\n",
    ),
];

#[test]
fn loads_and_explains_a_row_of_points(rt: HostRuntime) -> Result<(), Fail> {
    let alloc = rt.alloc();
    let mut folder = loaded_row(&rt, alloc)?;
    check(&rt, alloc, &mut folder, ROW_OF_POINTS)
}

/// The folder with the row of points, of which a byte of the leaf page was changed, and that page.
fn damaged_row<R: Threads + Sync + Abort>(
    rt: &R,
    alloc: Global,
) -> Result<(MemFolder, Vec<u8>), Fail> {
    let mut folder = loaded_row(rt, alloc)?;
    let name = FileName::Segment(0);
    let mut bytes = folder.get(&name).ok_or("no segment")?.to_vec(alloc)?;
    assert_eq!(rt; bytes.len(), 3 * 4096);
    bytes[2 * 4096 + 100] ^= 1;
    let page = bytes.as_slice()[2 * 4096..].to_vec(alloc)?;
    folder.put(name, bytes)?;
    Ok((folder, page))
}

/// A damaged leaf is met only where it is read.
#[test]
fn meets_a_damaged_leaf(rt: HostRuntime) -> Result<(), Fail> {
    let alloc = rt.alloc();
    let (mut folder, page) = damaged_row(&rt, alloc)?;
    for words in [[".", "run"].as_slice(), &[".", "explain"]] {
        let (status, _) = called(&rt, alloc, words, "box 1000 0 1001 0\n", &mut folder)?;
        same(&rt, code(&status), 0);
        let (status, text) = called(&rt, alloc, words, "box 0 0 5 0\n", &mut folder)?;
        same(&rt, text.as_str(), "");
        let Status::Damaged(
            Damage::Page {
                file,
                number,
                bytes,
            },
        ) = status
        else {
            return Err("not damaged".into());
        };
        same(&rt, (file, number), (FileName::Segment(0), 2));
        same(&rt, bytes.b.as_slice(), page.as_slice());
    }
    Ok(())
}

const REFUSED_FILES: &[Call] = &[
    (
        LOAD,
        "id,x,y\n1,\"3\",4\n2,5,6\n3,2147483648,1\n",
        2,
        "record 3 column x is not a whole number\n",
    ),
    (&[".", "load", "--columns", "a"], "b", 2, "no column a\n"),
    (
        &[".", "load", "--columns", "a,b", "--forks", "0"],
        "a,b\n1,2\n3\n",
        2,
        "record 2 has another length\n",
    ),
    (&[".", "run"], "box 0 0\n", 2, "line 1: no index\n"),
];

/// Files that are refused leave an empty folder.
#[test]
fn refuses_files(rt: HostRuntime) -> Result<(), Fail> {
    let alloc = rt.alloc();
    let mut folder = MemFolder::new(alloc, Vec::new(alloc));
    check(&rt, alloc, &mut folder, REFUSED_FILES)?;
    for name in [FileName::Commit, FileName::CommitNew, FileName::Segment(0)] {
        holds(&rt, folder.get(&name).is_none());
    }
    Ok(())
}

const CITIES: &[Call] = &[
    (
        &[".", "load", "--columns", "lon,lat"],
        "name,lon,lat\nBerlin,13404954,52520008\nParis,2352222,48856613\nRome,12496366,41902782\n",
        0,
        "loaded 3\nnext 3\n",
    ),
    (
        &[".", "run", "--cache", "1", "--forks", "6"],
        "box 0 45000000 15000000 55000000\nnearest 1 12000000 42000000\npolygon {\"type\":\"Polygon\",\"coordinates\":[[[0,40000000],[20000000,40000000],[20000000,50000000],[0,50000000],[0,40000000]]]}\n",
        0,
        "hits 2\n0\n1\nnear 1\n2 255830545480\nhits 2\n1\n2\n",
    ),
    (
        &[".", "load", "--columns=lat,lon"],
        "lon,lat\n1,2\n",
        0,
        "loaded 1\nnext 4\n",
    ),
    (&[".", "run"], "box 2 1 2 1\n", 0, "hits 1\n3\n"),
];

#[test]
fn loads_cities(rt: HostRuntime) -> Result<(), Fail> {
    let mut folder = MemFolder::new(rt.alloc(), Vec::new(rt.alloc()));
    check(&rt, rt.alloc(), &mut folder, CITIES)
}

const LEAVES_OF_TWO: &[Call] = &[
    (&[".", "explain"], "box 7 8\n\n", 2, "line 1: no index\n"),
    (
        &[".", "run"],
        "create 1 leaf 2\nadd 5\nadd 7\nadd 7\nadd 7\nadd 7\nflush\nbox 7 8\n",
        0,
        "ok\ndoc 0\ndoc 1\ndoc 2\ndoc 3\ndoc 4\nok\nhits 4\n1\n2\n3\n4\n",
    ),
    (
        &[".", "explain", "--cache", "65536"],
        "box 7 8\nnearest 1 5\nflush\n",
        2,
        "tested 2 touched 3 hits 4\ntouched 1 near 1\nline 3: not a query\n",
    ),
];

#[test]
fn explains_leaves_of_two(rt: HostRuntime) -> Result<(), Fail> {
    let mut folder = MemFolder::new(rt.alloc(), Vec::new(rt.alloc()));
    check(&rt, rt.alloc(), &mut folder, LEAVES_OF_TWO)
}

const GENERATED_ONCE: &[Call] = &[
    (
        &[".", "generate", "--docs", "1", "--seed", "1"],
        "not read",
        0,
        "docs 1 live 0\nbox hits 0\nnearest sum 0\n",
    ),
    (
        &[".", "generate", "--docs", "1", "--seed", "1"],
        "",
        2,
        "index exists\n",
    ),
    (&[".", "run"], "add 1 2\n", 0, "doc 1\n"),
];

#[test]
fn generates_once(rt: HostRuntime) -> Result<(), Fail> {
    let mut folder = MemFolder::new(rt.alloc(), Vec::new(rt.alloc()));
    check(&rt, rt.alloc(), &mut folder, GENERATED_ONCE)
}

const DRAWN: &[&[&str]] = &[
    &[".", "generate", "--docs", "20000", "--seed", "7"],
    &[
        ".", "generate", "--docs", "20000", "--seed", "7", "--forks", "2",
    ],
];

/// The sums were reckoned by a plain scan in another language.
#[test]
fn generates_the_same_twice(rt: HostRuntime) -> Result<(), Fail> {
    let alloc = rt.alloc();
    for words in DRAWN {
        let mut folder = MemFolder::new(alloc, Vec::new(alloc));
        let (status, text) = called(&rt, alloc, words, "", &mut folder)?;
        same(&rt, code(&status), 0);
        same(
            &rt,
            text.as_str(),
            "docs 20000 live 18000\nbox hits 2875\nnearest sum 708688812\n",
        );
        let commit = read_commit(alloc, &mut folder)?.ok_or("no commit")?;
        same(&rt, commit.next(), 20000);
    }
    Ok(())
}

const OTHER_DIMENSIONS: &[Call] = &[
    (&[".", "run"], "create 2\nadd 1 2\n", 0, "ok\ndoc 0\n"),
    (
        &[".", "load", "--columns", "a"],
        "a\n1\n",
        2,
        "columns do not match dims 2\n",
    ),
    (
        &[".", "load", "--columns", "a"],
        "b\n1\n",
        2,
        "no column a\n",
    ),
    (&[".", "run"], "box 0 0 5 5\n", 0, "hits 1\n0\n"),
];

#[test]
fn refuses_other_dimensions(rt: HostRuntime) -> Result<(), Fail> {
    let mut folder = MemFolder::new(rt.alloc(), Vec::new(rt.alloc()));
    check(&rt, rt.alloc(), &mut folder, OTHER_DIMENSIONS)
}

/// A commit in the older layout, of two dimensions, whose numbers are all given.
const FULL_COMMIT: &[u8] = b"BKDPCOM1\x02\x01\x4d\x01\0\0\0\0\0\0\0\0\0\0\0\0\0";

const FULL: &[Call] = &[
    (
        &[".", "load", "--columns", "a,b"],
        "a,b\n1,2\n",
        2,
        "full\n",
    ),
    (
        &[".", "run"],
        "add 1 2\nbox 0 0 5 5\n",
        2,
        "line 1: full\nhits 0\n",
    ),
];

#[test]
fn refuses_too_many(rt: HostRuntime) -> Result<(), Fail> {
    let alloc = rt.alloc();
    let mut folder = MemFolder::new(alloc, Vec::new(alloc));
    let page = seal(3, 0, 0, FULL_COMMIT);
    folder.put(FileName::Commit, page.b.to_vec(alloc)?)?;
    check(&rt, alloc, &mut folder, FULL)?;
    same(&rt, folder.get(&FileName::Commit), Some(page.b.as_slice()));
    Ok(())
}
