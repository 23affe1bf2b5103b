//! Generated indexes, with what is said of them.

use crate::asserts::{holds, same};
use bkd_build::OpenGate;
use commit_list::read_commit;
use generate_index::generate;
use index_core::{Settings, Work};
use outer_io::MemFolder;
use std::alloc::Global;
use std::marker::Sync;
use std::process::Abort;
use std::test::Fail;
use std::thread::Threads;

/// Generates so many documents in a folder; answers the text, and whether it is refused.
fn generated<R: Threads + Sync>(
    rt: &R,
    alloc: Global,
    folder: &mut MemFolder,
    docs: u32,
    seed: u32,
) -> Result<(String, bool), Fail> {
    let work = Work {
        rt,
        alloc,
        settings: Settings {
            cache_pages: 64,
            forks: 1,
        },
        gate: &OpenGate,
    };
    if docs > 1_000_000 {
        return Err("too many documents".into());
    }
    let mut text = Vec::new(alloc);
    let refused = generate(&work, docs, seed, folder, &mut text)?;
    let text = std::str::from_utf8(text.as_slice()).unwrap_or("no text");
    Ok((String::from_str(alloc, text)?, refused))
}

/// How many documents, the seed, and what is said of them.
const SUMMARIES: &[(u32, u32, &str)] = &[
    (1, 1, "docs 1 live 0\nbox hits 0\nnearest sum 0\n"),
    (
        10,
        1,
        "docs 10 live 9\nbox hits 1\nnearest sum 1113559066371\n",
    ),
    (
        1000,
        2_147_483_646,
        "docs 1000 live 900\nbox hits 124\nnearest sum 11397612188\n",
    ),
];

/// The sums were reckoned by a plain scan in another language.
#[test]
fn says_what_a_scan_finds(rt: HostRuntime) -> Result<(), Fail> {
    let alloc = rt.alloc();
    for (docs, seed, text) in SUMMARIES {
        let mut folder = MemFolder::new(alloc, Vec::new(alloc));
        let (said, refused) = generated(&rt, alloc, &mut folder, *docs, *seed)?;
        holds(&rt, !refused);
        same(&rt, said.as_str(), *text);
        let commit = read_commit(alloc, &mut folder)?.ok_or("no commit")?;
        same(
            &rt,
            (commit.dims(), commit.leaf_size(), commit.next()),
            (2, 333, *docs),
        );
    }
    Ok(())
}

#[test]
fn leaves_an_index_that_is_there(rt: HostRuntime) -> Result<(), Fail> {
    let alloc = rt.alloc();
    let mut folder = MemFolder::new(alloc, Vec::new(alloc));
    generated(&rt, alloc, &mut folder, 1, 1)?;
    let (said, refused) = generated(&rt, alloc, &mut folder, 2, 2)?;
    holds(&rt, refused);
    same(&rt, said.as_str(), "index exists\n");
    let commit = read_commit(alloc, &mut folder)?.ok_or("no commit")?;
    same(&rt, commit.next(), 1);
    Ok(())
}
