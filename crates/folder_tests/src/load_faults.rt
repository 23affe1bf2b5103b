//! A load where a call on the folder fails.

use crate::asserts::{holds, holds_at};
use bkd_build::OpenGate;
use byte_cursor::Bytes;
use commit_list::read_commit;
use index_core::{Settings, Work};
use load_points::load;
use outer_io::MemFolder;
use page_cache::PageFault;
use std::alloc::Global;
use std::marker::Sync;
use std::process::Abort;
use std::test::Fail;
use std::thread::Threads;

/// Loads a file of one column.
fn load_column<R: Threads + Sync>(
    rt: &R,
    alloc: Global,
    folder: &mut MemFolder,
    file: &[u8],
) -> Result<Result<bool, PageFault>, Fail> {
    let columns = [Bytes::new(b"a".to_vec(alloc)?)];
    let work = Work {
        rt,
        alloc,
        settings: Settings {
            cache_pages: 4,
            forks: 0,
        },
        gate: &OpenGate,
    };
    let mut text = Vec::new(alloc);
    Ok(load(&work, &columns, file, folder, &mut text))
}

/// How many documents the folder's commit has, or None where there is no commit.
fn next_of(alloc: Global, folder: &mut MemFolder) -> Result<Option<u32>, Fail> {
    match read_commit(alloc, folder)? {
        Some(commit) => Ok(Some(commit.next())),
        None => Ok(None),
    }
}

/// Each call fails in turn, or the program stops before it: what is stored is what was, or all that is loaded.
#[test]
fn each_call_fails(rt: HostRuntime) -> Result<(), Fail> {
    let alloc = rt.alloc();
    for first in [false, true] {
        for stops in [false, true] {
            for call in 0..64 {
                let mut folder = MemFolder::new(alloc, Vec::new(alloc));
                if !first {
                    load_column(&rt, alloc, &mut folder, b"a\n1\n2\n")??;
                }
                let before = next_of(alloc, &mut folder)?;
                let mut fails = Vec::new(alloc);
                let mut stop = None;
                if stops {
                    stop = Some(call);
                } else {
                    fails.push(call)?;
                }
                folder.plan(fails, stop);
                let done = load_column(&rt, alloc, &mut folder, b"a\n5\n6\n7\n")?;
                folder.plan(Vec::new(alloc), None);
                let after = next_of(alloc, &mut folder)?;
                let whole = before.unwrap_or(0).checked_add(3);
                match done {
                    Ok(refused) => {
                        holds(&rt, !refused && after == whole);
                        break;
                    }
                    Err(PageFault::Failed) => holds_at(
                        &rt,
                        after == before || after == whole,
                        &call,
                    ),
                    Err(_) => return Err("another fault".into()),
                }
            }
        }
    }
    Ok(())
}
