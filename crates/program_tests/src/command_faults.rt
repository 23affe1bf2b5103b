//! Commands that are done as a whole, and queries, where a call on the folder or a stream fails: one table.

use crate::asserts::{holds, holds_at, same};
use crate::fixtures::{called, faulty};
use bkd_build::OpenGate;
use bkd_top::{Status, code, run};
use outer_io::{MemFolder, MemSink, MemSource};
use std::alloc::Global;
use std::marker::Sync;
use std::process::Abort;
use std::test::Fail;
use std::thread::Threads;

/// A folder whose call of this number fails, or which is stopped from there on.
fn failing(alloc: Global, folder: &mut MemFolder, stops: bool, call: u64) -> Result<(), Fail> {
    let mut fails = Vec::new(alloc);
    let mut stop = None;
    if stops {
        stop = Some(call);
    } else {
        fails.push(call)?;
    }
    folder.plan(fails, stop);
    Ok(())
}

/// A command on what a script leaves, its input, and how the folder may answer a query for all documents afterwards:
/// as before, or as the command leaves it. Where a call fails, `begun` may be told, or nothing.
struct Row {
    script: &'static str,
    words: &'static [&'static str],
    input: &'static str,
    text: &'static str,
    begun: &'static str,
    before: &'static str,
    after: &'static str,
}

const FIRST_LOAD: Row = Row {
    script: "",
    words: &[".", "load", "--columns", "a"],
    input: "a\n5\n6\n",
    text: "loaded 2\nnext 2\n",
    begun: "",
    before: "line 1: no index\n",
    after: "hits 2\n0\n1\n",
};

const SECOND_LOAD: Row = Row {
    script: "create 1\nadd 1\nadd 2\nflush\ndelete 0\n",
    words: &[".", "load", "--columns", "a"],
    input: "a\n5\n6\n",
    text: "loaded 2\nnext 4\n",
    begun: "",
    before: "hits 1\n1\n",
    after: "hits 3\n1\n2\n3\n",
};

const GENERATED: Row = Row {
    script: "",
    words: &[".", "generate", "--docs", "2", "--seed", "1"],
    input: "",
    text: "docs 2 live 1\nbox hits 0\nnearest sum 163801049044\n",
    begun: "",
    before: "line 1: no index\n",
    after: "line 1: wrong words\n",
};

const EXPLAINED: Row = Row {
    script: "create 1\nadd 1\nadd 2\nflush\ndelete 0\n",
    words: &[".", "explain"],
    input: "box 0 9\nnearest 1 1\n",
    text: "tested 0 touched 1 hits 1\ntouched 1 near 1\n",
    begun: "tested 0 touched 1 hits 1\n",
    before: "hits 1\n1\n",
    after: "hits 1\n1\n",
};

const CHECKED: Row = Row {
    script: "create 1\nadd 1\nadd 2\nflush\ndelete 0\n",
    words: &[".", "check"],
    input: "",
    text: "ok dims 1 leaf 500 next 2 live 1 segments 1\n",
    begun: "",
    before: "hits 1\n1\n",
    after: "hits 1\n1\n",
};

const BATCHED: Row = Row {
    script: "create 1\nadd 1\nadd 2\nflush\ndelete 0\n",
    words: &[".", "batch"],
    input: "box 0 9\nnearest 1 1\n",
    text: "hits 1\n1\nnear 1\n1 1\n",
    begun: "",
    before: "hits 1\n1\n",
    after: "hits 1\n1\n",
};

const MERGED: Row = Row {
    script: "create 1\nadd 1\nadd 2\nflush\nadd 20\nflush\ndelete 0\n",
    words: &[".", "batch", "--merge"],
    input: "box 0 9\nnearest 1 1\n",
    text: "hits 1\n1\nnear 1\n1 1\n",
    begun: "hits 1\n1\nnear 1\n1 1\n",
    before: "hits 1\n1\n",
    after: "hits 1\n1\n",
};

const ROWS: [&Row; 7] = [
    &FIRST_LOAD,
    &SECOND_LOAD,
    &GENERATED,
    &EXPLAINED,
    &CHECKED,
    &BATCHED,
    &MERGED,
];

/// Each call on the folder fails in turn, or the program stops before it. Nothing of a command that is done at once
/// goes out then, of queries what is told of the first ones, and of a batch with a merge all or nothing.
fn fails_in_turn<R: Threads + Sync + Abort>(rt: &R, alloc: Global, row: &Row) -> Result<(), Fail> {
    for stops in [false, true] {
        for call in 0..64 {
            let mut folder = MemFolder::new(alloc, Vec::new(alloc));
            called(rt, alloc, &[".", "run"], row.script, &mut folder)?;
            failing(alloc, &mut folder, stops, call)?;
            let (status, text) = called(rt, alloc, row.words, row.input, &mut folder)?;
            folder.plan(Vec::new(alloc), None);
            let (_, look) = called(rt, alloc, &[".", "run"], "box 0 9\n", &mut folder)?;
            if code(&status) == 0 {
                same(rt, look.as_str(), row.after);
                break;
            }
            same(rt, code(&status), 4);
            holds_at(
                rt,
                look.as_str() == row.before || look.as_str() == row.after,
                &call,
            );
            holds_at(rt, is_begun(row, text.as_str()), &call);
        }
    }
    Ok(())
}

#[test]
fn a_first_load_fails(rt: HostRuntime) -> Result<(), Fail> {
    fails_in_turn(&rt, rt.alloc(), &FIRST_LOAD)
}

#[test]
fn a_second_load_fails(rt: HostRuntime) -> Result<(), Fail> {
    fails_in_turn(&rt, rt.alloc(), &SECOND_LOAD)
}

#[test]
fn generating_fails(rt: HostRuntime) -> Result<(), Fail> {
    fails_in_turn(&rt, rt.alloc(), &GENERATED)
}

#[test]
fn explaining_fails(rt: HostRuntime) -> Result<(), Fail> {
    fails_in_turn(&rt, rt.alloc(), &EXPLAINED)
}

#[test]
fn checking_fails(rt: HostRuntime) -> Result<(), Fail> {
    fails_in_turn(&rt, rt.alloc(), &CHECKED)
}

#[test]
fn a_batch_fails(rt: HostRuntime) -> Result<(), Fail> {
    fails_in_turn(&rt, rt.alloc(), &BATCHED)
}

#[test]
fn a_merging_batch_fails(rt: HostRuntime) -> Result<(), Fail> {
    fails_in_turn(&rt, rt.alloc(), &MERGED)
}

/// Whether a text is nothing, or what may be told before a call fails.
fn is_begun(row: &Row, text: &str) -> bool {
    text.is_empty() || text == row.begun
}

/// Where the output has no more room, a prefix of the text went out, and what the command leaves is stored.
#[test]
fn an_output_without_room(rt: HostRuntime) -> Result<(), Fail> {
    let alloc = rt.alloc();
    for row in [&FIRST_LOAD, &EXPLAINED, &BATCHED, &MERGED] {
        for room in 0..=row.text.len() {
            let mut folder = MemFolder::new(alloc, Vec::new(alloc));
            called(&rt, alloc, &[".", "run"], row.script, &mut folder)?;
            let status = cut(&rt, alloc, row, room, &mut folder)?;
            let whole = room == row.text.len();
            same(&rt, code(&status), if whole { 0 } else { 5 });
            let (_, look) = called(&rt, alloc, &[".", "run"], "box 0 9\n", &mut folder)?;
            same(&rt, look.as_str(), row.after);
        }
    }
    Ok(())
}

/// Runs a row's command with an output of so much room.
fn cut<R: Threads + Sync + Abort>(
    rt: &R,
    alloc: Global,
    row: &Row,
    room: usize,
    folder: &mut MemFolder,
) -> Result<Status, Fail> {
    let whole = row.text.as_bytes();
    if room > whole.len() {
        return Err("more room than text".into());
    }
    let wanted = &whole[..room];
    let mut list = Vec::new(alloc);
    for word in row.words {
        list.push(String::from_str(alloc, word)?)?;
    }
    let mut source = MemSource::new(row.input.as_bytes().to_vec(alloc)?, Vec::new(alloc));
    let mut sink = MemSink::new(alloc, room, Vec::new(alloc))?;
    let status = run(
        rt,
        alloc,
        list.as_slice(),
        &mut source,
        folder,
        &mut sink,
        &OpenGate,
    );
    same(rt, sink.bytes(), wanted);
    Ok(status)
}

/// Each call on the output fails in turn. What went out is told before it, and what the command leaves is stored.
fn output_fails<R: Threads + Sync + Abort>(rt: &R, alloc: Global, row: &Row) -> Result<(), Fail> {
    for call in 0..8 {
        let mut folder = MemFolder::new(alloc, Vec::new(alloc));
        called(rt, alloc, &[".", "run"], row.script, &mut folder)?;
        let command = (row.words, row.input);
        let (status, text) = faulty(rt, alloc, command, &mut folder, &[], &[call])?;
        let (_, look) = called(rt, alloc, &[".", "run"], "box 0 9\n", &mut folder)?;
        same(rt, look.as_str(), row.after);
        if code(&status) == 0 {
            same(rt, text.as_str(), row.text);
            holds(rt, call > 0);
            return Ok(());
        }
        same(rt, code(&status), 5);
        holds_at(rt, is_begun(row, text.as_str()), &call);
    }
    Err("too many calls".into())
}

#[test]
fn each_call_on_the_output_fails(rt: HostRuntime) -> Result<(), Fail> {
    for row in ROWS {
        output_fails(&rt, rt.alloc(), row)?;
    }
    Ok(())
}

/// One of the first calls on the input fails. Nothing is told then, and the folder isn't asked; a command that takes no
/// input does all.
#[test]
fn the_first_calls_on_the_input_fail(rt: HostRuntime) -> Result<(), Fail> {
    let alloc = rt.alloc();
    for row in ROWS {
        for call in 0..2 {
            let mut folder = MemFolder::new(alloc, Vec::new(alloc));
            called(&rt, alloc, &[".", "run"], row.script, &mut folder)?;
            let takes_input = !row.input.is_empty();
            if takes_input {
                folder.plan(Vec::new(alloc), Some(0));
            }
            let command = (row.words, row.input);
            let (status, text) = faulty(&rt, alloc, command, &mut folder, &[call], &[])?;
            same(&rt, code(&status), if takes_input { 3 } else { 0 });
            same(&rt, text.as_str(), if takes_input { "" } else { row.text });
            folder.plan(Vec::new(alloc), None);
            let (_, look) = called(&rt, alloc, &[".", "run"], "box 0 9\n", &mut folder)?;
            same(
                &rt,
                look.as_str(),
                if takes_input { row.before } else { row.after },
            );
        }
    }
    Ok(())
}
