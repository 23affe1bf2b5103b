//! What scripts answer over a list of documents in memory, which is the definitions' own program.

use index_model::{Applied, ListSession};
use script_lang::{
    First, LineFault, first_line, put_line_fault, put_ok, put_refusal, read_first, read_line,
};
use std::alloc::Global;
use std::test::Fail;

/// What a script answers, and how many of its lines are refused.
#[derive(Drop)]
pub struct Scan {
    pub answers: Vec<u8>,
    pub refused: u64,
}

/// What a script answers over a list of two dimensions.
pub fn scanned(alloc: Global, script: &[u8]) -> Result<Scan, Fail> {
    let mut session = None;
    let mut answers = Vec::new(alloc);
    let mut refused = 0u64;
    let mut rest = script;
    for number in 1..u64::MAX {
        if rest.is_empty() {
            break;
        }
        let (line, behind) = first_line(rest);
        rest = behind;
        if !scan_line(alloc, &mut session, number, line, &mut answers)? {
            refused = refused.saturating_add(1);
        }
    }
    Ok(Scan { answers, refused })
}

/// Does a line, and says whether it is done. There may be no index yet.
fn scan_line(
    alloc: Global,
    session: &mut Option<ListSession<2>>,
    number: u64,
    line: &[u8],
    answers: &mut Vec<u8>,
) -> Result<bool, Fail> {
    match session {
        Some(made) => apply_line(alloc, made, number, line, answers),
        None => make(alloc, session, number, line, answers),
    }
}

/// Does a line before there is an index, and says whether it is done.
fn make(
    alloc: Global,
    session: &mut Option<ListSession<2>>,
    number: u64,
    line: &[u8],
    answers: &mut Vec<u8>,
) -> Result<bool, Fail> {
    match read_first(line) {
        Ok(First::Blank) => Ok(true),
        Ok(First::Create { dims: _, leaf_size }) => {
            *session = Some(ListSession::new(alloc, leaf_size));
            put_ok(answers)?;
            Ok(true)
        }
        Err(LineFault::Memory) => Err("memory is wanting".into()),
        Err(fault) => {
            put_line_fault(answers, number, &fault)?;
            Ok(false)
        }
    }
}

/// Does a line over an index, and says whether it is done.
fn apply_line(
    alloc: Global,
    session: &mut ListSession<2>,
    number: u64,
    line: &[u8],
    answers: &mut Vec<u8>,
) -> Result<bool, Fail> {
    let command = match read_line::<2>(alloc, line) {
        Ok(command) => command,
        Err(LineFault::Memory) => return Err("memory is wanting".into()),
        Err(fault) => {
            put_line_fault(answers, number, &fault)?;
            return Ok(false);
        }
    };
    match session.apply(alloc, &command, answers)? {
        Applied::Done => Ok(true),
        Applied::Refused(why) => {
            put_refusal(answers, number, why)?;
            Ok(false)
        }
    }
}
