//! The text of a batch.

ghost use Rattle.std.specs.Prelude.{◌≡◌, ◌≤◌, ◌^◌, ◌++◌, List, None, Some, cond, false, true, length, map};
ghost use Rattle.std.specs.Prelude.{IfOk, OnOk};
ghost use Rattle.std.specs.List.{flat_map};
ghost use Rattle.script_lang.specs.Lines.{lines_of};
ghost use Rattle.script_lang.specs.Replies.{refused_text};
ghost use Rattle.script_lang.specs.Requests.{Request};
ghost use Rattle.script_lang.specs.Seen.{request_of as command_request};
ghost use Rattle.index_model.specs.State.{Index};
ghost use Rattle.run_status.specs.Told.{IsTold};
ghost use Rattle.batch_queries.specs.Queries.{query_in, now_of, text_of_reply};
ghost use Rattle.batch_queries.specs.Batched.{IsBatchText, TellsBatch, reply_text, told_on};

use crate::Memory;
use batch_run::Reply;
use point_codec::View;
use script_lang::{
    Command, First, LineFault, Refusal, first_line, put_hits, put_line_fault, put_near,
    put_refusal, read_first, read_line,
};
use std::alloc::{AllocError, Global};

/// What there is to write of all lines.
#[derive(Drop)]
pub(crate) struct Text {
    pub(crate) bytes: Vec<u8>,
    /// How many lines are refused.
    pub(crate) refused: u64,
}

/// What became of a line.
#[derive(Clone, Copy)]
struct Line {
    refused: bool,
    /// Whether it asks a query of the documents live now, whose reply is told.
    asks: bool,
}

/// The text of lines over an index of `D` dimensions, where these are the replies to their queries.
pub(crate) fn tell_all<const D: usize>(
    alloc: Global,
    lines: &[u8],
    replies: &[Reply],
) -> Result<Text, Memory>
    requires some { 1 ≤ D }
    requires few { D ≤ 8 }
    requires lines { length lines.now ≤ 2 ^ 32 }
    requires each { length replies.now ≡ length (flat_map (query_in D) (lines_of lines.now)) }
    ensures { (i : Index) → i.dims ≡ D
        → map text_of_reply replies.now ≡ map (reply_text i) (flat_map (query_in D) (lines_of lines.now))
        → IfOk result (λ t. IsBatchText (Some i) (lines_of lines.now) t.bytes.items t.refused) }
{
    let mut bytes = Vec::new(alloc);
    let mut rest = lines;
    let mut left = replies;
    let mut number = 1;
    let mut refused = 0;
    'lines: while !rest.is_empty() {
        let (line, behind) = first_line(rest);
        rest = behind;
        let told = tell_line::<D>(alloc, number, line, left, &mut bytes)?;
        left = &left[usize::from(told.asks)..];
        refused += u64::from(told.refused);
        number += 1;
    }
    Ok(Text { bytes, refused })
}

/// Appends what is told of a line, whose reply is the first of these where it asks a query.
fn tell_line<const D: usize>(
    alloc: Global,
    number: u64,
    line: &[u8],
    replies: &[Reply],
    text: &mut Vec<u8>,
) -> Result<Line, Memory>
    requires some { 1 ≤ D }
    requires few { D ≤ 8 }
    requires there { length (query_in D line.now) ≤ length replies.now }
    ensures told { (i : Index) → i.dims ≡ D → (more : List Request)
        → map text_of_reply replies.now ≡ map (reply_text i) (query_in D line.now ++ more)
        → IfOk result (λ l. IsTold (TellsBatch (Some i) number line.now) text.old.items text.new.items l.refused) }
    ensures asks { IfOk result (λ l. length (query_in D line.now) ≡ cond l.asks 1 0) }
{
    match read_line::<D>(alloc, line) {
        Ok(command) => tell(number, &command, replies, text),
        Err(LineFault::Memory) => Err(AllocError),
        Err(fault) => {
            put_line_fault(text, number, &fault)?;
            Ok(Line {
                refused: true,
                asks: false,
            })
        }
    }
}

/// Appends what is told of a command: its reply where it is a query of the documents live now, and else why it is
/// refused.
fn tell<const D: usize>(
    number: u64,
    command: &Command<D>,
    replies: &[Reply],
    text: &mut Vec<u8>,
) -> Result<Line, Memory>
    requires { length (now_of (command_request command.now)) ≤ length replies.now }
    ensures told { (i : Index) → (more : List Request)
        → map text_of_reply replies.now ≡ map (reply_text i) (now_of (command_request command.now) ++ more)
        → IfOk result (λ l. IsTold (λ t. t ≡ told_on i number (command_request command.now))
        text.old.items text.new.items l.refused) }
    ensures asks { IfOk result (λ l. length (now_of (command_request command.now)) ≡ cond l.asks 1 0) }
{
    match command {
        Command::Blank => Ok(Line {
            refused: false,
            asks: false,
        }),
        Command::InBox { view, .. } => match view {
            View::Now => put_reply(&replies[0], text),
            View::Named(_) => refuse(number, Refusal::UnknownSnapshot, text),
        },
        Command::Polygon { view, .. } => match view {
            View::Now => put_reply(&replies[0], text),
            View::Named(_) => refuse(number, Refusal::UnknownSnapshot, text),
        },
        Command::Nearest { view, .. } => match view {
            View::Now => put_reply(&replies[0], text),
            View::Named(_) => refuse(number, Refusal::UnknownSnapshot, text),
        },
        _ => refuse(number, Refusal::NotQuery, text),
    }
}

/// Appends the text of a reply. Its line asks a query, and isn't refused.
fn put_reply(reply: &Reply, text: &mut Vec<u8>) -> Result<Line, Memory>
    ensures text { OnOk result (text.new.items ≡ text.old.items ++ text_of_reply reply.now) }
    ensures line { IfOk result (λ l. (l.refused ≡ false) × (l.asks ≡ true)) }
{
    match reply {
        Reply::Hits(docs) => put_hits(text, docs.as_slice())?,
        Reply::Near(nears) => put_near(text, nears.as_slice())?,
    }
    Ok(Line {
        refused: false,
        asks: true,
    })
}

/// Appends why a command is refused.
fn refuse(number: u64, why: Refusal, text: &mut Vec<u8>) -> Result<Line, Memory>
    ensures text { OnOk result (text.new.items ≡ text.old.items ++ refused_text number why) }
    ensures line { IfOk result (λ l. (l.refused ≡ true) × (l.asks ≡ false)) }
{
    put_refusal(text, number, why)?;
    Ok(Line {
        refused: true,
        asks: false,
    })
}

/// The text of lines where no index is there.
pub(crate) fn tell_bare(alloc: Global, lines: &[u8]) -> Result<Text, Memory>
    requires { length lines.now ≤ 2 ^ 32 }
    ensures { IfOk result (λ t. IsBatchText None (lines_of lines.now) t.bytes.items t.refused) }
{
    let mut bytes = Vec::new(alloc);
    let mut rest = lines;
    let mut number = 1;
    let mut refused = 0;
    'lines: while !rest.is_empty() {
        let (line, behind) = first_line(rest);
        rest = behind;
        let is_refused = tell_bare_line(number, line, &mut bytes)?;
        refused += u64::from(is_refused);
        number += 1;
    }
    Ok(Text { bytes, refused })
}

/// Appends what is told of a line where no index is there. True where it is refused.
fn tell_bare_line(number: u64, line: &[u8], text: &mut Vec<u8>) -> Result<bool, Memory>
    ensures { IfOk result (IsTold (TellsBatch None number line.now) text.old.items text.new.items) }
{
    match read_first(line) {
        Ok(First::Blank) => Ok(false),
        Ok(First::Create { .. }) => {
            put_refusal(text, number, Refusal::NotQuery)?;
            Ok(true)
        }
        Err(LineFault::Memory) => Err(AllocError),
        Err(fault) => {
            put_line_fault(text, number, &fault)?;
            Ok(true)
        }
    }
}
