//! The queries that lines ask.

ghost use Rattle.std.specs.Prelude.{◌≡◌, ◌≤◌, ◌++◌, ◌∷◌, [], All, map, IfOk, IfSome, MatchOption, OnOk};
ghost use Rattle.std.specs.List.{flat_map};
ghost use Rattle.script_lang.specs.Lines.{lines_of};
ghost use Rattle.script_lang.specs.Seen.{IsWithinLimits, request_of as command_request};
ghost use Rattle.batch_run.specs.Queries.{IsInRange};
ghost use Rattle.batch_queries.specs.Queries.{query_in, now_of, request_of};

use crate::Memory;
use batch_run::Query;
use point_codec::View;
use script_lang::{Command, LineFault, first_line, read_line};
use std::alloc::{AllocError, Global};

/// The queries of lines that ask for the documents live now.
pub(crate) fn collect<const D: usize>(alloc: Global, lines: &[u8]) -> Result<Vec<Query<D>>, Memory>
    requires some { 1 ≤ D }
    requires few { D ≤ 8 }
    ensures asked { IfOk result (λ v. map request_of v.items ≡ flat_map (query_in D) (lines_of lines.now)) }
    ensures range { IfOk result (λ v. All (IsInRange D) v.items) }
{
    let mut queries = Vec::new(alloc);
    let mut rest = lines;
    'lines: while !rest.is_empty() {
        let (line, behind) = first_line(rest);
        rest = behind;
        collect_line(alloc, line, &mut queries)?;
    }
    Ok(queries)
}

/// Appends the query of a line, where it asks one.
fn collect_line<const D: usize>(
    alloc: Global,
    line: &[u8],
    queries: &mut Vec<Query<D>>,
) -> Result<(), Memory>
    requires some { 1 ≤ D }
    requires few { D ≤ 8 }
    ensures asked { OnOk result
        (map request_of queries.new.items ≡ map request_of queries.old.items ++ query_in D line.now) }
    ensures range { All (IsInRange D) queries.old.items → OnOk result (All (IsInRange D) queries.new.items) }
{
    match read_line::<D>(alloc, line) {
        Ok(command) => {
            if let Some(query) = query_of(command) {
                queries.push(query)?;
            }
            Ok(())
        }
        Err(LineFault::Memory) => Err(AllocError),
        Err(_) => Ok(()),
    }
}

/// The query that a command is, where it is one of the documents live now.
fn query_of<const D: usize>(command: Command<D>) -> Option<Query<D>>
    requires { IsWithinLimits (command_request command) }
    ensures asked { MatchOption result (now_of (command_request command.entry) ≡ [])
        (λ q. now_of (command_request command.entry) ≡ request_of q ∷ []) }
    ensures range { IfSome result (IsInRange D) }
{
    match command {
        Command::InBox { view, lo, hi } => match view {
            View::Now => Some(Query::InBox { lo, hi }),
            View::Named(_) => None,
        },
        Command::Polygon { view, rings } => match view {
            View::Now => Some(Query::Polygon(rings)),
            View::Named(_) => None,
        },
        Command::Nearest { view, k, at } => match view {
            View::Now => Some(Query::Nearest { k, at }),
            View::Named(_) => None,
        },
        _ => None,
    }
}
