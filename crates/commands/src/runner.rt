//! How a command is run: its input is read whole, and its result becomes a status.

ghost use Rattle.run_status.specs.Ends.{DoesNothing};
ghost use Rattle.world.specs.Ends.{SameEnds, Untouched};
ghost use Rattle.commands.specs.Promises.{Promises};

use outer_io::{Folder, ReadAll, Sink, Source, read_all};
use run_status::{MAX_INPUT, Status, Stop, status_of};
use std::alloc::Global;
use world::{Outside, World};

/// A command that is done on the lines of its input.
pub trait Command {
    ghost use Rattle.std.specs.Prelude.{ℕ, ◌≤◌, ◌^◌, List, Result, length};
    ghost use Rattle.script_lang.specs.Lines.{lines_of};
    ghost use Rattle.run_status.specs.declared.stop.Stop.{Stop};
    ghost use Rattle.world.specs.Steps.{Step};
    ghost use Rattle.world.specs.Ends.{Unread};

    /// What it does on lines, and how it ends.
    ghost does: { List (List ℕ) → Step → Result ℕ Stop → Type 0 };

    /// Is done on these lines. Says how many were refused.
    fn lines<'s, 'f, 'k, S: Source, F: Folder, K: Sink>(
        &self,
        alloc: Global,
        lines: &[u8],
        world: &mut World<'s, 'f, 'k, S, F, K>,
    ) -> Result<u64, Stop>
        requires { length lines.now ≤ 2 ^ 32 }
        ensures does { let step = ⟦<World<'s, 'f, 'k, S, F, K> as Outside>⟧.step world.old world.new in
            does (lines_of lines.now) step result }
        ensures unread { Unread world.old world.new };
}

/// Reads the whole input, does the command on its lines, and says how that ended.
pub fn run_command<'s, 'f, 'k, C: Command, S: Source, F: Folder, K: Sink>(
    alloc: Global,
    command: &C,
    world: &mut World<'s, 'f, 'k, S, F, K>,
) -> Status
    ensures promises { let step = ⟦<World<'s, 'f, 'k, S, F, K> as Outside>⟧.step world.old world.new in
        Promises C.does step result }
    ensures same { SameEnds world.old world.new }
    ensures untouched { DoesNothing result → Untouched world.old world.new }
{
    match read_all(alloc, world.input, MAX_INPUT) {
        Ok(lines) => status_of(command.lines(alloc, lines.as_slice(), world)),
        Err(ReadAll::Failed) => Status::SourceFault,
        Err(ReadAll::TooLarge) => Status::TooLarge,
        Err(ReadAll::Memory) => Status::Memory,
    }
}
