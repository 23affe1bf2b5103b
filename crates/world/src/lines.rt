//! The lines of an input, answered one after the other.

ghost use Rattle.std.specs.Prelude.{◌≤◌, ◌^◌, length};
ghost use Rattle.script_lang.specs.Lines.{lines_of};
ghost use Rattle.world.specs.Ends.{Unread};
ghost use Rattle.world.specs.Runs.{RunsLine, RunsLines};

use crate::ends::{Outside, World};
use outer_io::{Folder, Sink, Source};
use page_cache::PageFault;
use run_status::{Stop, send, stopped};
use script_lang::first_line;
use std::alloc::Global;

/// What answers lines, with all that it holds of the folder between two of them.
pub trait Answers {
    ghost use Rattle.std.specs.Prelude.{IsTrue, Option};
    ghost use Rattle.outer_io.specs.Files.{Files};
    ghost use Rattle.run_status.specs.Told.{Teller};
    ghost use Rattle.world.specs.Runs.{Answered};

    /// What is looked at.
    ghost Scope: { Type 0 };

    /// What there is to tell of a line.
    ghost tells: { Scope → Teller };

    /// What is held fits these files.
    ghost fits: { Self → Files → Option Scope → Type 0 };

    /// Appends the answer to the line of this number. True where the line is refused.
    fn answer<F: Folder>(
        &mut self,
        alloc: Global,
        folder: &mut F,
        number: u64,
        line: &[u8],
        reply: &mut Vec<u8>,
    ) -> Result<bool, PageFault>
        ensures { Answered (IsTrue F.told) fits (λ s t. tells s number line.now t)
            (record {
              it = self.old;
              files = F.files folder.old;
              reads = F.reads folder.old;
              faults = F.faults folder.old;
              text = reply.old.items;
            })
            (record {
              it = self.new;
              files = F.files folder.new;
              reads = F.reads folder.new;
              faults = F.faults folder.new;
              text = reply.new.items;
            }) result };
}

/// Answers lines, and sends each answer. Says how many lines were refused.
pub fn run_lines<'s, 'f, 'k, A: Answers, S: Source, F: Folder, K: Sink>(
    alloc: Global,
    it: &mut A,
    world: &mut World<'s, 'f, 'k, S, F, K>,
    lines: &[u8],
) -> Result<u64, Stop>
    requires { length lines.now ≤ 2 ^ 32 }
    ensures runs { let step = ⟦<World<'s, 'f, 'k, S, F, K> as Outside>⟧.step world.old world.new in
        RunsLines A.fits A.tells (lines_of lines.now) it.old it.new step result }
    ensures unread { Unread world.old world.new }
{
    let mut reply = Vec::new(alloc);
    let mut rest = lines;
    let mut number = 1;
    let mut refused = 0;
    'lines: while !rest.is_empty() {
        let (line, behind) = first_line(rest);
        rest = behind;
        match run_line(alloc, it, world, number, line, &mut reply) {
            Ok(is_refused) => refused += u64::from(is_refused),
            Err(stop) => return Err(stop),
        }
        number += 1;
    }
    Ok(refused)
}

/// Answers a line, and sends the answer. True where the line is refused.
fn run_line<'s, 'f, 'k, A: Answers, S: Source, F: Folder, K: Sink>(
    alloc: Global,
    it: &mut A,
    world: &mut World<'s, 'f, 'k, S, F, K>,
    number: u64,
    line: &[u8],
    reply: &mut Vec<u8>,
) -> Result<bool, Stop>
    ensures runs { let step = ⟦<World<'s, 'f, 'k, S, F, K> as Outside>⟧.step world.old world.new in
        RunsLine A.fits A.tells number line.now it.old it.new step result }
    ensures unread { Unread world.old world.new }
{
    reply.clear();
    match it.answer(alloc, world.folder, number, line, reply) {
        Ok(refused) => send(world.out, reply.as_slice(), refused),
        Err(fault) => stopped(fault),
    }
}
