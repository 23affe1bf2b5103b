//! The command `explain`.

ghost use Rattle.std.specs.Prelude.{◌≡◌, ◌≤◌};
ghost use Rattle.run_status.specs.Ends.{DoesNothing};
ghost use Rattle.world.specs.Ends.{SameEnds, Untouched};
ghost use Rattle.commands.specs.Looks.{Looked};
ghost use Rattle.explain_queries.specs.Explained.{IsScope, TellsLine};

use crate::answering::{Explaining, NoIndex};
use commands::{At, Command, Lasting, at_dims, run_command};
use commit_list::{Commit, read_commit};
use outer_io::{Folder, Sink, Source};
use run_status::{Status, Stop, stopped};
use segment_set::{SegmentSet, Settings};
use std::alloc::Global;
use world::{Outside, World, run_lines};

/// The command `explain`: reads queries, and says of each how much of the stored segments it tests and touches, and
/// how much it finds. The whole input is read before anything is done. No file changes, whatever the status.
pub fn run_explain<S: Source, F: Folder, K: Sink>(
    alloc: Global,
    cache_pages: u32,
    input: &mut S,
    folder: &mut F,
    out: &mut K,
) -> Status
    requires some { 1 ≤ cache_pages }
    requires few { cache_pages ≤ 65536 }
    ensures looked { let step = ⟦<(S, F, K) as Outside>⟧.step (input.old, folder.old, out.old)
        (input.new, folder.new, out.new) in Looked IsScope TellsLine step result }
    ensures untouched { DoesNothing result → (folder.new ≡ folder.old) × (out.new ≡ out.old) }
{
    let mut world = World { input, folder, out };
    explain_lines(alloc, cache_pages, &mut world)
}

/// Explains the lines of the input.
fn explain_lines<'s, 'f, 'k, S: Source, F: Folder, K: Sink>(
    alloc: Global,
    cache_pages: u32,
    world: &mut World<'s, 'f, 'k, S, F, K>,
) -> Status
    requires some { 1 ≤ cache_pages }
    requires few { cache_pages ≤ 65536 }
    ensures looked { let step = ⟦<World<'s, 'f, 'k, S, F, K> as Outside>⟧.step world.old world.new in
        Looked IsScope TellsLine step result }
    ensures same { SameEnds world.old world.new }
    ensures untouched { DoesNothing result → Untouched world.old world.new }
{
    let explain = Explain { cache_pages };
    run_command(alloc, &explain, world)
}

/// The command, with room for so many kept pages.
#[derive(Drop)]
struct Explain {
    cache_pages: u32,
    ghost some: { 1 ≤ cache_pages },
    ghost few: { cache_pages ≤ 65536 },
}

impl Command for Explain {
    ghost use Rattle.commands.specs.Looks.{LooksAll};
    ghost use Rattle.explain_queries.specs.Explained.{IsScope, TellsLine};

    ghost does = { λ lines step result. LooksAll IsScope TellsLine lines step result };

    fn lines<'s, 'f, 'k, S: Source, F: Folder, K: Sink>(
        &self,
        alloc: Global,
        lines: &[u8],
        world: &mut World<'s, 'f, 'k, S, F, K>,
    ) -> Result<u64, Stop> {
        match read_commit(alloc, world.folder) {
            Ok(None) => run_lines(alloc, &mut NoIndex, world, lines),
            Ok(Some(commit)) => at_dims(alloc, self, &commit, lines, world),
            Err(fault) => stopped(fault),
        }
    }
}

impl Lasting for Explain {
    ghost use Rattle.commands.specs.Looks.{LooksOver};
    ghost use Rattle.explain_queries.specs.Explained.{IsScope, TellsLine, scope_heads};

    ghost does_over = { λ c lines step result. LooksOver IsScope scope_heads TellsLine c lines step result };
}

impl<const D: usize> At<D> for Explain {
    fn lines_at<'s, 'f, 'k, S: Source, F: Folder, K: Sink>(
        &self,
        alloc: Global,
        commit: &Commit,
        lines: &[u8],
        world: &mut World<'s, 'f, 'k, S, F, K>,
    ) -> Result<u64, Stop> {
        // no segment is built, so no level forks
        let settings = Settings {
            cache_pages: self.cache_pages,
            forks: 0,
        };
        match SegmentSet::<D>::attach(alloc, world.folder, commit, settings) {
            Ok(set) => run_lines(alloc, &mut Explaining { set }, world, lines),
            Err(fault) => stopped(fault),
        }
    }
}
