//! The command `count`.

ghost use Rattle.std.specs.Prelude.{◌≡◌, ◌≤◌};
ghost use Rattle.run_status.specs.Ends.{DoesNothing};
ghost use Rattle.world.specs.Ends.{SameEnds, Untouched};
ghost use Rattle.commands.specs.Looks.{Looked};
ghost use Rattle.count_queries.specs.Counted.{IsScope, TellsCount};

use crate::counting::{Counting, NoIndex};
use commands::{At, Command, Lasting, at_dims, run_command};
use commit_list::{Commit, read_commit};
use index_opening::open_index;
use outer_io::{Folder, Sink, Source};
use page_cache::PageCache;
use run_status::{Status, Stop, stopped};
use std::alloc::{AllocError, Global};
use world::{Outside, World, run_lines};

/// The command `count`: reads lines, and says of each how many live points lie in a box, or in each bucket of a grid.
/// The whole input is read before anything is done. No file changes, whatever the status.
pub fn run_count<S: Source, F: Folder, K: Sink>(
    alloc: Global,
    cache_pages: u32,
    input: &mut S,
    folder: &mut F,
    out: &mut K,
) -> Status
    requires some { 1 ≤ cache_pages }
    requires few { cache_pages ≤ 65536 }
    ensures looked { let step = ⟦<(S, F, K) as Outside>⟧.step (input.old, folder.old, out.old)
        (input.new, folder.new, out.new) in Looked IsScope TellsCount step result }
    ensures untouched { DoesNothing result → (folder.new ≡ folder.old) × (out.new ≡ out.old) }
{
    let mut world = World { input, folder, out };
    count_lines(alloc, cache_pages, &mut world)
}

/// Counts for the lines of the input.
fn count_lines<'s, 'f, 'k, S: Source, F: Folder, K: Sink>(
    alloc: Global,
    cache_pages: u32,
    world: &mut World<'s, 'f, 'k, S, F, K>,
) -> Status
    requires some { 1 ≤ cache_pages }
    requires few { cache_pages ≤ 65536 }
    ensures looked { let step = ⟦<World<'s, 'f, 'k, S, F, K> as Outside>⟧.step world.old world.new in
        Looked IsScope TellsCount step result }
    ensures same { SameEnds world.old world.new }
    ensures untouched { DoesNothing result → Untouched world.old world.new }
{
    let count = Count { cache_pages };
    run_command(alloc, &count, world)
}

/// The command, with room for so many kept pages.
#[derive(Drop)]
struct Count {
    cache_pages: u32,
    ghost some: { 1 ≤ cache_pages },
    ghost few: { cache_pages ≤ 65536 },
}

impl Command for Count {
    ghost use Rattle.commands.specs.Looks.{LooksAll};
    ghost use Rattle.count_queries.specs.Counted.{IsScope, TellsCount};

    ghost does = { λ lines step result. LooksAll IsScope TellsCount lines step result };

    fn lines<'s, 'f, 'k, S: Source, F: Folder, K: Sink>(
        &self,
        alloc: Global,
        lines: &[u8],
        world: &mut World<'s, 'f, 'k, S, F, K>,
    ) -> Result<u64, Stop> {
        match read_commit(alloc, world.folder) {
            Ok(None) => run_lines(alloc, &mut NoIndex, world, lines),
            Ok(Some(commit)) => at_dims(alloc, self, &commit, lines, world),
            Err(fault) => stopped(fault),
        }
    }
}

impl Lasting for Count {
    ghost use Rattle.commands.specs.Looks.{LooksOver};
    ghost use Rattle.count_queries.specs.Counted.{IsScope, TellsCount, scope_heads};

    ghost does_over = { λ c lines step result. LooksOver IsScope scope_heads TellsCount c lines step result };
}

impl<const D: usize> At<D> for Count {
    fn lines_at<'s, 'f, 'k, S: Source, F: Folder, K: Sink>(
        &self,
        alloc: Global,
        commit: &Commit,
        lines: &[u8],
        world: &mut World<'s, 'f, 'k, S, F, K>,
    ) -> Result<u64, Stop> {
        match open_index::<D, F>(alloc, world.folder, commit) {
            Ok(segments) => match PageCache::new(alloc, self.cache_pages) {
                Ok(cache) => run_lines(alloc, &mut Counting { segments, cache }, world, lines),
                Err(AllocError) => Err(Stop::Memory),
            },
            Err(fault) => stopped(fault),
        }
    }
}
