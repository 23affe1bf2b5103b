//! Commands over an index, whose number of dimensions a commit says.

ghost use Rattle.std.specs.Prelude.{◌≤◌, ◌^◌, length};
ghost use Rattle.script_lang.specs.Lines.{lines_of};
ghost use Rattle.world.specs.Ends.{Unread};

use commit_list::Commit;
use outer_io::{Folder, Sink, Source};
use run_status::Stop;
use std::alloc::Global;
use world::{Outside, World};

/// A command that is done over the index of a commit.
pub trait Lasting {
    ghost use Rattle.std.specs.Prelude.{ℕ, List, Result};
    ghost use Rattle.commit_list.specs.Commits.{CommitData};
    ghost use Rattle.run_status.specs.declared.stop.Stop.{Stop};
    ghost use Rattle.world.specs.Steps.{Step};

    /// What it does over the index on lines, and how it ends.
    ghost does_over: { CommitData → List (List ℕ) → Step → Result ℕ Stop → Type 0 };
}

/// A command over an index that lasts for all of its lines, where it has `D` dimensions.
pub trait At<const D: usize>: Lasting {
    ghost use Rattle.std.specs.Prelude.{◌≡◌, ◌≤◌, ◌^◌, length};
    ghost use Rattle.script_lang.specs.Lines.{lines_of};
    ghost use Rattle.world.specs.Ends.{Unread};

    /// Is done on these lines. Says how many were refused.
    fn lines_at<'s, 'f, 'k, S: Source, F: Folder, K: Sink>(
        &self,
        alloc: Global,
        commit: &Commit,
        lines: &[u8],
        world: &mut World<'s, 'f, 'k, S, F, K>,
    ) -> Result<u64, Stop>
        requires some { 1 ≤ D }
        requires few { D ≤ 8 }
        requires dims { commit.now.dims ≡ D }
        requires lines { length lines.now ≤ 2 ^ 32 }
        ensures does { let step = ⟦<World<'s, 'f, 'k, S, F, K> as Outside>⟧.step world.old world.new in
            Self.does_over commit.now (lines_of lines.now) step result }
        ensures unread { Unread world.old world.new };
}

/// Does a command on these lines over the index of the commit, at its number of dimensions.
pub fn at_dims<'s, 'f, 'k, C, S: Source, F: Folder, K: Sink>(
    alloc: Global,
    command: &C,
    commit: &Commit,
    lines: &[u8],
    world: &mut World<'s, 'f, 'k, S, F, K>,
) -> Result<u64, Stop>
where
    C: At<1> + At<2> + At<3> + At<4> + At<5> + At<6> + At<7> + At<8>,
    requires { length lines.now ≤ 2 ^ 32 }
    ensures does { let step = ⟦<World<'s, 'f, 'k, S, F, K> as Outside>⟧.step world.old world.new in
        C.does_over commit.now (lines_of lines.now) step result }
    ensures unread { Unread world.old world.new }
{
    match commit.dims() {
        1 => <C as At<1>>::lines_at(command, alloc, commit, lines, world),
        2 => <C as At<2>>::lines_at(command, alloc, commit, lines, world),
        3 => <C as At<3>>::lines_at(command, alloc, commit, lines, world),
        4 => <C as At<4>>::lines_at(command, alloc, commit, lines, world),
        5 => <C as At<5>>::lines_at(command, alloc, commit, lines, world),
        6 => <C as At<6>>::lines_at(command, alloc, commit, lines, world),
        7 => <C as At<7>>::lines_at(command, alloc, commit, lines, world),
        _ => <C as At<8>>::lines_at(command, alloc, commit, lines, world),
    }
}
