//! Where the index of a run comes from.

ghost use Rattle.std.specs.Prelude.{◌≡◌, ◌≤◌, IsTrue, IfOk};
ghost use Rattle.page_cache.specs.Causes.{HasPageCause};
ghost use Rattle.page_cache.specs.Evidence.{NotDamaged, OnDamage};
ghost use Rattle.index_opening.specs.Evidence.{IsEvident};
ghost use Rattle.index_model.specs.State.{Index, State};
ghost use Rattle.script_run.specs.LineAnswers.{IsSessionOf};
ghost use Rattle.script_run.specs.Leads.{Opens};
ghost use Rattle.script_run.specs.Origins.{dims_of, IsFrom, IsAllowed, IsOriginOf, KnowsFolder};

use commit_list::Commit;
use index_core::{Session, Settings};
use outer_io::Folder;
use page_cache::PageFault;
use std::alloc::Global;

/// Where the index of a run comes from.
#[derive(Debug, Drop)]
pub enum Origin {
    /// A line of the script makes it.
    New { dims: u8, leaf_size: u16 },
    /// The folder stores it, with this commit.
    Stored(Commit),
}

impl Origin {
    /// How many dimensions its points have.
    pub fn dims(&self) -> u8
        requires { IsAllowed self.now }
        ensures value { result ≡ dims_of self.now }
        ensures some { 1 ≤ result }
        ensures few { result ≤ 8 }
    {
        match self {
            Origin::New { dims, leaf_size: _ } => *dims,
            Origin::Stored(commit) => commit.dims(),
        }
    }
}

/// A session on the index.
pub fn open<const D: usize, F: Folder>(
    alloc: Global,
    settings: Settings,
    origin: Origin,
    folder: &mut F,
) -> Result<Session<D>, PageFault>
    requires some { 1 ≤ D }
    requires few { D ≤ 8 }
    requires dims { dims_of origin ≡ D }
    requires made { IsAllowed origin }
    ensures stands { IsTrue F.told → (i : Index) → (stored : State) → IsFrom (F.files folder.old) origin i stored
        → IfOk result (λ s. IsSessionOf D (F.files folder.new) s i stored) }
    ensures opens { IsTrue F.told → (i : Index) → (stored : State) → IsFrom (F.files folder.old) origin i stored
        → Opens origin i stored (F.files folder.old) (F.reads folder.old) (F.reads folder.new) result }
    ensures files { IsTrue F.told → F.files folder.new ≡ F.files folder.old }
    ensures cause { HasPageCause (F.faults folder.old) (F.faults folder.new) result }
    ensures whole { IsTrue F.told → (i : Index) → (stored : State) → IsFrom (F.files folder.old) origin i stored
        → NotDamaged result }
    ensures knows { IsTrue F.told → IsOriginOf (F.files folder.old) origin
        → IfOk result (KnowsFolder D (F.files folder.new)) }
    ensures evident { OnDamage result
        (IsEvident (IsTrue F.told × IsOriginOf (F.files folder.old) origin) (F.files folder.new)) }
{
    match origin {
        Origin::New { dims: _, leaf_size } => Ok(Session::create(alloc, leaf_size, settings)?),
        Origin::Stored(commit) => Session::attach(alloc, folder, commit, settings),
    }
}
