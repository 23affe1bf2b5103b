//! How a run keeps others out of its directory.
ghost use Rattle.std.specs.Prelude.{◌≡◌, Some};

use crate::reason::Reason;
use std::fs::{File, TryLockError};
use std::thread;
use std::time::{Clock, Duration};

/// Who else may work in a directory.
#[derive(Clone, Copy, PartialEq, Eq, Debug)]
pub enum Hold {
    /// Nobody.
    Alone,
    /// Those that hold it so too, until the first call that changes a file: it takes the directory alone, and fails
    /// where another run has committed meanwhile.
    Shared,
    /// All: it is the caller who keeps them out.
    Unlocked,
}

/// What holds a directory.
#[derive(Drop)]
pub(crate) struct Custody {
    /// The directory, where it is open.
    pub(crate) dir: Option<File>,
    /// The Commit that was there when the directory was opened to be shared. While it is open its bytes stay.
    pub(crate) commit: Option<File>,
    pub(crate) state: State,
    /// How many seconds to wait for another run's end.
    wait: u32,
}

#[derive(Clone, Copy)]
pub(crate) enum State {
    /// Nobody else works in it, and no call has changed a file yet.
    Alone,
    Shared,
    /// Nobody else works in it.
    Changing,
    /// Each call fails.
    Lost(Reason),
}

/// How many times a second a lock is tried again.
const TRIES: u32 = 50;

impl Custody {
    /// Of a directory that is reached by its name, and that nobody else writes.
    pub(crate) fn unopened() -> Custody {
        Custody {
            dir: None,
            commit: None,
            state: State::Changing,
            wait: 0,
        }
    }

    /// Of a directory that can't be held.
    pub(crate) fn lost(reason: Reason) -> Custody {
        Custody {
            dir: None,
            commit: None,
            state: State::Lost(reason),
            wait: 0,
        }
    }

    /// Takes a directory in this way.
    pub(crate) fn of<R: Clock>(rt: &R, dir: File, hold: Hold, wait: u32) -> Custody
        ensures { result.dir ≡ Some dir }
    {
        let (taken, state) = match hold {
            Hold::Alone => (take(rt, &dir, true, wait), State::Alone),
            Hold::Shared => (take(rt, &dir, false, wait), State::Shared),
            Hold::Unlocked => (Ok(()), State::Alone),
        };
        let state = match taken {
            Ok(()) => state,
            Err(reason) => State::Lost(reason),
        };
        Custody {
            dir: Some(dir),
            commit: None,
            state,
            wait,
        }
    }

    /// Fails where the directory isn't held.
    pub(crate) fn is_held(&self) -> Result<(), Reason> {
        match self.state {
            State::Alone | State::Shared | State::Changing => Ok(()),
            State::Lost(reason) => Err(reason),
        }
    }

    /// Takes a shared directory alone. Meanwhile another run may have had it.
    pub(crate) fn take_alone<R: Clock>(&self, rt: &R) -> Result<(), Reason> {
        match &self.dir {
            Some(dir) => take(rt, dir, true, self.wait),
            None => Ok(()),
        }
    }
}

/// Locks a directory, and tries it again for so many seconds where another run holds it.
fn take<R: Clock>(rt: &R, dir: &File, alone: bool, wait: u32) -> Result<(), Reason> {
    for _ in 0..u64::from(wait) * u64::from(TRIES) {
        match try_to_take(dir, alone) {
            Err(Reason::Held) => thread::sleep(rt, Duration::from_millis(1_000 / u64::from(TRIES))),
            answer => return answer,
        }
    }
    try_to_take(dir, alone)
}

fn try_to_take(dir: &File, alone: bool) -> Result<(), Reason> {
    let tried = if alone {
        dir.try_lock()
    } else {
        dir.try_lock_shared()
    };
    match tried {
        Ok(()) => Ok(()),
        Err(TryLockError::WouldBlock) => Err(Reason::Held),
        Err(TryLockError::Error(e)) => Err(Reason::NoLock(e)),
    }
}
