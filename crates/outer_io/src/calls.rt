//! Which calls of an object in memory fail.
ghost use Rattle.std.specs.Prelude.{◌≡◌, ◌≤◌, ◌↔◌, None, MatchResult, IsErr, IsTrue};
ghost use Rattle.outer_io.specs.Counts.{RisesByOne};
ghost use Rattle.outer_io.specs.Faults.{HasCause};
ghost use Rattle.outer_io.specs.Plan.{CallFails, CallStops, plan_from, after_call};
ghost use Rattle.outer_io.specs.Calls.{plan_of, IsFate};

use crate::faults::{Failed, FaultCount};

/// Counts the calls of an object and those that failed. A call fails where its number, counted from 0, is in `fail`
/// or at least `stop`.
#[derive(Drop)]
pub(crate) struct Calls {
    fail: Vec<u64>,
    stop: Option<u64>,
    made: u64,
    faults: FaultCount,
}

/// What becomes of a call.
#[derive(Clone, Copy)]
pub(crate) enum Fate {
    /// It does its work, and doesn't fail by plan.
    Done,
    /// It fails, perhaps in the middle of its work.
    Torn,
    /// It fails and does nothing.
    Stopped,
}

impl Calls {
    pub(crate) fn new(fail: Vec<u64>) -> Calls
        ensures plan { plan_of result ≡ plan_from fail.items None }
        ensures faults { result.faults.raised ≡ 0 }
    {
        Calls {
            fail,
            stop: None,
            made: 0,
            faults: FaultCount::new(),
        }
    }

    /// Follows another plan from here on, and counts the calls from 0 again.
    pub(crate) fn plan(&mut self, fail: Vec<u64>, stop: Option<u64>)
        ensures plan { plan_of self.new ≡ plan_from fail.items stop }
        ensures faults { self.new.faults.raised ≡ self.old.faults.raised }
    {
        self.fail = fail;
        self.stop = stop;
        self.made = 0;
    }

    fn stops(&self) -> bool
        ensures { IsTrue result ↔ CallStops (plan_of self.now) }
    {
        self.stop.is_some_and(|first| first <= self.made)
    }

    fn fate(&self) -> Fate
        ensures { IsFate (plan_of self.now) result }
    {
        if self.stops() {
            Fate::Stopped
        } else if self.fail.contains(&self.made) {
            Fate::Torn
        } else {
            Fate::Done
        }
    }

    /// Counts a call and says what becomes of it. One that fails is still to be counted as such.
    pub(crate) fn next(&mut self) -> Fate
        ensures fate { IsFate (plan_of self.old) result }
        ensures plan { plan_of self.new ≡ after_call (plan_of self.old) }
        ensures faults { self.new.faults.raised ≡ self.old.faults.raised }
    {
        let fate = self.fate();
        self.made = self.made.saturating_add(1);
        fate
    }

    /// Counts a call, and fails it where it is to fail.
    pub(crate) fn count(&mut self) -> Result<(), Failed>
        ensures exact { IsErr result ↔ CallFails (plan_of self.old) }
        ensures plan { plan_of self.new ≡ after_call (plan_of self.old) }
        ensures raised { MatchResult result (λ _. self.new.faults.raised ≡ self.old.faults.raised)
            (λ _. RisesByOne self.old.faults.raised self.new.faults.raised) }
        ensures cause { HasCause self.old.faults.raised self.new.faults.raised result }
    {
        match self.next() {
            Fate::Done => Ok(()),
            Fate::Torn | Fate::Stopped => Err(self.fault()),
        }
    }

    /// Counts a call that failed.
    pub(crate) fn fault(&mut self) -> Failed
        ensures plan { plan_of self.new ≡ plan_of self.old }
        ensures raised { RisesByOne self.old.faults.raised self.new.faults.raised }
        ensures later { self.old.faults.raised ≤ self.new.faults.raised }
    {
        self.faults.raise()
    }
}
