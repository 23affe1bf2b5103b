//! The languages of scripts: how a line is read.

ghost use Rattle.std.specs.Prelude.{◌≤◌, ◌≢◌, None, Some, Err, IfOk};
ghost use Rattle.script_lang.specs.Seen.{IsWithinLimits, first_request_of, request_of};
ghost use Rattle.range_docs.specs.Seen.{AgreesOnRanges};
ghost use Rattle.script_run.specs.Languages.{read_in};

use range_docs::{RangeFault, read_range_first, read_range_line};
use script_lang::{Command, First, read_first, read_line};
use std::alloc::Global;

/// What the documents of a script are.
#[derive(Clone, Copy, PartialEq, Eq, Debug)]
pub enum Language {
    /// Points, as the commands `run` and `session` read them.
    Points,
    /// Ranges, each kept as a point.
    Ranges,
}

impl Language {
    /// What a line says where an index of `D` dimensions is there, or the first of its faults.
    #[tactic(auto, unfolding(crate::specs::Languages::read_in))]
    pub fn read_line<const D: usize>(
        self,
        alloc: Global,
        b: &[u8],
    ) -> Result<Command<D>, RangeFault>
        requires some { 1 ≤ D }
        requires few { D ≤ 8 }
        ensures reads { AgreesOnRanges request_of result (read_in self (Some D) b.now) }
        ensures limits { IfOk result (λ command. IsWithinLimits (request_of command)) }
    {
        match self {
            Language::Points => Ok(read_line(alloc, b)?),
            Language::Ranges => read_range_line(alloc, b),
        }
    }

    /// What a line says where no index is there, or the first of its faults. It takes no memory.
    #[tactic(auto, unfolding(crate::specs::Languages::read_in))]
    pub fn read_first(self, b: &[u8]) -> Result<First, RangeFault>
        ensures reads { AgreesOnRanges first_request_of result (read_in self None b.now) }
        ensures limits { IfOk result (λ first. IsWithinLimits (first_request_of first)) }
        ensures no_memory { result ≢ Err RangeFault.Memory }
    {
        match self {
            Language::Points => Ok(read_first(b)?),
            Language::Ranges => read_range_first(b),
        }
    }
}
