//! Why lines that come from a source are not done to their end, and with which status they end.

ghost use Rattle.std.specs.Prelude.{◌≡◌};
ghost use Rattle.script_run.specs.Halted.{halt_result, status_of_lines};

use run_status::{Status, Stop, status_of};

/// Why the lines of a source are not done to their end.
#[derive(Debug, Drop)]
pub enum Halt {
    /// A call on the source failed, so no further line could be read.
    Source,
    /// A line, or the commit at the end, could not be done.
    Stopped(Stop),
}

/// How lines that come from a source end where the work on them ends so.
pub(crate) fn halt_result<T>(done: Result<T, Stop>) -> Result<T, Halt>
    ensures { result ≡ halt_result done }
{
    match done {
        Ok(known) => Ok(known),
        Err(stop) => Err(Halt::Stopped(stop)),
    }
}

/// The status of lines that were all answered, of which so many were refused, or that ended before.
pub fn status_of_lines(done: Result<u64, Halt>) -> Status
    ensures { result ≡ status_of_lines done }
{
    match done {
        Ok(refused) => status_of(Ok(refused)),
        Err(Halt::Source) => Status::SourceFault,
        Err(Halt::Stopped(stop)) => status_of(Err(stop)),
    }
}
