//! Why a line of ranges is refused.

ghost use Rattle.std.specs.Prelude.{◌≡◌, ◌≢◌, ◌++◌, OnOk, OnErr};
ghost use Rattle.range_docs.specs.Refusals.{fault_of};
ghost use Rattle.range_docs.specs.Replies.{range_fault_text};

use script_lang::replies::refuse;
use script_lang::{LineFault, Memory, put_line_fault};

/// Why a line cannot be read. Of several faults it is the first, but for `Memory`, which may come anywhere.
#[derive(Clone, Copy, PartialEq, Eq, Debug)]
pub enum RangeFault {
    /// A fault that a line of points may have. It is never want of memory.
    Line(LineFault),
    /// A lower end is greater than its upper end. This comes behind a word that is no number.
    NotRange,
    /// The index has an odd number of dimensions. This comes before all else, and a blank line has it never.
    NotRanges,
    Memory,
}

impl From<LineFault> for RangeFault {
    ghost from_gives = { λ line f. f ≡ fault_of line };

    fn from(fault: LineFault) -> RangeFault {
        match fault {
            LineFault::Memory => RangeFault::Memory,
            _ => RangeFault::Line(fault),
        }
    }
}

/// Appends why a line cannot be read. After want of memory the text is as before.
#[tactic(auto, unfolding(crate::specs::Replies::range_fault_text))]
pub fn put_range_fault(out: &mut Vec<u8>, line: u64, f: &RangeFault) -> Result<(), Memory>
    requires refused { f.now ≢ RangeFault.Memory }
    requires by_line { f.now ≢ RangeFault.Line LineFault.Memory }
    ensures ok { OnOk result (out.new.items ≡ out.old.items ++ range_fault_text line f.now) }
    ensures memory { OnErr result (out.new.items ≡ out.old.items) }
{
    match f {
        RangeFault::Line(fault) => put_line_fault(out, line, fault),
        RangeFault::NotRange => refuse(out, line, &[b"not a range"]),
        RangeFault::NotRanges => refuse(out, line, &[b"not ranges"]),
        RangeFault::Memory => unreachable!(),
    }
}
