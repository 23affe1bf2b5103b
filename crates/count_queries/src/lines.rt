//! What a line of counts asks.

ghost use Rattle.std.specs.Prelude.{◌≤◌, Some};
ghost use Rattle.count_queries.specs.Asks.{read_counts};
ghost use Rattle.count_queries.specs.Seen.{IsReadLine};

use crate::wanted::{Wanted, read_wanted};
use point_codec::Point;
use point_counts::{GridFault, GridPlan};
use script_lang::LineFault;

/// What a line asks of an index of `D` dimensions.
#[derive(Debug, Drop)]
pub enum CountLine<const D: usize> {
    /// A line without words, or a note.
    Blank,
    /// How many live points lie in the box.
    Points { lo: Point<D>, hi: Point<D> },
    /// How many lie in each bucket of the plan.
    Grid(GridPlan<D>),
}

/// Why a line is refused. Its own fault comes before that of the grid that it asks for.
#[derive(Clone, Copy, PartialEq, Eq, Debug)]
pub enum CountFault {
    /// The line can't be read. Want of memory is none of these.
    Line(LineFault),
    /// There is no such grid.
    Grid(GridFault),
    Memory,
}

/// What a line asks of an index of `D` dimensions, or the first of its faults. It takes no memory.
pub fn read_count_line<const D: usize>(b: &[u8]) -> Result<CountLine<D>, CountFault>
    requires some { 1 ≤ D }
    requires few { D ≤ 8 }
    ensures { IsReadLine D result (read_counts (Some D) b.now) }
{
    match read_wanted(b) {
        Ok(Wanted::Blank) => Ok(CountLine::Blank),
        Ok(Wanted::Points { lo, hi }) => Ok(CountLine::Points { lo, hi }),
        Ok(
            Wanted::Grid {
                lo,
                hi,
                x,
                step_x,
                y,
                step_y,
            },
        ) => match GridPlan::new(lo, hi, x, step_x, y, step_y) {
            Ok(plan) => Ok(CountLine::Grid(plan)),
            Err(fault) => Err(CountFault::Grid(fault)),
        },
        Err(LineFault::Memory) => Err(CountFault::Memory),
        Err(fault) => Err(CountFault::Line(fault)),
    }
}
