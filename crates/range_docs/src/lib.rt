//! Documents of ranges in the place of points: the lines of their scripts, and the boxes that find them.
//!
//! A range of `R` dimensions, 1 to 4, is kept as a point of `2 R` coordinates: its lower ends, and then its upper ends.
#![tactic(auto)]

mod changes;
pub mod faults;
mod laws;
mod queries;
pub mod ranges;
pub mod reading;

pub use faults::{RangeFault, put_range_fault};
pub use laws::{boxes_decide, boxes_have_answers, lines_name_ranges};
pub use ranges::{Question, around, inside, intersecting};
pub use reading::{read_range_first, read_range_line};
