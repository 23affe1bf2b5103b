//! Whether the files of a folder hold an index: every page of each file that the commit lists is read and looked at.
//! Nothing is changed, and no page is kept.
#![tactic(auto)]

mod checking;
mod findings;
mod informing;
mod reading;
mod texts;

pub use checking::{check, check_index, stored_entries};
pub use informing::info;
