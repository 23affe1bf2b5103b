//! How a run of the program ended: its status with its number and its line, why it stopped before its end, and
//! answers that are sent. Each command ends by these words.
#![tactic(auto)]

mod sending;
mod status;
mod stop;

pub use sending::send;
pub use status::{Memory, Status, code, status_line};
pub use stop::{Stop, status_of, stopped};

/// The greatest input, in bytes.
pub const MAX_INPUT: u64 = 536_870_912;
