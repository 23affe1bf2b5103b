//! The program over its streams and its folder.
#![tactic(auto)]

mod check;
mod loads;
mod program;
mod scripts;

pub use check::run_check;
pub use explain_queries::run_explain;
pub use loads::{run_generate, run_load};
pub use program::run;
pub use run_status::{MAX_INPUT, Memory, Status, code, status_line};
pub use scripts::{run_ranges, run_script, run_session};
