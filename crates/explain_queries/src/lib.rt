//! Queries explained: how much of the stored segments each one tests and touches, and how much it finds. Nothing is
//! stored.
#![tactic(auto)]

mod answering;
mod explain;
mod run;
mod texts;

pub use explain::{explain_first, explain_line};
pub use run::run_explain;
