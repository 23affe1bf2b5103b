//! The command `export`: all live documents of an index as CSV, a record for each point.
#![tactic(auto)]

mod order;
mod run;
mod sending;
mod texts;

pub use run::run_export;
