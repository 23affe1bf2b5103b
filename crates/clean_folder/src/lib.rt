//! The command `clean`: takes away the files of an index's folder that its commit doesn't list.
#![tactic(auto)]

mod removing;
mod run;
mod texts;

pub use run::run_clean;
