//! Commands that answer the lines of an input: how each is run, and at which number of dimensions.
#![tactic(auto)]

mod dims;
mod runner;

pub use dims::{At, Lasting, at_dims};
pub use runner::{Command, run_command};
