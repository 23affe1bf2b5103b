//! The lines of a script, done one after the other on the index that a folder stores, each answer sent before the
//! next line is read, with a commit at the end.
#![tactic(auto)]

mod answers;
mod halt;
mod indexed;
mod language;
mod lines;
mod origin;

pub use halt::{Halt, status_of_lines};
pub use language::Language;
pub use lines::{Work, run_lines};
