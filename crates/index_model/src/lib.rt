//! An index as a list of documents: its state, what each line of a script does to it, and a session that keeps it in
//! memory. Every other session has to answer as this one.
#![tactic(auto)]

mod held;
mod queries;
mod session;

pub use session::{Applied, ListSession};
