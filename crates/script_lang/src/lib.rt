//! The script of the index: what its lines ask, and the texts that answer them.
#![tactic(auto)]

pub mod changes;
pub mod commands;
pub mod faults;
pub mod lines;
pub mod numbers;
pub mod queries;
pub mod reading;
pub mod replies;
pub mod words;

pub use commands::{Command, First, Positions};
pub use faults::{LineFault, Memory, Refusal};
pub use lines::first_line;
pub use reading::{read_first, read_line};
pub use replies::{put_deleted, put_doc, put_hits, put_line_fault, put_near, put_ok, put_refusal};
