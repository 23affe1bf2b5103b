//! The names of the files of a set of segments: which the set took over or began to write and hasn't removed, and
//! fresh ones for further files. A name that is in the list is never given again, so no file that something may need
//! is written over.
#![tactic(auto)]

mod free;
mod laws;
mod names;

pub use laws::{names_are_apart, names_join, names_kept, names_of_lists};
pub use names::{FileNames, Memory};
