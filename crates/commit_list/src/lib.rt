//! The commit: the list of the segments that an index consists of, and the file that holds it.
//!
//! The body of the file is, with the greatest byte of each number first: the eight bytes `BKDPCOM2`; the
//! number of dimensions in 1 byte; the leaf size in 2; the next document number and the points given, 4
//! each; the next segment id in 8; the number of listed segments in 2; and for each of them its id and its
//! generation, 8 each, and its entries and live entries, 4 each. A body with `BKDPCOM1` has no field for the
//! points given, which are as many as the next number; such bodies are read and no longer written.
#![tactic(auto)]

mod commits;
mod files;
mod head;
mod laws;
mod listed;
mod reading;
mod writing;

pub use commits::Commit;
pub use files::{read_commit, write_commit};
pub use laws::{commits_are_unique, files_say_one_commit};
pub use listed::Listed;
pub use reading::{body_length, decode};
pub use writing::encode_commit;
