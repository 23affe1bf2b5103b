//! The outside of the index: where its bytes come from, where they go, and where its files lie.
//!
//! Each object counts the calls on it that failed, and a failure is answered only by a call in which that count rose.
//! Objects in memory tell their bytes, so that clauses can speak of them; those over the system tell none, and are
//! the edge that is trusted.
#![tactic(auto)]

mod calls;
mod copy;
mod custody;
mod dir_folder;
mod faults;
mod file_bytes;
mod file_map;
mod file_name;
mod folder;
mod mem_folder;
mod mem_sink;
mod mem_source;
mod open_files;
mod reason;
mod sink;
mod source;
mod std_streams;
mod unsynced;

pub use custody::Hold;
pub use dir_folder::{Aside, DirFolder};
pub use faults::{Failed, ReadAll, WriteFault};
pub use file_name::FileName;
pub use folder::{Folder, Pages};
pub use mem_folder::MemFolder;
pub use mem_sink::MemSink;
pub use mem_source::MemSource;
pub use reason::{Call, Reason};
pub use sink::{Sink, write_all};
pub use source::{Source, read_all};
pub use std_streams::{StdSink, StdSource};
