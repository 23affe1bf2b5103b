//! What the files of a folder hold: no index, an index with its documents, or nothing that is defined. Beside it stand
//! which files are kept, on which alone this depends, and how many pages opening reads.
//!
//! The crate has the words that the set of segments, the session and the program share for the files, and their laws.
#![tactic(auto)]

mod laws;
mod listed;

pub use laws::{
    commit_holds_index, contents_by_id, damage_is_undefined, docs_by_segment, held_heads_and_sets,
    index_is_stored, kept_after_writes, kept_files_are_alike, numbers_are_alone, one_holding,
    one_opening, one_stored, segments_may_be_listed, segments_stay, stored_is_kept,
};
pub use listed::lists_file;
