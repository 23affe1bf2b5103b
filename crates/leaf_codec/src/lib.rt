//! Leaves of a point index: a list of entries, spelled in bytes with shared prefixes (after Lucene's leaf blocks of
//! points).
//!
//! The spelling is a function of the entries, and no bytes spell two lists of them (`one_leaf`).
#![tactic(auto)]

mod byte_set;
mod dimensions;
mod encode;
mod guess;
mod in_order;
mod keys;
mod laws;
mod numbers_out;
mod order;
mod read_numbers;
mod read_parts;
mod read_sorted;
mod runs;
mod size;
mod view;
mod words;
mod write_keys;
mod write_numbers;

pub use encode::{encode_entries, encode_leaf};
pub use laws::{one_leaf, sorted_in_any_order};
pub use order::{arrange, by_leaf_order};
pub use size::greatest_leaf;
pub use view::LeafView;
