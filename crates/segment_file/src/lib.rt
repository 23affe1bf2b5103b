//! Files of segments: what is written once and then read in place.
//!
//! The first page is the head: how many dimensions, entries and leaves there are, and how long the index is. The
//! index follows, a body over whole pages, and then the leaf pages. A segment is opened by its head and its
//! index; a leaf page is read when it is asked for, by way of the cache, and a leaf is read in place there.
//!
//! Beside a segment stands the file of its live bits, one for each generation.
#![tactic(auto)]

mod fields;
mod head;
mod laws;
mod leaf;
mod live;
mod open;
mod payloads;
mod pieces;
mod read;
mod sink;
mod write;

pub use head::SegmentHead;
pub use laws::{one_head, one_live_set, one_segment, segments_are_counted};
pub use leaf::{bad_leaf, leaf_in, load_leaf};
pub use live::{read_live, write_live};
pub use open::open_segment;
pub use read::{append_entries, numbers_without_entry, read_entries};
pub use write::write_segment;
