//! A set of segments: documents that were added wait in a buffer and go to segments in files, each the canonical tree
//! of its entries; a deletion clears a live bit; segments of like size are merged (the Bkd-tree of Procopiuc,
//! Agarwal, Arge and Vitter, with the segments, live bits and merges of Apache Lucene's points). Queries look at what
//! is live now, or was when a snapshot was taken.
//!
//! A set with the files that it stands over is seen as an index, a plain list of documents (`specs/Seen`): each call
//! changes it as the list's own row says, and each query answers what a scan of the list answers.
#![tactic(auto)]

mod attach;
mod buffer;
mod build_plan;
mod changes;
mod choosing;
mod deletions;
mod faults;
mod flushing;
mod loading;
mod merges;
mod queries;
mod rewriting;
mod save;
mod set;
mod settings;
mod snapshots;
mod sweep;
mod writing;

pub use changes::MOST_BUFFERED;
pub use faults::{AddFault, BeginFault, EndFault, SnapFault};
pub use set::SegmentSet;
pub use settings::Settings;
