//! Segments with their live bits, and what queries and merges read of them.
//!
//! A view of an index is a list of segments beside a buffer of entries that are in no segment yet. Here stand the
//! queries over both, which read leaf pages by way of the cache, and the gathering of the live entries of some
//! segments, from which a merge builds another.
#![tactic(auto)]

mod answers;
mod gathering;
mod laws;
mod marks;
mod nearby;
mod ordering;
mod pairs;
mod room;
mod segments;
mod surveys;
mod visiting;

pub use answers::Visit;
pub use gathering::gather;
pub use nearby::nearest;
pub use nearest_query::Nearest;
pub use segments::{Memory, Segments};
pub use surveys::{survey, survey_near};
pub use visiting::visit;
