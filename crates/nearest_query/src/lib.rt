//! The k nearest documents of segments and a buffer, found best first: nodes wait in a queue by their least distance,
//! and a leaf is read only where it may hold one of the k.
#![tactic(auto)]

mod answer;
mod candidates;
mod dead;
mod few;
mod frontier;
mod laws;
mod leaves;
mod many;
mod outwards;
mod query;
mod queue;
mod search;
mod survey;

pub use answer::Nearest;
pub use laws::one_nearest;
pub use query::nearest;
pub use survey::survey_near;
