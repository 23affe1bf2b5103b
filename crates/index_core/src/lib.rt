//! A session: it does one command after the other on an index that is kept in a folder. With the files of its folder
//! it is seen as an index, a plain list of documents, and each command does to that what the list's own table says.
//!
//! A commit is written beside the one before and renamed, so what is kept is always that of the last commit that was
//! done, or of the one in flight.
#![tactic(auto)]

mod changes;
mod commits;
mod direct;
mod merges;
mod queries;
mod reopening;
mod replies;
mod session;
mod work;

pub use index_model::Applied;
pub use segment_set::Settings;
pub use session::Session;
pub use work::Work;
