//! Pages of 4,096 bytes: 4,064 bytes of payload and 32 of digest.
//!
//! The digest is the SHA-256 of the kind of the file, the file's number, the page's number and the payload.
//! So a page that was changed, cut, or put into another place is told from one that was written there.
//! A file number and a page number enter the digest with the greatest byte first.
//!
//! No call takes memory.
#![tactic(auto)]

mod digest;
mod laws;
mod page;

pub use laws::{pages_are_unique, payload_length};
pub use page::{PAGE_LEN, PAYLOAD_LEN, PageBytes, PageView, seal, seal_in_place};
