//! Pages on demand: the cache of the pages of segment files, and files that are read whole.
//!
//! A page is read by one call on the folder and digested once; a page that was found to be for its place is
//! kept as such and never digested again. The cache keeps the pages that were used last, up to its room.
//! Only pages of segment files are kept.
//!
//! Where bytes are out of their format the answer is a [`Damage`], which carries what shows it. Reading changes
//! no file.
#![tactic(auto)]

mod bodies;
mod cache;
mod faults;
mod first_page;
mod kept;
mod kept_page;
mod key;
mod laws;
mod leaf_part;
mod note;
mod read;

pub use bodies::{pages_for, pages_of, put_pages, seal_from};
pub use cache::PageCache;
pub use faults::{Damage, Memory, PageFault};
pub use first_page::FirstPage;
pub use laws::{
    agreement_is_of_kept_files, bodies_of_one_length_are_equal, pages_put_behind, pages_that_agree,
    payloads_join,
};
pub use note::LeafNote;
pub use page_file::{PAGE_LEN, PAYLOAD_LEN};
pub use read::read_payloads;
