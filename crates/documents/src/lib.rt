//! Documents in a list: which of them a shape has, and which are nearest to a point. What a scan of the list answers is
//! what every other way of keeping the documents has to answer.
#![tactic(auto)]

mod held;
mod laws;
mod scan;

pub use held::{HeldDocument, Memory};
pub use laws::{
    docs_added, docs_counted, docs_exist, docs_hits, docs_in_any_order, docs_kept, docs_live,
    docs_nearest, one_list, permutations_by_totals,
};
pub use scan::{has_some, scan_hits, scan_nearest};
