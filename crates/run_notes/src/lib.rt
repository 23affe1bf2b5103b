//! Notes for whoever mistypes: which word, line or record was refused, and what is allowed there. They decide nothing.
#![tactic(auto)]

mod examples;
mod forms;
mod kept;
mod polygons;
mod refused;
mod shown;
mod tables;
mod words;

pub use kept::Kept;
pub use refused::{Scene, line_note};
pub use tables::table_note;
pub use words::usage_note;
