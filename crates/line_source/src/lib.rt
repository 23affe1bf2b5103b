//! The lines of a source, one at a time: each as soon as it has come, before the source is asked again.
#![tactic(auto)]

mod faults;
mod held;
mod reader;

pub use faults::ReadFault;
pub use held::HeldBytes;
pub use reader::LineReader;
