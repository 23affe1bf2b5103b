//! Whether numbers stand where they may: live in one segment only and below the next number, and with few enough
//! entries of which none stands twice.
#![tactic(auto)]

mod doubles;
mod found;
mod laws;
mod marks;
mod placing;
mod told;

pub use doubles::doubled;
pub use found::tally;
pub use laws::{fits_docs, none_twice};
pub use placing::misplaced;
use std::alloc::AllocError;
pub use told::Misplaced;

/// The error of a call for which no memory could be had.
pub type Memory = AllocError;
