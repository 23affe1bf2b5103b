//! The live documents of a segment: a set of numbers, kept as bits, and the body of the file that holds it.
//!
//! A body is, with the greatest byte of each number first: the eight bytes `BKDPLIV1`; the number of the
//! segment and the generation, 8 bytes each; the base, the span and the count of live numbers, 4 bytes each;
//! and then one bit for each number from the base on, the lowest bit of each byte first, filled with zero
//! bits to a whole byte. Each set has one body for a segment and a generation, and nothing else is read.
#![tactic(auto)]

mod bits;
mod body;
mod docs;
mod fault;
mod front;
mod laws;
mod live;
mod words;

pub use fault::{BitsFault, Memory};
pub use front::body_len;
pub use laws::{bodies_are_unique, clearing_takes_one_out, none_is_live};
pub use live::LiveBits;
