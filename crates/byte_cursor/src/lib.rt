//! Reading and writing the fields of a file format: numbers with the greatest byte first, runs of bytes,
//! and vints, which are numbers in groups of seven bits.
//!
//! A [`Cursor`] goes over borrowed bytes and takes one field after another. The `put_` functions append
//! fields to a vector. What a put appended is taken again, whatever follows: `laws` says so for vints,
//! and for the other fields both directions have the one spelling in their contracts.
#![tactic(auto)]

mod bytes;
mod cursor;
mod cuts;
mod laws;
mod puts;

pub use bytes::Bytes;
pub use cursor::{Cursor, Short, VintFault};
pub use cuts::cut;
pub use laws::{numbers_are_unique, vints_are_spelled, vints_are_unique, vints_exist};
pub use puts::{Memory, put_slice, put_u8, put_u16, put_u32, put_u64, put_vint};
