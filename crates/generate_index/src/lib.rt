//! A generated index: drawn documents, of which every tenth is deleted, and what drawn queries find in it.
#![tactic(auto)]

mod drawing;
mod generator;
mod texts;

pub use generator::generate;
