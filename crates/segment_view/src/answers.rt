//! What a visit answers.

use bkd_reader::Cost;

/// The documents that a shape has, and what was met on the way.
#[derive(Drop)]
pub struct Visit {
    /// The numbers of the documents, each once and ascending.
    pub docs: Vec<u32>,
    /// What the walks of all segments met together.
    pub cost: Cost,
}
