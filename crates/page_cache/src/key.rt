//! What a kept page is found by.

/// The segment and the number of a page.
#[derive(Clone, Copy, PartialEq, Eq, Hash, Debug, Drop)]
pub(crate) struct PageKey {
    pub(crate) id: u64,
    pub(crate) number: u32,
}
