//! What is told of a number.

/// A number that is live where it must not be.
#[derive(Clone, Copy, PartialEq, Eq, Debug)]
pub enum Misplaced {
    /// It is not below the next number.
    NotGiven(u32),
    /// It is live in two segments.
    Doubled(u32),
}
