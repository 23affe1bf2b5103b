//! A place in the build at which a caller may look on.

use std::marker::Sync;

/// Is passed by each half of a node that runs beside its other half, before it does anything else. It promises only
/// that
/// `pass` returns, and is shared by threads. Nothing that is built depends on it.
pub trait Gate: Sync {
    /// `piece` is 0 in the left half and 1 in the right one.
    fn pass(&self, piece: u32);
}

/// A gate that keeps no half waiting.
#[derive(Clone, Copy, Debug)]
pub struct OpenGate;

impl Gate for OpenGate {
    fn pass(&self, _piece: u32) {}
}
