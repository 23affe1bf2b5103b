//! What a command works with.

use segment_set::Settings;
use std::alloc::Global;

/// What a command works with: none of it changes what is answered.
#[derive(Drop)]
pub struct Work<'a, R, G> {
    pub rt: &'a R,
    pub alloc: Global,
    pub settings: Settings,
    pub gate: &'a G,
}
