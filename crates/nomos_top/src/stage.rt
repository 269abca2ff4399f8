//! By what a call runs scripts.

use std::alloc::Global;

/// By what a call runs scripts: the runtime that makes threads and lets them wait, the gate that workers call before
/// they evaluate, and where memory is taken.
#[derive(Drop)]
pub(crate) struct CallStage<'a, G, R> {
    pub(crate) rt: &'a R,
    pub(crate) gate: &'a G,
    pub(crate) alloc: Global,
}
