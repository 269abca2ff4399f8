//! What a journal is read for.

use nomos_journal::line::Version;
use nomos_types::accepted::Accepted;
use nomos_walk::papers::WantedTexts;
use std::alloc::Global;

/// What a journal is read for: an accepted program, the version of the text, and what is to be written of it.
#[derive(Clone, Copy)]
pub(crate) struct Trial<'a> {
    pub(crate) alloc: Global,
    pub(crate) accepted: &'a Accepted,
    pub(crate) version: Version,
    pub(crate) wanted: WantedTexts,
}
