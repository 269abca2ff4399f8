//! The first two lines of a journal's text: its version, and the most firings that a batch may make.

ghost use Rattle.std.specs.Prelude.{List, MatchResult};
ghost use Rattle.nomos_script.specs.declared.item.ScriptItem.{ScriptItem};
ghost use Rattle.nomos_legal.specs.Ledger.{LedgerState};
ghost use Rattle.nomos_legal.specs.Legal.{IsLimit};
ghost use Rattle.nomos_journal.specs.declared.line.Version.{Version};
ghost use Rattle.nomos_replay.specs.Stand.{at_head, at_steps, before};
ghost use Rattle.nomos_replay.specs.Told.{nothing_told};
ghost use Rattle.nomos_replay.specs.mirror.JournalReading.{Carries, IsCounted, Stops};

use crate::error::ReplayError;
use crate::journal_lines::JournalLines;
use crate::line_kinds::{limit_in, version_in};
use nomos_journal::line::Version;
use nomos_types::accepted::Accepted;
use std::alloc::Global;

/// The version of the text, by its first line.
pub(crate) fn read_version(
    alloc: Global,
    accepted: &Accepted,
    source: &mut JournalLines<'_>,
) -> Result<Version, ReplayError>
    requires { IsCounted source.old }
    ensures read { (first : LedgerState) (all : List ScriptItem) → MatchResult result
        (λ v. Carries accepted.now first all source.old at_head source.new (at_steps v))
        (Stops accepted.now first all source.old at_head) }
    ensures counted { IsCounted source.new }
{
    accepted.know();
    let line = source.next_line(alloc, accepted)?;
    match version_in(line) {
        Some(version) => Ok(version),
        None => Err(ReplayError::BadLine(source.at)),
    }
}

/// The most firings that a batch may make, by the second line.
pub(crate) fn read_limit(
    alloc: Global,
    accepted: &Accepted,
    source: &mut JournalLines<'_>,
) -> Result<u32, ReplayError>
    requires { IsCounted source.old }
    ensures read { (first : LedgerState) (all : List ScriptItem) (v : Version) → MatchResult result
        (λ limit. IsLimit limit
        × Carries accepted.now first all source.old (at_steps v) source.new (before v (nothing_told first limit) all))
        (Stops accepted.now first all source.old (at_steps v)) }
    ensures counted { IsCounted source.new }
{
    accepted.know();
    let line = source.next_line(alloc, accepted)?;
    match limit_in(line) {
        Some(limit) => Ok(limit),
        None => Err(ReplayError::BadLine(source.at)),
    }
}
