//! What a line says that was read.

ghost use Rattle.std.specs.Prelude.{◌≡◌, ◌≢◌, ◌↔◌, ℕ, IsTrue, MatchOption, MatchResult};
ghost use Rattle.nomos_legal.specs.Legal.{IsLimit};
ghost use Rattle.nomos_legal.specs.declared.journal.End.{End};
ghost use Rattle.nomos_journal.specs.declared.line.Version.{Version};

use nomos_ir::limits::HIGHEST_LIMIT;
use nomos_journal::line::{JournalLine, Version};
use nomos_legal::journal::End;

/// The version that a first line says.
pub(crate) fn version_in(line: JournalLine) -> Option<Version>
    ensures { MatchOption result ((v : Version) → line ≢ JournalLine.Head v) (λ v. line ≡ JournalLine.Head v) }
{
    match line {
        JournalLine::Head(version) => Some(version),
        _ => None,
    }
}

/// The most firings of a batch that a line says, where a journal may allow them.
pub(crate) fn limit_in(line: JournalLine) -> Option<u32>
    ensures { MatchOption result ((n : ℕ) → IsLimit n → line ≢ JournalLine.Steps n)
        (λ n. IsLimit n × (line ≡ JournalLine.Steps n)) }
{
    match line {
        JournalLine::Steps(limit) if 1 <= limit && limit <= HIGHEST_LIMIT => Some(limit),
        _ => None,
    }
}

/// Whether a line names this line of the script.
pub(crate) fn names_line(line: JournalLine, at: u32) -> bool
    ensures { IsTrue result ↔ (line ≡ JournalLine.Line at) }
{
    match line {
        JournalLine::Line(named) => named == at,
        _ => false,
    }
}

/// The end that a line says, or the line itself.
pub(crate) fn end_in(line: JournalLine) -> Result<End, JournalLine>
    ensures { MatchResult result (λ e. line ≡ JournalLine.End e)
        (λ other. (other ≡ line) × ((e : End) → line ≢ JournalLine.End e)) }
{
    match line {
        JournalLine::End(end) => Ok(end),
        other => Err(other),
    }
}
