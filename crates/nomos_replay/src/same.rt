//! Ends and lines that are compared.

ghost use Rattle.std.specs.Prelude.{◌≡◌, ◌↔◌, ℕ, IsTrue, Some};
ghost use Rattle.nomos_replay.specs.Stand.{says_fired};

use nomos_journal::line::{JournalLine, Version};
use nomos_legal::journal::End;
use nomos_legal::refusal::Refusal;

// Whether two causes are one.
fn is_same_cause(one: &Refusal, other: &Refusal) -> bool
    ensures { IsTrue result ↔ (one.now ≡ other.now) }
{
    match (one, other) {
        (Refusal::NoAccount(a), Refusal::NoAccount(b)) => a.as_bytes() == b.as_bytes(),
        (Refusal::NoProcess(a), Refusal::NoProcess(b)) => a.as_bytes() == b.as_bytes(),
        (Refusal::BadArguments(a), Refusal::BadArguments(b)) => a.as_bytes() == b.as_bytes(),
        (Refusal::NameTaken(a), Refusal::NameTaken(b)) => a.as_bytes() == b.as_bytes(),
        (
            Refusal::NoGas { name, has, needs },
            Refusal::NoGas {
                name: other,
                has: has_other,
                needs: needs_other,
            },
        ) => has == has_other && needs == needs_other && name.as_bytes() == other.as_bytes(),
        (Refusal::TooMuchGas, Refusal::TooMuchGas) => true,
        _ => false,
    }
}

/// Whether two ends are one.
pub(crate) fn is_same_end(one: &End, other: &End) -> bool
    ensures { IsTrue result ↔ (one.now ≡ other.now) }
{
    match (one, other) {
        (End::Deposited, End::Deposited) => true,
        (End::Committed, End::Committed) => true,
        (End::Blocked, End::Blocked) => true,
        (End::Aborted(pid, fault), End::Aborted(other, found)) => pid == other && fault == found,
        (End::Steps(steps), End::Steps(other)) => steps == other,
        (End::Refused(line, cause), End::Refused(other, why)) => {
            line == other && is_same_cause(cause, why)
        }
        _ => false,
    }
}

/// Whether two firings of version 2 are one.
pub(crate) fn is_same_firing(one: &JournalLine, other: &JournalLine) -> bool
    ensures { (pid : ℕ) → says_fired Version.Two one.now ≡ Some pid → (IsTrue result ↔ (one.now ≡ other.now)) }
{
    match (one, other) {
        (JournalLine::Worked(pid, gas), JournalLine::Worked(other, spent)) => {
            pid == other && gas == spent
        }
        (JournalLine::Fired(pid, form), JournalLine::Fired(other, found)) => {
            pid == other && form == found
        }
        _ => false,
    }
}
