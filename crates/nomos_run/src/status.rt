//! The status of a run.
ghost use Rattle.std.specs.Prelude.{◌≡◌};
ghost use Rattle.std.specs.List.{list_all};
ghost use Rattle.nomos_report.specs.Reported.{is_well, run_status};

use nomos_legal::journal::{End, Entry};

// Whether what ended so was carried out: a deposit, or a batch that stays.
fn is_well(end: &End) -> bool
    ensures { result ≡ is_well end.now }
{
    matches!(end, End::Deposited | End::Committed)
}

// Whether all was carried out.
fn are_well(entries: &[Entry]) -> bool
    ensures { result ≡ list_all (λ e. is_well e.end) entries.now }
{
    entries.iter().all(|entry| is_well(&entry.end))
}

/// The status of a run with these entries (docs/TEXTS.md, "Words and statuses"): 0 where each was carried out, and 3
/// where one was not.
pub fn run_status(entries: &[Entry]) -> u8
    ensures { result ≡ run_status entries.now }
{
    if are_well(entries) { 0 } else { 3 }
}
