//! Tests: what journals tell, by one worker and by several, and which are refused.
ghost use Rattle.nomos_workers.specs.Crews.{IsCrew};

use crate::auction_script::{TWO_BIDS, TWO_BIDS_REPORT};
use crate::contracts::HALVES;
use crate::told_scripts::{accepted_of, answer, expect_bytes, replayed, script_of, tell, tell_by};
use nomos_machine::policy::Policy;
use nomos_words::load::auction_text;
use nomos_workers::batch::Crew;
use std::alloc::{AllocError, Global};
use std::process::Abort;
use std::sync::Wait;
use std::test::Fail;
use std::thread::Threads;

const ONCE: &str = "deposit u 1
exec u t(;)
";

const JOURNAL: &str = "nomos-journal 2
steps 1000000
line 1
end deposited
line 2
1 spawn
1 spawn
1 spawn
2 pay
2 close
3 pay
3 close
4 get
4 get
4 work 2
4 wait
4 wait
4 close
1 wait
1 close
end committed
";

// The text of a journal says each firing with its instruction, and gives the report again.
#[test]
fn journals_are_kept_and_replayed(rt: HostRuntime) -> Result<(), Fail> {
    let told = tell_by(&rt, (HALVES, ONCE), Policy::First);
    expect_bytes(&rt, &told.journal, JOURNAL)?;
    let report = replayed(&rt, (HALVES, ONCE), JOURNAL.as_bytes())?;
    expect_bytes(&rt, &report, str::from_utf8(&told.report)?)
}

const OLDER_JOURNAL: &str = "nomos-journal 1
steps 1000000
line 1
end deposited
line 2
1
1
1
2
2
3
3
4
4
4
4
4
4
1
1
end committed
";

// Fails unless the journal is refused for this cause.
fn expect_refusal<R: Abort + AllocGlobal>(rt: &R, found: &[u8], cause: &str) -> Result<(), Fail> {
    let wanted = format!(in rt.alloc(); "journal refused {cause}\n")?;
    expect_bytes(rt, found, &wanted)
}

// The text with another line in the place of the one of this number.
fn with_line(alloc: Global, text: &str, at: usize, line: &str) -> Result<String, AllocError> {
    let mut changed = String::new(alloc);
    for (place, old) in text.lines().enumerate() {
        changed.push_str(if place + 1 == at { line } else { old })?;
        changed.push('\n')?;
    }
    Ok(changed)
}

// The number of a line, the line that stands there instead, and why the journal is refused.
const SPOILED: [(usize, &str, &str); 34] = [
    (1, "", "BadLine 1"),
    (1, "nomos-journal 3", "BadLine 1"),
    (1, "nomos-journal 1", "BadLine 6"),
    (2, "steps 0", "BadLine 2"),
    (2, "steps 01000000", "BadLine 2"),
    (2, "steps 10000001", "BadLine 2"),
    (2, "steps 14", "BadLine 20"),
    (3, "line 01", "BadLine 3"),
    (3, "line 2", "BadLine 3"),
    (3, "line 4294967297", "BadLine 3"),
    (4, "1 spawn", "BadLine 4"),
    (
        4,
        "end committed",
        "WrongEnd 4 kept committed found deposited",
    ),
    (
        4,
        "end refused at 1 TooMuchGas",
        "WrongEnd 4 kept refused at 1 TooMuchGas found deposited",
    ),
    (5, "line 3", "BadLine 5"),
    (
        6,
        "end committed",
        "WrongEnd 6 kept committed found running",
    ),
    (9, "2", "BadLine 9"),
    (9, "02 pay", "BadLine 9"),
    (9, "2  pay", "BadLine 9"),
    (9, "2 pay ", "BadLine 9"),
    (9, "4294967298 pay", "BadLine 9"),
    (9, "1 pay", "NotEnabled 9 1"),
    (9, "5 pay", "NotEnabled 9 5"),
    (9, "2 close", "WrongFiring 9 2"),
    (9, "2 work 2", "WrongFiring 9 2"),
    (15, "4 work", "BadLine 15"),
    (15, "4 work 02", "BadLine 15"),
    (15, "4 work 18446744073709551616", "BadLine 15"),
    (15, "4 work 18446744073709551615", "WrongFiring 15 4"),
    (15, "4 work 1", "WrongFiring 15 4"),
    (21, "1 close", "NotEnabled 21 1"),
    (21, "end running", "BadLine 21"),
    (21, "end committed\r", "BadLine 21"),
    (
        21,
        "end blocked",
        "WrongEnd 21 kept blocked found committed",
    ),
    (21, "end committed\nend committed", "BadLine 22"),
];

// The first line that spoils a journal, with its cause, where one line is another one.
#[test]
fn journals_are_refused(rt: HostRuntime) -> Result<(), Fail> {
    for (at, line, cause) in SPOILED {
        let journal = with_line(rt.alloc(), JOURNAL, at, line)?;
        let answer = replayed(&rt, (HALVES, ONCE), journal.as_bytes())?;
        expect_refusal(&rt, &answer, cause)?;
    }
    Ok(())
}

// Fails unless a journal is refused for every cut of it that is shorter than so many bytes: behind the line feeds that
// are left a line is missing, or has none of its own.
fn expect_cut<R: Abort + AllocGlobal>(
    rt: &R,
    texts: (&str, &str),
    journal: &[u8],
    below: usize,
) -> Result<(), Fail> {
    let accepted = accepted_of(rt, texts.0);
    let script = script_of(rt, texts.1);
    let mut line = 1u32;
    for length in 0..below {
        if length >= journal.len() {
            break;
        }
        let found = answer(rt.alloc(), &accepted, &script, &journal[..length])?;
        let cause = format!(in rt.alloc(); "BadLine {line}")?;
        expect_refusal(rt, &found, &cause)?;
        if journal[length] == b'\n' {
            line = line.saturating_add(1);
        }
    }
    Ok(())
}

// Journals that are cut anywhere.
#[test]
fn journals_are_refused_that_are_cut(rt: HostRuntime) -> Result<(), Fail> {
    expect_cut(&rt, (HALVES, ONCE), JOURNAL.as_bytes(), 300)?;
    let texts = (str::from_utf8(auction_text())?, TWO_BIDS);
    let told = tell_by(&rt, texts, Policy::First);
    expect_cut(&rt, texts, &told.journal, 300)
}

// What stands behind the last line of a journal spoils it, byte by byte, and so does a line feed that is missing.
#[test]
fn journals_end_with_their_last_line(rt: HostRuntime) -> Result<(), Fail> {
    for behind in ["\n", "\0", "\u{7f}", "end committed"] {
        let mut journal = String::from_str(rt.alloc(), JOURNAL)?;
        journal.push_str(behind)?;
        let answer = replayed(&rt, (HALVES, ONCE), journal.as_bytes())?;
        expect_refusal(&rt, &answer, "BadLine 22")?;
    }
    Ok(())
}

// Of a script without items the journal has its head alone.
#[test]
fn journals_may_be_empty(rt: HostRuntime) -> Result<(), Fail> {
    let told = tell_by(&rt, ("", ""), Policy::First);
    expect_bytes(&rt, &told.journal, "nomos-journal 2\nsteps 1000000\n")?;
    expect_bytes(&rt, &told.report, "accepted\nunit 1\n")?;
    let older = b"nomos-journal 1\nsteps 10000000\n";
    let report = replayed(&rt, ("", ""), older)?;
    expect_bytes(&rt, &report, "accepted\nunit 1\n")
}

// A journal of the older version, which says no instructions, gives the same report.
#[test]
fn older_journals_are_replayed(rt: HostRuntime) -> Result<(), Fail> {
    let report = replayed(&rt, (HALVES, ONCE), OLDER_JOURNAL.as_bytes())?;
    let told = tell_by(&rt, (HALVES, ONCE), Policy::First);
    expect_bytes(&rt, &report, str::from_utf8(&told.report)?)
}

// Fails unless the journal of a run by these workers gives the report of that run again.
fn expect_again(
    rt: &(impl Abort + AllocGlobal + Threads + Wait + Sync),
    workers: u32,
) -> Result<(), Fail>
    requires { IsCrew (Crew.Many workers) }
{
    let auction = str::from_utf8(auction_text())?;
    let told = tell(rt, (auction, TWO_BIDS), Crew::Many(workers), 1_000_000);
    let report = replayed(rt, (auction, TWO_BIDS), &told.journal)?;
    expect_bytes(rt, &report, str::from_utf8(&told.report)?)
}

// Whatever turns several workers get, the journal gives the report of the run again.
#[test]
fn several_workers_leave_journals(rt: HostRuntime) -> Result<(), Fail> {
    expect_again(&rt, 2)?;
    expect_again(&rt, 4)?;
    expect_again(&rt, 16)?;
    let auction = str::from_utf8(auction_text())?;
    let told = tell_by(&rt, (auction, TWO_BIDS), Policy::First);
    expect_bytes(&rt, &told.report, TWO_BIDS_REPORT)
}
