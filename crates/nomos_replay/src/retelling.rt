//! What a legal journal tells that is there: its report and its text, by a replay of its text in version 1.

ghost use Rattle.std.specs.Prelude.{◌≡◌, ◌<◌, ◌^◌, IfOk, length};
ghost use Rattle.nomos_legal.specs.Legal.{IsLegal, IsLegalFrom};
ghost use Rattle.nomos_legal.specs.NextNumbers.{HasNumbered};
ghost use Rattle.nomos_legal.specs.StandsFor.{StandsFor};
ghost use Rattle.nomos_journal.specs.JournalText.{IsTextOf};
ghost use Rattle.nomos_journal.specs.declared.line.Version.TheVariants as version;
ghost use Rattle.nomos_report.specs.Reported.{IsReport, IsReportFrom};
ghost use Rattle.nomos_replay.specs.mirror.Items.{ArePapersOf};

use crate::answering::{AskedOfText, answer};
use crate::error::ReplayError;
use crate::version_one::text_in_one;
use nomos_deeds::undo::Undo;
use nomos_ledger::ledger::Ledger;
use nomos_legal::journal::Journal;
use nomos_script::script::Script;
use nomos_types::accepted::Accepted;
use nomos_walk::papers::{Papers, WantedTexts};
use std::alloc::{AllocError, Global};

// Want of memory, where it is the one cause that may come.
fn no_memory(why: ReplayError) -> AllocError
    requires { why ≡ ReplayError.NoMemory }
{
    match why {
        ReplayError::NoMemory => AllocError,
        _ => unreachable!(),
    }
}

// What is written of a journal that is legal from a ledger. Its text is read, so nothing but memory may be wanting.
fn papers_by<M: Undo + Drop>(
    alloc: Global,
    accepted: &Accepted,
    from: Ledger<M>,
    asked: AskedOfText<'_>,
    journal: &Journal,
) -> Result<Papers, AllocError>
    requires stands { StandsFor accepted.now from }
    requires numbers { HasNumbered (2 ^ 31) from.state }
    requires accounts { length from.accounts < 2 ^ 31 }
    requires legal { IsLegalFrom accepted.now from asked.script.now journal.now }
    ensures { IfOk result
        (ArePapersOf accepted.now from asked.entry.script.now journal.now asked.entry.wanted) }
{
    // Where the items are read it is known how many they are and how they are written, and where an account is, that
    // its ledger is one.
    accepted.know();
    let _items = asked.script.items();
    let _account = from.account(0);
    let text = text_in_one(alloc, accepted.unit(), journal)?;
    match answer(alloc, accepted, from, asked, &text) {
        Ok(whole) => Ok(whole.papers),
        Err(why) => Err(no_memory(why)),
    }
}

/// The report of a script by a journal of it that is legal from a ledger (docs/TEXTS.md, "The report"). The ledger
/// stands for the program, and each of its next numbers, and the number of its accounts, is at most some 2^31.
pub fn report_from<M: Undo + Drop>(
    alloc: Global,
    accepted: &Accepted,
    from: Ledger<M>,
    script: &Script,
    journal: &Journal,
) -> Result<Vec<u8>, AllocError>
    requires stands { StandsFor accepted.now from }
    requires numbers { HasNumbered (2 ^ 31) from.state }
    requires accounts { length from.accounts < 2 ^ 31 }
    requires legal { IsLegalFrom accepted.now from script.now journal.now }
    ensures { IfOk result (λ text. IsReportFrom accepted.now from script.now journal.now text.items) }
{
    let wanted = WantedTexts {
        report: true,
        text: false,
        result: false,
    };
    let papers = papers_by(
        alloc,
        accepted,
        from,
        AskedOfText { script, wanted },
        journal,
    )?;
    match papers.report.into_text() {
        Some(report) => Ok(report),
        None => unreachable!(),
    }
}

/// The report of a script by a journal of it that is legal: see `report_from`.
pub fn report<M: Undo + Drop>(
    alloc: Global,
    accepted: &Accepted,
    script: &Script,
    journal: &Journal,
) -> Result<Vec<u8>, AllocError>
    requires { IsLegal accepted.now script.now journal.now }
    ensures { IfOk result (λ text. IsReport accepted.now script.now journal.now text.items) }
{
    report_from(alloc, accepted, Ledger::<M>::empty(alloc), script, journal)
}

/// The text in version 2 of a journal of a script that is legal.
pub fn journal_text<M: Undo + Drop>(
    alloc: Global,
    accepted: &Accepted,
    script: &Script,
    journal: &Journal,
) -> Result<Vec<u8>, AllocError>
    requires { IsLegal accepted.now script.now journal.now }
    ensures { IfOk result (λ text. IsTextOf version.Two accepted.now script.now journal.now text.items) }
{
    let wanted = WantedTexts {
        report: false,
        text: true,
        result: false,
    };
    let from = Ledger::<M>::empty(alloc);
    let papers = papers_by(
        alloc,
        accepted,
        from,
        AskedOfText { script, wanted },
        journal,
    )?;
    match papers.text.into_text() {
        Some(text) => Ok(text),
        None => unreachable!(),
    }
}
