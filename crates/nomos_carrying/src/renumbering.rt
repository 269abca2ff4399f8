//! What is due where a saved ledger is renumbered.

ghost use Rattle.std.specs.Prelude.{◌≢◌, IfErr, IfOk, IfSome, Some};
ghost use Rattle.nomos_answers.specs.Finding.{IsBare};
ghost use Rattle.nomos_answers.specs.Outside.{FaultCounts, source_state};
ghost use Rattle.nomos_answers.specs.SnapshotLines.{unsaved_line};
ghost use Rattle.nomos_legal.specs.Ledger.{AreNamed};
ghost use Rattle.nomos_legal.specs.StandsFor.{StandsFor};
ghost use Rattle.nomos_snapshot.specs.ToldLines.{AreSorted, parts_ledger};
ghost use Rattle.nomos_types.specs.Acceptance.{Acceptance};
ghost use Rattle.nomos_words.specs.Options.{usual_limit};
ghost use Rattle.nomos_carrying.specs.CarrySources.{IsRenumberDueFor};
ghost use Rattle.nomos_carrying.specs.mirror.Renumbering.{FindsText, HasParts, HasRenumbered, IsDueOf, KeepsRenumbered, NotRenumbered, TellsNextOf};

use crate::dense::dense_parts;
use crate::numbering::told_numbers;
use nomos_answers::due::{Due, bare_due};
use nomos_answers::resumes::{NoLedger, no_ledger_due};
use nomos_answers::snapshot_lines::unsaved_line;
use nomos_base::{ReadError, Source, read_all};
use nomos_contents::contents::Contents;
use nomos_ir::limits::USUAL_LIMIT;
use nomos_ledger::ledger::Ledger;
use nomos_snapshot::error::{LoadError, SaveError};
use nomos_snapshot::ledger_loading::{admitted, load, parts_told};
use nomos_snapshot::ledger_parts::LedgerParts;
use nomos_snapshot::saving::{MAX_SNAPSHOT, save};
use nomos_types::accepted::Accepted;
use std::alloc::Global;

// The text of the snapshot that a source has.
fn read_snapshot<S: Source>(alloc: Global, snapshot: &mut S) -> Result<Vec<u8>, NoLedger>
    ensures { (a : Acceptance) → FindsText a
        (source_state (S.left snapshot.old) (S.faults snapshot.old) (S.faults snapshot.new)) result }
{
    match read_all(alloc, snapshot, MAX_SNAPSHOT) {
        Ok(text) => Ok(text),
        Err(ReadError::TooLong) => Err(NoLedger::Refused(LoadError::TooLong)),
        Err(ReadError::ReadFault) => Err(NoLedger::ReadFault),
        Err(ReadError::NoMemory) => Err(NoLedger::Refused(LoadError::NoMemory)),
    }
}

// The parts of the ledger as which a text is loaded.
fn loaded_parts<M: Contents + Drop>(
    alloc: Global,
    accepted: &Accepted,
    text: &[u8],
) -> Result<LedgerParts, LoadError>
    ensures ok { IfOk result (HasParts accepted.now text.now) }
    ensures err { IfErr result (λ why. why ≢ LoadError.NoMemory → NotRenumbered accepted.now text.now why) }
{
    match load::<M>(alloc, accepted, text) {
        Ok(ledger) => {
            // That there is a ledger was asked; its parts are told once more.
            drop(ledger);
            parts_told(alloc, accepted, text)
        }
        Err(why) => Err(why),
    }
}

// The ledger of a text, renumbered, where it may be loaded.
fn renumbered<M: Contents + Drop>(
    alloc: Global,
    accepted: &Accepted,
    text: &[u8],
) -> Result<Ledger<M>, LoadError>
    ensures ok { IfOk result (HasRenumbered accepted.now text.now) }
    ensures err { IfErr result (λ why. why ≢ LoadError.NoMemory → NotRenumbered accepted.now text.now why) }
{
    accepted.know();
    let told = loaded_parts::<M>(alloc, accepted, text)?;
    let dense = dense_parts(alloc, told)?;
    admitted(alloc, accepted, dense)
}

// What is due of a ledger that is not saved, unless memory was wanting.
fn unsaved_due(alloc: Global, why: &SaveError) -> Option<Due>
    ensures line { IfSome result (λ due. IsBare due 11 (unsaved_line why.now) usual_limit) }
    ensures known { IfSome result (λ _. why.now ≢ SaveError.NoMemory) }
{
    if matches!(why, SaveError::NoMemory) {
        return None;
    }
    let out = unsaved_line(alloc, why).ok()?;
    Some(bare_due(alloc, USUAL_LIMIT, 11, out))
}

// What is due of a renumbered ledger that is saved as this text.
fn kept_due<M: Contents + Drop>(alloc: Global, ledger: &Ledger<M>, text: Vec<u8>) -> Option<Due>
    ensures { IfSome result (TellsNextOf ledger.now (Some text.items)) }
{
    let told = told_numbers(alloc, ledger)?;
    Some(Due {
        kept: Some(text),
        ..told
    })
}

// What is due of a renumbered ledger: its next numbers, and its snapshot.
fn renumbered_due<M: Contents + Drop>(
    alloc: Global,
    accepted: &Accepted,
    ledger: &Ledger<M>,
) -> Option<Due>
    requires { StandsFor accepted.now ledger.now }
    ensures { IfSome result (KeepsRenumbered accepted.now ledger.now) }
{
    match save(alloc, accepted, ledger) {
        Ok(text) => kept_due(alloc, ledger, text),
        Err(why) => unsaved_due(alloc, &why),
    }
}

// What is due of the text of a snapshot.
fn text_due<M: Contents + Drop>(alloc: Global, accepted: &Accepted, text: &[u8]) -> Option<Due>
    ensures { (counts : FaultCounts) → IfSome result
        (IsDueOf accepted.now (record { text = text.now; counts = counts })) }
{
    match renumbered::<M>(alloc, accepted, text) {
        Ok(ledger) => renumbered_due(alloc, accepted, &ledger),
        Err(why) => no_ledger_due(alloc, &NoLedger::Refused(why)).ok(),
    }
}

/// What is due where the ledger of the snapshot that a source has is renumbered: its objects, and its names, have the
/// numbers 1, 2, 3 and so on in the order in which they stand, the next numbers are told, and its snapshot is kept.
/// Where there is no ledger, or the renumbered one is not admitted or not saved, the cause is told and nothing is kept.
/// Nothing is due where memory is wanting. See docs/LEDGER.md, "When to renumber".
pub fn renumber_due<M: Contents + Drop, S: Source>(
    alloc: Global,
    accepted: &Accepted,
    snapshot: &mut S,
) -> Option<Due>
    ensures { IfSome result (IsRenumberDueFor accepted.now
        (source_state (S.left snapshot.old) (S.faults snapshot.old) (S.faults snapshot.new))) }
{
    match read_snapshot(alloc, snapshot) {
        Ok(text) => text_due::<M>(alloc, accepted, &text),
        Err(why) => no_ledger_due(alloc, &why).ok(),
    }
}
