//! What is due where a script is run and its ledger saved.

ghost use Rattle.std.specs.Prelude.{◌≡◌, ◌≢◌, Some, IfOk, IfErr};
ghost use Rattle.nomos_answers.specs.Finding.{HasRunPart, IsBare, SavesIn, SavesWhole};
ghost use Rattle.nomos_answers.specs.Outside.{source_state};
ghost use Rattle.nomos_answers.specs.RunsDue.{usual_orders};
ghost use Rattle.nomos_answers.specs.SnapshotLines.{unsaved_line};
ghost use Rattle.nomos_answers.specs.Sources.{IsRunPartFor, IsSaveDueFor};
ghost use Rattle.nomos_legal.specs.StandsFor.{StandsFor};
ghost use Rattle.nomos_words.specs.Options.{usual_limit};

use crate::due::{Due, bare_due};
use crate::runs::usual_orders;
use crate::script_found::{no_script_due, read_script};
use crate::snapshot_lines::unsaved_line;
use nomos_base::Source;
use nomos_contents::contents::Contents;
use nomos_ir::limits::USUAL_LIMIT;
use nomos_legal::journal::Journal;
use nomos_run::one_worker::run_script;
use nomos_run::orders::{ScriptRun, WholeRun};
use nomos_run::status::run_status;
use nomos_script::script::Script;
use nomos_snapshot::error::SaveError;
use nomos_snapshot::saving::save;
use nomos_types::accepted::Accepted;
use std::alloc::Global;

// What is due of a ledger that is refused, behind a run with this journal.
fn refused_due(alloc: Global, journal: Journal, why: &SaveError) -> Result<Due, Journal>
    ensures ok { IfOk result (λ due. IsBare due 11 (unsaved_line why.now) usual_limit) }
    ensures err { IfErr result (λ known. known ≡ journal) }
{
    match unsaved_line(alloc, why) {
        Ok(out) => Ok(bare_due(alloc, USUAL_LIMIT, 11, out)),
        Err(_) => Err(journal),
    }
}

// What is due of a ledger that is not saved, behind a run with this journal, unless memory was wanting.
fn unsaved_due(alloc: Global, journal: Journal, why: &SaveError) -> Result<Due, Journal>
    ensures ok { IfOk result (λ due. IsBare due 11 (unsaved_line why.now) usual_limit) }
    ensures known { IfOk result (λ _. why.now ≢ SaveError.NoMemory) }
    ensures err { IfErr result (λ known. known ≡ journal) }
{
    match why {
        SaveError::NoMemory => Err(journal),
        _ => refused_due(alloc, journal, why),
    }
}

/// What is due of a run of which all items have passed: its report, and its ledger saved, or the line of a ledger that
/// is refused. Want of memory gives the journal of the run.
pub fn saved_due<M: Contents + Drop>(
    alloc: Global,
    accepted: &Accepted,
    journal: Journal,
    whole: WholeRun<M>,
) -> Result<Due, Journal>
    requires stands { StandsFor accepted.now whole.ledger }
    ensures ok { IfOk result (SavesWhole accepted.now journal whole.report.items whole.ledger) }
    ensures err { IfErr result (λ known. known ≡ journal) }
{
    accepted.know();
    let WholeRun { report, ledger, .. } = whole;
    match save(alloc, accepted, &ledger) {
        Ok(text) => Ok(Due {
            status: run_status(journal.entries.as_slice()),
            out: report,
            kept: Some(text),
            journal,
        }),
        Err(why) => unsaved_due(alloc, journal, &why),
    }
}

// What is due of a script that reads.
fn script_save_due<M: Contents + Drop>(
    alloc: Global,
    accepted: &Accepted,
    script: &Script,
) -> Result<Due, Journal>
    ensures ok { IfOk result (SavesIn accepted.now script.now) }
    ensures err { IfErr result (HasRunPart accepted.now script.now usual_orders) }
{
    let ScriptRun { journal, finished } = run_script::<M>(usual_orders(), alloc, accepted, script);
    match finished {
        Some(whole) => saved_due(alloc, accepted, journal, whole),
        None => Err(journal),
    }
}

/// What is due where the script that a source has is run on an accepted contract, from the empty ledger, by one worker,
/// and the ledger to which it leads is saved: the report, and the snapshot as what is kept. A ledger that is not saved
/// is refused, and nothing else is printed. Want of memory gives the journal of some first items. See docs/TEXTS.md,
/// "Words and statuses" and "Snapshots".
pub fn save_due<M: Contents + Drop, S: Source>(
    alloc: Global,
    accepted: &Accepted,
    script: &mut S,
) -> Result<Due, Journal>
    ensures ok { IfOk result (IsSaveDueFor accepted.now
        (source_state (S.left script.old) (S.faults script.old) (S.faults script.new))) }
    ensures err { IfErr result (IsRunPartFor accepted.now usual_orders
        (source_state (S.left script.old) (S.faults script.old) (S.faults script.new))) }
{
    match read_script(alloc, script) {
        Ok(script) => script_save_due::<M>(alloc, accepted, &script),
        Err(why) => no_script_due(alloc, USUAL_LIMIT, why),
    }
}
