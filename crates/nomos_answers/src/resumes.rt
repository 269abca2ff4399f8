//! What is due where a script is run from the ledger of a snapshot.

ghost use Rattle.std.specs.Prelude.{◌≡◌, ℕ, List, Ok, Some, IfOk, IfErr};
ghost use Rattle.nomos_answers.specs.Finding.{FindsLedger, FindsLedgerIn, HasNoLedger, MayGoOn, ResumesIn, ResumesInPart, RunsFrom, RunsFromPart};
ghost use Rattle.nomos_answers.specs.DueLines.{no_entries};
ghost use Rattle.nomos_answers.specs.Outside.{FaultCounts, source_state};
ghost use Rattle.nomos_answers.specs.Sources.{IsResumeDueFor, IsResumePartFor};
ghost use Rattle.nomos_legal.specs.Ledger.{LedgerState};
ghost use Rattle.nomos_snapshot.specs.Loading.{Loads};
ghost use Rattle.nomos_words.specs.Options.{usual_limit};

use crate::due::{Due, line_due, no_entries};
use crate::runs::{usual_orders, whole_due};
use crate::script_found::{no_script_due, read_script};
use crate::snapshot_lines::unloaded_due;
use nomos_base::{ReadError, Source, read_all};
use nomos_contents::contents::Contents;
use nomos_ir::limits::USUAL_LIMIT;
use nomos_ledger::ledger::Ledger;
use nomos_legal::journal::Journal;
use nomos_run::one_worker::run_from;
use nomos_run::orders::ScriptRun;
use nomos_script::script::Script;
use nomos_snapshot::error::LoadError;
use nomos_snapshot::ledger_loading::load;
use nomos_snapshot::saving::MAX_SNAPSHOT;
use nomos_types::accepted::Accepted;
use std::alloc::Global;

/// Why there is no ledger to begin at.
#[derive(Drop)]
pub enum NoLedger {
    ReadFault,
    Refused(LoadError),
}

// The ledger of the text of a snapshot.
fn ledger_of<M: Contents + Drop>(
    alloc: Global,
    accepted: &Accepted,
    text: &[u8],
) -> Result<Ledger<M>, NoLedger>
    ensures finds { (counts : FaultCounts) → FindsLedgerIn accepted.now
        (record { text = text.now; counts = counts }) result }
    ensures may { IfOk result (MayGoOn accepted.now) }
{
    match load::<M>(alloc, accepted, text) {
        Ok(ledger) => Ok(ledger),
        Err(why) => Err(NoLedger::Refused(why)),
    }
}

/// The ledger of the snapshot that a source has, from which a run may go on.
pub fn read_ledger<M: Contents + Drop, S: Source>(
    alloc: Global,
    accepted: &Accepted,
    snapshot: &mut S,
) -> Result<Ledger<M>, NoLedger>
    ensures finds { FindsLedger accepted.now
        (source_state (S.left snapshot.old) (S.faults snapshot.old) (S.faults snapshot.new)) result }
    ensures may { IfOk result (MayGoOn accepted.now) }
{
    match read_all(alloc, snapshot, MAX_SNAPSHOT) {
        Ok(text) => ledger_of::<M>(alloc, accepted, &text),
        Err(ReadError::TooLong) => Err(NoLedger::Refused(LoadError::TooLong)),
        Err(ReadError::ReadFault) => Err(NoLedger::ReadFault),
        Err(ReadError::NoMemory) => Err(NoLedger::Refused(LoadError::NoMemory)),
    }
}

/// What is due where there is no ledger to begin at, unless memory was wanting.
pub fn no_ledger_due(alloc: Global, why: &NoLedger) -> Result<Due, Journal>
    ensures ok { IfOk result (HasNoLedger why.now) }
    ensures err { IfErr result (λ journal. journal ≡ no_entries usual_limit) }
{
    match why {
        NoLedger::ReadFault => line_due(alloc, USUAL_LIMIT, 5, b"read fault snapshot\n"),
        NoLedger::Refused(LoadError::NoMemory) => Err(no_entries(alloc, USUAL_LIMIT)),
        NoLedger::Refused(why) => unloaded_due(alloc, why),
    }
}

// What is due of a script that reads, run from a ledger.
fn ran_from_due<M: Contents + Drop>(
    alloc: Global,
    accepted: &Accepted,
    from: Ledger<M>,
    script: &Script,
) -> Result<Due, Journal>
    requires may { MayGoOn accepted.now from }
    ensures ok { IfOk result (RunsFrom accepted.now from script.now) }
    ensures err { IfErr result (RunsFromPart accepted.now from script.now) }
{
    let ScriptRun { journal, finished } = run_from::<M>(
        usual_orders(),
        alloc,
        accepted,
        from,
        script,
    );
    match finished {
        Some(whole) => Ok(whole_due(journal, whole)),
        None => Err(journal),
    }
}

// What is due of the script that a source has, run from a ledger.
fn resumed_due<M: Contents + Drop, S: Source>(
    alloc: Global,
    accepted: &Accepted,
    from: Ledger<M>,
    script: &mut S,
) -> Result<Due, Journal>
    requires may { MayGoOn accepted.now from }
    ensures ok { IfOk result (ResumesIn accepted.now from
        (source_state (S.left script.old) (S.faults script.old) (S.faults script.new))) }
    ensures err { IfErr result (ResumesInPart accepted.now from
        (source_state (S.left script.old) (S.faults script.old) (S.faults script.new))) }
{
    match read_script(alloc, script) {
        Ok(script) => ran_from_due::<M>(alloc, accepted, from, &script),
        Err(why) => no_script_due(alloc, USUAL_LIMIT, why),
    }
}

/// What is due where the script that a source has is run on an accepted contract, by one worker, from the ledger of the
/// snapshot that another source has. The script is read only where the snapshot is loaded. Want of memory gives the
/// journal of some first items. See docs/TEXTS.md, "Words and statuses" and "Snapshots".
pub fn resume_due<M: Contents + Drop, S: Source>(
    alloc: Global,
    accepted: &Accepted,
    snapshot: &mut S,
    script: &mut S,
) -> Result<Due, Journal>
    ensures ok { IfOk result (IsResumeDueFor accepted.now
        (source_state (S.left snapshot.old) (S.faults snapshot.old) (S.faults snapshot.new))
        (source_state (S.left script.old) (S.faults script.old) (S.faults script.new))) }
    ensures err { IfErr result (IsResumePartFor accepted.now
        (source_state (S.left snapshot.old) (S.faults snapshot.old) (S.faults snapshot.new))
        (source_state (S.left script.old) (S.faults script.old) (S.faults script.new))) }

    // Where the snapshot is not loaded, the script is not read.
    ensures unread { (text : List ℕ) → S.left snapshot.old ≡ Some text
        → ((first : LedgerState) → ¬ Loads accepted.now text (Ok first)) → script.new ≡ script.old }
{
    match read_ledger::<M, S>(alloc, accepted, snapshot) {
        Ok(ledger) => resumed_due::<M, S>(alloc, accepted, ledger, script),
        Err(why) => no_ledger_due(alloc, &why),
    }
}
