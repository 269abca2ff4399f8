//! What is due where a ledger is carried on.

ghost use Rattle.std.specs.Prelude.{◌≡◌, ℕ, List, Ok, Some, IfOk, IfSome};
ghost use Rattle.nomos_answers.specs.Finding.{MayGoOn};
ghost use Rattle.nomos_answers.specs.Outside.{source_state};
ghost use Rattle.nomos_legal.specs.Ledger.{LedgerState};
ghost use Rattle.nomos_snapshot.specs.Loading.{Loads};
ghost use Rattle.nomos_carrying.specs.CarrySources.{IsBeginDueFor, IsCarryDueFor};
ghost use Rattle.nomos_carrying.specs.mirror.Carrying.{GoesOnBy, RunsOn};

use nomos_answers::due::Due;
use nomos_answers::resumes::{no_ledger_due, read_ledger};
use nomos_answers::runs::usual_orders;
use nomos_answers::saves::{save_due, saved_due};
use nomos_answers::script_found::{no_script_due, read_script};
use nomos_base::Source;
use nomos_contents::contents::Contents;
use nomos_ir::limits::USUAL_LIMIT;
use nomos_ledger::ledger::Ledger;
use nomos_legal::journal::Journal;
use nomos_run::one_worker::run_from;
use nomos_run::orders::ScriptRun;
use nomos_script::script::Script;
use nomos_types::accepted::Accepted;
use std::alloc::Global;

// What is due of a script that reads, run from a ledger.
fn ran_due<M: Contents + Drop>(
    alloc: Global,
    accepted: &Accepted,
    from: Ledger<M>,
    script: &Script,
) -> Result<Due, Journal>
    requires may { MayGoOn accepted.now from }
    ensures { IfOk result (RunsOn accepted.now from script.now) }
{
    let ScriptRun { journal, finished } = run_from::<M>(
        usual_orders(),
        alloc,
        accepted,
        from,
        script,
    );
    match finished {
        Some(whole) => saved_due(alloc, accepted, journal, whole),
        None => Err(journal),
    }
}

// What is due of the script that a source has, run from a ledger.
fn carried_due<M: Contents + Drop, S: Source>(
    alloc: Global,
    accepted: &Accepted,
    from: Ledger<M>,
    script: &mut S,
) -> Result<Due, Journal>
    requires may { MayGoOn accepted.now from }
    ensures { IfOk result (GoesOnBy accepted.now from
        (source_state (S.left script.old) (S.faults script.old) (S.faults script.new))) }
{
    match read_script(alloc, script) {
        Ok(script) => ran_due(alloc, accepted, from, &script),
        Err(why) => no_script_due(alloc, USUAL_LIMIT, why),
    }
}

/// What is due where the script that a source has is run on an accepted contract, by one worker, from the ledger of the
/// snapshot that another source has, and the last ledger is saved: the report, and the next snapshot as what is kept.
/// The script is read only where the snapshot is loaded. Nothing is due where memory is wanting. See docs/LEDGER.md.
pub fn carry_due<M: Contents + Drop, S: Source>(
    alloc: Global,
    accepted: &Accepted,
    snapshot: &mut S,
    script: &mut S,
) -> Option<Due>
    ensures due { IfSome result (IsCarryDueFor accepted.now
        (source_state (S.left snapshot.old) (S.faults snapshot.old) (S.faults snapshot.new))
        (source_state (S.left script.old) (S.faults script.old) (S.faults script.new))) }

    // Where the snapshot is not loaded, the script is not read.
    ensures unread { (text : List ℕ) → S.left snapshot.old ≡ Some text
        → ((first : LedgerState) → ¬ Loads accepted.now text (Ok first)) → script.new ≡ script.old }
{
    match read_ledger::<M, S>(alloc, accepted, snapshot) {
        Ok(first) => carried_due::<M, S>(alloc, accepted, first, script).ok(),
        Err(why) => no_ledger_due(alloc, &why).ok(),
    }
}

/// The same from the empty ledger: what is due where its first snapshot is to be made.
pub fn begin_due<M: Contents + Drop, S: Source>(
    alloc: Global,
    accepted: &Accepted,
    script: &mut S,
) -> Option<Due>
    ensures { IfSome result (IsBeginDueFor accepted.now
        (source_state (S.left script.old) (S.faults script.old) (S.faults script.new))) }
{
    save_due::<M, S>(alloc, accepted, script).ok()
}
