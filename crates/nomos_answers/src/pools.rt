//! What is due where threads submit the single lines of a script.

ghost use Rattle.std.specs.Prelude.{◌≡◌, ◌<◌, Some, IfOk, IfErr};
ghost use Rattle.nomos_answers.specs.Finding.{HasRunAs, HasRunPart, PoolsIn, PoolsInPart, untaken_of};
ghost use Rattle.nomos_answers.specs.Outside.{source_state};
ghost use Rattle.nomos_answers.specs.RunsDue.{usual_orders};
ghost use Rattle.nomos_answers.specs.Sources.{IsPoolDueFor, IsPoolPartFor};

use crate::due::{Due, no_entries};
use crate::runs::{ran_due, usual_orders};
use crate::script_found::{no_script_due, read_script, refused_at_due};
use nomos_base::Source;
use nomos_deeds::undo::Undo;
use nomos_ir::limits::USUAL_LIMIT;
use nomos_legal::journal::Journal;
use nomos_pool::pooled::pool_script;
use nomos_script::script::Script;
use nomos_types::accepted::Accepted;
use std::alloc::Global;
use std::sync::Wait;
use std::thread::Threads;

/// What is due where threads submit, and what was taken of the script, where a report is due.
#[derive(Drop, Debug)]
pub struct PoolDue {
    pub due: Due,
    pub taken: Option<Script>,
}

/// What is known where memory was wanting: what was taken, once all lines were gathered, and the journal of some first
/// items of that.
#[derive(Drop, Debug)]
pub struct PoolPart {
    pub journal: Journal,
    pub taken: Option<Script>,
}

// What is due, of which nothing was taken.
fn untaken(due: Result<Due, Journal>) -> Result<PoolDue, PoolPart>
    ensures { result ≡ untaken_of due }
{
    match due {
        Ok(due) => Ok(PoolDue { due, taken: None }),
        Err(journal) => Err(PoolPart {
            journal,
            taken: None,
        }),
    }
}

// What is due of the script that was taken, run by one worker.
fn taken_due<M: Undo + Drop>(
    alloc: Global,
    accepted: &Accepted,
    taken: Script,
) -> Result<PoolDue, PoolPart>
    ensures ok { IfOk result (λ p. HasRunAs accepted.now taken usual_orders p.due × (p.taken ≡ Some taken)) }
    ensures err { IfErr result (λ p.
        HasRunPart accepted.now taken usual_orders p.journal × (p.taken ≡ Some taken)) }
{
    match ran_due::<M>(usual_orders(), alloc, accepted, &taken) {
        Ok(due) => Ok(PoolDue {
            due,
            taken: Some(taken),
        }),
        Err(journal) => Err(PoolPart {
            journal,
            taken: Some(taken),
        }),
    }
}

// What is due of a script that reads.
fn script_pool_due<M: Undo + Drop, R: Threads + Wait + Sync>(
    rt: &R,
    alloc: Global,
    accepted: &Accepted,
    script: Script,
    threads: u32,
) -> Result<PoolDue, PoolPart>
    requires some { 0 < threads }
    ensures ok { IfOk result (PoolsIn accepted.now threads script) }
    ensures err { IfErr result (PoolsInPart accepted.now threads script) }
{
    match pool_script(rt, alloc, script, threads) {
        Ok(Ok(taken)) => taken_due::<M>(alloc, accepted, taken),
        Ok(Err(line)) => untaken(refused_at_due(alloc, USUAL_LIMIT, b"Pool ", line)),
        Err(_) => untaken(Err(no_entries(alloc, USUAL_LIMIT))),
    }
}

/// What is due where the script that a source has is run on an accepted contract, from the empty ledger, by one worker,
/// with its single lines `exec` in an order in which so many threads submit them. Want of memory gives the journal of
/// some first items. The runtime makes the threads that submit, and is waited for; no other one fires anything. See
/// docs/TEXTS.md, "Words and statuses", and docs/MACHINE.md, "Submitting threads".
pub fn pool_due<M: Undo + Drop, S: Source, R: Threads + Wait + Sync>(
    rt: &R,
    alloc: Global,
    accepted: &Accepted,
    script: &mut S,
    threads: u32,
) -> Result<PoolDue, PoolPart>
    requires some { 0 < threads }
    ensures ok { IfOk result (IsPoolDueFor accepted.now threads
        (source_state (S.left script.old) (S.faults script.old) (S.faults script.new))) }
    ensures err { IfErr result (IsPoolPartFor accepted.now threads
        (source_state (S.left script.old) (S.faults script.old) (S.faults script.new))) }
{
    match read_script(alloc, script) {
        Ok(script) => script_pool_due::<M, R>(rt, alloc, accepted, script, threads),
        Err(why) => untaken(no_script_due(alloc, USUAL_LIMIT, why)),
    }
}
