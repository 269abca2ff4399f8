//! What is due where the load of `bench` is run.

ghost use Rattle.std.specs.Prelude.{◌≡◌, ◌≤◌, true, None, IfOk, IfErr};
ghost use Rattle.nomos_script.specs.ScriptReading.{ReadsAs};
ghost use Rattle.nomos_machine.specs.declared.policy.Policy.{Policy};
ghost use Rattle.nomos_legal.specs.Legal.{IsLimit, firings_made, max_firings};
ghost use Rattle.nomos_words.specs.Summary.{summary_text};
ghost use Rattle.nomos_answers.specs.Benches.{IsBenchDue, IsBenchPart, all_lasting, figures_of, lasting_firings, load_text};
ghost use Rattle.nomos_answers.specs.Finding.{HasRunLoad, HasRunPart};
ghost use Rattle.nomos_answers.specs.Sources.{kept_text};

use crate::due::{Due, no_entries};
use crate::script_found::{NoScript, script_of};
use nomos_deeds::machine::Machine;
use nomos_deeds::undo::Undo;
use nomos_legal::journal::{End, Entry, Journal};
use nomos_run::one_worker::run_script;
use nomos_run::orders::{Orders, ScriptRun, WholeRun};
use nomos_run::status::run_status;
use nomos_script::script::Script;
use nomos_types::accepted::Accepted;
use nomos_words::load::push_load_script;
use nomos_words::summary::{Figures, push_summary};
use nomos_workers::batch::Crew;
use std::alloc::{AllocError, Global};

/// A load: the seed from which its bids are drawn, and its bidders, from 1 to 10,000.
#[derive(Clone, Copy, PartialEq, Eq, Debug)]
pub struct Load {
    pub seed: u64,
    pub bidders: u32,
}

// The firings of an entry that stay.
fn lasting_firings(entry: &Entry) -> u64
    ensures { result ≡ lasting_firings entry.now }
{
    match entry.end {
        End::Committed => entry.firings.len() as u64,
        _ => 0,
    }
}

// The firings of all entries that stay.
fn all_lasting(entries: &[Entry]) -> u64
    requires { firings_made entries.now ≤ max_firings }
    ensures { result ≡ all_lasting entries.now }
{
    let mut firings = 0;
    for entry in entries {
        firings += lasting_firings(entry);
    }
    firings
}

// The script of a load.
fn load_text(alloc: Global, load: Load) -> Result<Vec<u8>, AllocError>
    ensures { IfOk result (λ text. text.items ≡ load_text load) }
{
    let mut text = Vec::new(alloc);
    push_load_script(&mut text, load.seed, load.bidders)?;
    Ok(text)
}

// What is told of a load that was run.
fn figures<M: Undo + Drop>(
    accepted: &Accepted,
    load: Load,
    journal: &Journal,
    whole: &WholeRun<M>,
) -> Figures
    requires { firings_made journal.now.entries ≤ max_firings }
    ensures { result ≡ figures_of load accepted.now journal.now whole.now.ledger }
{
    Figures {
        seed: load.seed,
        bidders: load.bidders,
        entries: journal.entries.len() as u64,
        firings: all_lasting(journal.entries.as_slice()),
        spent: whole.ledger.state().spent(),
        unit: accepted.unit(),
    }
}

// The summary of a load that was run.
fn summary<M: Undo + Drop>(
    alloc: Global,
    accepted: &Accepted,
    load: Load,
    journal: &Journal,
    whole: &WholeRun<M>,
) -> Result<Vec<u8>, AllocError>
    requires { firings_made journal.now.entries ≤ max_firings }
    ensures { IfOk result (λ text. text.items
        ≡ summary_text (figures_of load accepted.now journal.now whole.now.ledger) whole.now.last_result) }
{
    let figures = figures(accepted, load, journal, whole);
    let mut text = Vec::new(alloc);
    push_summary(&mut text, &figures, whole.last_result.as_ref())?;
    Ok(text)
}

// Want of memory, where it is the one cause that may come.
fn no_memory(why: NoScript) -> AllocError
    requires { why ≡ NoScript.NoMemory }
{
    match why {
        NoScript::NoMemory => AllocError,
        _ => unreachable!(),
    }
}

// The script of a load, which always reads: nothing but memory may be wanting.
fn load_script(alloc: Global, load: Load) -> Result<Script, AllocError>
    requires { load.bidders ≤ 10000 }
    ensures { IfOk result (ReadsAs (load_text load)) }
{
    let text = load_text(alloc, load)?;
    match script_of(alloc, &text) {
        Ok(script) => Ok(script),
        Err(why) => Err(no_memory(why)),
    }
}

// What is due of a load whose script reads.
fn ran_load_due<M: Undo + Drop>(
    orders: Orders,
    alloc: Global,
    accepted: &Accepted,
    load: Load,
    script: &Script,
) -> Result<Due, Journal>
    requires one { (policy : Policy) × (orders.crew ≡ Crew.One policy) }
    requires limit { IsLimit orders.limit }
    requires result { orders.result ≡ true }
    ensures ok { IfOk result (HasRunLoad accepted.now script.now orders load) }
    ensures err { IfErr result (HasRunPart accepted.now script.now orders) }
{
    let ScriptRun { journal, finished } = run_script::<M>(orders, alloc, accepted, script);
    let Some(whole) = finished else {
        return Err(journal);
    };
    match summary(alloc, accepted, load, &journal, &whole) {
        Ok(out) => Ok(Due {
            status: run_status(journal.entries.as_slice()),
            out,
            kept: None,
            journal,
        }),
        Err(_) => Err(journal),
    }
}

/// What is due where a load is run on the accepted auction, by one worker, by orders that ask for the last result: the
/// status, and the summary. The script of a load reads, so that nothing but memory may be wanting; then the journal of
/// some first items is given. See docs/TEXTS.md, "The load of `bench`".
pub fn bench_due<M: Undo + Drop>(
    orders: Orders,
    alloc: Global,
    accepted: &Accepted,
    load: Load,
) -> Result<Due, Journal>
    requires one { (policy : Policy) × (orders.crew ≡ Crew.One policy) }
    requires limit { IsLimit orders.limit }
    requires result { orders.result ≡ true }
    requires few { load.bidders ≤ 10000 }
    ensures ok { IfOk result (λ due.
        IsBenchDue accepted.now orders load due.status due.out.items due.journal) }
    ensures kept { IfOk result (λ due. kept_text due ≡ None) }
    ensures err { IfErr result (IsBenchPart accepted.now orders load) }
{
    match load_script(alloc, load) {
        Ok(script) => ran_load_due::<M>(orders, alloc, accepted, load, &script),
        Err(_) => Err(no_entries(alloc, orders.limit)),
    }
}
