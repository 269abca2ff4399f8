//! The top call, and the same for all jobs but a run by several workers and one whose lines threads submit, proved to
//! return.

ghost use Rattle.std.specs.Prelude.{◌≡◌, ◌⊎◌, ◌↔◌, ℕ, List, Ok, Some, None, IfOk, IfErr, IsTrue, map, string_bytes};
ghost use Rattle.std.specs.Option.{option_map};
ghost use Rattle.nomos_answers.specs.Outside.{SourceState, sink_state, source_state};
ghost use Rattle.nomos_answers.specs.Sources.{kept_text};
ghost use Rattle.nomos_answers.specs.Written.{HasWrittenOut};
ghost use Rattle.nomos_legal.specs.Ledger.{LedgerState};
ghost use Rattle.nomos_script.specs.ScriptReading.{ReadsAs};
ghost use Rattle.nomos_script.specs.declared.item.ScriptItem.{ScriptItem};
ghost use Rattle.nomos_snapshot.specs.Loading.{Loads};
ghost use Rattle.nomos_top.specs.Claims.{Claims};
ghost use Rattle.nomos_top.specs.Refusing.{HasOneAnswer, HasOneReading};
ghost use Rattle.nomos_top.specs.TaskRuns.{run_orders};
ghost use Rattle.nomos_top.specs.Tasks.{ReadsContract, ReadsScript, ReadsSnapshot, ReadsThird, Waits};
ghost use Rattle.nomos_top.specs.Turns.{MayWait, Untouched, WantsContract, WantsScript, WantsSnapshot, WantsThird};
ghost use Rattle.nomos_top.specs.mirror.Judging.{EndsDue, EndsPart, IsDueOn, IsPartOn, IsTaskDueOn, IsTaskPartOn, given_of};
ghost use Rattle.nomos_types.specs.Acceptance.{Acceptance, IsAccepted};
ghost use Rattle.nomos_words.specs.Jobs.{task};
ghost use Rattle.nomos_words.specs.Words.{Asks};

use crate::call_due::{CallDue, DoneSoFar, line_due};
use crate::contract_alone::{check_due, least_due};
use crate::crew_due::script_due_by_crew;
use crate::pool_due::pool_due;
use crate::scripts::{bench_due, replay_due, script_due};
use crate::snapshots::{resume_due, save_due};
use crate::stage::CallStage;
use crate::talk_due::talk_due;
use nomos_answers::benches::Load;
use nomos_answers::written::write_due;
use nomos_base::{Sink, Source};
use nomos_ir::limits::USUAL_LIMIT;
use nomos_legal::journal::Journal;
use nomos_run::orders::Orders;
use nomos_script::script::Script;
use nomos_types::accepted::Accepted;
use nomos_visit::held::Party;
use nomos_words::job::{self, Job};
use nomos_words::usage::usage_line;
use nomos_words::workers::Workers;
use nomos_workers::batch::Crew;
use nomos_workers::gate::Gate;
use std::alloc::Global;
use std::sync::Wait;
use std::thread::Threads;

/// How a call ended.
#[derive(Drop, Debug)]
pub struct Ended {
    /// The exit status, as docs/TEXTS.md has it.
    pub status: u8,
    /// What was accepted: for a check, and for a search for least bounds, given with status 0, and with 6 where the
    /// contract was accepted before; otherwise given wherever the contract was accepted, with 7 too where it was
    /// accepted before memory ran out.
    pub accepted: Option<Accepted>,
    /// What became of the script: an entry for each deposit and each batch with status 0 and 3, and with 6 where the
    /// report was made; with 7 those of some of its first items, for a replay none; otherwise none.
    pub journal: Journal,
    /// What was taken of the script, where threads submit its single lines: given where a report was made, and with 7
    /// once all lines were gathered; otherwise, and for all other jobs, nothing.
    pub taken: Option<Script>,
}

/// Whether the words ask for a run by several workers, each of which may wait for the turn of another one, or for a run
/// whose single lines threads submit. No other job's call may wait. It takes no memory.
pub fn may_wait(words: &[String]) -> bool
    ensures { IsTrue result ↔ MayWait (map string_bytes words.now) }
{
    match job::words(words) {
        Some(job) => waits(&job),
        None => false,
    }
}

// Whether several workers do it, or threads submit.
fn waits(job: &Job) -> bool
    ensures { IsTrue result ↔ Waits (task job.now) }
{
    matches!(
        job,
        Job::Run {
            workers: Workers::Many(_),
            ..
        } | Job::Pool { .. }
    )
}

/// Does all that the program does: reads the words (those after the program's own name), reads the contract and judges
/// it, reads the script, reads the journal and replays it or runs the script, and writes what is due: the output, and
/// behind it the text of the journal, or the snapshot, where that is wanted. `journal_in` is the source of the journal,
/// of what is said in a talk, or of the snapshot at which the script begins, which is read before the script. Each
/// source is read only where it is its turn. Nothing is written before the last memory is taken. Status 7, want of
/// memory, is the one answer for which no reason is given. Where the words ask for a run by several workers, or for one
/// whose lines threads submit, it may wait for them; for all else it does what `nomos_by_one` does.
///
/// ```
/// // The words of `nomos check FILE`; the text of FILE is read from `contract`.
/// let (text, rest) = (&mut contract, &mut script);
/// let ended = nomos(rt, alloc, &words, text, rest, &mut journal_in, &mut out, &mut journal_out, &gate);
/// // The status is 0 where it is accepted, and 1 where it is not.
/// ```
pub fn nomos<S: Source, K: Sink, G: Gate, R: Threads + Wait + Sync>(
    rt: &R,
    alloc: Global,
    words: &[String],
    contract: &mut S,
    script: &mut S,
    journal_in: &mut S,
    out: &mut K,
    journal_out: &mut K,
    gate: &G,
) -> Ended
    // All that is claimed of this call, on the texts of its sources: first that what is accepted is typed, and what is
    // typed is accepted, and that what is kept is a run in which nothing goes wrong; then how it ends, and the rest.
    ensures claims { Claims (record {
      words = map string_bytes words.now;
      contract = source_state (S.left contract.old) (S.faults contract.old) (S.faults contract.new);
      script = source_state (S.left script.old) (S.faults script.old) (S.faults script.new);
      journal_in = source_state (S.left journal_in.old) (S.faults journal_in.old) (S.faults journal_in.new);
      out = sink_state (K.written out.old) (K.written out.new) (K.faults out.old) (K.faults out.new);
      journal_out = sink_state (K.written journal_out.old) (K.written journal_out.new)
          (K.faults journal_out.old) (K.faults journal_out.new);
      status = result.status;
      accepted = result.accepted;
      journal = result.journal;
      taken = result.taken;
    }) }

    // What holds of every text: of a contract, and of a script or a journal.
    ensures one_answer { (text : List ℕ) → HasOneAnswer text }
    ensures one_reading { (text : List ℕ) → HasOneReading text }

    // What is not due stays as it was: a source before its turn, the output where memory ran out, and the journal's
    // sink where nothing is kept.
    ensures untouched { Untouched (map string_bytes words.now)
        (record { script = S.left script.old; third = S.left journal_in.old }) result.status result.accepted
        (record {
          contract = contract.old;
          script = script.old;
          journal_in = journal_in.old;
          out = out.old;
          journal_out = journal_out.old;
        })
        (record {
          contract = contract.new;
          script = script.new;
          journal_in = journal_in.new;
          out = out.new;
          journal_out = journal_out.new;
        }) }
{
    if !may_wait(words) {
        return nomos_by_one(alloc, words, contract, script, journal_in, out, journal_out);
    }
    let stage = CallStage { rt, gate, alloc };
    let due = waiting_due(&stage, words, contract, script);
    let ended = end_call(due, out, journal_out);
    know_accepted(&ended.accepted);
    ended
}

/// Does all that the program does, as `nomos`, where the words ask neither for a run by several workers nor for one
/// whose lines threads submit. It makes no thread and waits for nobody, so it is proved to return, whatever its sources
/// have.
pub fn nomos_by_one<S: Source, K: Sink>(
    alloc: Global,
    words: &[String],
    contract: &mut S,
    script: &mut S,
    journal_in: &mut S,
    out: &mut K,
    journal_out: &mut K,
) -> Ended
    requires { ¬ MayWait (map string_bytes words.now) }

    // All that is claimed of this call, on the texts of its sources: first that what is accepted is typed, and what is
    // typed is accepted, and that what is kept is a run in which nothing goes wrong; then how it ends, and the rest.
    ensures claims { Claims (record {
      words = map string_bytes words.now;
      contract = source_state (S.left contract.old) (S.faults contract.old) (S.faults contract.new);
      script = source_state (S.left script.old) (S.faults script.old) (S.faults script.new);
      journal_in = source_state (S.left journal_in.old) (S.faults journal_in.old) (S.faults journal_in.new);
      out = sink_state (K.written out.old) (K.written out.new) (K.faults out.old) (K.faults out.new);
      journal_out = sink_state (K.written journal_out.old) (K.written journal_out.new)
          (K.faults journal_out.old) (K.faults journal_out.new);
      status = result.status;
      accepted = result.accepted;
      journal = result.journal;
      taken = result.taken;
    }) }

    // What holds of every text: of a contract, and of a script or a journal.
    ensures one_answer { (text : List ℕ) → HasOneAnswer text }
    ensures one_reading { (text : List ℕ) → HasOneReading text }

    // What is not due stays as it was: a source before its turn, the output where memory ran out, and the journal's
    // sink where nothing is kept.
    ensures untouched { Untouched (map string_bytes words.now)
        (record { script = S.left script.old; third = S.left journal_in.old }) result.status result.accepted
        (record {
          contract = contract.old;
          script = script.old;
          journal_in = journal_in.old;
          out = out.old;
          journal_out = journal_out.old;
        })
        (record {
          contract = contract.new;
          script = script.new;
          journal_in = journal_in.new;
          out = out.new;
          journal_out = journal_out.new;
        }) }
{
    let due = words_due(alloc, words, contract, script, journal_in);
    let ended = end_call(due, out, journal_out);
    know_accepted(&ended.accepted);
    ended
}

// Where a program is given, it is known to be typed, and its numbers fit.
fn know_accepted(accepted: &Option<Accepted>)
    ensures { (a : Acceptance) → accepted.now ≡ Some a → IsAccepted a }
{
    if let Some(accepted) = accepted {
        accepted.know();
    }
}

// Ends the call: writes what is due, or nothing where memory was wanting.
fn end_call<K: Sink>(due: Result<CallDue, DoneSoFar>, out: &mut K, journal_out: &mut K) -> Ended
    ensures ok { (words : List (List ℕ)) (contract script journal_in : SourceState)
        → IfOk due (EndsDue (record {
          words = words;
          contract = contract;
          script = script;
          journal_in = journal_in;
          out = sink_state (K.written out.old) (K.written out.new) (K.faults out.old) (K.faults out.new);
          journal_out = sink_state (K.written journal_out.old) (K.written journal_out.new)
              (K.faults journal_out.old) (K.faults journal_out.new);
          status = result.status;
          accepted = result.accepted;
          journal = result.journal;
          taken = result.taken;
        })) }
    ensures err { (words : List (List ℕ)) (contract script journal_in : SourceState)
        → IfErr due (EndsPart (record {
          words = words;
          contract = contract;
          script = script;
          journal_in = journal_in;
          out = sink_state (K.written out.old) (K.written out.new) (K.faults out.old) (K.faults out.new);
          journal_out = sink_state (K.written journal_out.old) (K.written journal_out.new)
              (K.faults journal_out.old) (K.faults journal_out.new);
          status = result.status;
          accepted = result.accepted;
          journal = result.journal;
          taken = result.taken;
        })) }
    ensures given { result.accepted ≡ given_of due }
    ensures nothing_out { IfErr due (λ _. out.new ≡ out.old) }
    ensures nothing_kept { IfErr due (λ _. journal_out.new ≡ journal_out.old) }
    ensures none_kept { IfOk due (λ d. kept_text d.due ≡ None → journal_out.new ≡ journal_out.old) }
{
    match due {
        Ok(due) => write_call(due, out, journal_out),
        Err(part) => Ended {
            status: 7,
            accepted: part.accepted,
            journal: part.journal,
            taken: part.taken,
        },
    }
}

// Writes what is due.
fn write_call<K: Sink>(due: CallDue, out: &mut K, journal_out: &mut K) -> Ended
    ensures written { HasWrittenOut due.due.status due.due.out.items (kept_text due.due)
        (sink_state (K.written out.old) (K.written out.new) (K.faults out.old) (K.faults out.new))
        (sink_state (K.written journal_out.old) (K.written journal_out.new)
        (K.faults journal_out.old) (K.faults journal_out.new))
        result.status }
    ensures accepted { result.accepted ≡ due.accepted }
    ensures journal { result.journal ≡ due.due.journal }
    ensures taken { result.taken ≡ due.taken }
    ensures none { kept_text due.due ≡ None → journal_out.new ≡ journal_out.old }
{
    let CallDue {
        accepted,
        due,
        taken,
    } = due;
    let status = write_due(&due, out, journal_out);
    Ended {
        status,
        accepted,
        journal: due.journal,
        taken,
    }
}

// What is due for words that ask for nothing that waits.
fn words_due<S: Source>(
    alloc: Global,
    words: &[String],
    contract: &mut S,
    script: &mut S,
    journal_in: &mut S,
) -> Result<CallDue, DoneSoFar>
    requires { ¬ MayWait (map string_bytes words.now) }
    ensures ok { IfOk result (IsDueOn (record {
      contract = source_state (S.left contract.old) (S.faults contract.old) (S.faults contract.new);
      script = source_state (S.left script.old) (S.faults script.old) (S.faults script.new);
      third = source_state (S.left journal_in.old) (S.faults journal_in.old) (S.faults journal_in.new);
    }) (map string_bytes words.now)) }
    ensures err { IfErr result (IsPartOn (record {
      contract = source_state (S.left contract.old) (S.faults contract.old) (S.faults contract.new);
      script = source_state (S.left script.old) (S.faults script.old) (S.faults script.new);
      third = source_state (S.left journal_in.old) (S.faults journal_in.old) (S.faults journal_in.new);
    }) (map string_bytes words.now)) }
    ensures contract_unread { ¬ WantsContract (map string_bytes words.now) → contract.new ≡ contract.old }
    ensures script_unread { ¬ WantsScript (map string_bytes words.now) (given_of result) → script.new ≡ script.old }
    ensures third_unread { ¬ WantsThird (map string_bytes words.now) (given_of result)
        → journal_in.new ≡ journal_in.old }
    ensures third_after_script { (text : List ℕ) → S.left script.old ≡ Some text
        → ((items : List ScriptItem) → ¬ ReadsAs text items) → ¬ WantsSnapshot (map string_bytes words.now)
        → journal_in.new ≡ journal_in.old }
    ensures script_after_snapshot { (text : List ℕ) (a : Acceptance) → S.left journal_in.old ≡ Some text
        → given_of result ≡ Some a → ((first : LedgerState) → ¬ Loads a text (Ok first))
        → WantsSnapshot (map string_bytes words.now) → script.new ≡ script.old }
{
    match job::words(words) {
        None => line_due(alloc, USUAL_LIMIT, 4, usage_line()),
        Some(job) => job_due(alloc, job, contract, script, journal_in),
    }
}

// How a script is run by the words.
fn run_orders(workers: Workers, steps: u32, journal: Option<&str>) -> Orders
    ensures { result ≡ run_orders workers steps (option_map (λ word. word.now) journal.entry) }
{
    let crew = match workers {
        Workers::One(policy) => Crew::One(policy),
        Workers::Many(count) => Crew::Many(count),
    };
    Orders {
        crew,
        limit: steps,
        text: journal.is_some(),
        result: false,
    }
}

// What is due for a job that words ask for, and that waits for nobody.
fn job_due<S: Source>(
    alloc: Global,
    job: Job,
    contract: &mut S,
    script: &mut S,
    journal_in: &mut S,
) -> Result<CallDue, DoneSoFar>
    requires asked { (words : List (List ℕ)) × Asks words (task job) }
    requires alone { ¬ Waits (task job) }
    ensures ok { IfOk result (IsTaskDueOn (record {
      contract = source_state (S.left contract.old) (S.faults contract.old) (S.faults contract.new);
      script = source_state (S.left script.old) (S.faults script.old) (S.faults script.new);
      third = source_state (S.left journal_in.old) (S.faults journal_in.old) (S.faults journal_in.new);
    }) (task job.entry)) }
    ensures err { IfErr result (IsTaskPartOn (record {
      contract = source_state (S.left contract.old) (S.faults contract.old) (S.faults contract.new);
      script = source_state (S.left script.old) (S.faults script.old) (S.faults script.new);
      third = source_state (S.left journal_in.old) (S.faults journal_in.old) (S.faults journal_in.new);
    }) (task job.entry)) }
    ensures contract_unread { ¬ ReadsContract (task job.entry) → contract.new ≡ contract.old }
    ensures script_unread { ¬ ReadsScript (task job.entry) ⊎ (given_of result ≡ None) → script.new ≡ script.old }
    ensures third_unread { ¬ ReadsThird (task job.entry) ⊎ (given_of result ≡ None)
        → journal_in.new ≡ journal_in.old }
    ensures third_after_script { (text : List ℕ) → S.left script.old ≡ Some text
        → ((items : List ScriptItem) → ¬ ReadsAs text items) → ¬ ReadsSnapshot (task job.entry)
        → journal_in.new ≡ journal_in.old }
    ensures script_after_snapshot { (text : List ℕ) (a : Acceptance) → S.left journal_in.old ≡ Some text
        → given_of result ≡ Some a → ((first : LedgerState) → ¬ Loads a text (Ok first))
        → ReadsSnapshot (task job.entry) → script.new ≡ script.old }
{
    match job {
        Job::Check { file: _ } => check_due(alloc, contract),
        Job::Run {
            file: _,
            script: _,
            workers,
            steps,
            journal,
        } => script_due(alloc, run_orders(workers, steps, journal), contract, script),
        Job::Replay {
            file: _,
            script: _,
            journal: _,
        } => replay_due(alloc, contract, script, journal_in),
        Job::Bench { seed, bidders } => bench_due(alloc, Load { seed, bidders }),
        Job::Least { file: _ } => least_due(alloc, contract),
        Job::Pool {
            file: _,
            script: _,
            threads: _,
        } => unreachable!(),
        Job::Talk {
            file: _,
            script: _,
            name,
            proc,
            text: _,
        } => talk_due(alloc, Party { name, proc }, contract, script, journal_in),
        Job::Save {
            file: _,
            script: _,
            snapshot: _,
        } => save_due(alloc, contract, script),
        Job::Resume {
            file: _,
            snapshot: _,
            script: _,
        } => resume_due(alloc, contract, journal_in, script),
    }
}

// What is due for words that ask for a run by several workers, or for one whose lines threads submit.
fn waiting_due<S: Source, G: Gate, R: Threads + Wait + Sync>(
    stage: &CallStage<'_, G, R>,
    words: &[String],
    contract: &mut S,
    script: &mut S,
) -> Result<CallDue, DoneSoFar>
    requires { MayWait (map string_bytes words.now) }
    ensures ok { (third : SourceState) → IfOk result (IsDueOn (record {
      contract = source_state (S.left contract.old) (S.faults contract.old) (S.faults contract.new);
      script = source_state (S.left script.old) (S.faults script.old) (S.faults script.new);
      third = third;
    }) (map string_bytes words.now)) }
    ensures err { (third : SourceState) → IfErr result (IsPartOn (record {
      contract = source_state (S.left contract.old) (S.faults contract.old) (S.faults contract.new);
      script = source_state (S.left script.old) (S.faults script.old) (S.faults script.new);
      third = third;
    }) (map string_bytes words.now)) }
    ensures contract_unread { ¬ WantsContract (map string_bytes words.now) → contract.new ≡ contract.old }
    ensures script_unread { ¬ WantsScript (map string_bytes words.now) (given_of result) → script.new ≡ script.old }
{
    match job::words(words) {
        Some(
            Job::Run {
                file: _,
                script: _,
                workers,
                steps,
                journal,
            },
        ) => script_due_by_crew(stage, run_orders(workers, steps, journal), contract, script),
        Some(
            Job::Pool {
                file: _,
                script: _,
                threads,
            },
        ) => pool_due(stage.rt, stage.alloc, threads, contract, script),
        _ => unreachable!(),
    }
}
