//! The call: from the words, the sources and the sinks to the status.

ghost use Rattle.std.specs.Prelude.{◌≡◌, ◌⊎◌, ◌∷◌, ◌↔◌, [], ℕ, List, None, Err, IfOk, IfSome, IsSome, IsTrue, codes, map, string_bytes};
ghost use Rattle.nomos_accept.specs.AcceptedText.{Answers};
ghost use Rattle.nomos_answers.specs.Outside.{SinkState, sink_state, source_state};
ghost use Rattle.nomos_answers.specs.Written.{HasWrittenOut};
ghost use Rattle.nomos_types.specs.Acceptance.{IsAccepted};
ghost use Rattle.nomos_words.specs.Options.{IsFileWord};
ghost use Rattle.nomos_carry.specs.Alone.{LeavesAlone};
ghost use Rattle.nomos_carry.specs.CarryClaims.{CarryClaims};
ghost use Rattle.nomos_carry.specs.CarryWords.{AsksToCarry, script_file, snapshot_file};
ghost use Rattle.nomos_carry.specs.mirror.Errands.{AloneFor, Behind, Ends, IsDueBehind, IsDueOn, IsJudgedDue, IsRefusalDue, carry_task};

use crate::errands::{Errand, errand_of};
use nomos_accept::accepting::accept;
use nomos_accept::why::AcceptError;
use nomos_answers::due::Due;
use nomos_answers::written::write_due;
use nomos_base::{ReadError, Sink, Source, SureSource, read_all, write_all};
use nomos_carrying::carrying::{begin_due, carry_due};
use nomos_carrying::numbering::numbers_due;
use nomos_carrying::renumbering::renumber_due;
use nomos_ir::limits::TEXT_LIMIT;
use nomos_state::indexed::IndexedState;
use nomos_top::nomos_by_one;
use nomos_types::accepted::Accepted;
use std::alloc::{AllocError, Global};

/// What is outside of a call: the texts of the contract, of the snapshot and of the script, which are read; the output;
/// and where the next snapshot goes.
#[derive(Drop)]
pub(crate) struct Edges<S: Drop, K: Drop> {
    pub(crate) contract: S,
    pub(crate) snapshot: S,
    pub(crate) script: S,
    pub(crate) out: K,
    pub(crate) next: K,
}

// The line that says which words there are.
const USAGE: &[u8] =
    b"usage: nomos-carry FILE SNAP|- SCRIPT NEW | --renumber FILE SNAP NEW | --numbers FILE SNAP\n";

// Writes a line to the output. The status that stands then is this one, or 6 where the output failed.
fn write_line<K: Sink>(status: u8, line: &[u8], out: &mut K) -> u8
    ensures written { (beside : SinkState) → beside.after ≡ beside.before → HasWrittenOut status line.now None
        (sink_state (K.written out.old) (K.written out.new) (K.faults out.old) (K.faults out.new)) beside result }
    ensures status { (result ≡ status) ⊎ (result ≡ 6) }
{
    match write_all(out, line) {
        Ok(()) => status,
        Err(_) => 6,
    }
}

// What is due on an accepted contract, or nothing where memory is wanting.
fn accepted_due<S: Source>(
    alloc: Global,
    accepted: &Accepted,
    errand: Errand<'_>,
    snapshot: &mut S,
    script: &mut S,
) -> Option<Due>
    ensures due { IfSome result (IsDueBehind accepted.now (carry_task errand.entry)
        (source_state (S.left snapshot.old) (S.faults snapshot.old) (S.faults snapshot.new))
        (source_state (S.left script.old) (S.faults script.old) (S.faults script.new))) }
    ensures snapshot_unread { ¬ IsSome (snapshot_file (carry_task errand.entry)) → snapshot.new ≡ snapshot.old }
    ensures script_unread { ¬ IsSome (script_file (carry_task errand.entry)) → script.new ≡ script.old }
{
    match errand {
        Errand::Carry { snapshot: None, .. } => begin_due::<IndexedState, S>(
            alloc, accepted, script,
        ),
        Errand::Carry {
            snapshot: Some(_),
            ..
        } => carry_due::<IndexedState, S>(alloc, accepted, snapshot, script),
        Errand::Renumber { .. } => renumber_due::<IndexedState, S>(alloc, accepted, snapshot),
        Errand::Numbers { .. } => numbers_due::<IndexedState, S>(alloc, accepted, snapshot),
    }
}

// The words that ask `nomos` for a check of a file.
fn check_words(alloc: Global, file: &str) -> Result<Vec<String>, AllocError>
    ensures { IfOk result (λ words. map string_bytes words.items ≡ codes "check" ∷ file.now ∷ []) }
{
    let mut words = Vec::new(alloc);
    words.push(String::from_str(alloc, "check")?)?;
    words.push(String::from_str(alloc, file)?)?;
    Ok(words)
}

// Whether memory was wanting.
fn is_wanting(error: &AcceptError) -> bool
    ensures { IsTrue result ↔ (error.now ≡ AcceptError.NoMemory) }
{
    matches!(error, AcceptError::NoMemory)
}

// Ends a call whose contract is not accepted for this cause, as a check of this text by `nomos` ends.
fn end_as_check<S: Source + Drop, K: Sink + Drop>(
    alloc: Global,
    file: &str,
    error: &AcceptError,
    text: Vec<u8>,
    edges: &mut Edges<S, K>,
) -> u8
    requires file { IsFileWord file.now }
    requires answers { Answers text.items (Err error.now) }
    ensures ends { Ends (IsRefusalDue file.now text.items)
        (sink_state (K.written edges.old.out) (K.written edges.new.out)
        (K.faults edges.old.out) (K.faults edges.new.out))
        (sink_state (K.written edges.old.next) (K.written edges.new.next)
        (K.faults edges.old.next) (K.faults edges.new.next)) result }
    ensures snapshot { edges.new.snapshot ≡ edges.old.snapshot }
    ensures script { edges.new.script ≡ edges.old.script }
    ensures out { result ≡ 7 → edges.new.out ≡ edges.old.out }
    ensures next { edges.new.next ≡ edges.old.next }
{
    if is_wanting(error) {
        return 7;
    }
    let Ok(words) = check_words(alloc, file) else {
        return 7;
    };
    let mut contract = SureSource::new(text);
    let mut script = SureSource::new(Vec::new(alloc));
    let mut third = SureSource::new(Vec::new(alloc));
    let ended = nomos_by_one(
        alloc,
        &words,
        &mut contract,
        &mut script,
        &mut third,
        &mut edges.out,
        &mut edges.next,
    );
    ended.status
}

// Does what is asked for, on an accepted contract.
fn end_accepted<S: Source + Drop, K: Sink + Drop>(
    alloc: Global,
    accepted: &Accepted,
    errand: Errand<'_>,
    edges: &mut Edges<S, K>,
) -> u8
    ensures fits { IsAccepted accepted.now }
    ensures ends { Ends (Behind accepted.now (carry_task errand.entry)
        (source_state (S.left edges.old.snapshot) (S.faults edges.old.snapshot) (S.faults edges.new.snapshot))
        (source_state (S.left edges.old.script) (S.faults edges.old.script) (S.faults edges.new.script)))
        (sink_state (K.written edges.old.out) (K.written edges.new.out)
        (K.faults edges.old.out) (K.faults edges.new.out))
        (sink_state (K.written edges.old.next) (K.written edges.new.next)
        (K.faults edges.old.next) (K.faults edges.new.next)) result }
    ensures alone { AloneFor (carry_task errand.entry) result edges.old edges.new }
{
    accepted.know();
    match accepted_due(
        alloc,
        accepted,
        errand,
        &mut edges.snapshot,
        &mut edges.script,
    ) {
        Some(due) => write_due(&due, &mut edges.out, &mut edges.next),
        None => 7,
    }
}

// Does what is asked for, on a contract with this text.
fn end_judged<S: Source + Drop, K: Sink + Drop>(
    alloc: Global,
    errand: Errand<'_>,
    text: Vec<u8>,
    edges: &mut Edges<S, K>,
) -> u8
    requires asked { (words : List (List ℕ)) × AsksToCarry words (carry_task errand) }
    ensures ends { Ends (IsJudgedDue (carry_task errand.entry) text.items
        (source_state (S.left edges.old.snapshot) (S.faults edges.old.snapshot) (S.faults edges.new.snapshot))
        (source_state (S.left edges.old.script) (S.faults edges.old.script) (S.faults edges.new.script)))
        (sink_state (K.written edges.old.out) (K.written edges.new.out)
        (K.faults edges.old.out) (K.faults edges.new.out))
        (sink_state (K.written edges.old.next) (K.written edges.new.next)
        (K.faults edges.old.next) (K.faults edges.new.next)) result }
    ensures alone { AloneFor (carry_task errand.entry) result edges.old edges.new }
{
    match accept(alloc, &text) {
        Ok(accepted) => end_accepted(alloc, &accepted, errand, edges),
        Err(error) => end_as_check(alloc, errand.contract(), &error, text, edges),
    }
}

// Does what is asked for.
fn end_asked<S: Source + Drop, K: Sink + Drop>(
    alloc: Global,
    errand: Errand<'_>,
    edges: &mut Edges<S, K>,
) -> u8
    requires asked { (words : List (List ℕ)) × AsksToCarry words (carry_task errand) }
    ensures ends { (words : List (List ℕ)) → AsksToCarry words (carry_task errand.entry) → Ends (IsDueOn words
        (source_state (S.left edges.old.contract) (S.faults edges.old.contract) (S.faults edges.new.contract))
        (source_state (S.left edges.old.snapshot) (S.faults edges.old.snapshot) (S.faults edges.new.snapshot))
        (source_state (S.left edges.old.script) (S.faults edges.old.script) (S.faults edges.new.script)))
        (sink_state (K.written edges.old.out) (K.written edges.new.out)
        (K.faults edges.old.out) (K.faults edges.new.out))
        (sink_state (K.written edges.old.next) (K.written edges.new.next)
        (K.faults edges.old.next) (K.faults edges.new.next)) result }
    ensures alone { AloneFor (carry_task errand.entry) result edges.old edges.new }
{
    match read_all(alloc, &mut edges.contract, TEXT_LIMIT) {
        Ok(text) => end_judged(alloc, errand, text, edges),
        Err(ReadError::TooLong) => write_line(1, b"refused TooLong\n", &mut edges.out),
        Err(ReadError::ReadFault) => write_line(5, b"read fault contract\n", &mut edges.out),
        Err(ReadError::NoMemory) => 7,
    }
}

/// Does all that the program does, and gives its status (docs/LEDGER.md, "The words"): reads the words, those behind
/// the program's own name; reads the contract and judges it; reads the snapshot, and then the script; and writes the
/// output, and behind it, last of all, the next snapshot. Nothing is written before the last memory is taken.
pub(crate) fn carry<S: Source + Drop, K: Sink + Drop>(
    alloc: Global,
    words: &[String],
    edges: &mut Edges<S, K>,
) -> u8
    // All that is claimed of this call, on the texts of its sources: how it ends, what it does to the ledger, and that
    // each other call of these words on these texts ends alike.
    ensures claims { CarryClaims (record {
      words = map string_bytes words.now;
      contract = source_state (S.left edges.old.contract) (S.faults edges.old.contract) (S.faults edges.new.contract);
      snapshot = source_state (S.left edges.old.snapshot) (S.faults edges.old.snapshot) (S.faults edges.new.snapshot);
      script = source_state (S.left edges.old.script) (S.faults edges.old.script) (S.faults edges.new.script);
      out = sink_state (K.written edges.old.out) (K.written edges.new.out)
          (K.faults edges.old.out) (K.faults edges.new.out);
      new = sink_state (K.written edges.old.next) (K.written edges.new.next)
          (K.faults edges.old.next) (K.faults edges.new.next);
      status = result;
    }) }

    // What is not due stays as it was: a source before its turn, the output where memory ran out, and the file of the
    // next snapshot where none is written.
    ensures alone { LeavesAlone (map string_bytes words.now) result edges.old edges.new }
{
    match errand_of(words) {
        Some(errand) => end_asked(alloc, errand, edges),
        None => write_line(4, USAGE, &mut edges.out),
    }
}
