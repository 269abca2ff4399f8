//! What is due where a journal is replayed.

ghost use Rattle.std.specs.Prelude.{◌≡◌, ◌≢◌, ℕ, List, Some, None, IfOk, IfErr};
ghost use Rattle.nomos_script.specs.ScriptReading.{ReadsAs};
ghost use Rattle.nomos_script.specs.declared.item.ScriptItem.{ScriptItem};
ghost use Rattle.nomos_legal.specs.declared.journal.Journal.{Journal};
ghost use Rattle.nomos_journal.specs.JournalText.{IsTextOf};
ghost use Rattle.nomos_journal.specs.declared.line.Version.{Version};
ghost use Rattle.nomos_replay.specs.Refusal.{refusal_line};
ghost use Rattle.nomos_report.specs.Reported.{run_status};
ghost use Rattle.nomos_answers.specs.Finding.{IsBare};
ghost use Rattle.nomos_answers.specs.Outside.{FaultCounts, source_state};
ghost use Rattle.nomos_answers.specs.Replays.{GivesJournal, no_journal};
ghost use Rattle.nomos_words.specs.Options.{usual_limit};
ghost use Rattle.nomos_answers.specs.Sources.{IsJournalDueFor, IsReplayDueFor};

use crate::due::{Due, bare_due, line_due, no_entries};
use crate::script_found::{no_script_due, read_script};
use nomos_base::{ReadError, Source, read_all};
use nomos_deeds::undo::Undo;
use nomos_ir::limits::USUAL_LIMIT;
use nomos_legal::journal::Journal;
use nomos_replay::error::ReplayError;
use nomos_replay::refused::push_refusal;
use nomos_replay::replay::{MAX_BYTES, Replayed, replay};
use nomos_run::status::run_status;
use nomos_script::script::Script;
use nomos_types::accepted::Accepted;
use std::alloc::{AllocError, Global};

// The line of a refusal.
fn refusal_line(alloc: Global, unit: u32, why: &ReplayError) -> Result<Vec<u8>, AllocError>
    ensures { IfOk result (λ text. text.items ≡ refusal_line unit why.now) }
{
    let mut text = Vec::new(alloc);
    push_refusal(&mut text, unit, why)?;
    Ok(text)
}

// What is due of a journal that is refused.
fn refused_line_due(alloc: Global, unit: u32, why: &ReplayError) -> Result<Due, Journal>
    ensures ok { IfOk result (λ due. IsBare due 9 (refusal_line unit why.now) usual_limit) }
    ensures err { IfErr result (λ journal. journal ≡ no_journal) }
{
    match refusal_line(alloc, unit, why) {
        Ok(out) => Ok(bare_due(alloc, USUAL_LIMIT, 9, out)),
        Err(_) => Err(no_entries(alloc, USUAL_LIMIT)),
    }
}

// What is due of a journal that is refused, unless memory was wanting.
fn refused_due(alloc: Global, unit: u32, why: &ReplayError) -> Result<Due, Journal>
    ensures ok { IfOk result (λ due. IsBare due 9 (refusal_line unit why.now) usual_limit) }
    ensures known { IfOk result (λ _. why.now ≢ ReplayError.NoMemory) }
    ensures err { IfErr result (λ journal. journal ≡ no_journal) }
{
    match why {
        ReplayError::NoMemory => Err(no_entries(alloc, USUAL_LIMIT)),
        _ => refused_line_due(alloc, unit, why),
    }
}

// What is due of a journal that was replayed.
fn replayed_due<M: Undo + Drop>(replayed: Replayed<M>) -> Due
    ensures status { result.status ≡ run_status replayed.journal.entries }
    ensures out { result.out ≡ replayed.report }
    ensures kept { result.kept ≡ None }
    ensures journal { result.journal ≡ replayed.journal }
{
    let Replayed {
        journal,
        report,
        ..
    } = replayed;
    Due {
        status: run_status(journal.entries.as_slice()),
        out: report,
        kept: None,
        journal,
    }
}

// What is due of the text of a journal.
fn text_due<M: Undo + Drop>(
    alloc: Global,
    accepted: &Accepted,
    script: &Script,
    bytes: &[u8],
) -> Result<Due, Journal>
    ensures ok { (counts : FaultCounts) → IfOk result (IsJournalDueFor accepted.now script.now
        (record { left = Some bytes.now; counts = counts })) }
    ensures legal { (v : Version) (kept : Journal) → IsTextOf v accepted.now script.now kept bytes.now
        → IfOk result (λ due. GivesJournal kept due.status due.journal) }
    ensures err { IfErr result (λ journal. journal ≡ no_journal) }
{
    match replay::<M>(alloc, accepted, script, bytes) {
        Ok(replayed) => Ok(replayed_due(replayed)),
        Err(why) => refused_due(alloc, accepted.unit(), &why),
    }
}

// What is due of the journal that a source has.
fn journal_due<M: Undo + Drop, S: Source>(
    alloc: Global,
    accepted: &Accepted,
    script: &Script,
    journal: &mut S,
) -> Result<Due, Journal>
    ensures ok { IfOk result (IsJournalDueFor accepted.now script.now
        (source_state (S.left journal.old) (S.faults journal.old) (S.faults journal.new))) }
    ensures legal { (v : Version) (kept : Journal) (text : List ℕ) → S.left journal.old ≡ Some text
        → IsTextOf v accepted.now script.now kept text
        → IfOk result (λ due. GivesJournal kept due.status due.journal) }
    ensures err { IfErr result (λ journal. journal ≡ no_journal) }
{
    // Where the items are read it is known how many they are and how they are written.
    accepted.know();
    let _items = script.items();
    match read_all(alloc, journal, MAX_BYTES) {
        Ok(bytes) => text_due::<M>(alloc, accepted, script, &bytes),
        Err(ReadError::TooLong) => refused_due(alloc, accepted.unit(), &ReplayError::TooLong),
        Err(ReadError::ReadFault) => line_due(alloc, USUAL_LIMIT, 5, b"read fault journal\n"),
        Err(ReadError::NoMemory) => Err(no_entries(alloc, USUAL_LIMIT)),
    }
}

/// What is due where the journal that a source has is replayed, of the script that another source has, on an accepted
/// contract. The journal's source is read only where there is a script. See docs/TEXTS.md, "How a journal is read".
pub fn replay_due<M: Undo + Drop, S: Source>(
    alloc: Global,
    accepted: &Accepted,
    script: &mut S,
    journal: &mut S,
) -> Result<Due, Journal>
    ensures ok { IfOk result (IsReplayDueFor accepted.now
        (source_state (S.left script.old) (S.faults script.old) (S.faults script.new))
        (source_state (S.left journal.old) (S.faults journal.old) (S.faults journal.new))) }
    ensures err { IfErr result (λ journal. journal ≡ no_journal) }

    // A legal journal, of either version, is due itself, unless a source failed.
    ensures legal { (script_text text : List ℕ) (items : List ScriptItem) (v : Version) (kept : Journal)
        → S.left script.old ≡ Some script_text → ReadsAs script_text items
        → S.left journal.old ≡ Some text → IsTextOf v accepted.now items kept text
        → IfOk result (λ due. GivesJournal kept due.status due.journal) }

    // Where there is no script, the journal is not read.
    ensures unread { (script_text : List ℕ) → S.left script.old ≡ Some script_text
        → ((items : List ScriptItem) → ¬ ReadsAs script_text items) → journal.new ≡ journal.old }
{
    match read_script(alloc, script) {
        Ok(script) => journal_due::<M, S>(alloc, accepted, &script, journal),
        Err(why) => no_script_due(alloc, USUAL_LIMIT, why),
    }
}
