//! What is due where a party from outside talks behind a script.

ghost use Rattle.std.specs.Prelude.{◌≡◌, ◌+◌, ◌≤◌, ◌++◌, ℕ, List, Some, IfOk, IfErr, codes, decimal, length};
ghost use Rattle.nomos_answers.specs.Finding.{FindsTalk, FindsTalkIn, HasNoTalk, HasRunPart, IsBare, TalksIn, TalksOf, TalksWhole};
ghost use Rattle.nomos_answers.specs.DueLines.{no_entries};
ghost use Rattle.nomos_answers.specs.Outside.{FaultCounts, source_state};
ghost use Rattle.nomos_answers.specs.RunsDue.{usual_orders};
ghost use Rattle.nomos_answers.specs.Sources.{IsRunPartFor, IsTalkDueFor};
ghost use Rattle.nomos_answers.specs.TalkDue.{talk_status};
ghost use Rattle.nomos_ir.specs.Limits.{text_limit};
ghost use Rattle.nomos_legal.specs.StandsFor.{StandsFor};
ghost use Rattle.nomos_script.specs.ScriptReading.{ReadsAs};
ghost use Rattle.nomos_script.specs.declared.item.ScriptItem.{ScriptItem};
ghost use Rattle.nomos_visit.specs.TalkText.{talk_line_text};
ghost use Rattle.nomos_visit.specs.TalkHeld.{LeavesNumbers};
ghost use Rattle.nomos_words.specs.Options.{usual_limit};

use crate::due::{Due, bare_due, line_due, no_entries};
use crate::runs::usual_orders;
use crate::script_found::{no_script_due, read_script};
use nomos_base::{ReadError, Source, read_all};
use nomos_deeds::talking::Talking;
use nomos_ir::limits::{TEXT_LIMIT, USUAL_LIMIT};
use nomos_legal::journal::Journal;
use nomos_printing::number::push_number;
use nomos_run::one_worker::run_script;
use nomos_run::orders::{ScriptRun, WholeRun};
use nomos_run::status::run_status;
use nomos_script::script::Script;
use nomos_script::talk_line::TalkLines;
use nomos_script::talk_parsing::{TalkError, parse_talk};
use nomos_types::accepted::Accepted;
use nomos_visit::held::{Party, ToldTalk, Visit, hold_talk};
use std::alloc::{AllocError, Global};

/// Why there is no text of a talk.
#[derive(Clone, Copy)]
enum NoTalk {
    ReadFault,
    Refused(TalkError),
}

// The talk of a text.
fn talk_of(alloc: Global, text: &[u8]) -> Result<TalkLines, NoTalk>
    ensures { (counts : FaultCounts) → FindsTalkIn (record { text = text.now; counts = counts }) result }
{
    match parse_talk(alloc, text) {
        Ok(lines) => Ok(lines),
        Err(why) => Err(NoTalk::Refused(why)),
    }
}

// The talk that a source has.
fn read_talk<S: Source>(alloc: Global, text: &mut S) -> Result<TalkLines, NoTalk>
    ensures { FindsTalk (source_state (S.left text.old) (S.faults text.old) (S.faults text.new)) result }
{
    match read_all(alloc, text, TEXT_LIMIT) {
        Ok(bytes) => talk_of(alloc, &bytes),
        Err(ReadError::TooLong) => Err(NoTalk::Refused(TalkError::TooLong)),
        Err(ReadError::ReadFault) => Err(NoTalk::ReadFault),
        Err(ReadError::NoMemory) => Err(NoTalk::Refused(TalkError::NoMemory)),
    }
}

// The line of a talk that is refused at a line of its text.
fn syntax_line(alloc: Global, line: u32) -> Result<Vec<u8>, AllocError>
    ensures { IfOk result (λ text. text.items ≡ talk_line_text (codes "refused Syntax " ++ decimal line)) }
{
    let mut text = Vec::from_slice(alloc, b"talk refused Syntax ")?;
    push_number(&mut text, u64::from(line))?;
    text.push(b'\n')?;
    Ok(text)
}

// What is due of a talk that is refused at a line of its text.
fn syntax_due(alloc: Global, line: u32) -> Result<Due, Journal>
    ensures ok { IfOk result (λ due.
        IsBare due 10 (talk_line_text (codes "refused Syntax " ++ decimal line)) usual_limit) }
    ensures err { IfErr result (λ journal. journal ≡ no_entries usual_limit) }
{
    match syntax_line(alloc, line) {
        Ok(out) => Ok(bare_due(alloc, USUAL_LIMIT, 10, out)),
        Err(_) => Err(no_entries(alloc, USUAL_LIMIT)),
    }
}

// What is due where there is no text of a talk.
fn no_talk_due(alloc: Global, why: NoTalk) -> Result<Due, Journal>
    ensures ok { IfOk result (HasNoTalk why) }
    ensures err { IfErr result (λ journal. journal ≡ no_entries usual_limit) }
{
    match why {
        NoTalk::ReadFault => line_due(alloc, USUAL_LIMIT, 5, b"read fault talk\n"),
        NoTalk::Refused(TalkError::TooLong) => {
            line_due(alloc, USUAL_LIMIT, 10, b"talk refused TooLong\n")
        }
        NoTalk::Refused(TalkError::Syntax(line)) => syntax_due(alloc, line),
        NoTalk::Refused(TalkError::NoMemory) => Err(no_entries(alloc, USUAL_LIMIT)),
    }
}

// The status of a talk behind a run: that of the run where all is done that the party does.
fn talk_status(fine: bool, journal: &Journal) -> u8
    ensures { result ≡ talk_status fine journal.now.entries }
{
    if fine {
        run_status(journal.entries.as_slice())
    } else {
        3
    }
}

// What is due of a run of which all items have passed, with a talk behind it. Where memory is wanting in the talk, the
// journal of the whole script is given.
fn talked_due<M: Talking + Drop>(
    alloc: Global,
    accepted: &Accepted,
    journal: Journal,
    whole: WholeRun<M>,
    visit: Visit<'_>,
) -> Result<Due, Journal>
    requires stands { StandsFor accepted.now whole.ledger }
    requires limit { visit.limit ≡ usual_limit }
    requires room { LeavesNumbers whole.ledger.state (usual_limit + 1 + length visit.lines.now) }
    ensures ok { IfOk result (TalksWhole accepted.now visit.entry.party.name.now visit.entry.party.proc.now
        visit.entry.lines.now journal whole.report.items whole.ledger) }
    ensures err { IfErr result (λ known. known ≡ journal) }
{
    let WholeRun { report, ledger, .. } = whole;
    match hold_talk(alloc, accepted, ledger, report, visit) {
        Ok(ToldTalk { fine, text }) => Ok(Due {
            status: talk_status(fine, &journal),
            out: text,
            kept: None,
            journal,
        }),
        Err(_) => Err(journal),
    }
}

// What is due of a script and of a talk that read.
fn ran_talk_due<M: Talking + Drop>(
    alloc: Global,
    accepted: &Accepted,
    script: &Script,
    visit: Visit<'_>,
) -> Result<Due, Journal>
    requires limit { visit.limit ≡ usual_limit }
    requires few { length visit.lines.now ≤ text_limit }
    ensures ok { IfOk result (TalksOf accepted.now visit.entry.party.name.now visit.entry.party.proc.now
        visit.entry.lines.now script.now) }
    ensures err { IfErr result (HasRunPart accepted.now script.now usual_orders) }
{
    // Where the items are read it is known how many they are.
    accepted.know();
    let _items = script.items();
    let ScriptRun { journal, finished } = run_script::<M>(usual_orders(), alloc, accepted, script);
    match finished {
        Some(whole) => talked_due(alloc, accepted, journal, whole, visit),
        None => Err(journal),
    }
}

// What is due of a script that reads, with the talk that a source has.
fn script_talk_due<M: Talking + Drop, S: Source>(
    alloc: Global,
    accepted: &Accepted,
    script: &Script,
    text: &mut S,
    party: Party<'_>,
) -> Result<Due, Journal>
    ensures ok { IfOk result (TalksIn accepted.now party.entry.name.now party.entry.proc.now script.now
        (source_state (S.left text.old) (S.faults text.old) (S.faults text.new))) }
    ensures err { IfErr result (HasRunPart accepted.now script.now usual_orders) }
{
    match read_talk(alloc, text) {
        Ok(lines) => {
            let visit = Visit {
                party,
                lines: lines.as_slice(),
                limit: USUAL_LIMIT,
            };
            ran_talk_due::<M>(alloc, accepted, script, visit)
        }
        Err(why) => no_talk_due(alloc, why),
    }
}

/// What is due where the script that a source has is run on an accepted contract, from the empty ledger, by one worker,
/// and behind it a party from outside talks on one channel, as the text says that another source has: the report, and
/// behind it a line for each reply. The text of the talk is read only where there is a script, and before anything is
/// run. Want of memory gives the journal of some first items. See docs/TEXTS.md, "Words and statuses" and "The text of
/// a talk", and docs/MACHINE.md, "An outside party".
pub fn talk_due<M: Talking + Drop, S: Source>(
    alloc: Global,
    accepted: &Accepted,
    script: &mut S,
    text: &mut S,
    party: Party<'_>,
) -> Result<Due, Journal>
    ensures ok { IfOk result (IsTalkDueFor accepted.now party.entry.name.now party.entry.proc.now
        (source_state (S.left script.old) (S.faults script.old) (S.faults script.new))
        (source_state (S.left text.old) (S.faults text.old) (S.faults text.new))) }
    ensures err { IfErr result (IsRunPartFor accepted.now usual_orders
        (source_state (S.left script.old) (S.faults script.old) (S.faults script.new))) }

    // Where there is no script, the talk is not read.
    ensures unread { (script_text : List ℕ) → S.left script.old ≡ Some script_text
        → ((items : List ScriptItem) → ¬ ReadsAs script_text items) → text.new ≡ text.old }
{
    match read_script(alloc, script) {
        Ok(script) => script_talk_due::<M, S>(alloc, accepted, &script, text, party),
        Err(why) => no_script_due(alloc, USUAL_LIMIT, why),
    }
}
