//! The reading of a journal: what its text tells is run, item by item of the script, from any ledger.

ghost use Rattle.std.specs.Prelude.{◌≡◌, ◌<◌, ◌^◌, ◌⊎◌, Err, IfOk, IfErr, IsSome, MatchResult, Some, length};
ghost use Rattle.nomos_legal.specs.NextNumbers.{HasNumbered};
ghost use Rattle.nomos_legal.specs.StandsFor.{StandsFor};
ghost use Rattle.nomos_legal.specs.declared.journal.Journal.{Journal};
ghost use Rattle.nomos_journal.specs.JournalText.{IsTextOf};
ghost use Rattle.nomos_journal.specs.declared.line.Version.{Version};
ghost use Rattle.nomos_replay.specs.Answers.{Answers, AnswersFrom};
ghost use Rattle.nomos_replay.specs.Replayed.{HasReplayed, HasReplayedFrom, IsRefusedFrom, IsRefusedSo, IsTextFrom};
ghost use Rattle.nomos_replay.specs.declared.error.ReplayError.{ReplayError};

pub use crate::answering::MAX_BYTES;
use crate::answering::{AskedOfText, ToldText, answer};
use crate::error::ReplayError;
use nomos_deeds::undo::Undo;
use nomos_ledger::ledger::Ledger;
use nomos_legal::journal::Journal;
use nomos_script::script::Script;
use nomos_types::accepted::Accepted;
use nomos_walk::papers::{Papers, WantedTexts};
use std::alloc::Global;

/// What the text of a legal journal gives: the journal, the ledger to which it leads, and its report.
#[derive(Drop)]
pub struct Replayed<M: Undo> {
    pub journal: Journal,
    pub ledger: Ledger<M>,
    pub report: Vec<u8>,
}

// What is given of a text that was read to its end, of which a report was written.
fn with_report<M: Undo + Drop>(whole: ToldText<M>) -> Replayed<M>
    requires { IsSome whole.papers.report }
    ensures journal { result.journal ≡ whole.journal }
    ensures ledger { result.ledger ≡ whole.ledger }
    ensures report { Some result.report.items ≡ whole.papers.report }
{
    let ToldText {
        journal,
        ledger,
        papers,
    } = whole;
    let Papers {
        report,
        text: _text,
        result: _result,
    } = papers;
    match report.into_text() {
        Some(report) => Replayed {
            journal,
            ledger,
            report,
        },
        None => unreachable!(),
    }
}

/// Reads the text of a journal of a script, of version 1 or 2, and runs it from a ledger: what docs/TEXTS.md, "How a
/// journal is read", says. `Ok` comes exactly where the bytes are the text of a journal of the script's items that is
/// legal from this ledger: then it gives that journal, the ledger to which it leads, and its report. Otherwise the
/// first line that spoils the text is refused, or the text is too long. Want of memory may come for every text. The
/// ledger stands for the program, and each of its next numbers, and the number of its accounts, is at most some 2^31.
pub fn replay_from<M: Undo + Drop>(
    alloc: Global,
    accepted: &Accepted,
    from: Ledger<M>,
    script: &Script,
    bytes: &[u8],
) -> Result<Replayed<M>, ReplayError>
    requires stands { StandsFor accepted.now from }
    requires numbers { HasNumbered (2 ^ 31) from.state }
    requires accounts { length from.accounts < 2 ^ 31 }
    ensures ok { IfOk result (λ r.
        HasReplayedFrom accepted.now from script.now bytes.now r.journal r.ledger r.report.items) }
    ensures err { IfErr result (IsRefusedFrom accepted.now from script.now bytes.now) }
    ensures legal { (v : Version) (journal : Journal)
        → IsTextFrom v accepted.now from script.now journal bytes.now
        → MatchResult result (λ r. r.journal ≡ journal) (λ e. e ≡ ReplayError.NoMemory) }
    ensures refuses { (why : ReplayError) → AnswersFrom accepted.now from script.now bytes.now (Err why)
        → MatchResult result (λ _. ⊥) (λ e. (e ≡ why) ⊎ (e ≡ ReplayError.NoMemory)) }
    ensures stands { IfOk result (λ r. StandsFor accepted.now r.ledger) }
{
    // Where the items are read it is known how many they are and how they are written, and where an account is, that
    // its ledger is one.
    accepted.know();
    let _items = script.items();
    let _account = from.account(0);
    let wanted = WantedTexts {
        report: true,
        text: false,
        result: false,
    };
    let whole = answer(alloc, accepted, from, AskedOfText { script, wanted }, bytes)?;
    Ok(with_report(whole))
}

/// Reads the text of a journal of a script and runs it from the empty ledger: see `replay_from`.
///
/// ```
/// // `text` is what `run_script` gave as the text of its journal.
/// let replayed = replay::<IndexedState>(alloc, &accepted, &script, &text)?;
/// // Its report is that of the run, byte for byte.
/// ```
pub fn replay<M: Undo + Drop>(
    alloc: Global,
    accepted: &Accepted,
    script: &Script,
    bytes: &[u8],
) -> Result<Replayed<M>, ReplayError>
    ensures ok { IfOk result (λ r. HasReplayed accepted.now script.now bytes.now r.journal r.ledger r.report.items) }
    ensures err { IfErr result (IsRefusedSo accepted.now script.now bytes.now) }
    ensures legal { (v : Version) (journal : Journal) → IsTextOf v accepted.now script.now journal bytes.now
        → MatchResult result (λ r. r.journal ≡ journal) (λ e. e ≡ ReplayError.NoMemory) }
    ensures refuses { (why : ReplayError) → Answers accepted.now script.now bytes.now (Err why)
        → MatchResult result (λ _. ⊥) (λ e. (e ≡ why) ⊎ (e ≡ ReplayError.NoMemory)) }
    ensures stands { IfOk result (λ r. StandsFor accepted.now r.ledger) }
{
    replay_from(alloc, accepted, Ledger::empty(alloc), script, bytes)
}
