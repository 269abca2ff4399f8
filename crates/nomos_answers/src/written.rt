//! How what is due is written.

ghost use Rattle.std.specs.Prelude.{◌≡◌, ◌⊎◌, ℕ, List, Some, None};
ghost use Rattle.nomos_base.specs.Sink.{with_end};
ghost use Rattle.nomos_answers.specs.Outside.{SinkState, sink_state};
ghost use Rattle.nomos_answers.specs.Sources.{kept_text};
ghost use Rattle.nomos_answers.specs.Written.{HasWrittenOut};

use crate::due::Due;
use nomos_base::{Sink, write_all};

// Writes the text of a journal, or a snapshot, behind the output.
fn write_text<K: Sink>(status: u8, text: &[u8], journal_out: &mut K) -> u8
    ensures { (bytes : List ℕ) (out : SinkState) → out.after ≡ with_end out.before bytes
        → HasWrittenOut status bytes (Some text.now) out
        (sink_state (K.written journal_out.old) (K.written journal_out.new) (K.faults journal_out.old)
        (K.faults journal_out.new))
        result }
{
    match write_all(journal_out, text) {
        Ok(()) => status,
        Err(_) => 6,
    }
}

// Writes the text of a journal, or a snapshot, if there is one, behind the output.
fn write_kept<K: Sink>(due: &Due, journal_out: &mut K) -> u8
    ensures written { (bytes : List ℕ) (out : SinkState) → out.after ≡ with_end out.before bytes
        → HasWrittenOut due.now.status bytes (kept_text due.now) out
        (sink_state (K.written journal_out.old) (K.written journal_out.new) (K.faults journal_out.old)
        (K.faults journal_out.new))
        result }
    ensures none { kept_text due.now ≡ None → journal_out.new ≡ journal_out.old }
{
    match &due.kept {
        None => due.status,
        Some(text) => write_text(due.status, text, journal_out),
    }
}

/// Writes what is due: the output, and behind it the text of the journal, or the snapshot, if one is to be kept. The
/// status that stands then is that of what is due, or 6 where a sink failed.
pub fn write_due<K: Sink>(due: &Due, out: &mut K, journal_out: &mut K) -> u8
    ensures written { HasWrittenOut due.now.status due.now.out.items (kept_text due.now)
        (sink_state (K.written out.old) (K.written out.new) (K.faults out.old) (K.faults out.new))
        (sink_state (K.written journal_out.old) (K.written journal_out.new) (K.faults journal_out.old)
        (K.faults journal_out.new))
        result }

    // Where there is no text of a journal, or the output was not all written, the journal's sink stays as it was.
    ensures none { kept_text due.now ≡ None → journal_out.new ≡ journal_out.old }
    ensures behind { (journal_out.new ≡ journal_out.old)
        ⊎ (K.written out.new ≡ with_end (K.written out.old) due.now.out.items) }
{
    match write_all(out, &due.out) {
        Ok(()) => write_kept(due, journal_out),
        Err(_fault) => 6,
    }
}
