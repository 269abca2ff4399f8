//! The next numbers of a ledger, and whether they are to be made small again.

ghost use Rattle.std.specs.Prelude.{◌≡◌, ◌↔◌, ◌++◌, IfOk, IfSome, IsTrue, None, codes};
ghost use Rattle.nomos_answers.specs.Outside.{source_state};
ghost use Rattle.nomos_report.specs.ReportLines.{line};
ghost use Rattle.nomos_carrying.specs.CarryDue.{IsRenumberingDue, TellsNumbers, next_numbers};
ghost use Rattle.nomos_carrying.specs.CarrySources.{IsNumbersDueFor};
ghost use Rattle.nomos_carrying.specs.mirror.Renumbering.{TellsNextOf};

use nomos_answers::due::{Due, bare_due};
use nomos_answers::resumes::{no_ledger_due, read_ledger};
use nomos_base::Source;
use nomos_contents::contents::Contents;
use nomos_ir::limits::USUAL_LIMIT;
use nomos_ledger::ledger::Ledger;
use nomos_printing::number::push_number;
use nomos_types::accepted::Accepted;
use std::alloc::{AllocError, Global};

/// The next number from which on a renumbering is due: half of the highest with which a ledger is saved.
const HALF: u32 = 1_073_741_824;

// Whether these next numbers are so high that a renumbering is due.
fn is_renumbering_due(object: u32, name: u32) -> bool
    ensures { IsTrue result ↔ IsRenumberingDue object name }
{
    object >= HALF || name >= HALF
}

// The line of the next numbers.
fn next_line(alloc: Global, object: u32, name: u32) -> Result<Vec<u8>, AllocError>
    ensures { IfOk result (λ text. text.items ≡ next_numbers object name) }
{
    let mut text = Vec::from_slice(alloc, b"next ")?;
    push_number(&mut text, u64::from(object))?;
    text.push(b' ')?;
    push_number(&mut text, u64::from(name))?;
    text.push(b'\n')?;
    Ok(text)
}

// The text with a line that says that a renumbering is due.
fn with_warning(text: Vec<u8>) -> Result<Vec<u8>, AllocError>
    ensures { IfOk result (λ made. made.items ≡ text.items ++ line (codes "renumbering is due")) }
{
    let mut text = text;
    text.extend_from_slice(b"renumbering is due\n")?;
    Ok(text)
}

// The line of the next numbers; and where one of them is half of what a snapshot may have or more, a line that says
// that a renumbering is due.
fn numbers_text(alloc: Global, object: u32, name: u32) -> Result<Vec<u8>, AllocError>
    ensures { IfOk result (λ text. TellsNumbers object name text.items) }
{
    let text = next_line(alloc, object, name)?;
    if is_renumbering_due(object, name) {
        return with_warning(text);
    }
    Ok(text)
}

/// What is due of a ledger whose next numbers are told.
pub(crate) fn told_numbers<M: Contents + Drop>(alloc: Global, ledger: &Ledger<M>) -> Option<Due>
    ensures { IfSome result (TellsNextOf ledger.now None) }
{
    let (object, name) = (ledger.state().next_object(), ledger.state().next_name());
    let out = numbers_text(alloc, object, name).ok()?;
    Some(bare_due(alloc, USUAL_LIMIT, 0, out))
}

/// What is due where the next numbers of a saved ledger are told. Nothing is due where memory is wanting. See
/// docs/LEDGER.md, "When to renumber".
pub fn numbers_due<M: Contents + Drop, S: Source>(
    alloc: Global,
    accepted: &Accepted,
    snapshot: &mut S,
) -> Option<Due>
    ensures { IfSome result (IsNumbersDueFor accepted.now
        (source_state (S.left snapshot.old) (S.faults snapshot.old) (S.faults snapshot.new))) }
{
    match read_ledger::<M, S>(alloc, accepted, snapshot) {
        Ok(ledger) => told_numbers(alloc, &ledger),
        Err(why) => no_ledger_due(alloc, &why).ok(),
    }
}
