//! Acceptance of contract texts.
ghost use Rattle.std.specs.Prelude.{◌≡◌, ◌≤◌, ◌^◌, ℕ, List};
ghost use Rattle.nomos_accept.specs.AcceptedText.{Answers};
ghost use Rattle.nomos_accept.specs.TypedText.{IsReadAs};
ghost use Rattle.nomos_accept.specs.Preparing.{HasRows};
ghost use Rattle.nomos_forms.specs.Bounds.{IsFound, IsVerdict};
ghost use Rattle.nomos_forms.specs.Meeting.{MeetsRows};
ghost use Rattle.nomos_forms.specs.Refuting.{NoneMeet, Refutes};
ghost use Rattle.nomos_types.specs.Acceptance.{acceptance};

use crate::preparing::{Prepared, prepare};
use crate::why::{AcceptError, Why};
use nomos_forms::found::Found;
use nomos_forms::meeting::put_back;
use nomos_forms::refuting::refutes;
use nomos_forms::row_list::RowList;
use nomos_forms::verdict::Verdict;
use nomos_ir::program::Program;
use nomos_simplex::solved::Solved;
use nomos_simplex::solving::solve;
use nomos_types::accepted::Accepted;
use std::alloc::Global;

/// The acceptance of a program under amounts that meet its rows. They are put back into the rows, and proved to pass.
pub fn accepted(program: Program, rows: &RowList, found: Found) -> Accepted
    requires rows { HasRows program rows.now }
    requires found { IsFound rows.now.stars found }
    requires unit { found.unit ≤ 2 ^ 31 }
    requires meets { MeetsRows found.stars found.unit rows.now.rows }
    ensures { result ≡ acceptance program found.stars found.unit }
{
    if !put_back(rows, &found) {
        unreachable!()
    }
    Accepted::of_typed(program, found.stars, found.unit)
}

/// The refusal of a program whose rows are refuted. From `refutes`, which the verdict is proved to pass, comes that no
/// amounts meet them.
pub fn refuted(rows: &RowList, verdict: Verdict) -> AcceptError
    requires verdict { IsVerdict verdict }
    requires refutes { Refutes rows.now.stars rows.now.rows verdict }
    ensures refused { result ≡ AcceptError.Refused (Why.NoPotential verdict) }
    ensures none_meet { NoneMeet rows.now.stars rows.now.rows }
{
    if !refutes(rows, &verdict) {
        unreachable!()
    }
    AcceptError::Refused(Why::NoPotential(verdict))
}

/// Accepts a program where the pivot run finds amounts that meet its rows, or says why not.
fn judge(alloc: Global, prepared: Prepared) -> Result<Accepted, AcceptError>
    requires rows { HasRows prepared.program prepared.rows }
    ensures { (text : List ℕ) → IsReadAs text prepared.program → Answers text result }
{
    let Prepared { program, rows } = prepared;
    match solve(alloc, &rows) {
        Ok(Solved::Found(found)) => Ok(accepted(program, &rows, found)),
        Ok(Solved::Refuted(verdict)) => Err(refuted(&rows, verdict)),
        Ok(Solved::Unsolved(stop)) => Err(AcceptError::Unsolved(stop)),
        Err(_) => Err(AcceptError::NoMemory),
    }
}

/// Accepts a contract text where it reads as a program that is typed under the amounts that the pivot run finds, and
/// says otherwise why not, by the first cause in the order of docs/LANGUAGE.md, "Acceptance". A text that is refused is
/// typed under no amounts over any unit. Want of memory is the one answer for which no reason is given.
///
/// ```
/// let accepted = accept(alloc, b"proc T twice(n : int;) = emit n + n; close;")?;
/// assert_eq!(accepted.unit(), 1);
/// ```
pub fn accept(alloc: Global, text: &[u8]) -> Result<Accepted, AcceptError>
    ensures { Answers text.now result }
{
    let prepared = prepare(alloc, text)?;
    judge(alloc, prepared)
}
