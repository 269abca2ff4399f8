//! Least bounds of contract texts.
ghost use Rattle.std.specs.Prelude.{◌≡◌, ◌≤◌, ◌^◌, ℕ, List, All, pos, ◌≤ℤ◌};
ghost use Rattle.nomos_accept.specs.TypedText.{IsReadAs};
ghost use Rattle.nomos_accept.specs.Preparing.{HasRows};
ghost use Rattle.nomos_forms.specs.Bounds.{IsForm, IsFound};
ghost use Rattle.nomos_forms.specs.Meeting.{MeetsRows};
ghost use Rattle.nomos_least.specs.Goal.{goal_of};
ghost use Rattle.nomos_least.specs.LeastBounds.{AnswersLeast};
ghost use Rattle.nomos_simplex.specs.ShowsLeast.{ShowsLeast, IsProof, NoneSmaller};
ghost use Rattle.nomos_types.specs.Acceptance.{acceptance};

use crate::goal::goal_of;
use crate::showing::shows_least;
use nomos_accept::accepting::{accepted, refuted};
use nomos_accept::preparing::{Prepared, prepare};
use nomos_accept::why::AcceptError;
use nomos_forms::form::Form;
use nomos_forms::found::Found;
use nomos_forms::row_list::RowList;
use nomos_ir::program::Program;
use nomos_simplex::lowering::solve_least;
use nomos_simplex::solved::{Proof, SolvedLeast};
use nomos_types::accepted::Accepted;
use std::alloc::Global;

/// An accepted program whose transactions declare the least in all, with what shows it: its rows, the goal, which is
/// what its transactions declare as a form, and weights. `docs/SOLVER.md`, "A proof that a goal is least, and how to
/// check one", says how they are checked.
#[derive(Drop, Debug)]
pub struct LeastBounds {
    /// The program, with the amounts that the least run finds.
    pub accepted: Accepted,
    /// What amounts have to meet for the program to be typed under them.
    pub rows: RowList,
    /// What the transactions declare, all together.
    pub goal: Form,
    /// The weights that show that no amounts that meet the rows have a smaller goal. Its total is the goal in Dths of
    /// the accepted program.
    pub proof: Proof,
}

/// The acceptance of a program under amounts that meet its rows and have the least goal. From `shows_least`, which the
/// proof is proved to pass, comes that no others have a smaller one.
fn bounded(program: Program, rows: &RowList, goal: &Form, found: Found, proof: &Proof) -> Accepted
    requires rows { HasRows program rows.now }
    requires goal { IsForm rows.now.stars goal.now }
    requires found { IsFound rows.now.stars found × (found.unit ≤ 2 ^ 31)
        × MeetsRows found.stars found.unit rows.now.rows }
    requires proof { IsProof proof.now }
    requires shows { ShowsLeast rows.now.rows goal.now found.unit proof.now }
    ensures accepted { result ≡ acceptance program found.stars found.unit }
    ensures none_smaller { NoneSmaller rows.now.rows goal.now found.unit proof.now.total }
{
    if !shows_least(rows, goal, found.unit, proof) {
        unreachable!()
    }
    accepted(program, rows, found)
}

/// The least bounds of a program of this goal, or why there are none.
fn judge_by(alloc: Global, prepared: Prepared, goal: Form) -> Result<LeastBounds, AcceptError>
    requires rows { HasRows prepared.program prepared.rows }
    requires goal { goal ≡ goal_of prepared.program }
    requires form { IsForm prepared.rows.stars goal }
    requires coefs { All (λ c. pos 0 ≤ℤ c) goal.coefs }
    ensures { (text : List ℕ) → IsReadAs text prepared.program → AnswersLeast text result }
{
    match solve_least(alloc, &prepared.rows, &goal) {
        Ok(SolvedLeast::Found(found, proof)) => {
            let Prepared { program, rows } = prepared;
            Ok(LeastBounds {
                accepted: bounded(program, &rows, &goal, found, &proof),
                rows,
                goal,
                proof,
            })
        }
        Ok(SolvedLeast::Refuted(verdict)) => {
            let refusal = refuted(&prepared.rows, verdict);
            drop(prepared);
            drop(goal);
            Err(refusal)
        }
        Ok(SolvedLeast::Unsolved(stop)) => {
            drop(prepared);
            drop(goal);
            Err(AcceptError::Unsolved(stop))
        }
        Err(_) => {
            drop(prepared);
            drop(goal);
            Err(AcceptError::NoMemory)
        }
    }
}

/// The least bounds of a program, or why there are none.
fn judge(alloc: Global, prepared: Prepared) -> Result<LeastBounds, AcceptError>
    requires rows { HasRows prepared.program prepared.rows }
    ensures { (text : List ℕ) → IsReadAs text prepared.program → AnswersLeast text result }
{
    match goal_of(alloc, &prepared.program) {
        Ok(goal) => judge_by(alloc, prepared, goal),
        Err(_) => {
            drop(prepared);
            Err(AcceptError::NoMemory)
        }
    }
}

/// The amounts under which a contract text is typed and of which its transactions declare the least in all, with
/// weights that show it. A text is refused exactly as `nomos_accept::accepting::accept` refuses it, and it is unsolved
/// where the pivot run or the least run stops. Want of memory is the one answer for which no reason is given.
///
/// ```
/// let bounds = least(alloc, b"proc T twice(n : int;) = emit n + n; close;")?;
/// ```
pub fn least(alloc: Global, text: &[u8]) -> Result<LeastBounds, AcceptError>
    ensures { AnswersLeast text.now result }
{
    let prepared = prepare(alloc, text)?;
    judge(alloc, prepared)
}
