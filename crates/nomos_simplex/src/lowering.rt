//! The least run.
ghost use Rattle.std.specs.Prelude.{◌≡◌, ℕ, ◌+◌, ◌<◌, ◌≤◌, ◌^◌, pos, ◌<ℤ◌, ◌≤ℤ◌, unsigned_abs, length, map, All, IfOk, Ok, Some, None, slice_get, if◌then◌else◌};
ghost use Rattle.nomos_forms.specs.Bounds.{IsForm, IsFound, IsVerdict};
ghost use Rattle.nomos_forms.specs.Linear.{form_value};
ghost use Rattle.nomos_forms.specs.Meeting.{MeetsRows};
ghost use Rattle.nomos_forms.specs.Refuting.{Refutes};
ghost use Rattle.nomos_forms.specs.declared.form.Form.{Form};
ghost use Rattle.nomos_forms.specs.declared.row_list.RowList.{RowList};
ghost use Rattle.nomos_forms.specs.declared.found.Found.{Found};
ghost use Rattle.nomos_forms.specs.declared.verdict.Verdict.{Verdict};
ghost use Rattle.nomos_simplex.specs.Divisors.{in_lowest_terms};
ghost use Rattle.nomos_simplex.specs.Exchange.{coef_at, exchanged};
ghost use Rattle.nomos_simplex.specs.Exits.{fractions, found_or_large};
ghost use Rattle.nomos_simplex.specs.LeastRun.{Lowers, LeastRun, line_exchanged, is_large_with, proof_of, is_total, least_or_large};
ghost use Rattle.nomos_simplex.specs.PivotRun.{answer_to};
ghost use Rattle.nomos_simplex.specs.ShowsLeast.{ShowsLeast, IsProof};
ghost use Rattle.nomos_simplex.specs.Sizes.{IsNumber, IsLine, IsLowest, IsTable, IsVariable};
ghost use Rattle.nomos_simplex.specs.declared.solved.Proof.{Proof};
ghost use Rattle.nomos_simplex.specs.declared.solved.SolvedLeast.TheVariants as least;
ghost use Rattle.nomos_simplex.specs.declared.table.TableLine.{TableLine};
ghost use Rattle.nomos_simplex.specs.declared.table.Table.{Table};
ghost use Rattle.nomos_simplex.specs.mirror.Classes.{IsReached, IsKept, ShowsFull};
ghost use Rattle.nomos_simplex.specs.mirror.Steps.{IsNext, IsNotFound, MayLeave, StandsAt, EndsFoundAt, LowersTo, IsAimedOrLarge};

use crate::classes::Classed;
use crate::fractions::found;
use crate::goal_line::goal_line;
use crate::nearest::{lowering, nearest};
use crate::refusing::{resolved, times_of, weights_of};
use crate::sizes::is_too_large;
use crate::solved::{Proof, Solved, SolvedLeast, Stop};
use crate::solving::{BUDGET, SolvingEnd, seek};
use crate::table::TableLine;
use crate::table_lines::{enter, negated, next_places, opposite_line};
use crate::turning::exchange_classed;
use nomos_forms::form::Form;
use nomos_forms::found::Found;
use nomos_forms::meeting::value_of;
use nomos_forms::row_list::RowList;
use nomos_ir::items::Items;
use std::alloc::{AllocError, Global};

/// What is kept of a table, and the line of the goal over its nonbasic variables.
#[derive(Drop)]
pub(crate) struct Aimed {
    pub(crate) classed: Classed,
    pub(crate) line: TableLine,
}

/// The least run ends, or goes on.
#[derive(Drop)]
pub(crate) enum LeastTurn {
    Ends(SolvedLeast),
    Goes(Aimed),
}

/// Exchanges the basic variable of the line at a place, where the coefficient is below 0, with the nonbasic variable of
/// a column, in the goal's line too, unless a number is then too large.
fn exchange_aimed(
    alloc: Global,
    rows: &RowList,
    aimed: Aimed,
    place: usize,
    column: usize,
) -> Result<Option<Aimed>, AllocError>
    requires kept { IsKept rows.now aimed.classed }
    requires place { MayLeave aimed.classed.kept.table column place }
    requires column { column < length aimed.classed.kept.table.nonbasic }
    requires line { IsLine (length aimed.classed.kept.table.nonbasic) aimed.line }
    requires lowest_line { IsLowest aimed.line }
    ensures { (full : Table) (k : ℕ) (left : TableLine) → IsReached rows.now full
        → ShowsFull rows.now aimed.classed full →
        slice_get full.lines k ≡ Some left → slice_get aimed.classed.kept.table.lines place ≡ Some left →
        IfOk result (IsAimedOrLarge rows.now (exchanged k column left full) (line_exchanged column left aimed.line)) }
{
    let Aimed { classed, mut line } = aimed;
    let left = opposite_line(alloc, &classed.kept.table.lines.as_slice()[place])?;
    let next = next_places(alloc, left.coefs.as_slice())?;
    let small = enter(alloc, column, &left, &next, &mut line);
    if is_too_large(small, &line) {
        return Ok(None);
    }
    match exchange_classed(alloc, rows, classed, place, column)? {
        Some(classed) => Ok(Some(Aimed { classed, line })),
        None => Ok(None),
    }
}

/// A goal's value as a total, if it is one.
fn total_of(goal: &Form, found: &Found) -> Option<u64>
    requires few { length found.now.stars ≤ 64 }
    requires goal { IsForm (length found.now.stars) goal.now }
    requires found { IsFound (length found.now.stars) found.now }
    ensures { result ≡ (if is_total (form_value found.now.stars found.now.unit goal.now)
        then Some (unsigned_abs (form_value found.now.stars found.now.unit goal.now)) else None) }
{
    let value = value_of(goal, found);
    if value >= 0 && value < TOO_MUCH {
        Some(value as u64)
    } else {
        None
    }
}

/// The goal from which on a total is too large, in parts.
const TOO_MUCH: i128 = 1 << 62;

/// The weights of the coefficients over 0 of the goal's line, with its scale.
fn proof_at(alloc: Global, rows: &RowList, aimed: &Aimed, total: u64) -> Result<Proof, AllocError>
    requires line { IsLine (length aimed.now.classed.kept.table.nonbasic) aimed.now.line }
    requires nonbasic { All (IsVariable rows.now) aimed.now.classed.kept.table.nonbasic }
    ensures { IfOk result (λ made. made ≡ proof_of rows.now aimed.now.classed.kept.table aimed.now.line total) }
{
    let negated = negated(alloc, aimed.line.coefs.as_slice())?;
    let nonbasic = aimed.classed.kept.table.nonbasic.as_slice();
    let weights = weights_of(alloc, nonbasic, &negated)?;
    let list = resolved(alloc, rows, &weights)?;
    Ok(Proof {
        scale: times_of(aimed.line.times),
        weights: Items::of_vec(list),
        total,
    })
}

/// The answer where no coefficient of the goal's line is below 0.
fn end_at(
    alloc: Global,
    rows: &RowList,
    goal: &Form,
    aimed: &Aimed,
    pivots: u32,
) -> Result<SolvedLeast, AllocError>
    requires goal { IsForm rows.now.stars goal.now }
    requires run { LowersTo rows.now goal.now pivots aimed.now }
    ensures { (full : Table) → Lowers rows.now goal.now pivots full aimed.now.line →
        ShowsFull rows.now aimed.now.classed full → IfOk result (λ answer. answer ≡
        least_or_large pivots rows.now goal.now full aimed.now.line (found_or_large pivots (fractions rows.now full))) }
{
    match found(alloc, rows, &aimed.classed.kept.table, pivots)? {
        Solved::Found(found) => {
            let Some(total) = total_of(goal, &found) else {
                return Ok(SolvedLeast::Unsolved(Stop::Large(pivots)));
            };
            let proof = proof_at(alloc, rows, aimed, total)?;
            Ok(SolvedLeast::Found(found, proof))
        }
        Solved::Refuted(verdict) => Ok(SolvedLeast::Refuted(verdict)),
        Solved::Unsolved(stop) => Ok(SolvedLeast::Unsolved(stop)),
    }
}

/// What comes at a table and the goal's line, after so many pivots.
fn turn_of(
    alloc: Global,
    rows: &RowList,
    goal: &Form,
    aimed: Aimed,
    pivots: u32,
) -> Result<LeastTurn, AllocError>
    requires goal { IsForm rows.now.stars goal.now }
    requires coefs { All (λ c. pos 0 ≤ℤ c) goal.now.coefs }
    requires pivots { pivots ≤ 2000 }
    requires run { LowersTo rows.now goal.now pivots aimed }
    ensures { IfOk result (IsNext rows.now goal.now pivots) }
{
    let kept = &aimed.classed.kept;
    let Some(column) = lowering(&kept.table, &aimed.line) else {
        return Ok(LeastTurn::Ends(end_at(alloc, rows, goal, &aimed, pivots)?));
    };
    let Some(place) = nearest(kept, column) else {
        unreachable!()
    };
    if pivots >= BUDGET {
        return Ok(LeastTurn::Ends(SolvedLeast::Unsolved(Stop::Pivots)));
    }
    match exchange_aimed(alloc, rows, aimed, place, column)? {
        Some(after) => Ok(LeastTurn::Goes(after)),
        None => Ok(LeastTurn::Ends(SolvedLeast::Unsolved(Stop::Large(pivots + 1)))),
    }
}

/// The least run from a table and the goal's line on, after so many pivots.
fn lower(
    alloc: Global,
    rows: &RowList,
    goal: &Form,
    mut aimed: Aimed,
    pivots: u32,
) -> Result<SolvedLeast, AllocError>
    requires goal { IsForm rows.now.stars goal.now }
    requires coefs { All (λ c. pos 0 ≤ℤ c) goal.now.coefs }
    requires pivots { pivots ≤ 2000 }
    requires run { LowersTo rows.now goal.now pivots aimed }
    ensures { IfOk result (LeastRun rows.now goal.now) }
{
    for made in pivots..BUDGET {
        match turn_of(alloc, rows, goal, aimed, made)? {
            LeastTurn::Ends(answer) => return Ok(answer),
            LeastTurn::Goes(after) => aimed = after,
        }
    }
    match turn_of(alloc, rows, goal, aimed, BUDGET)? {
        LeastTurn::Ends(answer) => Ok(answer),
        LeastTurn::Goes(_) => unreachable!(),
    }
}

/// The least run from where the pivot run has found amounts, after so many pivots.
fn lower_from(
    alloc: Global,
    rows: &RowList,
    goal: &Form,
    classed: Classed,
    pivots: u32,
) -> Result<SolvedLeast, AllocError>
    requires goal { IsForm rows.now.stars goal.now }
    requires coefs { All (λ c. pos 0 ≤ℤ c) goal.now.coefs }
    requires pivots { pivots ≤ 2000 }
    requires run { EndsFoundAt rows.now classed pivots }
    ensures { IfOk result (LeastRun rows.now goal.now) }
{
    let Some(line) = goal_line(alloc, &classed.kept.table, goal)? else {
        return Ok(SolvedLeast::Unsolved(Stop::Large(pivots)));
    };
    lower(alloc, rows, goal, Aimed { classed, line }, pivots)
}

/// An answer of the pivot run without amounts, as one of the least run.
fn without_amounts(solved: Solved) -> SolvedLeast
    requires { IsNotFound solved }
    ensures { (rows : RowList) (goal : Form) → answer_to rows ≡ solved → LeastRun rows goal result }
{
    match solved {
        Solved::Refuted(verdict) => SolvedLeast::Refuted(verdict),
        Solved::Unsolved(stop) => SolvedLeast::Unsolved(stop),
        Solved::Found(_) => unreachable!(),
    }
}

/// The answer where the pivot run ends at a table, after so many pivots, and no basic variable is below its bound.
fn run_on(
    alloc: Global,
    rows: &RowList,
    goal: &Form,
    classed: Classed,
    pivots: u32,
) -> Result<SolvedLeast, AllocError>
    requires goal { IsForm rows.now.stars goal.now }
    requires coefs { All (λ c. pos 0 ≤ℤ c) goal.now.coefs }
    requires stands { StandsAt rows.now classed pivots }
    ensures { IfOk result (LeastRun rows.now goal.now) }
{
    match found(alloc, rows, &classed.kept.table, pivots)? {
        Solved::Found(_) => lower_from(alloc, rows, goal, classed, pivots),
        Solved::Refuted(verdict) => Ok(SolvedLeast::Refuted(verdict)),
        Solved::Unsolved(stop) => Ok(SolvedLeast::Unsolved(stop)),
    }
}

/// Both runs: the answer of the pivot run where that is no amounts, and otherwise that of the least run.
fn run_both(alloc: Global, rows: &RowList, goal: &Form) -> Result<SolvedLeast, AllocError>
    requires goal { IsForm rows.now.stars goal.now }
    requires coefs { All (λ c. pos 0 ≤ℤ c) goal.now.coefs }
    ensures { IfOk result (LeastRun rows.now goal.now) }
{
    match seek(alloc, rows)? {
        SolvingEnd::Stands(classed, pivots) => run_on(alloc, rows, goal, classed, pivots),
        SolvingEnd::Ends(solved) => Ok(without_amounts(solved)),
    }
}

/// Amounts that meet the rows and have the least goal, with a proof of that, or a verdict that none meet the rows, or
/// why the run stopped: `docs/SOLVER.md`, "The least run". The total of the proof is the goal in parts of the unit of
/// the amounts, its written part included.
pub fn solve_least(alloc: Global, rows: &RowList, goal: &Form) -> Result<SolvedLeast, AllocError>
    requires goal { IsForm rows.now.stars goal.now }
    requires coefs { All (λ c. pos 0 ≤ℤ c) goal.now.coefs }
    ensures run { IfOk result (LeastRun rows.now goal.now) }

    // What is found meets the rows, and its proof shows that the goal is least; what is refuted has no amounts. All are
    // such that the second checks take them.
    ensures found { (found : Found) (proof : Proof) → result ≡ Ok (least.Found found proof) →
        IsFound rows.now.stars found × MeetsRows found.stars found.unit rows.now.rows × IsProof proof ×
        ShowsLeast rows.now.rows goal.now found.unit proof }
    ensures unit { (found : Found) (proof : Proof) → result ≡ Ok (least.Found found proof) → found.unit ≤ 2 ^ 31 }
    ensures refuted { (verdict : Verdict) → result ≡ Ok (least.Refuted verdict) →
        IsVerdict verdict × Refutes rows.now.stars rows.now.rows verdict }
{
    run_both(alloc, rows, goal)
}
