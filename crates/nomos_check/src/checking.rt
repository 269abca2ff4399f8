//! Whether a process is typed, and which rows its potential and its types give.
ghost use Rattle.std.specs.Prelude.{◌≡◌, ◌<◌, [], MatchOption, Some, None, Ok, Err, IfOk, OnOk, slice_get, length};
ghost use Rattle.nomos_ir.specs.declared.amount.Amount.{Amount};
ghost use Rattle.nomos_ir.specs.declared.declaration.ProcDecl.{ProcDecl};
ghost use Rattle.nomos_ir.specs.Amounts.{star_count};
ghost use Rattle.nomos_equality.specs.Comparing.{HasCompared, StaysCompared};
ghost use Rattle.nomos_types.specs.Typed.{IsWellFormed};
ghost use Rattle.nomos_check.specs.Checker.{IsCheckerOf};
ghost use Rattle.nomos_check.specs.Checking.{AnswersProcess, AnswersProcessBeside};
ghost use Rattle.nomos_check.specs.mirror.ProcessAnswers.{GathersAll, JoinsPairs};
ghost use Rattle.nomos_check.specs.mirror.Fresh.{IsFresh};
ghost use Rattle.nomos_check.specs.mirror.StandingData.{IsReady, KeepsCompared};
ghost use Rattle.nomos_check.specs.InHand.{AreWanted, ArePotentials};
ghost use Rattle.nomos_check.specs.Reaching.{outset_of};

use crate::asked::Asked;
use crate::checker::Checker;
use crate::code_walk::{CodeWalk, Stuck};
use crate::going::{go_all, go_along};
use crate::standing::Standing;
use crate::start::start;
use nomos_equality::equalities::Equalities;
use nomos_forms::form::{Form, Forms};
use nomos_ir::amount::Amount;
use nomos_ir::code_form::CodeForm;
use nomos_ir::ids::{CodeId, ProcId};
use nomos_ir::items::Items;
use nomos_ir::lists::AmountPairs;
use nomos_ir::program::Program;
use nomos_ir::stack::Stack;
use std::alloc::{AllocError, Global};
use std::mem;
use thiserror::Error;

/// Why nothing is said of the potential of a process.
#[derive(Clone, Copy, PartialEq, Eq, Debug, Error)]
pub enum ProcError {
    /// No rule applies to the instruction of this form at this offset in bytes, the first such in the process.
    #[error("no rule applies to the instruction at {0}")]
    ProcType(u32, CodeForm),
    #[error("out of memory")]
    NoMemory,
}

/// What the amounts of a program have to meet so that a process is typed: each form, in parts of which the unit of the
/// amounts has so many, is 0 or more, and the two amounts of each pair are worth the same.
#[derive(Drop, Debug)]
pub struct Checked {
    pub forms: Forms,
    pub pairs: AmountPairs,
}

/// Gathers what the process asks for.
fn gather(
    checker: &Checker,
    program: &Program,
    walk: &mut CodeWalk<'_>,
    p: ProcId,
) -> Result<(), AllocError>
    requires formed { IsWellFormed program.now }
    requires p { p.0 < length program.now.procs }
    requires checker { IsCheckerOf program.now checker.now }
    requires ready { IsReady program.now walk.old.asked }
    requires fresh { IsFresh walk.old }
    ensures ready { IsReady program.now walk.new.asked }
    ensures kept { KeepsCompared walk.old.asked walk.new.asked }
    ensures wanted { OnOk result (walk.new.wanted.now ≡ walk.old.wanted.now) }
    ensures gathers { OnOk result (GathersAll program.now p walk.old walk.new) }
{
    let first = start(program, checker, p)?;
    go_along(program, walk, first)?;
    go_all(program, walk)
}

/// What is answered where this was gathered.
fn answer(
    forms: Vec<Form>,
    pairs: Vec<(Amount, Amount)>,
    stuck: Option<Stuck>,
) -> Result<Checked, ProcError>
    ensures { MatchOption stuck (result ≡ Ok (record { forms = forms.items; pairs = pairs.items }))
        (λ s. result ≡ Err (ProcError.ProcType s.at s.form)) }
{
    match stuck {
        None => Ok(Checked {
            forms: Items::of_vec(forms),
            pairs: Items::of_vec(pairs),
        }),
        Some(found) => Err(ProcError::ProcType(found.at, found.form)),
    }
}

/// What the process declaration with this number asks for, in units of gas; `docs/LANGUAGE.md`, "Potential as a sum",
/// has the rules. The pairs that the equality of types needs join those of `equalities`; the others are given. In every
/// case what was compared stays there, each pair in its place. `ProcType` comes exactly where some instruction is
/// stuck, and names the first one.
pub fn check_process_with(
    checker: &Checker,
    equalities: &mut Equalities,
    program: &Program,
    p: ProcId,
) -> Result<Checked, ProcError>
    requires formed { IsWellFormed program.now }
    requires checker { IsCheckerOf program.now checker.now }
    requires p { p.0 < length program.now.procs }
    requires compared { HasCompared program.now equalities.old }
    ensures compared { HasCompared program.now equalities.new }
    ensures kept { StaysCompared equalities.old equalities.new }
    ensures answers { (d : ProcDecl) → slice_get program.now.procs p.0 ≡ Some d →
        AnswersProcessBeside program.now (star_count program.now) d equalities.old equalities.new result }
{
    let alloc = checker.alloc;
    let known = mem::replace(equalities, Equalities::new(alloc));
    let mut walk = CodeWalk::new(alloc, checker.modes.as_slice(), known, &[]);
    let gathered = gather(checker, program, &mut walk, p);
    let CodeWalk {
        asked,
        forms,
        stuck,
        todo: _,
        wanted: _,
        places: _,
        potentials: _,
    } = walk;
    let Asked {
        alloc: _,
        modes: _,
        equalities: found,
        pairs,
    } = asked;
    *equalities = found;
    match gathered {
        Ok(()) => answer(forms, pairs, stuck),
        Err(_) => Err(ProcError::NoMemory),
    }
}

/// What is in hand along the code of a declaration.
#[derive(Drop)]
pub struct InHand {
    /// At the instructions that are wanted, each as often as the code leads there.
    pub standings: Items<Standing>,
    /// The potential before each instruction of which something is said, in units, as a form over the program's stars.
    pub potentials: Items<(CodeId, Form)>,
}

/// What the process of this declaration has in hand at each of its instructions that is wanted, by number, and its
/// potential at each whose number is below the length of `wanted`. Nothing is asked of the declaration: where no rule
/// applies to an instruction, it stands there, and does not go on.
pub fn standings_of(
    checker: &Checker,
    program: &Program,
    p: ProcId,
    wanted: &[bool],
) -> Result<InHand, AllocError>
    requires formed { IsWellFormed program.now }
    requires checker { IsCheckerOf program.now checker.now }
    requires p { p.0 < length program.now.procs }
    ensures standings { (d : ProcDecl) → slice_get program.now.procs p.0 ≡ Some d → IfOk result
        (λ found. AreWanted program.now (star_count program.now) (outset_of program.now d) wanted.now
        found.standings) }
    ensures potentials { (d : ProcDecl) → slice_get program.now.procs p.0 ≡ Some d → IfOk result
        (λ found. ArePotentials program.now (star_count program.now) (outset_of program.now d) (length wanted.now)
        found.potentials) }
{
    let alloc = checker.alloc;
    let mut walk = CodeWalk::new(
        alloc,
        checker.modes.as_slice(),
        Equalities::new(alloc),
        wanted,
    );
    gather(checker, program, &mut walk, p)?;
    let CodeWalk {
        asked: _,
        forms: _,
        stuck: _,
        todo: _,
        wanted: _,
        places,
        potentials,
    } = walk;
    Ok(InHand {
        standings: Items::of_vec(places),
        potentials: Items::of_vec(potentials),
    })
}

/// The pairs of `equalities` beside those that were given.
fn all_pairs(equalities: Equalities, checked: Checked) -> Result<Checked, ProcError>
    ensures { JoinsPairs equalities checked result }
{
    let Checked { forms, pairs } = checked;
    let mut all = match equalities.into_amounts() {
        Ok(amounts) => amounts.into_vec(),
        Err(_) => return Err(ProcError::NoMemory),
    };
    match all.extend_from_slice(pairs.as_slice()) {
        Ok(()) => Ok(Checked {
            forms,
            pairs: Items::of_vec(all),
        }),
        Err(_) => Err(ProcError::NoMemory),
    }
}

/// What the process declaration with this number asks for, as `check_process_with` says it, with all pairs.
pub fn check_process(alloc: Global, program: &Program, p: ProcId) -> Result<Checked, ProcError>
    requires formed { IsWellFormed program.now }
    requires p { p.0 < length program.now.procs }
    ensures { (d : ProcDecl) → slice_get program.now.procs p.0 ≡ Some d →
        AnswersProcess program.now (star_count program.now) d result }
{
    let checker = match Checker::new(alloc, program) {
        Ok(checker) => checker,
        Err(_) => return Err(ProcError::NoMemory),
    };
    let mut equalities = Equalities::new(alloc);
    let checked = check_process_with(&checker, &mut equalities, program, p)?;
    all_pairs(equalities, checked)
}
