//! Whether the processes of a program have skeletons, and what their amounts have to meet.
ghost use Rattle.std.specs.Prelude.{◌≡◌, ◌<◌, ◌++◌, [], All, length, IfOk, OnOk};
ghost use Rattle.nomos_ir.specs.Amounts.{star_count};
ghost use Rattle.nomos_equality.specs.Comparing.{HasCompared};
ghost use Rattle.nomos_check.specs.Checker.{IsCheckerOf};
ghost use Rattle.nomos_forms.specs.Bounds.{IsForm};
ghost use Rattle.nomos_types.specs.Typed.{IsWellFormed};
ghost use Rattle.nomos_rows.specs.mirror.Declarations.{ProcessFault, ProcessFine};
ghost use Rattle.nomos_rows.specs.mirror.Processes.{Gathers, Adds};
ghost use Rattle.nomos_rows.specs.mirror.FirstFault.{TellsOne, TellsBelow};
ghost use Rattle.nomos_rows.specs.mirror.Ups.{IfNone};

use crate::first_fault::{DeclarationFault, earliest};
use nomos_check::checker::Checker;
use nomos_check::checking::{Checked, ProcError, check_process_with};
use nomos_equality::equalities::Equalities;
use nomos_forms::form::Form;
use nomos_ir::amount::Amount;
use nomos_ir::ids::ProcId;
use nomos_ir::program::Program;
use std::alloc::{AllocError, Global};

/// What is gathered of processes: the forms of their potential, and the pairs of amounts that they ask for beside
/// those at which types are equal.
#[derive(Drop)]
pub(crate) struct Gathered {
    pub(crate) forms: Vec<Form>,
    pub(crate) pairs: Vec<(Amount, Amount)>,
}

impl Gathered {
    /// What is found of one process joins.
    fn join(&mut self, checked: Checked) -> Result<(), AllocError>
        ensures forms { OnOk result (self.new.forms.items ≡ self.old.forms.items ++ checked.forms) }
        ensures pairs { OnOk result (self.new.pairs.items ≡ self.old.pairs.items ++ checked.pairs) }
    {
        let Checked { forms, pairs } = checked;
        self.forms.append(&mut forms.into_vec())?;
        self.pairs.append(&mut pairs.into_vec())?;
        Ok(())
    }
}

/// What is wrong with a process, if something is. Otherwise its forms and pairs join those that were gathered.
fn process_fault(
    checker: &Checker,
    equalities: &mut Equalities,
    gathered: &mut Gathered,
    program: &Program,
    p: ProcId,
) -> Result<Option<(u32, DeclarationFault)>, AllocError>
    requires formed { IsWellFormed program.now }
    requires checker { IsCheckerOf program.now checker.now }
    requires p { p.0 < length program.now.procs }
    requires compared { HasCompared program.now equalities.old }
    requires small { All (IsForm (star_count program.now)) gathered.old.forms.items }
    ensures compared { HasCompared program.now equalities.new }
    ensures tells { IfOk result (TellsOne (ProcessFault program.now p.0) (ProcessFine program.now p.0)) }
    ensures adds { IfOk result (IfNone (Adds program.now p.0 equalities.old equalities.new gathered.old gathered.new)) }
    ensures small { OnOk result (All (IsForm (star_count program.now)) gathered.new.forms.items) }
{
    match check_process_with(checker, equalities, program, p) {
        Ok(checked) => {
            gathered.join(checked)?;
            Ok(None)
        }
        Err(ProcError::ProcType(at, form)) => Ok(Some((at, DeclarationFault::Stuck(form)))),
        Err(ProcError::NoMemory) => Err(AllocError),
    }
}

/// The first instruction, in order of text, that is stuck in a process, if there is one. Otherwise the forms and pairs
/// of all processes are gathered.
pub(crate) fn first_stuck(
    alloc: Global,
    equalities: &mut Equalities,
    gathered: &mut Gathered,
    program: &Program,
) -> Result<Option<(u32, DeclarationFault)>, AllocError>
    requires formed { IsWellFormed program.now }
    requires compared { HasCompared program.now equalities.old }
    requires no_forms { gathered.old.forms.items ≡ [] }
    requires no_pairs { gathered.old.pairs.items ≡ [] }
    ensures compared { HasCompared program.now equalities.new }
    ensures tell { IfOk result (TellsBelow (ProcessFault program.now) (ProcessFine program.now)
        (length program.now.procs)) }
    ensures gathers { IfOk result (IfNone
        (Gathers program.now (length program.now.procs) equalities.old equalities.new gathered.new.forms.items
        gathered.new.pairs.items)) }
    ensures small { OnOk result (All (IsForm (star_count program.now)) gathered.new.forms.items) }
{
    let checker = Checker::new(alloc, program)?;
    let count = program.lists().procs.len() as u32;
    let mut first = None;
    for p in 0..count {
        let found = process_fault(&checker, equalities, gathered, program, ProcId(p))?;
        first = earliest(first, found);
    }
    Ok(first)
}
