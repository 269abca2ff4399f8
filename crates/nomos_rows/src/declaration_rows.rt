//! The rows of the functions and processes of a program, or the first of their faults.
ghost use Rattle.std.specs.Prelude.{◌≡◌, ◌≤◌, ◌++◌, [], All, length, IfOk, OnOk};
ghost use Rattle.nomos_ir.specs.Amounts.{star_count};
ghost use Rattle.nomos_equality.specs.Comparing.{HasCompared};
ghost use Rattle.nomos_forms.specs.Bounds.{IsForm};
ghost use Rattle.nomos_forms.specs.RowsOf.{AreRowsOf};
ghost use Rattle.nomos_types.specs.Typed.{IsWellFormed};
ghost use Rattle.nomos_rows.specs.mirror.Declarations.{DeclarationsTell};
ghost use Rattle.nomos_rows.specs.mirror.Processes.{Gathers, AnswersDeclarations};
ghost use Rattle.nomos_rows.specs.mirror.Ups.{IfNone};

use crate::first_fault::{DeclarationFault, earliest};
use crate::functions::first_other_kind;
use crate::processes::{Gathered, first_stuck};
use nomos_equality::equalities::Equalities;
use nomos_forms::collecting::rows;
use nomos_forms::row_list::RowList;
use nomos_ir::items::Items;
use nomos_ir::program::Program;
use std::alloc::{AllocError, Global};

/// The rows of what was gathered, and of the pairs of amounts at which types are equal.
fn gathered_rows(
    alloc: Global,
    gathered: Gathered,
    equalities: Equalities,
    stars: u16,
) -> Result<RowList, AllocError>
    requires stars { stars ≤ 64 }
    requires forms { All (IsForm stars) gathered.forms.items }
    ensures stars { IfOk result (λ made. made.stars ≡ stars) }
    ensures rows { IfOk result (λ made.
        AreRowsOf stars gathered.forms.items (gathered.pairs.items ++ equalities.amounts) made.rows) }
{
    let Gathered { forms, mut pairs } = gathered;
    pairs.append(&mut equalities.into_amounts()?.into_vec())?;
    rows(alloc, &Items::of_vec(forms), &Items::of_vec(pairs), stars)
}

/// The first fault of a function or a process, in order of text. Where there is none, the forms and pairs of all
/// processes are gathered.
fn first_fault(
    alloc: Global,
    equalities: &mut Equalities,
    gathered: &mut Gathered,
    program: &Program,
) -> Result<Option<(u32, DeclarationFault)>, AllocError>
    requires formed { IsWellFormed program.now }
    requires compared { HasCompared program.now equalities.old }
    requires no_forms { gathered.old.forms.items ≡ [] }
    requires no_pairs { gathered.old.pairs.items ≡ [] }
    ensures tell { IfOk result (DeclarationsTell program.now) }
    ensures gathers { IfOk result (IfNone
        (Gathers program.now (length program.now.procs) equalities.old equalities.new gathered.new.forms.items
        gathered.new.pairs.items)) }
    ensures small { OnOk result (All (IsForm (star_count program.now)) gathered.new.forms.items) }
{
    let functions = first_other_kind(alloc, program)?;
    let processes = first_stuck(alloc, equalities, gathered, program)?;
    Ok(earliest(functions, processes))
}

/// The rows of the functions and processes of a program, with those at which the types that were compared before are
/// equal; or the first fault of a function or a process, in order of text.
pub(crate) fn declaration_rows(
    alloc: Global,
    mut equalities: Equalities,
    program: &Program,
) -> Result<Result<RowList, (u32, DeclarationFault)>, AllocError>
    requires formed { IsWellFormed program.now }
    requires compared { HasCompared program.now equalities }
    ensures { IfOk result (AnswersDeclarations program.now equalities) }
{
    let mut gathered = Gathered {
        forms: Vec::new(alloc),
        pairs: Vec::new(alloc),
    };
    match first_fault(alloc, &mut equalities, &mut gathered, program) {
        Ok(None) => Ok(Ok(gathered_rows(alloc, gathered, equalities, program.stars())?)),
        Ok(Some(fault)) => {
            drop(gathered);
            drop(equalities);
            Ok(Err(fault))
        }
        Err(error) => {
            drop(gathered);
            drop(equalities);
            Err(error)
        }
    }
}
