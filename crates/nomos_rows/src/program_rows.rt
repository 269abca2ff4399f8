//! The rows of a program, or why one of its parts has no skeleton.
ghost use Rattle.std.specs.Prelude.{◌≡◌, ◌<◌, ◌^◌, length, IfOk, IfErr};
ghost use Rattle.nomos_ir.specs.Amounts.{star_count};
ghost use Rattle.nomos_types.specs.Typed.{IsWellFormed, HasSkeletons};
ghost use Rattle.nomos_rows.specs.PartFaults.{IsCause};
ghost use Rattle.nomos_rows.specs.ProgramRows.{AreProgramRows, IsTypedByRows};
ghost use Rattle.nomos_rows.specs.mirror.PartAnswers.{AnswersProgram, error_of};

use crate::declaration_rows::declaration_rows;
use crate::first_fault::DeclarationFault;
use crate::shared_types::first_astray;
use nomos_equality::equalities::Equalities;
use nomos_equality::hop::Path;
use nomos_forms::row_list::RowList;
use nomos_ir::code_form::CodeForm;
use nomos_ir::program::Program;
use std::alloc::{AllocError, Global};

/// Why a part of a program has no skeleton. Offsets count bytes of the text from 0; docs/LANGUAGE.md says the rules.
#[derive(Drop, Debug)]
pub enum RowsError {
    /// The `up` at this offset is not synchronizing: the path leads from its body to a `down` behind which another type
    /// stands. It is the first such `up` in order of text.
    NotSync(u32, Path),
    /// The function whose name stands at this offset has a body without the declared kind. Functions and processes are
    /// taken in order of text.
    TermType(u32),
    /// The instruction of this form at this offset is stuck. Functions and processes are taken in order of text.
    ProcType(u32, CodeForm),
    /// There was no memory.
    NoMemory,
}

/// The answer that names a fault of a function or a process.
fn error_of(at: u32, fault: DeclarationFault) -> RowsError
    ensures { result ≡ error_of at fault }
{
    match fault {
        DeclarationFault::OtherKind => RowsError::TermType(at),
        DeclarationFault::Stuck(form) => RowsError::ProcType(at, form),
    }
}

/// The rows of a program, or why one of its parts has no skeleton.
fn find_rows(alloc: Global, program: &Program) -> Result<Result<RowList, RowsError>, AllocError>
    requires formed { IsWellFormed program.now }
    requires count { length program.now.types < 2 ^ 32 }
    ensures { IfOk result (AnswersProgram program.now) }
{
    let mut equalities = Equalities::new(alloc);
    match first_astray(alloc, &mut equalities, program) {
        Ok(None) => match declaration_rows(alloc, equalities, program)? {
            Ok(rows) => Ok(Ok(rows)),
            Err((at, fault)) => Ok(Err(error_of(at, fault))),
        },
        Ok(Some((at, path))) => {
            drop(equalities);
            Ok(Err(RowsError::NotSync(at, path)))
        }
        Err(error) => {
            drop(equalities);
            Err(error)
        }
    }
}

/// The rows of a program: what amounts have to meet for it to be typed under them, over all its stars
/// (docs/LANGUAGE.md, "Rows of a program"). They are given exactly where each part of the program has a skeleton; then
/// it is typed under exactly those amounts, over any unit, that meet the rows. Otherwise the error names what comes
/// first: the first `up` that is not synchronizing, or else the first fault of a function or a process; and no amounts
/// type the program. The ids of types are numbers below 2^32, so it asks for a program with fewer type nodes than that.
pub fn program_rows(alloc: Global, program: &Program) -> Result<RowList, RowsError>
    requires formed { IsWellFormed program.now }
    requires count { length program.now.types < 2 ^ 32 }
    ensures stars { IfOk result (λ made. made.stars ≡ star_count program.now) }
    ensures skeletons { IfOk result (λ made. HasSkeletons program.now) }
    ensures rows { IfOk result (λ made. AreProgramRows program.now (star_count program.now) made.rows) }
    ensures law { IfOk result (λ made. IsTypedByRows program.now (star_count program.now) made.rows) }
    ensures cause { IfErr result (IsCause program.now) }
{
    match find_rows(alloc, program) {
        Ok(found) => found,
        Err(AllocError) => Err(RowsError::NoMemory),
    }
}
