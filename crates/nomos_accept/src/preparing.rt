//! Programs of which each part has a skeleton, with their rows.
ghost use Rattle.std.specs.Prelude.{◌≤◌, ℕ, List, length, IfErr, IfOk};
ghost use Rattle.nomos_accept.specs.TypedText.{IsReadAs};
ghost use Rattle.nomos_accept.specs.Preparing.{AnswersPrepared, AnswersRefusal, HasRows};
ghost use Rattle.nomos_accept.specs.mirror.Read.{AnswersRead};
ghost use Rattle.nomos_ir.specs.Program.{IsProgram};
ghost use Rattle.nomos_syntax.specs.TextLimits.{node_limit};

use crate::causes::{of_form, of_names, of_parse, of_rows};
use crate::why::AcceptError;
use nomos_elaborate::elaborate::elaborate;
use nomos_forms::row_list::RowList;
use nomos_ir::program::Program;
use nomos_reader::parse::parse;
use nomos_rows::program_rows::program_rows;
use nomos_types::forming::well_formed;
use std::alloc::Global;

/// A program of which each part has a skeleton, and its rows: it is typed under exactly the amounts that meet them.
#[derive(Drop, Debug)]
pub struct Prepared {
    pub program: Program,
    pub rows: RowList,
}

/// The program as which a text reads, or why it reads as none.
fn read(alloc: Global, text: &[u8]) -> Result<Program, AcceptError>
    ensures answer { AnswersRead text.now result }
    ensures few { IfOk result (λ program. length program.types ≤ node_limit) }
{
    let surface = match parse(alloc, text) {
        Ok(surface) => surface,
        Err(error) => return Err(of_parse(error)),
    };
    match elaborate(alloc, &surface) {
        Ok(program) => Ok(program),
        Err(error) => Err(of_names(error)),
    }
}

/// The rows of a program, or why it has none.
fn rows_of(alloc: Global, program: &Program) -> Result<RowList, AcceptError>
    requires program { IsProgram program.now }
    requires few { length program.now.types ≤ node_limit }
    ensures rows { IfOk result (HasRows program.now) }
    ensures refused { (text : List ℕ) → IsReadAs text program.now → IfErr result (AnswersRefusal text) }
{
    match well_formed(alloc, program) {
        Ok(()) => {}
        Err(error) => return Err(of_form(error)),
    }
    match program_rows(alloc, program) {
        Ok(rows) => Ok(rows),
        Err(error) => Err(of_rows(error)),
    }
}

/// A program with its rows, or why it has none.
fn with_rows(alloc: Global, program: Program) -> Result<Prepared, AcceptError>
    requires few { length program.types ≤ node_limit }
    ensures { (text : List ℕ) → IsReadAs text program → AnswersPrepared text result }
{
    match rows_of(alloc, &program) {
        Ok(rows) => Ok(Prepared { program, rows }),
        Err(error) => {
            drop(program);
            Err(error)
        }
    }
}

/// The program as which a contract text reads, with its rows, where each part of it has a skeleton. Otherwise it is
/// said why not, by the first cause in the order of docs/LANGUAGE.md, "Acceptance", and then the text is typed under no
/// amounts over any unit. The rows are not solved: `NoPotential` and a run that stops are no answers of this call.
pub fn prepare(alloc: Global, text: &[u8]) -> Result<Prepared, AcceptError>
    ensures { AnswersPrepared text.now result }
{
    let program = read(alloc, text)?;
    with_rows(alloc, program)
}
