//! The causes of refusals, from what the parts of the checker answer.
ghost use Rattle.std.specs.Prelude.{ℕ, List, Err};
ghost use Rattle.nomos_accept.specs.TypedText.{IsReadAs};
ghost use Rattle.nomos_accept.specs.Preparing.{AnswersRefusal};
ghost use Rattle.nomos_elaborate.specs.Elaborated.{Answers as AnswersElaborate};
ghost use Rattle.nomos_ir.specs.declared.lists.ProgramLists.{ProgramLists};
ghost use Rattle.nomos_rows.specs.PartFaults.{IsCause};
ghost use Rattle.nomos_reader.specs.Parsing.{AnswersParse};
ghost use Rattle.nomos_surface.specs.TreeReading.{ReadsAs};
ghost use Rattle.nomos_surface.specs.Tree.{FileTree};
ghost use Rattle.nomos_types.specs.Forming.{IsFormFault};
ghost use Rattle.nomos_types.specs.Typed.{IsWellFormed};

use crate::why::{AcceptError, Why};
use nomos_elaborate::elab_error::ElabError;
use nomos_reader::parse::ParseError;
use nomos_rows::program_rows::RowsError;
use nomos_types::forming::FormError;

/// Why a text without a tree is not accepted.
pub(crate) fn of_parse(error: ParseError) -> AcceptError
    ensures { (text : List ℕ) → AnswersParse text (Err error) → AnswersRefusal text result }
{
    match error {
        ParseError::TooLong => AcceptError::Refused(Why::TooLong),
        ParseError::NotAscii(at) => AcceptError::Refused(Why::NotAscii(at)),
        ParseError::Syntax(at) => AcceptError::Refused(Why::Syntax(at)),
        ParseError::Limit(which, at) => AcceptError::Refused(Why::Limit(which, at)),
        ParseError::NoMemory => AcceptError::NoMemory,
    }
}

/// Why a text whose tree has no program is not accepted.
pub(crate) fn of_names(error: ElabError) -> AcceptError
    ensures { (text : List ℕ) (tree : FileTree) → ReadsAs text tree → AnswersElaborate tree (Err error) →
        AnswersRefusal text result }
{
    match error {
        ElabError::Name(at) => AcceptError::Refused(Why::Name(at)),
        ElabError::Cost(at) => AcceptError::Refused(Why::Cost(at)),
        ElabError::NoMemory => AcceptError::NoMemory,
    }
}

/// Why a text whose program is not well formed is not accepted.
pub(crate) fn of_form(error: FormError) -> AcceptError
    ensures { (text : List ℕ) (lists : ProgramLists) → IsReadAs text lists → IsFormFault lists error →
        AnswersRefusal text result }
{
    match error {
        FormError::Contractive(at) => AcceptError::Refused(Why::Contractive(at)),
        FormError::Mode(at) => AcceptError::Refused(Why::Mode(at)),
        FormError::NoMemory => AcceptError::NoMemory,
    }
}

/// Why a text is not accepted where a part of its program has no skeleton.
pub(crate) fn of_rows(error: RowsError) -> AcceptError
    ensures { (text : List ℕ) (lists : ProgramLists) → IsReadAs text lists → IsWellFormed lists →
        IsCause lists error → AnswersRefusal text result }
{
    match error {
        RowsError::NotSync(at, path) => AcceptError::Refused(Why::NotSync(at, path)),
        RowsError::TermType(at) => AcceptError::Refused(Why::TermType(at)),
        RowsError::ProcType(at, form) => AcceptError::Refused(Why::ProcType(at, form)),
        RowsError::NoMemory => AcceptError::NoMemory,
    }
}
