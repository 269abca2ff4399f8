//! Why a text is not accepted.

use nomos_equality::hop::Path;
use nomos_forms::verdict::Verdict;
use nomos_grammar::offence::Which;
use nomos_ir::code_form::CodeForm;
use nomos_simplex::solved::Stop;

/// Why a contract text is refused. One cause at most holds of a text: they stand in the order in which they are looked
/// for. Offsets count bytes of the text from 0; docs/LANGUAGE.md, "Acceptance", defines each cause.
#[derive(Drop, Debug)]
pub enum Why {
    /// It has more than 1,048,576 bytes.
    TooLong,
    /// Its first byte over 127 stands at this offset.
    NotAscii(u32),
    /// The token at this offset can stand in no text that begins so; at the length of the text, it ends too early.
    Syntax(u32),
    /// The token at this offset passes this limit.
    Limit(Which, u32),
    /// The name at this offset breaks a rule of names.
    Name(u32),
    /// The `work` at this offset is written, and the cost model puts all `work` in.
    Cost(u32),
    /// The right side of a definition, at this offset, is a bare name.
    Contractive(u32),
    /// The type node at this offset stands where the tables of modes forbid it.
    Mode(u32),
    /// The `up` at this offset is not synchronizing: the path leads from its body to a `down` of another type.
    NotSync(u32, Path),
    /// The body of the function whose name stands at this offset does not have its declared kind.
    TermType(u32),
    /// The instruction of this form at this offset is stuck.
    ProcType(u32, CodeForm),
    /// No amounts meet the rows of the program: these weights show it.
    NoPotential(Verdict),
}

/// Why a text was not accepted.
#[derive(Drop, Debug)]
pub enum AcceptError {
    /// The text is refused, for this cause, and it is typed under no amounts.
    Refused(Why),
    /// The pivot run stopped without an answer.
    Unsolved(Stop),
    /// Memory gave out, of which nothing follows about the text.
    NoMemory,
}
