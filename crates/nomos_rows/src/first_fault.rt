//! The first of faults that are found one after another.
ghost use Rattle.std.specs.Prelude.{◌≡◌};
ghost use Rattle.nomos_rows.specs.mirror.FirstFault.{earliest};

use nomos_ir::code_form::CodeForm;

/// What is wrong with a function or a process.
#[derive(Clone, Copy, PartialEq, Eq, Debug)]
pub(crate) enum DeclarationFault {
    /// The body of a function does not have its declared kind.
    OtherKind,
    /// An instruction of this form is stuck.
    Stuck(CodeForm),
}

/// The one of two faults that has the lesser offset; of two with one offset the first.
pub(crate) fn earliest<X: Drop>(
    first: Option<(u32, X)>,
    other: Option<(u32, X)>,
) -> Option<(u32, X)>
    ensures { result ≡ earliest first other }
{
    match (first, other) {
        (None, other) => other,
        (first, None) => first,
        (Some(a), Some(b)) => { if a.0 <= b.0 { Some(a) } else { Some(b) } }
    }
}
