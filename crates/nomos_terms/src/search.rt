//! A search for the kind of a term, with what is left to do on a stack of its own.
ghost use Rattle.std.specs.Prelude.{◌≡◌, ◌++◌, OnOk};

use nomos_ir::ids::{TermId, VarId};
use nomos_ir::kind::Kind;
use nomos_ir::stack::Stack;
use std::alloc::AllocError;

/// The term has no kind.
#[derive(Clone, Copy, PartialEq, Eq, Debug)]
pub(crate) struct NoKind;

/// Something that is left to do.
#[derive(Clone, Copy, PartialEq, Eq, Debug)]
pub(crate) enum Task {
    /// The kind of a term is to be found.
    Term(TermId),
    /// The kind found last is to be this one, and is no longer needed.
    Expect(Kind),
    /// This kind is found.
    Give(Kind),
    /// The kind found last is to be that of lists of the kind found before it.
    Cons,
    /// The two kinds found last are to be the same one.
    Same,
    /// The kind found last is to be that of a list: its part where it is empty, the names of its head and
    /// its tail, and its part where it has them, are to have one kind.
    Part(TermId, VarId, VarId, TermId),
    /// The two variables bound last are no longer in scope.
    Unbind,
}

/// How far a search is: what is left to do, the kinds found, and the variables bound in the term.
#[derive(Drop)]
pub(crate) struct Search {
    pub(crate) todo: Stack<Task>,
    pub(crate) kinds: Stack<Kind>,
    pub(crate) bound: Stack<(VarId, Kind)>,
}

/// Puts tasks on the top, the first one topmost.
pub(crate) fn plan(todo: &mut Stack<Task>, tasks: &[Task]) -> Result<(), AllocError>
    ensures { OnOk result (todo.new ≡ tasks.now ++ todo.old) }
{
    let mut left = tasks.len();
    while left > 0 {
        left -= 1;
        todo.push(tasks[left])?;
    }
    Ok(())
}
