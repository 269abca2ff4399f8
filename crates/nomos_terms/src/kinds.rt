//! The kind of a term.
ghost use Rattle.std.specs.Prelude.{◌≡◌, ◌<◌, length, OnOk, IsErrOf};
ghost use Rattle.nomos_ir.specs.declared.kind.Kind.{Kind};
ghost use Rattle.nomos_terms.specs.KindAnswer.{AnswersKind};
ghost use Rattle.nomos_terms.specs.mirror.Left.{IsDone, IsVain, IsKind, no_kind};

use crate::enter::enter;
use crate::search::{NoKind, Search, Task};
use crate::tasks::{compare, expect, put_before, take_apart, unbind};
use nomos_ir::declaration::Kinds;
use nomos_ir::ids::{TermId, VarId};
use nomos_ir::kind::Kind;
use nomos_ir::or_no_memory::OrNoMemory;
use nomos_ir::program::Program;
use nomos_ir::stack::Stack;
use std::alloc::Global;
use thiserror::Error;

/// Why the kind of a term is not known.
#[derive(Clone, Copy, PartialEq, Eq, Debug, Error)]
pub enum TermError {
    /// The term, which stands at this offset in bytes, has no kind.
    #[error("the term at {0} has no kind")]
    TermType(u32),
    #[error("out of memory")]
    NoMemory,
}

/// Does a task that is no longer on the stack.
fn do_task(
    program: &Program,
    outer: &[(VarId, Kind)],
    search: &mut Search,
    task: Task,
) -> Result<(), OrNoMemory<NoKind>>
    ensures done { OnOk result (IsDone program.now outer.now task search.old search.new) }
    ensures vain { IsErrOf result no_kind → IsVain program.now outer.now task search.old }
{
    match task {
        Task::Term(t) => enter(program, outer, search, t),
        Task::Expect(wanted) => expect(search, wanted),
        Task::Give(kind) => Ok(search.kinds.push(kind)?),
        Task::Cons => put_before(search),
        Task::Same => compare(search),
        Task::Part(empty, head, tail, full) => take_apart(search, empty, head, tail, full),
        Task::Unbind => unbind(search),
    }
}

/// Does all tasks.
fn find_kind(
    alloc: Global,
    program: &Program,
    t: TermId,
    outer: &[(VarId, Kind)],
) -> Result<Kind, OrNoMemory<NoKind>>
    ensures { IsKind program.now outer.now t result }
{
    let mut search = Search {
        todo: Stack::new(alloc),
        kinds: Stack::new(alloc),
        bound: Stack::new(alloc),
    };
    search.todo.push(Task::Term(t))?;
    while let Some(task) = search.todo.pop() {
        do_task(program, outer, &mut search, task)?;
    }
    match search.kinds.pop() {
        Some(kind) => Ok(kind),
        None => Err(OrNoMemory::Answer(NoKind)),
    }
}

/// The kind that the term has where the variables have these kinds; docs/LANGUAGE.md, "Kinds of terms", has the
/// rules. `TermType` comes exactly where it has none. It takes time in step with the size of the term, and nothing
/// of it rests on how deep the term is nested.
pub fn term_kind(
    alloc: Global,
    program: &Program,
    t: TermId,
    vars: &Kinds,
) -> Result<Kind, TermError>
    requires { t.0 < length program.now.terms }
    ensures { AnswersKind program.now vars.now t result }
{
    match find_kind(alloc, program, t, vars.as_slice()) {
        Ok(kind) => Ok(kind),
        Err(OrNoMemory::Answer(NoKind)) => Err(TermError::TermType(program.term(t).offset())),
        Err(OrNoMemory::NoMemory) => Err(TermError::NoMemory),
    }
}
