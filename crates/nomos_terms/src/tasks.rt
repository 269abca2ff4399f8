//! How the tasks of a search are done, other than to find the kind of a term.
ghost use Rattle.std.specs.Prelude.{◌≡◌, IsSome, OnOk, IsErrOf};
ghost use Rattle.nomos_ir.specs.declared.lists.ProgramLists.{ProgramLists};
ghost use Rattle.nomos_ir.specs.TermKind.{VariableKinds};
ghost use Rattle.nomos_terms.specs.declared.search.Task.TheVariants as task;
ghost use Rattle.nomos_terms.specs.mirror.Left.{IsDone, IsVain, no_kind};

use crate::search::{NoKind, Search, Task, plan};
use nomos_ir::ids::{TermId, VarId};
use nomos_ir::kind::Kind;
use nomos_ir::or_no_memory::OrNoMemory;

/// The kind found last is to be this one.
pub(crate) fn expect(search: &mut Search, wanted: Kind) -> Result<(), OrNoMemory<NoKind>>
    ensures done { (lists : ProgramLists) (outer : VariableKinds)
        → OnOk result (IsDone lists outer (task.Expect wanted) search.old search.new) }
    ensures vain { (lists : ProgramLists) (outer : VariableKinds) → IsErrOf result no_kind
        → IsVain lists outer (task.Expect wanted) search.old }
{
    let Some(kind) = search.kinds.pop() else {
        return Err(OrNoMemory::Answer(NoKind));
    };
    if kind != wanted {
        return Err(OrNoMemory::Answer(NoKind));
    }
    Ok(())
}

/// The kind found last is to be that of lists of the kind found before it.
pub(crate) fn put_before(search: &mut Search) -> Result<(), OrNoMemory<NoKind>>
    ensures done { (lists : ProgramLists) (outer : VariableKinds)
        → OnOk result (IsDone lists outer task.Cons search.old search.new) }
    ensures vain { (lists : ProgramLists) (outer : VariableKinds) → IsErrOf result no_kind
        → IsVain lists outer task.Cons search.old }
{
    let Some(list) = search.kinds.pop() else {
        return Err(OrNoMemory::Answer(NoKind));
    };
    let Some(element) = search.kinds.pop() else {
        return Err(OrNoMemory::Answer(NoKind));
    };
    let Some(wanted) = list.element() else {
        return Err(OrNoMemory::Answer(NoKind));
    };
    if element != wanted {
        return Err(OrNoMemory::Answer(NoKind));
    }
    search.kinds.push(list)?;
    Ok(())
}

/// The two kinds found last are to be the same one.
pub(crate) fn compare(search: &mut Search) -> Result<(), OrNoMemory<NoKind>>
    ensures done { (lists : ProgramLists) (outer : VariableKinds)
        → OnOk result (IsDone lists outer task.Same search.old search.new) }
    ensures vain { (lists : ProgramLists) (outer : VariableKinds) → IsErrOf result no_kind
        → IsVain lists outer task.Same search.old }
{
    let Some(second) = search.kinds.pop() else {
        return Err(OrNoMemory::Answer(NoKind));
    };
    let Some(first) = search.kinds.pop() else {
        return Err(OrNoMemory::Answer(NoKind));
    };
    if second != first {
        return Err(OrNoMemory::Answer(NoKind));
    }
    search.kinds.push(second)?;
    Ok(())
}

/// The two variables bound last are no longer in scope.
pub(crate) fn unbind(search: &mut Search) -> Result<(), OrNoMemory<NoKind>>
    ensures done { (lists : ProgramLists) (outer : VariableKinds)
        → OnOk result (IsDone lists outer task.Unbind search.old search.new) }
    ensures vain { (lists : ProgramLists) (outer : VariableKinds) → IsErrOf result no_kind
        → IsVain lists outer task.Unbind search.old }
{
    if search.bound.pop().is_none() {
        return Err(OrNoMemory::Answer(NoKind));
    }
    if search.bound.pop().is_none() {
        return Err(OrNoMemory::Answer(NoKind));
    }
    Ok(())
}

/// The kind found last is to be that of a list, and the two parts are to have one kind.
pub(crate) fn take_apart(
    search: &mut Search,
    empty: TermId,
    head: VarId,
    tail: VarId,
    full: TermId,
) -> Result<(), OrNoMemory<NoKind>>
    ensures done { (lists : ProgramLists) (outer : VariableKinds)
        → OnOk result (IsDone lists outer (task.Part empty head tail full) search.old search.new) }
    ensures vain { (lists : ProgramLists) (outer : VariableKinds) → IsErrOf result no_kind
        → IsVain lists outer (task.Part empty head tail full) search.old }
{
    let Some(list) = search.kinds.pop() else {
        return Err(OrNoMemory::Answer(NoKind));
    };
    let Some(element) = list.element() else {
        return Err(OrNoMemory::Answer(NoKind));
    };
    search.bound.push((head, element))?;
    search.bound.push((tail, list))?;
    plan(
        &mut search.todo,
        &[
            Task::Term(full),
            Task::Unbind,
            Task::Term(empty),
            Task::Same,
        ],
    )?;
    Ok(())
}
