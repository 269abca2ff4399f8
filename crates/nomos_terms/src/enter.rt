//! How the kind of a term is searched for: the tasks to which each form of term leads.
ghost use Rattle.std.specs.Prelude.{◌≡◌, ◌∷◌, [], ◌++◌, ◌≤◌, length, OnOk, IsErrOf, option_copied, slice_get, Some, None};
ghost use Rattle.nomos_ir.specs.Bindings.{bound_to};
ghost use Rattle.nomos_ir.specs.Program.{IsProgram};
ghost use Rattle.nomos_ir.specs.TermKind.{list_kind};
ghost use Rattle.nomos_ir.specs.declared.declaration.FnDecl.{FnDecl};
ghost use Rattle.nomos_ir.specs.declared.kind.Kind.{Kind};
ghost use Rattle.nomos_terms.specs.declared.search.Task.TheVariants as task;
ghost use Rattle.nomos_terms.specs.mirror.Left.{IsDone, IsVain, IsCalled, argument_tasks, no_kind};

use crate::search::{NoKind, Search, Task, plan};
use nomos_ir::bindings::{bound_first, bound_last};
use nomos_ir::declaration::FnDecl;
use nomos_ir::find::{find_function, find_term};
use nomos_ir::ids::{FnId, TermId, VarId};
use nomos_ir::kind::Kind;
use nomos_ir::or_no_memory::OrNoMemory;
use nomos_ir::program::Program;
use nomos_ir::stack::Stack;
use nomos_ir::term_node::TermNode;
use std::alloc::AllocError;

/// The kind of lists of values of a kind.
fn list_of(kind: Kind) -> Kind
    requires { kind.lists ≤ 64 }
    ensures { result ≡ list_kind kind }
{
    Kind {
        lists: kind.lists + 1,
        base: kind.base,
    }
}

/// Puts a kind that is found on the top.
fn put_kind(kinds: &mut Stack<Kind>, kind: Kind) -> Result<(), OrNoMemory<NoKind>>
    ensures found { OnOk result (kinds.new ≡ kind ∷ kinds.old) }
    ensures memory { ¬ IsErrOf result no_kind }
{
    Ok(kinds.push(kind)?)
}

/// Plans the tasks to which a term leads.
fn lead_to(todo: &mut Stack<Task>, tasks: &[Task]) -> Result<(), OrNoMemory<NoKind>>
    ensures planned { OnOk result (todo.new ≡ tasks.now ++ todo.old) }
    ensures memory { ¬ IsErrOf result no_kind }
{
    Ok(plan(todo, tasks)?)
}

/// Both sides of an operator are to have one kind, and then it has another.
fn operate(
    todo: &mut Stack<Task>,
    a: TermId,
    b: TermId,
    takes: Kind,
    gives: Kind,
) -> Result<(), OrNoMemory<NoKind>>
    ensures planned { OnOk result
        (todo.new ≡ task.Term a ∷ task.Expect takes ∷ task.Term b ∷ task.Expect takes ∷ task.Give gives ∷ todo.old) }
    ensures memory { ¬ IsErrOf result no_kind }
{
    let tasks = [
        Task::Term(a),
        Task::Expect(takes),
        Task::Term(b),
        Task::Expect(takes),
        Task::Give(gives),
    ];
    lead_to(todo, &tasks)
}

/// The kind of a variable.
fn kind_of(outer: &[(VarId, Kind)], bound: &Stack<(VarId, Kind)>, v: VarId) -> Option<Kind>
    ensures { result ≡ bound_to v.0 (bound.now ++ outer.now) }
{
    match bound_last(bound.as_slice(), v) {
        Some(kind) => Some(kind),
        None => bound_first(outer, v),
    }
}

/// The arguments of a call are to have the kinds of the parameters.
fn arguments(
    todo: &mut Stack<Task>,
    values: &[TermId],
    pars: &[(VarId, Kind)],
) -> Result<(), AllocError>
    requires { length values.now ≡ length pars.now }
    ensures { OnOk result (todo.new ≡ argument_tasks values.now pars.now ++ todo.old) }
{
    let mut left = values.len();
    while left > 0 {
        left -= 1;
        todo.push(Task::Expect(pars[left].1))?;
        todo.push(Task::Term(values[left]))?;
    }
    Ok(())
}

/// The function that a call names, where the call has as many arguments as it has parameters.
fn called(program: &Program, f: FnId, count: usize) -> Option<&FnDecl>
    ensures { IsCalled program.now f count (option_copied result) }
{
    let function = find_function(program.lists(), f)?;
    if function.pars.len() != count {
        return None;
    }
    Some(function)
}

/// The kind of a variable is found.
fn enter_variable(
    outer: &[(VarId, Kind)],
    search: &mut Search,
    v: VarId,
) -> Result<(), OrNoMemory<NoKind>>
    ensures found { OnOk result ((kind : Kind) × (bound_to v.0 (search.old.bound ++ outer.now) ≡ Some kind) ×
        (search.new ≡ record search.old { kinds = kind ∷ search.old.kinds })) }
    ensures vain { IsErrOf result no_kind → bound_to v.0 (search.old.bound ++ outer.now) ≡ None }
{
    let Some(kind) = kind_of(outer, &search.bound, v) else {
        return Err(OrNoMemory::Answer(NoKind));
    };
    Ok(search.kinds.push(kind)?)
}

/// The arguments of a call are to have the kinds of the parameters, and then it has that of the function.
fn enter_call(
    program: &Program,
    todo: &mut Stack<Task>,
    f: FnId,
    values: &[TermId],
) -> Result<(), OrNoMemory<NoKind>>
    ensures done { OnOk result ((function : FnDecl) × (slice_get program.now.fns f.0 ≡ Some function) ×
        (length values.now ≡ length function.pars) ×
        (todo.new ≡ argument_tasks values.now function.pars ++ task.Give function.gives ∷ todo.old)) }
    ensures vain { IsErrOf result no_kind → IsCalled program.now f (length values.now) None }
{
    let Some(function) = called(program, f, values.len()) else {
        return Err(OrNoMemory::Answer(NoKind));
    };
    todo.push(Task::Give(function.gives))?;
    Ok(arguments(todo, values, function.pars.as_slice())?)
}

/// Does the task to find the kind of a term: finds it, or plans what leads to it.
pub(crate) fn enter(
    program: &Program,
    outer: &[(VarId, Kind)],
    search: &mut Search,
    t: TermId,
) -> Result<(), OrNoMemory<NoKind>>
    ensures done { OnOk result (IsDone program.now outer.now (task.Term t) search.old search.new) }
    ensures vain { IsErrOf result no_kind → IsVain program.now outer.now (task.Term t) search.old }
{
    match find_term(program.lists(), t) {
        Some(node) => enter_node(program, outer, search, t, node),
        None => Err(OrNoMemory::Answer(NoKind)),
    }
}

// Does this for the node of the term.
fn enter_node(
    program: &Program,
    outer: &[(VarId, Kind)],
    search: &mut Search,
    t: TermId,
    node: &TermNode,
) -> Result<(), OrNoMemory<NoKind>>
    requires there { slice_get program.now.terms t.0 ≡ Some node.now }
    requires program { IsProgram program.now }
    ensures done { OnOk result (IsDone program.now outer.now (task.Term t) search.old search.new) }
    ensures vain { IsErrOf result no_kind → IsVain program.now outer.now (task.Term t) search.old }
{
    match node {
        TermNode::Number(_, _) => put_kind(&mut search.kinds, Kind::INT),
        TermNode::Truth(_, _) => put_kind(&mut search.kinds, Kind::BOOL),
        TermNode::Var(_, v) => enter_variable(outer, search, *v),
        TermNode::Call(_, f, values) => enter_call(
            program,
            &mut search.todo,
            *f,
            values.as_slice(),
        ),
        TermNode::Nil(_, kind) => put_kind(&mut search.kinds, list_of(*kind)),
        TermNode::Add(_, a, b)
        | TermNode::Sub(_, a, b)
        | TermNode::Mul(_, a, b)
        | TermNode::Div(_, a, b)
        | TermNode::Rem(_, a, b) => operate(&mut search.todo, *a, *b, Kind::INT, Kind::INT),
        TermNode::Less(_, a, b) | TermNode::Equal(_, a, b) => {
            operate(&mut search.todo, *a, *b, Kind::INT, Kind::BOOL)
        }
        TermNode::And(_, a, b) | TermNode::Or(_, a, b) => {
            operate(&mut search.todo, *a, *b, Kind::BOOL, Kind::BOOL)
        }
        TermNode::Cons(_, a, b) => lead_to(
            &mut search.todo,
            &[Task::Term(*a), Task::Term(*b), Task::Cons],
        ),
        TermNode::Not(_, a) => lead_to(
            &mut search.todo,
            &[
                Task::Term(*a),
                Task::Expect(Kind::BOOL),
                Task::Give(Kind::BOOL),
            ],
        ),
        TermNode::If(_, test, a, b) => {
            let tasks = [
                Task::Term(*test),
                Task::Expect(Kind::BOOL),
                Task::Term(*a),
                Task::Term(*b),
                Task::Same,
            ];
            lead_to(&mut search.todo, &tasks)
        }
        TermNode::Match(_, list, empty, head, tail, full) => lead_to(
            &mut search.todo,
            &[Task::Term(*list), Task::Part(*empty, *head, *tail, *full)],
        ),
    }
}
