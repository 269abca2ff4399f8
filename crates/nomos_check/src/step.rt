//! One step along the code of a process.
ghost use Rattle.std.specs.Prelude.{IfOk};
ghost use Rattle.nomos_types.specs.Typed.{IsWellFormed};
ghost use Rattle.nomos_check.specs.mirror.StandingData.{IsReady, KeepsCompared, IsWithin, StepAsks, StepTells};

use crate::asked::Asked;
use crate::cases::at_case;
use crate::ending::{at_close, at_wait};
use crate::label_rule::at_label;
use crate::list_rules::{at_add, at_empty, at_match, carrying};
use crate::operands::{Adding, Choosing, Letting, Matching, Over, Spawning};
use crate::paying::{at_get, at_pay, at_work};
use crate::receiving::at_recv;
use crate::sending::{at_fwd, at_send};
use crate::sharing::{at_accept, at_acquire, at_detach, at_release};
use crate::spawning::{at_call, at_spawn};
use crate::standing::{Standing, Step};
use crate::value_rules::{at_emit, at_if, at_let, at_put, at_take};
use nomos_ir::code_node::CodeNode;
use nomos_ir::program::Program;
use std::alloc::AllocError;

/// What the rule of the instruction asks for at which the process stands: where it leads, and which pairs of amounts
/// have to be worth the same.
pub(crate) fn step(
    program: &Program,
    asked: &mut Asked<'_>,
    now: &mut Standing,
) -> Result<Step, AllocError>
    requires formed { IsWellFormed program.now }
    requires within { IsWithin program.now now.old }
    requires ready { IsReady program.now asked.old }
    ensures ready { IsReady program.now asked.new }
    ensures kept { KeepsCompared asked.old asked.new }
    ensures tells { IfOk result (StepTells program.now now.old now.new) }
    ensures asks { IfOk result (StepAsks program.now now.old asked.old asked.new) }
{
    let alloc = asked.alloc;
    let modes = asked.modes;
    match program.code(now.code) {
        CodeNode::Label(_, c, l, next) => at_label(program, now, *c, *l, *next),
        CodeNode::Case(_, c, arms) => at_case(program, alloc, now, *c, arms.as_slice()),
        CodeNode::Send(_, c, y, next) => at_send(program, asked, now, Over::new(*c, *y, *next)),
        CodeNode::Recv(_, c, y, next) => at_recv(program, modes, now, Over::new(*c, *y, *next)),
        CodeNode::Put(_, c, e, next) => at_put(program, alloc, now, Over::new(*c, *e, *next)),
        CodeNode::Take(_, c, v, next) => at_take(program, now, Over::new(*c, *v, *next)),
        CodeNode::Pay(_, c, r, next) => at_pay(program, asked, now, Over::new(*c, *r, *next)),
        CodeNode::Get(_, c, r, next) => at_get(program, asked, now, Over::new(*c, *r, *next)),
        CodeNode::Work(_, r, next) => Ok(at_work(program, now, *r, *next)),
        CodeNode::Wait(_, v, next) => Ok(at_wait(program, now, *v, *next)),
        CodeNode::Accept(_, next) => Ok(at_accept(program, now, *next)),
        CodeNode::Detach(_, next) => Ok(at_detach(program, modes, now, *next)),
        CodeNode::Acquire(_, a, v, next) => at_acquire(program, now, *a, *v, *next),
        CodeNode::Release(_, v, a, next) => at_release(program, now, *v, *a, *next),
        CodeNode::Spawn(_, v, f, args, next) => {
            at_spawn(program, asked, now, Spawning::new(*v, *f, args, *next))
        }
        CodeNode::Let(_, v, e, next) => at_let(program, alloc, now, Letting::new(*v, *e, *next)),
        CodeNode::Emit(_, e, next) => at_emit(program, alloc, now, *e, *next),
        CodeNode::If(_, e, yes, no) => at_if(program, alloc, now, Choosing::new(*e, *yes, *no)),
        CodeNode::Close(_) => Ok(at_close(program, now)),
        CodeNode::Fwd(_, v) => at_fwd(program, asked, now, *v),
        CodeNode::Call(_, f, args) => at_call(program, asked, now, *f, args),
        CodeNode::Empty(_, v, r, k, next) => at_empty(program, now, *v, carrying(*k, *r), *next),
        CodeNode::Add(_, v, e, w, next) => at_add(
            program,
            alloc,
            now,
            Adding::new(*v, *e, *w, *next),
        ),
        CodeNode::Match(_, w, none, h, t, some) => {
            at_match(program, alloc, now, Matching::new(*w, *none, *h, *t, *some))
        }
    }
}
