//! How much potential instructions need: all that there is before them but for what they can do without.
ghost use Rattle.std.specs.Prelude.{◌≡◌, ◌<◌, IfOk, length, map};
ghost use Rattle.nomos_ir.specs.CodeParts.{code_calls};
ghost use Rattle.nomos_ir.specs.Ids.{AllBelow};
ghost use Rattle.nomos_places.specs.mirror.Needing.{lower, lowest, called, spare_at, AreLeasts, ArePotentialsAt};

use nomos_ir::code_node::{Arm, CodeNode};
use nomos_ir::ids::CodeId;
use nomos_types::accepted::Accepted;
use std::alloc::{AllocError, Global};

/// The lesser one of a number and of what the instruction can do without.
fn lower(spares: &[u128], most: u128, code: CodeId) -> u128
    ensures { result ≡ lower spares.now most code.0 }
{
    match spares.get(code.0 as usize) {
        Some(spare) => most.min(*spare),
        None => most,
    }
}

/// The same of all branches.
fn lower_in_arms(spares: &[u128], most: u128, arms: &[Arm]) -> u128
    ensures { result ≡ lowest spares.now most (map (λ a. a.goes.0) arms.now) }
{
    let mut least = most;
    for arm in arms {
        least = lower(spares, least, arm.goes);
    }
    least
}

/// How much of its potential an instruction can do without, by what those can with which it goes on.
fn spare_at(accepted: &Accepted, spares: &[u128], potential: u128, node: &CodeNode) -> u128
    requires { AllBelow (length accepted.now.program.procs) (code_calls node.now) }
    ensures { result ≡ spare_at accepted.now spares.now potential node.now }
{
    match node {
        CodeNode::Close(_) | CodeNode::Fwd(_, _) => potential,
        CodeNode::Call(_, f, _) => potential.saturating_sub(u128::from(accepted.bound(*f))),
        CodeNode::Case(_, _, arms) => lower_in_arms(spares, potential, arms.as_slice()),
        CodeNode::If(_, _, first, second) | CodeNode::Match(_, _, first, _, _, second) => {
            lower(spares, lower(spares, potential, *first), *second)
        }
        CodeNode::Label(_, _, _, next)
        | CodeNode::Send(_, _, _, next)
        | CodeNode::Recv(_, _, _, next)
        | CodeNode::Put(_, _, _, next)
        | CodeNode::Take(_, _, _, next)
        | CodeNode::Pay(_, _, _, next)
        | CodeNode::Get(_, _, _, next)
        | CodeNode::Work(_, _, next)
        | CodeNode::Wait(_, _, next)
        | CodeNode::Accept(_, next)
        | CodeNode::Detach(_, next)
        | CodeNode::Acquire(_, _, _, next)
        | CodeNode::Release(_, _, _, next)
        | CodeNode::Spawn(_, _, _, _, next)
        | CodeNode::Let(_, _, _, next)
        | CodeNode::Emit(_, _, next)
        | CodeNode::Empty(_, _, _, _, next)
        | CodeNode::Add(_, _, _, _, next) => lower(spares, potential, *next),
    }
}

/// The least potential that each instruction needs, by number, where these are the potentials before them. Those with
/// which an instruction goes on have lower numbers.
pub(crate) fn leasts_of(
    alloc: Global,
    accepted: &Accepted,
    potentials: &[u128],
) -> Result<Vec<u128>, AllocError>
    requires each { length potentials.now ≡ length accepted.now.program.code }
    requires potentials { ArePotentialsAt accepted.now potentials.now }
    ensures { IfOk result (λ leasts. AreLeasts accepted.now leasts.items) }
{
    let program = accepted.program();
    program.know();
    let mut spares = Vec::new(alloc);
    let mut leasts = Vec::new(alloc);
    for at in 0..potentials.len() {
        let potential = potentials[at];
        let node = program.code(CodeId(at as u32));
        let spare = spare_at(accepted, spares.as_slice(), potential, node);
        spares.push(spare)?;
        leasts.push(potential.saturating_sub(spare))?;
    }
    Ok(leasts)
}
