//! With which declaration a talk is opened, and why one is not.
ghost use Rattle.std.specs.Prelude.{◌≡◌, ◌↔◌, [], IfOk, IsTrue};
ghost use Rattle.nomos_ir.specs.declared.mode.Mode.TheVariants as mode;
ghost use Rattle.nomos_monitor.specs.TalkOpening.{ChoosesBy, IsFoundBy};

use crate::talk_refusal::TalkRefusal;
use nomos_deeds::talking::Talking;
use nomos_equality::carriers::carries;
use nomos_ir::declaration::ProcDecl;
use nomos_ir::ids::ProcId;
use nomos_ir::mode::Mode;
use nomos_types::accepted::Accepted;
use std::alloc::{AllocError, Global};

// Whether a declaration has this name, mode R and no parameters.
fn opens_by(d: &ProcDecl, name: &str) -> bool
    ensures { IsTrue result
        ↔ ((d.now.name ≡ name.now) × (d.now.mode ≡ mode.R) × (d.now.values ≡ []) × (d.now.channels ≡ [])) }
{
    d.name.as_bytes() == name.as_bytes()
        && d.mode == Mode::R
        && d.values.is_empty()
        && d.channels.is_empty()
}

// The declaration of this name that has mode R and no parameters, if there is one.
fn opener(accepted: &Accepted, name: &str) -> Option<ProcId>
    ensures { IsFoundBy accepted.now name.now result }
{
    let procs = accepted.program().lists().procs.as_slice();
    for (at, d) in procs.iter().enumerate() {
        if opens_by(d, name) {
            return Some(ProcId(at as u32));
        }
    }
    None
}

/// The declaration of this name with which a talk can be opened, or why a talk is not opened.
pub(crate) fn chosen<M: Talking>(
    alloc: Global,
    accepted: &Accepted,
    machine: &M,
    name: &str,
    account: u32,
) -> Result<Result<ProcId, TalkRefusal>, AllocError>
    requires nobody { (M.state machine.now).outside ≡ [] }
    ensures { IfOk result (ChoosesBy accepted.now (M.state machine.now) name.now account) }
{
    let Some(has) = machine.balance(account) else {
        return Ok(Err(TalkRefusal::NoAccount));
    };
    let Some(declaration) = opener(accepted, name) else {
        return Ok(Err(TalkRefusal::NoProcess));
    };
    let program = accepted.program();
    let declared = program.proc(declaration);
    if carries(alloc, program, declared.offers)? {
        return Ok(Err(TalkRefusal::Carries));
    }
    let needs = u128::from(accepted.bound(declaration));
    if has < needs {
        return Ok(Err(TalkRefusal::NoGas { has, needs }));
    }
    Ok(Ok(declaration))
}
