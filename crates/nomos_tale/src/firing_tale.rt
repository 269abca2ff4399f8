//! A firing that is told.
ghost use Rattle.std.specs.Prelude.{IfOk, All};
ghost use Rattle.nomos_ir.specs.CodeParts.{code_amounts};
ghost use Rattle.nomos_types.specs.Acceptance.{IsAmountOf};
ghost use Rattle.nomos_machine.specs.Step.{IsReady};
ghost use Rattle.nomos_deeds.specs.Acting.{HasNumbers};
ghost use Rattle.nomos_legal.specs.StandsFor.{WorldStandsFor};
ghost use Rattle.nomos_ledger.specs.Watching.{IsWatched};
ghost use Rattle.nomos_tale.specs.mirror.Choices.{GoesOnAs};

use crate::after::{Reached, push_after};
use crate::before::push_before;
use crate::tale_words::{Actor, actor_of};
use crate::teller::Teller;
use crate::untold::Untold;
use nomos_deeds::fire::Fire;
use nomos_deeds::machine::Machine;
use nomos_deeds::undo::Undo;
use nomos_ir::code_node::CodeNode;
use nomos_ledger::watched::Watched;
use nomos_legal::journal::{End, Firing};
use nomos_printing::number::push_number;
use nomos_types::accepted::Accepted;
use std::alloc::{AllocError, Global};

// Appends what the journal says of a firing.
fn push_fired(text: &mut Vec<u8>, actor: Actor<'_>) -> Result<(), AllocError>
    requires { All (IsAmountOf actor.accepted.now.program) (code_amounts actor.node.now) }
{
    push_number(text, u64::from(actor.pid))?;
    text.push(b' ')?;
    text.extend_from_slice(actor.node.form().name().as_bytes())?;
    if let CodeNode::Work(_, gas, _) = actor.node {
        text.push(b' ')?;
        push_number(text, actor.accepted.amount(*gas))?;
    }
    Ok(())
}

/// Fires a process that is ready, and tells what it did. Where its instruction has a fault, nothing is told, and the
/// end of the batch is given.
pub(crate) fn fire_told<M: Undo>(
    alloc: Global,
    accepted: &Accepted,
    teller: &mut Teller<'_>,
    watched: &mut Watched<M>,
    pid: u32,
) -> Result<Option<End>, Untold>
    requires stands { WorldStandsFor accepted.now watched.old.world }
    requires watched { IsWatched accepted.now watched.old.world.state watched.old.awake }
    requires ready { IsReady accepted.now watched.old.world.state pid }
    requires numbers { HasNumbers watched.old.world.state }
    ensures goes { IfOk result (λ end. GoesOnAs accepted.now watched.old.world end watched.new.world) }
    ensures stands { WorldStandsFor accepted.now watched.new.world }
    ensures watched { IsWatched accepted.now watched.new.world.state watched.new.awake }
{
    accepted.know();
    let Some(actor) = actor_of(accepted, watched.world.state(), pid) else {
        unreachable!()
    };
    let before = Reached::of(watched.world.state());
    let mut told = Vec::new(alloc);
    push_fired(&mut told, actor)?;
    let mut words = Vec::new(alloc);
    push_before(&mut words, watched.world.state(), actor)?;
    match watched.fire(alloc, accepted, Firing { pass: 0, pid })? {
        Fire::Faulted(fault) => Ok(Some(End::Aborted(pid, fault))),
        Fire::Fired => {
            push_after(&mut words, watched.world.state(), actor, before)?;
            teller.firing(&told, &words)?;
            Ok(None)
        }
    }
}
