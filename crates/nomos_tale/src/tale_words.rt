//! Words of a tale: pairs of a word and what it says.
ghost use Rattle.std.specs.Prelude.{◌≡◌, All, IfSome, None};
ghost use Rattle.nomos_ir.specs.CodeParts.{code_amounts};
ghost use Rattle.nomos_types.specs.Acceptance.{IsAmountOf};
ghost use Rattle.nomos_machine.specs.Step.{IsReady};

use nomos_deeds::sight::Sight;
use nomos_ir::code_node::{Chan, CodeNode};
use nomos_ir::find::find_code;
use nomos_printing::number::push_number;
use nomos_types::accepted::Accepted;
use std::alloc::AllocError;

/// A process of which a firing is told: its number, and the instruction at which it stands before the firing.
#[derive(Clone, Copy)]
pub(crate) struct Actor<'a> {
    pub(crate) accepted: &'a Accepted,
    pub(crate) pid: u32,
    pub(crate) node: &'a CodeNode,
}

/// Appends a word and a number.
pub(crate) fn push_pair(text: &mut Vec<u8>, word: &[u8], n: u32) -> Result<(), AllocError> {
    text.extend_from_slice(word)?;
    push_number(text, u64::from(n))
}

/// Appends a word and a name.
pub(crate) fn push_name(text: &mut Vec<u8>, word: &[u8], name: &[u8]) -> Result<(), AllocError> {
    text.extend_from_slice(word)?;
    text.extend_from_slice(name)?;
    Ok(())
}

/// Appends a word and a number, where there is one.
pub(crate) fn push_found(
    text: &mut Vec<u8>,
    word: &[u8],
    n: Option<u32>,
) -> Result<(), AllocError> {
    match n {
        Some(n) => push_pair(text, word, n),
        None => Ok(()),
    }
}

/// The process of this number where it stands, if there is one.
pub(crate) fn actor_of<'a, S: Sight>(
    accepted: &'a Accepted,
    state: &S,
    pid: u32,
) -> Option<Actor<'a>>
    ensures ready { result ≡ None → ¬ (IsReady accepted.now (S.state state.now) pid) }
    ensures amounts { IfSome result (λ actor.
        All (IsAmountOf actor.accepted.now.program) (code_amounts actor.node.now)) }
{
    let seen = state.process(pid)?;
    let node = find_code(accepted.program().lists(), seen.code)?;
    Some(Actor {
        accepted,
        pid,
        node,
    })
}

/// The name of the channel at which a process works: the one that it offers, or one that it holds.
pub(crate) fn name_at<S: Sight>(state: &S, pid: u32, chan: Chan) -> Option<u32> {
    match chan {
        Chan::Own => {
            let seen = state.process(pid)?;
            Some(seen.offers)
        }
        Chan::Var(v) => state.channel(pid, v),
    }
}
