//! The plain fields of a process, as they become by an act. They are written once, at the end of it.
ghost use Rattle.std.specs.Prelude.{◌≡◌, ◌≤◌, ◌<◌, ◌+◌, ◌^◌};
ghost use Rattle.nomos_deeds.specs.SeenObjects.{seen_process};
ghost use Rattle.nomos_machine.specs.Revised.{poorer, richer, standing_at};
ghost use Rattle.nomos_machine.specs.declared.object.Process.{Process};
ghost use Rattle.nomos_changes.specs.PlainFields.{provides_under};
ghost use Rattle.nomos_changes.specs.SmallChanges.{Becomes};

use crate::parts::Parts;
use nomos_deeds::sight::{SeenProcess, Sight};
use nomos_ir::code_node::Chan;
use nomos_ir::ids::CodeId;

/// It goes on at an instruction.
pub(crate) fn going_on(seen: SeenProcess, next: CodeId) -> SeenProcess
    ensures { (p : Process) → seen ≡ seen_process p → result ≡ seen_process (standing_at next p) }
{
    SeenProcess { code: next, ..seen }
}

/// It has so many Dths less.
pub(crate) fn spending(seen: SeenProcess, gas: u128) -> SeenProcess
    ensures { (p : Process) → seen ≡ seen_process p → result ≡ seen_process (poorer gas p) }
{
    SeenProcess {
        purse: seen.purse.saturating_sub(gas),
        ..seen
    }
}

/// It has so many Dths more, as far as they fit.
pub(crate) fn earning(seen: SeenProcess, gas: u128) -> SeenProcess
    ensures { (p : Process) → seen ≡ seen_process p → p.purse + gas < 2 ^ 128
        → result ≡ seen_process (richer gas p) }
{
    SeenProcess {
        purse: seen.purse.saturating_add(gas),
        ..seen
    }
}

/// What it provides goes on under a name, where the channel is its own one.
pub(crate) fn going_under(seen: SeenProcess, channel: Chan, name: u32) -> SeenProcess
    ensures { (p : Process) → seen ≡ seen_process p → result ≡ seen_process (provides_under channel name p) }
{
    match channel {
        Chan::Own => SeenProcess {
            offers: name,
            ..seen
        },
        Chan::Var(_) => seen,
    }
}

/// The process has so many Dths less, and goes on at an instruction.
#[inline(always)]
pub(crate) fn spend<P: Parts>(parts: &mut P, pid: u32, gas: u128, next: CodeId)
    requires room { 0 < P.room parts.old }
    ensures state { Becomes (P.state parts.old) pid (λ p. standing_at next (poorer gas p)) (P.state parts.new) }
    ensures room { P.room parts.old ≤ P.room parts.new + 1 }
    ensures marked { P.marked parts.new ≡ P.marked parts.old }
{
    if let Some(seen) = parts.process(pid) {
        parts.set_fields(going_on(spending(seen, gas), next));
    }
}

/// The process goes on at an instruction.
#[inline(always)]
pub(crate) fn go_on<P: Parts>(parts: &mut P, pid: u32, next: CodeId)
    requires room { 0 < P.room parts.old }
    ensures state { Becomes (P.state parts.old) pid (standing_at next) (P.state parts.new) }
    ensures room { P.room parts.old ≤ P.room parts.new + 1 }
    ensures marked { P.marked parts.new ≡ P.marked parts.old }
{
    if let Some(seen) = parts.process(pid) {
        parts.set_fields(going_on(seen, next));
    }
}
