//! A machine on which an outside party can speak one channel as its client.
ghost use Rattle.std.specs.Prelude.{◌≡◌, ◌≤◌, ◌<◌, ◌^◌, IfOk, OnOk, OnErr, MatchOption, None, length};
ghost use Rattle.nomos_machine.specs.Hearing.{AnswersHearing, IsHearable};
ghost use Rattle.nomos_machine.specs.Opening.{CanOpen, OpensTalk, outside_name};
ghost use Rattle.nomos_machine.specs.Saying.{CanSay, MayNotSay, MaySayWith, Says};
ghost use Rattle.nomos_machine.specs.State.{gas_of};
ghost use Rattle.nomos_machine.specs.TypedState.{IsTyped};
ghost use Rattle.nomos_deeds.specs.Firings.{MayFire};

use crate::awaiting::way_on;
use crate::undo::Undo;
use nomos_ir::ids::ProcId;
use nomos_machine::object::{Heard, Said};
use nomos_types::accepted::Accepted;
use std::alloc::{AllocError, Global};

/// A machine to which an outside party can speak (docs/MACHINE.md, "An outside party"). Each call that
/// takes an accepted program asks for a state that is typed for it, and each that changes the state for one of which
/// nothing is marked.
pub trait Talking: Undo {
    /// The outside name, if there is one. It takes no memory.
    fn outside(&self) -> Option<u32>
        ensures { result ≡ outside_name (Self.state self.now) };

    /// With how many Dths this may be said; nothing where it may not, or no name is outside. It takes no memory.
    fn fits(&self, accepted: &Accepted, said: &Said) -> Option<u64>
        ensures { MatchOption result (MayNotSay accepted.now (Self.state self.now) said.now)
            (MaySayWith accepted.now (Self.state self.now) said.now) }
    {
        let Some(name) = self.outside() else {
            return None;
        };
        match way_on(self, accepted, name, said) {
            Some(way) => Some(way.gas),
            None => None,
        }
    }

    /// Opens a talk: a process of the declaration comes, the account gives its declared potential, and the name that it
    /// offers goes outside. It gives the number of the process. Want of memory leaves the state as it was.
    fn start_outside(
        &mut self,
        alloc: Global,
        accepted: &Accepted,
        declaration: ProcId,
        account: u32,
    ) -> Result<u32, AllocError>
        requires may { MayFire accepted.now (Self.state self.old) }
        requires unmarked { Self.marked self.old ≡ None }
        requires open { CanOpen accepted.now (Self.state self.old) declaration.0 account }
        ensures ok { IfOk result (λ pid. (pid ≡ (Self.state self.old).next_object)
            × OpensTalk accepted.now (Self.state self.old) declaration.0 account (Self.state self.new)) }
        ensures err { OnErr result (Self.state self.new ≡ Self.state self.old) }
        ensures typed { IsTyped accepted.now (Self.state self.new) }
        ensures marked { Self.marked self.new ≡ None };

    /// Says something, and the account pays what goes with it. Want of memory leaves the state as it was.
    fn say(
        &mut self,
        alloc: Global,
        accepted: &Accepted,
        account: u32,
        said: &Said,
    ) -> Result<(), AllocError>
        requires may { MayFire accepted.now (Self.state self.old) }
        requires unmarked { Self.marked self.old ≡ None }
        requires say { CanSay accepted.now (Self.state self.old) account said.now }
        ensures ok { OnOk result (Says accepted.now (Self.state self.old) account said.now (Self.state self.new)) }
        ensures err { OnErr result (Self.state self.new ≡ Self.state self.old) }
        ensures typed { IsTyped accepted.now (Self.state self.new) }
        ensures marked { Self.marked self.new ≡ None };

    /// Hears what is there to be heard, if something is; the account gets what comes with it. Want of memory leaves the
    /// state as it was.
    fn hear(
        &mut self,
        alloc: Global,
        accepted: &Accepted,
        account: u32,
    ) -> Result<Option<Heard>, AllocError>
        requires typed { IsTyped accepted.now (Self.state self.old) }
        requires gas { gas_of (Self.state self.old) < 2 ^ 96 }
        requires few { length (Self.state self.old).outside ≤ 1 }
        requires account { account < length (Self.state self.old).balances }
        requires hearable { IsHearable (Self.state self.old) }
        requires unmarked { Self.marked self.old ≡ None }
        ensures ok { IfOk result (λ heard. AnswersHearing (Self.state self.old) account heard (Self.state self.new)) }
        ensures err { OnErr result (Self.state self.new ≡ Self.state self.old) }
        ensures typed { IsTyped accepted.now (Self.state self.new) }
        ensures marked { Self.marked self.new ≡ None };
}
