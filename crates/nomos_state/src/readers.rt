//! What can be read of an indexed state, and which process of it comes next.
ghost use Rattle.std.specs.Prelude.{◌≡◌, ◌<◌, ◌^◌, MatchOption, sum_by};
ghost use Rattle.std.specs.Option.{option_map};
ghost use Rattle.nomos_deeds.specs.Lowest.{FindsNext};
ghost use Rattle.nomos_deeds.specs.Readers.{IsLinearName, IsTransaction, IsWaiting, keeper, view_of, waits};
ghost use Rattle.nomos_machine.specs.Objects.{purse_of};
ghost use Rattle.nomos_machine.specs.Run.{IsNextReady, NoneReady};
ghost use Rattle.nomos_machine.specs.State.{process_at};
ghost use Rattle.nomos_machine.specs.TypedState.{IsTyped};

use crate::inside::Inside;
use crate::{readings, sought, walking};
use nomos_deeds::machine::View;
use nomos_deeds::sight::Sight;
use nomos_types::accepted::Accepted;

impl Inside {
    /// The lowest ready process over a number, as it is seen in a state that is the same.
    pub fn next_ready<S: Sight>(&self, sight: &S, accepted: &Accepted, after: u32) -> Option<u32>
        requires typed { IsTyped accepted.now (S.state sight.now) }
        requires state { S.state sight.now ≡ self.now.state }
        ensures { MatchOption result (NoneReady accepted.now (S.state sight.now) after)
            (IsNextReady accepted.now (S.state sight.now) after) }
    {
        walking::next_ready(sight, accepted, &self.contents, after)
    }

    /// What all objects carry, in Dths.
    pub fn stored(&self) -> u128
        requires { sum_by purse_of self.now.state.objects < 2 ^ 96 }
        ensures { result ≡ sum_by purse_of self.now.state.objects }
    {
        walking::stored(&self.contents)
    }

    /// What is shown of the process of this number; nothing, exactly where no process has it.
    pub fn view(&self, pid: u32) -> Option<View>
        ensures { result ≡ option_map view_of (process_at self.now.state pid) }
    {
        readings::view(&self.contents, pid)
    }

    /// The shared name for which the process of this number waits, where it stands at `acquire`.
    pub fn waits(&self, accepted: &Accepted, pid: u32) -> Option<u32>
        ensures { result ≡ waits accepted.now self.now.state.objects pid }
    {
        readings::waits(accepted, &self.contents, pid)
    }

    /// The number of the process that stands for a shared name.
    pub fn keeper(&self, shared: u32) -> Option<u32>
        ensures { result ≡ keeper self.now.state.objects shared }
    {
        sought::keeper(&self.contents, shared)
    }

    /// The lowest process over a number that has mode T.
    pub fn next_transaction(&self, after: u32) -> Option<u32>
        ensures { FindsNext (IsTransaction self.now.state.objects) after result }
    {
        sought::next_transaction(&self.contents, after)
    }

    /// The lowest process over a number that stands at `acquire`.
    pub fn next_waiting(&self, accepted: &Accepted, after: u32) -> Option<u32>
        ensures { FindsNext (IsWaiting accepted.now self.now.state.objects) after result }
    {
        walking::next_waiting(accepted, &self.contents, after)
    }

    /// The lowest name over a number whose type has mode R or L.
    pub fn next_owned(&self, accepted: &Accepted, after: u32) -> Option<u32>
        ensures { FindsNext (IsLinearName accepted.now.program self.now.state.types) after result }
    {
        walking::next_owned(accepted, &self.contents, after)
    }
}
