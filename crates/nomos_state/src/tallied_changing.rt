//! A process changes what it does with names: by its plain fields and by its channels.
ghost use Rattle.std.specs.Prelude.{◌≡◌, ◌≤◌, ◌<◌, ◌+◌, OnErr, OnOk};
ghost use Rattle.nomos_machine.specs.Revised.{with_channel, without_channel};
ghost use Rattle.nomos_changes.specs.SmallChanges.{Becomes, with_channels, with_fields};

use crate::counting::{count_channels, uncount_channels};
use crate::tallied::Tallied;
use crate::tally::{Hint, NameUse};
use nomos_deeds::sight::SeenProcess;
use nomos_ir::ids::VarId;
use std::alloc::{AllocError, Global};

impl Tallied {
    /// A channel of the process is bound to a variable.
    pub(crate) fn bind_channel(&mut self, pid: u32, v: VarId, name: u32)
        requires { 0 < self.old.room }
        ensures state { Becomes self.old.state pid (with_channel v name) self.new.state }
        ensures room { self.old.room ≤ self.new.room + 1 }
        ensures marked { self.new.marked ≡ self.old.marked }
    {
        let Some(before) = self.inside.bind_channel(pid, v, name) else {
            return;
        };
        let by = Hint {
            object: pid,
            variable: v.0,
        };
        self.tallies.exchange(NameUse::Uses, before, Some(name), by);
    }

    /// A variable of the process has no channel any longer. It takes no room.
    pub(crate) fn unbind_channel(&mut self, pid: u32, v: VarId)
        ensures state { Becomes self.old.state pid (without_channel v) self.new.state }
        ensures room { self.new.room ≡ self.old.room }
        ensures marked { self.new.marked ≡ self.old.marked }
    {
        let Some(before) = self.inside.unbind_channel(pid, v) else {
            return;
        };
        let by = Hint {
            object: pid,
            variable: v.0,
        };
        self.tallies.exchange(NameUse::Uses, before, None, by);
    }

    /// The process has these channels; of a variable that stands twice the first pair counts. It takes no room.
    pub(crate) fn replace_channels(
        &mut self,
        alloc: Global,
        pid: u32,
        channels: Vec<(VarId, u32)>,
    ) -> Result<(), AllocError>
        ensures ok { OnOk result (Becomes self.old.state pid (with_channels channels.items) self.new.state) }
        ensures err { OnErr result (self.new.state ≡ self.old.state) }
        ensures room { self.new.room ≡ self.old.room }
        ensures marked { self.new.marked ≡ self.old.marked }
    {
        let before = self.inside.span(pid);
        uncount_channels(&self.inside, &mut self.tallies, pid, before);
        match self.inside.replace_channels(alloc, pid, channels) {
            Ok(after) => {
                count_channels(&self.inside, &mut self.tallies, pid, after);
                Ok(())
            }
            Err(fault) => {
                count_channels(&self.inside, &mut self.tallies, pid, before);
                Err(fault)
            }
        }
    }

    /// The process of this number has these plain fields, but for the number, which it has already. It takes no room.
    #[inline(always)]
    pub(crate) fn set_fields(&mut self, fields: SeenProcess)
        ensures state { Becomes self.old.state fields.pid (with_fields fields) self.new.state }
        ensures room { self.new.room ≡ self.old.room }
        ensures marked { self.new.marked ≡ self.old.marked }
    {
        let Some(before) = self.inside.set_fields(fields) else {
            return;
        };
        let by = Hint::of(fields.pid);
        self.tallies.exchange(
            NameUse::Provides,
            Some(before.offers),
            Some(fields.offers),
            by,
        );
        self.tallies
            .exchange(NameUse::Bases, before.base, fields.base, by);
    }
}
