//! A process of an indexed state changes: its plain fields, its channels, its values, its lists.
ghost use Rattle.std.specs.Prelude.{◌≡◌, ◌≤◌, ◌<◌, ◌+◌, IsTrue, None, OnErr, OnOk, Some};
ghost use Rattle.std.specs.Option.{option_map};
ghost use Rattle.nomos_deeds.specs.SeenObjects.{seen_process};
ghost use Rattle.nomos_ir.specs.Bindings.{IsAscending, bound_to};
ghost use Rattle.nomos_machine.specs.Revised.{with_channel, with_value, without_channel};
ghost use Rattle.nomos_machine.specs.State.{process_at};
ghost use Rattle.nomos_machine.specs.declared.object.Process.{Process};
ghost use Rattle.nomos_changes.specs.SmallChanges.{Becomes, with_fields, with_list_change, with_lists, with_values};
ghost use Rattle.nomos_slots.specs.Numbers.{put_at};
ghost use Rattle.nomos_state.specs.Objects.{kept_at};
ghost use Rattle.nomos_state.specs.declared.kept.Kept.TheVariants as kept;

use crate::inside::Inside;
use crate::kept::{Kept, KeptLists, KeptProcess};
use crate::list_rows::{change_row, own_row};
use crate::looking::process_at;
use crate::sought::seen_process;
use crate::span::widened;
use crate::value_rows::{bind_if, bind_in};
use crate::weights::kept_lists;
use nomos_changes::list_change::ListChange;
use nomos_changes::pairs::is_map;
use nomos_deeds::sight::SeenProcess;
use nomos_ir::ids::VarId;
use nomos_ir::value::Value;
use nomos_machine::object::PotentialList;
use nomos_slots::numbered::Numbered;
use std::alloc::{AllocError, Global};

// It is kept of the process at a place whether its values are known to ascend; nothing is written where that is kept
// already.
fn keep_order(
    objects: &mut Numbered<Kept>,
    place: usize,
    pid: u32,
    before: KeptProcess,
    ascends: bool,
)
    requires { kept_at objects.old.now place ≡ Some (pid, kept.Process before) }
    ensures now { objects.new.now
        ≡ put_at objects.old.now place (Some (kept.Process (record before { ascends = ascends }))) }
    ensures marked { objects.new.marked ≡ objects.old.marked }
    ensures room { objects.old.room ≤ objects.new.room }
{
    if ascends == before.ascends {
        return;
    }
    let next = KeptProcess { ascends, ..before };
    objects.put(place, Some(Kept::Process(next)));
}

// Whether the same is kept of a process, and it is known what its lists carry.
fn is_kept(lists: KeptLists, before: &KeptProcess) -> bool
    ensures { IsTrue result → (lists.gone ≡ before.now.gone) × (lists.potential ≡ before.now.potential) }
{
    match (lists.potential, before.potential) {
        (Some(dths), Some(kept)) => lists.gone == before.gone && dths == kept,
        _ => false,
    }
}

// This is kept of the lists of the process at a place; nothing is written where it is already.
fn keep_lists(
    objects: &mut Numbered<Kept>,
    place: usize,
    pid: u32,
    before: KeptProcess,
    lists: KeptLists,
)
    requires { kept_at objects.old.now place ≡ Some (pid, kept.Process before) }
    ensures now { objects.new.now ≡ put_at objects.old.now place
        (Some (kept.Process (record before { gone = lists.gone; potential = lists.potential }))) }
    ensures marked { objects.new.marked ≡ objects.old.marked }
    ensures room { objects.old.room ≤ objects.new.room }
{
    if is_kept(lists, &before) {
        return;
    }
    let next = KeptProcess {
        gone: lists.gone,
        potential: lists.potential,
        ..before
    };
    objects.put(place, Some(Kept::Process(next)));
}

impl Inside {
    /// The process of this number has these plain fields, but for the number, which it has already. It gives those that
    /// it had, and changes nothing where there is no such process. It takes no room.
    #[inline(always)]
    pub fn set_fields(&mut self, fields: SeenProcess) -> Option<SeenProcess>
        ensures before { result ≡ option_map seen_process (process_at self.old.state fields.pid) }
        ensures state { Becomes self.old.state fields.pid (with_fields fields) self.new.state }
        ensures none { process_at self.old.state fields.pid ≡ None → self.new.state ≡ self.old.state }
        ensures room { self.new.room ≡ self.old.room }
        ensures marked { self.new.marked ≡ self.old.marked }
    {
        let (place, before) = process_at(&self.contents, fields.pid)?;
        let next = KeptProcess::of(fields, before.span, before.ascends, before.lists());
        self.contents.objects.put(place, Some(Kept::Process(next)));
        Some(seen_process(fields.pid, &before))
    }

    /// A channel of the process is bound to a variable. It gives what was bound to the variable, and changes nothing
    /// where there is no such process.
    pub fn bind_channel(&mut self, pid: u32, v: VarId, name: u32) -> Option<Option<u32>>
        requires { 0 < self.old.room }
        ensures before { result ≡ option_map (λ p. bound_to v.0 p.channels) (process_at self.old.state pid) }
        ensures order { (p : Process) → process_at self.old.state pid ≡ Some p → IsAscending p.channels }
        ensures state { Becomes self.old.state pid (with_channel v name) self.new.state }
        ensures none { process_at self.old.state pid ≡ None → self.new.state ≡ self.old.state }
        ensures room { self.old.room ≤ self.new.room + 1 }
        ensures marked { self.new.marked ≡ self.old.marked }
    {
        let (place, before) = process_at(&self.contents, pid)?;
        let bound = self.contents.channels.get(pid, v.0);
        self.contents.channels.bind(pid, v.0, name);
        let span = Some(widened(before.span, v.0));
        let next = KeptProcess { span, ..before };
        self.contents.objects.put(place, Some(Kept::Process(next)));
        self.room -= 1;
        Some(bound)
    }

    /// A variable of the process has no channel any longer. It gives what was bound to the variable, and changes
    /// nothing where there is no such process. It takes no room.
    pub fn unbind_channel(&mut self, pid: u32, v: VarId) -> Option<Option<u32>>
        ensures before { result ≡ option_map (λ p. bound_to v.0 p.channels) (process_at self.old.state pid) }
        ensures state { Becomes self.old.state pid (without_channel v) self.new.state }
        ensures none { process_at self.old.state pid ≡ None → self.new.state ≡ self.old.state }
        ensures room { self.new.room ≡ self.old.room }
        ensures marked { self.new.marked ≡ self.old.marked }
    {
        let Some(_) = process_at(&self.contents, pid) else {
            return None;
        };
        let bound = self.contents.channels.get(pid, v.0);
        self.contents.channels.unbind(pid, v.0);
        Some(bound)
    }

    /// A variable of the process is bound to a value. Nothing changes where there is no such process.
    pub fn bind_value(
        &mut self,
        alloc: Global,
        pid: u32,
        v: VarId,
        x: Value,
    ) -> Result<(), AllocError>
        requires { 0 < self.old.room }
        ensures ok { OnOk result (Becomes self.old.state pid (with_value v x) self.new.state) }
        ensures err { OnErr result (self.new.state ≡ self.old.state) }
        ensures none { process_at self.old.state pid ≡ None → self.new.state ≡ self.old.state }
        ensures room { self.old.room ≤ self.new.room + 1 }
        ensures marked { self.new.marked ≡ self.old.marked }
    {
        let Some((place, before)) = process_at(&self.contents, pid) else {
            return Ok(());
        };
        bind_in(
            &mut self.contents.values,
            alloc,
            place,
            (v, x),
            before.ascends,
        )?;
        self.room -= 1;
        Ok(())
    }

    /// The process has these values. Nothing changes where there is no such process.
    pub fn put_values(&mut self, pid: u32, values: Vec<(VarId, Value)>)
        requires { 0 < self.old.room }
        ensures state { Becomes self.old.state pid (with_values values.items) self.new.state }
        ensures none { process_at self.old.state pid ≡ None → self.new.state ≡ self.old.state }
        ensures room { self.old.room ≤ self.new.room + 1 }
        ensures marked { self.new.marked ≡ self.old.marked }
    {
        let Some((place, before)) = process_at(&self.contents, pid) else {
            return;
        };
        let ascends = is_map(&values);
        keep_order(&mut self.contents.objects, place, pid, before, ascends);
        let _before = self.contents.values.replace(place, values);
        self.room -= 1;
    }

    /// One list of the process is used up, one is bound, and a value is, each if it is to be. It takes the room of two.
    /// Nothing changes where there is no such process.
    pub fn change_lists(
        &mut self,
        alloc: Global,
        pid: u32,
        change: ListChange,
    ) -> Result<(), AllocError>
        requires { 2 ≤ self.old.room }
        ensures ok { OnOk result (Becomes self.old.state pid (with_list_change change) self.new.state) }
        ensures err { OnErr result (self.new.state ≡ self.old.state) }
        ensures none { process_at self.old.state pid ≡ None → self.new.state ≡ self.old.state }
        ensures room { self.old.room ≤ self.new.room + 2 }
        ensures marked { self.new.marked ≡ self.old.marked }
    {
        let Some((place, before)) = process_at(&self.contents, pid) else {
            return Ok(());
        };
        self.room -= 2;
        own_row(&mut self.contents.lists, alloc, place)?;
        let ListChange {
            used_up,
            bound,
            value,
        } = change;
        bind_if(
            &mut self.contents.values,
            alloc,
            place,
            value,
            before.ascends,
        )?;
        let kept = change_row(
            &mut self.contents.lists,
            place,
            used_up,
            bound,
            before.lists(),
        );
        keep_lists(&mut self.contents.objects, place, pid, before, kept);
        Ok(())
    }

    /// The process has these lists. Nothing changes where there is no such process.
    pub fn put_lists(&mut self, pid: u32, lists: Vec<(VarId, PotentialList)>)
        requires { 0 < self.old.room }
        ensures state { Becomes self.old.state pid (with_lists lists.items) self.new.state }
        ensures none { process_at self.old.state pid ≡ None → self.new.state ≡ self.old.state }
        ensures room { self.old.room ≤ self.new.room + 1 }
        ensures marked { self.new.marked ≡ self.old.marked }
    {
        let Some((place, before)) = process_at(&self.contents, pid) else {
            return;
        };
        let kept = kept_lists(&lists);
        keep_lists(&mut self.contents.objects, place, pid, before, kept);
        let _before = self.contents.lists.replace(place, lists);
        self.room -= 1;
    }
}
