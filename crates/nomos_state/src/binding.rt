//! The channels of a process are bound all at once.
ghost use Rattle.std.specs.Prelude.{◌≡◌, ◌≤◌, ◌+◌, ℕ, IfOk, IsSome, IsTrue, None, OnErr, OnOk, Some, length};
ghost use Rattle.nomos_ir.specs.Bindings.{bound_to};
ghost use Rattle.nomos_machine.specs.State.{process_at};
ghost use Rattle.nomos_machine.specs.declared.object.Process.{Process};
ghost use Rattle.nomos_slots.specs.Cells.{name_in};
ghost use Rattle.nomos_slots.specs.Numbers.{put_at};
ghost use Rattle.nomos_slots.specs.ChannelTables.{HaveSameNames};
ghost use Rattle.nomos_changes.specs.SmallChanges.{Becomes, with_channels};
ghost use Rattle.nomos_state.specs.Objects.{kept_at};
ghost use Rattle.nomos_state.specs.ObjectsCome.{name_with};
ghost use Rattle.nomos_state.specs.Spanning.{HasVariable};
ghost use Rattle.nomos_state.specs.declared.kept.Kept.TheVariants as kept;

use crate::inside::Inside;
use crate::kept::{Kept, KeptProcess};
use crate::looking::process_at;
use crate::span::{Span, drop_span, span_of};
use nomos_ir::ids::VarId;
use nomos_slots::channels::Channels;
use nomos_slots::numbered::Numbered;
use std::alloc::{AllocError, Global};

/// Makes room for so many names, beside so much room. Want of memory leaves the names and the mark as they were.
pub(crate) fn reserve_names(
    channels: &mut Channels,
    alloc: Global,
    count: usize,
    room: usize,
) -> Result<(), AllocError>
    ensures names { (p v : ℕ) → name_in channels.new.now p v ≡ name_in channels.old.now p v }
    ensures marked { HaveSameNames channels.old.marked channels.new.marked }
    ensures ok { OnOk result (count + room ≤ channels.new.room) }
    ensures room { channels.old.room ≤ channels.new.room }
{
    let all = count.checked_add(room).ok_or(AllocError)?;
    channels.reserve(alloc, all)
}

/// Pairs are bound for a process; of a variable that stands twice the first pair counts. Who calls it has made room, so
/// it takes no memory.
pub(crate) fn bind_pairs(channels: &mut Channels, process: u32, pairs: &[(VarId, u32)])
    requires { length pairs.now ≤ channels.old.room }
    ensures names { (p v : ℕ) → name_in channels.new.now p v
        ≡ name_with process pairs.now p v (name_in channels.old.now p v) }
    ensures marked { channels.new.marked ≡ channels.old.marked }
    ensures room { channels.old.room ≤ channels.new.room + length pairs.now }
{
    let mut before = pairs.len();
    while before > 0 {
        before -= 1;
        let (v, name) = pairs[before];
        channels.bind(process, v.0, name);
    }
}

// Whether neither is a span.
fn are_none(one: Option<Span>, other: Option<Span>) -> bool
    ensures { IsTrue result → one ≡ other }
{
    one.is_none() && other.is_none()
}

// It is kept among which variables the channels of the process at a place may stand; nothing is written where it has
// none and had none.
fn keep_span(
    objects: &mut Numbered<Kept>,
    place: usize,
    pid: u32,
    before: KeptProcess,
    span: Option<Span>,
)
    requires { kept_at objects.old.now place ≡ Some (pid, kept.Process before) }
    ensures now { objects.new.now ≡ put_at objects.old.now place (Some (kept.Process (record before { span = span }))) }
    ensures marked { objects.new.marked ≡ objects.old.marked }
    ensures room { objects.old.room ≤ objects.new.room }
{
    if are_none(span, before.span) {
        return;
    }
    let next = KeptProcess { span, ..before };
    objects.put(place, Some(Kept::Process(next)));
}

impl Inside {
    /// The process has these channels; of a variable that stands twice the first pair counts. It gives among which
    /// variables they may stand, and changes nothing where there is no such process. It takes no room.
    pub fn replace_channels(
        &mut self,
        alloc: Global,
        pid: u32,
        channels: Vec<(VarId, u32)>,
    ) -> Result<Option<Span>, AllocError>
        ensures ok { OnOk result (Becomes self.old.state pid (with_channels channels.items) self.new.state) }
        ensures spans { IfOk result (λ span. (p : Process) → process_at self.new.state pid ≡ Some p
            → (v : ℕ) → IsSome (bound_to v p.channels) → HasVariable span v) }
        ensures none { process_at self.old.state pid ≡ None → self.new.state ≡ self.old.state }
        ensures no_span { process_at self.old.state pid ≡ None → IfOk result (λ span. span ≡ None) }
        ensures err { OnErr result (self.new.state ≡ self.old.state) }
        ensures room { self.new.room ≡ self.old.room }
        ensures marked { self.new.marked ≡ self.old.marked }
    {
        let Some((place, before)) = process_at(&self.contents, pid) else {
            return Ok(None);
        };
        let count = channels.len();
        reserve_names(&mut self.contents.channels, alloc, count, self.room)?;
        drop_span(&mut self.contents.channels, pid, before.span);
        bind_pairs(&mut self.contents.channels, pid, &channels);
        let span = span_of(&channels);
        keep_span(&mut self.contents.objects, place, pid, before, span);
        Ok(span)
    }
}
