//! What an object of an indexed state does with names is counted in, or counted out.
ghost use Rattle.std.specs.Prelude.{◌≡◌, ℕ, IsSome, None, Some};
ghost use Rattle.nomos_ir.specs.Bindings.{bound_to};
ghost use Rattle.nomos_deeds.specs.Acts.{message_at};
ghost use Rattle.nomos_state.specs.Mentions.{names_in};
ghost use Rattle.nomos_machine.specs.Objects.{object_at};
ghost use Rattle.nomos_machine.specs.State.{process_at};
ghost use Rattle.nomos_machine.specs.declared.object.Message.{Message as Sent};
ghost use Rattle.nomos_machine.specs.declared.object.Object.{Object as Thing};
ghost use Rattle.nomos_machine.specs.declared.object.Process.{Process};
ghost use Rattle.nomos_slots.specs.Numbers.{IsAscending};
ghost use Rattle.nomos_state.specs.Moving.{Moves};
ghost use Rattle.nomos_state.specs.Tallying.{channels_used, names_of, nothing};
ghost use Rattle.nomos_state.specs.Counting.{fields_seen, names_used};
ghost use Rattle.nomos_state.specs.Spanning.{HasVariable};

use crate::inside::Inside;
use crate::mentions::MessageNames;
use crate::span::Span;
use crate::tallies::Tallies;
use crate::tally::{Hint, NameUse};
use nomos_deeds::sight::{SeenProcess, Sight};
use nomos_ir::ids::VarId;

/// The channels of a process, which stand in this span, are counted in.
pub(crate) fn count_channels(inside: &Inside, tallies: &mut Tallies, pid: u32, within: Option<Span>)
    requires order { IsAscending tallies.old.names.now }
    requires spans { (p : Process) → process_at inside.now.state pid ≡ Some p → (v : ℕ) → IsSome (bound_to v p.channels)
        → HasVariable within v }
    ensures moves { (p : Process) → process_at inside.now.state pid ≡ Some p
        → Moves tallies.old tallies.new nothing (channels_used p) }
    ensures none { within ≡ None → tallies.new ≡ tallies.old }
{
    let Some(span) = within else {
        return;
    };
    let mut variable = span.low;
    loop {
        let name = inside.bound(pid, VarId(variable));
        let by = Hint {
            object: pid,
            variable,
        };
        tallies.exchange(NameUse::Uses, None, name, by);
        if variable >= span.high {
            return;
        }
        variable = inside.next_variable(pid, span, variable + 1);
    }
}

/// The channels of a process, which stand in this span, are counted out.
pub(crate) fn uncount_channels(
    inside: &Inside,
    tallies: &mut Tallies,
    pid: u32,
    within: Option<Span>,
)
    requires order { IsAscending tallies.old.names.now }
    requires spans { (p : Process) → process_at inside.now.state pid ≡ Some p → (v : ℕ) → IsSome (bound_to v p.channels)
        → HasVariable within v }
    ensures moves { (p : Process) → process_at inside.now.state pid ≡ Some p
        → Moves tallies.old tallies.new (channels_used p) nothing }
    ensures none { within ≡ None → tallies.new ≡ tallies.old }
{
    let Some(span) = within else {
        return;
    };
    let mut variable = span.low;
    loop {
        let name = inside.bound(pid, VarId(variable));
        let by = Hint {
            object: pid,
            variable,
        };
        tallies.exchange(NameUse::Uses, name, None, by);
        if variable >= span.high {
            return;
        }
        variable = inside.next_variable(pid, span, variable + 1);
    }
}

/// What a process does with names by its plain fields is counted in.
pub(crate) fn count_fields(tallies: &mut Tallies, fields: &SeenProcess)
    requires { IsAscending tallies.old.names.now }
    ensures { Moves tallies.old tallies.new nothing (fields_seen fields.now) }
{
    let by = Hint::of(fields.pid);
    tallies.exchange(NameUse::Provides, None, Some(fields.offers), by);
    tallies.exchange(NameUse::Bases, None, fields.base, by);
}

/// The same is counted out.
pub(crate) fn uncount_fields(tallies: &mut Tallies, fields: &SeenProcess)
    requires { IsAscending tallies.old.names.now }
    ensures { Moves tallies.old tallies.new (fields_seen fields.now) nothing }
{
    let by = Hint::of(fields.pid);
    tallies.exchange(NameUse::Provides, Some(fields.offers), None, by);
    tallies.exchange(NameUse::Bases, fields.base, None, by);
}

/// The names that a message mentions are counted in.
pub(crate) fn count_message(tallies: &mut Tallies, names: MessageNames, number: u32)
    requires { IsAscending tallies.old.names.now }
    ensures { Moves tallies.old tallies.new nothing (names_used names) }
{
    let by = Hint::of(number);
    tallies.exchange(NameUse::Provides, None, names.provides, by);
    tallies.exchange(NameUse::Uses, None, names.end, by);
    tallies.exchange(NameUse::Uses, None, names.brings, by);
}

/// The same are counted out.
pub(crate) fn uncount_message(tallies: &mut Tallies, names: MessageNames, number: u32)
    requires { IsAscending tallies.old.names.now }
    ensures { Moves tallies.old tallies.new (names_used names) nothing }
{
    let by = Hint::of(number);
    tallies.exchange(NameUse::Provides, names.provides, None, by);
    tallies.exchange(NameUse::Uses, names.end, None, by);
    tallies.exchange(NameUse::Uses, names.brings, None, by);
}

/// What the object of a number does with names is counted out.
pub(crate) fn uncount(inside: &Inside, tallies: &mut Tallies, number: u32)
    requires { IsAscending tallies.old.names.now }
    ensures there { (o : Thing) → object_at inside.now.state.objects number ≡ Some o
        → Moves tallies.old tallies.new (λ d. names_of d o) nothing }
    ensures none { object_at inside.now.state.objects number ≡ None
        → Moves tallies.old tallies.new nothing nothing }
{
    if let Some(fields) = inside.process(number) {
        uncount_channels(inside, tallies, number, inside.span(number));
        uncount_fields(tallies, &fields);
        return;
    }
    if let Some(names) = inside.message_names(number) {
        uncount_message(tallies, names, number);
    }
}
