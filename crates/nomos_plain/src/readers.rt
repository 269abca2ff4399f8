//! What can be read of a plain state, and walks over it in ascending order.
ghost use Rattle.std.specs.Prelude.{◌≡◌, ◌<◌, ◌^◌, ◌&&◌, nat_lt, map, find, IfOk, MatchOption, None, Some, option_and_then, option_copied, sum_by};
ghost use Rattle.std.specs.List.Sorted.{IsStrictlySortedBy};
ghost use Rattle.std.specs.Option.{option_map};
ghost use Rattle.std.specs.Ordering.{nat_cmp};
ghost use Rattle.nomos_machine.specs.Deeds.{value_in};
ghost use Rattle.nomos_machine.specs.Objects.{object_at, object_number, process_of, purse_of};
ghost use Rattle.nomos_machine.specs.Run.{IsNextReady, NoneReady};
ghost use Rattle.nomos_machine.specs.Sight.{user_of};
ghost use Rattle.nomos_machine.specs.State.{type_of};
ghost use Rattle.nomos_machine.specs.TypedState.{IsTyped};
ghost use Rattle.nomos_machine.specs.declared.object.Message.{Message as Sent};
ghost use Rattle.nomos_machine.specs.declared.object.Process.{Process};
ghost use Rattle.nomos_deeds.specs.Acts.{message_at};
ghost use Rattle.nomos_deeds.specs.Lowest.{FindsNext};
ghost use Rattle.nomos_changes.specs.SmallChanges.{value_brought};
ghost use Rattle.nomos_deeds.specs.Readers.{IsLinearName, IsTransaction, IsWaiting, acquires, keeper, looks_linear, stands_for, view_of, waits};
ghost use Rattle.nomos_plain.specs.Parts.{object_in, process_in};
ghost use Rattle.nomos_deeds.specs.ProcessWalks.{is_acquiring, is_over, is_ready_in, is_transaction};

use crate::finds::{message_at, process_at, user};
use crate::plain_object::{PlainObject, PlainProcess};
use nomos_deeds::deeds::looks_ready;
use nomos_deeds::machine::View;
use nomos_deeds::sight::Sight;
use nomos_deeds::unfolded_types::is_linear;
use nomos_ir::bindings::bound_first;
use nomos_ir::code_node::CodeNode;
use nomos_ir::find::find_code;
use nomos_ir::ids::{TypeId, VarId};
use nomos_ir::mode::Mode;
use nomos_ir::value::Value;
use nomos_machine::object::{Payload, PotentialList};
use nomos_types::accepted::Accepted;
use std::alloc::AllocError;

// What an object carries, in Dths.
fn purse_of(o: &PlainObject) -> u128
    ensures { result ≡ purse_of (object_in o.now) }
{
    match o {
        PlainObject::Process(p) => p.purse,
        PlainObject::Message(m) => m.purse,
    }
}

/// What all objects carry, in Dths.
pub(crate) fn stored(objects: &[PlainObject]) -> u128
    requires { sum_by purse_of (map object_in objects.now) < 2 ^ 96 }
    ensures { result ≡ sum_by purse_of (map object_in objects.now) }
{
    objects.iter().map(|o| purse_of(o)).sum()
}

/// What is shown of the process of this number; nothing, exactly where no process has it.
pub(crate) fn view(objects: &[PlainObject], pid: u32) -> Option<View>
    ensures { result ≡ option_map view_of (option_and_then process_of (object_at (map object_in objects.now) pid)) }
{
    let p = process_at(objects, pid)?;
    Some(View {
        mode: p.mode,
        code: p.code,
        offers: p.offers,
        base: p.base,
        purse: p.purse,
    })
}

/// The lists of the process of this number.
pub(crate) fn lists(objects: &[PlainObject], pid: u32) -> &[(VarId, PotentialList)]
    ensures { (p : Process) → option_and_then process_of (object_at (map object_in objects.now) pid) ≡ Some p
        → result.now ≡ p.lists }
{
    match process_at(objects, pid) {
        Some(p) => &p.lists,
        None => &[],
    }
}

/// What the message of this number carries, in Dths.
pub(crate) fn message_purse(objects: &[PlainObject], number: u32) -> u128
    ensures { (m : Sent) → message_at (map object_in objects.now) number ≡ Some m → result ≡ m.purse }
{
    match message_at(objects, number) {
        Some(m) => m.purse,
        None => 0,
    }
}

// The value among what a message brings, once more.
fn copy_brought(payload: &Payload) -> Result<Option<Value>, AllocError>
    ensures { IfOk result (λ found. found ≡ value_in payload.now) }
{
    match payload {
        Payload::Value(x) => Ok(Some(x.copy()?)),
        _ => Ok(None),
    }
}

/// The value that the message of this number brings, if it brings one, once more.
pub(crate) fn message_value(
    objects: &[PlainObject],
    number: u32,
) -> Result<Option<Value>, AllocError>
    ensures { IfOk result (λ found. found ≡ value_brought (map object_in objects.now) number) }
{
    match message_at(objects, number) {
        Some(m) => copy_brought(&m.payload),
        None => Ok(None),
    }
}

// The shared name for which a process waits, where it stands at `acquire`.
fn acquires(accepted: &Accepted, p: &PlainProcess) -> Option<u32>
    ensures { result ≡ acquires accepted.now (process_in p.now) }
{
    match find_code(accepted.program().lists(), p.code) {
        Some(CodeNode::Acquire(_, r, _, _)) => bound_first(p.channels.as_slice(), *r),
        _ => None,
    }
}

/// The shared name for which the process of this number waits, where it stands at `acquire`.
pub(crate) fn waits(accepted: &Accepted, objects: &[PlainObject], pid: u32) -> Option<u32>
    ensures { result ≡ waits accepted.now (map object_in objects.now) pid }
{
    let p = process_at(objects, pid)?;
    acquires(accepted, p)
}

// Whether an object is the process that stands for a shared name.
fn stands_for(o: &PlainObject, name: u32) -> bool
    ensures { result ≡ stands_for name (object_in o.now) }
{
    match o {
        PlainObject::Process(p) => match p.mode {
            Mode::S => p.offers == name,
            Mode::L => p.base == Some(name),
            Mode::R | Mode::T => false,
        },
        PlainObject::Message(_) => false,
    }
}

// The first process that stands for a shared name, as an object.
fn object_standing(objects: &[PlainObject], name: u32) -> Option<&PlainObject>
    ensures { option_copied result ≡ find (λ o. stands_for name (object_in o)) objects.now }
{
    objects.iter().find(|o| stands_for(o, name))
}

// The number of what was found, where that is a process.
fn pid_of(found: Option<&PlainObject>) -> Option<u32>
    ensures { result
        ≡ option_map (λ p. p.pid) (option_and_then process_of (option_map object_in (option_copied found.entry))) }
{
    match found {
        Some(PlainObject::Process(p)) => Some(p.pid),
        _ => None,
    }
}

/// The number of the process that stands for a shared name: it offers the name, or it is acquired and has the name as
/// base.
pub(crate) fn keeper(objects: &[PlainObject], shared: u32) -> Option<u32>
    ensures { result ≡ keeper (map object_in objects.now) shared }
{
    pid_of(object_standing(objects, shared))
}

/// The type of a name, if it has one.
pub(crate) fn name_type(types: &[(u32, TypeId)], name: u32) -> Option<TypeId>
    ensures { result ≡ type_of types.now name }
{
    types.iter().find(|t| t.0 == name).map(|t| t.1)
}

/// The number of the object that uses a name whose type has mode R or L; nothing at any other name.
pub(crate) fn owner(
    accepted: &Accepted,
    objects: &[PlainObject],
    types: &[(u32, TypeId)],
    name: u32,
) -> Option<u32>
    ensures linear { IsLinearName accepted.now.program types.now name
        → result ≡ option_map object_number (user_of (map object_in objects.now) name) }
    ensures other { ¬ (IsLinearName accepted.now.program types.now name) → result ≡ None }
{
    let t = name_type(types, name)?;
    if is_linear(accepted, t) {
        user(objects, name)
    } else {
        None
    }
}

// Whether an object is a process over a number that is ready.
fn is_ready_over<S: Sight>(o: &PlainObject, sight: &S, accepted: &Accepted, after: u32) -> bool
    ensures { result ≡ is_over after (is_ready_in accepted.now (S.state sight.now)) (object_in o.now) }
{
    match o {
        PlainObject::Process(p) => after < p.pid && looks_ready(sight, accepted, p.pid),
        PlainObject::Message(_) => false,
    }
}

// The first of them, as an object.
fn first_ready<'a, S: Sight>(
    sight: &S,
    accepted: &Accepted,
    objects: &'a [PlainObject],
    after: u32,
) -> Option<&'a PlainObject>
    ensures { option_copied result
        ≡ find (λ o. is_over after (is_ready_in accepted.now (S.state sight.now)) (object_in o)) objects.now }
{
    objects
        .iter()
        .find(|o| is_ready_over(o, sight, accepted, after))
}

/// The lowest ready process over a number, in a state that has these objects.
pub(crate) fn next_ready<S: Sight>(
    sight: &S,
    accepted: &Accepted,
    objects: &[PlainObject],
    after: u32,
) -> Option<u32>
    requires typed { IsTyped accepted.now (S.state sight.now) }
    requires objects { (S.state sight.now).objects ≡ map object_in objects.now }
    ensures { MatchOption result (NoneReady accepted.now (S.state sight.now) after)
        (IsNextReady accepted.now (S.state sight.now) after) }
{
    accepted.know();
    pid_of(first_ready(sight, accepted, objects, after))
}

// Whether an object is a process over a number that has mode T.
fn is_transaction_over(o: &PlainObject, after: u32) -> bool
    ensures { result ≡ is_over after is_transaction (object_in o.now) }
{
    match o {
        PlainObject::Process(p) => after < p.pid && p.mode == Mode::T,
        PlainObject::Message(_) => false,
    }
}

// The first of them, as an object.
fn first_transaction(objects: &[PlainObject], after: u32) -> Option<&PlainObject>
    ensures { option_copied result ≡ find (λ o. is_over after is_transaction (object_in o)) objects.now }
{
    objects.iter().find(|o| is_transaction_over(o, after))
}

/// The lowest process over a number that has mode T.
pub(crate) fn next_transaction(objects: &[PlainObject], after: u32) -> Option<u32>
    requires { IsStrictlySortedBy nat_cmp (map object_number (map object_in objects.now)) }
    ensures { FindsNext (IsTransaction (map object_in objects.now)) after result }
{
    pid_of(first_transaction(objects, after))
}

// Whether an object is a process over a number that waits for a shared name.
fn is_acquiring_over(o: &PlainObject, accepted: &Accepted, after: u32) -> bool
    ensures { result ≡ is_over after (is_acquiring accepted.now) (object_in o.now) }
{
    match o {
        PlainObject::Process(p) => after < p.pid && acquires(accepted, p).is_some(),
        PlainObject::Message(_) => false,
    }
}

// The first of them, as an object.
fn first_acquiring<'a>(
    accepted: &Accepted,
    objects: &'a [PlainObject],
    after: u32,
) -> Option<&'a PlainObject>
    ensures { option_copied result ≡ find (λ o. is_over after (is_acquiring accepted.now) (object_in o)) objects.now }
{
    objects
        .iter()
        .find(|o| is_acquiring_over(o, accepted, after))
}

/// The lowest process over a number that stands at `acquire`.
pub(crate) fn next_waiting(accepted: &Accepted, objects: &[PlainObject], after: u32) -> Option<u32>
    requires { IsStrictlySortedBy nat_cmp (map object_number (map object_in objects.now)) }
    ensures { FindsNext (IsWaiting accepted.now (map object_in objects.now)) after result }
{
    pid_of(first_acquiring(accepted, objects, after))
}

// The first name over a number that is used exactly once, with its type.
fn first_linear<'a>(
    accepted: &Accepted,
    types: &'a [(u32, TypeId)],
    after: u32,
) -> Option<&'a (u32, TypeId)>
    ensures { option_copied result
        ≡ find (λ t. nat_lt after t.0 && looks_linear accepted.now.program t.1) types.now }
{
    types
        .iter()
        .find(|t| after < t.0 && is_linear(accepted, t.1))
}

// The name that was found.
fn name_of(found: Option<&(u32, TypeId)>) -> Option<u32>
    ensures { result ≡ option_map (λ t. t.0) (option_copied found.entry) }
{
    found.map(|t| t.0)
}

/// The lowest name over a number whose type has mode R or L.
pub(crate) fn next_owned(accepted: &Accepted, types: &[(u32, TypeId)], after: u32) -> Option<u32>
    requires { IsStrictlySortedBy nat_cmp (map (λ t. t.0) types.now) }
    ensures { FindsNext (IsLinearName accepted.now.program types.now) after result }
{
    accepted.know();
    name_of(first_linear(accepted, types, after))
}
