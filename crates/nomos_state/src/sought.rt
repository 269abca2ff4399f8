//! Objects, found by going over what is kept of them.
ghost use Rattle.std.specs.Prelude.{◌≡◌, ◌==◌, ℕ, List, option_and_then};
ghost use Rattle.std.specs.List.{list_any};
ghost use Rattle.std.specs.Option.{option_map};
ghost use Rattle.nomos_deeds.specs.Lowest.{FindsNext};
ghost use Rattle.nomos_deeds.specs.Readers.{IsTransaction, keeper, stands_for};
ghost use Rattle.nomos_deeds.specs.SeenObjects.{seen_message, seen_process};
ghost use Rattle.nomos_machine.specs.Change.{is_mentioned};
ghost use Rattle.nomos_machine.specs.Objects.{carried, mentioned, message_of, object_number, process_of, used};
ghost use Rattle.nomos_machine.specs.Sight.{is_read_on, message_on, offering, owner, same_way};
ghost use Rattle.nomos_machine.specs.declared.object.Object.TheVariants as object;
ghost use Rattle.nomos_slots.specs.Cells.{Cell};
ghost use Rattle.nomos_state.specs.Indexed.{IsHolding, held_now, standing_at, state_of};
ghost use Rattle.nomos_state.specs.Objects.{HasValue, ListRow, ValueRow, message_held, payload_of, process_held};
ghost use Rattle.nomos_state.specs.Sought.{IsFirstPlace, StandsNotBefore, is_sought, lower_of, passes_at};

use crate::inside::Columns;
use crate::kept::{Kept, KeptMessage, KeptProcess};
use crate::looking::kept_at;
use crate::numbers_over::start_over;
use nomos_deeds::sight::{SeenMessage, SeenPayload, SeenProcess};
use nomos_ir::mode::Mode;

/// What is looked for among objects.
#[derive(Clone, Copy, Debug)]
pub(crate) enum Sought {
    /// A message that is read on this name and goes this way.
    Message { to_client: bool, name: u32 },
    /// A process that offers this name.
    Provider(u32),
    /// A message that uses this name.
    MessageUsing(u32),
    /// The process that stands for this shared name.
    Keeper(u32),
    /// An object that provides this name or has it as base, or a message that uses it.
    Mention(u32),
    /// A process over this number that has mode T.
    TransactionOver(u32),
}

// Whether two ways are one.
fn same_way(way: bool, other: bool) -> bool
    ensures { result ≡ same_way way other }
{
    if way { other } else { !other }
}

// Whether a message brings the channel of this name.
fn brings(brought: SeenPayload, name: u32) -> bool
    ensures { (values : ValueRow) → result ≡ list_any (λ k. k == name) (carried (payload_of brought values)) }
{
    match brought {
        SeenPayload::Channel(k) => k == name,
        _ => false,
    }
}

/// Whether a message uses this name: as the other end of its talk, or since it brings it.
pub(crate) fn message_uses(m: &KeptMessage, name: u32) -> bool
    ensures { (number : ℕ) (values : ValueRow)
        → result ≡ list_any (λ k. k == name) (used (object.Message (message_held number values m.now))) }
{
    let at_end = if m.to_client {
        m.next == Some(name)
    } else {
        m.from == name
    };
    at_end || brings(m.brings, name)
}

// Whether a message mentions this name.
fn message_mentions(m: &KeptMessage, name: u32) -> bool
    ensures { (number : ℕ) (values : ValueRow)
        → result ≡ list_any (λ k. k == name) (mentioned (object.Message (message_held number values m.now))) }
{
    m.from == name || m.next == Some(name) || brings(m.brings, name)
}

/// Whether a process stands for a shared name.
pub(crate) fn stands_for(p: &KeptProcess, name: u32) -> bool
    ensures { (cells : List Cell) (pid : ℕ) (values : ValueRow) (its_lists : ListRow)
        → result ≡ stands_for name (object.Process (process_held cells pid values its_lists p.now)) }
{
    match p.mode {
        Mode::S => p.offers == name,
        Mode::L => p.base == Some(name),
        Mode::R | Mode::T => false,
    }
}

// Whether a process is what is looked for.
fn is_process_sought(number: u32, p: &KeptProcess, sought: Sought) -> bool
    ensures { (cells : List Cell) (values : ValueRow) (its_lists : ListRow)
        → result ≡ is_sought sought (object.Process (process_held cells number values its_lists p.now)) }
{
    match sought {
        Sought::Message { .. } | Sought::MessageUsing(_) => false,
        Sought::Provider(name) => p.offers == name,
        Sought::Keeper(name) => stands_for(p, name),
        Sought::Mention(name) => p.offers == name || p.base == Some(name),
        Sought::TransactionOver(after) => after < number && p.mode == Mode::T,
    }
}

/// Whether a message is what is looked for.
pub(crate) fn is_message_sought(m: &KeptMessage, sought: Sought) -> bool
    ensures { (number : ℕ) (values : ValueRow)
        → result ≡ is_sought sought (object.Message (message_held number values m.now)) }
{
    match sought {
        Sought::Message { to_client, name } => same_way(to_client, m.to_client) && m.from == name,
        Sought::MessageUsing(name) => message_uses(m, name),
        Sought::Mention(name) => message_mentions(m, name),
        Sought::Provider(_) | Sought::Keeper(_) | Sought::TransactionOver(_) => false,
    }
}

// Whether the object at a place is what is looked for.
fn is_sought_at(contents: &Columns, place: usize, sought: Sought) -> bool
    ensures { result ≡ passes_at (is_sought sought) (held_now contents.now) place }
{
    match kept_at(contents, place) {
        Some((number, Kept::Process(p))) => is_process_sought(number, &p, sought),
        Some((_, Kept::Message(m))) => is_message_sought(&m, sought),
        None => false,
    }
}

// The first place at which what is looked for stands, where it stands at none before this one.
fn first_from(contents: &Columns, sought: Sought, start: usize) -> Option<usize>
    requires { StandsNotBefore (is_sought sought) (held_now contents.now) start }
    ensures { IsFirstPlace (is_sought sought) (held_now contents.now) result }
{
    for place in start..contents.objects.len() {
        if is_sought_at(contents, place, sought) {
            return Some(place);
        }
    }
    None
}

/// The first place at which what is looked for stands.
pub(crate) fn first(contents: &Columns, sought: Sought) -> Option<usize>
    ensures { IsFirstPlace (is_sought sought) (held_now contents.now) result }
{
    first_from(contents, sought, 0)
}

/// What is seen of a message.
#[inline(always)]
pub(crate) fn seen_message(number: u32, m: &KeptMessage) -> SeenMessage
    ensures { (values : ValueRow) → HasValue m.now.brings values
        → result ≡ seen_message (message_held number values m.now) }
{
    SeenMessage {
        number,
        next: m.next,
        brings: m.brings,
    }
}

/// What is seen of a process.
#[inline(always)]
pub(crate) fn seen_process(pid: u32, p: &KeptProcess) -> SeenProcess
    ensures { (cells : List Cell) (values : ValueRow) (its_lists : ListRow)
        → result ≡ seen_process (process_held cells pid values its_lists p.now) }
{
    SeenProcess {
        pid,
        mode: p.mode,
        code: p.code,
        offers: p.offers,
        base: p.base,
        purse: p.purse.dths(),
        payer: p.payer,
    }
}

// What is seen of the message at a place, if one stands there.
fn message_in(contents: &Columns, place: Option<usize>) -> Option<SeenMessage>
    requires { IsHolding (held_now contents.now) }
    ensures { result ≡ option_map seen_message
        (option_and_then message_of (option_and_then (standing_at (held_now contents.now)) place)) }
{
    match kept_at(contents, place?) {
        Some((number, Kept::Message(m))) => Some(seen_message(number, &m)),
        _ => None,
    }
}

// What is seen of the process at a place, if one stands there.
fn process_in(contents: &Columns, place: Option<usize>) -> Option<SeenProcess>
    ensures { result ≡ option_map seen_process
        (option_and_then process_of (option_and_then (standing_at (held_now contents.now)) place)) }
{
    match kept_at(contents, place?) {
        Some((number, Kept::Process(p))) => Some(seen_process(number, &p)),
        _ => None,
    }
}

/// The first message that is read on this name and goes this way.
pub(crate) fn message_on(contents: &Columns, to_client: bool, name: u32) -> Option<SeenMessage>
    requires { IsHolding (held_now contents.now) }
    ensures { result ≡ option_map seen_message (message_on (state_of (held_now contents.now)).objects to_client name) }
{
    message_in(
        contents,
        first(contents, Sought::Message { to_client, name }),
    )
}

/// The first process that offers this name.
pub(crate) fn offering(contents: &Columns, name: u32) -> Option<SeenProcess>
    requires { IsHolding (held_now contents.now) }
    ensures { result ≡ option_map seen_process (offering (state_of (held_now contents.now)).objects name) }
{
    process_in(contents, first(contents, Sought::Provider(name)))
}

// The number of a process.
fn pid_of(process: Option<SeenProcess>) -> Option<u32>
    ensures { result ≡ option_map (λ p. p.pid) process }
{
    let p = process?;
    Some(p.pid)
}

/// The number of the process that stands for a shared name.
pub(crate) fn keeper(contents: &Columns, shared: u32) -> Option<u32>
    requires { IsHolding (held_now contents.now) }
    ensures { result ≡ keeper (state_of (held_now contents.now)).objects shared }
{
    pid_of(process_in(contents, first(contents, Sought::Keeper(shared))))
}

/// The lowest process over a number that has mode T.
pub(crate) fn next_transaction(contents: &Columns, after: u32) -> Option<u32>
    requires { IsHolding (held_now contents.now) }
    ensures { FindsNext (IsTransaction (state_of (held_now contents.now)).objects) after result }
{
    let start = start_over(&contents.objects, after);
    number_in(
        contents,
        first_from(contents, Sought::TransactionOver(after), start),
    )
}

/// The number of the object at a place, if one stands there.
pub(crate) fn number_in(contents: &Columns, place: Option<usize>) -> Option<u32>
    ensures { result ≡ option_map object_number (option_and_then (standing_at (held_now contents.now)) place) }
{
    let (number, _) = kept_at(contents, place?)?;
    Some(number)
}

// The lower one of two numbers that are there.
fn lower_of(one: Option<u32>, other: Option<u32>) -> Option<u32>
    ensures { result ≡ lower_of one other }
{
    match (one, other) {
        (Some(one), Some(other)) => Some(one.min(other)),
        (Some(one), None) => Some(one),
        (None, other) => other,
    }
}

/// The number of the first object that uses this name.
pub(crate) fn user(contents: &Columns, name: u32) -> Option<u32>
    requires { IsHolding (held_now contents.now) }
    ensures { result ≡ owner (state_of (held_now contents.now)) name }
{
    lower_of(
        contents.channels.lowest_user(name),
        number_in(contents, first(contents, Sought::MessageUsing(name))),
    )
}

/// Whether an object mentions this name.
pub(crate) fn is_mentioned(contents: &Columns, name: u32) -> bool
    requires { IsHolding (held_now contents.now) }
    ensures { result ≡ is_mentioned (state_of (held_now contents.now)).objects name }
{
    first(contents, Sought::Mention(name)).is_some()
        || contents.channels.lowest_user(name).is_some()
}
