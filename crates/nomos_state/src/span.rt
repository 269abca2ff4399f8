//! Among which variables the channels of a process may stand.
ghost use Rattle.std.specs.Prelude.{◌≡◌, ◌≤◌, ◌<◌, ◌==◌, ℕ, IsSome, None, cond, Some};
ghost use Rattle.std.specs.Option.{option_map};
ghost use Rattle.nomos_ir.specs.Bindings.{bound_to};
ghost use Rattle.nomos_machine.specs.State.{process_at};
ghost use Rattle.nomos_machine.specs.declared.object.Process.{Process};
ghost use Rattle.nomos_slots.specs.Cells.{name_in};
ghost use Rattle.nomos_slots.specs.Sweeps.{instead_of};
ghost use Rattle.nomos_state.specs.Spanning.{HasVariable, row_bit, rows_of};

use crate::bits::{has_bit, with_bit};
use crate::inside::Inside;
use crate::long::WORDS;
use crate::looking::process_at;
use nomos_ir::ids::VarId;
use nomos_slots::channels::Channels;

/// How many variables that follow one another are in one row.
const ROW: u32 = 128;

/// How many bits tell rows.
const BITS: u32 = 64;

/// Among which variables the channels of a process may stand: from the lowest to the highest, both among them, and in
/// which rows.
#[derive(Clone, Copy, Debug)]
pub struct Span {
    pub low: u32,
    pub high: u32,
    /// The bits of the rows in which they may stand: the higher 32, and the lower ones.
    pub high_rows: u32,
    pub low_rows: u32,
}

// The bits of the rows of a span.
fn rows(span: Span) -> u64
    ensures { result ≡ rows_of span }
{
    u64::from(span.high_rows) * WORDS + u64::from(span.low_rows)
}

// A span with these bits of rows.
fn spanning(low: u32, high: u32, rows: u64) -> Span
    ensures low { result.low ≡ low }
    ensures high { result.high ≡ high }
    ensures rows { rows_of result ≡ rows }
{
    Span {
        low,
        high,
        high_rows: (rows / WORDS) as u32,
        low_rows: (rows % WORDS) as u32,
    }
}

// The bit of the row of a variable.
fn row_bit(variable: u32) -> usize
    ensures bit { result ≡ row_bit variable }
    ensures within { result < 64 }
{
    (variable / ROW % BITS) as usize
}

// Where the row of a variable ends, or where this limit comes first.
fn row_end(variable: u32, limit: u32) -> u32
    ensures after { variable < limit → variable < result }
    ensures within { result ≤ limit }
    ensures own { (v : ℕ) → variable ≤ v → v < result → row_bit v ≡ row_bit variable }
{
    let last = variable / ROW * ROW + (ROW - 1);
    if last < limit { last + 1 } else { limit }
}

/// The span with one variable more.
#[inline(always)]
pub(crate) fn widened(span: Option<Span>, variable: u32) -> Span
    ensures more { (v : ℕ) → HasVariable span v → HasVariable (Some result) v }
    ensures own { HasVariable (Some result) variable }
{
    let bit = row_bit(variable);
    match span {
        Some(span) => spanning(
            span.low.min(variable),
            span.high.max(variable),
            with_bit(rows(span), bit, true),
        ),
        None => spanning(variable, variable, with_bit(0, bit, true)),
    }
}

/// The next variable, from this one on, that has a name of the process, of those that are in the span; the highest one,
/// where none before it has.
pub(crate) fn next_in(span: Span, channels: &Channels, process: u32, from: u32) -> u32
    ensures over { from ≤ result }
    ensures within { from ≤ span.high → result ≤ span.high }
    ensures none { (v : ℕ) → from ≤ v → v < result → HasVariable (Some span) v
        → name_in channels.now.now process v ≡ None }
{
    let mut variable = from;
    while variable < span.high {
        let end = row_end(variable, span.high);
        if has_bit(rows(span), row_bit(variable)) {
            let next = channels.next_named(process, variable, end);
            if next < end {
                return next;
            }
        }
        variable = end;
    }
    variable
}

/// The span of the variables of pairs.
pub(crate) fn span_of(pairs: &[(VarId, u32)]) -> Option<Span>
    ensures { (v : ℕ) → IsSome (bound_to v pairs.now) → HasVariable result v }
{
    let mut span = None;
    for pair in pairs {
        span = Some(widened(span, pair.0.0));
    }
    span
}

/// No variable of a process, whose names stand in this span, has a name any longer. It takes no memory.
pub(crate) fn drop_span(channels: &mut Channels, process: u32, span: Option<Span>)
    requires { (v : ℕ) → IsSome (name_in channels.old.now process v) → HasVariable span v }
    ensures names { (p v : ℕ) → name_in channels.new.now p v
        ≡ cond (process == p) None (name_in channels.old.now p v) }
    ensures marked { channels.new.marked ≡ channels.old.marked }
    ensures room { channels.old.room ≤ channels.new.room }
{
    let Some(within) = span else {
        return;
    };
    let mut variable = within.low;
    while variable < within.high {
        channels.unbind(process, variable);
        variable = next_in(within, channels, process, variable + 1);
    }
    channels.unbind(process, variable);
}

/// Variables of a process, whose names stand in this span, that have the one name have the other one instead. It takes
/// no memory.
pub(crate) fn rename_span(
    channels: &mut Channels,
    process: u32,
    span: Option<Span>,
    old: u32,
    new: u32,
)
    requires { (v : ℕ) → IsSome (name_in channels.old.now process v) → HasVariable span v }
    ensures names { (p v : ℕ) → name_in channels.new.now p v
        ≡ cond (process == p) (option_map (instead_of old new) (name_in channels.old.now p v))
        (name_in channels.old.now p v) }
    ensures marked { channels.new.marked ≡ channels.old.marked }
    ensures room { channels.old.room ≤ channels.new.room }
{
    let Some(within) = span else {
        return;
    };
    let mut variable = within.low;
    while variable < within.high {
        channels.rename_one(process, variable, old, new);
        variable = next_in(within, channels, process, variable + 1);
    }
    channels.rename_one(process, variable, old, new);
}

impl Inside {
    /// Among which variables the channels of a process may stand; nothing where it has none, or where no process has
    /// the number.
    pub fn span(&self, pid: u32) -> Option<Span>
        ensures spans { (p : Process) → process_at self.now.state pid ≡ Some p
            → (v : ℕ) → IsSome (bound_to v p.channels) → HasVariable result v }
        ensures none { process_at self.now.state pid ≡ None → result ≡ None }
    {
        let (_, p) = process_at(&self.contents, pid)?;
        p.span
    }

    /// The next variable of a process, from this one on, that has a channel, of those that are in this span; the
    /// highest one, where none before it has.
    pub fn next_variable(&self, pid: u32, span: Span, from: u32) -> u32
        ensures over { from ≤ result }
        ensures within { from ≤ span.high → result ≤ span.high }
        ensures none { (p : Process) → process_at self.now.state pid ≡ Some p → (v : ℕ) → from ≤ v → v < result
            → HasVariable (Some span) v → bound_to v p.channels ≡ None }
    {
        next_in(span, &self.contents.channels, pid, from)
    }
}
