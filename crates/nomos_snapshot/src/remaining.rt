//! The variables of a process in order of their numbers, which a snapshot's lines stand in.
ghost use Rattle.std.specs.Prelude.{◌≡◌, ◌↔◌, ◌∷◌, [], IsTrue, MatchOption};
ghost use Rattle.nomos_machine.specs.TypedState.{VariablesDiffer};
ghost use Rattle.nomos_snapshot.specs.Text.{variable_lines};
ghost use Rattle.nomos_snapshot.specs.mirror.Remaining.{GoesFirst, IsBelowFirst, IsRemaining, NoListFirst, NoValueFirst, remaining_lines};

use nomos_ir::ids::VarId;
use nomos_ir::value::Value;
use nomos_machine::object::{PotentialList, Process};

/// The variables of a process that are left, each kind in order of its numbers.
#[derive(Drop)]
pub(crate) struct Remaining<'a> {
    values: &'a [(VarId, Value)],
    lists: &'a [(VarId, PotentialList)],
    channels: &'a [(VarId, u32)],
}

/// A variable, with what it has.
#[derive(Drop)]
pub(crate) enum LowestVariable<'a> {
    Value(VarId, &'a Value),
    List(VarId, &'a PotentialList),
    Channel(VarId, u32),
}

// Whether a variable is below the first of these, which stand in order.
fn is_below<X>(v: VarId, others: &[(VarId, X)]) -> bool
    ensures { IsTrue result ↔ IsBelowFirst v others.now }
{
    match others {
        [first, ..] => v.0 < first.0.0,
        [] => true,
    }
}

impl<'a> Remaining<'a> {
    /// All variables of a process.
    pub(crate) fn of(process: &'a Process) -> Remaining<'a>
        requires { VariablesDiffer process.now }
        ensures lines { remaining_lines result ≡ variable_lines process.now }
        ensures left { IsRemaining result }
    {
        Remaining {
            values: process.values.as_slice(),
            lists: process.lists.as_slice(),
            channels: process.channels.as_slice(),
        }
    }

    // The first value and the others, where its variable is the lowest one.
    fn first_value(&self) -> Option<(&'a (VarId, Value), &'a [(VarId, Value)])>
        ensures { MatchOption result (NoValueFirst self.now.values.now self.now.lists.now self.now.channels.now)
            (λ p. (self.now.values.now ≡ p.0.now ∷ p.1.now) × IsBelowFirst p.0.now.0 self.now.lists.now
            × IsBelowFirst p.0.now.0 self.now.channels.now) }
    {
        let (first, others) = self.values.split_first()?;
        if is_below(first.0, self.lists) && is_below(first.0, self.channels) {
            Some((first, others))
        } else {
            None
        }
    }

    // The first list and the others, where its variable is below all channels.
    fn first_list(&self) -> Option<(&'a (VarId, PotentialList), &'a [(VarId, PotentialList)])>
        ensures { MatchOption result (NoListFirst self.now.lists.now self.now.channels.now)
            (λ p. (self.now.lists.now ≡ p.0.now ∷ p.1.now) × IsBelowFirst p.0.now.0 self.now.channels.now) }
    {
        let (first, others) = self.lists.split_first()?;
        if is_below(first.0, self.channels) {
            Some((first, others))
        } else {
            None
        }
    }

    /// The lowest variable, which is taken.
    pub(crate) fn next_lowest(&mut self) -> Option<LowestVariable<'a>>
        requires { IsRemaining self.old }
        ensures { MatchOption result (remaining_lines self.old ≡ []) (λ v. GoesFirst v self.old self.new) }
    {
        if let Some((first, others)) = self.first_value() {
            self.values = others;
            return Some(LowestVariable::Value(first.0, &first.1));
        }
        if let Some((first, others)) = self.first_list() {
            self.lists = others;
            return Some(LowestVariable::List(first.0, &first.1));
        }
        let (first, others) = self.channels.split_first()?;
        self.channels = others;
        Some(LowestVariable::Channel(first.0, first.1))
    }
}
