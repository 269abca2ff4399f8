//! The lists of one evaluation. None of them is ever changed, so they share their parts.
ghost use Rattle.std.specs.Prelude.{◌≡◌, ◌<◌, ◌≤◌, ◌++◌, ◌∷◌, [], length, IfOk, slice_index_or};
ghost use Rattle.nomos_ir.specs.Value.{list, no_values, value, value_list};
ghost use Rattle.nomos_eval.specs.mirror.EvalTable.{datum_value, reach, capped};
ghost use Rattle.nomos_eval.specs.mirror.ListCell.{IsPart};

use crate::datum::Datum;
use nomos_ir::limits::MAX_WEIGHT;
use nomos_ir::value::Values;
use std::alloc::{AllocError, Global};
use std::marker::Model;

/// The weight from which on lists are not told apart: one more than the greatest that a term may make.
const HEAVY: u32 = MAX_WEIGHT + 1;

/// The empty list; a first value, the place of the list of the others, and the weight of the whole, up to `HEAVY`; or a
/// list that was given, as it is.
#[derive(Drop, Debug)]
pub(crate) enum StoredList {
    Empty,
    More(Datum, usize, u32),
    Given(Values),
}

/// Lists by their places, which contracts see as the list of these lists.
#[derive(Drop)]
pub(crate) struct Lists {
    cells: Vec<StoredList>,
}

impl Model for Lists {
    ghost use Rattle.std.specs.Prelude.{List};
    ghost use Rattle.std.specs.Coded.{coded_list};
    ghost use Rattle.nomos_ir.specs.Value.{ValueList};
    ghost use Rattle.nomos_eval.specs.mirror.EvalTable.{list_code};

    ghost Value = { List ValueList };

    ghost coded = { coded_list list_code };

    ghost use Rattle.nomos_eval.specs.mirror.ListCell.{lists_of, AreLists};

    ghost view = { λ s. lists_of s.cells.items };

    ghost invariant = { λ s. AreLists s.cells.items };
}

impl Lists {
    /// No lists. It takes no memory.
    pub(crate) fn new(alloc: Global) -> Self
        ensures { result ≡ [] }
    {
        Lists {
            cells: Vec::new(alloc),
        }
    }

    /// Adds the empty list, and gives its place.
    pub(crate) fn add_empty(&mut self) -> Result<usize, AllocError>
        ensures { IfOk result (λ p. (p ≡ length self.old) × (self.new ≡ self.old ++ no_values ∷ [])) }
    {
        let place = self.cells.len();
        self.cells.push(StoredList::Empty)?;
        Ok(place)
    }

    /// Adds the list of a value before those of the list at a place, and gives its place.
    pub(crate) fn add_more(&mut self, head: Datum, tail: usize) -> Result<usize, AllocError>
        requires head { reach head ≤ length self.old }
        requires tail { tail < length self.old }
        ensures { IfOk result (λ p. (p ≡ length self.old)
            × (self.new ≡ self.old ++ value (datum_value self.old head)
            (slice_index_or self.old tail no_values) ∷ [])) }
    {
        let weight = self.weight(head) + self.weight(Datum::List(tail)) + 1;
        let place = self.cells.len();
        self.cells
            .push(StoredList::More(head, tail, weight.min(HEAVY)))?;
        Ok(place)
    }

    /// Adds a list that is given, and gives its place. It is one cell, whatever its length.
    pub(crate) fn add_given(&mut self, items: Values) -> Result<usize, AllocError>
        ensures { IfOk result (λ p. (p ≡ length self.old) × (self.new ≡ self.old ++ value_list items ∷ [])) }
    {
        let place = self.cells.len();
        self.cells.push(StoredList::Given(items))?;
        Ok(place)
    }

    /// The weight of a value, up to `HEAVY`.
    pub(crate) fn weight(&self, of: Datum) -> u32
        requires { reach of ≤ length self.now }
        ensures { result ≡ capped (datum_value self.now of) }
    {
        match of {
            Datum::Int(_) | Datum::Bool(_) => 0,
            Datum::List(place) => self.list_weight(place),
        }
    }

    // The weight of the list at a place, up to `HEAVY`.
    fn list_weight(&self, place: usize) -> u32
        requires { place < length self.now }
        ensures { result ≡ capped (list (slice_index_or self.now place no_values)) }
    {
        match &self.cells[place] {
            StoredList::Empty => 0,
            StoredList::More(_, _, weight) => *weight,
            StoredList::Given(items) => items.weight(),
        }
    }

    /// What stands at a place.
    pub(crate) fn look(&self, place: usize) -> &StoredList
        requires { place < length self.now }
        ensures { IsPart self.now place result.now }
    {
        &self.cells[place]
    }
}
