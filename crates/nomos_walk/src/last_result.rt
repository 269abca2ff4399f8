//! The last result, which is kept where it is wanted.
ghost use Rattle.std.specs.Prelude.{◌≡◌, None, IfOk, OnOk};
ghost use Rattle.std.specs.Option.{option_map};
ghost use Rattle.nomos_machine.specs.State.{State};
ghost use Rattle.nomos_walk.specs.Wanted.{end_result, last_value};
ghost use Rattle.nomos_walk.specs.Papers.{kept_result, kept_where_wanted};

use nomos_ir::value::Value;
use nomos_legal::journal::End;
use std::alloc::{AllocError, Global};
use std::marker::Model;

/// The last result of a run so far, or nothing where it is not wanted. Contracts see it, where it is wanted.
#[derive(Drop)]
pub struct LastResult {
    alloc: Global,
    kept: Option<Option<Value>>,
}

impl Model for LastResult {
    ghost use Rattle.std.specs.Prelude.{Option};
    ghost use Rattle.nomos_ir.specs.Value.{Value as Meaning};

    ghost Value = { Option (Option Meaning) };

    ghost use Rattle.std.specs.Coded.{codes};
    ghost use Rattle.nomos_ir.specs.ValueCode.{value_code};

    ghost coded = { Prim.hlevel (codes, value_code) };

    ghost view = { λ s. s.kept };
}

// The last value that was emitted.
fn last_value(results: &[(u32, Value)]) -> Option<&Value>
    ensures { option_map (λ v. v.now) result ≡ last_value results.now }
{
    let (_, value) = results.get(results.len().saturating_sub(1))?;
    Some(value)
}

// What an end leaves as last result, behind these results.
fn end_result(
    alloc: Global,
    results: &[(u32, Value)],
    end: &End,
) -> Result<Option<Value>, AllocError>
    ensures { (s : State) → s.results ≡ results.now → IfOk result (λ value. value ≡ end_result s end.now) }
{
    match end {
        End::Committed => match last_value(results) {
            Some(value) => Ok(Some(value.copy()?)),
            None => Ok(None),
        },
        _ => Ok(None),
    }
}

impl LastResult {
    /// No result so far.
    pub(crate) fn new(alloc: Global, wanted: bool) -> LastResult
        ensures { result ≡ kept_where_wanted wanted None }
    {
        LastResult {
            alloc,
            kept: if wanted { Some(None) } else { None },
        }
    }

    /// An entry without a result has come.
    pub(crate) fn clear(&mut self)
        ensures { self.new ≡ option_map (λ _. None) self.old }
    {
        if self.kept.is_some() {
            self.kept = Some(None);
        }
    }

    /// A batch with these results has come to this end.
    pub(crate) fn note(&mut self, results: &[(u32, Value)], end: &End) -> Result<(), AllocError>
        ensures { (s : State) → s.results ≡ results.now
            → OnOk result (self.new ≡ option_map (λ _. end_result s end.now) self.old) }
    {
        if self.kept.is_some() {
            self.kept = Some(end_result(self.alloc, results, end)?);
        }
        Ok(())
    }

    /// The result, if there is one.
    pub fn into_value(self) -> Option<Value>
        ensures { result ≡ kept_result self }
    {
        self.kept?
    }
}
