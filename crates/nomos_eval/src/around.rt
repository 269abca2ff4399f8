//! The variables that stand around a term, and how they are found.
ghost use Rattle.std.specs.Prelude.{◌≡◌, IfOk, option_copied};
ghost use Rattle.nomos_ir.specs.Bindings.{bound_to};
ghost use Rattle.nomos_eval.specs.mirror.Around.{IsLookedUp};
ghost use Rattle.nomos_eval.specs.mirror.Ascending.{Rises};

use crate::ascending::{place_of, rising};
use crate::datum::Datum;
use crate::list_store::Lists;
use crate::values::load;
use nomos_ir::ids::VarId;
use nomos_ir::value::Value;
use std::alloc::AllocError;

/// Variables with their values, and of how many first ones it is known that they ascend.
#[derive(Drop)]
pub(crate) struct Around<'a> {
    pub(crate) env: &'a [(VarId, Value)],
    pub(crate) known: usize,
}

/// The value of a variable, by the first with its number, where so many first ones are known to ascend.
pub(crate) fn bound_value(env: &[(VarId, Value)], known: usize, v: VarId) -> Option<&Value>
    requires { Rises env.now known }
    ensures { option_copied result ≡ bound_to v.0 env.now }
{
    match place_of(env, known, v) {
        Some(place) => Some(&env[place].1),
        None => None,
    }
}

/// The value of a variable, 0 where it has none. A list is one cell more of the store.
pub(crate) fn look_around(
    around: &mut Around<'_>,
    lists: &mut Lists,
    v: VarId,
) -> Result<Datum, AllocError>
    requires { Rises around.old.env.now around.old.known }
    ensures { IfOk result (λ d. IsLookedUp around.old lists.old v around.new lists.new d) }
{
    let env = around.env;
    let Some(place) = place_of(env, around.known, v) else {
        return Ok(Datum::Int(0));
    };
    around.known = rising(env, around.known, place + 1);
    let found = load(lists, env[place].1.node())?;
    Ok(found)
}
