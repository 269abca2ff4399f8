//! How values and lists pass to another process.
ghost use Rattle.std.specs.Prelude.{◌≡◌, ◌<◌, All, IfOk, length};
ghost use Rattle.std.specs.List.{flat_map};
ghost use Rattle.nomos_ir.specs.Bindings.{IsAscending};
ghost use Rattle.nomos_ir.specs.CodeParts.{arg_terms};
ghost use Rattle.nomos_ir.specs.Ids.{AllBelow};
ghost use Rattle.nomos_check.specs.mirror.Passing.{TellsList, TellsValue, TellsValues};
ghost use Rattle.nomos_check.specs.mirror.StandingData.{shape_of, IsReady, KeepsCompared};

use crate::asked::Asked;
use crate::standing::Standing;
use crate::variables::{is_of_kind, is_same_kind};
use nomos_ir::amount::Amount;
use nomos_ir::code_node::ValueArg;
use nomos_ir::declaration::Par;
use nomos_ir::ids::VarId;
use nomos_ir::kind::Kind;
use nomos_ir::program::Program;
use std::alloc::AllocError;

/// Whether the list passes for a list parameter of this kind and amount. It is used up.
fn pass_list(
    asked: &mut Asked<'_>,
    now: &mut Standing,
    w: VarId,
    kind: Kind,
    said: Amount,
) -> Result<bool, AllocError>
    ensures same_modes { asked.new.modes.now ≡ asked.old.modes.now }
    ensures same_compared { asked.new.equalities ≡ asked.old.equalities }
    ensures tells { IfOk result (TellsList now.old now.new w kind said asked.old asked.new) }
{
    let carried = match now.lists.get(w) {
        Some(carried) => carried,
        None => return Ok(false),
    };
    if !is_same_kind(carried.kind, kind) {
        return Ok(false);
    }
    asked.note(carried.amount, said)?;
    now.lists.unbind(w);
    Ok(true)
}

/// Whether the value or the list passes for the parameter.
fn pass_value(
    program: &Program,
    asked: &mut Asked<'_>,
    now: &mut Standing,
    arg: ValueArg,
    par: Par,
) -> Result<bool, AllocError>
    requires term { AllBelow (length program.now.terms) (arg_terms arg) }
    requires ready { IsReady program.now asked.old }
    ensures ready { IsReady program.now asked.new }
    ensures kept { KeepsCompared asked.old asked.new }
    ensures tells { IfOk result (TellsValue program.now now.old now.new arg par asked.old asked.new) }
{
    match (arg, par.amount) {
        (ValueArg::Term(e), None) => is_of_kind(program, asked.alloc, now, e, par.kind),
        (ValueArg::List(w), Some(said)) => pass_list(asked, now, w, par.kind, said),
        _ => Ok(false),
    }
}

/// Whether the values and lists pass for the parameters, one after another.
pub(crate) fn pass_values(
    program: &Program,
    asked: &mut Asked<'_>,
    now: &mut Standing,
    args: &[ValueArg],
    pars: &[Par],
) -> Result<bool, AllocError>
    requires terms { AllBelow (length program.now.terms) (flat_map arg_terms args.now) }
    requires ready { IsReady program.now asked.old }
    requires ascends { IsAscending (shape_of now.old).lists }
    ensures ready { IsReady program.now asked.new }
    ensures kept { KeepsCompared asked.old asked.new }
    ensures tells { IfOk result (TellsValues program.now now.old now.new args.now pars.now asked.old asked.new) }
{
    if args.len() != pars.len() {
        return Ok(false);
    }
    for i in 0..pars.len() {
        if !pass_value(program, asked, now, args[i], pars[i])? {
            return Ok(false);
        }
    }
    Ok(true)
}
