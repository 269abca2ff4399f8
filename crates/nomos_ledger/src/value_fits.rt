//! Whether values have the kinds of parameters.
ghost use Rattle.std.specs.Prelude.{◌↔◌, IsTrue};
ghost use Rattle.nomos_ir.specs.ValueNode.{value_of};
ghost use Rattle.nomos_legal.specs.LineStarts.{OneEach, ValueFits};

use nomos_deeds::value_kinds::has_kind;
use nomos_ir::declaration::Par;
use nomos_ir::value::Values;
use nomos_ir::value_node::ValueNode;

/// Whether the value of a node fits a parameter.
fn value_fits(node: &ValueNode, par: &Par) -> bool
    ensures { IsTrue result ↔ ValueFits (value_of node.now) par.now }
{
    par.amount.is_none() && has_kind(node, par.kind)
}

/// Whether values fit parameters, one by one.
pub(crate) fn values_fit(values: &Values, pars: &[Par]) -> bool
    ensures { IsTrue result ↔ OneEach ValueFits values.now pars.now }
{
    let mut left = values;
    for par in pars {
        let Some((first, rest)) = left.parts() else {
            return false;
        };
        if !value_fits(first, par) {
            return false;
        }
        left = rest;
    }
    left.len() == 0
}
