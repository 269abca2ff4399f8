//! Values with their weights, and lists that are still read.
ghost use Rattle.std.specs.Prelude.{◌≡◌, ◌∷◌, ◌++◌, [], true, false, nat_le, IfOk, OnOk, IsErrOf};
ghost use Rattle.nomos_ir.specs.Value.{int, truth, list, value_list};
ghost use Rattle.nomos_ir.specs.ValueNode.{value_of};
ghost use Rattle.nomos_ir.specs.Weight.{list_weight, max_weight};

use crate::growing::put;
use crate::stop::LineStop;
use nomos_ir::limits::MAX_WEIGHT;
use nomos_ir::value::Values;
use nomos_ir::value_node::ValueNode;
use std::alloc::{AllocError, Global};
use std::marker::Model;

/// A value, with its weight, which is at most that of the heaviest list.
#[derive(Drop)]
pub(crate) struct WeighedValue {
    node: ValueNode,
    weight: u32,
}

impl Model for WeighedValue {
    ghost use Rattle.std.specs.Prelude.{◌≡◌, ◌≤◌};
    ghost use Rattle.nomos_ir.specs.Value.{Value as Meaning};
    ghost use Rattle.nomos_ir.specs.ValueCode.{value_code};
    ghost use Rattle.nomos_ir.specs.ValueNode.{value_of};
    ghost use Rattle.nomos_ir.specs.Weight.{weight as weight_of, max_weight};

    ghost Value = { Meaning };

    ghost coded = { value_code };

    ghost view = { λ v. value_of v.node };

    ghost invariant = { λ v. (v.weight ≡ weight_of (value_of v.node)) × (v.weight ≤ max_weight) };
}

impl WeighedValue {
    /// The value that is this number.
    pub(crate) fn int(n: i64) -> WeighedValue
        ensures { result ≡ int n }
    {
        WeighedValue {
            node: ValueNode::Int(n),
            weight: 0,
        }
    }

    /// The value that is this truth value.
    pub(crate) fn truth(b: bool) -> WeighedValue
        ensures { result ≡ truth b }
    {
        WeighedValue {
            node: ValueNode::Bool(b),
            weight: 0,
        }
    }

    /// The node of the value.
    pub(crate) fn into_node(self) -> ValueNode
        ensures { value_of result ≡ self }
    {
        let WeighedValue { node, weight: _ } = self;
        node
    }
}

/// A list of which the values so far were read, with its weight.
#[derive(Drop)]
pub(crate) struct OpenList {
    nodes: Vec<ValueNode>,
    weight: u32,
}

impl Model for OpenList {
    ghost use Rattle.std.specs.Prelude.{◌≡◌, ◌≤◌, List, map};
    ghost use Rattle.std.specs.Coded.{coded_list};
    ghost use Rattle.nomos_ir.specs.Value.{Value as Meaning, value_list};
    ghost use Rattle.nomos_ir.specs.ValueCode.{value_code};
    ghost use Rattle.nomos_ir.specs.ValueNode.{value_of};
    ghost use Rattle.nomos_ir.specs.Weight.{list_weight, max_weight};

    ghost Value = { List Meaning };

    ghost coded = { coded_list value_code };

    ghost view = { λ l. map value_of l.nodes.items };

    ghost invariant = { λ l. (l.weight ≡ list_weight (value_list (map value_of l.nodes.items)))
        × (l.weight ≤ max_weight) };
}

impl OpenList {
    /// A list without values.
    pub(crate) fn new(alloc: Global) -> OpenList
        ensures { result ≡ [] }
    {
        OpenList {
            nodes: Vec::new(alloc),
            weight: 0,
        }
    }

    /// Puts a value at the end, unless the list gets too heavy.
    pub(crate) fn put(&mut self, value: WeighedValue) -> Result<(), LineStop>
        ensures put { OnOk result (self.new ≡ self.old ++ value ∷ []) }
        ensures light { OnOk result (nat_le (list_weight (value_list (self.old ++ value ∷ []))) max_weight ≡ true) }
        ensures none { IsErrOf result LineStop.NoForm
            → nat_le (list_weight (value_list (self.old ++ value ∷ []))) max_weight ≡ false }
    {
        let weight = self.weight + value.weight + 1;
        if weight > MAX_WEIGHT {
            return Err(LineStop::NoForm);
        }
        put(&mut self.nodes, 1, value.into_node())?;
        self.weight = weight;
        Ok(())
    }

    /// The whole list as a value.
    pub(crate) fn into_value(self, alloc: Global) -> Result<WeighedValue, AllocError>
        ensures { IfOk result (λ value. value ≡ list (value_list self)) }
    {
        let OpenList { nodes, weight } = self;
        let node = ValueNode::List(Values::of_vec(alloc, nodes)?);
        Ok(WeighedValue { node, weight })
    }
}
