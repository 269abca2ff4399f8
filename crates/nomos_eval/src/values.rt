//! Values on their way into an evaluation and out of it.
ghost use Rattle.std.specs.Prelude.{◌≡◌, ◌<◌, ◌≤◌, ◌++◌, length, map, IfOk};
ghost use Rattle.nomos_ir.specs.Value.{list, value_list};
ghost use Rattle.nomos_ir.specs.ValueNode.{value_of};
ghost use Rattle.nomos_eval.specs.mirror.Load.{IsLoaded};
ghost use Rattle.nomos_eval.specs.mirror.EvalTable.{datum_value, reach};
ghost use Rattle.nomos_eval.specs.mirror.Parted.{IsParted};

use crate::datum::Datum;
use crate::list_store::{Lists, StoredList};
use nomos_ir::value::Values;
use nomos_ir::value_node::ValueNode;
use std::alloc::{AllocError, Global};

/// Takes a value in. A list is one cell of the store, whatever its length.
pub(crate) fn load(lists: &mut Lists, node: &ValueNode) -> Result<Datum, AllocError>
    ensures { IfOk result (λ d. IsLoaded lists.old lists.new (value_of node.now) d) }
{
    match node {
        ValueNode::Int(z) => Ok(Datum::Int(*z)),
        ValueNode::Bool(b) => Ok(Datum::Bool(*b)),
        ValueNode::List(items) => {
            let place = lists.add_given(items.copy()?)?;
            Ok(Datum::List(place))
        }
    }
}

/// The first value of the list at a place, and the place of the list of the others, where it is not empty. The parts of
/// a list that was given are taken in.
pub(crate) fn parts(lists: &mut Lists, place: usize) -> Result<Option<(Datum, usize)>, AllocError>
    requires { place < length lists.old }
    ensures { IfOk result (λ found. IsParted lists.old place lists.new found) }
{
    let (head, rest) = match lists.look(place) {
        StoredList::Empty => return Ok(None),
        StoredList::More(head, tail, _) => return Ok(Some((*head, *tail))),
        StoredList::Given(items) => match items.parts() {
            None => return Ok(None),
            Some((head, rest)) => (head.copy()?, rest.copy()?),
        },
    };
    let datum = load(lists, &head)?;
    let tail = lists.add_given(rest)?;
    Ok(Some((datum, tail)))
}

/// Gives a value out. It uses the evaluator's stack in step with how deep the lists are nested that the evaluation
/// made; a list that was given is one step.
pub(crate) fn unload(alloc: Global, lists: &Lists, of: Datum) -> Result<ValueNode, AllocError>
    requires { reach of ≤ length lists.now }
    ensures { IfOk result (λ node. value_of node ≡ datum_value lists.now of) }
{
    match of {
        Datum::Int(z) => Ok(ValueNode::Int(z)),
        Datum::Bool(b) => Ok(ValueNode::Bool(b)),
        Datum::List(place) => {
            let mut heads = Vec::new(alloc);
            let mut at = place;
            loop {
                match lists.look(at) {
                    StoredList::Empty => {
                        let node = list_node(alloc, heads, Values::empty())?;
                        return Ok(node);
                    }
                    StoredList::Given(rest) => {
                        let node = list_node(alloc, heads, rest.copy()?)?;
                        return Ok(node);
                    }
                    StoredList::More(head, tail, _) => {
                        heads.push(unload(alloc, lists, *head)?)?;
                        at = *tail;
                    }
                }
            }
        }
    }
}

// The list of values before others, as a node.
fn list_node(alloc: Global, heads: Vec<ValueNode>, rest: Values) -> Result<ValueNode, AllocError>
    ensures { IfOk result (λ node. value_of node ≡ list (value_list (map value_of heads.items ++ rest))) }
{
    let items = values_before(alloc, heads, rest)?;
    Ok(ValueNode::List(items))
}

// Values before others.
fn values_before(alloc: Global, heads: Vec<ValueNode>, rest: Values) -> Result<Values, AllocError>
    ensures { IfOk result (λ made. made ≡ map value_of heads.items ++ rest) }
{
    let mut left = heads;
    let mut made = rest;
    while let Some(node) = left.pop() {
        made = Values::with_first(alloc, node, made)?;
    }
    Ok(made)
}
