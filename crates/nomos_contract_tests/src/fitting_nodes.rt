//! Whether type nodes that were made by hand are such as a program may have.
ghost use Rattle.std.specs.Prelude.{◌≡◌, ◌≢◌, ◌<◌, ℕ, ◌++◌, IsTrue, IfOk, All, length, map, get_or};
ghost use Rattle.std.specs.List.{flat_map};
ghost use Rattle.nomos_ir.specs.Ids.{AllBelow};
ghost use Rattle.nomos_ir.specs.Kinds.{IsShallow};
ghost use Rattle.nomos_ir.specs.Amounts.{IsAmount};
ghost use Rattle.nomos_ir.specs.Naming.{AllDiffer};
ghost use Rattle.nomos_ir.specs.Order.{count_of};
ghost use Rattle.nomos_ir.specs.TypeParts.{type_parts, type_names, type_labels, type_kinds, type_amounts};
ghost use Rattle.nomos_contract_tests.specs.Fitting.{NodeFits, NodesFit, StandOnce};

use nomos_ir::amount::Amount;
use nomos_ir::lists::ProgramLists;
use nomos_ir::type_node::{Def, TypeAt, TypeNode};
use std::alloc::{AllocError, Global};

/// The parts of a node, in order of text.
fn parts(alloc: Global, node: &TypeNode) -> Result<Vec<u32>, AllocError>
    ensures { IfOk result (λ parts. parts.items ≡ type_parts node.now) }
{
    match node {
        TypeNode::One | TypeNode::Named(_) => Ok(Vec::new(alloc)),
        TypeNode::Plus(branches) | TypeNode::With(branches) => {
            branches.as_slice().iter().map(|b| b.goes.0).collect(alloc)
        }
        TypeNode::Tensor(carried, next) | TypeNode::Lolli(carried, next) => {
            Ok(vec![in alloc; carried.0, next.0]?)
        }
        TypeNode::ValueOut(_, next) | TypeNode::ValueIn(_, next) => Ok(vec![in alloc; next.0]?),
        TypeNode::PotOut(_, next) | TypeNode::PotIn(_, next) => Ok(vec![in alloc; next.0]?),
        TypeNode::Up(next) | TypeNode::Down(next) => Ok(vec![in alloc; next.0]?),
    }
}

/// The labels of a node, in order of text.
fn labels(alloc: Global, node: &TypeNode) -> Result<Vec<u32>, AllocError>
    ensures { IfOk result (λ labels. labels.items ≡ type_labels node.now) }
{
    match node {
        TypeNode::Plus(branches) | TypeNode::With(branches) => {
            branches.as_slice().iter().map(|b| b.label.0).collect(alloc)
        }
        _ => Ok(Vec::new(alloc)),
    }
}

/// Whether all numbers are below a limit.
fn are_below(numbers: &[u32], limit: usize) -> bool
    ensures { IsTrue result → AllBelow limit numbers.now }
{
    numbers.iter().all(|n| (*n as usize) < limit)
}

/// How often a number occurs.
fn count_of(number: u32, numbers: &[u32]) -> usize
    ensures { result ≡ count_of number numbers.now }
{
    let mut count = 0;
    for n in numbers {
        if *n == number {
            count += 1;
        }
    }
    count
}

/// Whether the number at a place stands at no earlier one.
fn is_new(numbers: &[u32], place: usize) -> bool
    requires { place < length numbers.now }
    ensures { IsTrue result → ((k : ℕ) → k < place → get_or numbers.now k 0 ≢ get_or numbers.now place 0) }
{
    for k in 0..place {
        if numbers[k] == numbers[place] {
            return false;
        }
    }
    true
}

/// Whether no number occurs twice.
fn differ(numbers: &[u32]) -> bool
    ensures { IsTrue result → AllDiffer numbers.now }
{
    for place in 0..numbers.len() {
        if !is_new(numbers, place) {
            return false;
        }
    }
    true
}

/// Whether the definition that a node names is there.
fn is_defined(node: &TypeNode, defs: usize) -> bool
    ensures { IsTrue result → AllBelow defs (type_names node.now) }
{
    match node {
        TypeNode::Named(id) => (id.0 as usize) < defs,
        _ => true,
    }
}

/// Whether the kind of a node has at most 64 lists.
fn is_shallow(node: &TypeNode) -> bool
    ensures { IsTrue result → All IsShallow (type_kinds node.now) }
{
    match node {
        TypeNode::ValueOut(kind, _) | TypeNode::ValueIn(kind, _) => kind.lists <= 64,
        _ => true,
    }
}

/// Whether an amount is one of a program.
fn is_amount(amount: Amount) -> bool
    ensures { IsTrue result → IsAmount amount }
{
    match amount {
        Amount::Written(units) => units <= 1_000_000_000,
        Amount::Star(star) => 1 <= star && star <= 64,
    }
}

/// Whether the amount of a node is one of a program.
fn has_amount(node: &TypeNode) -> bool
    ensures { IsTrue result → All IsAmount (type_amounts node.now) }
{
    match node {
        TypeNode::PotOut(amount, _) | TypeNode::PotIn(amount, _) => is_amount(*amount),
        _ => true,
    }
}

/// Whether what a node has in it is there, and of a size that a program may have.
fn node_fits(
    alloc: Global,
    lists: &ProgramLists,
    place: usize,
    node: &TypeNode,
) -> Result<bool, AllocError>
    ensures { IfOk result (λ fits. IsTrue fits → NodeFits lists.now place node.now) }
{
    let parts = parts(alloc, node)?;
    let labels = labels(alloc, node)?;
    Ok(
        are_below(&parts, place)
            && is_defined(node, lists.defs.len())
            && are_below(&labels, lists.labels.len())
            && differ(&labels)
            && is_shallow(node)
            && has_amount(node),
    )
}

/// The same of all nodes.
pub(crate) fn nodes_fit(alloc: Global, lists: &ProgramLists) -> Result<bool, AllocError>
    ensures { IfOk result (λ fits. IsTrue fits → NodesFit lists.now) }
{
    let types = lists.types.as_slice();
    for place in 0..types.len() {
        if !node_fits(alloc, lists, place, &types[place].node)? {
            return Ok(false);
        }
    }
    Ok(true)
}

/// Where type nodes stand: in definitions and in other nodes.
pub(crate) fn places(alloc: Global, defs: &[Def], types: &[TypeAt]) -> Result<Vec<u32>, AllocError>
    ensures { IfOk result (λ places. places.items ≡
        map (λ d. d.body.0) defs.now ++ flat_map (λ t. type_parts t.node) types.now) }
{
    let mut places: Vec<u32> = defs.iter().map(|d| d.body.0).collect(alloc)?;
    for place in types {
        let mut more = parts(alloc, &place.node)?;
        places.append(&mut more)?;
    }
    Ok(places)
}

/// Whether each number below a limit occurs once.
pub(crate) fn stand_once(places: &[u32], limit: u32) -> bool
    ensures { IsTrue result → StandOnce places.now limit }
{
    for t in 0..limit {
        if count_of(t, places) != 1 {
            return false;
        }
    }
    true
}
