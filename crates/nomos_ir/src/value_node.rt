//! Lists of values that share their parts.
ghost use Rattle.std.specs.Prelude.{◌≡◌, ◌↔◌, ◌∷◌, [], IfOk, IfSome, IsSome, IsTrue, MatchOption, length, map};
ghost use Rattle.std.specs.Arc.{arc_value};
ghost use Rattle.nomos_ir.specs.ValueNode.{value_of};
ghost use Rattle.nomos_ir.specs.Row.{capped_weight, capped_weight_of};

use crate::limits::MAX_WEIGHT;
use std::alloc::{AllocError, Global};
use std::fmt::{self, Debug, Formatter, Write};
use std::marker::Model;
use std::sync::Arc;

/// The weight from which on lists are not told apart: one more than the greatest that a term may make.
const HEAVY: u32 = MAX_WEIGHT + 1;

/// A number, a truth value, or a list of values of one kind.
#[cycle(node)]
#[derive(Drop, Debug)]
pub enum ValueNode {
    Int(i64),
    Bool(bool),
    List(Values),
}

/// Values in a row, which contracts see as the list of them. Others may hold the same cells.
#[cycle(node)]
pub struct Values {
    first: Link,
}

#[cycle(node)]
#[derive(Drop)]
enum Link {
    Empty,
    More(Arc<Cell>),
}

/// The first value of a list, the others, and the list's weight, up to `HEAVY`.
#[cycle(node)]
#[derive(Drop)]
struct Cell {
    head: ValueNode,
    tail: Values,
    length: u32,
    weight: u32,
}

impl Model for Values {
    ghost use Rattle.std.specs.Prelude.{List};
    ghost use Rattle.std.specs.Coded.{coded_list};
    ghost use Rattle.nomos_ir.specs.Value.{Value as Meaning};
    ghost use Rattle.nomos_ir.specs.ValueCode.{value_code};
    ghost use Rattle.nomos_ir.specs.Row.{row_weight};

    ghost Value = { List Meaning };

    ghost coded = { coded_list value_code };

    ghost use Rattle.nomos_ir.specs.Link.{list_of, IsWeighed};

    ghost view = { λ a. list_of a.first };

    ghost invariant = { λ a. IsWeighed a.first };

    ghost size = { row_weight };

    ghost use Rattle.std.proofs.Common.{arith};

    ghost size_decreases = { λ a h. Prim.grind (arith) };
}

// A loop, so that a long list does not use the machine's stack in step with its length.
impl Drop for Values {
    fn drop(mut self) {
        loop {
            let Values { first } = self;
            match first {
                Link::Empty => return,
                Link::More(cell) => match Arc::into_inner(cell) {
                    None => return,
                    Some(
                        Cell {
                            head: _,
                            tail,
                            length: _,
                            weight: _,
                        },
                    ) => self = tail,
                },
            }
        }
    }
}

// A loop, as for `drop`; it prints the values as a vector of their nodes is printed.
impl Debug for Values {
    #[cycle(shown)]
    fn fmt<W: Write>(&self, f: &mut Formatter<W>) -> fmt::Result {
        let mut list = f.debug_list();
        let mut left = self;
        while let Some((first, rest)) = left.parts() {
            list.entry(first);
            left = rest;
        }
        list.finish()
    }
}

impl Values {
    /// No values. It takes no memory.
    pub fn empty() -> Values
        ensures { result ≡ [] }
    {
        Values { first: Link::Empty }
    }

    /// The values with one more in front.
    pub fn with_first(alloc: Global, head: ValueNode, tail: Values) -> Result<Values, AllocError>
        ensures { IfOk result (λ made. made ≡ value_of head ∷ tail) }
    {
        let Some(length) = tail.len().checked_add(1) else {
            return Err(AllocError);
        };
        let weight = (head.weight() + tail.weight() + 1).min(HEAVY);
        let cell = Arc::new(
            alloc,
            Cell {
                head,
                tail,
                length,
                weight,
            },
        )?;
        Ok(Values {
            first: Link::More(cell),
        })
    }

    /// The number of values.
    pub fn len(&self) -> u32
        ensures { result ≡ length self.now }
    {
        match &self.first {
            Link::Empty => 0,
            Link::More(cell) => cell.length,
        }
    }

    /// The values of a vector's nodes.
    pub fn of_vec(alloc: Global, nodes: Vec<ValueNode>) -> Result<Values, AllocError>
        ensures { IfOk result (λ made. made ≡ map value_of nodes.items) }
    {
        let mut left = nodes;
        let mut made = Values::empty();
        while let Some(node) = left.pop() {
            made = Values::with_first(alloc, node, made)?;
        }
        Ok(made)
    }

    /// Whether they are the other values.
    #[cycle(same)]
    pub fn is_same(&self, other: &Values) -> bool
        ensures { IsTrue result ↔ (self.now ≡ other.now) }
    {
        let mut left = self;
        let mut right = other;
        while let Some((x, xs)) = left.parts() {
            let Some((y, ys)) = right.parts() else {
                return false;
            };
            if !x.is_same(y) {
                return false;
            }
            left = xs;
            right = ys;
        }
        right.len() == 0
    }

    /// The weight of the list of these values, up to `HEAVY`.
    pub fn weight(&self) -> u32
        ensures { result ≡ capped_weight self.now }
    {
        match &self.first {
            Link::Empty => 0,
            Link::More(cell) => cell.weight,
        }
    }

    /// The first value, and the others, where there is one. It takes no memory.
    pub fn parts(&self) -> Option<(&ValueNode, &Values)>
        ensures { MatchOption result (self.now ≡ []) (λ p. self.now ≡ value_of p.0.now ∷ p.1.now) }
    {
        match &self.first {
            Link::Empty => None,
            Link::More(cell) => Some((&cell.head, &cell.tail)),
        }
    }

    /// The first value and the others, taken out of their cell where no other holds it, and else once more.
    pub fn into_parts(self) -> Result<Option<(ValueNode, Values)>, AllocError>
        ensures { IfOk result (λ found. MatchOption found (self ≡ []) (λ p. self ≡ value_of p.0 ∷ p.1)) }
    {
        let Values { first } = self;
        match first {
            Link::Empty => Ok(None),
            Link::More(cell) => cell_parts(cell),
        }
    }

    /// The same values once more. It takes no memory; an error says that they stand in too many places.
    pub fn copy(&self) -> Result<Values, AllocError>
        ensures { IfOk result (λ made. made ≡ self.now) }
    {
        match &self.first {
            Link::Empty => Ok(Values::empty()),
            Link::More(cell) => Ok(Values {
                first: Link::More(Arc::try_clone(cell)?),
            }),
        }
    }
}

impl ValueNode {
    /// The weight of the value, up to `HEAVY`.
    pub fn weight(&self) -> u32
        ensures { result ≡ capped_weight_of (value_of self.now) }
    {
        match self {
            ValueNode::Int(_) | ValueNode::Bool(_) => 0,
            ValueNode::List(items) => items.weight(),
        }
    }

    /// The value's node once more. It takes no memory; an error says that its list stands in too many places.
    pub fn copy(&self) -> Result<ValueNode, AllocError>
        ensures { IfOk result (λ made. value_of made ≡ value_of self.now) }
    {
        match self {
            ValueNode::Int(n) => Ok(ValueNode::Int(*n)),
            ValueNode::Bool(b) => Ok(ValueNode::Bool(*b)),
            ValueNode::List(items) => Ok(ValueNode::List(items.copy()?)),
        }
    }

    /// Whether two nodes are of one value. It uses the machine's stack in step with how deep lists are nested in both.
    #[cycle(same)]
    #[tactic(auto, using(crate::proofs::ValueLemmas::value_list_tells))]
    pub fn is_same(&self, other: &ValueNode) -> bool
        ensures { IsTrue result ↔ (value_of self.now ≡ value_of other.now) }
    {
        match (self, other) {
            (ValueNode::Int(n), ValueNode::Int(m)) => n == m,
            (ValueNode::Bool(b), ValueNode::Bool(c)) => b == c,
            (ValueNode::List(items), ValueNode::List(others)) => items.is_same(others),
            _ => false,
        }
    }
}

// The first value and the others of a cell.
fn cell_parts(cell: Arc<Cell>) -> Result<Option<(ValueNode, Values)>, AllocError>
    ensures { IfOk result (λ found. IfSome found (λ p. (value_of p.0 ≡ value_of (arc_value cell).head)
        × (p.1 ≡ (arc_value cell).tail)) × IsSome found) }
{
    match Arc::try_unwrap(cell) {
        Ok(
            Cell {
                head,
                tail,
                length: _,
                weight: _,
            },
        ) => Ok(Some((head, tail))),
        Err(held) => Ok(Some((held.head.copy()?, held.tail.copy()?))),
    }
}
