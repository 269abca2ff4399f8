//! Tests: lists that share their cells, long ones and nested ones.
use nomos_ir::value_node::{ValueNode, Values};
use std::alloc::{AllocError, Global};
use std::test::Fail;

// The numbers below n, the highest first.
fn numbers(alloc: Global, n: i64) -> Result<Values, AllocError> {
    let mut made = Values::empty();
    for number in 0..n {
        made = Values::with_first(alloc, ValueNode::Int(number), made)?;
    }
    Ok(made)
}

// So many lists over one rest; the last of them, where the rest and all others are gone.
fn last_over(alloc: Global, rest: Values, count: i64) -> Result<Values, AllocError> {
    let mut last = Values::empty();
    for number in 0..count {
        last = Values::with_first(alloc, ValueNode::Int(number), rest.copy()?)?;
    }
    Ok(last)
}

// A list in a list, so many deep, over the values.
fn nested(alloc: Global, values: Values, depth: u32) -> Result<Values, AllocError> {
    let mut made = values;
    for _ in 0..depth {
        made = Values::with_first(alloc, ValueNode::List(made), Values::empty())?;
    }
    Ok(made)
}

#[test]
fn drops_a_long_list(rt: HostRuntime) -> Result<(), Fail> {
    let made = numbers(rt.alloc(), 300_000)?;
    assert_eq!(rt; made.len(), 300_000);
    assert_eq!(rt; made.weight(), 10_001);
    Ok(())
}

#[test]
fn keeps_what_is_shared(rt: HostRuntime) -> Result<(), Fail> {
    let last = last_over(rt.alloc(), numbers(rt.alloc(), 9_900)?, 20_000)?;
    assert_eq!(rt; last.len(), 9_901);
    assert!(&rt; last.is_same(&last.copy()?));
    assert!(&rt; !last.is_same(&numbers(rt.alloc(), 9_901)?));
    Ok(())
}

#[test]
fn compares_nested_lists(rt: HostRuntime) -> Result<(), Fail> {
    let deep = nested(rt.alloc(), numbers(rt.alloc(), 3)?, 64)?;
    assert!(&rt; deep.is_same(&nested(rt.alloc(), numbers(rt.alloc(), 3)?, 64)?));
    assert!(&rt; !deep.is_same(&nested(rt.alloc(), numbers(rt.alloc(), 4)?, 64)?));
    assert_eq!(rt; deep.weight(), 67);
    Ok(())
}
