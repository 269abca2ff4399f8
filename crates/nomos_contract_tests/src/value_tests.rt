//! Tests: the values of terms and their faults, of an instruction, and of small tests.
use crate::term_programs::{negations, program_of};
use nomos_eval::evaluation::{Env, eval};
use nomos_eval::small::small_truth;
use nomos_eval::wanted::{Wanted, evaluate};
use nomos_ir::ids::{CodeId, FnId, TermId, VarId};
use nomos_ir::items::Items;
use nomos_ir::program::Program;
use nomos_ir::term_node::TermNode;
use nomos_ir::value::{Value, Values};
use nomos_ir::value_node::ValueNode;
use std::alloc::{AllocError, Global};
use std::fmt::Write;
use std::test::Fail;

// A node of a term, by the numbers of its parts.
#[derive(Clone, Copy)]
enum Shape {
    Number(u32),
    Var(u32),
    Call(u32),
    Not(u32),
    Add(u32, u32),
    Sub(u32, u32),
    Div(u32, u32),
    Rem(u32, u32),
    Less(u32, u32),
    Cons(u32, u32),
    Head(u32),
    If(u32, u32, u32),
}

// The terms: of numbers, of lists, of functions. 16 is the head of 1 before the list, 17 twice that of the list; 18
// calls the function with n, and 18, 25 and 87, behind these, are bodies.
const SHAPES: [Shape; 28] = [
    Shape::Number(7),
    Shape::Number(0),
    Shape::Number(1),
    Shape::Number(2),
    Shape::Sub(1, 0),
    Shape::Div(4, 3),
    Shape::Rem(4, 3),
    Shape::Div(3, 1),
    Shape::Rem(3, 1),
    Shape::Var(1),
    Shape::Add(9, 2),
    Shape::Var(2),
    Shape::Cons(2, 11),
    Shape::Var(0),
    Shape::Var(4),
    Shape::Head(11),
    Shape::Head(12),
    Shape::Add(15, 15),
    Shape::Call(13),
    Shape::Less(13, 3),
    Shape::Sub(13, 2),
    Shape::Call(20),
    Shape::Sub(13, 3),
    Shape::Call(22),
    Shape::Add(21, 23),
    Shape::If(19, 13, 24),
    Shape::Less(13, 2),
    Shape::Not(21),
];

// The call of the function with a term.
fn call(alloc: Global, t: u32) -> Result<TermNode, AllocError> {
    let values = vec![in alloc; TermId(t)]?;
    Ok(TermNode::Call(0, FnId(0), Items::of_vec(values)))
}

// The node of a shape.
fn made(alloc: Global, shape: Shape) -> Result<TermNode, AllocError> {
    Ok(match shape {
        Shape::Number(n) => TermNode::Number(0, n),
        Shape::Var(v) => TermNode::Var(0, VarId(v)),
        Shape::Call(t) => return call(alloc, t),
        Shape::Not(a) => TermNode::Not(0, TermId(a)),
        Shape::Add(a, b) => TermNode::Add(0, TermId(a), TermId(b)),
        Shape::Sub(a, b) => TermNode::Sub(0, TermId(a), TermId(b)),
        Shape::Div(a, b) => TermNode::Div(0, TermId(a), TermId(b)),
        Shape::Rem(a, b) => TermNode::Rem(0, TermId(a), TermId(b)),
        Shape::Less(a, b) => TermNode::Less(0, TermId(a), TermId(b)),
        Shape::Cons(a, b) => TermNode::Cons(0, TermId(a), TermId(b)),
        Shape::Head(a) => TermNode::Match(0, TermId(a), TermId(1), VarId(4), VarId(5), TermId(14)),
        Shape::If(a, b, c) => TermNode::If(0, TermId(a), TermId(b), TermId(c)),
    })
}

// Puts a node behind the terms.
fn put(alloc: Global, terms: &mut Vec<TermNode>, shape: Shape) -> Result<(), AllocError> {
    let node = made(alloc, shape)?;
    terms.push(node)?;
    Ok(())
}

// All of these terms, 60 times `not`, and the body with these.
fn terms(alloc: Global) -> Result<Vec<TermNode>, AllocError> {
    let mut terms = Vec::new(alloc);
    for shape in SHAPES {
        put(alloc, &mut terms, shape)?;
    }
    for part in 27..86 {
        put(alloc, &mut terms, Shape::Not(part))?;
    }
    put(alloc, &mut terms, Shape::If(26, 26, 86))?;
    Ok(terms)
}

// A list of so many numbers.
fn list_of(alloc: Global, length: u32) -> Result<Value, AllocError> {
    let mut nodes = Vec::new(alloc);
    for _ in 0..length {
        nodes.push(ValueNode::Int(5))?;
    }
    Ok(Value::list(Values::of_vec(alloc, nodes)?))
}

// A number n, the greatest number, a list of so many numbers, and a truth value.
fn env(alloc: Global, n: i64, length: u32) -> Result<Env, AllocError> {
    let list = list_of(alloc, length)?;
    let values = vec![in alloc;
        (VarId(0), Value::int(n)),
        (VarId(1), Value::int(i64::MAX)),
        (VarId(2), list),
        (VarId(3), Value::truth(false)),
    ]?;
    Ok(Items::of_vec(values))
}

// What the term with this number comes to.
fn answer(alloc: Global, program: &Program, t: u32, env: &Env) -> Result<String, AllocError> {
    let found = eval(alloc, program, TermId(t), env)?;
    format!(in alloc; "{found:?}")
}

// What so many negations come to.
fn answer_to(alloc: Global, negated: u32) -> Result<String, AllocError> {
    let env = env(alloc, 0, 0)?;
    match program_of(alloc, negations(alloc, 100000)?, 0)? {
        Some(program) => answer(alloc, &program, negated, &env),
        None => format!(in alloc; "no program"),
    }
}

// What a term comes to, where the function has this body, among n and a list of this length.
fn answer_among(
    alloc: Global,
    body: u32,
    t: u32,
    n: i64,
    length: u32,
) -> Result<String, AllocError> {
    let env = env(alloc, n, length)?;
    match program_of(alloc, terms(alloc)?, body)? {
        Some(program) => answer(alloc, &program, t, &env),
        None => format!(in alloc; "no program"),
    }
}

#[test]
fn enters_a_hundred_thousand_nodes(rt: HostRuntime) -> Result<(), Fail> {
    let found = answer_to(rt.alloc(), 99999)?;
    assert_eq!(rt; found.as_str(), "Value(Value { node: Bool(true) })");
    let found = answer_to(rt.alloc(), 100000)?;
    assert_eq!(rt; found.as_str(), "Fault(TermSteps)");
    Ok(())
}

// What is asked: the body of the function, the term, n, and the length of the list.
const ASKED: [(u32, u32, i64, u32); 15] = [
    (0, 5, 0, 0),
    (0, 6, 0, 0),
    (0, 7, 0, 0),
    (0, 8, 0, 0),
    (0, 10, 0, 0),
    (0, 11, 0, 2),
    (0, 12, 0, 2),
    (0, 16, 0, 9999),
    (0, 16, 0, 10000),
    (0, 17, 0, 10000),
    (18, 18, 0, 0),
    (25, 18, 10, 0),
    (25, 18, 30, 0),
    (87, 18, 999, 0),
    (87, 18, 1000, 0),
];

const ANSWERS: &str = "Value(Value { node: Int(-3) })
Value(Value { node: Int(-1) })
Fault(DivideByZero)
Fault(DivideByZero)
Fault(Overflow)
Value(Value { node: List([Int(5), Int(5)]) })
Value(Value { node: List([Int(1), Int(5), Int(5)]) })
Value(Value { node: Int(1) })
Fault(ListLength)
Value(Value { node: Int(10) })
Fault(Depth)
Value(Value { node: Int(55) })
Fault(TermSteps)
Value(Value { node: Bool(true) })
Fault(Depth)
";

// What all that is asked comes to, line by line.
fn answers(alloc: Global) -> Result<String, AllocError> {
    let mut written = String::new(alloc);
    for (body, t, n, length) in ASKED {
        let found = answer_among(alloc, body, t, n, length)?;
        writeln!(written, "{}", found.as_str())?;
    }
    Ok(written)
}

#[test]
fn finds_values_and_faults(rt: HostRuntime) -> Result<(), Fail> {
    let found = answers(rt.alloc())?;
    assert_eq!(rt; found.as_str(), ANSWERS);
    Ok(())
}

// How small tests and another are decided.
fn decided(alloc: Global, program: &Program, env: &Env) -> Result<String, AllocError> {
    let found = (
        small_truth(program, TermId(19), env.as_slice()),
        small_truth(program, TermId(13), env.as_slice()),
        small_truth(program, TermId(5), env.as_slice()),
    );
    format!(in alloc; "{found:?}")
}

// The same of a program, among n.
fn decided_among(alloc: Global, n: i64) -> Result<String, AllocError> {
    let env = env(alloc, n, 0)?;
    match program_of(alloc, terms(alloc)?, 0)? {
        Some(program) => decided(alloc, &program, &env),
        None => format!(in alloc; "no program"),
    }
}

// What an instruction comes to.
fn outcome(alloc: Global, program: &Program, wanted: &Wanted) -> Result<String, AllocError> {
    let found = evaluate(alloc, program, wanted)?;
    format!(in alloc; "{found:?}")
}

// What the instruction with this number of a program comes to.
fn outcome_at(alloc: Global, code: u32) -> Result<String, AllocError> {
    let env = env(alloc, 0, 0)?;
    let wanted = Wanted {
        code: CodeId(code),
        env,
    };
    match program_of(alloc, terms(alloc)?, 0)? {
        Some(program) => outcome(alloc, &program, &wanted),
        None => format!(in alloc; "no program"),
    }
}

#[test]
fn decides_small_tests(rt: HostRuntime) -> Result<(), Fail> {
    let found = decided_among(rt.alloc(), 1)?;
    assert_eq!(rt; found.as_str(), "(Some(true), Some(false), None)");
    let found = decided_among(rt.alloc(), 2)?;
    assert_eq!(rt; found.as_str(), "(Some(false), Some(false), None)");
    Ok(())
}

#[test]
fn finds_the_values_of_an_instruction(rt: HostRuntime) -> Result<(), Fail> {
    let found = outcome_at(rt.alloc(), 1)?;
    assert_eq!(rt; found.as_str(), "Values([Int(7)])");
    let found = outcome_at(rt.alloc(), 2)?;
    assert_eq!(rt; found.as_str(), "Values([])");
    Ok(())
}
