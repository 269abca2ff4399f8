//! Tests: operators between numbers and variables by themselves, within an `if`, and as the term of a `let`.
use crate::term_programs::program_of;
use nomos_eval::evaluation::{Env, eval};
use nomos_eval::wanted::{Wanted, evaluate};
use nomos_ir::ids::{CodeId, TermId, VarId};
use nomos_ir::items::Items;
use nomos_ir::program::Program;
use nomos_ir::term_node::TermNode;
use nomos_ir::value::Value;
use std::alloc::{AllocError, Global};
use std::fmt::Write;
use std::test::Fail;

// The greatest number, the least one, and -1.
fn env(alloc: Global) -> Result<Env, AllocError> {
    let values = vec![in alloc;
        (VarId(0), Value::int(i64::MAX)),
        (VarId(1), Value::int(i64::MIN)),
        (VarId(2), Value::int(-1)),
    ]?;
    Ok(Items::of_vec(values))
}

// The terms. 6 is a variable without a value, 7 and those behind it are operators, and the last one is an `if` that
// comes to what this one does.
fn terms(alloc: Global, asked: u32) -> Result<Vec<TermNode>, AllocError> {
    let terms = vec![in alloc;
        TermNode::Number(0, 0),
        TermNode::Number(0, 1),
        TermNode::Number(0, 5),
        TermNode::Var(0, VarId(0)),
        TermNode::Var(0, VarId(1)),
        TermNode::Var(0, VarId(2)),
        TermNode::Var(0, VarId(3)),
        TermNode::Add(0, TermId(3), TermId(1)),
        TermNode::Div(0, TermId(4), TermId(5)),
        TermNode::Div(0, TermId(1), TermId(0)),
        TermNode::Rem(0, TermId(2), TermId(5)),
        TermNode::Sub(0, TermId(6), TermId(1)),
        TermNode::Less(0, TermId(5), TermId(6)),
        TermNode::If(0, TermId(12), TermId(asked), TermId(asked)),
    ]?;
    Ok(terms)
}

// What a term comes to by itself, within the `if`, and as the term of a `let`.
fn answer(alloc: Global, program: &Program, asked: u32) -> Result<String, AllocError> {
    let wanted = Wanted {
        code: CodeId(1),
        env: env(alloc)?,
    };
    let alone = eval(alloc, program, TermId(asked), &wanted.env)?;
    let within = eval(alloc, program, TermId(13), &wanted.env)?;
    let kept = evaluate(alloc, program, &wanted)?;
    format!(in alloc; "{alone:?} {within:?} {kept:?}")
}

// The same of a program that is made for the term.
fn answer_of(alloc: Global, asked: u32) -> Result<String, AllocError> {
    match program_of(alloc, terms(alloc, asked)?, asked)? {
        Some(program) => answer(alloc, &program, asked),
        None => format!(in alloc; "no program"),
    }
}

// 2^63 - 1 + 1, -2^63 / -1, 1 / 0, 5 % -1, a variable without a value less 1, -1 < that variable, and it alone.
const ASKED: [u32; 7] = [7, 8, 9, 10, 11, 12, 6];

const ANSWERS: &str = "Fault(Overflow) Fault(Overflow) Fault(Overflow)
Fault(Overflow) Fault(Overflow) Fault(Overflow)
Fault(DivideByZero) Fault(DivideByZero) Fault(DivideByZero)
Value(Value { node: Int(0) }) Value(Value { node: Int(0) }) Values([Int(0)])
Value(Value { node: Int(-1) }) Value(Value { node: Int(-1) }) Values([Int(-1)])
Value(Value { node: Bool(true) }) Value(Value { node: Bool(true) }) Values([Bool(true)])
Value(Value { node: Int(0) }) Value(Value { node: Int(0) }) Values([Int(0)])
";

// What all that is asked comes to, line by line.
fn answers(alloc: Global) -> Result<String, AllocError> {
    let mut written = String::new(alloc);
    for asked in ASKED {
        let found = answer_of(alloc, asked)?;
        writeln!(written, "{}", found.as_str())?;
    }
    Ok(written)
}

#[test]
fn finds_values_and_faults_of_operators(rt: HostRuntime) -> Result<(), Fail> {
    let found = answers(rt.alloc())?;
    assert_eq!(rt; found.as_str(), ANSWERS);
    Ok(())
}
