//! Operators on numbers.
ghost use Rattle.std.specs.Prelude.{◌≡◌, ℕ, pos, FitsSigned, SomeIff, ◌+ℤ◌};
ghost use Rattle.nomos_eval.specs.mirror.Operation.{operation, given, checked};

use nomos_ir::fault::Fault;

/// An operator that takes two numbers.
#[derive(Clone, Copy, PartialEq, Eq, Debug)]
pub(crate) enum NumberOperator {
    Add,
    Sub,
    Mul,
    Div,
    Rem,
    Less,
    Equal,
}

/// What an operator gives of two numbers: a number, a truth value or a fault.
#[derive(Clone, Copy, PartialEq, Eq, Debug)]
pub(crate) enum Yield {
    Int(i64),
    Bool(bool),
    Fault(Fault),
}

/// What the operator gives.
pub(crate) fn operate(operator: NumberOperator, x: i64, y: i64) -> Yield
    ensures { (n : ℕ) → operation operator x y n ≡ given result n }
{
    match operator {
        NumberOperator::Add => whole(x.checked_add(y)),
        NumberOperator::Sub => whole(x.checked_sub(y)),
        NumberOperator::Mul => whole(x.checked_mul(y)),
        NumberOperator::Div => divide(x, y),
        NumberOperator::Rem => remain(x, y),
        NumberOperator::Less => Yield::Bool(x < y),
        NumberOperator::Equal => Yield::Bool(x == y),
    }
}

// A number that was computed, where it has 64 bits.
fn whole(number: Option<i64>) -> Yield
    ensures { result ≡ checked number }
{
    match number {
        Some(z) => Yield::Int(z),
        None => Yield::Fault(Fault::Overflow),
    }
}

// The quotient, rounded towards zero.
fn divide(x: i64, y: i64) -> Yield
    ensures { (n : ℕ) → operation NumberOperator.Div x y n ≡ given result n }
{
    if y == 0 {
        return Yield::Fault(Fault::DivideByZero);
    }
    whole(x.checked_div(y))
}

// What the quotient leaves.
fn remain(x: i64, y: i64) -> Yield
    ensures { (n : ℕ) → operation NumberOperator.Rem x y n ≡ given result n }
{
    if y == 0 {
        return Yield::Fault(Fault::DivideByZero);
    }
    if y == -1 {
        return Yield::Int(0);
    }
    Yield::Int(x % y)
}
