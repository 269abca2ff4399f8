//! Greatest common divisors, and lowest terms.
ghost use Rattle.std.specs.Prelude.{◌≡◌, ◌<◌, ◌%◌, pos, ◌<ℤ◌, int_div, map};
ghost use Rattle.nomos_simplex.specs.Divisors.{gcd, common, divided_by, in_lowest_terms};

use crate::sizes::is_small;
use crate::table::TableLine;
use nomos_ir::items::Items;

/// The greatest number of 64 bits: where numbers are no greater, the processor divides them itself.
const NARROW: u128 = u64::MAX as u128;

/// The greatest common divisor of two numbers of 64 bits.
fn narrow_divisor(a: u64, b: u64) -> u64
    ensures { result ≡ gcd a b }
{
    let mut greater = a;
    let mut less = b;
    while less != 0 {
        let rest = greater % less;
        greater = less;
        less = rest;
    }
    greater
}

/// What is left of a number by one of 64 bits.
fn remainder(number: u128, by: u64) -> u64
    requires { 0 < by }
    ensures { result ≡ number % by }
{
    if number <= NARROW {
        number as u64 % by
    } else {
        (number % u128::from(by)) as u64
    }
}

/// The greatest common divisor of a number and one of 64 bits.
fn mixed_divisor(a: u128, b: u64) -> u128
    ensures { result ≡ gcd a b }
{
    if b == 0 {
        return a;
    }
    u128::from(narrow_divisor(b, remainder(a, b)))
}

/// The greatest common divisor of two numbers.
pub fn greatest_divisor(a: u128, b: u128) -> u128
    ensures { result ≡ gcd a b }
{
    let mut greater = a;
    let mut less = b;
    while less > NARROW {
        let rest = greater % less;
        greater = less;
        less = rest;
    }
    mixed_divisor(greater, less as u64)
}

/// The greatest common divisor of a number and of others.
fn common_divisor(first: u128, others: &[i128]) -> u128
    ensures { result ≡ common first others.now }
{
    let mut divisor = first;
    for other in others {
        if divisor == 1 {
            return 1;
        }
        divisor = greatest_divisor(divisor, other.unsigned_abs());
    }
    divisor
}

/// The line divided by the greatest common divisor of its numbers.
pub fn lowest_terms(line: TableLine) -> TableLine
    requires { pos 0 <ℤ line.times }
    ensures { result ≡ in_lowest_terms line }
{
    let divisor = common_divisor(line.times.unsigned_abs(), line.coefs.as_slice());
    if divisor == 1 {
        return line;
    }
    divided(line, divisor as i128)
}

/// A quotient, rounded toward 0.
fn quotient(number: i128, by: i128) -> i128
    requires { pos 0 <ℤ by }
    ensures { result ≡ int_div number by }
{
    if is_small(number) && is_small(by) {
        return i128::from(number as i64 / by as i64);
    }
    number / by
}

/// The line divided by a number.
fn divided(line: TableLine, by: i128) -> TableLine
    requires { pos 0 <ℤ by }
    ensures { result ≡ divided_by by line }
{
    let TableLine {
        times,
        basic,
        coefs,
    } = line;
    let mut coefs = coefs.into_vec();
    divide_all(&mut coefs, by);
    TableLine {
        times: quotient(times, by),
        basic,
        coefs: Items::of_vec(coefs),
    }
}

/// Divides numbers by a number.
fn divide_all(numbers: &mut [i128], by: i128)
    requires { pos 0 <ℤ by }
    ensures { numbers.new ≡ map (λ z. int_div z by) numbers.old }
{
    for i in 0..numbers.len() {
        numbers[i] = quotient(numbers[i], by);
    }
}
