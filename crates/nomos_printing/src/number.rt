//! Numbers as text.

ghost use Rattle.std.specs.Prelude.{◌≡◌, ◌≢◌, ◌++◌, ◌≤◌, ◌<◌, ◌+◌, ◌-◌, ◌*◌, ◌^◌, ◌↔◌, ℕ, IsTrue, Some, SomeIff, decimal, OnOk, IfSome};
ghost use Rattle.nomos_printing.specs.Number.{ReadsNumber, ReadsBits, ReadsGas};
ghost use Rattle.nomos_printing.specs.mirror.Numeral.{IsPlain};

use crate::splitting::split_once;
use itoa::Buffer;
use std::alloc::AllocError;

/// Appends a number in decimal.
pub fn push_number(text: &mut Vec<u8>, n: u64) -> Result<(), AllocError>
    ensures { OnOk result (text.new.items ≡ text.old.items ++ decimal n) }
{
    let mut buffer = Buffer::new();
    text.extend_from_slice(buffer.format(n).as_bytes())?;
    Ok(())
}

// Whether the text begins like a number without leading zeros.
fn is_plain(text: &[u8]) -> bool
    ensures { IsTrue result ↔ IsPlain text.now }
{
    match text {
        [b'0'] => true,
        [first, ..] => b'1' <= *first && *first <= b'9',
        [] => false,
    }
}

// The number that a text writes which begins like one.
fn parse_plain(text: &[u8]) -> Option<u64>
    requires { IsPlain text.now }
    ensures found { IfSome result (λ n. text.now ≡ decimal n) }
    ensures each { (n : ℕ) → n < 2 ^ 64 → text.now ≡ decimal n → result ≡ Some n }
{
    match str::from_utf8(text) {
        Ok(text) => text.parse().ok(),
        Err(_) => None,
    }
}

/// The number that a text writes in decimal, without leading zeros, if it is at most `most`.
pub fn read_number(text: &[u8], most: u64) -> Option<u64>
    ensures { ReadsNumber most text.now result }
{
    if !is_plain(text) {
        return None;
    }
    match parse_plain(text) {
        Some(n) if n <= most => Some(n),
        _ => None,
    }
}

/// The number of 64 bits that a text writes in decimal, without leading zeros.
pub fn read_u64(text: &[u8]) -> Option<u64>
    ensures { ReadsBits 64 text.now result }
{
    read_number(text, u64::MAX)
}

/// The number of 32 bits that a text writes in decimal, without leading zeros.
pub fn read_u32(text: &[u8]) -> Option<u32>
    ensures { ReadsBits 32 text.now result }
{
    match read_number(text, u64::from(u32::MAX)) {
        Some(n) => Some(n as u32),
        None => None,
    }
}

// The number with one more digit, where 128 bits hold it.
fn add_digit(count: u128, digit: u8) -> Option<u128>
    ensures { 48 ≤ digit → digit ≤ 57 → SomeIff result (count * 10 + (digit - 48) < 2 ^ 128)
        (count * 10 + (digit - 48)) }
{
    let digit = digit.checked_sub(b'0')?;
    count.checked_mul(10)?.checked_add(u128::from(digit))
}

// The number of 128 bits that a text may write.
fn parse_count(text: &[u8]) -> Option<u128>
    ensures { (n : ℕ) → n < 2 ^ 128 → text.now ≡ decimal n → result ≡ Some n }
{
    let mut count = 0;
    let mut left = text;
    while let [digit, after @ ..] = left {
        count = add_digit(count, *digit)?;
        left = after;
    }
    Some(count)
}

// Whether a text writes this number.
fn is_decimal(text: &[u8], n: u128) -> bool
    ensures { IsTrue result ↔ (text.now ≡ decimal n) }
{
    let mut buffer = Buffer::new();
    buffer.format(n).as_bytes() == text
}

/// The number of 128 bits that a text writes in decimal, without leading zeros.
pub fn read_count(text: &[u8]) -> Option<u128>
    ensures { ReadsBits 128 text.now result }
{
    match parse_count(text) {
        Some(n) if is_decimal(text, n) => Some(n),
        _ => None,
    }
}

// The parts that a text writes with the unit behind them.
fn read_parts(text: &[u8], unit: u32) -> Option<u128>
    requires { unit ≢ 1 }
    ensures { ReadsGas unit text.now result }
{
    let (count, whole) = split_once(text, b'/')?;
    if is_decimal(whole, u128::from(unit)) {
        read_count(count)
    } else {
        None
    }
}

/// The amount of gas that a text writes, in parts of which a unit has so many.
pub fn read_gas(text: &[u8], unit: u32) -> Option<u128>
    ensures { ReadsGas unit text.now result }
{
    if unit == 1 {
        read_count(text)
    } else {
        read_parts(text, unit)
    }
}
