//! What digits write.
ghost use Rattle.std.specs.Prelude.{◌≡◌, ◌<◌, ◌≤◌, ◌^◌, SomeIff};
ghost use Rattle.std.specs.Str.Parse.{IsNumeral, digits_value};
ghost use Rattle.nomos_script.specs.Form.{units_of, max_units};
ghost use Rattle.nomos_script.specs.ValueTree.{signed, largest};

/// The most units of one deposit.
const MAX_UNITS: u64 = 1_000_000_000_000_000_000;

// The number that digits write, where 64 bits hold it.
fn number_of_digits(digits: &[u8]) -> Option<u64>
    requires { IsNumeral 10 digits.now }
    ensures { SomeIff result (digits_value 10 digits.now < 2 ^ 64) (digits_value 10 digits.now) }
{
    let mut number: u64 = 0;
    let mut left = digits;
    while let [digit, after @ ..] = left {
        number = number
            .checked_mul(10)?
            .checked_add(u64::from(*digit - b'0'))?;
        left = after;
    }
    Some(number)
}

/// The units that a numeral writes, unless they are too many for one deposit.
pub(crate) fn units_of(digits: &[u8]) -> Option<u64>
    requires { IsNumeral 10 digits.now }
    ensures { SomeIff result (units_of digits.now ≤ max_units) (units_of digits.now) }
{
    match number_of_digits(digits) {
        Some(units) if units <= MAX_UNITS => Some(units),
        _ => None,
    }
}

// The number with this size, with `-` before it or without it, where 64 bits hold it.
fn with_sign(minus: bool, size: u64) -> Option<i64>
    ensures { SomeIff result (size ≤ largest minus) (signed minus size) }
{
    if minus {
        0i64.checked_sub_unsigned(size)
    } else {
        i64::try_from(size).ok()
    }
}

/// The number that digits write, with `-` before them or without it, where 64 bits hold it.
pub(crate) fn signed_number(minus: bool, digits: &[u8]) -> Option<i64>
    requires { IsNumeral 10 digits.now }
    ensures { SomeIff result (digits_value 10 digits.now ≤ largest minus) (signed minus (digits_value 10 digits.now)) }
{
    with_sign(minus, number_of_digits(digits)?)
}
