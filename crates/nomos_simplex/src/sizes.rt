//! How large the numbers of a line are.
ghost use Rattle.std.specs.Prelude.{◌≡◌, ◌↔◌, IsTrue};
ghost use Rattle.std.specs.List.{list_any};
ghost use Rattle.nomos_simplex.specs.Exchange.{is_large as is_large_number, is_large_line};
ghost use Rattle.nomos_simplex.specs.Sizes.{IsNumber, HasNumbers};

use crate::table::TableLine;

/// The absolute value from which on a number is too large.
pub const LARGE: u128 = 1 << 62;

/// Whether a number is too large.
pub fn is_large(number: i128) -> bool
    ensures { result ≡ is_large_number number }
{
    number.unsigned_abs() >= LARGE
}

/// Whether a number is not too large.
pub fn is_small(number: i128) -> bool
    ensures { IsTrue result ↔ IsNumber number }
{
    number.unsigned_abs() < LARGE
}

fn has_large(numbers: &[i128]) -> bool
    ensures { result ≡ list_any is_large_number numbers.now }
{
    for number in numbers {
        if is_large(*number) {
            return true;
        }
    }
    false
}

/// Whether a number of the line is too large.
pub fn has_large_number(line: &TableLine) -> bool
    ensures { result ≡ is_large_line line.now }
{
    is_large(line.times) || has_large(line.coefs.as_slice())
}

/// Whether a number of a line is too large, where it may be known that none is.
pub fn is_too_large(small: bool, line: &TableLine) -> bool
    requires { IsTrue small → HasNumbers line.now }
    ensures { result ≡ is_large_line line.now }
{
    !small && has_large_number(line)
}
