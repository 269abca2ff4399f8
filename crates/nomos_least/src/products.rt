//! Products that do not fit the widest numbers, compared.
ghost use Rattle.std.specs.Prelude.{◌≡◌, ◌<◌, ◌≤◌, ◌*◌, ◌^◌, ◌↔◌, IsTrue, pos, ◌+ℤ◌, ◌*ℤ◌, ◌-ℤ◌, unsigned_abs};

/// What a number is split by.
const PART: i128 = 1 << 32;

/// How often the part goes into a number, and what is left.
fn split(number: i128) -> (i128, i128)
    ensures value { result.0 *ℤ pos 4294967296 +ℤ result.1 ≡ number }
    ensures high { unsigned_abs result.0 * 4294967296 ≤ unsigned_abs number }
    ensures low { unsigned_abs result.1 < 4294967296 }
{
    (number / PART, number % PART)
}

/// `a * x - b * y`.
fn difference(a: u32, x: i128, b: u64, y: i128) -> i128
    requires x { unsigned_abs x ≤ 2 ^ 83 }
    requires b { b < 2 ^ 62 }
    requires y { unsigned_abs y ≤ 2 ^ 48 }
    ensures value { result ≡ pos a *ℤ x -ℤ pos b *ℤ y }
    ensures size { unsigned_abs result ≤ 2 ^ 116 }
{
    i128::from(a) * x - i128::from(b) * y
}

fn is_zero(number: i128) -> bool
    ensures { IsTrue result ↔ (number ≡ pos 0) }
{
    number == 0
}

/// Whether `a * x` is `b * y`. The numbers are split, so that no product is too wide.
pub fn is_same_product(a: u32, x: i128, b: u64, y: i128) -> bool
    requires x { unsigned_abs x ≤ 2 ^ 114 }
    requires b { b < 2 ^ 62 }
    requires y { unsigned_abs y ≤ 2 ^ 79 }
    ensures { IsTrue result ↔ (pos a *ℤ x ≡ pos b *ℤ y) }
{
    let (x_high, x_low) = split(x);
    let (y_high, y_low) = split(y);
    let high = difference(a, x_high, b, y_high);
    let (carry, rest) = split(difference(a, x_low, b, y_low));
    is_zero(rest) && is_zero(high + carry)
}
