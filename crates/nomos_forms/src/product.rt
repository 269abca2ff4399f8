//! Sums of products of small numbers.
ghost use Rattle.std.specs.Prelude.{◌≡◌, ◌+◌, ◌<◌, ◌≤◌, ◌^◌, pos, ◌+ℤ◌, ◌*ℤ◌, unsigned_abs};
ghost use Rattle.nomos_forms.specs.Bounds.{IsSmall};

/// The sum with the product of a number and a count added to it.
pub fn add_product(sum: i128, number: i64, times: u64) -> i128
    requires room { unsigned_abs sum < 2 ^ 126 }
    requires number { IsSmall number }
    requires times { times < 2 ^ 62 }
    ensures value { result ≡ sum +ℤ pos times *ℤ number }
    ensures size { unsigned_abs result ≤ unsigned_abs sum + 2 ^ 107 }
{
    sum + i128::from(times) * i128::from(number)
}
