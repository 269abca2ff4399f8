//! Whether numbers stand exactly once each.
ghost use Rattle.std.specs.Prelude.{◌≡◌, ◌↔◌, ℕ, IsTrue};
ghost use Rattle.std.specs.List.Sorted.{IsStrictlySortedBy};
ghost use Rattle.std.specs.Ordering.{nat_cmp};
ghost use Rattle.nomos_ir.specs.Order.{count_of};

/// Whether each of the first numbers, which ascend, stands exactly once among the others, and no other number does.
pub(crate) fn stand_once(numbers: &[u32], found: Vec<u32>) -> bool
    requires { IsStrictlySortedBy nat_cmp numbers.now }
    ensures { IsTrue result ↔ ((n : ℕ) → count_of n found.items ≡ count_of n numbers.now) }
{
    let mut sorted = found;
    sorted.sort_unstable();
    sorted.as_slice() == numbers
}
