//! Coefficients that rows own together.
ghost use Rattle.std.specs.Prelude.{◌≡◌, ◌≤◌, IfOk, length};
ghost use Rattle.std.specs.Cmp.Lexicographic.{pointwise, slice_cmp};
ghost use Rattle.std.specs.Ordering.{int_cmp, int_eq};
ghost use Rattle.nomos_forms.specs.mirror.Zeros.{IsZeroBefore, IsZeroFrom};

use crate::shared_list::SharedList;
use std::alloc::{AllocError, Global};
use std::cmp::Ordering;
use std::marker::Model;

/// The coefficients of the stars, in order of their numbers: the first is that of star 1. Rows that have the same ones
/// may own them together. Most are 0, so it is kept where others stand, and two lists are compared there alone.
#[derive(Drop, Debug)]
pub struct SharedCoefs {
    coefs: SharedList<i64>,
    first: usize,
    end: usize,
}

impl Model for SharedCoefs {
    ghost use Rattle.std.specs.Prelude.{List, ℤ};
    ghost use Rattle.nomos_forms.specs.mirror.Zeros.{IsZeroOutside};

    ghost Value = { List ℤ };

    ghost view = { λ c. c.coefs };

    ghost invariant = { λ c. IsZeroOutside c.first c.end c.coefs };
}

/// How many numbers in front are 0.
fn zeros_before(numbers: &[i64]) -> usize
    ensures within { result ≤ length numbers.now }
    ensures zeros { IsZeroBefore result numbers.now }
{
    for i in 0..numbers.len() {
        if numbers[i] != 0 {
            return i;
        }
    }
    numbers.len()
}

/// From where on all numbers are 0; where all of them are, the end.
fn zeros_from(numbers: &[i64]) -> usize
    ensures within { result ≤ length numbers.now }
    ensures zeros { IsZeroFrom result numbers.now }
{
    let count = numbers.len();
    for done in 0..count {
        let place = count - 1 - done;
        if numbers[place] != 0 {
            return place + 1;
        }
    }
    count
}

impl SharedCoefs {
    /// The coefficients in a vector's own memory.
    pub fn of_vec(alloc: Global, coefs: Vec<i64>) -> Result<Self, AllocError>
        ensures { IfOk result (λ made. made ≡ coefs.items) }
    {
        let first = zeros_before(&coefs);
        let end = zeros_from(&coefs).max(first);
        let coefs = SharedList::of_vec(alloc, coefs)?;
        Ok(SharedCoefs { coefs, first, end })
    }

    /// The same coefficients, with one owner more.
    pub fn share(&self) -> Result<Self, AllocError>
        ensures { IfOk result (λ made. made ≡ self.now) }
    {
        Ok(SharedCoefs {
            coefs: self.coefs.share()?,
            first: self.first,
            end: self.end,
        })
    }

    /// The coefficients as a slice.
    pub fn as_slice(&self) -> &[i64]
        ensures { result.now ≡ self.now }
    {
        self.coefs.as_slice()
    }

    /// Which of two lists of coefficients comes first, by the first coefficient that differs.
    pub fn order(&self, other: &SharedCoefs) -> Ordering
        ensures { result ≡ slice_cmp int_cmp self.now other.now }
    {
        let coefs = self.coefs.as_slice();
        let others = other.coefs.as_slice();
        if coefs.len() != others.len() {
            return coefs.cmp(others);
        }
        let first = self.first.min(other.first);
        let end = self.end.max(other.end);
        coefs[first..end].cmp(&others[first..end])
    }

    /// Whether two lists of coefficients are the same.
    pub fn is_same(&self, other: &SharedCoefs) -> bool
        ensures { result ≡ pointwise int_eq self.now other.now }
    {
        self.order(other).is_eq()
    }
}
