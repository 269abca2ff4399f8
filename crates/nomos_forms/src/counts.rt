//! How often each star stands in one amount more than in another. That depends on the star in each amount alone, so
//! there are few such lists, and a group of rows for each.
ghost use Rattle.std.specs.Prelude.{◌≡◌, ℕ, ◌+◌, ◌<◌, ◌≤◌, ◌-ℤ◌, ◌++◌, [], IfOk, length, slice_index_or};
ghost use Rattle.nomos_forms.specs.RowGroups.{rows_in};
ghost use Rattle.nomos_forms.specs.mirror.StarCounts as counts;
ghost use Rattle.nomos_forms.specs.mirror.StarCounts.{count_in, counts_with, all_counts};
ghost use Rattle.nomos_forms.specs.mirror.Joining.{coefs_of};

use crate::row_group::RowGroup;
use crate::shared_coefs::SharedCoefs;
use std::alloc::{AllocError, Global};

/// How often a star stands in an amount in which this one stands.
fn count_in(own: u16, star: u16) -> i64
    ensures { result ≡ count_in own star }
{
    if own == star { 1 } else { 0 }
}

/// How often a star stands in one amount more than in another.
fn count_between(more: u16, less: u16, star: u16) -> i64
    ensures { result ≡ count_in more star -ℤ count_in less star }
{
    count_in(more, star) - count_in(less, star)
}

/// How often each star stands in one amount more than in another.
fn counts(alloc: Global, stars: u16, more: u16, less: u16) -> Result<SharedCoefs, AllocError>
    ensures { IfOk result (λ list. list ≡ counts.counts stars more less) }
{
    let mut list = Vec::with_capacity(alloc, usize::from(stars))?;
    for before in 0..stars {
        list.push(count_between(more, less, before + 1))?;
    }
    SharedCoefs::of_vec(alloc, list)
}

/// A group without rows for the differences of two amounts, by the star in each.
fn empty_group(alloc: Global, stars: u16, more: u16, less: u16) -> Result<RowGroup, AllocError>
    ensures coefs { IfOk result (λ group. group.coefs ≡ counts.counts stars more less) }
    ensures none { IfOk result (λ group. group.leasts.items ≡ []) }
{
    Ok(RowGroup {
        coefs: counts(alloc, stars, more, less)?,
        leasts: Vec::new(alloc),
    })
}

/// Adds a group without rows for one star in the first amount and each star in the second, none first.
fn add_counts_with(
    alloc: Global,
    groups: &mut Vec<RowGroup>,
    stars: u16,
    more: u16,
) -> Result<(), AllocError>
    requires stars { stars ≤ 64 }
    requires none { rows_in groups.old.items ≡ [] }
    ensures coefs { IfOk result (λ _. coefs_of groups.new.items ≡ coefs_of groups.old.items ++ counts_with stars more) }
    ensures none { IfOk result (λ _. rows_in groups.new.items ≡ []) }
{
    for less in 0..stars + 1 {
        groups.push(empty_group(alloc, stars, more, less)?)?;
    }
    Ok(())
}

/// A group without rows for the differences of amounts over so many stars, by the star in the first and then by that
/// in the second.
pub(crate) fn count_groups(alloc: Global, stars: u16) -> Result<Vec<RowGroup>, AllocError>
    requires { stars ≤ 64 }
    ensures coefs { IfOk result (λ groups. coefs_of groups.items ≡ all_counts stars) }
    ensures none { IfOk result (λ groups. rows_in groups.items ≡ []) }
{
    let mut groups = Vec::new(alloc);
    for more in 0..stars + 1 {
        add_counts_with(alloc, &mut groups, stars, more)?;
    }
    Ok(groups)
}

/// A star's number, or 0 if it is not one of so many stars.
fn star_among(stars: u16, star: u16) -> u16
    ensures among { result ≤ stars }
    ensures same { (other : ℕ) → 1 ≤ other → other ≤ stars → count_in result other ≡ count_in star other }
{
    if star <= stars { star } else { 0 }
}

/// The place of the group for the differences of two amounts, by the star in each.
pub(crate) fn place_of(stars: u16, more: u16, less: u16) -> usize
    requires { stars ≤ 64 }
    ensures within { result < length (all_counts stars) }
    ensures counts { slice_index_or (all_counts stars) result [] ≡ counts.counts stars more less }
{
    let more = usize::from(star_among(stars, more));
    let less = usize::from(star_among(stars, less));
    more * (usize::from(stars) + 1) + less
}
