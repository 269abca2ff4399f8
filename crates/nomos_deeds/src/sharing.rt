//! Acquiring a contract and releasing it.
ghost use Rattle.std.specs.Prelude.{◌≡◌, ℕ, map, Some, slice_get, option_and_then, option_copied};
ghost use Rattle.std.specs.Option.{is_some};
ghost use Rattle.std.specs.List.Sorted.{IsStrictlySortedBy};
ghost use Rattle.std.specs.Ordering.{nat_cmp};
ghost use Rattle.nomos_ir.specs.declared.code_node.CodeNode.TheVariants as code;
ghost use Rattle.nomos_machine.specs.Objects.{object_number};
ghost use Rattle.nomos_machine.specs.Sight.{accept_next, detach_next};
ghost use Rattle.nomos_machine.specs.State.{process_at};
ghost use Rattle.nomos_machine.specs.declared.object.Process.{Process};
ghost use Rattle.nomos_deeds.specs.Acting.{IsFrugalDoing};
ghost use Rattle.nomos_deeds.specs.Acts.{Decides, provider_node};

use crate::act::{Acquire, Act, Doing, Release};
use crate::arms::code_at;
use crate::sending::node_of;
use crate::sight::Sight;
use crate::unfolded_types::{accept_next, after_acquire, detach_next};
use nomos_ir::code_node::CodeNode;
use nomos_ir::ids::{CodeId, VarId};
use nomos_types::accepted::Accepted;

/// An `acquire`, where the contract's process stands at `accept`.
pub(crate) fn acquire_at<S: Sight>(
    sight: &S,
    accepted: &Accepted,
    pid: u32,
    variables: (VarId, VarId),
    next: CodeId,
) -> Option<Doing>
    requires { IsStrictlySortedBy nat_cmp (map object_number (S.state sight.now).objects) }
    ensures decides { (at : ℕ)
        → Decides accepted.now (S.state sight.now) pid (code.Acquire at variables.0 variables.1 next) result }
    ensures frugal { IsFrugalDoing result }
{
    let shared = sight.channel(pid, variables.0)?;
    let other = sight.offering(shared)?;
    let onward = accept_next(code_at(accepted, other.code)?)?;
    let goes = after_acquire(node_of(sight, accepted, shared)?)?;
    Some(Doing::Acts(Act::Acquire(Acquire {
        variable: variables.1,
        shared,
        other: other.pid,
        onward,
        goes,
        next,
    })))
}

/// A `release`, where the provider stands at `detach`.
pub(crate) fn release_at<S: Sight>(
    sight: &S,
    accepted: &Accepted,
    pid: u32,
    variables: (VarId, VarId),
    next: CodeId,
) -> Option<Doing>
    requires { IsStrictlySortedBy nat_cmp (map object_number (S.state sight.now).objects) }
    ensures decides { (at : ℕ)
        → Decides accepted.now (S.state sight.now) pid (code.Release at variables.0 variables.1 next) result }
    ensures frugal { IsFrugalDoing result }
{
    let name = sight.channel(pid, variables.0)?;
    let other = sight.offering(name)?;
    let onward = detach_next(code_at(accepted, other.code)?)?;
    let shared = other.base?;
    Some(Doing::Acts(Act::Release(Release {
        variable: variables.0,
        reference: variables.1,
        shared,
        other: other.pid,
        onward,
        next,
    })))
}

// Where the process that offers the channel of a variable stands.
fn provider_node<'a, S: Sight>(
    sight: &S,
    accepted: &'a Accepted,
    pid: u32,
    v: VarId,
) -> Option<&'a CodeNode>
    ensures { (p : Process) → process_at (S.state sight.now) pid ≡ Some p
        → option_copied result ≡ provider_node accepted.now (S.state sight.now) p v }
{
    let name = sight.channel(pid, v)?;
    let other = sight.offering(name)?;
    code_at(accepted, other.code)
}

/// Whether the process that offers the channel of a variable stands at `accept`.
pub(crate) fn is_accepting<S: Sight>(sight: &S, accepted: &Accepted, pid: u32, r: VarId) -> bool
    ensures { (p : Process) → process_at (S.state sight.now) pid ≡ Some p
        → result ≡ is_some (option_and_then accept_next (provider_node accepted.now (S.state sight.now) p r)) }
{
    match provider_node(sight, accepted, pid, r) {
        Some(node) => accept_next(node).is_some(),
        None => false,
    }
}

/// Whether the process that offers the channel of a variable stands at `detach`.
pub(crate) fn is_detaching<S: Sight>(sight: &S, accepted: &Accepted, pid: u32, v: VarId) -> bool
    ensures { (p : Process) → process_at (S.state sight.now) pid ≡ Some p
        → result ≡ is_some (option_and_then detach_next (provider_node accepted.now (S.state sight.now) p v)) }
{
    match provider_node(sight, accepted, pid, v) {
        Some(node) => detach_next(node).is_some(),
        None => false,
    }
}
