//! Whether types are equal under the amounts of an accepted program.
ghost use Rattle.std.specs.Prelude.{◌↔◌, ◌<◌, All, IfOk, IsTrue, length};
ghost use Rattle.nomos_equality.specs.Answer.{SameWorth};
ghost use Rattle.nomos_types.specs.Acceptance.{IsAmountOf};
ghost use Rattle.nomos_types.specs.Equality.{EqualTypes};

use nomos_equality::equality::{Equality, equal};
use nomos_ir::amount::Amount;
use nomos_ir::ids::TypeId;
use nomos_types::accepted::Accepted;
use std::alloc::{AllocError, Global};

/// Whether the two amounts of each pair are worth the same.
fn same_worth(accepted: &Accepted, pairs: &[(Amount, Amount)]) -> bool
    requires { All (λ p. IsAmountOf accepted.now.program p.0 × IsAmountOf accepted.now.program p.1) pairs.now }
    ensures { IsTrue result ↔ SameWorth accepted.now.annotations pairs.now }
{
    for pair in pairs {
        if accepted.amount(pair.0) != accepted.amount(pair.1) {
            return false;
        }
    }
    true
}

/// Whether two types are equal under the amounts that were found.
pub(crate) fn are_equal(
    alloc: Global,
    accepted: &Accepted,
    left: TypeId,
    right: TypeId,
) -> Result<bool, AllocError>
    requires left { left.0 < length accepted.now.program.types }
    requires right { right.0 < length accepted.now.program.types }
    ensures { IfOk result (λ same. IsTrue same ↔ EqualTypes accepted.now.program accepted.now.annotations left right) }
{
    match equal(alloc, accepted.program(), left, right)? {
        Equality::Yes(pairs) => Ok(same_worth(accepted, pairs.as_slice())),
        Equality::No(_path) => Ok(false),
    }
}
