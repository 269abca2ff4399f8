//! Whether the amounts of pairs are worth the same.
ghost use Rattle.std.specs.Prelude.{◌↔◌, All, IsTrue};
ghost use Rattle.nomos_equality.specs.Answer.{SameWorth};
ghost use Rattle.nomos_types.specs.Acceptance.{IsAmountOf};

use nomos_ir::amount::Amount;
use nomos_types::accepted::Accepted;

/// Whether the two amounts of each pair are worth the same.
pub(crate) fn same_worth(accepted: &Accepted, pairs: &[(Amount, Amount)]) -> bool
    requires { All (λ p. IsAmountOf accepted.now.program p.0 × IsAmountOf accepted.now.program p.1) pairs.now }
    ensures { IsTrue result ↔ SameWorth accepted.now.annotations pairs.now }
{
    for pair in pairs {
        if accepted.amount(pair.0) != accepted.amount(pair.1) {
            return false;
        }
    }
    true
}
