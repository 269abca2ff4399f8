//! Accounts are opened with what they have.
ghost use Rattle.std.specs.Prelude.{◌≡◌, ◌<◌, ◌+◌, ◌^◌, ◌++◌, OnOk, length};

use crate::restoring::Restoring;
use std::alloc::AllocError;

/// Accounts are opened, which have so many Dths.
pub(crate) fn open_accounts<P: Restoring>(
    parts: &mut P,
    balances: &[u128],
) -> Result<(), AllocError>
    requires { length (P.state parts.old).balances + length balances.now < 2 ^ 32 }
    ensures ok { OnOk result (P.state parts.new ≡ record (P.state parts.old)
        { balances = (P.state parts.old).balances ++ balances.now }) }
    ensures marked { P.marked parts.new ≡ P.marked parts.old }
{
    for dths in balances {
        let _account = parts.open_account(*dths)?;
    }
    Ok(())
}
