//! Lists of variables with what is bound to them.
ghost use Rattle.std.specs.Prelude.{◌≡◌, reverse};
ghost use Rattle.nomos_ir.specs.Bindings.{bound_to};

use crate::ids::VarId;

/// What the first pair with this variable binds to it.
pub fn bound_first<X: Copy>(pairs: &[(VarId, X)], v: VarId) -> Option<X>
    ensures { result ≡ bound_to v.0 pairs.now }
{
    for pair in pairs {
        if pair.0 == v {
            return Some(pair.1);
        }
    }
    None
}

/// What the last pair with this variable binds to it.
pub fn bound_last<X: Copy>(pairs: &[(VarId, X)], v: VarId) -> Option<X>
    ensures { result ≡ bound_to v.0 (reverse pairs.now) }
{
    let mut before = pairs.len();
    while before > 0 {
        before -= 1;
        if pairs[before].0 == v {
            return Some(pairs[before].1);
        }
    }
    None
}
