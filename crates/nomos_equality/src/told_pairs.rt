//! A list of pairs of types that only contracts see.
ghost use Rattle.std.specs.Prelude.{◌≡◌, ◌∷◌, ◌++◌, []};
ghost use Rattle.nomos_equality.specs.mirror.ToldPairs.{pairs_of};

use nomos_ir::ids::TypeId;
use std::snapshot::Snapshot;

/// Pairs of types in the order in which they were told. No memory is taken for those before the last one.
#[derive(Drop)]
pub(crate) enum ToldPairs {
    Nothing,
    /// What was told before.
    Same(Snapshot<ToldPairs>),
    /// What was told before, and then one more pair.
    Then(Snapshot<ToldPairs>, TypeId, TypeId),
}

/// The same pairs.
pub(crate) fn same(told: &ToldPairs) -> ToldPairs
    ensures { pairs_of result ≡ pairs_of told.now }
{
    ToldPairs::Same(Snapshot::of(told))
}

/// One more pair at the end.
pub(crate) fn then(told: &ToldPairs, left: TypeId, right: TypeId) -> ToldPairs
    ensures { pairs_of result ≡ pairs_of told.now ++ (left, right) ∷ [] }
{
    ToldPairs::Then(Snapshot::of(told), left, right)
}
