//! Whether two types are equal.
ghost use Rattle.std.specs.Prelude.{◌<◌, length, IfOk};
ghost use Rattle.nomos_ir.specs.Unfold.{IsContractive};
ghost use Rattle.nomos_equality.specs.Answer.{AnswersEquality, IsEqualityExact};

use crate::equalities::Equalities;
use crate::hop::Path;
use nomos_ir::ids::TypeId;
use nomos_ir::lists::AmountPairs;
use nomos_ir::program::Program;
use std::alloc::{AllocError, Global};

/// Whether two types are equal.
#[derive(Drop, Debug)]
pub enum Equality {
    /// Their unfoldings agree at every depth where amounts are ignored. These are, each once, the pairs of
    /// amounts that stand at equal paths: the types are equal where both amounts of each pair are.
    Yes(AmountPairs),
    /// At the end of this path they differ in constructor, labels or kind.
    No(Path),
}

/// What a comparison of two types found.
#[derive(Drop, Debug)]
pub enum Comparison {
    /// The unfoldings agree at every depth where amounts are ignored.
    Equal,
    /// At the end of this path they differ in constructor, labels or kind.
    Different(Path),
}

/// Whether two types of a program are equal: the pairs of amounts that their equality needs, or a path at
/// whose end they differ. A difference is found in time almost in step with the number of type nodes; the amounts take
/// a step for each pair of type nodes at equal paths.
pub fn equal(
    alloc: Global,
    program: &Program,
    left: TypeId,
    right: TypeId,
) -> Result<Equality, AllocError>
    requires contractive { IsContractive program.now }
    requires left { left.0 < length program.now.types }
    requires right { right.0 < length program.now.types }
    ensures answers { IfOk result (AnswersEquality program.now left right) }
    ensures exact { IfOk result (IsEqualityExact program.now left right) }
{
    let mut equalities = Equalities::new(alloc);
    match equalities.compare(program, left, right)? {
        Comparison::Equal => {
            let pairs = equalities.into_amounts()?;
            Ok(Equality::Yes(pairs))
        }
        Comparison::Different(path) => Ok(Equality::No(path)),
    }
}
