//! Types that are known to be equal, and from which no amount is reached, in classes.
ghost use Rattle.std.specs.Prelude.{◌≡◌, ◌<◌, length, IsTrue, All};
ghost use Rattle.nomos_types.specs.Equality.{EqualShapes};
ghost use Rattle.nomos_equality.specs.Comparing.{AreFree};
ghost use Rattle.nomos_equality.specs.Paths.{PaysNowhere};
ghost use Rattle.nomos_equality.specs.mirror.Linking.{AreTwoLinked};
ghost use Rattle.nomos_equality.specs.mirror.Search.{IsFormed, IsMet};

use crate::type_classes::TypeClasses;
use nomos_ir::ids::TypeId;
use nomos_ir::program::Program;
use nomos_types::unfolding::unfold;

/// Whether two types, behind their names, are two of one class. Of one type alone the classes say nothing.
pub(crate) fn are_joined(
    classes: &mut TypeClasses,
    program: &Program,
    left: TypeId,
    right: TypeId,
) -> bool
    requires formed { IsFormed program.now }
    requires left { left.0 < length program.now.types }
    requires right { right.0 < length program.now.types }
    ensures joined { IsTrue result → IsMet program.now (AreTwoLinked classes.old) left right }
    ensures same { classes.new ≡ classes.old }
{
    let left = unfold(program, left);
    let right = unfold(program, right);
    if left.0 == right.0 {
        return false;
    }
    classes.are_one(left, right)
}

/// Joins the classes of two types of equal shapes, from which no amount is reached.
pub(crate) fn join_free(classes: &mut TypeClasses, program: &Program, left: TypeId, right: TypeId)
    requires formed { IsFormed program.now }
    requires left { left.0 < length program.now.types }
    requires right { right.0 < length program.now.types }
    requires shapes { EqualShapes program.now left right }
    requires nowhere { PaysNowhere program.now left }
    requires free { All (AreFree program.now) classes.old }
    ensures { All (AreFree program.now) classes.new }
{
    let left = unfold(program, left);
    let right = unfold(program, right);
    classes.join(left, right);
}
