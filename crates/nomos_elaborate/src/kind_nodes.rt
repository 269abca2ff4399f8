//! The kinds of types of values.
ghost use Rattle.std.specs.Prelude.{◌≡◌};
ghost use Rattle.nomos_elaborate.specs.Built.{kind_of};
ghost use Rattle.nomos_surface.specs.TreeBounds.{KeepsValueType};

use nomos_ir::kind::Kind;
use nomos_surface::value_type::ValueType;

/// The kind of a type of values.
pub(crate) fn kind_of(value: &ValueType) -> Kind
    requires { KeepsValueType value.now }
    ensures { result ≡ kind_of value.now }
{
    Kind {
        lists: value.lists.len() as u8,
        base: value.base,
    }
}
