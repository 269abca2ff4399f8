//! Names come under their numbers.
ghost use Rattle.std.specs.Prelude.{◌≡◌, ◌≤◌, ◌<◌, ◌+◌, ◌-◌, ◌^◌, ◌++◌, ◌∷◌, [], length};
ghost use Rattle.nomos_restore.specs.Numbering.{AreNext};

use crate::restoring::Restoring;
use nomos_ir::ids::TypeId;

// This name comes, and has this type.
fn come_name_at<P: Restoring>(parts: &mut P, name: u32, t: TypeId)
    requires room { 0 < P.room parts.old }
    requires above { (P.state parts.old).next_name ≤ name }
    requires fits { name < 2 ^ 32 - 1 }
    ensures state { P.state parts.new ≡ record (P.state parts.old)
        { next_name = name + 1; types = (P.state parts.old).types ++ (name, t) ∷ [] } }
    ensures room { P.room parts.old ≤ P.room parts.new + 1 }
    ensures marked { P.marked parts.new ≡ P.marked parts.old }
{
    let number = parts.next_number();
    parts.draw_up_to(number, name);
    parts.come_name(t);
}

/// These names come, and have these types. All below the next one are drawn then.
pub(crate) fn come_names<P: Restoring>(parts: &mut P, types: Vec<(u32, TypeId)>, next_name: u32)
    requires room { length types.items ≤ P.room parts.old }
    requires next { AreNext (λ t. t.0) (P.state parts.old).next_name next_name types.items }
    requires above { (P.state parts.old).next_name ≤ next_name }
    ensures state { P.state parts.new ≡ record (P.state parts.old)
        { next_name = next_name; types = (P.state parts.old).types ++ types.items } }
    ensures room { P.room parts.old ≤ P.room parts.new + length types.items }
    ensures marked { P.marked parts.new ≡ P.marked parts.old }
{
    for (name, t) in types {
        come_name_at(parts, name, t);
    }
    let number = parts.next_number();
    parts.draw_up_to(number, next_name);
}
