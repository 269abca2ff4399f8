//! Lists of a process, once more and with a change.
ghost use Rattle.std.specs.Prelude.{◌≡◌, ◌∷◌, IfOk, List, Some, option_copied};
ghost use Rattle.nomos_ir.specs.Bindings.{bound_to};
ghost use Rattle.nomos_ir.specs.Value.{Value as Meaning};
ghost use Rattle.nomos_ir.specs.ValueNode.{value_of};
ghost use Rattle.nomos_machine.specs.Deeds.{empty_list, lengthened};
ghost use Rattle.nomos_machine.specs.declared.object.PotentialList.{PotentialList as Carrying};

use nomos_eval::evaluation::value_from;
use nomos_ir::ids::VarId;
use nomos_ir::value::{Value, Values};
use nomos_ir::value_node::ValueNode;
use nomos_machine::object::PotentialList;
use std::alloc::{AllocError, Global};

/// The list of a variable.
pub fn list_of(lists: &[(VarId, PotentialList)], w: VarId) -> Option<&PotentialList>
    ensures { option_copied result ≡ bound_to w.0 lists.now }
{
    for pair in lists {
        if pair.0 == w {
            return Some(&pair.1);
        }
    }
    None
}

/// A list once more. It takes no memory.
pub(crate) fn copy_list(list: &PotentialList) -> Result<PotentialList, AllocError>
    ensures { IfOk result (λ made. made ≡ list.now) }
{
    Ok(PotentialList {
        amount: list.amount,
        items: list.items.copy()?,
    })
}

/// A copy of variables with their lists.
pub fn copy_lists(
    alloc: Global,
    lists: &[(VarId, PotentialList)],
) -> Result<Vec<(VarId, PotentialList)>, AllocError>
    ensures { IfOk result (λ made. made.items ≡ lists.now) }
{
    let mut made = Vec::new(alloc);
    for pair in lists {
        made.push((pair.0, copy_list(&pair.1)?))?;
    }
    Ok(made)
}

/// The empty list, whose elements carry so many Dths each. It takes no memory.
pub(crate) fn empty_list(amount: u64) -> PotentialList
    ensures { result ≡ empty_list amount }
{
    PotentialList {
        amount,
        items: Values::empty(),
    }
}

/// The list of a variable with one more element in front, if it has one.
pub(crate) fn longer(
    alloc: Global,
    lists: &[(VarId, PotentialList)],
    w: VarId,
    first: ValueNode,
) -> Result<Option<PotentialList>, AllocError>
    ensures { (l : Carrying) → bound_to w.0 lists.now ≡ Some l
        → IfOk result (λ made. made ≡ Some (lengthened (value_of first) l)) }
{
    let Some(list) = list_of(lists, w) else {
        return Ok(None);
    };
    let rest = list.items.copy()?;
    Ok(Some(PotentialList {
        amount: list.amount,
        items: Values::with_first(alloc, first, rest)?,
    }))
}

/// The head and the rest of the list of a variable, if it has one with elements. It takes no memory.
pub(crate) fn taken_apart(
    lists: &[(VarId, PotentialList)],
    w: VarId,
) -> Result<Option<(Value, PotentialList)>, AllocError>
    ensures { (l : Carrying) (x : Meaning) (xs : List Meaning) → bound_to w.0 lists.now ≡ Some l → l.items ≡ x ∷ xs
        → IfOk result (λ found. found ≡ Some (x, record l { items = xs })) }
{
    let Some(list) = list_of(lists, w) else {
        return Ok(None);
    };
    let Some((head, rest)) = list.items.parts() else {
        return Ok(None);
    };
    let value = value_from(head.copy()?);
    Ok(Some((
        value,
        PotentialList {
            amount: list.amount,
            items: rest.copy()?,
        },
    )))
}
