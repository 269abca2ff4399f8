//! Claims about names.
ghost use Rattle.nomos_elaborate.specs.NameClaim.{bound_channel, bound_list, bound_value, declared, new_among, new_on_way};
ghost use Rattle.nomos_elaborate.specs.mirror.Checked.{Gives, demand};

use crate::elab_error::ElabError;
use crate::name_table::NameTable;
use crate::scope::Scope;
use crate::sort::Sort;
use nomos_surface::name_at::NameAt;

/// Nothing, where the claim at the offset holds.
pub(crate) fn demand(holds: bool, at: u32) -> Result<(), ElabError>
    ensures { Gives (λ _. tt) result (demand (record { at = at; holds = holds })) }
{
    if holds {
        Ok(())
    } else {
        Err(ElabError::Name(at))
    }
}

/// Nothing, where the name is among the names.
pub(crate) fn declared(names: &NameTable, name: &NameAt) -> Result<(), ElabError>
    ensures { Gives (λ _. tt) result (demand (declared names.now name.now)) }
{
    demand(names.has(name.name.as_bytes()), name.at)
}

/// Nothing, where the name is not among the names.
pub fn new_among(names: &NameTable, name: &NameAt) -> Result<(), ElabError>
    ensures { Gives (λ _. tt) result (demand (new_among names.now name.now)) }
{
    demand(!names.has(name.name.as_bytes()), name.at)
}

/// Nothing, where the name is bound as a value.
pub(crate) fn bound_value(scope: &Scope, name: &NameAt) -> Result<(), ElabError>
    ensures { Gives (λ _. tt) result (demand (bound_value scope.now name.now)) }
{
    let sort = scope.sort_of(name.name.as_bytes());
    demand(matches!(sort, Some(Sort::Value)), name.at)
}

/// Nothing, where the name is bound as a channel.
pub(crate) fn bound_channel(scope: &Scope, name: &NameAt) -> Result<(), ElabError>
    ensures { Gives (λ _. tt) result (demand (bound_channel scope.now name.now)) }
{
    let sort = scope.sort_of(name.name.as_bytes());
    demand(matches!(sort, Some(Sort::Channel)), name.at)
}

/// Nothing, where the name is bound as a list.
pub(crate) fn bound_list(scope: &Scope, name: &NameAt) -> Result<(), ElabError>
    ensures { Gives (λ _. tt) result (demand (bound_list scope.now name.now)) }
{
    let sort = scope.sort_of(name.name.as_bytes());
    demand(matches!(sort, Some(Sort::List)), name.at)
}

/// Nothing, where the name is not bound.
pub(crate) fn new_on_way(scope: &Scope, name: &NameAt) -> Result<(), ElabError>
    ensures { Gives (λ _. tt) result (demand (new_on_way scope.now name.now)) }
{
    demand(scope.sort_of(name.name.as_bytes()).is_none(), name.at)
}
