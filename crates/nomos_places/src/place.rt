//! What typing says at an instruction.
ghost use Rattle.std.specs.Prelude.{◌≡◌, ◌↔◌, All, IfOk, IsSome, IsTrue};
ghost use Rattle.nomos_ir.specs.Bindings.{IsAscending, bound_to, each_bound};
ghost use Rattle.nomos_types.specs.Acceptance.{IsAmountOf};
ghost use Rattle.nomos_places.specs.mirror.Making.{held, place_under, HasProgramAmounts};

use nomos_check::standing::{Carried, Standing};
use nomos_ir::ids::{CodeId, TypeId, VarId};
use nomos_ir::items::Items;
use nomos_ir::kind::Kind;
use nomos_ir::mode::Mode;
use nomos_types::accepted::Accepted;
use std::alloc::{AllocError, Global};

/// A list that carries potential: the kind of its elements, and the amount of each of them, in Dths.
#[derive(Clone, Copy)]
pub struct HeldList {
    pub kind: Kind,
    pub amount: u64,
}

/// What a process has at an instruction of an accepted program, as typing says it: its mode, the type that it offers,
/// the kinds of its values, its lists, and the types of its references and of its other channels, each by variable in
/// order of number. And the least potential that it needs there beside that of its lists, in Dths.
#[derive(Drop)]
pub struct Place {
    pub code: CodeId,
    pub mode: Mode,
    pub offers: TypeId,
    pub kinds: Items<(VarId, Kind)>,
    pub lists: Items<(VarId, HeldList)>,
    pub shared: Items<(VarId, TypeId)>,
    pub linear: Items<(VarId, TypeId)>,
    pub least: u128,
}

/// Whether the variable is bound among these, which are in order.
fn is_bound(entries: &[(VarId, TypeId)], v: VarId) -> bool
    requires { IsAscending entries.now }
    ensures { IsTrue result ↔ IsSome (bound_to v.0 entries.now) }
{
    match entries.binary_search_by_key(&v.0, |entry| entry.0.0) {
        Ok(_) => true,
        Err(_) => false,
    }
}

impl Place {
    /// Whether the variable is a reference, where these are in order.
    pub fn has_reference(&self, v: VarId) -> bool
        requires { IsAscending self.now.shared }
        ensures { IsTrue result ↔ IsSome (bound_to v.0 self.now.shared) }
    {
        is_bound(self.shared.as_slice(), v)
    }
}

/// The lists, with what their amounts are worth.
fn held_lists(
    alloc: Global,
    accepted: &Accepted,
    lists: &[(VarId, Carried)],
) -> Result<Vec<(VarId, HeldList)>, AllocError>
    requires { All (λ e. IsAmountOf accepted.now.program e.1.amount) lists.now }
    ensures { IfOk result (λ made. made.items ≡ each_bound (held accepted.now.annotations) lists.now) }
{
    let mut made = Vec::new(alloc);
    for entry in lists {
        let held = HeldList {
            kind: entry.1.kind,
            amount: accepted.amount(entry.1.amount),
        };
        made.push((entry.0, held))?;
    }
    Ok(made)
}

/// The place where this is in hand, and so much potential is needed.
pub(crate) fn place_under(
    alloc: Global,
    accepted: &Accepted,
    standing: &Standing,
    least: u128,
) -> Result<Place, AllocError>
    requires { HasProgramAmounts accepted.now.program standing.now }
    ensures { IfOk result (λ place. place ≡ place_under accepted.now.annotations standing.now least) }
{
    let lists = held_lists(alloc, accepted, standing.lists.pairs().as_slice())?;
    let kinds = Vec::from_slice(alloc, standing.kinds.pairs().as_slice())?;
    let shared = Vec::from_slice(alloc, standing.shared.pairs().as_slice())?;
    let linear = Vec::from_slice(alloc, standing.linear.pairs().as_slice())?;
    Ok(Place {
        code: standing.code,
        mode: standing.mode,
        offers: standing.offers,
        kinds: Items::of_vec(kinds),
        lists: Items::of_vec(lists),
        shared: Items::of_vec(shared),
        linear: Items::of_vec(linear),
        least,
    })
}
