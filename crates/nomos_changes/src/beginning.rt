//! A process at the start of a declaration, with what that is given.
ghost use Rattle.std.specs.Prelude.{◌≡◌, ◌<◌, ◌++◌, ◌^◌, IfOk};
ghost use Rattle.nomos_ir.specs.Bindings.{bindings_of};
ghost use Rattle.nomos_machine.specs.Given.{begins, me_value};
ghost use Rattle.nomos_changes.specs.Gives.{given_in, potential_in};
ghost use Rattle.nomos_changes.specs.SmallChanges.{process_born};

use crate::given::Given;
use crate::newborn::Newborn;
use crate::pairs::{bind, bindings_of};
use nomos_deeds::sight::SeenProcess;
use nomos_ir::declaration::ProcDecl;
use nomos_ir::ids::VarId;
use nomos_ir::value::Value;
use nomos_machine::object::PotentialList;
use std::alloc::{AllocError, Global};

// What the elements of lists carry.
fn potential_of(lists: &[(VarId, PotentialList)]) -> u128
    requires { potential_in lists.now < 2 ^ 128 }
    ensures { result ≡ potential_in lists.now }
{
    let mut sum: u128 = 0;
    for pair in lists {
        sum += u128::from(pair.1.amount) * u128::from(pair.1.items.len());
    }
    sum
}

/// The values as a map, with the number of the account that pays for `me`.
pub(crate) fn values_of(
    alloc: Global,
    values: Vec<(VarId, Value)>,
    me: Option<VarId>,
    payer: u32,
) -> Result<Vec<(VarId, Value)>, AllocError>
    ensures { IfOk result (λ made. made.items ≡ bindings_of (me_value me payer ++ values.items)) }
{
    let mut made = bindings_of(alloc, values, usize::from(me.is_some()))?;
    if let Some(v) = me {
        bind(&mut made, v, Value::int(i64::from(payer)));
    }
    Ok(made)
}

/// How a process begins: its number, the name that it offers, its potential beside that of its lists, in Dths, and the
/// number of the account that pays for it.
#[derive(Clone, Copy, Debug)]
pub(crate) struct Beginning {
    pub(crate) pid: u32,
    pub(crate) offers: u32,
    pub(crate) potential: u64,
    pub(crate) payer: u32,
}

/// A process at the start of a declaration, with what it is given.
pub(crate) fn begin(
    alloc: Global,
    declaration: &ProcDecl,
    given: Given,
    at: Beginning,
) -> Result<Newborn, AllocError>
    requires { (begins declaration.now (given_in given) at.pid at.offers at.potential at.payer).purse < 2 ^ 128 }
    ensures { IfOk result (λ born. process_born born
        ≡ begins declaration.now (given_in given) at.pid at.offers at.potential at.payer) }
{
    let values = values_of(alloc, given.values, declaration.me, at.payer)?;
    let lists = bindings_of(alloc, given.lists, 0)?;
    let purse = u128::from(at.potential) + potential_of(&lists);
    let fields = SeenProcess {
        pid: at.pid,
        mode: declaration.mode,
        code: declaration.first,
        offers: at.offers,
        base: None,
        purse,
        payer: at.payer,
    };
    Ok(Newborn {
        fields,
        values,
        lists,
        channels: given.channels,
    })
}
