//! What is bound to variables.
ghost use Rattle.std.specs.Prelude.{◌≡◌, ◌↔◌, IsTrue, IfOk, OnOk, OnErr, [], option_copied};
ghost use Rattle.nomos_ir.specs.Bindings.{bound_to, bind, unbind, IsAscending};
ghost use Rattle.nomos_check.specs.mirror.VariablePlaces.{IsPlaceOf};

use nomos_ir::ids::VarId;
use nomos_ir::items::Items;
use std::alloc::{AllocError, Global};
use std::marker::Model;
use std::mem;

/// What is bound to variables, which contracts see as a map from variables (`Bindings`). It is found by binary search,
/// and copied in one piece.
#[derive(Drop)]
pub struct Bound<X> {
    alloc: Global,
    pairs: Items<(VarId, X)>,
}

impl<X> Model for Bound<X> {
    ghost use Rattle.std.specs.Prelude.{List};
    ghost use Rattle.nomos_ir.specs.declared.ids.VarId.{VarId};
    ghost use Rattle.nomos_ir.specs.Bindings.{IsAscending};

    ghost Value = { List (VarId × X) };

    ghost view = { λ bound. bound.pairs };

    ghost invariant = { λ bound. IsAscending bound.pairs };
}

/// Where the variable stands among pairs, or where it would have to stand.
fn place_of<X>(pairs: &[(VarId, X)], v: VarId) -> Result<usize, usize>
    requires { IsAscending pairs.now }
    ensures { IsPlaceOf v pairs.now result }
{
    pairs.binary_search_by_key(&v.0, |pair| pair.0.0)
}

/// Binds the variable among pairs.
fn put<X: Copy>(pairs: &mut Vec<(VarId, X)>, v: VarId, x: X) -> Result<(), AllocError>
    requires { IsAscending pairs.old.items }
    ensures ok { OnOk result (pairs.new.items ≡ bind v x pairs.old.items) }
    ensures err { OnErr result (pairs.new.items ≡ pairs.old.items) }
{
    match place_of(pairs.as_slice(), v) {
        Ok(at) => {
            pairs[at].1 = x;
            Ok(())
        }
        Err(at) => {
            pairs.insert(at, (v, x))?;
            Ok(())
        }
    }
}

/// Unbinds the variable among pairs.
fn take_away<X: Copy>(pairs: &mut Vec<(VarId, X)>, v: VarId)
    requires { IsAscending pairs.old.items }
    ensures { pairs.new.items ≡ unbind v.0 pairs.old.items }
{
    if let Ok(at) = place_of(pairs.as_slice(), v) {
        pairs.remove(at);
    }
}

impl<X: Copy> Bound<X> {
    /// Nothing is bound. It takes no memory.
    pub(crate) fn new(alloc: Global) -> Bound<X>
        ensures { result ≡ [] }
    {
        Bound {
            alloc,
            pairs: Items::of_vec(Vec::new(alloc)),
        }
    }

    /// What the variable is bound to.
    pub fn get(&self, v: VarId) -> Option<X>
        ensures { result ≡ bound_to v.0 self.now }
    {
        let pairs = self.pairs.as_slice();
        match place_of(pairs, v) {
            Ok(at) => Some(pairs[at].1),
            Err(_) => None,
        }
    }

    /// Binds the variable; what it was bound to before is forgotten.
    pub(crate) fn bind(&mut self, v: VarId, x: X) -> Result<(), AllocError>
        ensures { OnOk result (self.new ≡ bind v x self.old) }
    {
        let mut pairs = mem::replace(
            &mut self.pairs,
            Items::of_vec(Vec::new(self.alloc)),
        ).into_vec();
        let done = put(&mut pairs, v, x);
        self.pairs = Items::of_vec(pairs);
        done
    }

    /// Unbinds the variable.
    pub(crate) fn unbind(&mut self, v: VarId)
        ensures { self.new ≡ unbind v.0 self.old }
    {
        let mut pairs = mem::replace(
            &mut self.pairs,
            Items::of_vec(Vec::new(self.alloc)),
        ).into_vec();
        take_away(&mut pairs, v);
        self.pairs = Items::of_vec(pairs);
    }

    /// The same bindings once more.
    pub(crate) fn copy(&self) -> Result<Bound<X>, AllocError>
        ensures { IfOk result (λ bound. bound ≡ self.now) }
    {
        let pairs = Vec::from_slice(self.alloc, self.pairs.as_slice())?;
        Ok(Bound {
            alloc: self.alloc,
            pairs: Items::of_vec(pairs),
        })
    }

    /// Whether nothing is bound.
    pub fn is_empty(&self) -> bool
        ensures { IsTrue result ↔ (self.now ≡ []) }
    {
        self.pairs.is_empty()
    }

    /// The variables with what is bound to them, in order of number.
    pub fn pairs(&self) -> &Items<(VarId, X)>
        ensures { result.now ≡ self.now }
    {
        &self.pairs
    }
}
