//! Variables with what is bound to them, in a vector that has room.
ghost use Rattle.std.specs.Prelude.{◌≡◌, ◌==◌, ◌≤◌, ◌<◌, ◌+◌, IsTrue, IfOk, Some, None, length, nat_lt};
ghost use Rattle.std.specs.List.{insert, position, prefix_len};
ghost use Rattle.std.specs.Vec.{vec_len, vec_capacity};
ghost use Rattle.nomos_ir.specs.Bindings.{bind, bindings_of, bound_to, unbind};
ghost use Rattle.nomos_changes.specs.SmallChanges.{bound_if, unbound_if};

use nomos_ir::ids::VarId;
use std::alloc::{AllocError, Global};

// How many pairs at the front have lower variables.
fn count_below<X>(pairs: &[(VarId, X)], v: VarId) -> usize
    ensures count { result ≡ prefix_len (λ e. nat_lt e.0.0 v.0) pairs.now }
    ensures within { result ≤ length pairs.now }
{
    pairs.iter().take_while(|pair| pair.0.0 < v.0).count()
}

// Puts an item at a place, in a vector that has room.
fn put_at<T: Drop>(items: &mut Vec<T>, at: usize, item: T)
    requires within { at ≤ vec_len items.old }
    requires room { vec_len items.old < vec_capacity items.old }
    ensures items { items.new.items ≡ insert items.old.items at item }
    ensures capacity { vec_capacity items.new ≡ vec_capacity items.old }
    ensures len { vec_len items.new ≡ vec_len items.old + 1 }
{
    let _ = items.insert(at, item);
}

/// Binds a variable, where it stands in ascending order; what it was bound to before is forgotten.
pub fn bind<X: Drop>(pairs: &mut Vec<(VarId, X)>, v: VarId, x: X)
    requires { vec_len pairs.old < vec_capacity pairs.old }
    ensures items { pairs.new.items ≡ bind v x pairs.old.items }
    ensures capacity { vec_capacity pairs.new ≡ vec_capacity pairs.old }
    ensures len { vec_len pairs.new ≤ vec_len pairs.old + 1 }
{
    let at = count_below(pairs.as_slice(), v);
    if at < pairs.len() && pairs[at].0.0 == v.0 {
        pairs[at].1 = x;
    } else {
        put_at(pairs, at, (v, x));
    }
}

/// Where the first pair of a variable stands.
pub fn place_of<X>(pairs: &[(VarId, X)], v: VarId) -> Option<usize>
    ensures { result ≡ position (λ e. e.0.0 == v.0) pairs.now }
{
    pairs.iter().position(|pair| pair.0.0 == v.0)
}

/// Binds a variable no more, and gives what it was bound to.
pub fn unbind<X>(pairs: &mut Vec<(VarId, X)>, v: VarId) -> Option<X>
    ensures items { pairs.new.items ≡ unbind v.0 pairs.old.items }
    ensures value { result ≡ bound_to v.0 pairs.old.items }
    ensures capacity { vec_capacity pairs.new ≡ vec_capacity pairs.old }
    ensures len { vec_len pairs.new ≤ vec_len pairs.old }
{
    let at = place_of(pairs.as_slice(), v)?;
    let pair = pairs.remove(at);
    Some(pair.1)
}

/// Binds a variable, if there is one.
pub fn bind_if<X: Drop>(pairs: &mut Vec<(VarId, X)>, bound: Option<(VarId, X)>)
    requires { vec_len pairs.old < vec_capacity pairs.old }
    ensures { pairs.new.items ≡ bound_if bound pairs.old.items }
{
    if let Some((v, x)) = bound {
        bind(pairs, v, x);
    }
}

/// Binds a variable no more, if there is one.
pub fn unbind_if<X: Drop>(pairs: &mut Vec<(VarId, X)>, unbound: Option<VarId>)
    ensures items { pairs.new.items ≡ unbound_if unbound pairs.old.items }
    ensures capacity { vec_capacity pairs.new ≡ vec_capacity pairs.old }
    ensures len { vec_len pairs.new ≤ vec_len pairs.old }
{
    if let Some(v) = unbound {
        let _before = unbind(pairs, v);
    }
}

/// Whether each pair has a lower variable than the next one, so that the pairs are a map as they stand.
pub fn is_map<X>(pairs: &[(VarId, X)]) -> bool
    ensures { IsTrue result → bindings_of pairs.now ≡ pairs.now }
{
    let mut at = pairs.len();
    while at > 1 {
        at -= 1;
        if pairs[at].0.0 <= pairs[at - 1].0.0 {
            return false;
        }
    }
    true
}

/// Pairs as a map, with room for so many more; where a variable stands twice, the first pair counts. Pairs that are a
/// map as they stand stay where they are.
pub fn bindings_of<X: Drop>(
    alloc: Global,
    mut pairs: Vec<(VarId, X)>,
    more: usize,
) -> Result<Vec<(VarId, X)>, AllocError>
    ensures items { IfOk result (λ made. made.items ≡ bindings_of pairs.items) }
    ensures room { IfOk result (λ made. vec_len made + more ≤ vec_capacity made) }
{
    if is_map(pairs.as_slice()) {
        pairs.reserve_exact(more)?;
        return Ok(pairs);
    }
    let count = pairs.len().checked_add(more).ok_or(AllocError)?;
    let mut made = Vec::with_capacity(alloc, count)?;
    while let Some(pair) = pairs.pop() {
        bind(&mut made, pair.0, pair.1);
    }
    Ok(made)
}
