//! Variables with their values: copies of them, and whether they are the same.
ghost use Rattle.std.specs.Prelude.{◌≡◌, ◌↔◌, IsTrue, IfOk};

use nomos_eval::evaluation::Env;
use nomos_ir::ids::VarId;
use nomos_ir::items::Items;
use nomos_ir::value::Value;
use std::alloc::{AllocError, Global};

/// A copy of variables with their values.
pub(crate) fn copy_env(alloc: Global, env: &[(VarId, Value)]) -> Result<Env, AllocError>
    ensures { IfOk result (λ made. made ≡ env.now) }
{
    let mut made = Vec::new(alloc);
    for pair in env {
        made.push((pair.0, pair.1.copy()?))?;
    }
    Ok(Items::of_vec(made))
}

/// Whether variables are the same, with the same values.
pub(crate) fn is_same_env(env: &[(VarId, Value)], other: &[(VarId, Value)]) -> bool
    ensures { IsTrue result ↔ (env.now ≡ other.now) }
{
    if env.len() != other.len() {
        return false;
    }
    for at in 0..env.len() {
        if env[at].0.0 != other[at].0.0 || !env[at].1.is_same(&other[at].1) {
            return false;
        }
    }
    true
}
