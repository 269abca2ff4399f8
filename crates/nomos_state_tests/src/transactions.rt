//! Transactions that take no arguments.
ghost use Rattle.std.specs.Prelude.{◌≡◌, ◌<◌, ◌≤◌, [], IsTrue, IfSome, length, slice_get};
ghost use Rattle.nomos_state_tests.specs.PlainRuns.{TakesNothing};

use nomos_ir::declaration::ProcDecl;
use nomos_ir::ids::ProcId;
use nomos_ir::mode::Mode;
use nomos_types::accepted::Accepted;

// Whether a process of a declaration can be started as a transaction, with nothing for its parameters.
fn takes_nothing(d: &ProcDecl) -> bool
    ensures { IsTrue result → TakesNothing d.now }
{
    match d.mode {
        Mode::T => d.values.is_empty() && d.channels.is_empty(),
        _ => false,
    }
}

// The number of the declaration of this name, if there is one.
fn declaration_named(accepted: &Accepted, name: &str) -> Option<ProcId>
    ensures { IfSome result (λ f. f.0 < length accepted.now.program.procs) }
{
    let declarations = accepted.program().lists().procs.as_slice();
    let mut number: u32 = 0;
    for d in declarations {
        if d.name.as_bytes() == name.as_bytes() {
            return Some(ProcId(number));
        }
        number = number.checked_add(1)?;
    }
    None
}

/// The number of the transaction of this name, if there is one that takes no arguments.
pub fn transaction_named(accepted: &Accepted, name: &str) -> Option<ProcId>
    ensures number { IfSome result (λ f. f.0 < length accepted.now.program.procs) }
    ensures takes { IfSome result (λ f. IfSome (slice_get accepted.now.program.procs f.0) TakesNothing) }
{
    let f = declaration_named(accepted, name)?;
    let declaration = accepted.program().proc(f);
    if takes_nothing(declaration) {
        Some(f)
    } else {
        None
    }
}
