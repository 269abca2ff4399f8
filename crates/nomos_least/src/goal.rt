//! The goal of a program.
ghost use Rattle.std.specs.Prelude.{◌≡◌, ℕ, IfOk, All, pos, ◌≤ℤ◌};
ghost use Rattle.nomos_check.specs.Account.{Account, form_of};
ghost use Rattle.nomos_check.specs.Room.{HasRoom};
ghost use Rattle.nomos_forms.specs.Bounds.{IsForm};
ghost use Rattle.nomos_ir.specs.Amounts.{star_count};
ghost use Rattle.nomos_least.specs.Goal.{is_transaction, gains_declared, goal_of};

use nomos_check::potential_form::PotentialForm;
use nomos_forms::form::Form;
use nomos_ir::declaration::ProcDecl;
use nomos_ir::mode::Mode;
use nomos_ir::program::Program;
use std::alloc::{AllocError, Global};

fn is_transaction(mode: Mode) -> bool
    ensures { result ≡ is_transaction mode }
{
    matches!(mode, Mode::T)
}

/// Adds what a declaration declares, where it is a transaction.
fn gain_declared(sum: &mut PotentialForm, declaration: &ProcDecl)
    requires { HasRoom sum.old declaration.now.amount }
    ensures { (n : ℕ) (a : Account) → sum.old ≡ form_of n a → sum.new ≡ form_of n (gains_declared declaration.now a) }
{
    if is_transaction(declaration.mode) {
        sum.gain(declaration.amount);
    }
}

/// The goal of a program: what its transactions declare, all together, as a form over its stars. Written amounts count
/// whole units of gas.
pub fn goal_of(alloc: Global, program: &Program) -> Result<Form, AllocError>
    ensures goal { IfOk result (λ goal. goal ≡ goal_of program.now) }
    ensures form { IfOk result (IsForm (star_count program.now)) }
    ensures coefs { IfOk result (λ goal. All (λ c. pos 0 ≤ℤ c) goal.coefs) }
{
    let mut sum = PotentialForm::none(alloc, program.stars())?;
    for declaration in program.lists().procs.as_slice() {
        gain_declared(&mut sum, declaration);
    }
    Ok(sum.into_form())
}
