//! A potential as a form over stars.
ghost use Rattle.std.specs.Prelude.{◌≡◌, ℕ, IfOk};
ghost use Rattle.nomos_ir.specs.declared.amount.Amount.{Amount};
ghost use Rattle.nomos_check.specs.Account.{Account, gains, spends, form_of, no_account};
ghost use Rattle.nomos_check.specs.Room.{HasRoom};

use nomos_forms::form::Form;
use nomos_ir::amount::Amount;
use nomos_ir::items::Items;
use std::alloc::{AllocError, Global};
use std::marker::Model;

/// A potential as a form over stars: what was gained less what was spent. Written amounts count whole units.
#[derive(Drop)]
pub struct PotentialForm {
    coefs: Vec<i64>,
    plus: i64,
}

impl Model for PotentialForm {
    ghost use Rattle.nomos_forms.specs.declared.form.Form.{Form};

    ghost Value = { Form };

    ghost view = { λ p. record { coefs = p.coefs.items; plus = p.plus } };
}

impl PotentialForm {
    /// No potential, over this many stars.
    pub fn none(alloc: Global, stars: u16) -> Result<PotentialForm, AllocError>
        ensures { IfOk result (λ p. p ≡ form_of stars no_account) }
    {
        let coefs = vec![in alloc; 0i64; usize::from(stars)]?;
        Ok(PotentialForm { coefs, plus: 0 })
    }

    /// The amount is gained.
    pub fn gain(&mut self, amount: Amount)
        requires { HasRoom self.old amount }
        ensures { (n : ℕ) (a : Account) → self.old ≡ form_of n a → self.new ≡ form_of n (gains amount a) }
    {
        match amount {
            Amount::Written(units) => self.plus += i64::from(units),
            Amount::Star(star) => self.coefs[usize::from(star) - 1] += 1,
        }
    }

    /// The amount is spent.
    pub fn spend(&mut self, amount: Amount)
        requires { HasRoom self.old amount }
        ensures { (n : ℕ) (a : Account) → self.old ≡ form_of n a → self.new ≡ form_of n (spends amount a) }
    {
        match amount {
            Amount::Written(units) => self.plus -= i64::from(units),
            Amount::Star(star) => self.coefs[usize::from(star) - 1] -= 1,
        }
    }

    /// The same potential once more.
    pub fn copy(&self, alloc: Global) -> Result<PotentialForm, AllocError>
        ensures { IfOk result (λ p. p ≡ self.now) }
    {
        Ok(PotentialForm {
            coefs: Vec::from_slice(alloc, self.coefs.as_slice())?,
            plus: self.plus,
        })
    }

    /// The form.
    pub fn into_form(self) -> Form
        ensures { result ≡ self }
    {
        let PotentialForm { coefs, plus } = self;
        Form {
            coefs: Items::of_vec(coefs),
            plus,
        }
    }
}
