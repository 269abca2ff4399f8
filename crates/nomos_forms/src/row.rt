//! Rows: what a sum of coefficients times stars has at least to be.
use crate::shared_coefs::SharedCoefs;
use std::cmp::Ordering;

/// The row `coefs * stars >= least`, where `least` is a number of whole units.
#[derive(Drop, Debug)]
pub struct Row {
    pub coefs: SharedCoefs,
    pub least: i64,
}

impl PartialEq for Row {
    ghost use Rattle.std.specs.Cmp.Rules.{comparing};
    ghost use Rattle.std.proofs.Common.{rules};
    ghost use Rattle.nomos_forms.specs.RowOrder.{row_eq};

    ghost eq = { row_eq };

    ghost laws = { Prim.search (comparing, rules) };

    fn eq(&self, other: &Row) -> bool {
        self.coefs.is_same(&other.coefs) && self.least == other.least
    }
}

impl Eq for Row {
    ghost use Rattle.std.specs.Cmp.Rules.{comparing};
    ghost use Rattle.std.proofs.Common.{rules};

    ghost laws = { Prim.search (comparing, rules) };
}

impl PartialOrd for Row {
    ghost use Rattle.std.specs.Cmp.{po};
    ghost use Rattle.std.specs.Ordering.{as_partial_cmp};
    ghost use Rattle.nomos_forms.specs.RowOrder.{row_cmp, row_total, row_ties};

    ghost partial_cmp = { as_partial_cmp row_cmp };

    ghost laws = { po row_total row_ties };

    fn partial_cmp(&self, other: &Row) -> Option<Ordering> {
        Some(self.cmp(other))
    }
}

impl Ord for Row {
    ghost use Rattle.std.proofs.Common.{refl};
    ghost use Rattle.nomos_forms.specs.RowOrder.{row_cmp, row_total, row_ties};

    ghost cmp = { row_cmp };

    ghost total = { row_total };

    ghost matches_partial_cmp = { λ x y. refl };

    ghost matches_eq = { row_ties };

    /// By the first coefficient that differs, and then by the least.
    fn cmp(&self, other: &Row) -> Ordering {
        let coefs = self.coefs.order(&other.coefs);
        coefs.then(self.least.cmp(&other.least))
    }
}
