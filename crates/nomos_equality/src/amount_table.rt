//! Pairs of amounts, each once.
ghost use Rattle.std.specs.Prelude.{◌≡◌, [], length, take, IfOk, OnErr};
ghost use Rattle.nomos_equality.specs.mirror.PairTables.{PutsOnce, amount_key, pair_key};

use indexmap::IndexMap;
use nomos_ir::amount::Amount;
use nomos_ir::items::Items;
use nomos_ir::lists::AmountPairs;
use std::alloc::{AllocError, Global};
use std::marker::Model;

/// By what an amount is found: whether it is a star, and its number.
type AmountKey = (bool, u32);

/// Pairs of amounts, each once, in the order in which they were put, each found in one step.
#[derive(Drop)]
pub(crate) struct AmountTable {
    alloc: Global,
    pairs: IndexMap<(AmountKey, AmountKey), (Amount, Amount)>,
}

impl Model for AmountTable {
    ghost use Rattle.std.specs.Prelude.{List, map};
    ghost use Rattle.nomos_ir.specs.declared.amount.Amount.{Amount};
    ghost use Rattle.nomos_equality.specs.mirror.PairTables.{HasKeys};

    ghost Value = { List (Amount × Amount) };

    ghost view = { λ table. map (λ e. e.1) table.pairs.entries };

    ghost invariant = { λ table. HasKeys table.pairs.entries };
}

/// By what an amount is found.
fn amount_key(amount: Amount) -> AmountKey
    ensures { result ≡ amount_key amount }
{
    match amount {
        Amount::Written(units) => (false, units),
        Amount::Star(star) => (true, u32::from(star)),
    }
}

/// By what a pair of amounts is found.
fn pair_key(left: Amount, right: Amount) -> (AmountKey, AmountKey)
    ensures { result ≡ pair_key (left, right) }
{
    (amount_key(left), amount_key(right))
}

impl AmountTable {
    /// No pairs.
    pub(crate) fn new(alloc: Global) -> AmountTable
        ensures { result ≡ [] }
    {
        AmountTable {
            alloc,
            pairs: IndexMap::new(alloc),
        }
    }

    /// How many pairs there are.
    pub(crate) fn len(&self) -> usize
        ensures { result ≡ length self.now }
    {
        self.pairs.len()
    }

    /// Puts a pair at the end that is not there yet, and says whether it was not.
    pub(crate) fn insert(&mut self, left: Amount, right: Amount) -> Result<bool, AllocError>
        ensures ok { IfOk result (PutsOnce self.old (left, right) self.new) }
        ensures err { OnErr result (self.new ≡ self.old) }
    {
        let key = pair_key(left, right);
        if self.pairs.contains_key(&key) {
            return Ok(false);
        }
        self.pairs.insert(key, (left, right))?;
        Ok(true)
    }

    /// Leaves this many pairs, those that were put first.
    pub(crate) fn truncate(&mut self, count: usize)
        ensures { self.new ≡ take count self.old }
    {
        self.pairs.truncate(count);
    }

    /// The pairs, in their order.
    pub(crate) fn into_pairs(self) -> Result<AmountPairs, AllocError>
        ensures { IfOk result (λ pairs. pairs ≡ self) }
    {
        let AmountTable { alloc, pairs } = self;
        let pairs = pairs.into_iter().map(|(_, pair)| pair).collect(alloc)?;
        Ok(Items::of_vec(pairs))
    }
}
