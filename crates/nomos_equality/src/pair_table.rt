//! Pairs of types, a bit for each.
ghost use Rattle.std.specs.Prelude.{◌≡◌, ◌≤◌, ◌<◌, ◌+◌, ◌/◌, ◌⊎◌, ℕ, true, [], IsTrue, Contains, length, slice_index, IfOk, OnOk, OnErr};
ghost use Rattle.nomos_equality.specs.mirror.PairTables.{Puts, has_bit, bit_of, HasSameBits, HasWords, SetsOne, SetsPair};
ghost use Rattle.nomos_equality.specs.mirror.ToldPairs.{pairs_of};

use crate::told_pairs::{ToldPairs, same, then};
use nomos_ir::ids::TypeId;
use std::alloc::{AllocError, Global};
use std::marker::Model;

/// Pairs of types, which contracts see in the order in which they were put.
#[derive(Drop)]
pub(crate) struct PairTable {
    alloc: Global,
    /// For each left type the bits of the right ones, 64 in a word.
    rows: Vec<Vec<u64>>,
    put: ToldPairs,
}

impl Model for PairTable {
    ghost use Rattle.std.specs.Prelude.{List};
    ghost use Rattle.nomos_ir.specs.declared.ids.TypeId.{TypeId};
    ghost use Rattle.nomos_equality.specs.mirror.PairTables.{AreAmong};
    ghost use Rattle.nomos_equality.specs.mirror.ToldPairs.{pairs_of};

    ghost Value = { List (TypeId × TypeId) };

    ghost view = { λ table. pairs_of table.put };

    ghost invariant = { λ table. AreAmong table.rows.items (pairs_of table.put) };
}

/// How many bits a word has.
const BITS: usize = 64;

/// Whether a bit of a word is set.
fn has_bit(word: u64, at: usize) -> bool
    requires { at < 64 }
    ensures { result ≡ has_bit word at }
{
    word >> at & 1 == 1
}

/// The word with this bit set.
fn with_bit(word: u64, at: usize) -> u64
    requires { at < 64 }
    ensures { (i : ℕ) → i < 64 → has_bit result i ≡ true → (has_bit word i ≡ true) ⊎ (i ≡ at) }
{
    word | 1 << at
}

/// Whether the bit of a pair is set.
fn is_set(rows: &[Vec<u64>], left: usize, right: usize) -> bool
    ensures { result ≡ bit_of rows.now left right }
{
    let Some(row) = rows.get(left) else {
        return false;
    };
    match row.get(right / BITS) {
        Some(word) => has_bit(*word, right % BITS),
        None => false,
    }
}

/// Makes rows without bits, up to this one.
fn add_rows(alloc: Global, rows: &mut Vec<Vec<u64>>, left: usize) -> Result<(), AllocError>
    ensures same { HasSameBits rows.old.items rows.new.items }
    ensures there { OnOk result (left < length rows.new.items) }
{
    while rows.len() <= left {
        rows.push(Vec::new(alloc))?;
    }
    Ok(())
}

/// Fills a row up with zeros, to so many words.
fn fill_up(row: &mut Vec<u64>, words: usize) -> Result<(), AllocError>
    ensures same { (i : ℕ) → slice_index row.new.items i ≡ slice_index row.old.items i }
    ensures filled { OnOk result (words ≤ length row.new.items) }
{
    row.resize(words.max(row.len()), 0)
}

/// Makes room for so many words in a row.
fn make_room(
    alloc: Global,
    rows: &mut Vec<Vec<u64>>,
    left: usize,
    words: usize,
) -> Result<(), AllocError>
    ensures same { HasSameBits rows.old.items rows.new.items }
    ensures there { OnOk result (HasWords rows.new.items left words) }
{
    add_rows(alloc, rows, left)?;
    fill_up(&mut rows[left], words)
}

/// Sets a bit of a row.
fn set_in(row: &mut [u64], right: usize)
    requires { right / 64 < length row.old }
    ensures { SetsOne right row.old row.new }
{
    let word = right / BITS;
    row[word] = with_bit(row[word], right % BITS);
}

/// Sets the bit of a pair.
fn set(rows: &mut Vec<Vec<u64>>, left: usize, right: usize)
    requires { HasWords rows.old.items left (right / 64 + 1) }
    ensures { SetsPair left right rows.old.items rows.new.items }
{
    set_in(&mut rows[left], right);
}

impl PairTable {
    /// No pairs. It takes no memory.
    pub(crate) fn new(alloc: Global) -> PairTable
        ensures { result ≡ [] }
    {
        PairTable {
            alloc,
            rows: Vec::new(alloc),
            put: ToldPairs::Nothing,
        }
    }

    /// Whether a pair is known to be there.
    pub(crate) fn holds(&self, left: TypeId, right: TypeId) -> bool
        ensures { IsTrue result → Contains self.now (left, right) }
    {
        is_set(self.rows.as_slice(), left.0 as usize, right.0 as usize)
    }

    /// Puts a pair at the end that is not known to be there, and says whether it was not. The numbers of right types
    /// are mostly below the count.
    pub(crate) fn insert(
        &mut self,
        left: TypeId,
        right: TypeId,
        count: usize,
    ) -> Result<bool, AllocError>
        ensures ok { IfOk result (Puts self.old (left, right) self.new) }
        ensures err { OnErr result (self.new ≡ self.old) }
    {
        let (row, place) = (left.0 as usize, right.0 as usize);
        if is_set(self.rows.as_slice(), row, place) {
            return Ok(false);
        }
        let words = count.div_ceil(BITS).max(place / BITS + 1);
        make_room(self.alloc, &mut self.rows, row, words)?;
        set(&mut self.rows, row, place);
        self.put = then(&self.put, left, right);
        Ok(true)
    }

    /// What was put so far.
    pub(crate) fn told(&self) -> ToldPairs
        ensures { pairs_of result ≡ self.now }
    {
        same(&self.put)
    }

    /// Goes back to what was put before. No pair is known to be there then.
    pub(crate) fn back(&mut self, before: ToldPairs)
        ensures { self.new ≡ pairs_of before }
    {
        self.rows.clear();
        self.put = before;
    }
}
