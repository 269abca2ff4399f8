//! Scripts whose single lines are submitted by threads.
ghost use Rattle.std.specs.Prelude.{◌≡◌, ◌↔◌, ◌<◌, ◌≤◌, ◌++◌, All, IfOk, IsTrue, List, MatchOption, Ok, OnOk, Err, Result, Some, drop, length, map, slice_get, take, ℕ};
ghost use Rattle.nomos_pool.specs.Pooled.{FirstOther, IsSingle, IsSingleBatch, NotSingle, PoolsTo, first_line};
ghost use Rattle.nomos_script.specs.declared.item.ScriptItem.{ScriptItem as Said};
ghost use Rattle.nomos_script.specs.declared.item.ScriptItem.TheVariants as item;

use crate::gathering::gather;
use crate::pool::Submission;
use nomos_ir::items::Items;
use nomos_script::item::{Batch, ScriptItem, ScriptItems};
use nomos_script::script::Script;
use std::alloc::{AllocError, Global};
use std::sync::Wait;
use std::thread::Threads;

// Whether a batch is a single line `exec`.
fn is_single_batch(batch: &Batch) -> bool
    ensures { IsTrue result ↔ IsSingleBatch batch.now }
{
    match batch.starts.as_slice() {
        [start] => start.contract.is_none() && start.line == batch.line,
        _ => false,
    }
}

/// Whether an item is a single line `exec`. `begin`, one line and `end` are none.
pub fn is_single(item: &ScriptItem) -> bool
    ensures { IsTrue result ↔ IsSingle item.now }
{
    match item {
        ScriptItem::Batch(batch) => is_single_batch(batch),
        ScriptItem::Deposit { .. } | ScriptItem::Show { .. } => false,
    }
}

// The line of the text at which an item begins.
fn line_of(item: &ScriptItem) -> u32
    ensures { result ≡ first_line item.now }
{
    match item {
        ScriptItem::Batch(batch) => batch.line,
        ScriptItem::Deposit { line, .. } | ScriptItem::Show { line } => *line,
    }
}

// The place of the first single line, or the number of items.
fn first_single(items: &[ScriptItem]) -> usize
    ensures within { result ≤ length items.now }
    ensures before { All NotSingle (take result items.now) }
    ensures there { (one : Said) → slice_get items.now result ≡ Some one → IsSingle one }
{
    let mut place = 0;
    for item in items {
        if is_single(item) {
            return place;
        }
        place += 1;
    }
    place
}

// The line of the first item that is no single line.
fn first_other(items: &[ScriptItem]) -> Option<u32>
    ensures { MatchOption result (All IsSingle items.now) (FirstOther items.now) }
{
    for item in items {
        if !is_single(item) {
            return Some(line_of(item));
        }
    }
    None
}

// The batches of single lines.
fn batches_of(alloc: Global, items: Vec<ScriptItem>) -> Result<Vec<Batch>, AllocError>
    requires { All IsSingle items.items }
    ensures { IfOk result (λ batches. map item.Batch batches.items ≡ items.items) }
{
    let mut batches = Vec::new(alloc);
    for item in items {
        if let ScriptItem::Batch(batch) = item {
            batches.push(batch)?;
        }
    }
    Ok(batches)
}

// Puts the batches that were gathered behind items.
fn put_behind(
    items: &mut Vec<ScriptItem>,
    gathered: Vec<Submission<Batch>>,
) -> Result<(), AllocError>
    ensures { OnOk result (items.new.items ≡ items.old.items ++ map (λ s. item.Batch s.item) gathered.items) }
{
    for submission in gathered {
        items.push(ScriptItem::Batch(submission.item))?;
    }
    Ok(())
}

// Gathers the single lines that stand from a place on, and leaves the items before.
fn gather_from<R: Threads + Wait + Sync>(
    rt: &R,
    alloc: Global,
    items: &mut Vec<ScriptItem>,
    place: usize,
    threads: u32,
) -> Result<(), AllocError>
    requires some { 0 < threads }
    requires within { place ≤ length items.old.items }
    requires before { All NotSingle (take place items.old.items) }
    requires single { All IsSingle (drop place items.old.items) }
    ensures { OnOk result (PoolsTo threads items.old.items (Ok items.new.items)) }
{
    let batches = batches_of(alloc, items.split_off(place)?)?;
    put_behind(items, gather(rt, alloc, batches, threads)?)
}

/// What the items of a script come to where so many threads submit its single lines `exec`: the items before the first
/// one stay as they stand, and the single lines are gathered as `gather` says. Behind the first single line nothing
/// else may stand: the line at which the first other item begins is refused. Lines are counted from 1.
pub fn pool_items<R: Threads + Wait + Sync>(
    rt: &R,
    alloc: Global,
    items: ScriptItems,
    threads: u32,
) -> Result<Result<ScriptItems, u32>, AllocError>
    requires some { 0 < threads }
    ensures pools { IfOk result (PoolsTo threads items) }
    ensures alone { (line : ℕ) → result ≡ Ok (Err line)
        → (other : Result (List Said) ℕ) → PoolsTo threads items other → other ≡ Err line }
{
    let place = first_single(items.as_slice());
    if let Some(line) = first_other(&items.as_slice()[place..]) {
        return Ok(Err(line));
    }
    let mut items = items.into_vec();
    gather_from(rt, alloc, &mut items, place, threads)?;
    Ok(Ok(Items::of_vec(items)))
}

/// What a script comes to where so many threads submit its single lines `exec`: `pool_items` of its items, which make a
/// script again, or the line that is refused. Lines are counted from 1.
pub fn pool_script<R: Threads + Wait + Sync>(
    rt: &R,
    alloc: Global,
    script: Script,
    threads: u32,
) -> Result<Result<Script, u32>, AllocError>
    requires some { 0 < threads }
    ensures pools { IfOk result (PoolsTo threads script) }
    ensures alone { (line : ℕ) → result ≡ Ok (Err line)
        → (other : Result (List Said) ℕ) → PoolsTo threads script other → other ≡ Err line }
{
    match pool_items(rt, alloc, script.into_items(), threads)? {
        Ok(items) => Ok(Ok(Script::of_items(items))),
        Err(line) => Ok(Err(line)),
    }
}
