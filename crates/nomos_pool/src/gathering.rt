//! Items that are dealt to threads, each of which submits its own, gathered into one list.
ghost use Rattle.std.specs.Prelude.{◌≡◌, ◌<◌, ◌≤◌, All, IfOk, OnOk, [], length, map, vec_len, vec_capacity, ℕ, List};
ghost use Rattle.nomos_pool.specs.PoolPass.{AreSendersOf};
ghost use Rattle.nomos_pool.specs.Dealing.{IsFairGathering, sent_by_account};
ghost use Rattle.nomos_pool.specs.Gathering.{IsGathering};
ghost use Rattle.nomos_pool.specs.Hands.{AreEmptyHands, sender_of, IsReady, GivesTo, AreDealt};

use crate::dealing::deal_threads;
use crate::gate::{Gate, OpenGate};
use crate::hands::{Hand, hand_in_all};
use crate::pool::{Opened, Pool, Submission, Submitter, Taker, open};
use nomos_script::item::Batch;
use std::alloc::{AllocError, Global};
use std::sync::Wait;
use std::thread::Threads;

/// What is ready for threads: a pool with room for all items, the hands among which they are dealt, in order of number,
/// and room for the senders that come back. So nothing takes memory once a thread runs.
#[derive(Drop)]
pub(crate) struct Ready<T: Drop> {
    pub pool: Pool<T>,
    pub taker: Taker<T>,
    pub hands: Vec<Hand<T>>,
    pub room: Vec<Submitter<T>>,
}

// A hand for each sender, with no items.
fn empty_hands<T: Drop>(
    alloc: Global,
    senders: Vec<Submitter<T>>,
) -> Result<Vec<Hand<T>>, AllocError>
    ensures { IfOk result (λ hands. AreEmptyHands senders.items hands.items) }
{
    let mut hands = Vec::new(alloc);
    for sender in senders {
        hands.push(Hand {
            sender,
            items: Vec::new(alloc),
        })?;
    }
    Ok(hands)
}

// Puts an item before those of the hand with this number.
fn give<T: Drop>(hands: &mut [Hand<T>], number: usize, item: T) -> Result<(), AllocError>
    requires { number < length hands.old }
    ensures { OnOk result (GivesTo number item hands.old hands.new) }
{
    hands[number].items.push(item)?;
    Ok(())
}

// Deals items among hands, each to that of its thread.
fn deal<T: Drop>(
    mut items: Vec<T>,
    threads: &[usize],
    hands: &mut [Hand<T>],
) -> Result<(), AllocError>
    requires many { length threads.now ≡ length items.items }
    requires threads { All (λ j. j < length hands.old) threads.now }
    ensures { OnOk result (AreDealt threads.now items.items hands.old hands.new) }
{
    while let Some(item) = items.pop() {
        give(hands, threads[items.len()], item)?;
    }
    Ok(())
}

// Opens a pool for items and deals them among as many hands.
fn make_ready<T: Drop>(
    alloc: Global,
    items: Vec<T>,
    threads: &[usize],
    count: u32,
) -> Result<Ready<T>, AllocError>
    requires some { 0 < count }
    requires many { length threads.now ≡ length items.items }
    requires threads { All (λ j. j < count) threads.now }
    ensures { IfOk result (λ ready. IsReady count threads.now items.items ready) }
{
    let Opened {
        pool,
        taker,
        senders,
    } = open(alloc, items.len().max(1), count)?;
    let room = Vec::with_capacity(alloc, count as usize)?;
    let mut hands = empty_hands(alloc, senders)?;
    deal(items, threads, hands.as_mut_slice())?;
    Ok(Ready {
        pool,
        taker,
        hands,
        room,
    })
}

// The senders of hands, in their order, in the room that there is for them.
fn senders_of<T: Drop>(hands: Vec<Hand<T>>, mut room: Vec<Submitter<T>>) -> Vec<Submitter<T>>
    requires empty { (room.items ≡ []) × (vec_len room ≡ 0) }
    requires free { length hands.items ≤ vec_capacity room }
    ensures { result.items ≡ map sender_of hands.items }
{
    for hand in hands {
        room.push_reserved(hand.sender);
    }
    room
}

/// Which thread submits which item: at place k of `threads` stands that of the item at place k, counted from 0, and
/// there are `count` threads.
#[derive(Clone, Copy, Drop, Debug)]
pub struct Shares<'a> {
    pub threads: &'a [usize],
    pub count: u32,
}

/// Gathers items that threads submit, each thread those that are dealt to it, in their order, from a thread of its own
/// where one can be made, which calls the gate before its first item. All memory is taken before the first thread
/// starts. That threads run at once is not promised.
pub fn gather_dealt<T: Drop + Send, G: Gate, R: Threads + Wait + Sync>(
    rt: &R,
    gate: &G,
    alloc: Global,
    items: Vec<T>,
    shares: Shares<'_>,
) -> Result<Vec<Submission<T>>, AllocError>
    requires some { 0 < shares.count }
    requires many { length shares.threads.now ≡ length items.items }
    requires threads { All (λ j. j < shares.count) shares.threads.now }
    ensures { IfOk result (λ gathered. IsGathering shares.entry.count shares.entry.threads.now items.items
        gathered.items) }
{
    let Ready {
        pool,
        taker,
        hands,
        room,
    } = make_ready(alloc, items, shares.threads, shares.count)?;
    let hands = hand_in_all(rt, gate, &pool, hands);
    Ok(pool.close(rt, taker, senders_of(hands, room)))
}

/// Gathers batches that so many threads submit: they are dealt by the account that sends them, by first appearance and
/// modulo the number of threads, and each thread submits its own, in the order of the script, from a thread of its own
/// where one can be made. So of each account, what it sends keeps its order; between accounts none is promised.
pub fn gather<R: Threads + Wait + Sync>(
    rt: &R,
    alloc: Global,
    batches: Vec<Batch>,
    threads: u32,
) -> Result<Vec<Submission<Batch>>, AllocError>
    requires some { 0 < threads }
    ensures fair { IfOk result (λ gathered. IsFairGathering threads batches.items gathered.items) }
    ensures accounts { IfOk result (λ gathered. (name : List ℕ)
        → sent_by_account name (map (λ s. s.item) gathered.items) ≡ sent_by_account name batches.items) }
{
    let dealt = deal_threads(alloc, batches.as_slice(), threads)?;
    let shares = Shares {
        threads: dealt.as_slice(),
        count: threads,
    };
    gather_dealt(rt, &OpenGate, alloc, batches, shares)
}
