//! Items that are handed in, each hand by a sender and in a thread of its own.
ghost use Rattle.std.specs.Prelude.{◌≡◌, ◌<◌, ◌++◌, ◌∷◌, [], All, length, reverse};
ghost use Rattle.std.specs.Thread.{IsSend, IsSync};
ghost use Rattle.nomos_pool.specs.PoolPass.{IsSenderOf, submitted_by};
ghost use Rattle.nomos_pool.specs.Hands.{HandsIn, IsHandOf, AllHandIn};

use crate::gate::Gate;
use crate::pool::{Pool, Submitted, Submitter};
use std::sync::Wait;
use std::thread;
use std::thread::Threads;

/// What one thread hands in: a sender, and its items, the last one first, so that the next one is popped.
#[derive(Drop)]
pub struct Hand<T> {
    pub sender: Submitter<T>,
    pub items: Vec<T>,
}

// Submits an item, again and again while the queue is full.
fn submit_when_room<T: Drop, R: Wait>(
    rt: &R,
    pool: &Pool<T>,
    sender: &mut Submitter<T>,
    mut item: T,
)
    requires sender { IsSenderOf pool.now sender.old }
    ensures sender { IsSenderOf pool.now sender.new × (sender.new.number ≡ sender.old.number) }
    ensures submitted { submitted_by sender.new ≡ submitted_by sender.old ++ item ∷ [] }
{
    for _ in rt.forever() {
        match pool.submit(rt, sender, item) {
            Submitted::Yes => return,
            Submitted::Full(back) => {
                item = back;
                thread::yield_now();
            }
        }
    }
    unreachable!()
}

// Calls the gate for the hand at a place, and submits all its items.
fn hand_in<T: Drop, G: Gate, R: Wait>(
    rt: &R,
    gate: &G,
    pool: &Pool<T>,
    place: usize,
    hand: &mut Hand<T>,
)
    requires { IsHandOf pool.now hand.old }
    ensures { HandsIn pool.now hand.old hand.new }
{
    gate.before_submits(place);
    while let Some(item) = hand.items.pop() {
        submit_when_room(rt, pool, &mut hand.sender, item);
    }
}

/// Submits all items of all hands, of each hand in their order, each hand in a thread of its own where one can be made,
/// which calls the gate first. While the queue is full, a hand waits for a taker.
pub fn hand_in_all<T: Drop + Send, G: Gate, R: Threads + Wait + Sync>(
    rt: &R,
    gate: &G,
    pool: &Pool<T>,
    mut hands: Vec<Hand<T>>,
) -> Vec<Hand<T>>
    requires some { 0 < length hands.items }
    requires hands { All (IsHandOf pool.now) hands.items }
    ensures { AllHandIn pool.now hands.items result.items }
{
    let threads = hands.len();
    thread::for_each_mut(
        rt,
        hands.as_mut_slice(),
        threads,
        &|place, hand|
            requires { IsSync G.row × IsHandOf pool.now hand.old }
            ensures { HandsIn pool.entry.now hand.old hand.new }
        { hand_in(rt, gate, pool, place, hand) },
    );
    hands
}
