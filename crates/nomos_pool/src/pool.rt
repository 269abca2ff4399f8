//! Pools: senders submit items to a bounded queue, and one taker takes them, of each sender in its order.
ghost use Rattle.std.specs.Prelude.{◌≡◌, ◌++◌, ◌∷◌, [], MatchOption, IfOk, ℕ, ◌<◌, ◌≤◌, length, slice_index_or, map, vec_len, vec_capacity};
ghost use Rattle.crossbeam_queue.specs.Passes.{view};
ghost use Rattle.nomos_pool.specs.PoolRule.{none_left, sent_by};
ghost use Rattle.nomos_pool.specs.PoolPass.{AreNewSendersOf, AreSendersOf, IsAlone, IsSenderOf, IsTakerOf, capacity_of, submitted_by, taken_by};

use crate::pool_rule::{Enrols, Left, Orderly, PoolView, Submits, Takes, TakesIn};
use crossbeam_queue::{Pass, RuledArrayQueue};
use std::alloc::{AllocError, Global};
use std::sync::Wait;

/// An item, with the number of the sender that submitted it, counted from 0.
#[derive(Drop)]
pub struct Submission<T> {
    pub sender: u32,
    pub item: T,
}

/// A bounded queue to which senders submit, from threads of their own, and from which one taker takes.
/// docs/PROMISES.md, "nomos_pool, submitting threads", says what of it is promised, and what is not.
#[derive(Drop)]
pub struct Pool<T: Drop> {
    queue: RuledArrayQueue<Submission<T>, PoolView<T>, Orderly, Global>,
    senders: u32,
}

/// Who submits. Each sender of a pool has a number of its own, below the number of senders.
#[derive(Drop)]
pub struct Submitter<T> {
    number: u32,
    pass: Pass<Submission<T>, PoolView<T>>,
}

/// Who takes. There is one of a pool, with room for all that the queue can hold, so that a pool ends without memory.
#[derive(Drop)]
pub struct Taker<T> {
    pass: Pass<Submission<T>, PoolView<T>>,
    room: Vec<Submission<T>>,
}

/// What became of an item: it was submitted, or the queue had no room for it.
#[derive(Drop)]
pub enum Submitted<T> {
    Yes,
    /// The item comes back, and the sender has submitted nothing by this call.
    Full(T),
}

/// A pool that was opened: its taker, and its senders, of which number k stands at place k.
#[derive(Drop)]
pub struct Opened<T: Drop> {
    pub pool: Pool<T>,
    pub taker: Taker<T>,
    pub senders: Vec<Submitter<T>>,
}

/// Opens a pool whose queue can hold so many items, with so many senders, that have submitted nothing.
pub fn open<T: Drop>(alloc: Global, capacity: usize, senders: u32) -> Result<Opened<T>, AllocError>
    requires { (0 < capacity) × (0 < senders) }
    ensures capacity { IfOk result (λ o. capacity_of o.pool ≡ capacity) }
    ensures taker { IfOk result (λ o. IsTakerOf o.pool o.taker × (taken_by o.taker ≡ [])) }
    ensures senders { IfOk result (λ o. AreNewSendersOf o.pool senders o.senders.items) }
{
    let mut made = Vec::with_capacity(alloc, senders as usize)?;
    let room = Vec::with_capacity(alloc, capacity)?;
    let (queue, mut pass) = RuledArrayQueue::ruled(alloc, capacity)?;
    for number in 0..senders {
        let own = queue.another::<Enrols>(&mut pass);
        made.push_reserved(Submitter { number, pass: own });
    }
    Ok(Opened {
        pool: Pool { queue, senders },
        taker: Taker { pass, room },
        senders: made,
    })
}

impl<T: Drop> Pool<T> {
    /// Submits an item, where the queue has room. It takes no memory. That `Full` comes of a full queue alone, and that
    /// what was submitted is ever taken, is not promised.
    pub fn submit<R: Wait>(&self, rt: &R, sender: &mut Submitter<T>, item: T) -> Submitted<T>
        requires sender { IsSenderOf self.now sender.old }
        ensures sender { IsSenderOf self.now sender.new × (sender.new.number ≡ sender.old.number) }
        ensures yes { result ≡ Submitted.Yes → submitted_by sender.new ≡ submitted_by sender.old ++ item ∷ [] }
        ensures full { (back : T) → result ≡ Submitted.Full back
            → (back ≡ item) × (submitted_by sender.new ≡ submitted_by sender.old) }
    {
        let item = Submission {
            sender: sender.number,
            item,
        };
        match self.queue.push_as::<Submits, R>(rt, &mut sender.pass, item) {
            Ok(()) => Submitted::Yes,
            Err(Submission { sender: _, item }) => Submitted::Full(item),
        }
    }

    /// Takes the oldest item. It takes no memory. That None comes of an empty queue alone is not promised.
    pub fn take<R: Wait>(&self, rt: &R, taker: &mut Taker<T>) -> Option<Submission<T>>
        requires taker { IsTakerOf self.now taker.old }
        ensures taker { IsTakerOf self.now taker.new }
        ensures taken { MatchOption result (taken_by taker.new ≡ taken_by taker.old)
            (λ i. taken_by taker.new ≡ taken_by taker.old ++ i ∷ []) }
    {
        self.queue.pop_as::<Takes, R>(rt, &mut taker.pass)
    }

    // Takes in all senders: what they submitted is known then.
    fn take_in(&self, pass: &mut Pass<Submission<T>, PoolView<T>>, senders: Vec<Submitter<T>>)
        requires taker { IsAlone self.now pass.old }
        requires none { (view pass.old).known ≡ [] }
        requires senders { AreSendersOf self.now senders.items }
        ensures taker { IsAlone self.now pass.new }
        ensures made { (view pass.new).made ≡ (view pass.old).made }
        ensures taken { (view pass.new).taken ≡ (view pass.old).taken }
        ensures known { (view pass.new).known ≡ map submitted_by senders.items }
    {
        for sender in senders {
            self.queue.absorb::<TakesIn>(pass, sender.pass);
        }
    }

    // Takes all that is left, for which there is room, where all senders are taken in.
    fn take_rest<R: Wait>(
        &self,
        rt: &R,
        pass: &mut Pass<Submission<T>, PoolView<T>>,
        room: &mut Vec<Submission<T>>,
    )
        requires taker { IsAlone self.now pass.old }
        requires all { length (view pass.old).known ≡ (view pass.old).made }
        requires empty { (room.old.items ≡ []) × (vec_len room.old ≡ 0) }
        requires free { capacity_of self.now ≤ vec_capacity room.old }
        ensures rest { none_left (view pass.old) room.new.items }
    {
        let count = self.queue.len_as::<Left, R>(rt, pass);
        for _ in 0..count {
            match self.queue.pop_as::<Left, R>(rt, pass) {
                Some(item) => room.push_reserved(item),
                None => return,
            }
        }
        self.queue.learn_as::<Left>(pass);
    }

    /// Ends the pool, and gives what is left. Of each sender, what was taken before and then what is left is all that
    /// it submitted, each once and in its order. It takes no memory.
    pub fn close<R: Wait>(
        self,
        rt: &R,
        taker: Taker<T>,
        senders: Vec<Submitter<T>>,
    ) -> Vec<Submission<T>>
        requires taker { IsTakerOf self taker }
        requires many { length senders.items ≡ self.senders }
        requires senders { AreSendersOf self senders.items }
        ensures each { (n : ℕ) → sent_by n (taken_by taker ++ result.items)
            ≡ slice_index_or (map submitted_by senders.items) n [] }
    {
        let Taker { mut pass, mut room } = taker;
        self.take_in(&mut pass, senders);
        self.take_rest(rt, &mut pass, &mut room);
        room
    }
}
