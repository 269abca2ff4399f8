//! Tests: a pool with room for one item, and a gathering whose threads meet.
ghost use Rattle.nomos_pool.specs.PoolPass.{IsSenderOf, IsTakerOf};

use crate::gates::MeetingGate;
use nomos_pool::gathering::{Shares, gather_dealt};
use nomos_pool::pool::{Opened, Pool, Submitted, Submitter, Taker, open};
use std::process::Abort;
use std::sync::Wait;

// Whether the one place of a queue is taken by the first item, and is free again once that is taken.
fn has_one_place<R: Wait>(
    rt: &R,
    pool: &Pool<u32>,
    sender: &mut Submitter<u32>,
    taker: &mut Taker<u32>,
) -> bool
    requires sender { IsSenderOf pool.now sender.old }
    requires taker { IsTakerOf pool.now taker.old }
{
    pool.take(rt, taker).is_none()
        && matches!(pool.submit(rt, sender, 5), Submitted::Yes)
        && matches!(pool.submit(rt, sender, 6), Submitted::Full(6))
        && matches!(pool.take(rt, taker), Some(taken) if taken.item == 5)
        && pool.take(rt, taker).is_none()
        && matches!(pool.submit(rt, sender, 7), Submitted::Yes)
}

// `Full` means that the queue is full, and None that it is empty.
#[test]
fn a_pool_has_room_for_as_much_as_it_says(rt: HostRuntime) {
    let Ok(opened) = open(rt.alloc(), 1, 1) else {
        panic!(rt; "memory was wanting")
    };
    let Opened {
        pool,
        mut taker,
        mut senders,
    } = opened;
    assert!(rt; senders.len() == 1);
    assert!(rt; has_one_place(&rt, &pool, &mut senders[0], &mut taker));
}

// Each hand has a thread of its own: all eight come to the gate before one of them submits its first item.
#[test]
fn the_threads_of_a_gathering_meet(rt: HostRuntime) {
    let gate = MeetingGate::new();
    let Ok(items) = Vec::from_slice(rt.alloc(), &[10u32, 11, 12, 13, 14, 15, 16, 17, 18]) else {
        panic!(rt; "memory was wanting")
    };
    let shares = Shares {
        threads: &[0, 1, 2, 3, 4, 5, 6, 7, 7],
        count: 8,
    };
    let Ok(gathered) = gather_dealt(&rt, &gate, rt.alloc(), items, shares) else {
        panic!(rt; "memory was wanting")
    };
    assert!(rt; gate.have_met());
    assert_eq!(rt; gathered.len(), 9);
}
