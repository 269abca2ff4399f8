//! A gate of tests: one at which the threads of a gathering meet.

use nomos_pool::gate::Gate;
use std::sync::atomic::{AtomicU64, Ordering};
use std::thread;

// So often a thread looks for the others at most.
const LOOKS: u32 = 10_000_000;

// Each of eight hands as a bit of a word.
const ALL: u64 = 255;

/// A gate that holds each of eight hands until all eight have come.
#[derive(Drop)]
pub(crate) struct MeetingGate {
    came: AtomicU64,
    met: AtomicU64,
}

impl MeetingGate {
    /// A gate to which no hand has come.
    pub(crate) fn new() -> MeetingGate {
        MeetingGate {
            came: AtomicU64::new(0),
            met: AtomicU64::new(0),
        }
    }

    /// Whether each hand has found all others while it was held.
    pub(crate) fn have_met(&self) -> bool {
        self.met.load(Ordering::SeqCst) == ALL
    }

    // Looks until all hands have come.
    fn finds_all(&self) -> bool {
        for _ in 0..LOOKS {
            if self.came.load(Ordering::SeqCst) == ALL {
                return true;
            }
            thread::yield_now();
        }
        false
    }
}

impl Gate for MeetingGate {
    fn before_submits(&self, hand: usize) {
        let own = 1 << (hand as u64 % 64);
        self.came.fetch_or(own, Ordering::SeqCst);
        if self.finds_all() {
            self.met.fetch_or(own, Ordering::SeqCst);
        }
    }
}
