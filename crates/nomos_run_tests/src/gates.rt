//! Gates of tests: one that counts its calls, one that notes whom it was told of, and one at which workers wait for
//! each other.

use nomos_workers::gate::Gate;
use std::sync::atomic::{AtomicU64, Ordering};
use std::thread;

/// A gate that counts how often it is called.
#[derive(Drop)]
pub(crate) struct CountingGate {
    calls: AtomicU64,
}

impl CountingGate {
    /// A gate that nobody has called.
    pub(crate) fn new() -> CountingGate {
        CountingGate {
            calls: AtomicU64::new(0),
        }
    }

    /// How often it was called.
    pub(crate) fn calls(&self) -> u64 {
        self.calls.load(Ordering::SeqCst)
    }
}

impl Gate for CountingGate {
    fn before_eval(&self, _worker: u32, _pid: u32) {
        self.calls.fetch_add(1, Ordering::SeqCst);
    }
}

// A worker or a process as a bit of a word.
fn bit_of(number: u32) -> u64 {
    1 << (number % 64)
}

/// A gate that notes the processes whose terms are evaluated.
#[derive(Drop)]
pub(crate) struct NotingGate {
    pids: AtomicU64,
}

impl NotingGate {
    /// A gate that nobody has called.
    pub(crate) fn new() -> NotingGate {
        NotingGate {
            pids: AtomicU64::new(0),
        }
    }

    /// Whether it was called, and of these two processes alone.
    pub(crate) fn noted_none_but(&self, first: u32, second: u32) -> bool {
        let noted = self.pids.load(Ordering::SeqCst);
        noted != 0 && noted & !(bit_of(first) | bit_of(second)) == 0
    }
}

impl Gate for NotingGate {
    fn before_eval(&self, _worker: u32, pid: u32) {
        self.pids.fetch_or(bit_of(pid), Ordering::SeqCst);
    }
}

// So often a worker looks for the others at most.
const LOOKS: u32 = 100_000_000;

/// A gate that holds the first call of each worker until all workers have called.
#[derive(Drop)]
pub(crate) struct MeetingGate {
    all: u64,
    came: AtomicU64,
    met: AtomicU64,
}

impl MeetingGate {
    /// A gate for so many workers, which nobody has called.
    pub(crate) fn of(workers: u32) -> MeetingGate {
        let mut all = 0;
        for worker in 0..workers {
            all |= bit_of(worker) << 1;
        }
        MeetingGate {
            all,
            came: AtomicU64::new(0),
            met: AtomicU64::new(0),
        }
    }

    /// Whether the workers, whose numbers begin at 1, and no others, have found all others while they were held.
    pub(crate) fn have_met(&self) -> bool {
        self.met.load(Ordering::SeqCst) == self.all
    }

    // Looks until all workers have come.
    fn finds_all(&self) -> bool {
        for _ in 0..LOOKS {
            if self.came.load(Ordering::SeqCst) == self.all {
                return true;
            }
            thread::yield_now();
        }
        false
    }
}

impl Gate for MeetingGate {
    fn before_eval(&self, worker: u32, _pid: u32) {
        let own = bit_of(worker);
        let before = self.came.fetch_or(own, Ordering::SeqCst);
        if before & own == 0 && self.finds_all() {
            self.met.fetch_or(own, Ordering::SeqCst);
        }
    }
}

/// A gate at which all workers meet twice: in a batch whose processes have numbers up to one, and behind it.
#[derive(Drop)]
pub(crate) struct TwoBatchesGate {
    last_of_first: u32,
    first: MeetingGate,
    second: MeetingGate,
}

impl TwoBatchesGate {
    /// A gate for so many workers, which nobody has called; the first batch has processes up to this number.
    pub(crate) fn of(workers: u32, last_of_first: u32) -> TwoBatchesGate {
        TwoBatchesGate {
            last_of_first,
            first: MeetingGate::of(workers),
            second: MeetingGate::of(workers),
        }
    }

    /// Whether the workers, whose numbers begin at 1, and no others, have met in both batches.
    pub(crate) fn have_met_twice(&self) -> bool {
        self.first.have_met() && self.second.have_met()
    }
}

impl Gate for TwoBatchesGate {
    fn before_eval(&self, worker: u32, pid: u32) {
        if pid <= self.last_of_first {
            self.first.before_eval(worker, pid);
        } else {
            self.second.before_eval(worker, pid);
        }
    }
}
