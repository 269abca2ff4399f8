//! Which processes are evaluated outside a turn just now, and by whom.

// The most workers of a crew, and the opening pass, which does no work: passes are numbered from 0.
const PASSES: usize = 17;

/// The process that each worker evaluates outside its turn. It spares two workers the same evaluation: no clause rests
/// on it.
#[derive(Clone, Copy, PartialEq, Eq, Debug)]
pub struct Elsewhere {
    // By the number of a pass; no process has the number 0.
    pids: [u32; PASSES],
}

impl Elsewhere {
    /// Nobody evaluates.
    pub fn none() -> Elsewhere {
        Elsewhere { pids: [0; PASSES] }
    }

    /// The worker evaluates nothing outside its turn.
    pub fn put_down(&mut self, worker: u32) {
        if let Some(pid) = self.pids.get_mut(worker as usize) {
            *pid = 0;
        }
    }

    /// The worker goes on to evaluate this process outside its turn, and nobody else does.
    pub fn take(&mut self, worker: u32, pid: u32) {
        for other in self.pids.iter_mut() {
            if *other == pid {
                *other = 0;
            }
        }
        if let Some(own) = self.pids.get_mut(worker as usize) {
            *own = pid;
        }
    }

    /// Whether another worker than this one evaluates the process.
    pub fn is_with_another(&self, worker: u32, pid: u32) -> bool {
        for (other, task) in self.pids.iter().enumerate() {
            if *task == pid && other != worker as usize {
                return true;
            }
        }
        false
    }
}
