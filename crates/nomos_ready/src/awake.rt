//! The processes that may be ready, and those that were found asleep at `acquire`.
ghost use Rattle.std.specs.Prelude.{◌≡◌, ◌≢◌, ◌≤◌, ◌<◌, ◌+◌, ◌-◌, ◌⊎◌, ◌↔◌, ℕ, false, Some, IfSome, IsTrue};
ghost use Rattle.std.specs.BTreeSet.{contains};
ghost use Rattle.std.specs.Ordering.{nat_cmp};
ghost use Rattle.nomos_deeds.specs.Lowest.{FindsNext};

use std::alloc::Global;
use std::collections::BTreeSet;
use std::ops::Bound;

/// The processes that may be ready in a state, and those that were found asleep at `acquire`, by the shared names for
/// which they wait. So the next ready process is found among these. Of a crowd that waits for one contract few are told
/// as ones that may be ready when it opens, in place of all.
#[derive(Drop)]
pub struct Awake {
    pub(crate) ready: BTreeSet<u32>,
    // A shared name, and the number of a process that waits for it.
    pub(crate) waiting: BTreeSet<(u32, u32)>,
    // The shared names below the first new one that were acquired.
    pub(crate) acquired: BTreeSet<u32>,
    pub(crate) first_name: u32,
    // The number over which the next ready process is sought.
    pub(crate) sought: u32,
    // Memory was wanting, or it is not known who waits for a contract that opened: any process may be ready.
    pub(crate) lost: bool,
    // A process that is told as one that may be ready, so that to tell it again is nothing; or 0.
    pub(crate) top: u32,
    ghost top_is_told: { 0 < top → IsTrue (contains nat_cmp ready top) },
}

impl Awake {
    ghost use Rattle.nomos_ready.specs.Covering.{HasProxy, IsFollowed, IsNoted, MayBeReady};
    ghost use Rattle.nomos_ready.specs.mirror.ToldSets.{IsToldOver, Tells};

    /// No process, where names from this one on are new. It takes no memory.
    pub(crate) fn none(alloc: Global, first_name: u32) -> Awake
        ensures followed { (name : ℕ) → IsFollowed result name → first_name ≤ name }
        ensures noted { (name q : ℕ) → IsNoted result name q → ⊥ }
    {
        Awake {
            ready: BTreeSet::new(alloc),
            waiting: BTreeSet::new(alloc),
            acquired: BTreeSet::new(alloc),
            first_name,
            sought: 0,
            lost: false,
            top: 0,
        }
    }

    /// A process may be ready.
    #[inline(always)]
    pub(crate) fn wake(&mut self, pid: u32)
        ensures woken { MayBeReady self.new pid }
        ensures tells { Tells self.old self.new }
    {
        if pid == self.top && pid > 0 {
            return;
        }
        if self.ready.insert(pid).is_err() {
            self.lost = true;
        }
    }

    // Notes for which shared name a process waits, if there is one, and whether it could.
    fn note(&mut self, pid: u32, name: Option<u32>) -> bool
        ensures ready { (q : ℕ) → MayBeReady self.old q → MayBeReady self.new q }
        ensures noted { (n q : ℕ) → IsNoted self.old n q → IsNoted self.new n q }
        ensures back { (n q : ℕ) → IsNoted self.new n q → IsNoted self.old n q ⊎ ((name ≡ Some n) × (q ≡ pid)) }
        ensures followed { (n : ℕ) → IsFollowed self.new n → IsFollowed self.old n }
        ensures own { IsTrue result → IfSome name (λ n. IsNoted self.new n pid) }
        ensures same { self.new.ready ≡ self.old.ready }
        ensures lost { self.new.lost ≡ self.old.lost }
        ensures sought { self.new.sought ≡ self.old.sought }
    {
        match name {
            Some(name) => self.waiting.insert((name, pid)).is_ok(),
            None => true,
        }
    }

    /// A process is asleep, and waits for a shared name, if there is one. Where memory is wanting it is left as one
    /// that may be ready.
    pub(crate) fn settle(&mut self, pid: u32, name: Option<u32>)
        ensures others { (q : ℕ) → q ≢ pid → MayBeReady self.old q → MayBeReady self.new q }
        ensures noted { (n q : ℕ) → IsNoted self.old n q → IsNoted self.new n q }
        ensures back { (n q : ℕ) → IsNoted self.new n q → IsNoted self.old n q ⊎ ((name ≡ Some n) × (q ≡ pid)) }
        ensures followed { (n : ℕ) → IsFollowed self.new n → IsFollowed self.old n }
        ensures own { IfSome name (λ n. MayBeReady self.old pid → MayBeReady self.new pid ⊎ IsNoted self.new n pid) }
        ensures fewer { (q : ℕ) → IsTrue (contains nat_cmp self.new.ready q)
            → IsTrue (contains nat_cmp self.old.ready q) }
        ensures lost { self.new.lost ≡ self.old.lost }
        ensures sought { self.new.sought ≡ self.old.sought }
    {
        if self.note(pid, name) {
            if pid == self.top {
                self.top = 0;
            }
            self.ready.remove(&pid);
        }
    }

    /// A process waits for a shared name no more, if it did.
    #[inline(always)]
    pub(crate) fn forget(&mut self, pid: u32, name: Option<u32>)
        ensures ready { (q : ℕ) → MayBeReady self.old q → MayBeReady self.new q }
        ensures noted { (n q : ℕ) → IsNoted self.old n q → IsNoted self.new n q ⊎ (q ≡ pid) }
        ensures back { (n q : ℕ) → IsNoted self.new n q → IsNoted self.old n q }
        ensures gone { (n : ℕ) → name ≡ Some n → IsNoted self.new n pid → ⊥ }
        ensures followed { (n : ℕ) → IsFollowed self.new n → IsFollowed self.old n }
        ensures sought { self.new.sought ≡ self.old.sought }
    {
        if let Some(name) = name {
            self.waiting.remove(&(name, pid));
        }
    }

    /// The lowest process over a number that may be ready, where not all may be.
    pub(crate) fn next_over(&self, after: u32) -> Option<u32>
        ensures { FindsNext (λ q. IsTrue (contains nat_cmp self.now.ready q)) after result }
    {
        if let Some(lowest) = self.ready.first() {
            if *lowest > after {
                return Some(*lowest);
            }
        }
        let over = (Bound::Excluded(after), Bound::Unbounded);
        self.ready.range(over).next().copied()
    }

    // The lowest process over a number that is noted for a shared name.
    fn waiting_over(&self, name: u32, after: u32) -> Option<u32>
        ensures { FindsNext (IsNoted self.now name) after result }
    {
        let over = (Bound::Excluded((name, after)), Bound::Unbounded);
        let (first, pid) = self.waiting.range(over).next().copied()?;
        if first == name { Some(pid) } else { None }
    }

    // The lowest process over a number that is noted for a shared name may be ready.
    fn wake_over(&mut self, name: u32, after: u32)
        ensures told { (q : ℕ) → after < q → IsNoted self.old name q → IsToldOver self.new name after q }
        ensures tells { Tells self.old self.new }
    {
        if let Some(pid) = self.waiting_over(name, after) {
            self.wake(pid);
        }
    }

    /// Who is noted for a shared name may be ready: the lowest is told in place of all, and the lowest over the number
    /// that is sought.
    pub(crate) fn offer(&mut self, name: u32)
        ensures told { (q : ℕ) → 0 < q → IsNoted self.old name q → HasProxy self.new name q }
        ensures tells { Tells self.old self.new }
    {
        self.wake_over(name, 0);
        self.wake_over(name, self.sought);
    }

    // Whether it is known of each process whether it waits for a shared name.
    #[inline(always)]
    fn is_followed(&self, name: u32) -> bool
        ensures { IsTrue result ↔ IsFollowed self.now name }
    {
        self.first_name <= name || self.acquired.contains(&name)
    }

    /// A contract stands at `accept`: who is noted for its name may be ready; and everyone, where it is not known who
    /// waits.
    pub(crate) fn open(&mut self, name: u32)
        ensures told { (q : ℕ) → 0 < q → IsNoted self.old name q → MayBeReady self.new q ⊎ HasProxy self.new name q }
        ensures unknown { (q : ℕ) → ¬ (IsFollowed self.old name) → MayBeReady self.new q }
        ensures tells { Tells self.old self.new }
    {
        if self.is_followed(name) {
            self.offer(name);
        } else {
            self.lost = true;
        }
    }

    /// A shared name is acquired, at which all who wait for it may be ready: it is followed from now on.
    pub(crate) fn follow(&mut self, name: u32)
        ensures ready { (q : ℕ) → MayBeReady self.old q → MayBeReady self.new q }
        ensures same { self.new.waiting ≡ self.old.waiting }
        ensures followed { (n : ℕ) → n ≢ name → IsFollowed self.new n → IsFollowed self.old n }
        ensures sought { self.new.sought ≡ self.old.sought }
    {
        if !self.is_followed(name) && self.acquired.insert(name).is_err() {
            self.lost = true;
        }
    }

    /// Whether the lowest ready process over a number is found among those that are told.
    #[inline(always)]
    pub(crate) fn knows_over(&self, after: u32) -> bool
        ensures known { IsTrue result → self.now.lost ≡ false }
        ensures from { IsTrue result → (after ≡ 0) ⊎ (after ≡ self.now.sought) }
    {
        !self.lost && (after == 0 || after == self.sought)
    }

    /// The next ready process is this one, which is told: the one after it will be sought behind it.
    #[inline(always)]
    pub(crate) fn reach(&mut self, pid: u32)
        requires { IsTrue (contains nat_cmp self.old.ready pid) }
        ensures sought { self.new.sought ≡ pid - 1 }
        ensures ready { (q : ℕ) → MayBeReady self.old q → MayBeReady self.new q }
        ensures same { self.new.waiting ≡ self.old.waiting }
        ensures followed { (n : ℕ) → IsFollowed self.new n → IsFollowed self.old n }
    {
        self.sought = pid.saturating_sub(1);
        self.top = pid;
    }

    /// A process fires: where it was the next one that was sought, the one after it is sought now.
    #[inline(always)]
    pub(crate) fn pass(&mut self, pid: u32)
        ensures sought { (self.new.sought ≡ self.old.sought)
            ⊎ ((self.new.sought ≡ pid) × (self.old.sought + 1 ≡ pid)) }
        ensures ready { (q : ℕ) → MayBeReady self.old q → MayBeReady self.new q }
        ensures same { self.new.waiting ≡ self.old.waiting }
        ensures followed { (n : ℕ) → IsFollowed self.new n → IsFollowed self.old n }
    {
        if self.sought < pid && pid - self.sought == 1 {
            self.sought = pid;
        }
    }
}
