//! A source over memory that fails when it is told to.

ghost use Rattle.std.specs.Prelude.{◌≡◌, ℕ, ◌<◌, ◌≤◌, length, Some};
ghost use Rattle.nomos_base.specs.Memory.{fresh_plan, fails_next, after_call, next_read};
ghost use Rattle.nomos_base.specs.Source.{Reads};

use crate::plan::FaultPlan;
use crate::source::{Got, Source};
use crate::sure::SureSource;
use std::marker::Model;

/// A source over bytes, which tells what is left, gives them in pieces of one size, and fails at the
/// calls that it is told. A failed call takes nothing.
#[derive(Drop)]
pub struct MemorySource {
    bytes: SureSource,
    piece: usize,
    plan: FaultPlan,
}

impl Model for MemorySource {
    ghost use Rattle.std.specs.Prelude.{◌<◌};
    ghost use Rattle.nomos_base.specs.Memory.{Supply};

    ghost Value = { Supply };

    ghost view = { λ source. record { left = source.bytes; piece = source.piece; plan = source.plan } };

    ghost invariant = { λ source. 0 < source.piece };
}

impl MemorySource {
    /// A source that gives these bytes, at most `piece` in one call. `failing` has the numbers of
    /// the calls that fail; the first call has the number 1. The counter of calls stays at its last
    /// value, 2^64 - 1, and from then on no call fails.
    pub fn new(bytes: Vec<u8>, piece: usize, failing: Vec<u64>) -> Self
        requires { 0 < piece }
        ensures left { result.left ≡ bytes.items }
        ensures piece { result.piece ≡ piece }
        ensures plan { result.plan ≡ fresh_plan failing.items }
    {
        MemorySource {
            bytes: SureSource::new(bytes),
            piece,
            plan: FaultPlan::new(failing),
        }
    }

    /// The bytes that are left.
    pub fn left(&self) -> &[u8]
        ensures { result.now ≡ self.now.left }
    {
        self.bytes.left()
    }

    /// How many calls failed.
    pub fn faults(&self) -> u64
        ensures { result ≡ self.now.plan.faults }
    {
        self.plan.faults()
    }
}

impl Source for MemorySource {
    ghost left = { λ source. Some source.left };

    ghost faults = { λ source. source.plan.faults };

    fn read(&mut self, into: &mut [u8]) -> Got
        requires { 0 < length into.old }
        ensures exact { result ≡ next_read self.old (length into.old) }
        ensures answer { Reads result into.new
            (Some self.old.left) (Some self.new.left) self.old.plan.faults self.new.plan.faults }
        ensures never_falls { self.old.plan.faults ≤ self.new.plan.faults }
        ensures piece { self.new.piece ≡ self.old.piece }
        ensures plan { self.new.plan ≡ after_call self.old.plan (fails_next self.old.plan) }
    {
        if self.plan.call_fails(false) {
            return Got::Failed;
        }
        self.bytes.read_most(into, self.piece)
    }
}
