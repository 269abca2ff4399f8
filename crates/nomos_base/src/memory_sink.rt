//! A sink over memory that fails when it is told to.

ghost use Rattle.std.specs.Prelude.{◌≡◌, ℕ, [], ◌<◌, ◌≤◌, length, Some, IfOk};
ghost use Rattle.nomos_base.specs.Memory.{fresh_plan, after_call, next_write, write_fails};
ghost use Rattle.nomos_base.specs.Sink.{Writes};

use crate::plan::FaultPlan;
use crate::sink::{Put, Sink};
use std::alloc::{AllocError, Global};
use std::marker::Model;

/// A sink that keeps what was written and tells it, takes it in pieces of one size, and fails at the
/// calls that it is told. It has room for so many bytes and takes no memory when it is written: a
/// write takes what still fits, and where no room is left it is a fault and counts as one. A failed
/// call appends nothing.
#[derive(Drop)]
pub struct MemorySink {
    bytes: Vec<u8>,
    room: usize,
    piece: usize,
    plan: FaultPlan,
}

impl Model for MemorySink {
    ghost use Rattle.std.specs.Prelude.{◌<◌, ◌≤◌, vec_len, vec_capacity};
    ghost use Rattle.nomos_base.specs.Memory.{Store};

    ghost Value = { Store };

    ghost view = { λ sink. record {
      written = sink.bytes.items;
      room = sink.room;
      piece = sink.piece;
      plan = sink.plan;
    } };

    ghost invariant = { λ sink.
        (vec_len sink.bytes ≤ sink.room) × (sink.room ≤ vec_capacity sink.bytes) × (0 < sink.piece) };
}

impl MemorySink {
    /// An empty sink with room for `room` bytes, which takes at most `piece` bytes in one call.
    /// `failing` has the numbers of the calls that fail; the first call has the number 1. The
    /// counter of calls stays at its last value, 2^64 - 1, and from then on no call fails by number.
    pub fn new(
        alloc: Global,
        room: usize,
        piece: usize,
        failing: Vec<u64>,
    ) -> Result<Self, AllocError>
        requires { 0 < piece }
        ensures written { IfOk result (λ sink. sink.written ≡ []) }
        ensures room { IfOk result (λ sink. sink.room ≡ room) }
        ensures piece { IfOk result (λ sink. sink.piece ≡ piece) }
        ensures plan { IfOk result (λ sink. sink.plan ≡ fresh_plan failing.items) }
    {
        Ok(MemorySink {
            bytes: Vec::with_capacity(alloc, room)?,
            room,
            piece,
            plan: FaultPlan::new(failing),
        })
    }

    /// The bytes that were written.
    pub fn written(&self) -> &[u8]
        ensures { result.now ≡ self.now.written }
    {
        &self.bytes
    }

    /// How many calls failed.
    pub fn faults(&self) -> u64
        ensures { result ≡ self.now.plan.faults }
    {
        self.plan.faults()
    }
}

impl Sink for MemorySink {
    ghost written = { λ sink. Some sink.written };

    ghost faults = { λ sink. sink.plan.faults };

    fn write(&mut self, from: &[u8]) -> Put
        requires { 0 < length from.now }
        ensures exact { result ≡ next_write self.old (length from.now) }
        ensures answer { Writes result from.now
            (Some self.old.written) (Some self.new.written) self.old.plan.faults self.new.plan.faults }
        ensures never_falls { self.old.plan.faults ≤ self.new.plan.faults }
        ensures room { self.new.room ≡ self.old.room }
        ensures piece { self.new.piece ≡ self.old.piece }
        ensures plan { self.new.plan ≡ after_call self.old.plan (write_fails self.old) }
    {
        let spare = self.room - self.bytes.len();
        if self.plan.call_fails(spare == 0) {
            return Put::Failed;
        }
        let count = from.len().min(self.piece.min(spare));
        self.bytes.extend_from_slice(&from[..count]).unwrap();
        Put::Wrote(count)
    }
}
