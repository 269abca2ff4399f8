//! A source and a sink that never fail.

ghost use Rattle.std.specs.Prelude.{◌≡◌, ℕ, ◌<◌, ◌≤◌, length, Some, None, take, min};
ghost use Rattle.nomos_base.specs.Memory.{piece_of};
ghost use Rattle.nomos_base.specs.Source.{Reads};
ghost use Rattle.nomos_base.specs.Sink.{Writes};

use crate::sink::{Put, Sink};
use crate::source::{Got, Source};
use std::marker::Model;

/// A source over bytes, which tells what is left and never fails.
#[derive(Drop)]
pub struct SureSource {
    bytes: Vec<u8>,
    taken: usize,
}

impl Model for SureSource {
    ghost use Rattle.std.specs.Prelude.{ℕ, List, ◌≤◌, drop, vec_len};

    ghost Value = { List ℕ };

    ghost view = { λ source. drop source.taken source.bytes.items };

    ghost invariant = { λ source. source.taken ≤ vec_len source.bytes };
}

impl SureSource {
    /// A source that gives these bytes.
    pub fn new(bytes: Vec<u8>) -> Self
        ensures { result ≡ bytes.items }
    {
        SureSource { bytes, taken: 0 }
    }

    /// The bytes that are left.
    pub fn left(&self) -> &[u8]
        ensures { result.now ≡ self.now }
    {
        &self.bytes[self.taken..]
    }

    /// Reads no more than `most` bytes.
    pub(crate) fn read_most(&mut self, into: &mut [u8], most: usize) -> Got
        requires space { 0 < length into.old }
        requires some { 0 < most }
        ensures exact { result ≡ piece_of self.old (min (length into.old) most) }
        ensures answer { Reads result into.new (Some self.old) (Some self.new) 0 0 }
    {
        let count = copy_front(&self.bytes[self.taken..], into, most);
        if count == 0 {
            return Got::End;
        }
        self.taken += count;
        Got::Got(count)
    }
}

impl Source for SureSource {
    ghost left = { λ source. Some source };

    ghost faults = { λ _. 0 };

    fn read(&mut self, into: &mut [u8]) -> Got
        requires { 0 < length into.old }
        ensures exact { result ≡ piece_of self.old (length into.old) }
        ensures answer { Reads result into.new (Some self.old) (Some self.new) 0 0 }
    {
        let most = into.len();
        self.read_most(into, most)
    }
}

// Copies the front of `from`, as much as fits and no more than `most` bytes. It tells how many.
fn copy_front(from: &[u8], into: &mut [u8], most: usize) -> usize
    ensures count { result ≡ min (min (length into.old) most) (length from.now) }
    ensures copied { take result into.new ≡ take result from.now }
{
    let count = into.len().min(most).min(from.len());
    into[..count].copy_from_slice(&from[..count]);
    count
}

/// A sink that takes every byte and never fails. It keeps none, and so it does not tell what was
/// written: a sink that tells its bytes needs memory for them, and one day finds none.
#[derive(Drop)]
pub struct SureSink;

impl Sink for SureSink {
    ghost written = { λ _. None };

    ghost faults = { λ _. 0 };

    fn write(&mut self, from: &[u8]) -> Put
        requires { 0 < length from.now }
        ensures exact { result ≡ Put.Wrote (length from.now) }
        ensures answer { Writes result from.now None None 0 0 }
    {
        Put::Wrote(from.len())
    }
}
