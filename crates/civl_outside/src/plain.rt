// A source and a sink in memory that never fail.
ghost use Rattle.std.specs.Prelude.{◌≡◌, ◌≤◌, ◌<◌, [], Some, IfOk, length};
ghost use Rattle.civl_outside.specs.Took.{TakesFrom};
ghost use Rattle.civl_outside.specs.Wrote.{GivesTo, stalls_after_write};
ghost use Rattle.civl_outside.specs.PlainSource.{given};
ghost use Rattle.civl_outside.specs.PlainSink.{accepted};

use crate::{Sink, Source, Took, Wrote};
use std::alloc::Global;
use std::marker::Model;

/// Memory was refused.
#[derive(Clone, Copy, Debug, PartialEq, Eq)]
pub struct Memory;

/// A source of these bytes that never fails. A contract sees it as the bytes still to come.
#[derive(Drop)]
pub struct PlainSource {
    bytes: Vec<u8>,
    at: usize,
}

impl Model for PlainSource {
    ghost use Rattle.std.specs.Prelude.{ℕ, ◌≤◌, List, drop, vec_len};

    ghost Value = { List ℕ };

    ghost view = { λ s. drop s.at s.bytes.items };

    ghost invariant = { λ s. s.at ≤ vec_len s.bytes };
}

impl PlainSource {
    /// All of these bytes are still to come.
    pub fn new(bytes: Vec<u8>) -> PlainSource
        ensures { result ≡ bytes.items }
    {
        PlainSource { bytes, at: 0 }
    }
}

impl Source for PlainSource {
    ghost left = { λ s. Some s };

    ghost faults = { λ s. 0 };

    /// Gives the end where no bytes are left, and else as many as there is room for or are left.
    fn read(&mut self, into: &mut [u8]) -> Took
        requires { 0 < length into.old }
        ensures exact { result ≡ given self.old (length into.old) }
        ensures bytes { TakesFrom (Some self.old) (Some self.new) result into.new }
    {
        let rest = self.bytes.len() - self.at;
        if rest == 0 {
            return Took::End;
        }
        let count = rest.min(into.len());
        into[..count].copy_from_slice(&self.bytes[self.at..self.at + count]);
        self.at += count;
        Took::Bytes(count)
    }
}

/// A sink with a given room that never fails. A contract sees it as the bytes written, the room in all and the
/// count of stalls.
#[derive(Drop)]
pub struct PlainSink {
    bytes: Vec<u8>,
    room: usize,
    stalls: u64,
}

impl Model for PlainSink {
    ghost use Rattle.std.specs.Prelude.{◌≤◌, vec_len, vec_capacity};
    ghost use Rattle.civl_outside.specs.PlainSink.{PlainSinkState};

    ghost Value = { PlainSinkState };

    ghost view = { λ s. record { written = s.bytes.items; room = s.room; stalls = s.stalls } };

    ghost invariant = { λ s. (vec_len s.bytes ≤ s.room) × (s.room ≤ vec_capacity s.bytes) };
}

impl PlainSink {
    /// A sink that takes at most `room` bytes in all. Its memory is taken here.
    ///
    /// # Errors
    ///
    /// For want of memory.
    pub fn new(alloc: Global, room: usize) -> Result<PlainSink, Memory>
        ensures { IfOk result (λ s. s ≡ record { written = []; room = room; stalls = 0 }) }
    {
        match Vec::with_capacity(alloc, room) {
            Ok(bytes) => Ok(PlainSink {
                bytes,
                room,
                stalls: 0,
            }),
            Err(_) => Err(Memory),
        }
    }

    /// The bytes taken so far.
    pub fn bytes(&self) -> &[u8]
        ensures written { result.now ≡ self.now.written }
        ensures bound { length result.now ≤ self.now.room }
    {
        &self.bytes
    }
}

impl Sink for PlainSink {
    ghost written = { λ s. Some s.written };

    ghost faults = { λ s. 0 };

    ghost stalls = { λ s. s.stalls };

    /// Takes as many bytes as there is room for, and counts a stall where it takes none of a piece that isn't empty.
    fn write(&mut self, bytes: &[u8]) -> Wrote
        ensures exact { result ≡ Wrote.Bytes (accepted self.old (length bytes.now)) }
        ensures room { self.new.room ≡ self.old.room }
        ensures counted { self.new.stalls ≡ stalls_after_write self.old.stalls result (length bytes.now) }
        ensures bytes { GivesTo (Some self.old.written) (Some self.new.written) result bytes.now }
        ensures stalls_never_fall { self.old.stalls ≤ self.new.stalls }
    {
        let count = bytes.len().min(self.room - self.bytes.len());
        if count == 0 && !bytes.is_empty() {
            self.stalls = self.stalls.saturating_add(1);
        }
        self.bytes.extend_from_slice(&bytes[..count]).unwrap();
        Wrote::Bytes(count)
    }
}
