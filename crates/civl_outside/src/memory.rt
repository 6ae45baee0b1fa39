// A source and a sink in memory whose calls fail where they are told to.
ghost use Rattle.std.specs.Prelude.{◌≡◌, ◌≤◌, ◌<◌, [], Some, IfOk, length};
ghost use Rattle.civl_outside.specs.Took.{TakesFrom};
ghost use Rattle.civl_outside.specs.Wrote.{GivesTo, stalls_after_write};
ghost use Rattle.civl_outside.specs.FaultPlan.{fails_next, after_call};
ghost use Rattle.civl_outside.specs.MemorySource.{read_of};
ghost use Rattle.civl_outside.specs.MemorySink.{write_of};

use crate::{Memory, PlainSink, PlainSource, Sink, Source, Took, Wrote};
use std::alloc::Global;
use std::marker::Model;

/// Which calls of a device fail.
#[derive(Drop)]
struct FaultPlan {
    failing: Vec<u64>,
    calls: u64,
    faults: u64,
}

impl Model for FaultPlan {
    ghost use Rattle.civl_outside.specs.FaultPlan.{FaultPlanState};

    ghost Value = { FaultPlanState };

    ghost view = { λ p. record { failing = p.failing.items; calls = p.calls; faults = p.faults } };
}

impl FaultPlan {
    /// No call was made yet.
    fn new(failing: Vec<u64>) -> FaultPlan
        ensures { result ≡ record { failing = failing.items; calls = 0; faults = 0 } }
    {
        FaultPlan {
            failing,
            calls: 0,
            faults: 0,
        }
    }

    /// Counts one more call, and says whether it fails.
    fn next_fails(&mut self) -> bool
        ensures fails { result ≡ fails_next self.old }
        ensures after { self.new ≡ after_call self.old }
        ensures never_falls { self.old.faults ≤ self.new.faults }
    {
        let fails = self.failing.contains(&self.calls);
        self.calls = self.calls.saturating_add(1);
        if fails {
            self.faults = self.faults.saturating_add(1);
        }
        fails
    }
}

/// A source of these bytes that gives at most `piece` of them a call, and fails at the calls whose numbers are in
/// `failing`. A contract sees it as the bytes still to come, `piece` and the planned faults.
#[derive(Drop)]
pub struct MemorySource {
    source: PlainSource,
    piece: usize,
    plan: FaultPlan,
}

impl Model for MemorySource {
    ghost use Rattle.std.specs.Prelude.{◌≤◌};
    ghost use Rattle.civl_outside.specs.MemorySource.{MemorySourceState};

    ghost Value = { MemorySourceState };

    ghost view = { λ s. record { left = s.source; piece = s.piece; plan = s.plan } };

    ghost invariant = { λ s. 1 ≤ s.piece };
}

impl MemorySource {
    /// All of these bytes are still to come. Its calls are numbered from 0, and `piece` is at least 1.
    pub fn new(bytes: Vec<u8>, piece: usize, failing: Vec<u64>) -> MemorySource
        requires { 1 ≤ piece }
        ensures { result ≡ record {
          left = bytes.items;
          piece = piece;
          plan = record { failing = failing.items; calls = 0; faults = 0 };
        } }
    {
        MemorySource {
            source: PlainSource::new(bytes),
            piece,
            plan: FaultPlan::new(failing),
        }
    }
}

impl Source for MemorySource {
    ghost left = { λ s. Some s.left };

    ghost faults = { λ s. s.plan.faults };

    /// Fails where that is planned, and else gives what a source that never fails gives for at most `piece`.
    fn read(&mut self, into: &mut [u8]) -> Took
        requires { 0 < length into.old }
        ensures exact { result ≡ read_of self.old (length into.old) }
        ensures plan { self.new.plan ≡ after_call self.old.plan }
        ensures piece { self.new.piece ≡ self.old.piece }
        ensures bytes { TakesFrom (Some self.old.left) (Some self.new.left) result into.new }
        ensures never_falls { self.old.plan.faults ≤ self.new.plan.faults }
    {
        if self.plan.next_fails() {
            return Took::Failed;
        }
        let room = self.piece.min(into.len());
        self.source.read(&mut into[..room])
    }
}

/// A sink with a given room that fails at the calls whose numbers are in `failing`, and is else as a `PlainSink`
/// with this room. A contract sees it as the state of that sink and the planned faults.
#[derive(Drop)]
pub struct MemorySink {
    sink: PlainSink,
    plan: FaultPlan,
}

impl Model for MemorySink {
    ghost use Rattle.civl_outside.specs.MemorySink.{MemorySinkState};

    ghost Value = { MemorySinkState };

    ghost view = { λ s. record { sink = s.sink; plan = s.plan } };
}

impl MemorySink {
    /// Its calls are numbered from 0. Its memory is taken here.
    ///
    /// # Errors
    ///
    /// For want of memory.
    pub fn new(alloc: Global, room: usize, failing: Vec<u64>) -> Result<MemorySink, Memory>
        ensures { IfOk result (λ s. s ≡ record {
          sink = record { written = []; room = room; stalls = 0 };
          plan = record { failing = failing.items; calls = 0; faults = 0 };
        }) }
    {
        Ok(MemorySink {
            sink: PlainSink::new(alloc, room)?,
            plan: FaultPlan::new(failing),
        })
    }

    /// The bytes taken so far.
    pub fn bytes(&self) -> &[u8]
        ensures written { result.now ≡ self.now.sink.written }
        ensures bound { length result.now ≤ self.now.sink.room }
    {
        self.sink.bytes()
    }
}

impl Sink for MemorySink {
    ghost written = { λ s. Some s.sink.written };

    ghost faults = { λ s. s.plan.faults };

    ghost stalls = { λ s. s.sink.stalls };

    /// Fails where that is planned, and else takes what a `PlainSink` takes, and counts its stalls.
    fn write(&mut self, bytes: &[u8]) -> Wrote
        ensures exact { result ≡ write_of self.old (length bytes.now) }
        ensures plan { self.new.plan ≡ after_call self.old.plan }
        ensures room { self.new.sink.room ≡ self.old.sink.room }
        ensures counted { self.new.sink.stalls
            ≡ stalls_after_write self.old.sink.stalls result (length bytes.now) }
        ensures bytes { GivesTo (Some self.old.sink.written) (Some self.new.sink.written) result bytes.now }
        ensures faults_never_fall { self.old.plan.faults ≤ self.new.plan.faults }
        ensures stalls_never_fall { self.old.sink.stalls ≤ self.new.sink.stalls }
    {
        if self.plan.next_fails() {
            return Wrote::Failed;
        }
        self.sink.write(bytes)
    }
}
