//! A sink in memory, for tests.

ghost use Rattle.std.specs.Prelude.{ℕ, Some, ◌≡◌, ◌≤◌, [], ◌++◌, length, IfOk, OnOk, OnErr};
ghost use Rattle.voice_outside.specs.Counters.{next_count, faults_after};
ghost use Rattle.voice_outside.specs.Causes.{HasCause, is_failed};
ghost use Rattle.voice_outside.specs.Memory.{FailsAsListed};

use crate::errors::OutsideError;
use crate::listed::next_call_fails;
use crate::sink::Sink;
use std::alloc::Global;
use std::marker::Model;

/// A sink in memory. It tells its bytes, takes each piece whole, and answers `Failed` exactly on the listed calls, counted from 1.
#[derive(Drop)]
pub struct MemSink {
    held: Vec<u8>,
    fails: Vec<u64>,
    calls: u64,
    faults: u64,
}

impl Model for MemSink {
    ghost use Rattle.voice_outside.specs.Memory.{SinkValue};

    ghost Value = { SinkValue };

    ghost view = { λ a. record { held = a.held.items; fails = a.fails.items; calls = a.calls; faults = a.faults } };
}

impl MemSink {
    /// An empty sink. The calls whose numbers are listed fail.
    pub fn new(alloc: Global, fails: Vec<u64>) -> MemSink
        ensures { result ≡ record { held = []; fails = fails.items; calls = 0; faults = 0 } }
    {
        MemSink {
            held: Vec::new(alloc),
            fails,
            calls: 0,
            faults: 0,
        }
    }

    /// What it has taken.
    pub fn bytes(&self) -> &[u8]
        ensures { result.now ≡ self.now.held }
    {
        &self.held
    }
}

impl Sink for MemSink {
    ghost contents = { λ s. Some s.held };

    ghost faults = { λ s. s.faults };

    ghost empty_takes = { λ s. 0 };

    fn write(&mut self, bytes: &[u8]) -> Result<usize, OutsideError>
        ensures whole { IfOk result (λ n. n ≡ length bytes.now) }
        ensures told { OnOk result (self.new.held ≡ self.old.held ++ bytes.now) }
        ensures err { OnErr result (self.new.held ≡ self.old.held) }
        ensures cause { HasCause self.old.faults self.new.faults result }
        ensures exactly { FailsAsListed self.old.fails self.old.calls result }
        ensures calls { self.new.calls ≡ next_count self.old.calls }
        ensures faults { self.new.faults ≡ faults_after (is_failed result) self.old.faults }
        ensures fails { self.new.fails ≡ self.old.fails }
    {
        if next_call_fails(&self.fails, &mut self.calls, &mut self.faults) {
            return Err(OutsideError::Failed);
        }
        self.held.extend_from_slice(bytes)?;
        Ok(bytes.len())
    }
}
