//! Sinks in memory, one of which fails where it is told to.

ghost use Rattle.std.specs.Prelude.{◌≡◌, ◌<◌, Some, []};

use crate::outside::{Sink, WriteFault};
use std::alloc::Global;
use std::marker::Model;

/// A sink in memory that takes a bounded number of bytes a write and fails at the calls that it is told.
///
/// Contracts see the bytes that were written and the count of faults.
#[derive(Drop, Debug)]
pub struct MemSink {
    text: Vec<u8>,
    take: u32,
    fails: Vec<u32>,
    calls: u32,
    faults: u64,
}

impl Model for MemSink {
    ghost use Rattle.std.specs.Prelude.{◌<◌};
    ghost use Rattle.sp_base.specs.Memory.{Collected};

    ghost Value = { Collected };

    ghost view = { λ s. record { text = s.text.items; faults = s.faults } };

    ghost invariant = { λ s. 0 < s.take };
}

impl MemSink {
    /// An empty sink that takes at most `take` bytes a write, and fails at the writes whose numbers, from 1,
    /// are in `fails`.
    pub fn new(alloc: Global, take: u32, fails: Vec<u32>) -> MemSink
        requires { 0 < take }
        ensures { result ≡ record { text = []; faults = 0 } }
    {
        MemSink {
            text: Vec::new(alloc),
            take,
            fails,
            calls: 0,
            faults: 0,
        }
    }

    /// The bytes that were written.
    pub fn text(&self) -> &[u8]
        ensures { result.now ≡ self.now.text }
    {
        &self.text
    }
}

impl Sink for MemSink {
    ghost text = { λ s. Some s.text };

    ghost faults = { λ s. s.faults };

    fn write(&mut self, bytes: &[u8]) -> Result<usize, WriteFault> {
        self.calls = self.calls.saturating_add(1);
        if self.fails.contains(&self.calls) {
            self.faults = self.faults.saturating_add(1);
            return Err(WriteFault::Failed);
        }
        let count = bytes.len().min(self.take as usize);
        match self.text.extend_from_slice(&bytes[..count]) {
            Ok(()) => Ok(count),
            Err(_) => Err(WriteFault::OutOfMemory),
        }
    }
}

/// A sink in memory that takes every byte and never answers `Failed`.
///
/// Contracts see the bytes that were written. Its count of faults is always 0.
#[derive(Drop, Debug)]
pub struct SureSink {
    text: Vec<u8>,
}

impl Model for SureSink {
    ghost use Rattle.std.specs.Prelude.{ℕ, List};

    ghost Value = { List ℕ };

    ghost view = { λ s. s.text.items };
}

impl SureSink {
    /// An empty sink.
    pub fn new(alloc: Global) -> SureSink
        ensures { result ≡ [] }
    {
        SureSink {
            text: Vec::new(alloc),
        }
    }

    /// The bytes that were written.
    pub fn text(&self) -> &[u8]
        ensures { result.now ≡ self.now }
    {
        &self.text
    }
}

impl Sink for SureSink {
    ghost text = { λ s. Some s };

    ghost faults = { λ _. 0 };

    fn write(&mut self, bytes: &[u8]) -> Result<usize, WriteFault> {
        match self.text.extend_from_slice(bytes) {
            Ok(()) => Ok(bytes.len()),
            Err(_) => Err(WriteFault::OutOfMemory),
        }
    }
}
