//! Sources in memory, one of which fails where it is told to.

ghost use Rattle.std.specs.Prelude.{◌≡◌, ◌<◌, Some};

use crate::outside::{Failed, Source};
use std::marker::Model;

/// A source in memory that gives as many bytes as there is room for, and never fails.
///
/// Contracts see the bytes that are left. Its count of faults is always 0.
#[derive(Drop, Debug)]
pub struct SureSource {
    bytes: Vec<u8>,
    at: usize,
}

impl Model for SureSource {
    ghost use Rattle.std.specs.Prelude.{ℕ, List, ◌≤◌, drop, length};

    ghost Value = { List ℕ };

    ghost view = { λ s. drop s.at s.bytes.items };

    ghost invariant = { λ s. s.at ≤ length s.bytes.items };
}

impl SureSource {
    /// A source of these bytes.
    pub fn new(bytes: Vec<u8>) -> SureSource
        ensures { result ≡ bytes.items }
    {
        SureSource { bytes, at: 0 }
    }
}

impl Source for SureSource {
    ghost left = { λ s. Some s };

    ghost faults = { λ _. 0 };

    fn read(&mut self, buffer: &mut [u8]) -> Result<usize, Failed> {
        let count = buffer.len().min(self.bytes.len() - self.at);
        buffer[..count].copy_from_slice(&self.bytes[self.at..self.at + count]);
        self.at += count;
        Ok(count)
    }
}

/// A source in memory that gives its bytes in pieces and fails at the calls that it is told.
///
/// Contracts see the bytes that are left and the count of faults.
#[derive(Drop, Debug)]
pub struct MemSource {
    rest: SureSource,
    piece: u32,
    fails: Vec<u32>,
    calls: u32,
    faults: u64,
}

impl Model for MemSource {
    ghost use Rattle.std.specs.Prelude.{◌<◌};
    ghost use Rattle.sp_base.specs.Memory.{Supply};

    ghost Value = { Supply };

    ghost view = { λ s. record { left = s.rest; faults = s.faults } };

    ghost invariant = { λ s. 0 < s.piece };
}

impl MemSource {
    /// A source of these bytes that gives at most `piece` bytes a read, and fails at the reads whose numbers, from 1,
    /// are in `fails`.
    pub fn new(bytes: Vec<u8>, piece: u32, fails: Vec<u32>) -> MemSource
        requires { 0 < piece }
        ensures { result ≡ record { left = bytes.items; faults = 0 } }
    {
        MemSource {
            rest: SureSource::new(bytes),
            piece,
            fails,
            calls: 0,
            faults: 0,
        }
    }
}

impl Source for MemSource {
    ghost left = { λ s. Some s.left };

    ghost faults = { λ s. s.faults };

    fn read(&mut self, buffer: &mut [u8]) -> Result<usize, Failed> {
        self.calls = self.calls.saturating_add(1);
        if self.fails.contains(&self.calls) {
            self.faults = self.faults.saturating_add(1);
            return Err(Failed);
        }
        let room = buffer.len().min(self.piece as usize);
        self.rest.read(&mut buffer[..room])
    }
}
