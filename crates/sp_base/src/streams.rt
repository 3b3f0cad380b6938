//! The trusted edge: any reader and writer of std, as a source and a sink.

ghost use Rattle.std.specs.Prelude.{◌≡◌, None};

use crate::outside::{Failed, Sink, Source, WriteFault};
use std::io::{Read, Write};
use std::marker::Model;

/// A reader of std as a source.
///
/// It is the trusted edge: it tells nothing of what it will give, so no contract speaks of its bytes. Contracts see
/// the count of its faults: how many reads have failed, up to the greatest number of 64 bits, where the count stays.
#[derive(Drop)]
pub struct StdSource<R: Read> {
    reader: R,
    faults: u64,
}

impl<R: Read> Model for StdSource<R> {
    ghost use Rattle.std.specs.Prelude.{ℕ};

    ghost Value = { ℕ };

    ghost view = { λ s. s.faults };
}

impl<R: Read> StdSource<R> {
    /// A source that reads from the reader, with no fault yet.
    pub fn new(reader: R) -> StdSource<R>
        ensures { result ≡ 0 }
    {
        StdSource { reader, faults: 0 }
    }
}

impl<R: Read> Source for StdSource<R> {
    ghost left = { λ _. None };

    ghost faults = { λ s. s };

    fn read(&mut self, buffer: &mut [u8]) -> Result<usize, Failed> {
        match self.reader.read(buffer) {
            Ok(count) => Ok(count),
            Err(_) => {
                self.faults = self.faults.saturating_add(1);
                Err(Failed)
            }
        }
    }
}

/// A writer of std as a sink, flushed after each write.
///
/// It is the trusted edge: it tells nothing of what was written, so no contract speaks of its bytes. Contracts see
/// the count of its faults: how many writes have failed, up to the greatest number of 64 bits, where the count stays.
/// A write that takes nothing of a piece that is not empty has failed, and so has one whose flush fails.
#[derive(Drop)]
pub struct StdSink<W: Write> {
    writer: W,
    faults: u64,
}

impl<W: Write> Model for StdSink<W> {
    ghost use Rattle.std.specs.Prelude.{ℕ};

    ghost Value = { ℕ };

    ghost view = { λ s. s.faults };
}

impl<W: Write> StdSink<W> {
    /// A sink that writes to the writer, with no fault yet.
    pub fn new(writer: W) -> StdSink<W>
        ensures { result ≡ 0 }
    {
        StdSink { writer, faults: 0 }
    }
}

impl<W: Write> Sink for StdSink<W> {
    ghost text = { λ _. None };

    ghost faults = { λ s. s };

    fn write(&mut self, bytes: &[u8]) -> Result<usize, WriteFault> {
        if let Ok(count) = self.writer.write(bytes)
            && (0 < count || bytes.is_empty())
            && self.writer.flush().is_ok()
        {
            return Ok(count);
        }
        self.faults = self.faults.saturating_add(1);
        Err(WriteFault::Failed)
    }
}
