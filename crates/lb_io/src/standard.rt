//! Sources and sinks over the streams of std, which tell no bytes.
ghost use Rattle.std.specs.Prelude.{◌≡◌, ℕ, None};

use crate::stream::{Failed, Sink, Source};
use std::io::{Read, Write};
use std::marker::Model;

/// A source over a reader of std, such as standard input. What the system gives cannot be known,
/// so it tells no bytes. Contracts see it as the number of its faults.
#[derive(Drop)]
pub struct ReadSource<R: Drop> {
    reader: R,
    faults: u64,
}

impl<R: Drop> Model for ReadSource<R> {
    ghost Value = { ℕ };

    ghost view = { λ s. s.faults };
}

impl<R: Drop> ReadSource<R> {
    /// A source that has had no fault.
    pub fn new(reader: R) -> Self
        ensures { result ≡ 0 }
    {
        ReadSource { reader, faults: 0 }
    }
}

impl<R: Read + Drop> Source for ReadSource<R> {
    ghost left = { λ _. None };

    ghost faults = { λ s. s };

    fn read(&mut self, buf: &mut [u8]) -> Result<usize, Failed> {
        match self.reader.read(buf) {
            Ok(count) => Ok(count),
            Err(_) => {
                self.faults = self.faults.saturating_add(1);
                Err(Failed)
            }
        }
    }
}

/// A sink over a writer of std, such as standard output. What the system keeps cannot be known, so
/// it tells no bytes. Contracts see it as the number of its faults: of the writes that std refused
/// and of those that took nothing of a piece that was not empty.
#[derive(Drop)]
pub struct WriteSink<W: Drop> {
    writer: W,
    faults: u64,
}

impl<W: Drop> Model for WriteSink<W> {
    ghost Value = { ℕ };

    ghost view = { λ s. s.faults };
}

impl<W: Drop> WriteSink<W> {
    /// A sink that has had no fault.
    pub fn new(writer: W) -> Self
        ensures { result ≡ 0 }
    {
        WriteSink { writer, faults: 0 }
    }
}

impl<W: Write + Drop> Sink for WriteSink<W> {
    ghost taken = { λ _. None };

    ghost faults = { λ s. s };

    fn write(&mut self, bytes: &[u8]) -> Result<usize, Failed> {
        match self.writer.write(bytes) {
            Ok(count) if count > 0 || bytes.is_empty() => Ok(count),
            _ => {
                self.faults = self.faults.saturating_add(1);
                Err(Failed)
            }
        }
    }
}
