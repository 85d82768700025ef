//! Readers and writers of the standard library as sources and sinks.

ghost use Rattle.std.specs.Prelude.{◌≡◌, ◌-◌, ◌^◌, true, false};

use crate::streams::{Sink, Source, StreamFailed};
use std::io::{BufReader, Read, Write};

/// A reader as a source, which can be read 2^64 - 1 times. A read that is interrupted is a failure.
#[derive(Drop)]
pub struct ReaderSource<R: Drop> {
    reader: R,
    failures: u64,
    left: u64,
}

impl<R: Read + Drop> ReaderSource<R> {
    /// A source that gives what the reader gives.
    pub fn new(reader: R) -> Self
        ensures reader { result.reader ≡ reader }
        ensures failures { result.failures ≡ 0 }
        ensures left { result.left ≡ 2 ^ 64 - 1 }
    {
        ReaderSource {
            reader,
            failures: 0,
            left: u64::MAX,
        }
    }
}

impl<R: Read + Drop> Source for ReaderSource<R> {
    ghost seen = { λ s. record { rest = R.remaining s.reader; failures = s.failures; reads_left = s.left } };

    fn read(&mut self, buffer: &mut [u8]) -> Result<usize, StreamFailed> {
        if self.left == 0 {
            self.failures += 1;
            return Err(StreamFailed);
        }
        self.left -= 1;
        match self.reader.read(buffer) {
            Ok(count) => Ok(count),
            Err(_) => {
                self.failures += 1;
                Err(StreamFailed)
            }
        }
    }

    fn failures(&self) -> u64 {
        self.failures
    }

    fn left(&self) -> u64 {
        self.left
    }
}

/// Whether input is there already that hasn't been read.
#[derive(Clone, Copy, Debug, PartialEq, Eq)]
pub enum Ahead {
    More,
    /// No input that is known of.
    Nothing,
}

/// What knows whether input is there already.
pub trait LooksAhead {
    fn ahead(&self) -> Ahead;
}

impl<R: Read + Drop> LooksAhead for ReaderSource<BufReader<R>> {
    fn ahead(&self) -> Ahead {
        if self.reader.buffer().is_empty() {
            Ahead::Nothing
        } else {
            Ahead::More
        }
    }
}

/// A writer as a sink. A write that is interrupted is a failure.
#[derive(Drop)]
pub struct WriterSink<W: Drop> {
    writer: W,
    failures: u64,
    flushed: bool,
}

impl<W: Write + Drop> WriterSink<W> {
    /// A sink that passes what it gets to the writer.
    pub fn new(writer: W) -> Self
        ensures writer { result.writer ≡ writer }
        ensures flushed { result.flushed ≡ true }
        ensures failures { result.failures ≡ 0 }
    {
        WriterSink {
            writer,
            failures: 0,
            flushed: true,
        }
    }
}

impl<W: Write + Drop> Sink for WriterSink<W> {
    ghost seen = { λ s. record { contents = W.contents s.writer; failures = s.failures; is_flushed = s.flushed } };

    #[tactic(auto, using(crate::proofs::WriteLemmas::keeps_none))]
    fn write(&mut self, bytes: &[u8]) -> Result<usize, StreamFailed> {
        self.flushed = false;
        match self.writer.write(bytes) {
            Ok(0) | Err(_) => {
                self.failures += 1;
                Err(StreamFailed)
            }
            Ok(count) => Ok(count),
        }
    }

    fn flush(&mut self) -> Result<(), StreamFailed> {
        match self.writer.flush() {
            Ok(()) => {
                self.flushed = true;
                Ok(())
            }
            Err(_) => {
                self.failures += 1;
                Err(StreamFailed)
            }
        }
    }

    fn failures(&self) -> u64 {
        self.failures
    }
}
