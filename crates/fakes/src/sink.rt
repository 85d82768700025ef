//! A sink in memory.

ghost use Rattle.std.specs.Prelude.{◌≡◌, [], true, Some};

use crate::limits::Limits;
use bt_streams::{Sink, StreamFailed};
use std::alloc::Global;
use std::cell::Cell;

/// Keeps what it gets, as far as its limits let it, and shares how many bytes of it were flushed.
#[derive(Drop)]
pub struct Taker<'a> {
    bytes: Vec<u8>,
    limits: Limits<'a>,
    handed_on: &'a Cell<usize>,
    failures: u64,
    flushed: bool,
}

impl<'a> Taker<'a> {
    /// An empty sink with these limits. Each flush sets `handed_on` to the number of bytes that were written.
    pub fn new(alloc: Global, limits: Limits<'a>, handed_on: &'a Cell<usize>) -> Self
        ensures bytes { (⟦<Taker<'a> as Sink>⟧.seen result).contents ≡ Some [] }
        ensures failures { (⟦<Taker<'a> as Sink>⟧.seen result).failures ≡ 0 }
        ensures flushed { (⟦<Taker<'a> as Sink>⟧.seen result).is_flushed ≡ true }
    {
        Taker {
            bytes: Vec::new(alloc),
            limits,
            handed_on,
            failures: 0,
            flushed: true,
        }
    }

    /// The bytes that were written.
    pub fn bytes(&self) -> &[u8]
        ensures { Some result.now ≡ (⟦<Taker<'a> as Sink>⟧.seen self.now).contents }
    {
        self.bytes.as_slice()
    }
}

impl Sink for Taker<'_> {
    ghost seen = { λ s. record { contents = Some s.bytes.items; failures = s.failures; is_flushed = s.flushed } };

    fn write(&mut self, bytes: &[u8]) -> Result<usize, StreamFailed> {
        self.flushed = false;
        let room = self.limits.write_fails.saturating_sub(self.bytes.len());
        let count = self.limits.moved(bytes.len().min(room));
        if 0 < count && self.bytes.extend_from_slice(&bytes[..count]).is_ok() {
            return Ok(count);
        }
        self.failures += 1;
        Err(StreamFailed)
    }

    fn flush(&mut self) -> Result<(), StreamFailed> {
        self.handed_on.set(self.bytes.len());
        self.flushed = true;
        Ok(())
    }

    fn failures(&self) -> u64 {
        self.failures
    }
}
