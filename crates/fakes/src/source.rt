//! A source in memory, which sees what a sink has flushed.

ghost use Rattle.std.specs.Prelude.{◌≡◌, ◌-◌, ◌^◌, Some};

use crate::limits::Limits;
use bt_streams::{Source, StreamFailed};
use std::alloc::Global;
use std::cell::Cell;

/// Notes how much was flushed, if a place is watched.
fn note(notes: &mut Vec<usize>, watched: &[usize], place: usize, handed_on: usize) {
    if watched.contains(&place) {
        let _ = notes.push(handed_on);
    }
}

/// Gives the bytes of a text, and notes, for some of its places, how many bytes a sink had flushed when they were read.
#[derive(Drop)]
pub struct Giver<'a> {
    len: usize,
    rest: &'a [u8],
    limits: Limits<'a>,
    handed_on: &'a Cell<usize>,
    notes: Vec<usize>,
    failures: u64,
    left: u64,
}

impl<'a> Giver<'a> {
    /// A source of this text with these limits. At watched places it notes `handed_on`, how much a sink has flushed.
    pub fn new(
        alloc: Global,
        text: &'a [u8],
        limits: Limits<'a>,
        handed_on: &'a Cell<usize>,
    ) -> Self
        ensures bytes { (⟦<Giver<'a> as Source>⟧.seen result).rest ≡ Some text.now }
        ensures failures { (⟦<Giver<'a> as Source>⟧.seen result).failures ≡ 0 }
        ensures left { (⟦<Giver<'a> as Source>⟧.seen result).reads_left ≡ 2 ^ 64 - 1 }
    {
        Giver {
            len: text.len(),
            rest: text,
            limits,
            handed_on,
            notes: Vec::new(alloc),
            failures: 0,
            left: u64::MAX,
        }
    }

    /// How many bytes it gave.
    pub fn given(&self) -> usize {
        self.len.saturating_sub(self.rest.len())
    }

    /// How many bytes had been flushed at each read of a watched place, in order.
    pub fn notes(&self) -> &[usize] {
        self.notes.as_slice()
    }
}

impl Source for Giver<'_> {
    ghost seen = { λ s. record { rest = Some s.rest.now; failures = s.failures; reads_left = s.left } };

    fn read(&mut self, buffer: &mut [u8]) -> Result<usize, StreamFailed> {
        let place = self.given();
        let handed_on = self.handed_on.get();
        note(&mut self.notes, self.limits.watched, place, handed_on);
        let until = self.limits.read_fails.saturating_sub(place);
        let fails = self.left == 0 || until == 0;
        self.left = self.left.saturating_sub(1);
        if fails {
            self.failures += 1;
            return Err(StreamFailed);
        }
        let wanted = buffer.len().min(self.rest.len()).min(until);
        let count = self.limits.moved(wanted);
        let (front, rest) = self.rest.split_at(count);
        buffer[..count].copy_from_slice(front);
        self.rest = rest;
        Ok(count)
    }

    fn failures(&self) -> u64 {
        self.failures
    }

    fn left(&self) -> u64 {
        self.left
    }
}
