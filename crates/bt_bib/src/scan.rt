//! Scans of a text: runs of bytes and signs.
//!
//! A scan takes a place and returns the place it reaches; nothing moves in the reader itself. So a caller that meets a fault
//! still has the places before it.

ghost use Rattle.std.specs.Prelude.{◌≡◌, ◌<◌, ◌≤◌, ◌+◌, count_by, drop, length, take};
ghost use Rattle.bt_text.specs.ByteTests.{is_line_feed};
ghost use Rattle.bt_bib.specs.Spot.{after_byte, here, spot_after};
ghost use Rattle.bt_bib.specs.inner.Spot.{IsAhead, IsIn};
ghost use Rattle.bt_bib.specs.Scan.{closing_sign, first, is_key_byte, after_run, run, sign, after_white};
ghost use Rattle.bt_bib.specs.inner.Scan.{has};
ghost use Rattle.bt_bib.specs.inner.Stop.{Finds, Makes};

use crate::fault::ItemFault;
use crate::item::Closing;
use crate::reader::Reader;
use crate::spot::Spot;
use crate::stop::ReadStop;
use bt_text::{Bytes, Excerpt, Shared, is_digit, is_white};
use memchr::memchr;
use std::alloc::AllocError;

/// A class of bytes, which form runs.
#[derive(Clone, Copy, PartialEq, Eq)]
pub enum Class {
    White,
    Digit,
    /// The bytes of a key in an item with this closing sign.
    Key(Closing),
}

impl Closing {
    pub(crate) fn sign(self) -> u8
        ensures { result ≡ closing_sign self }
    {
        match self {
            Closing::Brace => b'}',
            Closing::Parenthesis => b')',
        }
    }
}

fn is_key_byte(close: Closing, byte: u8) -> bool
    ensures { result ≡ is_key_byte close byte }
{
    match close {
        Closing::Brace => !(is_white(byte) || byte == b',' || byte == b'}'),
        Closing::Parenthesis => !(is_white(byte) || byte == b','),
    }
}

impl Class {
    #[tactic(auto, using(crate::proofs::RunLemmas::white_low))]
    pub fn has(self, byte: u8) -> bool
        ensures { result ≡ has self byte }
    {
        match self {
            // Most bytes are beyond the space, and for these one comparison is enough.
            Class::White => byte <= b' ' && is_white(byte),
            Class::Digit => is_digit(byte),
            Class::Key(close) => is_key_byte(close, byte),
        }
    }
}

fn line_ends(bytes: &[u8]) -> usize
    ensures { result ≡ count_by is_line_feed bytes.now }
{
    let mut count = 0;
    let mut rest = bytes;
    'lines: while let Some(place) = memchr(b'\n', rest) {
        count += 1;
        rest = &rest[place + 1..];
    }
    count
}

impl Reader<'_> {
    /// The byte at a place, none at the end.
    pub fn peek(&self, at: Spot) -> Option<u8>
        ensures { result ≡ first (drop at.place self.now.text.now) }
    {
        self.text.get(at.place).copied()
    }

    /// The place after one byte, or this one at the end.
    pub fn after_byte(&self, at: Spot) -> Spot
        requires { IsIn self.now.text.now at }
        ensures value { here self.now.text.now result ≡ after_byte (here self.now.text.now at) }
        ensures inside { IsAhead self.now.text.now at result }
    {
        if at.place < self.text.len() {
            at.after(self.text[at.place])
        } else {
            at
        }
    }

    /// The place `count` bytes after a place.
    pub fn ahead(&self, from: Spot, count: usize) -> Spot
        requires at { IsIn self.now.text.now from }
        requires within { from.place + count ≤ length self.now.text.now }
        ensures value { result ≡ spot_after (take count (drop from.place self.now.text.now)) from }
        ensures inside { IsAhead self.now.text.now from result }
    {
        let end = from.place + count;
        let lines = line_ends(&self.text[from.place..end]);
        Spot {
            place: end,
            line: from.line + lines,
        }
    }

    /// The place after the longest run of bytes of a class.
    pub fn after_run(&self, from: Spot, class: Class) -> Spot
        requires { IsIn self.now.text.now from }
        ensures value { here self.now.text.now result ≡ after_run (has class) (here self.now.text.now from) }
        ensures inside { IsAhead self.now.text.now from result }
    {
        let mut at = from;
        'bytes: while at.place < self.text.len() && class.has(self.text[at.place]) {
            at = at.after(self.text[at.place]);
        }
        at
    }

    /// The place after the white space.
    pub fn after_white(&self, from: Spot) -> Spot
        requires { IsIn self.now.text.now from }
        ensures value { here self.now.text.now result ≡ after_white (here self.now.text.now from) }
        ensures inside { IsAhead self.now.text.now from result }
    {
        self.after_run(from, Class::White)
    }

    /// The longest run of bytes of a class.
    #[tactic(auto, using(crate::proofs::RunLemmas::run_taken))]
    pub fn run(&self, from: Spot, class: Class) -> Result<(Shared<Bytes>, Spot), AllocError>
        requires { IsIn self.now.text.now from }
        ensures { Makes self.now.text.now from result
            (run (has class) (here self.now.text.now from), after_run (has class) (here self.now.text.now from)) }
    {
        let end = self.after_run(from, class);
        Ok((
            Shared::<Bytes>::copied(self.alloc, &self.text[from.place..end.place])?,
            end,
        ))
    }

    /// The longest run of digits.
    #[tactic(auto, using(crate::proofs::RunLemmas::run_taken))]
    pub fn digits(&self, from: Spot) -> Result<(Excerpt, Spot), AllocError>
        requires { IsIn self.now.text.now from }
        ensures { Makes self.now.text.now from result
            (run (has Class.Digit) (here self.now.text.now from), after_run (has Class.Digit) (here self.now.text.now from)) }
    {
        let end = self.after_run(from, Class::Digit);
        Ok((self.excerpt(from.place, end.place)?, end))
    }

    /// The place after the byte here, which must be `expected`; otherwise the reader stops with `fault`.
    #[tactic(auto, unfolding(crate::specs::Scan::sign))]
    pub fn sign(&self, from: Spot, expected: u8, fault: ItemFault) -> Result<Spot, ReadStop>
        requires { IsIn self.now.text.now from }
        ensures { Finds self.now.text.now from result (sign expected fault (here self.now.text.now from)) }
    {
        let Some(byte) = self.peek(from) else {
            return Err(ReadStop::Stopped(ItemFault::EndOfFile, from));
        };
        if byte == expected {
            Ok(self.after_byte(from))
        } else {
            Err(ReadStop::Stopped(fault, from))
        }
    }
}
