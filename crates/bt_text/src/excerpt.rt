//! Parts of texts with several owners.
//!
//! A field's value is usually a contiguous part of its database. An excerpt points to that part instead of copying it, so it
//! allocates nothing. In return, it keeps the whole text in memory. It takes 16 bytes, because its start and length have
//! 32 bits: a run keeps an excerpt for each field.

ghost use Rattle.std.specs.Prelude.{◌≡◌, ◌+◌, ◌≤◌, length, slice_range, IsTrue, IfOk};

use crate::bytes::Bytes;
use crate::shared::Shared;
use std::alloc::{AllocError, Global};
use std::marker::Model;

/// A part of a text that has several owners. Contracts see its bytes. It is shorter than 4 GiB, and begins in the first
/// 4 GiB of its text.
#[derive(Debug, Drop)]
pub struct Excerpt {
    whole: Shared<Bytes>,
    start: u32,
    len: u32,
}

impl Model for Excerpt {
    ghost use Rattle.std.specs.Prelude.{ℕ, List, ◌+◌, ◌≤◌, length, slice_range};

    ghost Value = { List ℕ };

    ghost view = { λ excerpt. slice_range excerpt.whole excerpt.start (excerpt.start + excerpt.len) };

    ghost invariant = { λ excerpt. excerpt.start + excerpt.len ≤ length excerpt.whole };
}

fn is_at(whole: &[u8], start: usize, bytes: &[u8]) -> bool
    ensures { IsTrue result → (start + length bytes.now ≤ length whole.now)
        × (slice_range whole.now start (start + length bytes.now) ≡ bytes.now) }
{
    match whole.get(start..start.saturating_add(bytes.len())) {
        None => false,
        Some(there) => there == bytes,
    }
}

impl Excerpt {
    /// The whole of a text, which isn't copied. The only error is out of memory, which includes a text of 4 GiB or more.
    pub fn of(text: Shared<Bytes>) -> Result<Self, AllocError>
        ensures { IfOk result (λ excerpt. excerpt ≡ text) }
    {
        let Ok(len) = u32::try_from(text.len()) else {
            return Err(AllocError);
        };
        Ok(Excerpt {
            whole: text,
            start: 0,
            len,
        })
    }

    /// A copy of these bytes. The only error is out of memory, which includes 4 GiB or more of them.
    pub fn copied(alloc: Global, bytes: &[u8]) -> Result<Self, AllocError>
        ensures { IfOk result (λ excerpt. excerpt ≡ bytes.now) }
    {
        if u32::try_from(bytes.len()).is_err() {
            return Err(AllocError);
        }
        Excerpt::of(Shared::<Bytes>::copied(alloc, bytes)?)
    }

    /// These bytes as an excerpt of a text. If they are in it at `start`, nothing is copied; otherwise they are. Comparing
    /// costs less than copying, and spares the caller a proof of where they are. The only error is out of memory, which
    /// includes 4 GiB or more of them.
    pub fn at(
        alloc: Global,
        whole: &Shared<Bytes>,
        start: usize,
        bytes: &[u8],
    ) -> Result<Self, AllocError>
        ensures { IfOk result (λ excerpt. excerpt ≡ bytes.now) }
    {
        match (u32::try_from(start), u32::try_from(bytes.len())) {
            (Ok(first), Ok(len)) if is_at(whole.as_slice(), start, bytes) => Ok(Excerpt {
                whole: whole.share()?,
                start: first,
                len,
            }),
            _ => Excerpt::copied(alloc, bytes),
        }
    }

    /// The same, with `start` counted from the start of this excerpt.
    pub fn part(&self, alloc: Global, start: usize, bytes: &[u8]) -> Result<Self, AllocError>
        ensures { IfOk result (λ part. part ≡ bytes.now) }
    {
        let start = (self.start as usize).saturating_add(start);
        Excerpt::at(alloc, &self.whole, start, bytes)
    }

    /// The bytes.
    pub fn as_slice(&self) -> &[u8]
        ensures { result.now ≡ self.now }
    {
        let start = self.start as usize;
        &self.whole.as_slice()[start..start + self.len as usize]
    }

    /// How many bytes there are.
    pub fn len(&self) -> usize
        ensures { result ≡ length self.now }
    {
        self.len as usize
    }

    /// The same bytes for one more owner. They aren't copied. The only error is that the count of owners is full.
    pub fn share(&self) -> Result<Self, AllocError>
        ensures { IfOk result (λ same. same ≡ self.now) }
    {
        Ok(Excerpt {
            whole: self.whole.share()?,
            start: self.start,
            len: self.len,
        })
    }
}
