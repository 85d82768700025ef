//! A byte text, seen in contracts as the list of its bytes.

ghost use Rattle.std.specs.Prelude.{◌≡◌, [], ◌++◌, length, map, IfOk, OnOk, OnErr};
ghost use Rattle.bt_text.specs.Joined.{joined};

use std::alloc::{AllocError, Global};
use std::marker::Model;

/// A byte text. Contracts see the list of its bytes.
#[derive(Debug, Drop)]
pub struct Bytes {
    bytes: Vec<u8>,
}

impl Model for Bytes {
    ghost use Rattle.std.specs.Prelude.{List, ℕ};

    ghost Value = { List ℕ };

    ghost view = { λ b. b.bytes.items };
}

impl Bytes {
    /// The empty text. It takes no memory.
    pub fn new(alloc: Global) -> Self
        ensures { result ≡ [] }
    {
        Bytes {
            bytes: Vec::new(alloc),
        }
    }

    /// The text of these bytes, which takes no memory.
    pub fn from_vec(bytes: Vec<u8>) -> Self
        ensures { result ≡ bytes.items }
    {
        Bytes { bytes }
    }

    /// A copy of these bytes.
    pub fn copied(alloc: Global, bytes: &[u8]) -> Result<Self, AllocError>
        ensures { IfOk result (λ text. text ≡ bytes.now) }
    {
        Ok(Bytes {
            bytes: Vec::from_slice(alloc, bytes)?,
        })
    }

    /// A copy of these bytes, with room for `least` bytes if it has fewer.
    pub fn roomy(alloc: Global, bytes: &[u8], least: usize) -> Result<Self, AllocError>
        ensures { IfOk result (λ text. text ≡ bytes.now) }
    {
        let mut copy = Vec::with_capacity(alloc, bytes.len().max(least))?;
        copy.extend_from_slice(bytes)?;
        Ok(Bytes { bytes: copy })
    }

    /// The pieces in order, as one text.
    pub fn of(alloc: Global, pieces: &[&[u8]]) -> Result<Self, AllocError>
        ensures { IfOk result (λ text. text ≡ joined (map (λ piece. piece.now) pieces.now)) }
    {
        let mut text = Bytes::new(alloc);
        text.append_all(pieces)?;
        Ok(text)
    }

    /// The bytes.
    pub fn as_slice(&self) -> &[u8]
        ensures { result.now ≡ self.now }
    {
        self.bytes.as_slice()
    }

    /// How many bytes there are.
    pub fn len(&self) -> usize
        ensures { result ≡ length self.now }
    {
        self.bytes.len()
    }

    /// Makes room for this many more bytes.
    pub fn reserve(&mut self, more: usize) -> Result<(), AllocError>
        ensures { self.new ≡ self.old }
    {
        self.bytes.reserve(more)
    }

    /// Puts bytes after those that are there. After out of memory the text is as before.
    pub fn append(&mut self, more: &[u8]) -> Result<(), AllocError>
        ensures ok { OnOk result (self.new ≡ self.old ++ more.now) }
        ensures err { OnErr result (self.new ≡ self.old) }
    {
        self.bytes.extend_from_slice(more)
    }

    /// Removes all bytes and keeps their memory.
    pub fn clear(&mut self)
        ensures { self.new ≡ [] }
    {
        self.bytes.clear();
    }

    /// Puts other bytes in the place of those that are there, in their memory if it is enough.
    pub fn write(&mut self, bytes: &[u8]) -> Result<(), AllocError>
        ensures { OnOk result (self.new ≡ bytes.now) }
    {
        self.bytes.clear();
        self.bytes.extend_from_slice(bytes)
    }

    /// Puts the pieces in order after the bytes that are there. After out of memory some of them may be there.
    pub fn append_all(&mut self, pieces: &[&[u8]]) -> Result<(), AllocError>
        ensures { OnOk result (self.new ≡ self.old ++ joined (map (λ piece. piece.now) pieces.now)) }
    {
        'pieces: for piece in pieces {
            self.append(piece)?;
        }
        Ok(())
    }

    /// The bytes as a vector, which takes no memory.
    pub fn into_vec(self) -> Vec<u8>
        ensures { result.items ≡ self }
    {
        let Bytes { bytes } = self;
        bytes
    }
}
