//! A list in chunks of one length, which its copies share.
//!
//! A copy takes an owner's count for each chunk, and the first change in a chunk copies that chunk alone. There is no
//! index over the chunks: a place is found by a division.

ghost use Rattle.std.specs.Prelude.{◌≡◌, ◌<◌, ◌*◌, ◌/◌, ◌++◌, [], IsTrue, length, take, slice_get, slice_set, option_copied, IfOk, OnOk, OnErr};
ghost use Rattle.bt_text.specs.inner.Chunks.{all_of};

use crate::element::Element;
use std::alloc::{AllocError, Global};
use std::marker::Model;
use std::rc::Rc;

/// How many values a chunk has. To copy a list of n values and change one takes n / 64 counts and 64 values: the least
/// that any length of chunks gives for 4,096 values, and 376 for 20,000.
pub const CHUNK: usize = 64;

/// Values with several owners, until one of these changes them.
#[derive(Debug, Drop)]
struct Chunk<T> {
    items: Rc<Vec<T>>,
}

impl<T> Model for Chunk<T> {
    ghost use Rattle.std.specs.Prelude.{List};

    ghost Value = { List T };

    ghost view = { λ chunk. chunk.items.value.items };
}

impl<T: Element> Chunk<T> {
    fn new(alloc: Global, items: Vec<T>) -> Result<Self, AllocError>
        ensures { IfOk result (λ chunk. chunk ≡ items.items) }
    {
        Ok(Chunk {
            items: Rc::new(alloc, items)?,
        })
    }

    /// Takes no memory. The one error is that the count of owners is full.
    fn share(&self) -> Result<Self, AllocError>
        ensures { IfOk result (λ chunk. chunk ≡ self.now) }
    {
        Ok(Chunk {
            items: Rc::clone(&self.items)?,
        })
    }

    fn as_slice(&self) -> &[T]
        ensures { result.now ≡ self.now }
    {
        self.items.as_slice()
    }

    fn get(&self, place: usize) -> Option<&T>
        ensures { option_copied result ≡ slice_get self.now place }
    {
        self.items.as_slice().get(place)
    }

    /// Other owners keep the values that they had. The one error is out of memory; all values are then as before.
    fn set(&mut self, alloc: Global, place: usize, item: T) -> Result<(), AllocError>
        requires { place < length self.old }
        ensures ok { OnOk result (self.new ≡ slice_set self.old place item) }
        ensures err { OnErr result (self.new ≡ self.old) }
        ensures len { length self.new ≡ length self.old }
    {
        if let Some(items) = Rc::get_mut(&mut self.items) {
            items[place] = item;
            return Ok(());
        }
        let mut items = T::copied(alloc, self.items.as_slice())?;
        items[place] = item;
        self.items = Rc::new(alloc, items)?;
        Ok(())
    }
}

/// A list of which each chunk may have other owners. Contracts see the list.
#[derive(Debug, Drop)]
pub struct Chunks<T> {
    chunks: Vec<Chunk<T>>,
}

impl<T> Model for Chunks<T> {
    ghost use Rattle.std.specs.Prelude.{List};
    ghost use Rattle.bt_text.specs.inner.Chunks.{all_of, AreWhole};

    ghost Value = { List T };

    ghost view = { λ list. all_of list.chunks.items };

    ghost invariant = { λ list. AreWhole list.chunks.items };
}

impl<T: Element> Chunks<T> {
    /// No value. It takes no memory.
    pub fn new(alloc: Global) -> Self
        ensures { result ≡ [] }
    {
        Chunks {
            chunks: Vec::new(alloc),
        }
    }

    /// The values in whole chunks; those after the last whole chunk are left out.
    pub fn of(alloc: Global, items: &[T]) -> Result<Self, AllocError>
        ensures { IfOk result (λ list. list ≡ take (length items.now / 64 * 64) items.now) }
    {
        let mut chunks = Vec::with_capacity(alloc, items.len() / CHUNK)?;
        'chunks: for at in 0..items.len() / CHUNK {
            let chunk = T::copied(alloc, &items[at * CHUNK..(at + 1) * CHUNK])?;
            chunks.push(Chunk::new(alloc, chunk)?)?;
        }
        Ok(Chunks { chunks })
    }

    /// The value at a place, if there is one.
    pub fn get(&self, place: usize) -> Option<&T>
        ensures { option_copied result ≡ slice_get self.now place }
    {
        match self.chunks.as_slice().get(place / CHUNK) {
            Some(chunk) => chunk.get(place % CHUNK),
            None => None,
        }
    }

    /// Puts a value in a place; one after the end stays as it is. The one error is out of memory; all values are then
    /// as before.
    pub fn set(&mut self, alloc: Global, place: usize, item: T) -> Result<(), AllocError>
        ensures ok { OnOk result (self.new ≡ slice_set self.old place item) }
        ensures err { OnErr result (self.new ≡ self.old) }
    {
        let at = place / CHUNK;
        if at >= self.chunks.len() {
            return Ok(());
        }
        self.chunks[at].set(alloc, place % CHUNK, item)
    }

    /// The same values for one more owner; none of them is copied.
    pub fn copied(&self, alloc: Global) -> Result<Self, AllocError>
        ensures { IfOk result (λ same. same ≡ self.now) }
    {
        let chunks = shared(alloc, self.chunks.as_slice())?;
        Ok(Chunks { chunks })
    }

    /// Puts the values after others.
    pub fn append_to(&self, alloc: Global, items: &mut Vec<T>) -> Result<(), AllocError>
        ensures { OnOk result (items.new.items ≡ items.old.items ++ self.now) }
    {
        append_all(alloc, self.chunks.as_slice(), items)
    }

    /// Whether others are the same.
    pub fn is_same(&self, others: &Chunks<T>) -> bool
        ensures { IsTrue result → self.now ≡ others.now }
    {
        same_chunks(self.chunks.as_slice(), others.chunks.as_slice())
    }
}

fn append_all<T: Element>(
    alloc: Global,
    chunks: &[Chunk<T>],
    items: &mut Vec<T>,
) -> Result<(), AllocError>
    ensures { OnOk result (items.new.items ≡ items.old.items ++ all_of chunks.now) }
{
    'chunks: for chunk in chunks {
        items.append(&mut T::copied(alloc, chunk.as_slice())?)?;
    }
    Ok(())
}

fn same_chunks<T: Element>(chunks: &[Chunk<T>], others: &[Chunk<T>]) -> bool
    ensures { IsTrue result → chunks.now ≡ others.now }
{
    if chunks.len() != others.len() {
        return false;
    }
    'chunks: for at in 0..chunks.len() {
        if !T::are_same(chunks[at].as_slice(), others[at].as_slice()) {
            return false;
        }
    }
    true
}

fn shared<T: Element>(alloc: Global, chunks: &[Chunk<T>]) -> Result<Vec<Chunk<T>>, AllocError>
    ensures { IfOk result (λ same. same.items ≡ chunks.now) }
{
    let mut same = Vec::with_capacity(alloc, chunks.len())?;
    'chunks: for chunk in chunks {
        same.push(chunk.share()?)?;
    }
    Ok(same)
}
