//! Values by their places. Copies share what they have in common, if there are many.
//!
//! A step changes few variables. In a run that keeps its steps, a step that assigns one copies them all. Usual styles have
//! fewer than 64, and copying a short vector is faster than sharing. A style may declare thousands, so beyond 64 the values
//! are in chunks that copies share.

ghost use Rattle.std.specs.Prelude.{◌≡◌, [], IsTrue, length, slice_get, slice_set, option_copied, IfOk, OnOk, OnErr};

use crate::bytes::Bytes;
use crate::chunks::{CHUNK, Chunks};
use crate::element::Element;
use crate::shared::Shared;
use std::alloc::{AllocError, Global};
use std::marker::Model;

/// A list of values that is copied often and changed little. Contracts see the list. Fewer than 64 are the list's own;
/// of more, all but the first few are in chunks, which a copy shares until one of them is changed.
#[derive(Debug, Drop)]
pub struct Values<T> {
    count: usize,
    /// Those before the whole chunks: fewer than 64, and never shared.
    first: Vec<T>,
    more: Chunks<T>,
}

impl<T> Model for Values<T> {
    ghost use Rattle.std.specs.Prelude.{◌≡◌, ◌++◌, List, length};

    ghost Value = { List T };

    ghost view = { λ values. values.first.items ++ values.more };

    ghost invariant = { λ values. values.count ≡ length (values.first.items ++ values.more) };
}

impl<T: Element> Values<T> {
    /// No value. It takes no memory.
    pub fn new(alloc: Global) -> Self
        ensures { result ≡ [] }
    {
        Values {
            count: 0,
            first: Vec::new(alloc),
            more: Chunks::new(alloc),
        }
    }

    /// The values of a vector. Fewer than 64 take no more memory.
    pub fn from_vec(alloc: Global, items: Vec<T>) -> Result<Self, AllocError>
        ensures { IfOk result (λ values. values ≡ items.items) }
    {
        let count = items.len();
        if count < CHUNK {
            return Ok(Values {
                count,
                first: items,
                more: Chunks::new(alloc),
            });
        }
        let (first, more) = items.as_slice().split_at(count % CHUNK);
        Ok(Values {
            count,
            first: T::copied(alloc, first)?,
            more: Chunks::of(alloc, more)?,
        })
    }

    /// How many values there are.
    pub fn len(&self) -> usize
        ensures { result ≡ length self.now }
    {
        self.count
    }

    /// The value at a place, if there is one.
    #[inline(always)]
    pub fn get(&self, place: usize) -> Option<&T>
        ensures { option_copied result ≡ slice_get self.now place }
    {
        if place < self.first.len() {
            self.first.as_slice().get(place)
        } else {
            self.more.get(place - self.first.len())
        }
    }

    /// Puts a value in a place; one after the end stays as it is. The one error is out of memory; all values are then
    /// as before.
    pub fn set(&mut self, alloc: Global, place: usize, item: T) -> Result<(), AllocError>
        ensures ok { OnOk result (self.new ≡ slice_set self.old place item) }
        ensures err { OnErr result (self.new ≡ self.old) }
    {
        if place < self.first.len() {
            self.first[place] = item;
            return Ok(());
        }
        let behind = place - self.first.len();
        self.more.set(alloc, behind, item)
    }

    /// The same values once more. Those in chunks are shared.
    pub fn copied(&self, alloc: Global) -> Result<Self, AllocError>
        ensures { IfOk result (λ same. same ≡ self.now) }
    {
        Ok(Values {
            count: self.count,
            first: T::copied(alloc, self.first.as_slice())?,
            more: self.more.copied(alloc)?,
        })
    }

    /// The same values in a vector.
    pub fn to_vec(&self, alloc: Global) -> Result<Vec<T>, AllocError>
        ensures { IfOk result (λ items. items.items ≡ self.now) }
    {
        let mut items = T::copied(alloc, self.first.as_slice())?;
        self.more.append_to(alloc, &mut items)?;
        Ok(items)
    }

    /// Whether others are the same.
    pub fn is_same(&self, others: &Values<T>) -> bool
        ensures { IsTrue result → self.now ≡ others.now }
    {
        T::are_same(self.first.as_slice(), others.first.as_slice())
            && self.more.is_same(&others.more)
    }
}

impl Values<Shared<Bytes>> {
    /// Puts a text in a place; one after the end stays as it is. The text that was there is written over if it has no
    /// other owner.
    pub fn write(&mut self, alloc: Global, place: usize, text: &[u8]) -> Result<(), AllocError>
        ensures { OnOk result (self.new ≡ slice_set self.old place text.now) }
    {
        if place < self.first.len() {
            self.first[place].write(alloc, text)?;
            return Ok(());
        }
        let text = Shared::<Bytes>::copied(alloc, text)?;
        self.set(alloc, place, text)
    }
}
