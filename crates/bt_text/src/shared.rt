//! Values with several owners, seen in contracts as the values themselves.

ghost use Rattle.std.specs.Prelude.{◌≡◌, map, IfErr, IfOk, OnErr, OnOk};
ghost use Rattle.bt_text.specs.Joined.{joined};

use crate::bytes::Bytes;
use std::alloc::{AllocError, Global};
use std::marker::Model;
use std::mem;
use std::ops::Deref;
use std::rc::Rc;

/// A value with several owners. Contracts see the value, and not how many own it.
#[derive(Debug, Drop)]
pub struct Shared<T> {
    value: Rc<T>,
}

impl<T> Model for Shared<T> {
    ghost Value = { T };

    ghost view = { λ s. s.value.value };
}

impl<T: Drop> Shared<T> {
    /// The value, with one owner.
    pub fn new(alloc: Global, value: T) -> Result<Self, AllocError>
        ensures { IfOk result (λ shared. shared ≡ value) }
    {
        Ok(Shared {
            value: Rc::new(alloc, value)?,
        })
    }

    /// The same value for one more owner; it is not copied.
    pub fn share(&self) -> Result<Self, AllocError>
        ensures { IfOk result (λ shared. shared ≡ self.now) }
    {
        Ok(Shared {
            value: Rc::clone(&self.value)?,
        })
    }
}

impl<T> Shared<T> {
    /// Replaces the value and returns the old one, if it has no other owner. Otherwise nothing changes, and `value` is
    /// returned as the error.
    pub fn try_replace(&mut self, value: T) -> Result<T, T>
        ensures old { IfOk result (λ old. old ≡ self.old) }
        ensures new { OnOk result (self.new ≡ value) }
        ensures err { IfErr result (λ same. same ≡ value) }
        ensures same { OnErr result (self.new ≡ self.old) }
    {
        match Rc::get_mut(&mut self.value) {
            Some(there) => Ok(mem::replace(there, value)),
            None => Err(value),
        }
    }
}

/// The same values, each for one more owner; none of them is copied.
pub fn shared_all<T: Drop>(
    alloc: Global,
    values: &[Shared<T>],
) -> Result<Vec<Shared<T>>, AllocError>
    ensures { IfOk result (λ same. same.items ≡ values.now) }
{
    let mut same = Vec::with_capacity(alloc, values.len())?;
    'values: for value in values {
        same.push(value.share()?)?;
    }
    Ok(same)
}

impl<T> Deref for Shared<T> {
    type Target = T;

    ghost deref_gives = { λ shared value. value ≡ shared };

    /// The value.
    fn deref(&self) -> &T
        ensures { result.now ≡ self.now }
    {
        &self.value
    }
}

impl Shared<Bytes> {
    /// A copy of these bytes, with one owner.
    pub fn copied(alloc: Global, bytes: &[u8]) -> Result<Self, AllocError>
        ensures { IfOk result (λ text. text ≡ bytes.now) }
    {
        Shared::new(alloc, Bytes::copied(alloc, bytes)?)
    }

    /// Puts other bytes in the place of this owner's. They are written over the old ones if these have no other owner.
    pub fn write(&mut self, alloc: Global, bytes: &[u8]) -> Result<(), AllocError>
        ensures { OnOk result (self.new ≡ bytes.now) }
    {
        if let Some(text) = Rc::get_mut(&mut self.value) {
            text.write(bytes)?;
            return Ok(());
        }
        *self = Shared::<Bytes>::copied(alloc, bytes)?;
        Ok(())
    }

    /// The pieces in order, as one text with one owner.
    pub fn of(alloc: Global, pieces: &[&[u8]]) -> Result<Self, AllocError>
        ensures { IfOk result (λ text. text ≡ joined (map (λ piece. piece.now) pieces.now)) }
    {
        Shared::new(alloc, Bytes::of(alloc, pieces)?)
    }
}
