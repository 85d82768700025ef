//! Comparisons whose contract says that what they find the same is equal.

ghost use Rattle.std.specs.Prelude.{◌≡◌, IsTrue};

use crate::bytes::Bytes;
use crate::shared::Shared;

/// A value that can be compared with another.
pub trait Same {
    /// Whether the other value is the same.
    fn is_same(&self, other: &Self) -> bool
        ensures { IsTrue result → self.now ≡ other.now };
}

/// Whether two texts are the same.
pub fn equal_bytes(one: &[u8], other: &[u8]) -> bool
    ensures { IsTrue result → one.now ≡ other.now }
{
    one == other
}

impl Same for Bytes {
    fn is_same(&self, other: &Bytes) -> bool {
        equal_bytes(self.as_slice(), other.as_slice())
    }
}

impl<T: Same + Drop> Same for Shared<T> {
    fn is_same(&self, other: &Shared<T>) -> bool {
        T::is_same(self, other)
    }
}

/// Whether two lists have the same values in the same order.
pub fn are_same<T: Same>(items: &[T], others: &[T]) -> bool
    ensures { IsTrue result → items.now ≡ others.now }
{
    if items.len() != others.len() {
        return false;
    }
    'items: for place in 0..items.len() {
        if !items[place].is_same(&others[place]) {
            return false;
        }
    }
    true
}
