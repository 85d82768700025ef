//! What lists of values are made of.

ghost use Rattle.std.specs.Prelude.{◌≡◌, IsTrue, IfOk};

use crate::bytes::Bytes;
use crate::same::are_same;
use crate::shared::{Shared, shared_all};
use std::alloc::{AllocError, Global};

/// A value of which lists can be copied and compared.
pub trait Element: Drop + Sized {
    /// The same values once more.
    fn copied(alloc: Global, items: &[Self]) -> Result<Vec<Self>, AllocError>
        ensures { IfOk result (λ same. same.items ≡ items.now) };

    /// Whether two lists of values are the same.
    fn are_same(items: &[Self], others: &[Self]) -> bool
        ensures { IsTrue result → items.now ≡ others.now };
}

impl Element for i32 {
    fn copied(alloc: Global, items: &[i32]) -> Result<Vec<i32>, AllocError> {
        Vec::from_slice(alloc, items)
    }

    fn are_same(items: &[i32], others: &[i32]) -> bool {
        items == others
    }
}

impl Element for Shared<Bytes> {
    fn copied(alloc: Global, items: &[Shared<Bytes>]) -> Result<Vec<Shared<Bytes>>, AllocError> {
        shared_all(alloc, items)
    }

    fn are_same(items: &[Shared<Bytes>], others: &[Shared<Bytes>]) -> bool {
        are_same(items, others)
    }
}
