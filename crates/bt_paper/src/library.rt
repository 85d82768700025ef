//! Where closed files are read.

use bt_text::Bytes;
use std::alloc::{AllocError, Global};

/// What files are read from.
pub trait Library {
    /// The bytes of the file at a path, if there is one that can be read. The only error is out of memory: the file may be
    /// there.
    fn read(&self, alloc: Global, path: &str) -> Result<Option<Bytes>, AllocError>;
}
