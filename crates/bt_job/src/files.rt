//! The present files, whose names and texts are shared and never copied.

use bt_text::{Bytes, Shared};

/// A file that is there.
#[derive(Drop)]
pub struct File {
    pub name: Shared<Bytes>,
    pub text: Shared<Bytes>,
}
