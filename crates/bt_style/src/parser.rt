//! A style's text while it is read. Each reader takes its tokens from the cursor, and adds what they declare to the draft.

use crate::cursor::Cursor;
use crate::draft::Draft;
use std::alloc::Global;

/// What is left of a text, and the style so far.
#[derive(Drop)]
pub struct Parser<'a> {
    pub alloc: Global,
    pub cursor: Cursor<'a>,
    pub draft: Draft,
}
