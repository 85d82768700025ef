//! What a run made of a line, and where a byte comes from.

use bt_text::Bytes;

/// A line of words over a line of a file, whose number is from 0.
#[derive(Drop)]
pub struct Lens {
    pub line: usize,
    pub words: Bytes,
}

/// A line of a file, whose number is from 0.
#[derive(Drop)]
pub struct FileLine {
    pub file: Bytes,
    pub line: usize,
}

/// Where a byte comes from.
#[derive(Drop)]
pub struct Origin {
    /// What it comes from, and through which built-in functions.
    pub words: Bytes,
    /// The field, if it comes from one.
    pub field: Option<FileLine>,
    /// The word of the style that pushed it.
    pub word: Option<FileLine>,
}
