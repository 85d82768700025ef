//! Positions in a text, a line and a character as an editor counts them, and the offsets of their bytes.
//!
//! The Language Server Protocol counts characters in units of UTF-16 or, if the client offers it, in bytes of UTF-8.
//! BibTeX's files are bytes and may be in no encoding at all, so every offset of every text has a position: bytes that
//! aren't UTF-8 count as their form suggests. A file in Latin-1 reaches the editor as UTF-8; `Counting` has its widths.
//!
//! A text keeps the offsets of its lines and of some characters (`IndexedText`), because an editor asks for many positions
//! of one text, and a text may be one long line.
#![tactic(auto)]

mod counting;
mod indexed_text;
mod lines;
mod marks;
mod splicing;

pub use counting::Counting;
pub use indexed_text::{IndexedText, Position};
pub use lines::{Lines, first_line};
pub use splicing::Splice;
