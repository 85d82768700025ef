//! Texts whose bytes know where they come from.
//!
//! Each byte of a text has a mark (`marks.rt`): what it comes from, and the words of the style that were running when it
//! was pushed. Marks stay with bytes when texts are joined, cut, changed by built-in functions and written as lines.
//! `pieces` cuts a line where its marks change.
#![tactic(auto)]

mod alignment;
mod formatting;
mod line_pieces;
mod lines;
mod marks;
mod texts;

pub use alignment::{Maker, aligned};
pub use formatting::{formatted, name_in};
pub use line_pieces::{Piece, pieces};
pub use lines::{Line, Written, break_lines, end_line, line_bytes, lines_bytes};
pub use marks::{Call, Mark, Marks, Site, Source};
pub use texts::{Marked, Text, bytes_of, joined, of_mark, part};
