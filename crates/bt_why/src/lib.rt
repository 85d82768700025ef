//! Where each byte of a bibliography comes from: a style machine whose texts carry marks.
//!
//! `Machine::run` carries out a step as `bt_machine` does, but each byte of a text has a mark (`bt_marks`): what it comes
//! from, and the words of the style that were running when it was pushed.
#![tactic(auto)]

mod builtins;
mod machine;
mod named;
mod operands;
mod rerun;
mod running;
mod showing;
mod values;

pub use bt_marks::{Line, Mark, Marked, Piece, Site, Source, Text, Written, line_bytes, pieces};
pub use machine::{Given, Left, Machine};
pub use rerun::{Rerun, are_lines_of, are_right};
pub use values::Variables;
