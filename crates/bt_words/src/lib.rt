//! The words of a style: its functions' bodies as numbered lists of words, each with its line.
#![tactic(auto)]

mod lines;
mod program;

pub use lines::line_of;
pub use program::{Act, Program, Word};
