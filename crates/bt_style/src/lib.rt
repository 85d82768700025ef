//! Styles: what a style is, and the reader of its text.
#![tactic(auto)]

mod arguments;
mod bodies;
mod builtin;
mod commands;
mod cursor;
mod declares;
mod draft;
mod elements;
mod fault;
mod names;
mod numbers;
mod parser;
mod reach;
mod reader;
mod style;
mod token;
mod verbs;

pub use bodies::BRACE_DEPTH;
pub use builtin::{BUILTIN_COUNT, Builtin};
pub use fault::{FaultKind, StyleFault, StyleRefusal};
pub use reach::Reach;
pub use reader::read_style;
pub use style::{Action, Command, Function, Macro, Op, Style, Target, fields_are_apart};
