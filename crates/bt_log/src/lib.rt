//! Messages, each with its rank, its content and its place; and the log, which puts them into words.
#![tactic(auto)]

mod log;
mod message;
mod wording;

pub use log::{lines_bytes, log_bytes, status, terse_bytes};
pub use message::{FileKind, FileNote, Message, Place, Rank, Said};
pub use wording::add_said;
