//! The loop of a language server: it reads messages, lets a desk carry out each, and writes what the desk says.
//!
//! The loop builds the answers, and the desk only decides them: it returns a result or an error, and the notes to send
//! first. So 'each request gets exactly one answer, with its id' is proved here, for every desk, even if the desk runs
//! out of memory. Without memory to read a message, the answer's id is null; without memory to build or write what is
//! said, the loop ends.
#![tactic(auto)]

mod desk;
mod handling;
mod sending;
mod talks;

pub use desk::{Desk, Reply};
pub use sending::TalkFault;
pub use talks::talk;
