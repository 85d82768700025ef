//! Sources, sinks and folders in memory, for programs that test what is built on them.
#![tactic(auto)]

mod folder;
mod limits;
mod sink;
mod source;

pub use folder::{KeptFile, Memory};
pub use limits::Limits;
pub use sink::Taker;
pub use source::Giver;
