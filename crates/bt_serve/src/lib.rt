//! The command loop: reads commands from a source, carries them out on a session, and writes the answers to a sink.
#![tactic(auto)]

mod answer;
mod command;
mod fault;
mod turns;

pub use fault::ServeFault;
pub use turns::serve;
