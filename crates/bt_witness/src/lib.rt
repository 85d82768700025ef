//! Entries that trigger a style's faults: each was run, and the run gave the fault's message.
#![tactic(auto)]

mod cost;
mod filling;
mod witness;

pub use witness::{Effort, witnesses};
