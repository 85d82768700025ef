//! The world of a style's step: what each literal, field, variable and built-in function does in it, and the values that
//! outlive a step.
#![tactic(auto)]

mod code;
mod complaint;
mod entry;
mod flow;
mod tally;

pub use code::Code;
pub use complaint::{Complaint, messages};
pub use entry::{Entry, Variables, share_texts};
pub use flow::{Flow, STACK_LIMIT};
pub use tally::{TICK_LIMIT, Tally};
