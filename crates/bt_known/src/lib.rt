//! What the check of a style knows of a value: its kinds, the bounds of an integer, and what tests told of it.
#![tactic(auto)]

mod bounds;
mod kinds;
mod known;

pub use bounds::{Bounds, UNBOUNDED};
pub use kinds::{ANY, FIELD, FUNCTION, INTEGER, Kinds, MISSING, NONE, STRING};
pub use known::{Known, NOTHING};
