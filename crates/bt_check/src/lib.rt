//! Checks a style: finds what some database can make it do wrong.
//!
//! An abstract run of the style, call by call (`checker.rt`), on values that stand for what isn't known before a run
//! (`values.rt`), with the facts that tests tell (`facts.rt`).
#![tactic(auto)]

mod builtins;
mod checker;
mod deciding;
mod evaluation;
mod facts;
mod fault;
mod heads;
mod hints;
mod making;
mod paths;
mod refining;
mod signature;
mod splitting;
mod state;
mod steps;
mod telling;
mod types;
mod values;
mod watching;

pub use fault::{Call, Condition, Fault, FaultKind, FieldState, Step};
pub use hints::{Hint, Rule, lint};
pub use steps::{Findings, check};
pub use telling::{decimal, field_name, function_name};
pub use watching::{Lying, Spot, Watched, Watcher};
