//! What the check of a style finds, at its place in the text of an open document.
//!
//! The check runs after each letter, so it has a small limit of work (`finding.rt`).
#![tactic(auto)]

mod finding;
mod places;

pub use finding::findings_of;
