//! The diagnostics of a document: the messages of a run, each at its place in the text that the editor has.
#![tactic(auto)]

mod diagnostic;
mod keys;
mod spans;

pub use diagnostic::{Diagnostic, FileText, diagnostics};
pub use keys::{KeyRole, Keys, is_at_key};
pub use spans::Span;
