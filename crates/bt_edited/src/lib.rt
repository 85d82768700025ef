//! What edits of a database make of its items.
#![tactic(auto)]

mod changes;
mod comparing;
mod edits;

pub use changes::Change;
pub use comparing::is_made;
pub use edits::{Edit, text_after_edits};
