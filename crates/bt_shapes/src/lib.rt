//! Values of the language server protocol that several answers have: texts, ranges, places, edits, folds and symbols.
#![tactic(auto)]

mod edits;
mod lists;
mod outline;
mod places;
mod text;

pub use edits::{file_edit, text_edit, workspace_edit};
pub use lists::with_value;
pub use outline::{fold_between, symbol};
pub use places::{location, range, range_of};
pub use text::shown;
