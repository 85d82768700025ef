//! Answers about a paper's databases and its LaTeX texts: where keys and macros stand, what renames them, what can be
//! folded, laid out and followed, and hints.
#![tactic(auto)]

mod edit_values;
mod faults;
mod folding;
mod formatting;
mod hints;
mod keys;
mod lending;
mod lensing;
mod links;
mod missing;
mod name_edits;
mod outline;
mod references;
mod related;
mod renaming;
mod symbols;
mod uncited;

pub use faults::{fault_words, faulty_file, is_fault, is_some_text, linked_name, with_faults};
pub use folding::folds_of;
pub use formatting::format_edits;
pub use hints::with_hints;
pub use keys::keys_of;
pub use lending::Loan;
pub use lensing::{lens_values, origin_value};
pub use links::{file_name, links_of};
pub use outline::symbols_of;
pub use references::{is_definition, macro_at, references_at};
pub use related::{diagnostics_in, shows_related};
pub use renaming::{name_range_at, rename_at, with_edits, workspace_edit};
pub use symbols::symbols_for;
pub use uncited::hovered_at;
