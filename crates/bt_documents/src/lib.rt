//! The texts that an editor holds open, and the files that follow them.
//!
//! The editor sends a text once, and then its changes. Each change is made to the document's own copy; `give_again` then gives
//! the files the texts that they don't have. So several changes cost the files one text. They may refuse it (a name or a size
//! that isn't admitted) or run out of memory; then the document has the editor's text all the same, and is out of step.
#![tactic(auto)]

mod changes;
mod document;
mod files;
mod open_documents;

pub use changes::{Change, all_edited};
pub use document::Document;
pub use files::{Files, Written};
pub use open_documents::{change, close, give_again, open};
