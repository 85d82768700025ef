//! A session over an author's files, of any name and size.
//!
//! A session of `bibtex` admits short plain names and files up to 1 MiB. This one runs the same job under names that a session
//! admits, as `bt_front` does, and shows it under the author's names. A database is never split: the meaning of files has
//! no limit, and an edit re-reads only the items that it touches, however long the text is.
#![tactic(auto)]

mod differing;
mod draft;
mod entry_lines;
mod files;
mod session;

pub use draft::AuthorDraft;
pub use session::AuthorSession;
