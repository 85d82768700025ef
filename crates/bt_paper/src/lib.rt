//! A paper for the desk of the language server: a session over the author's files, and where these lie.
//!
//! The session knows files by their names in the texts, an editor by their URIs. The files that were found join the two.
//! Of several files with one name only the first counts, so no two URIs have one name: a text that is given to one file
//! changes no other.
#![tactic(auto)]

mod beginning;
mod finding;
mod folders;
mod giving;
mod known;
mod library;
mod looking;
mod open_files;
mod session_paper;

pub use folders::with_slash;
pub use library::Library;
pub use session_paper::{Options, SessionPaper};
