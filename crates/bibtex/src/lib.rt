//! BibTeX as a session that stays beside an editor: texts and edits go in, the bibliography, the log and the status
//! come out, and are after each edit what the present texts mean from scratch.
#![tactic(auto)]

mod draft;
mod edit;
mod edits;
mod entry_lines;
mod files;
mod refusal;
mod session;
mod snapshot;
mod state;

pub use bt_log::{FileKind, FileNote, Message, Place, Rank, Said};
pub use bt_run::Report;
pub use bt_text::Bytes;
pub use draft::Draft;
pub use edit::{Edit, Refusal};
pub use edits::edit_all;
pub use refusal::{FILE_BYTES, FILE_LIMIT, code_of, is_root_name};
pub use session::Session;
pub use snapshot::Snapshot;
