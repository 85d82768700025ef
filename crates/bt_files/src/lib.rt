//! The layer between an author's files, whose names may be any, and a session's: names, the text of an `.aux` file under
//! other names, and messages under the author's.
#![tactic(auto)]

mod aux_text;
mod messages;
mod names;

pub use aux_text::written;
pub use messages::{all_put_back, put_back};
pub use names::{Names, is_own_name};
