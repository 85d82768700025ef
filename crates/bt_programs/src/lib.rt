//! What the programs share: their version, the words of a command line, whole files, and strings of JSON.
#![tactic(auto)]

mod command_line;
mod json;
mod reading;
mod version;

pub use command_line::words;
pub use json::append_json_string;
pub use reading::{folder_of, read};
pub use version::VERSION;
