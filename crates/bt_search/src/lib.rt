//! Looks up the files of a job: in the folder, and where the shell script that started the program found them.
#![tactic(auto)]

mod script;
mod search;

pub use script::{FILES_WANTED, HAND_OVER, Script};
pub use search::Search;
