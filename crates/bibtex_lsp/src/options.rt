//! The command line.

use bt_paper::{Options, with_slash};
use std::alloc::{AllocError, Global};

/// What the words of a command line mean.
#[derive(Drop)]
pub enum Request {
    Serve(Options),
    Help,
    Version,
    /// A word isn't an option.
    Unknown,
}

/// What these words ask for, the first of which is the program's name. The only error is out of memory.
pub fn parse(alloc: Global, words: &[String]) -> Result<Request, AllocError> {
    let mut job = String::new(alloc);
    let mut folders = Vec::new(alloc);
    'words: for word in words.iter().skip(1) {
        let word = word.as_str();
        match word {
            "--help" => return Ok(Request::Help),
            "--version" => return Ok(Request::Version),
            _ => {}
        }
        if let Some(name) = word.strip_prefix("--job=") {
            job = String::from_str(alloc, name)?;
        } else if let Some(folder) = word.strip_prefix("--search=") {
            folders.push(with_slash(alloc, folder)?)?;
        } else {
            return Ok(Request::Unknown);
        }
    }
    folders.push(String::from_str(alloc, "./")?)?;
    Ok(Request::Serve(Options { job, folders }))
}
