//! The command line: options with one dash or two, and styles.

use std::alloc::{AllocError, Global};

#[derive(Clone, Copy, PartialEq, Eq)]
pub enum Format {
    Text,
    /// One JSON object a line.
    Json,
}

#[derive(Clone, Copy)]
pub struct Options {
    pub shows_types: bool,
    pub lints: bool,
    pub format: Format,
}

#[derive(Drop)]
pub enum Request<'a> {
    Check(Options, Vec<&'a str>),
    Help,
    Version,
    NoStyle,
    UnknownOption(&'a str),
}

/// An option without its dashes; none if the word is a style's name.
fn option_of(word: &str) -> Option<&str> {
    word.strip_prefix("--").or(word.strip_prefix('-'))
}

impl Options {
    /// Notes an option, and says whether there is such a one.
    fn take(&mut self, option: &str) -> bool {
        match option {
            "types" => self.shows_types = true,
            "lint" => self.lints = true,
            "format=text" => self.format = Format::Text,
            "format=json" => self.format = Format::Json,
            _ => return false,
        }
        true
    }
}

/// What these words ask for, of which the first is the program's name. The one error is out of memory.
pub fn parse<'a>(alloc: Global, words: &'a [String]) -> Result<Request<'a>, AllocError> {
    let mut options = Options {
        shows_types: false,
        lints: false,
        format: Format::Text,
    };
    let mut styles: Vec<&'a str> = Vec::new(alloc);
    'words: for word in words.iter().skip(1) {
        let word = word.as_str();
        match option_of(word) {
            None => styles.push(word)?,
            Some("help") => return Ok(Request::Help),
            Some("version") => return Ok(Request::Version),
            Some(option) => {
                if !options.take(option) {
                    return Ok(Request::UnknownOption(word));
                }
            }
        }
    }
    Ok(if styles.is_empty() {
        Request::NoStyle
    } else {
        Request::Check(options, styles)
    })
}
