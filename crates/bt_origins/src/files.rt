//! The files of a run: its style, and the places of the entries in its databases.

use crate::places::Places;
use bt_log::{FileNote, Message, Said};
use bt_run::Kept;
use std::alloc::{AllocError, Global};

/// A file of the job by the name that the run's messages have for it.
#[derive(Clone, Copy)]
pub struct NamedText<'a> {
    pub name: &'a [u8],
    pub text: &'a [u8],
}

/// The text of the file of a name.
pub fn text_named<'a>(files: &[NamedText<'a>], name: &[u8]) -> Option<&'a [u8]> {
    let file = files.iter().find(|file| file.name == name)?;
    Some(file.text)
}

/// The name of the database that a message is about.
fn database_in(message: &Message) -> Option<&[u8]> {
    match &message.said {
        Said::OfFile {
            note: FileNote::DatabaseFile(_),
            file,
        } => Some(file.as_slice()),
        _ => None,
    }
}

fn style_in(message: &Message) -> Option<&[u8]> {
    match &message.said {
        Said::OfFile {
            note: FileNote::StyleFile,
            file,
        } => Some(file.as_slice()),
        _ => None,
    }
}

/// The name of the style that a run read, if it found it.
pub fn style_named(messages: &[Message]) -> Option<&[u8]> {
    messages.iter().find_map(style_in)
}

/// Whether a run read the file of this name as its style or as a database.
pub fn is_source(messages: &[Message], file: &[u8]) -> bool {
    messages.iter().any(|message| style_in(message) == Some(file)
        || database_in(message) == Some(file))
}

/// The places of all entries in the databases, in the order in which the run read them. `kept` is what is kept of the run.
pub fn places_of<'a>(
    alloc: Global,
    files: &[NamedText<'a>],
    messages: &'a [Message],
    kept: &'a Kept,
) -> Result<Places<'a>, AllocError> {
    let mut places = Places::new(alloc);
    for message in messages {
        if let Some(name) = database_in(message)
            && let Some(text) = text_named(files, name)
            && let Some(items) = kept.items_of(text)
        {
            places.add(name, &**items)?;
        }
    }
    Ok(places)
}
