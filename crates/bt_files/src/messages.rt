//! Messages with the author's names of files in place of the session's.

ghost use Rattle.std.specs.Prelude.{◌≡◌, map, IfOk};
ghost use Rattle.bt_files.specs.Messages.{name_back, said_back, place_back, put_back};

use crate::names::Names;
use bt_log::{Message, Place, Said};
use bt_text::{Bytes, Sequence, Shared};
use std::alloc::{AllocError, Global};

/// The author's name of a file; a name that stands for none stays.
fn name_back(
    alloc: Global,
    names: &Names,
    file: &Shared<Bytes>,
) -> Result<Shared<Bytes>, AllocError>
    ensures { IfOk result (λ name. name ≡ name_back names.now file.now) }
{
    match names.author_name(file.as_slice()) {
        Some(author) => Shared::<Bytes>::copied(alloc, author),
        None => file.share(),
    }
}

fn said_back(alloc: Global, names: &Names, said: &Said) -> Result<Said, AllocError>
    ensures { IfOk result (λ back. back ≡ said_back names.now said.now) }
{
    match said {
        Said::Words(_) => said.share(),
        Said::OfFile { note, file } => Ok(Said::OfFile {
            note: *note,
            file: name_back(alloc, names, file)?,
        }),
    }
}

fn place_back(alloc: Global, names: &Names, place: &Place) -> Result<Place, AllocError>
    ensures { IfOk result (λ back. back ≡ place_back names.now place.now) }
{
    match place {
        Place::Line { file, line, byte } => Ok(Place::Line {
            file: name_back(alloc, names, file)?,
            line: *line,
            byte: *byte,
        }),
        Place::DatabaseLine {
            database,
            line,
            byte,
        } => Ok(Place::DatabaseLine {
            database: *database,
            line: *line,
            byte: *byte,
        }),
        Place::WholeFile { file } => Ok(Place::WholeFile {
            file: name_back(alloc, names, file)?,
        }),
        Place::Step { style, line } => Ok(Place::Step {
            style: name_back(alloc, names, style)?,
            line: *line,
        }),
    }
}

/// The message with the author's name of each file in place of the session's, in what it says and in its place. A name
/// that stands for none stays. The only error is out of memory.
pub fn put_back(alloc: Global, names: &Names, message: &Message) -> Result<Message, AllocError>
    ensures { IfOk result (λ back. back ≡ put_back names.now message.now) }
{
    let said = said_back(alloc, names, &message.said)?;
    let place = match &message.place {
        None => None,
        Some(place) => Some(place_back(alloc, names, place)?),
    };
    let mut back = message.share()?;
    back.said = said;
    back.place = place;
    Ok(back)
}

/// Each message with the author's names, in their order. The only error is out of memory.
pub fn all_put_back(
    alloc: Global,
    names: &Names,
    messages: &[Message],
) -> Result<Sequence<Message>, AllocError>
    ensures { IfOk result (λ back. back ≡ map (put_back names.now) messages.now) }
{
    let mut back = Sequence::new(alloc);
    'messages: for message in messages {
        back.push(put_back(alloc, names, message)?)?;
    }
    Ok(back)
}
