//! A message in words: what it says, then where it belongs, then its second line.
//!
//! Each function appends all its pieces in one call. The definition concatenates the same pieces, so the two texts are
//! equal by computation, without a lemma. And the pieces go straight into the log: no message is built as a text first.

ghost use Rattle.std.specs.Prelude.{◌≡◌, ◌++◌, Some, codes, decimal, OnOk};
ghost use Rattle.bt_log.specs.Wording.{kind_words, note_words, said_words, before_line, for_entry, place_words, spelled};
ghost use Rattle.bt_log.specs.inner.Cases.{while_reading, while_executing, step_words, second_line};

use crate::message::{FileKind, FileNote, Message, Place, Rank, Said};
use bt_text::{Bytes, Shared};
use itoa::Buffer;
use std::alloc::AllocError;

fn decimal(buffer: &mut Buffer, number: u128) -> &[u8]
    ensures { result.now ≡ decimal number }
{
    buffer.format(number).as_bytes()
}

fn kind_words(kind: FileKind) -> &'static [u8]
    ensures { result.now ≡ kind_words kind }
{
    match kind {
        FileKind::Aux => b"auxiliary",
        FileKind::Bib => b"database",
        FileKind::Bst => b"style",
    }
}

fn add_nested(text: &mut Bytes, level: usize, file: &[u8]) -> Result<(), AllocError>
    ensures { OnOk result (text.new ≡ text.old ++ (codes "A level-" ++ decimal level ++ codes " auxiliary file: " ++ file.now)) }
{
    let mut buffer = Buffer::new();
    let level = decimal(&mut buffer, level as u128);
    text.append_all(&[b"A level-", level, b" auxiliary file: ", file])
}

fn add_numbered(
    text: &mut Bytes,
    before: &[u8],
    number: usize,
    file: &[u8],
) -> Result<(), AllocError>
    ensures { OnOk result (text.new ≡ text.old ++ (before.now ++ decimal number ++ codes ": " ++ file.now)) }
{
    let mut buffer = Buffer::new();
    let number = decimal(&mut buffer, number as u128);
    text.append_all(&[before, number, b": ", file])
}

fn add_not_opened(text: &mut Bytes, kind: &[u8], file: &[u8]) -> Result<(), AllocError>
    ensures { OnOk result (text.new
        ≡ text.old ++ (codes "I couldn't open " ++ kind.now ++ codes " file " ++ file.now)) }
{
    text.append_all(&[b"I couldn't open ", kind, b" file ", file])
}

fn add_note(text: &mut Bytes, note: FileNote, file: &[u8]) -> Result<(), AllocError>
    ensures { OnOk result (text.new ≡ text.old ++ note_words note file.now) }
{
    match note {
        FileNote::RootAux => text.append_all(&[b"The top-level auxiliary file: ", file]),
        FileNote::NestedAux(level) => add_nested(text, level, file),
        FileNote::StyleFile => text.append_all(&[b"The style file: ", file]),
        FileNote::DatabaseFile(number) => add_numbered(text, b"Database file #", number, file),
        FileNote::NotOpened(kind) => add_not_opened(text, kind_words(kind), file),
        FileNote::DatabaseTwice => {
            text.append_all(&[b"This database file appears more than once: ", file])
        }
        FileNote::AuxTwice => text.append_all(&[b"Already encountered file ", file]),
        FileNote::WrongExtension => text.append_all(&[file, b" has a wrong extension"]),
        FileNote::BadFileName => text.append_all(&[file, b" isn't a file name of this profile"]),
    }
}

/// Adds what a message says, without its place. After an error, a part of it may have been added.
pub fn add_said(text: &mut Bytes, said: &Said) -> Result<(), AllocError>
    ensures { OnOk result (text.new ≡ text.old ++ said_words said.now) }
{
    match said {
        Said::Words(words) => text.append(words.as_slice()),
        Said::OfFile { note, file } => add_note(text, *note, file.as_slice()),
    }
}

fn before_line(rank: Rank) -> &'static [u8]
    ensures { result.now ≡ before_line rank }
{
    match rank {
        Rank::Warning => b"\n--line ",
        Rank::FileLine | Rank::Note | Rank::CallCount | Rank::Error | Rank::Fatal => b"---line ",
    }
}

fn add_entry(text: &mut Bytes, entry: &Option<Shared<Bytes>>) -> Result<(), AllocError>
    ensures { OnOk result (text.new ≡ text.old ++ for_entry entry.now) }
{
    if let Some(key) = entry {
        text.append_all(&[b" for entry ", key.as_slice()])?;
    }
    Ok(())
}

fn add_file_line(text: &mut Bytes, before: &[u8], line: u128, file: &[u8]) -> Result<(), AllocError>
    ensures { OnOk result (text.new ≡ text.old ++ (before.now ++ decimal line ++ codes " of file " ++ file.now)) }
{
    let mut buffer = Buffer::new();
    let line = decimal(&mut buffer, line);
    text.append_all(&[before, line, b" of file ", file])
}

fn add_command(
    text: &mut Bytes,
    entry: &Option<Shared<Bytes>>,
    style: &[u8],
    line: usize,
) -> Result<(), AllocError>
    ensures { OnOk result (text.new ≡ text.old ++ (for_entry entry.now ++ while_executing style.now line)) }
{
    add_entry(text, entry)?;
    add_file_line(text, b"\nwhile executing---line ", line as u128, style)
}

fn add_step(
    text: &mut Bytes,
    rank: Rank,
    entry: &Option<Shared<Bytes>>,
    style: &[u8],
    line: usize,
) -> Result<(), AllocError>
    ensures { OnOk result (text.new ≡ text.old ++ step_words rank entry.now style.now line) }
{
    match rank {
        Rank::FileLine | Rank::Note | Rank::CallCount | Rank::Warning => Ok(()),
        Rank::Error | Rank::Fatal => add_command(text, entry, style, line),
    }
}

fn add_database_line(
    text: &mut Bytes,
    before: &[u8],
    line: u128,
    number: usize,
) -> Result<(), AllocError>
    ensures { OnOk result (text.new
        ≡ text.old ++ (before.now ++ decimal line ++ codes " of database #" ++ decimal number)) }
{
    let mut digits = Buffer::new();
    let line = decimal(&mut digits, line);
    let mut buffer = Buffer::new();
    let number = decimal(&mut buffer, number as u128);
    text.append_all(&[before, line, b" of database #", number])
}

fn add_whole_file(text: &mut Bytes, file: &[u8]) -> Result<(), AllocError>
    ensures { OnOk result (text.new ≡ text.old ++ while_reading file.now) }
{
    text.append_all(&[b"---while reading file ", file])
}

fn add_place(
    text: &mut Bytes,
    rank: Rank,
    entry: &Option<Shared<Bytes>>,
    place: &Place,
) -> Result<(), AllocError>
    ensures { OnOk result (text.new ≡ text.old ++ place_words rank entry.now (Some place.now)) }
{
    match place {
        Place::Line { file, line, .. } => add_file_line(
            text,
            before_line(rank),
            *line,
            file.as_slice(),
        ),
        Place::DatabaseLine { database, line, .. } => {
            add_database_line(text, before_line(rank), *line, *database)
        }
        Place::WholeFile { file } => add_whole_file(text, file.as_slice()),
        Place::Step { style, line } => add_step(text, rank, entry, style.as_slice(), *line),
    }
}

fn add_second(text: &mut Bytes, second: &Option<Shared<Bytes>>) -> Result<(), AllocError>
    ensures { OnOk result (text.new ≡ text.old ++ second_line second.now) }
{
    if let Some(words) = second {
        text.append_all(&[b"\n", words.as_slice()])?;
    }
    Ok(())
}

/// Adds a message in words. After an error, a part of them may have been added.
pub fn spell(text: &mut Bytes, message: &Message) -> Result<(), AllocError>
    ensures { OnOk result (text.new ≡ text.old ++ spelled message.now) }
{
    add_said(text, &message.said)?;
    if let Some(place) = &message.place {
        add_place(text, message.rank, &message.entry, place)?;
    }
    add_second(text, &message.second)
}
