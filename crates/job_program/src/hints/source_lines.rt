//! The lines that messages speak of, with a mark under the place.

use crate::hints::{HINTS, Hints, Job};
use bt_log::{Message, Place, Rank, Said};
use bt_text::Bytes;
use itoa::Buffer;
use std::alloc::{AllocError, Global};

/// How much of a line is shown: what a terminal shows in two of its lines.
const SHOWN: usize = 160;

/// A line of a text, and how many bytes stand before it.
fn line_of(text: &[u8], number: u128) -> Option<(usize, &[u8])> {
    let mut before = 0usize;
    let mut left = number;
    'lines: for line in text.split(|byte| *byte == b'\n') {
        if left <= 1 {
            return Some((before, line));
        }
        left -= 1;
        before = before.saturating_add(line.len()).saturating_add(1);
    }
    None
}

fn begins_item(line: &[u8]) -> bool {
    line.trim_ascii_start().starts_with(b"@")
}

/// The number of the line in which the item begins that reaches into a line, if that is an earlier one.
fn item_line(text: &[u8], number: u128) -> Option<u128> {
    let mut begun = None;
    let mut current = 1u128;
    'lines: for line in text.split(|byte| *byte == b'\n') {
        if begins_item(line) {
            begun = Some(current);
        }
        if current >= number {
            break;
        }
        current = current.saturating_add(1);
    }
    begun.filter(|line| *line < number)
}

/// What stands under a line up to a mark: its tabs, and a space for each other letter.
fn indentation(alloc: Global, line: &[u8]) -> Result<Bytes, AllocError> {
    let mut spaces = Bytes::new(alloc);
    'letters: for byte in line {
        match *byte {
            b'\t' => spaces.append(b"\t")?,
            0x80..=0xBF => {}
            _ => spaces.append(b" ")?,
        }
    }
    Ok(spaces)
}

/// The part of a message's place that is shown.
#[derive(Drop)]
struct Shown<'a> {
    file: &'a [u8],
    line: u128,
    byte: Option<usize>,
}

fn place_of(message: &Message) -> Option<Shown<'_>> {
    if !matches!(message.rank, Rank::Warning | Rank::Error | Rank::Fatal) {
        return None;
    }
    match (&message.said, &message.place) {
        (Said::Words(_), Some(Place::Line { file, line, byte })) => Some(Shown {
            file: file.as_slice(),
            line: *line,
            byte: *byte,
        }),
        _ => None,
    }
}

/// The line under a line, with a mark below a byte of the text; empty without one.
fn mark(
    alloc: Global,
    line: &[u8],
    before: usize,
    byte: Option<usize>,
) -> Result<Bytes, AllocError> {
    let mut mark = Bytes::new(alloc);
    if let Some(byte) = byte
        && let Some(column) = byte.checked_sub(before)
        && let Some(left) = line.get(..column)
    {
        let spaces = indentation(alloc, left)?;
        mark.append(b"    ")?;
        mark.append(spaces.as_slice())?;
        mark.append(b"^\n")?;
    }
    Ok(mark)
}

/// Where the entry begins that reaches into a line; empty if it begins there.
fn beginning(alloc: Global, text: &[u8], place: &Shown<'_>) -> Result<Bytes, AllocError> {
    let mut begun = Bytes::new(alloc);
    if place.file.ends_with(b".bib")
        && let Some(first) = item_line(text, place.line)
    {
        let mut digits = Buffer::new();
        let first = digits.format(first).as_bytes();
        begun.append_all(&[b" (the entry begins at line ", first, b")"])?;
    }
    Ok(begun)
}

fn hint_at(
    alloc: Global,
    hints: &mut Hints<'_>,
    text: &[u8],
    place: &Shown<'_>,
) -> Result<(), AllocError> {
    let Some((before, line)) = line_of(text, place.line) else {
        return Ok(());
    };
    if line.is_empty() || line.len() > SHOWN {
        return Ok(());
    }
    let mut digits = Buffer::new();
    let number = digits.format(place.line).as_bytes();
    let mark = mark(alloc, line, before, place.byte)?;
    let begun = beginning(alloc, text, place)?;
    hints.give(&[
        b"hint: line ",
        number,
        b" of ",
        place.file,
        begun.as_slice(),
        b":\n    ",
        line,
        b"\n",
        mark.as_slice(),
    ]);
    Ok(())
}

/// Shows the lines that the first messages speak of: each takes a pass over its file.
pub fn hint(alloc: Global, hints: &mut Hints<'_>, job: Job<'_>) -> Result<(), AllocError> {
    let messages = job.messages();
    'places: for place in messages.iter().filter_map(place_of).take(HINTS) {
        if let Some(text) = job.text(place.file) {
            hint_at(alloc, hints, text, &place)?;
        }
    }
    Ok(())
}
