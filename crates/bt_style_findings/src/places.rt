//! Where in a text the word of a finding is: the check knows only its line.

use bt_style_text::{Mark, Role, part};
use bt_text::eq_ignore_ascii_case;

/// A part of a text, by the offsets of its beginning and its end.
#[derive(Clone, Copy)]
pub struct Place {
    pub start: usize,
    pub end: usize,
}

/// A text and its words.
#[derive(Clone, Copy)]
pub struct Words<'a> {
    pub text: &'a [u8],
    pub marks: &'a [Mark],
}

/// Which words of a line are wanted.
#[derive(Clone, Copy)]
pub enum Wanted<'a> {
    /// Those that are this name.
    Name(&'a [u8]),
    /// Those that declare one of these names, which blanks separate.
    DeclaredIn(&'a [u8]),
}

/// Whether a name is one of some words.
fn is_among(words: &[u8], name: &[u8]) -> bool {
    words
        .split(|byte| *byte == b' ')
        .any(|word| eq_ignore_ascii_case(word, name))
}

impl Wanted<'_> {
    fn is(self, role: Role, word: &[u8]) -> bool {
        match self {
            Wanted::Name(name) => eq_ignore_ascii_case(word, name),
            Wanted::DeclaredIn(words) => {
                matches!(role, Role::Declared(_)) && is_among(words, word)
            }
        }
    }
}

fn line_length(bytes: &[u8]) -> usize {
    bytes.iter().take_while(|byte| **byte != b'\n').count()
}

fn is_blank(byte: u8) -> bool {
    byte == b' ' || byte == b'\t' || byte == b'\r'
}

fn blank_length(bytes: &[u8]) -> usize {
    bytes.iter().take_while(|byte| is_blank(**byte)).count()
}

/// The line of this number, from 1; the last one if there are fewer.
fn line_of(text: &[u8], number: usize) -> Place {
    let mut start = 0usize;
    for _ in 1..number {
        let length = line_length(part(text, start, text.len())).saturating_add(1);
        if start.saturating_add(length) >= text.len() {
            break;
        }
        start = start.saturating_add(length);
    }
    let length = line_length(part(text, start, text.len()));
    Place {
        start,
        end: start.saturating_add(length),
    }
}

impl Words<'_> {
    /// A line without its leading blanks.
    pub fn line(&self, number: usize) -> Place {
        let Place { start, end } = line_of(self.text, number);
        let blanks = blank_length(part(self.text, start, end));
        Place {
            start: start.saturating_add(blanks),
            end,
        }
    }

    /// The words of a line that are wanted, from the first to the last one; the line if there is none.
    pub fn place_of(&self, number: usize, wanted: Wanted<'_>) -> Place {
        let line = self.line(number);
        let mut found: Option<Place> = None;
        for mark in self.marks {
            let word = part(self.text, mark.start, mark.end);
            if mark.start >= line.start && mark.end <= line.end && wanted.is(mark.role, word) {
                found = Some(Place {
                    start: found.map_or(mark.start, |place| place.start),
                    end: mark.end,
                });
            }
        }
        found.unwrap_or(line)
    }
}
