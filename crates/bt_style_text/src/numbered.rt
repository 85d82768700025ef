//! A style's program whose words have their number in the text in place of their line.

use crate::parts::part;
use crate::words::{Word, WordKind, words_of};
use bt_style::Style;
use bt_text::Bytes;
use bt_words::Program;
use std::alloc::{AllocError, Global};

/// The words of a style's text but for comments, and the program whose words have the numbers of these, from 1, for lines.
#[derive(Drop)]
pub struct Numbered {
    pub program: Program,
    words: Vec<Word>,
    /// The line of each word.
    lines: Vec<usize>,
}

/// A word of a style's text by its place, and its line, from 1.
#[derive(Clone, Copy)]
pub struct PlacedWord {
    pub start: usize,
    pub end: usize,
    pub line: usize,
}

fn feeds_in(bytes: &[u8]) -> usize {
    bytes.iter().filter(|byte| **byte == b'\n').count()
}

fn lines_of(alloc: Global, text: &[u8], words: &[Word]) -> Result<Vec<usize>, AllocError> {
    let mut lines = Vec::new(alloc);
    let mut line = 1usize;
    let mut end = 0usize;
    for word in words {
        line = line.saturating_add(feeds_in(part(text, end, word.start)));
        end = word.start;
        lines.push(line)?;
    }
    Ok(lines)
}

/// The same words, each on a line of its own.
fn spread(alloc: Global, text: &[u8], words: &[Word]) -> Result<Bytes, AllocError> {
    let mut all = Bytes::new(alloc);
    for word in words {
        all.append_all(&[part(text, word.start, word.end), b"\n"])?;
    }
    Ok(all)
}

fn is_comment(kind: WordKind) -> bool {
    matches!(kind, WordKind::Comment)
}

fn plain_words(alloc: Global, text: &[u8]) -> Result<Vec<Word>, AllocError> {
    let mut words = Vec::new(alloc);
    for word in words_of(alloc, text)? {
        if !is_comment(word.kind) {
            words.push(word)?;
        }
    }
    Ok(words)
}

impl Numbered {
    /// The program of a style with this text.
    pub fn of(alloc: Global, style: &Style, text: &[u8]) -> Result<Numbered, AllocError> {
        let words = plain_words(alloc, text)?;
        let spread = spread(alloc, text, words.as_slice())?;
        let lines = lines_of(alloc, text, words.as_slice())?;
        let program = Program::of(alloc, style, spread.as_slice())?;
        Ok(Numbered {
            program,
            words,
            lines,
        })
    }

    /// The word of a number, from 1.
    pub fn word(&self, number: usize) -> Option<PlacedWord> {
        let place = number.checked_sub(1)?;
        let word = self.words.get(place)?;
        let line = self.lines.get(place)?;
        Some(PlacedWord {
            start: word.start,
            end: word.end,
            line: *line,
        })
    }
}
