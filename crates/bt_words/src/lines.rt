//! The lines of a style's words, which the style itself doesn't keep.
//!
//! Only places are read here. `bt_style` says what the words mean; its reader has accepted the text before.

use bt_text::{eq_ignore_ascii_case, is_white};
use std::alloc::{AllocError, Global};

/// The lines of a function, from 1.
#[derive(Drop)]
pub struct FunctionLines {
    pub name: usize,
    /// The line of each word of its body in the order of the text; of a function in braces, that of its left brace.
    pub words: Vec<usize>,
}

#[derive(Drop)]
enum Piece<'a> {
    Open,
    Close,
    Word(&'a [u8]),
}

#[derive(Clone, Copy)]
struct Scan<'a> {
    rest: &'a [u8],
    line: usize,
}

fn is_word_byte(byte: u8) -> bool {
    !is_white(byte) && byte != b'%' && byte != b'{' && byte != b'}'
}

fn halves(bytes: &[u8], length: usize) -> (&[u8], &[u8]) {
    bytes.split_at(length.min(bytes.len()))
}

/// How many bytes the first piece of these bytes has: white space, a comment, a brace, a literal or a word.
fn piece_length(bytes: &[u8]) -> usize {
    match bytes {
        [] => 0,
        [b'%', rest @ ..] => rest
            .iter()
            .take_while(|b| **b != b'\n')
            .count()
            .saturating_add(1),
        [b'"', rest @ ..] => rest
            .iter()
            .take_while(|b| **b != b'"')
            .count()
            .saturating_add(2),
        [first, rest @ ..] => {
            if is_word_byte(*first) {
                rest.iter()
                    .take_while(|b| is_word_byte(**b))
                    .count()
                    .saturating_add(1)
            } else {
                1
            }
        }
    }
}

impl<'a> Scan<'a> {
    /// Takes the next piece: none if it is white space or a comment, or at the end.
    fn next(&mut self) -> Option<Piece<'a>> {
        let (piece, rest) = halves(self.rest, piece_length(self.rest));
        self.rest = rest;
        match piece {
            [b'\n'] => {
                self.line = self.line.saturating_add(1);
                None
            }
            [b'{'] => Some(Piece::Open),
            [b'}'] => Some(Piece::Close),
            [first, ..] if *first == b'"' || is_word_byte(*first) => Some(Piece::Word(piece)),
            _ => None,
        }
    }
}

#[derive(Drop)]
struct Place {
    is_function: bool,
    /// How many of the command's braces were opened.
    group: usize,
    depth: usize,
}

fn note_word(functions: &mut Vec<FunctionLines>, line: usize) -> Result<(), AllocError> {
    if let Some(function) = functions.last_mut() {
        function.words.push(line)?;
    }
    Ok(())
}

impl Place {
    fn word(
        &mut self,
        alloc: Global,
        functions: &mut Vec<FunctionLines>,
        word: &[u8],
        line: usize,
    ) -> Result<(), AllocError> {
        if self.depth == 0 {
            self.group = 0;
            self.is_function = eq_ignore_ascii_case(word, b"function");
        } else if self.is_function && self.group == 1 {
            functions.push(FunctionLines {
                name: line,
                words: Vec::new(alloc),
            })?;
        } else if self.is_function {
            note_word(functions, line)?;
        }
        Ok(())
    }

    fn piece(
        &mut self,
        alloc: Global,
        functions: &mut Vec<FunctionLines>,
        piece: Piece<'_>,
        line: usize,
    ) -> Result<(), AllocError> {
        match piece {
            Piece::Open => {
                if self.depth == 0 {
                    self.group = self.group.saturating_add(1);
                } else if self.is_function {
                    note_word(functions, line)?;
                }
                self.depth = self.depth.saturating_add(1);
                Ok(())
            }
            Piece::Close => {
                self.depth = self.depth.saturating_sub(1);
                Ok(())
            }
            Piece::Word(word) => self.word(alloc, functions, word, line),
        }
    }
}

/// The lines of a style's functions, in the order of the text.
pub fn function_lines(alloc: Global, text: &[u8]) -> Result<Vec<FunctionLines>, AllocError> {
    let mut functions = Vec::new(alloc);
    let mut scan = Scan {
        rest: text,
        line: 1,
    };
    let mut place = Place {
        is_function: false,
        group: 0,
        depth: 0,
    };
    for _ in 0..text.len() {
        let line = scan.line;
        if let Some(piece) = scan.next() {
            place.piece(alloc, &mut functions, piece, line)?;
        }
    }
    Ok(functions)
}

/// The line of the first word that is this name, in any case; 1 if there is none.
pub fn line_of(text: &[u8], name: &[u8]) -> usize {
    let mut scan = Scan {
        rest: text,
        line: 1,
    };
    for _ in 0..text.len() {
        let line = scan.line;
        if let Some(Piece::Word(word)) = scan.next() {
            if eq_ignore_ascii_case(word, name) {
                return line;
            }
        }
    }
    1
}
