//! How a case is spelled: words with a space between them, and a word's parts with colons; a text in hexadecimal, `-`
//! for the empty text, or in pieces with `+` between them, each as often as the number before its `*` says.

ghost use Rattle.std.specs.Prelude.{◌<◌};

use bt_text::{Bytes, Shared};
use std::alloc::{AllocError, Global};
use std::iter::Skip;
use std::str::Split;

/// The words of a case, or the parts of a word.
#[derive(Clone, Copy)]
pub struct Words<'a> {
    pub alloc: Global,
    words: &'a str,
    sign: char,
}

fn digit(byte: u8) -> u8
    ensures { result < 16 }
{
    match byte {
        b'0'..=b'9' => byte - b'0',
        b'a'..=b'f' => byte - b'a' + 10,
        _ => 0,
    }
}

fn push_unspelled(bytes: &mut Vec<u8>, digits: &str) -> Result<(), AllocError> {
    for pair in digits.as_bytes().chunks(2) {
        if let [high, low] = pair {
            bytes.push(digit(*high) * 16 + digit(*low))?;
        }
    }
    Ok(())
}

impl<'a> Words<'a> {
    pub fn of(alloc: Global, words: &'a str) -> Self {
        let sign = ' ';
        Words { alloc, words, sign }
    }

    /// The parts of a word.
    pub fn parts(self, words: &'a str) -> Self {
        let (alloc, sign) = (self.alloc, ':');
        Words { alloc, words, sign }
    }

    /// The words after the first ones.
    pub fn after(self, count: usize) -> Skip<Split<'a, char>> {
        self.words.split(self.sign).skip(count)
    }

    /// The word at a place, or an empty one.
    pub fn word(self, place: usize) -> &'a str {
        self.after(place).next().unwrap_or("")
    }

    /// The integer at a place, or 0.
    pub fn number(self, place: usize) -> i32 {
        self.word(place).parse::<i32>().unwrap_or(0)
    }

    /// The place or length at a place, or 0.
    pub fn count(self, place: usize) -> usize {
        self.word(place).parse::<usize>().unwrap_or(0)
    }

    /// The bytes that the word at a place spells.
    pub fn text(self, place: usize) -> Result<Vec<u8>, AllocError> {
        let mut bytes = Vec::new(self.alloc);
        for piece in self.word(place).split('+') {
            let (count, digits) = piece.split_once('*').unwrap_or(("1", piece));
            for _ in 0..count.parse::<usize>().unwrap_or(0) {
                push_unspelled(&mut bytes, digits)?;
            }
        }
        Ok(bytes)
    }

    pub fn shared(self, place: usize) -> Result<Shared<Bytes>, AllocError> {
        Shared::<Bytes>::copied(self.alloc, &self.text(place)?)
    }
}
