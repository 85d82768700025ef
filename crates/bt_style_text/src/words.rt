//! The words of a style's text, each with its place.
//!
//! They are the tokens of the style's reader (`Token.antt` of `bt_style`), and comments beside them.

ghost use Rattle.std.specs.Prelude.{◌≡◌, ◌+◌, ◌++◌, ◌<◌, ◌^◌, length, take, IfOk, OnOk, map};
ghost use Rattle.std.specs.List.{before_first};
ghost use Rattle.bt_text.specs.ByteTests.{is_line_feed};
ghost use Rattle.bt_style.specs.Token.{ends_word, ends_literal, may_follow, literal_piece};
ghost use Rattle.bt_style_text.specs.Words.{placed, words_of};
ghost use Rattle.bt_style_text.specs.inner.Words.{IsPiece, IsLiteral, front_piece, front_byte};

use bt_text::is_white;
use std::alloc::{AllocError, Global};

/// What kind of word it is.
#[derive(Clone, Copy)]
pub enum WordKind {
    Open,
    Close,
    /// Any word without quotes: a name, a number, a command.
    Plain,
    /// The bytes between two quotes of one line, with the quotes.
    Literal,
    /// A quote with no other on its line, or a literal that a word follows at once.
    Broken,
    Comment,
}

/// A word of a text: its kind, and the places where it begins and ends.
#[derive(Clone, Copy)]
pub struct Word {
    pub kind: WordKind,
    pub start: usize,
    pub end: usize,
}

fn ends_word(b: u8) -> bool
    ensures { result ≡ ends_word b }
{
    is_white(b) || b == b'%' || b == b'{' || b == b'}'
}

fn word_length(bytes: &[u8]) -> usize
    ensures { result ≡ length (before_first ends_word bytes.now) }
{
    bytes.iter().take_while(|b| !ends_word(**b)).count()
}

fn comment_length(bytes: &[u8]) -> usize
    ensures { result ≡ length (before_first is_line_feed bytes.now) }
{
    bytes.iter().take_while(|b| **b != b'\n').count()
}

fn literal_length(bytes: &[u8]) -> usize
    ensures { result ≡ length (before_first ends_literal bytes.now) }
{
    bytes
        .iter()
        .take_while(|b| **b != b'"' && **b != b'\n')
        .count()
}

fn may_follow(bytes: &[u8]) -> bool
    ensures { result ≡ may_follow bytes.now }
{
    match bytes {
        [] => true,
        [first, ..] => ends_word(*first),
    }
}

/// The word that begins with a quote, which these bytes follow.
#[tactic(auto, unfolding(bt_style::specs::Token::literal_piece))]
fn literal(behind: &[u8]) -> (WordKind, usize)
    ensures { IsLiteral (literal_piece behind.now) result.0 result.1 (length behind.now + 1) }
{
    let length = literal_length(behind);
    match &behind[length..] {
        [b'"', rest @ ..] => {
            if may_follow(rest) {
                (WordKind::Literal, length + 2)
            } else {
                (WordKind::Broken, length + 2)
            }
        }
        _ => (WordKind::Broken, length + 1),
    }
}

/// What a text begins with: a word or none, and how many bytes it has.
#[tactic(auto, unfolding(bt_style::specs::Token::piece_at))]
fn piece(rest: &[u8]) -> (Option<WordKind>, usize)
    requires { 0 < length rest.now }
    ensures { IsPiece (front_byte rest.now) (front_piece rest.now) result.0 result.1 (length rest.now) }
{
    let behind = &rest[1..];
    let first = rest[0];
    if is_white(first) {
        (None, 1)
    } else if first == b'%' {
        (Some(WordKind::Comment), 1 + comment_length(behind))
    } else if first == b'{' {
        (Some(WordKind::Open), 1)
    } else if first == b'}' {
        (Some(WordKind::Close), 1)
    } else if first == b'"' {
        let (kind, size) = literal(behind);
        (Some(kind), size)
    } else {
        (Some(WordKind::Plain), 1 + word_length(behind))
    }
}

fn put(
    words: &mut Vec<Word>,
    kind: Option<WordKind>,
    start: usize,
    end: usize,
) -> Result<(), AllocError>
    ensures { OnOk result (words.new.items ≡ words.old.items ++ placed kind start end) }
{
    if let Some(kind) = kind {
        words.push(Word { kind, start, end })?;
    }
    Ok(())
}

/// The words of a text, in order.
pub fn words_of(alloc: Global, text: &[u8]) -> Result<Vec<Word>, AllocError>
    ensures { IfOk result (λ words. words.items ≡ words_of text.now) }
{
    let mut words = Vec::new(alloc);
    let mut start = 0;
    let mut rest = text;
    'pieces: while !rest.is_empty() {
        let (kind, size) = piece(rest);
        put(&mut words, kind, start, start + size)?;
        start += size;
        rest = rest.split_at(size).1;
    }
    Ok(words)
}
