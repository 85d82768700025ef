//! The tokens of a style's text, which is cut into pieces: tokens, and white space and comments, which are none.

ghost use Rattle.std.specs.Prelude.{◌≡◌, ◌+◌, ◌<◌, length};
ghost use Rattle.std.specs.List.{before_first};
ghost use Rattle.bt_text.specs.ByteTests.{is_line_feed};
ghost use Rattle.bt_style.specs.Token.{ends_word, ends_literal, may_follow, literal_piece};
ghost use Rattle.bt_style.specs.inner.Cursor.{IsPiece, front_piece};

use bt_text::is_white;
use memchr::{memchr, memchr2};

/// A token, or the end, with its line.
#[derive(Clone, Copy)]
pub struct Token<'a> {
    pub kind: TokenKind<'a>,
    pub line: usize,
}

/// What kind of token it is, without its line.
#[derive(Clone, Copy)]
pub enum TokenKind<'a> {
    End,
    Open,
    Close,
    Word(&'a [u8]),
    /// The bytes between two quotes of one line.
    Literal(&'a [u8]),
    /// A quote with no other on its line.
    Unclosed,
    /// Two quotes of one line, and right after them a byte that doesn't end a word.
    Glued,
}

fn ends_word(b: u8) -> bool
    ensures { result ≡ ends_word b }
{
    is_white(b) || b == b'%' || b == b'{' || b == b'}'
}

fn word_length(bytes: &[u8]) -> usize
    ensures { result ≡ length (before_first ends_word bytes.now) }
{
    bytes.iter().take_while(|b| !ends_word(**b)).count()
}

#[tactic(auto, using(crate::proofs::SeekLemmas::stands_before))]
fn comment_length(bytes: &[u8]) -> usize
    ensures { result ≡ length (before_first is_line_feed bytes.now) }
{
    memchr(b'\n', bytes).unwrap_or(bytes.len())
}

#[tactic(auto, using(crate::proofs::SeekLemmas::stands_before))]
fn literal_length(bytes: &[u8]) -> usize
    ensures { result ≡ length (before_first ends_literal bytes.now) }
{
    memchr2(b'"', b'\n', bytes).unwrap_or(bytes.len())
}

/// Whether these bytes may follow a literal.
fn may_follow(bytes: &[u8]) -> bool
    ensures { result ≡ may_follow bytes.now }
{
    match bytes {
        [] => true,
        [first, ..] => ends_word(*first),
    }
}

/// The piece that begins with a quote, which these bytes follow.
#[tactic(auto, unfolding(crate::specs::Token::literal_piece))]
fn literal(behind: &[u8]) -> (TokenKind<'_>, usize)
    ensures { IsPiece (literal_piece behind.now) (Some result.0) result.1 (length behind.now + 1) }
{
    let length = literal_length(behind);
    match &behind[length..] {
        [b'"', rest @ ..] => {
            if may_follow(rest) {
                (TokenKind::Literal(&behind[..length]), length + 2)
            } else {
                (TokenKind::Glued, length + 2)
            }
        }
        _ => (TokenKind::Unclosed, length + 1),
    }
}

/// The piece that the text begins with: a token or none, and how many bytes it has.
#[tactic(auto, unfolding(crate::specs::Token::piece_at))]
pub fn piece(rest: &[u8]) -> (Option<TokenKind<'_>>, usize)
    requires { 0 < length rest.now }
    ensures { IsPiece (front_piece rest.now) result.0 result.1 (length rest.now) }
{
    let behind = &rest[1..];
    let first = rest[0];
    if is_white(first) {
        (None, 1)
    } else if first == b'%' {
        (None, 1 + comment_length(behind))
    } else if first == b'{' {
        (Some(TokenKind::Open), 1)
    } else if first == b'}' {
        (Some(TokenKind::Close), 1)
    } else if first == b'"' {
        let (kind, size) = literal(behind);
        (Some(kind), size)
    } else {
        let size = 1 + word_length(behind);
        (Some(TokenKind::Word(&rest[..size])), size)
    }
}
