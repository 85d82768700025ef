//! Comments of LaTeX.
//!
//! A citation that a comment closes is a mention, so a rename changes it too. One that a comment leaves open isn't: all words
//! after it would be keys, up to the next brace. So such a comment becomes blanks before a text is searched.

ghost use Rattle.std.specs.Prelude.{◌≡◌, ◌≤◌, false, length, IfOk};
ghost use Rattle.std.specs.List.{suffix_len, before_first};
ghost use Rattle.bt_text.specs.ByteTests.{is_line_feed};
ghost use Rattle.bt_places.specs.Commented.{is_in_line, has_comment, line_before, is_commented, comment_of, spot_after, shown_byte, without_open_comments};

use bt_mentions::{is_citing, part};
use bt_text::Bytes;
use std::alloc::{AllocError, Global};

/// Where a byte of a text is.
#[derive(Clone, Copy)]
enum Spot {
    /// In no comment.
    Text,
    /// A `\` in no comment: the next byte begins none.
    Escape,
    Comment,
    /// In a comment that leaves a citation open.
    Open,
}

/// Whether a line's first bytes have the beginning of a comment: a `%` that no `\` precedes.
fn has_comment(line: &[u8]) -> bool
    ensures { result ≡ has_comment false line.now }
{
    let mut escaped = false;
    let mut rest = line;
    'bytes: while let [first, others @ ..] = rest {
        if *first == b'%' && !escaped {
            return true;
        }
        escaped = *first == b'\\' && !escaped;
        rest = others;
    }
    false
}

fn line_len(front: &[u8]) -> usize
    ensures within { result ≤ length front.now }
    ensures len { result ≡ suffix_len is_in_line front.now }
{
    front
        .iter()
        .rev()
        .take_while(|byte| **byte != b'\n')
        .count()
}

/// The last line of a text.
fn line_before(front: &[u8]) -> &[u8]
    ensures { result.now ≡ line_before front.now }
{
    front.split_at(front.len() - line_len(front)).1
}

/// Whether a place of a text is in a comment of LaTeX.
pub fn is_commented(text: &[u8], place: usize) -> bool
    ensures { result ≡ is_commented place text.now }
{
    has_comment(line_before(part(text, 0, place)))
}

fn comment_len(behind: &[u8]) -> usize
    ensures within { result ≤ length behind.now }
    ensures len { result ≡ length (before_first is_line_feed behind.now) }
{
    behind.iter().take_while(|byte| **byte != b'\n').count()
}

/// The comment whose `%` these bytes follow.
fn comment_of(behind: &[u8]) -> Spot
    ensures { result ≡ comment_of behind.now }
{
    if is_citing(behind.split_at(comment_len(behind)).0) {
        Spot::Open
    } else {
        Spot::Comment
    }
}

/// Where a byte is, by where the byte before it is.
fn spot_after(before: Spot, byte: u8, behind: &[u8]) -> Spot
    ensures { result ≡ spot_after before byte behind.now }
{
    match before {
        Spot::Text => if byte == b'\\' {
            Spot::Escape
        } else if byte == b'%' {
            comment_of(behind)
        } else {
            Spot::Text
        },
        Spot::Escape => Spot::Text,
        Spot::Comment | Spot::Open => if byte == b'\n' { Spot::Text } else { before },
    }
}

fn shown_byte(spot: Spot, byte: u8) -> u8
    ensures { result ≡ shown_byte spot byte }
{
    match spot {
        Spot::Open => b' ',
        Spot::Text | Spot::Escape | Spot::Comment => byte,
    }
}

/// A text of LaTeX with blanks for each comment that leaves a citation open.
pub fn without_open_comments(alloc: Global, text: &[u8]) -> Result<Bytes, AllocError>
    ensures { IfOk result (λ made. made ≡ without_open_comments text.now) }
{
    let mut made = Vec::new(alloc);
    let mut spot = Spot::Text;
    let mut rest = text;
    'bytes: while let [first, behind @ ..] = rest {
        spot = spot_after(spot, *first, behind);
        made.push(shown_byte(spot, *first))?;
        rest = behind;
    }
    Ok(Bytes::from_vec(made))
}
