//! The lines of a text: where they begin, and the first one.

ghost use Rattle.std.specs.Prelude.{◌≡◌, ◌≤◌, [], ◌∷◌, ◌++◌, length, if◌then◌else◌, IfOk, OnOk, false, None};
ghost use Rattle.memchr.specs.Find.{IsFirstByte, is_byte};
ghost use Rattle.bt_positions.specs.declared.lines.Lines.TheVariants.{Editor, Bibtex};
ghost use Rattle.bt_positions.specs.Lines.{begins_with_feed, ends_line, first_line, line_ends, place_of_line};
ghost use Rattle.bt_positions.specs.inner.LineStarts.{line_starts, starts_or};

use memchr::{memchr, memchr2};
use std::alloc::{AllocError, Global};

/// Whose lines are counted.
#[derive(Clone, Copy, Debug, PartialEq, Eq)]
pub enum Lines {
    /// A line ends after LF, CR LF, or a CR that no LF follows.
    Editor,
    /// A line ends after LF, as a session's messages count them.
    Bibtex,
}

fn begins_with_feed(text: &[u8]) -> bool
    ensures { result ≡ begins_with_feed text.now }
{
    match text {
        [first, ..] => *first == b'\n',
        [] => false,
    }
}

/// Whether a line ends between a byte and what follows it.
fn ends_line(lines: Lines, byte: u8, rest: &[u8]) -> bool
    ensures { result ≡ ends_line lines byte rest.now }
{
    match lines {
        Lines::Editor => byte == b'\n' || (byte == b'\r' && !begins_with_feed(rest)),
        Lines::Bibtex => byte == b'\n',
    }
}

fn push_if(starts: &mut Vec<usize>, ends: bool, start: usize) -> Result<(), AllocError>
    ensures { OnOk result (starts.new.items ≡ starts.old.items ++ (if ends then start ∷ [] else [])) }
{
    if ends {
        starts.push(start)?;
    }
    Ok(())
}

/// The offsets at which lines begin, from the second line on.
pub fn line_starts(alloc: Global, lines: Lines, text: &[u8]) -> Result<Vec<usize>, AllocError>
    ensures { IfOk result (λ starts. starts.items ≡ line_starts lines 0 text.now) }
{
    let mut starts = Vec::new(alloc);
    let mut place = 0;
    let mut rest = text;
    'ends: while let Some(count) = memchr2(b'\n', b'\r', rest) {
        let byte = rest[count];
        let (_, others) = rest.split_at(count + 1);
        rest = others;
        place += count + 1;
        push_if(&mut starts, ends_line(lines, byte, rest), place)?;
    }
    Ok(starts)
}

pub fn has_return(text: &[u8]) -> bool
    ensures { result ≡ false → IsFirstByte (is_byte 13) text.now None }
{
    memchr(b'\r', text).is_some()
}

/// Where lines begin as messages count them; none if the text has no CR, since they are then the editor's.
#[tactic(auto, using(crate::proofs::StartLemmas::without_returns))]
pub fn own_starts(alloc: Global, text: &[u8]) -> Result<Option<Vec<usize>>, AllocError>
    ensures { IfOk result (λ own. starts_or own (line_starts Editor 0 text.now) ≡ line_starts Bibtex 0 text.now) }
{
    if !has_return(text) {
        return Ok(None);
    }
    let starts = line_starts(alloc, Lines::Bibtex, text)?;
    Ok(Some(starts))
}

/// The offset at which a line begins, counted from 0, of a text with these line starts.
pub fn line_begin(text: &[u8], lines: Lines, starts: &[usize], line: u128) -> usize
    requires { starts.now ≡ line_starts lines 0 text.now }
    ensures value { result ≡ place_of_line lines line text.now }
{
    if line == 0 {
        0
    } else if line > starts.len() as u128 {
        text.len()
    } else {
        starts[(line - 1) as usize]
    }
}

/// How many of an editor's lines end within the first `offset` bytes of a text with these line starts.
pub fn lines_before(text: &[u8], starts: &[usize], offset: usize) -> usize
    requires { starts.now ≡ line_starts Editor 0 text.now }
    ensures value { result ≡ line_ends offset text.now }
    ensures within { result ≤ length starts.now }
{
    starts.partition_point(|start| *start <= offset)
}

/// The length of the first line, without its end.
fn first_line_len(text: &[u8]) -> usize
    ensures value { result ≡ length (first_line text.now) }
    ensures within { result ≤ length text.now }
{
    match memchr2(b'\n', b'\r', text) {
        Some(count) => count,
        None => text.len(),
    }
}

/// The text up to its first CR or LF.
#[tactic(auto, using(crate::proofs::LineLemmas::take_first_line))]
pub fn first_line(text: &[u8]) -> &[u8]
    ensures line { result.now ≡ first_line text.now }
    ensures within { length result.now ≤ length text.now }
{
    let (line, _) = text.split_at(first_line_len(text));
    line
}
