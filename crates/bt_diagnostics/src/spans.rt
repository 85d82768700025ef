//! The part of a text that a message of a line is about.

ghost use Rattle.std.specs.Prelude.{◌≡◌, ◌≤◌, ◌<◌, ◌+◌, ◌^◌, length};
ghost use Rattle.bt_diagnostics.specs.Spans.{blank_len, begin_of, span_of};

use bt_positions::{IndexedText, Lines, first_line};

/// A part of a text, by the offsets of its beginning and its end.
#[derive(Clone, Copy, Debug, PartialEq, Eq)]
pub struct Span {
    pub begin: usize,
    pub end: usize,
}

/// How many spaces and tabs a line begins with.
fn blank_len(line: &[u8]) -> usize
    ensures value { result ≡ blank_len line.now }
    ensures within { result ≤ length line.now }
{
    let mut count = 0;
    let mut rest = line;
    'bytes: while let [first, others @ ..] = rest {
        if *first != b' ' && *first != b'\t' {
            return count;
        }
        count += 1;
        rest = others;
    }
    count
}

/// The offset of a message in its line, which begins at `start`.
fn begin_of(byte: Option<usize>, start: usize, line: &[u8]) -> usize
    requires { start + length line.now < 2 ^ 64 }
    ensures value { result ≡ begin_of byte start line.now }
    ensures within { result ≤ start + length line.now }
{
    match byte {
        Some(byte) => {
            if start <= byte && byte <= start + line.len() {
                byte
            } else {
                start + blank_len(line)
            }
        }
        None => start + blank_len(line),
    }
}

/// What a message of a line, counted from 1, is about: the line from the byte on, if that is known and lies in the line,
/// otherwise the line without its leading blanks.
pub fn span_of(text: &IndexedText, number: u128, byte: Option<usize>) -> Span
    ensures value { result ≡ span_of number byte text.now }
    ensures begin { result.begin ≤ length text.now }
    ensures end { result.end ≤ length text.now }
{
    let start = text.line_begin(Lines::Bibtex, number.saturating_sub(1));
    let (_, rest) = text.as_slice().split_at(start);
    let line = first_line(rest);
    Span {
        begin: begin_of(byte, start, line),
        end: start + line.len(),
    }
}
