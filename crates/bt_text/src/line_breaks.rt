//! Where a long text is broken into lines: at one of the places 3 (`first_break`) to 79 (`line_width`), or else after
//! place 79.

ghost use Rattle.std.specs.Prelude.{◌≡◌, ◌<◌, ◌≤◌, ◌++◌, ◌∷◌, [], length, None, IfOk, IfSome, OnOk, OnErr};
ghost use Rattle.bt_text.specs.LineBreaks.{break_place, broken, line_unless_empty, near_break, run_end};

use crate::byte_tests::is_white;
use crate::bytes::Bytes;
use crate::held::LINE_BYTES;
use crate::output::Output;
use crate::sequence::Sequence;
use crate::white::{dark_run, trim_end, white_run};
use std::alloc::{AllocError, Global};

/// The greatest of the places 3 to 79 that holds white space. It is looked for from the end, where it mostly is.
fn near_break(text: &[u8]) -> Option<usize>
    requires { 79 < length text.now }
    ensures place { result ≡ near_break text.now }
    ensures within { IfSome result (λ i. (3 ≤ i) × (i < 80)) }
{
    let mut end = 80;
    'places: while 3 < end {
        end -= 1;
        if is_white(text[end]) {
            return Some(end);
        }
    }
    None
}

/// The last byte of the first run of white space that begins after place 79.
fn run_end(text: &[u8]) -> Option<usize>
    requires { 79 < length text.now }
    ensures place { result ≡ run_end text.now 80 }
    ensures within { IfSome result (λ i. (3 ≤ i) × (i < length text.now)) }
{
    let start = 80 + dark_run(&text[80..]);
    if start < text.len() {
        Some(start + white_run(&text[start..]) - 1)
    } else {
        None
    }
}

fn break_place(text: &[u8]) -> Option<usize>
    ensures place { result ≡ break_place text.now }
    ensures within { IfSome result (λ i. (3 ≤ i) × (i < length text.now)) }
{
    if text.len() <= 79 {
        return None;
    }
    match near_break(text) {
        Some(place) => Some(place),
        None => run_end(text),
    }
}

/// How many lines there is room for once there is one.
const FIRST_LINES: usize = 8;

/// Puts a whole line after others. The first one makes room for some more.
pub fn add_line(lines: &mut Sequence<Bytes>, line: Bytes) -> Result<(), AllocError>
    ensures ok { OnOk result (lines.new ≡ lines.old ++ line ∷ []) }
    ensures err { OnErr result (lines.new ≡ lines.old) }
{
    if lines.len() == 0 {
        lines.reserve(FIRST_LINES)?;
    }
    lines.push(line)?;
    Ok(())
}

/// Puts a line after others, without the white space at its end, unless nothing is left of it.
pub fn push_line(alloc: Global, lines: &mut Sequence<Bytes>, text: &[u8]) -> Result<(), AllocError>
    ensures ok { OnOk result (lines.new ≡ lines.old ++ line_unless_empty text.now) }
    ensures err { OnErr result (lines.new ≡ lines.old) }
{
    let line = trim_end(text);
    if !line.is_empty() {
        add_line(lines, Bytes::copied(alloc, line)?)?;
    }
    Ok(())
}

/// The lines that a text is broken into, and what is held then. The rest of a text after a break place begins with two
/// spaces. They overwrite the two bytes before it, which are in a line by then, so the rest is never moved.
pub fn break_lines(alloc: Global, text: Vec<u8>) -> Result<Output, AllocError>
    ensures output { IfOk result (λ output. output ≡ broken text.items) }
    ensures whole { IfOk result (λ output. break_place output.held ≡ None) }
    ensures shorter { IfOk result (λ output. length output.held ≤ length text.items) }
{
    let mut bytes = text;
    let mut lines = Sequence::new(alloc);
    let mut start = 0;
    while let Some(place) = break_place(&bytes[start..]) {
        push_line(alloc, &mut lines, &bytes[start..start + place])?;
        start += place - 1;
        bytes[start] = b' ';
        bytes[start + 1] = b' ';
    }
    let held = Bytes::roomy(alloc, &bytes[start..], LINE_BYTES)?;
    Ok(Output { lines, held })
}
