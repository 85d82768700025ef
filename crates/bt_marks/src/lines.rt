//! Lines of the output, and how long ones are broken.

ghost use Rattle.std.specs.Prelude.{◌≡◌, ◌++◌, ◌∷◌, [], IfOk, OnOk};
ghost use Rattle.bt_marks.specs.Bytes.{line_bytes, lines_bytes};

use crate::texts::Marked;
use bt_text::{Bytes, is_white};
use std::alloc::{AllocError, Global};

/// A byte of the output, and the number of the step that wrote it.
#[derive(Clone, Copy, PartialEq, Eq)]
pub struct Written {
    pub marked: Marked,
    pub step: usize,
}

/// A line of the output.
pub type Line = Vec<Written>;

/// A line is broken at the last of the places 3 to 79 that has white space; else after the first white space after them.
const FIRST_BREAK: usize = 3;

const WIDTH: usize = 79;

const BEHIND: usize = 80;

fn is_white_at(text: &[Written], place: usize) -> bool {
    match text.get(place) {
        Some(written) => is_white(written.marked.byte),
        None => false,
    }
}

fn near_break(text: &[Written]) -> Option<usize> {
    let mut last = None;
    for place in FIRST_BREAK..BEHIND {
        if is_white_at(text, place) {
            last = Some(place);
        }
    }
    last
}

/// The end of the first white space after the width.
fn far_break(text: &[Written]) -> Option<usize> {
    let mut last = None;
    for place in BEHIND..text.len() {
        if is_white_at(text, place) {
            last = Some(place);
        } else if last.is_some() {
            return last;
        }
    }
    last
}

fn break_place(text: &[Written]) -> Option<usize> {
    if text.len() <= WIDTH {
        None
    } else {
        near_break(text).or(far_break(text))
    }
}

/// A text without the white space at its end.
fn trimmed(text: &[Written]) -> &[Written] {
    let white = text
        .iter()
        .rev()
        .take_while(|written| is_white(written.marked.byte))
        .count();
    text.get(..text.len().saturating_sub(white)).unwrap_or(text)
}

fn push_line(alloc: Global, lines: &mut Vec<Line>, text: &[Written]) -> Result<(), AllocError> {
    let line = trimmed(text);
    if !line.is_empty() {
        lines.push(Vec::from_slice(alloc, line)?)?;
    }
    Ok(())
}

fn put(held: &mut Line, place: usize, space: Written) {
    if let Some(written) = held.get_mut(place) {
        *written = space;
    }
}

/// Breaks lines off what is held, as long as it is too long. `space` is what a line begins with after a break, twice: it
/// overwrites the white space at the break and the byte before, which is in a line by then. The only error is out of memory;
/// then `held` and `lines` may be changed in part.
pub fn break_lines(
    alloc: Global,
    held: &mut Line,
    lines: &mut Vec<Line>,
    space: Written,
) -> Result<(), AllocError> {
    let mut start = 0usize;
    for _ in 0..held.len() {
        let text = held.get(start..).unwrap_or(&[]);
        let Some(place) = break_place(text) else {
            break;
        };
        push_line(alloc, lines, text.get(..place).unwrap_or(&[]))?;
        start = start.saturating_add(place);
        put(held, start.saturating_sub(1), space);
        put(held, start, space);
        start = start.saturating_sub(1);
    }
    if start > 0 {
        *held = Vec::from_slice(alloc, held.get(start..).unwrap_or(&[]))?;
    }
    Ok(())
}

/// Ends the line that is held. The only error is out of memory; then nothing is changed.
pub fn end_line(alloc: Global, held: &mut Line, lines: &mut Vec<Line>) -> Result<(), AllocError> {
    if held.is_empty() {
        lines.push(Vec::new(alloc))?;
    } else {
        push_line(alloc, lines, held.as_slice())?;
    }
    *held = Vec::new(alloc);
    Ok(())
}

/// The bytes of a line, without its marks. The only error is out of memory.
pub fn line_bytes(alloc: Global, line: &[Written]) -> Result<Bytes, AllocError>
    ensures { IfOk result (λ bytes. bytes ≡ line_bytes line.now) }
{
    let mut bytes = Vec::with_capacity(alloc, line.len())?;
    'line: for written in line {
        bytes.push(written.marked.byte)?;
    }
    Ok(Bytes::from_vec(bytes))
}

fn add_line(alloc: Global, text: &mut Bytes, line: &[Written]) -> Result<(), AllocError>
    ensures { OnOk result (text.new ≡ text.old ++ line_bytes line.now ++ 10 ∷ []) }
{
    text.append(line_bytes(alloc, line)?.as_slice())?;
    text.append(b"\n")
}

/// The bytes of lines, each with a line feed after it. The only error is out of memory.
pub fn lines_bytes(alloc: Global, lines: &[Line]) -> Result<Bytes, AllocError>
    ensures { IfOk result (λ text. text ≡ lines_bytes lines.now) }
{
    let mut text = Bytes::new(alloc);
    'lines: for line in lines {
        add_line(alloc, &mut text, line.as_slice())?;
    }
    Ok(text)
}
