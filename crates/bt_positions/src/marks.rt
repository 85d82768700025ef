//! Marks: how far some offsets of a text are in their lines.
//!
//! The characters of a line that an editor counts are those before an offset, so each position in a line would cost a pass
//! over the line up to it: a text in one long line, with many positions, would take quadratic time. Mark `k`, counted
//! from 1, is the units before the offset `k * STRIDE` in its line. A position is counted from the last mark before it, if
//! that lies in its line. Each mark is found from the one before it in the same way, so short lines cost hardly anything.

ghost use Rattle.std.specs.Prelude.{◌≡◌, ◌≤◌, ◌<◌, ◌*◌, ◌-◌, ◌^◌, length, slice_index, IfOk};
ghost use Rattle.bt_positions.specs.declared.lines.Lines.TheVariants.{Editor};
ghost use Rattle.bt_positions.specs.inner.LineStarts.{line_starts};
ghost use Rattle.bt_positions.specs.inner.Marks.{line_start, character_at, marks_of, line_at, LeadsTo};

use crate::counting::{Counting, width};
use crate::lines::{Lines, line_begin, lines_before};
use std::alloc::{AllocError, Global};

/// A position costs a pass over at most so many bytes, and a text of 1 MB has 512 marks.
const STRIDE: usize = 2048;

/// An editor's line, by its number, counted from 0, and the offsets at which it and the next line begin.
#[derive(Clone, Copy)]
pub struct Line {
    pub number: usize,
    pub start: usize,
    pub next: usize,
}

/// A place in a line, and the units before it in that line.
#[derive(Clone, Copy)]
pub struct Spot {
    pub place: usize,
    pub units: usize,
}

/// The line of a number, of a text with these line starts.
pub fn line_at(text: &[u8], starts: &[usize], number: usize) -> Line
    requires { starts.now ≡ line_starts Editor 0 text.now }
    ensures { result ≡ line_at number text.now }
{
    let line = number as u128;
    Line {
        number,
        start: line_begin(text, Lines::Editor, starts, line),
        next: line_begin(text, Lines::Editor, starts, line + 1),
    }
}

/// Where the line of an offset begins, of a text with these line starts.
fn line_start(text: &[u8], starts: &[usize], offset: usize) -> usize
    requires { starts.now ≡ line_starts Editor 0 text.now }
    ensures { result ≡ line_start offset text.now }
{
    let line = lines_before(text, starts, offset);
    line_begin(text, Lines::Editor, starts, line as u128).min(offset)
}

/// The units before an offset in its line, which begins at `start`, by marks of the text.
pub fn character_at(
    text: &[u8],
    counting: Counting,
    marks: &[usize],
    start: usize,
    offset: usize,
) -> usize
    requires marks { marks.now ≡ marks_of counting (length marks.now) text.now }
    requires start { start ≡ line_start offset text.now }
    requires within { offset ≤ length text.now }
    requires small { 2 * length text.now < 2 ^ 64 }
    ensures { result ≡ character_at counting offset text.now }
{
    let count = (offset / STRIDE).min(marks.len());
    let place = count * STRIDE;
    if place <= start {
        return width(counting, &text[start..offset]);
    }
    marks[count - 1] + width(counting, &text[place..offset])
}

/// The marks of a text with these line starts; none of a text of 2^63 bytes.
pub fn marks_of(
    alloc: Global,
    counting: Counting,
    text: &[u8],
    starts: &[usize],
) -> Result<Vec<usize>, AllocError>
    requires { starts.now ≡ line_starts Editor 0 text.now }
    ensures { IfOk result (λ all. all.items ≡ marks_of counting (length all.items) text.now) }
{
    let mut all = Vec::new(alloc);
    if text.len() > usize::MAX / 2 {
        return Ok(all);
    }
    'marks: for count in 0..text.len() / STRIDE {
        let offset = (count + 1) * STRIDE;
        let start = line_start(text, starts, offset);
        all.push(character_at(text, counting, all.as_slice(), start, offset))?;
    }
    Ok(all)
}

/// The number of the last mark from `from` up to `to` that is at most a character; `from` if none is.
fn last_up_to(marks: &[usize], from: usize, to: usize, character: usize) -> usize
    requires from { from ≤ to }
    requires to { to ≤ length marks.now }
    ensures from { from ≤ result }
    ensures to { result ≤ to }
    ensures before { from < result → slice_index marks.now (result - 1) ≤ character }
{
    let mut low = from;
    let mut high = to;
    'halves: while low < high {
        let middle = low + (high - low) / 2;
        if marks[middle] <= character {
            low = middle + 1;
        } else {
            high = middle;
        }
    }
    low
}

/// The last marked place of a line up to a character; the line's beginning if none is marked.
fn marked_spot(
    text: &[u8],
    counting: Counting,
    marks: &[usize],
    line: Line,
    character: usize,
) -> Spot
    requires marks { marks.now ≡ marks_of counting (length marks.now) text.now }
    requires line { line ≡ line_at line.number text.now }
    ensures { LeadsTo counting character line.start text.now result }
{
    // A line's end has at most two bytes, and no character of the line is found behind it.
    let to = (line.next.saturating_sub(2) / STRIDE).min(marks.len());
    let from = (line.start / STRIDE).min(to);
    let count = last_up_to(marks, from, to, character);
    if count == from {
        return Spot {
            place: line.start,
            units: 0,
        };
    }
    Spot {
        place: count * STRIDE,
        units: marks[count - 1],
    }
}

/// A place of a line from which a character is near, by marks of the text.
pub fn spot_near(
    text: &[u8],
    counting: Counting,
    marks: &[usize],
    line: Line,
    character: usize,
) -> Spot
    requires marks { marks.now ≡ marks_of counting (length marks.now) text.now }
    requires line { line ≡ line_at line.number text.now }
    ensures { LeadsTo counting character line.start text.now result }
{
    match counting {
        Counting::Utf8 | Counting::LatinAsUtf16 => {
            // Each byte is a unit.
            let room = line.next.saturating_sub(2).saturating_sub(line.start);
            let units = character.min(room);
            Spot {
                place: line.start + units,
                units,
            }
        }
        Counting::Utf16 | Counting::LatinAsUtf8 => {
            marked_spot(text, counting, marks, line, character)
        }
    }
}
