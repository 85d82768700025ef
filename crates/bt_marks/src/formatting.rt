//! Marks through `format.name$`, which puts the words of a name in another order and cuts some of them to their initials.
//!
//! A byte of the result comes from the byte of the name after the one that the byte before it comes from, if they are
//! equal; else a word of the name begins there. All other bytes were put in by the pattern. What is written is a name of a
//! list, so only that name is searched.

ghost use Rattle.std.specs.Prelude.{◌≡◌, IfOk};
ghost use Rattle.bt_marks.specs.Bytes.{text_bytes};

use crate::alignment::{Maker, first_mark};
use crate::marks::{Marks, Source};
use crate::texts::{Marked, Text};
use bt_text::is_white;
use std::alloc::{AllocError, Global};

/// Whether a word of a name can't begin with a byte, nor hold it.
fn is_between(byte: u8) -> bool {
    is_white(byte) || matches!(byte, b'~' | b'-' | b',' | b'.')
}

/// How deep in braces a text is after a byte.
fn depth_after(depth: usize, byte: u8) -> usize {
    match byte {
        b'{' => depth.saturating_add(1),
        b'}' => depth.saturating_sub(1),
        _ => depth,
    }
}

/// Whether a list of names has an `and` here.
fn is_and(rest: &[Marked]) -> bool {
    match rest {
        [a, n, d, after, ..] => {
            a.byte.to_ascii_lowercase() == b'a'
                && n.byte.to_ascii_lowercase() == b'n'
                && d.byte.to_ascii_lowercase() == b'd'
                && is_white(after.byte)
        }
        _ => false,
    }
}

/// The name of this number in a list of names, counted from 1: the first if the number is less, the last if it is more.
pub fn name_in(names: &[Marked], number: i32) -> &[Marked] {
    let mut rest = names;
    let mut name = names;
    let mut left = number;
    let mut depth = 0usize;
    let mut is_after_white = false;
    let mut length = 0usize;
    for _ in 0..names.len() {
        let [first, behind @ ..] = rest else {
            return name;
        };
        if depth == 0 && is_after_white && is_and(rest) {
            if left <= 1 {
                return name.get(..length).unwrap_or(name);
            }
            left = left.saturating_sub(1);
            name = rest.get(3..).unwrap_or(&[]);
            rest = name;
            length = 0;
            is_after_white = true;
        } else {
            depth = depth_after(depth, first.byte);
            is_after_white = is_white(first.byte);
            length = length.saturating_add(1);
            rest = behind;
        }
    }
    name
}

/// How many bytes two texts have in common at their beginning.
fn common(text: &[Marked], bytes: &[u8]) -> usize {
    let mut count = 0usize;
    for (marked, byte) in text.iter().zip(bytes.iter()) {
        if marked.byte != *byte {
            return count;
        }
        count = count.saturating_add(1);
    }
    count
}

/// Where in a name a word begins that has the most bytes in common with these.
fn word_of(name: &[Marked], bytes: &[u8]) -> Option<usize> {
    let mut best = None;
    let mut most = 0usize;
    let mut begins = true;
    for (place, marked) in name.iter().enumerate() {
        if begins && !is_between(marked.byte) {
            let count = common(name.get(place..).unwrap_or(&[]), bytes);
            if count > most {
                most = count;
                best = Some(place);
            }
        }
        begins = is_between(marked.byte) || marked.byte == b'{';
    }
    best
}

/// Where in a name the first of these bytes comes from. `next` is the place after the one of the byte before.
fn place_of(name: &[Marked], next: Option<usize>, bytes: &[u8]) -> Option<usize> {
    let first = *bytes.first()?;
    if let Some(next) = next
        && let Some(marked) = name.get(next)
        && marked.byte == first
    {
        return Some(next);
    }
    word_of(name, bytes)
}

fn marked_at(name: &[Marked], place: Option<usize>) -> Option<&Marked> {
    name.get(place?)
}

/// The bytes that `format.name$` made of a name, with their marks. New marks are added to `marks`. The only error is out of
/// memory; then some may have been added.
pub fn formatted(
    alloc: Global,
    marks: &mut Marks,
    maker: Maker,
    name: &[Marked],
    bytes: &[u8],
) -> Result<Text, AllocError>
    ensures { IfOk result (λ text. text_bytes text.items ≡ bytes.now) }
{
    let beside = first_mark(name);
    let added = marks.note(Source::Added(maker.builtin, beside), maker.site)?;
    let made = match beside {
        Some(of) => marks.note(Source::Made(maker.builtin, of), maker.site)?,
        None => added,
    };
    let mut text = Vec::with_capacity(alloc, bytes.len())?;
    let mut next = None;
    'bytes: for byte in bytes {
        let rest = bytes.get(text.len()..).unwrap_or(&[]);
        let found = place_of(name, next, rest);
        next = found.map(|place| place.saturating_add(1));
        let (mark, at) = match marked_at(name, found) {
            Some(marked) => (own_mark(marked, beside, made), marked.at),
            None => (added, 0),
        };
        text.push(Marked {
            byte: *byte,
            mark,
            at,
        })?;
    }
    Ok(text)
}

/// The mark of a byte of the name: that of what was made of the name, unless the name has several sources.
fn own_mark(marked: &Marked, beside: Option<usize>, made: usize) -> usize {
    if beside == Some(marked.mark) {
        made
    } else {
        marked.mark
    }
}
