//! Texts whose bytes know where they come from.
//!
//! A text is a list of marked bytes, so no byte is without a mark, and joining or cutting texts can't mix marks up. Every
//! function here says in its contract which bytes its result has; they are those that the unmarked function gives.

ghost use Rattle.std.specs.Prelude.{◌≡◌, ◌++◌, take, drop, IfOk};
ghost use Rattle.bt_marks.specs.Bytes.{text_bytes};

use bt_text::Bytes;
use std::alloc::{AllocError, Global};

/// A byte, and where it comes from.
#[derive(Clone, Copy, PartialEq, Eq)]
pub struct Marked {
    pub byte: u8,
    /// The number of its mark.
    pub mark: usize,
    /// Which byte it is of the text that the mark names, from 0.
    pub at: usize,
}

/// A text whose bytes are marked.
pub type Text = Vec<Marked>;

/// The bytes of a text, without its marks. The only error is out of memory.
pub fn bytes_of(alloc: Global, text: &[Marked]) -> Result<Bytes, AllocError>
    ensures { IfOk result (λ bytes. bytes ≡ text_bytes text.now) }
{
    let mut bytes = Vec::with_capacity(alloc, text.len())?;
    'text: for marked in text {
        bytes.push(marked.byte)?;
    }
    Ok(Bytes::from_vec(bytes))
}

/// A text of these bytes, all with one mark. The only error is out of memory.
pub fn of_mark(alloc: Global, bytes: &[u8], mark: usize) -> Result<Text, AllocError>
    ensures { IfOk result (λ text. text_bytes text.items ≡ bytes.now) }
{
    let mut text = Vec::with_capacity(alloc, bytes.len())?;
    'bytes: for byte in bytes {
        let at = text.len();
        text.push(Marked {
            byte: *byte,
            mark,
            at,
        })?;
    }
    Ok(text)
}

/// Two texts, one after the other. The only error is out of memory.
pub fn joined(alloc: Global, first: &[Marked], second: &[Marked]) -> Result<Text, AllocError>
    ensures { IfOk result (λ text. text.items ≡ first.now ++ second.now) }
{
    let mut text = Vec::from_slice(alloc, first)?;
    text.extend_from_slice(second)?;
    Ok(text)
}

fn behind(text: &[Marked], place: usize) -> &[Marked]
    ensures { result.now ≡ drop place text.now }
{
    text.get(place..).unwrap_or(&[])
}

fn front(text: &[Marked], count: usize) -> &[Marked]
    ensures { result.now ≡ take count text.now }
{
    text.get(..count).unwrap_or(text)
}

/// The part of a text from a place on: `count` bytes, or fewer at the end. The only error is out of memory.
pub fn part(alloc: Global, text: &[Marked], from: usize, count: usize) -> Result<Text, AllocError>
    ensures { IfOk result (λ part. part.items ≡ take count (drop from text.now)) }
{
    Vec::from_slice(alloc, front(behind(text, from), count))
}
