//! Cases of spliced databases: how many bytes are re-read, and the items; and whether these are those of a reading from
//! the beginning.

ghost use Rattle.std.specs.Prelude.{◌≤◌, length, IfOk};
ghost use Rattle.bt_bib.specs.Splice.{IsSplice};

use crate::Done;
use crate::answer::{Answer, Raw, Spelled, put};
use crate::databases::spelled_items;
use crate::words::Words;
use bt_bib::{Items, Splice, read_bib};
use bt_text::Bytes;
use std::alloc::{AllocError, Global};
use std::ops::Range;

fn spliced(
    alloc: Global,
    text: &[u8],
    range: &Range<usize>,
    bytes: &[u8],
) -> Result<Bytes, AllocError>
    requires order { range.now.start ≤ range.now.end }
    requires inside { range.now.end ≤ length text.now }
    ensures { IfOk result (λ new. IsSplice text.now new range.now.start range.now.end (length bytes.now)) }
{
    Bytes::of(alloc, &[&text[..range.start], bytes, &text[range.end..]])
}

#[derive(Drop)]
struct Reread {
    text: Bytes,
    items: Items,
    read: usize,
}

fn respliced(
    alloc: Global,
    text: &[u8],
    range: &Range<usize>,
    bytes: &[u8],
) -> Result<Reread, AllocError>
    requires order { range.now.start ≤ range.now.end }
    requires inside { range.now.end ≤ length text.now }
{
    let new = spliced(alloc, text, range, bytes)?;
    let old = read_bib(alloc, text)?;
    let splice = Splice {
        begin: range.start,
        end: range.end,
        inserted: bytes.len(),
    };
    let edit = old.edit(alloc, text, new.as_slice(), splice)?;
    let items = old.edited(alloc, new.as_slice(), &edit)?;
    Ok(Reread {
        text: new,
        items,
        read: edit.read,
    })
}

/// Whether the items are those of a reading from the beginning.
fn is_alike(alloc: Global, again: &Reread) -> Result<bool, AllocError> {
    let one = spelled_items(alloc, &again.items)?;
    let other = spelled_items(alloc, &read_bib(alloc, again.text.as_slice())?)?;
    Ok(one.as_slice() == other.as_slice())
}

fn push_items(words: Words<'_>, out: &mut Answer, again: &Reread) -> Done {
    out.shown(&again.read);
    put!(out; " ", Raw(spelled_items(words.alloc, &again.items)?.as_slice()));
    Ok(())
}

/// What is re-read after `bytes` replace the bytes of `text` in `range`.
fn push_spliced(
    words: Words<'_>,
    out: &mut Answer,
    text: &[u8],
    range: &Range<usize>,
    bytes: &[u8],
) -> Done {
    let is_short = words.word(0) == "respliced_anywhere";
    if range.end < range.start || text.len() < range.end {
        put!(out; if is_short { "o" } else { "outside" });
        return Ok(());
    }
    let again = respliced(words.alloc, text, range, bytes)?;
    if !is_short {
        return push_items(words, out, &again);
    }
    put!(out; if is_alike(words.alloc, &again)? { "a" } else { "d" });
    Ok(())
}

/// The number of bytes that are re-read, and the items of the new text; or `outside`. For `respliced_anywhere`, a sign
/// for each place at which bytes are replaced: whether the items are the same (`a`) or differ (`d`), or the place is
/// outside (`o`).
pub fn push_answer(words: Words<'_>, out: &mut Answer) -> Done {
    let text = words.text(1)?;
    if words.word(0) == "respliced" {
        let bytes = words.text(4)?;
        return push_spliced(words, out, &text, &(words.count(2)..words.count(3)), &bytes);
    }
    let bytes = words.text(3)?;
    for begin in 0..text.len() {
        let end = begin.saturating_add(words.count(2));
        push_spliced(words, out, &text, &(begin..end), &bytes)?;
    }
    Ok(())
}
