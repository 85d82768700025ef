//! What an entry prints, for the key under the cursor.

ghost use Rattle.std.specs.Prelude.{◌≡◌, ◌≤◌, length, IfOk};
ghost use Rattle.serde_json.specs.View.{view};
ghost use Rattle.bt_places.specs.Hover.{key_len, keys_at_end, word_at, word_of, key_at, trimmed_start, hover_lines, hover_of, hover_at};

use crate::entries::{is_database, key_around};
use crate::paper::Paper;
use crate::parameters::Cursor;
use crate::shapes::hover;
use bt_mentions::is_key_byte;
use bt_text::{Bytes, white_run};
use serde_json::Value;
use std::alloc::{AllocError, Global};

fn key_len(text: &[u8]) -> usize
    ensures value { result ≡ key_len text.now }
    ensures within { result ≤ length text.now }
{
    let mut count = 0;
    let mut rest = text;
    'bytes: while let [first, others @ ..] = rest {
        if !is_key_byte(*first) {
            return count;
        }
        count += 1;
        rest = others;
    }
    count
}

/// How many bytes of keys a text ends with.
pub fn keys_at_end(text: &[u8]) -> usize
    ensures value { result ≡ keys_at_end 0 text.now }
    ensures within { result ≤ length text.now }
{
    let mut count = 0;
    let mut rest = text;
    'bytes: while let [first, others @ ..] = rest {
        count = if is_key_byte(*first) { count + 1 } else { 0 };
        rest = others;
    }
    count
}

fn word_at(text: &[u8], place: usize) -> &[u8]
    requires { place ≤ length text.now }
    ensures { result.now ≡ word_at place text.now }
{
    let (front, back) = text.split_at(place);
    let before = keys_at_end(front);
    let after = key_len(back);
    let (_, word) = text.split_at(place - before);
    word.split_at(before + after).0
}

/// The word of key bytes at a position of a document.
pub fn word_of<'a>(cursor: &Cursor<'a>) -> &'a [u8]
    ensures { result.now ≡ word_of cursor.now.document.now cursor.now.at }
{
    let Cursor { document, at } = *cursor;
    let place = document.text.offset_of(document.counting, at);
    word_at(document.text.as_slice(), place)
}

/// The key at a position of a document: in a database, that of the entry around it; elsewhere, the word around it.
pub fn key_at(alloc: Global, cursor: &Cursor<'_>) -> Result<Bytes, AllocError>
    ensures { IfOk result (λ key. key ≡ key_at cursor.now.document.now cursor.now.at) }
{
    let Cursor { document, at } = *cursor;
    if is_database(document.name.as_slice()) {
        let place = document.text.offset_of(document.counting, at);
        key_around(alloc, document.text.as_slice(), place)
    } else {
        Bytes::copied(alloc, word_of(cursor))
    }
}

/// What a hover shows of lines, without the white space before them; null if there are none.
fn hover_lines(alloc: Global, plain: bool, lines: &[u8]) -> Result<Value, AllocError>
    ensures { IfOk result (λ v. view v ≡ hover_lines plain (trimmed_start lines.now)) }
{
    let rest = lines.split_at(white_run(lines)).1;
    if rest.is_empty() {
        Ok(Value::Null)
    } else {
        hover(alloc, plain, rest)
    }
}

/// What a hover shows for a key; null if the run prints nothing for it.
fn hover_of<P: Paper>(
    alloc: Global,
    paper: &P,
    plain: bool,
    key: &[u8],
) -> Result<Value, AllocError>
    ensures { IfOk result (λ v. view v ≡ hover_of (P.shown paper.now).entry_text plain key.now) }
{
    let lines = paper.entry_text(key)?;
    let shown = hover_lines(alloc, plain, lines.as_slice())?;
    Ok(shown)
}

/// What a hover shows at a position of a document, as plain text if the editor takes nothing else.
pub fn hover_at<P: Paper>(
    alloc: Global,
    paper: &P,
    plain: bool,
    cursor: &Cursor<'_>,
) -> Result<Value, AllocError>
    ensures { IfOk result (λ v. view v ≡ hover_at (P.shown paper.now).entry_text plain cursor.now.document.now cursor.now.at) }
{
    let key = key_at(alloc, cursor)?;
    let shown = hover_of(alloc, paper, plain, key.as_slice())?;
    Ok(shown)
}
