//! What a hover shows of an entry: the lines that it prints, or that nothing cites it.

ghost use Rattle.std.specs.Prelude.{◌≡◌, IfOk};
ghost use Rattle.serde_json.specs.View.{view};
ghost use Rattle.bt_answers.specs.Uncited.{uncited_words, uncited_hover, is_uncited, uncited_of, uncited_at, hovered_at};

use crate::faults::is_some_text;
use crate::hints::{Names, asks_all, names_in};
use bt_places::{Cursor, Paper, hover_at, is_database, key_at};
use bt_style_answers::hover_contents;
use bt_text::Bytes;
use serde_json::Value;
use std::alloc::{AllocError, Global};

fn uncited_words(alloc: Global, key: &[u8]) -> Result<Bytes, AllocError>
    ensures { IfOk result (λ words. words ≡ uncited_words key.now) }
{
    Bytes::of(alloc, &[b"Nothing in this paper cites `", key, b"`."])
}

fn uncited_hover(alloc: Global, plain: bool, key: &[u8]) -> Result<Value, AllocError>
    ensures { IfOk result (λ v. view v ≡ uncited_hover plain key.now) }
{
    let words = uncited_words(alloc, key)?;
    let value = hover_contents(alloc, plain, words.as_slice())?;
    Ok(value)
}

/// Whether nothing in the paper's files asks for an entry of this key.
fn is_uncited<P: Paper>(alloc: Global, paper: &P, key: &[u8]) -> Result<bool, AllocError>
    ensures { IfOk result (λ uncited. uncited ≡ is_uncited (P.shown paper.now).files key.now) }
{
    if !is_some_text(key) {
        return Ok(false);
    }
    let asked = names_in(alloc, Names::Asked, paper)?;
    if asks_all(alloc, &asked)? {
        return Ok(false);
    }
    let is_asked = asked.has(alloc, key)?;
    Ok(!is_asked)
}

fn uncited_of<P: Paper>(
    alloc: Global,
    paper: &P,
    plain: bool,
    key: &[u8],
) -> Result<Value, AllocError>
    ensures { IfOk result (λ v. view v ≡ uncited_of (P.shown paper.now).files plain key.now) }
{
    if is_uncited(alloc, paper, key)? {
        uncited_hover(alloc, plain, key)
    } else {
        Ok(Value::Null)
    }
}

fn uncited_at<P: Paper>(
    alloc: Global,
    paper: &P,
    plain: bool,
    cursor: &Cursor<'_>,
) -> Result<Value, AllocError>
    ensures { IfOk result (λ v. view v ≡ uncited_at (P.shown paper.now).files plain cursor.now.document.now cursor.now.at) }
{
    let document = cursor.document;
    if !is_database(document.name.as_slice()) || !document.in_step {
        return Ok(Value::Null);
    }
    let key = key_at(alloc, cursor)?;
    let value = uncited_of(alloc, paper, plain, key.as_slice())?;
    Ok(value)
}

/// What a hover shows at a position of a document, as plain text if the editor takes nothing else: the lines of the entry of
/// the key there. If it prints none, in a database of the run, that nothing cites the entry, if that is so; otherwise null.
pub fn hovered_at<P: Paper>(
    alloc: Global,
    paper: &P,
    plain: bool,
    cursor: &Cursor<'_>,
) -> Result<Value, AllocError>
    ensures { IfOk result (λ v. view v ≡ hovered_at (P.shown paper.now) plain cursor.now.document.now cursor.now.at) }
{
    let lines = hover_at(alloc, paper, plain, cursor)?;
    if !lines.is_null() {
        return Ok(lines);
    }
    uncited_at(alloc, paper, plain, cursor)
}
