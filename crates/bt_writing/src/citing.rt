//! Completes the keys of citations.

ghost use Rattle.std.specs.Prelude.{◌≡◌, ◌<◌, ◌*◌, ◌^◌, ◌++◌, map, length, IfOk, OnOk};
ghost use Rattle.std.specs.String.{string_bytes};
ghost use Rattle.serde_json.specs.View.{view};
ghost use Rattle.bt_shapes.specs.Text.{as_utf8};
ghost use Rattle.bt_writing.specs.Citing.{after_sign, candidate, candidate_of, candidates_of, candidates_from, candidates_in, cites, citation_at};

use crate::written::Written;
use bt_bib::{PlacedPiece, read_bib};
use bt_mentions::is_citing;
use bt_places::{
    Cursor, Paper, field_of, is_database, is_tex, key_of, keys_at_end, kind_of, shown, with_value,
    without_open_comments,
};
use bt_text::Bytes;
use serde_json::{Value, json};
use std::alloc::{AllocError, Global};

/// Appends a text after a sign, unless it is empty.
fn append_after(bytes: &mut Bytes, sign: &[u8], text: &[u8]) -> Result<(), AllocError>
    ensures { OnOk result (bytes.new ≡ after_sign sign.now text.now bytes.old) }
{
    if text.is_empty() {
        return Ok(());
    }
    bytes.append_all(&[sign, text])
}

/// What a reader knows an entry by; each is empty if the entry has none.
#[derive(Clone, Copy)]
struct Summary<'a> {
    author: &'a [u8],
    title: &'a [u8],
}

/// A text, then the author and the title, each after its sign unless it is empty; as UTF-8.
fn with_summary(
    alloc: Global,
    text: &[u8],
    first: &[u8],
    second: &[u8],
    summary: &Summary<'_>,
) -> Result<String, AllocError>
    ensures { IfOk result (λ words. string_bytes words ≡ as_utf8 (after_sign second.now summary.now.title.now
        (after_sign first.now summary.now.author.now text.now))) }
{
    let mut bytes = Bytes::copied(alloc, text)?;
    append_after(&mut bytes, first, summary.author)?;
    append_after(&mut bytes, second, summary.title)?;
    shown(alloc, bytes.as_slice())
}

fn candidate(
    alloc: Global,
    written: Written,
    key: &[u8],
    kind: &[u8],
    summary: &Summary<'_>,
) -> Result<Value, AllocError>
    ensures { IfOk result (λ v. view v ≡
        candidate written key.now kind.now summary.now.author.now summary.now.title.now) }
{
    let detail = with_summary(alloc, kind, b": ", b". ", summary)?;
    let filter = with_summary(alloc, key, b" ", b" ", summary)?;
    let label = shown(alloc, key)?;
    let edit = written.edit(alloc, key)?;
    json!(in alloc; {"label": label, "kind": 18, "detail": detail, "filterText": filter, "textEdit": edit})
}

fn add_candidate(
    alloc: Global,
    written: Written,
    piece: &PlacedPiece,
    list: Vec<Value>,
) -> Result<Vec<Value>, AllocError>
    ensures { IfOk result (λ all. map view all.items ≡ map view list.items ++ candidate_of written piece.now.piece) }
{
    let key = key_of(piece);
    if key.is_empty() {
        return Ok(list);
    }
    let author = field_of(piece, b"author");
    let title = field_of(piece, b"title");
    let summary = Summary { author, title };
    let value = candidate(alloc, written, key, kind_of(piece), &summary)?;
    let all = with_value(list, value)?;
    Ok(all)
}

fn add_candidates(
    alloc: Global,
    written: Written,
    pieces: &[PlacedPiece],
    list: Vec<Value>,
) -> Result<Vec<Value>, AllocError>
    ensures { IfOk result (λ all. map view all.items ≡ map view list.items ++ candidates_of written pieces.now) }
{
    let mut all = list;
    'pieces: for piece in pieces {
        all = add_candidate(alloc, written, piece, all)?;
    }
    Ok(all)
}

fn add_from(
    alloc: Global,
    written: Written,
    uri: &[u8],
    text: &[u8],
    list: Vec<Value>,
) -> Result<Vec<Value>, AllocError>
    ensures { IfOk result (λ all. map view all.items ≡ map view list.items ++ candidates_from written uri.now text.now) }
{
    if !is_database(uri) {
        return Ok(list);
    }
    let items = read_bib(alloc, text)?;
    add_candidates(alloc, written, items.pieces(), list)
}

/// What is offered for the entries of the paper's databases.
pub fn candidates<P: Paper>(
    alloc: Global,
    paper: &P,
    written: Written,
) -> Result<Vec<Value>, AllocError>
    ensures { IfOk result (λ list. map view list.items ≡ candidates_in written (P.shown paper.now).files) }
{
    let mut list = Vec::new(alloc);
    'files: for n in 0..paper.file_count() {
        let (uri, text) = paper.file(n);
        list = add_from(alloc, written, uri, text, list)?;
    }
    Ok(list)
}

/// Whether keys are cited after the first bytes of a file. What a comment of LaTeX leaves open cites nothing.
fn cites(alloc: Global, name: &[u8], front: &[u8]) -> Result<bool, AllocError>
    ensures { IfOk result (λ found. found ≡ cites name.now front.now) }
{
    if !is_tex(name) {
        return Ok(is_citing(front));
    }
    let front = without_open_comments(alloc, front)?;
    Ok(is_citing(front.as_slice()))
}

/// What is offered at a position of a document: all keys where keys are cited, elsewhere nothing.
pub fn citation_at<P: Paper>(
    alloc: Global,
    paper: &P,
    cursor: &Cursor<'_>,
) -> Result<Value, AllocError>
    requires { 2 * length cursor.now.document.now.text < 2 ^ 64 }
    ensures { IfOk result (λ v. view v ≡ citation_at (P.shown paper.now).files cursor.now.document.now cursor.now.at) }
{
    let Cursor { document, at } = *cursor;
    let place = document.text.offset_of(document.counting, at);
    let front = document.text.as_slice().split_at(place).0;
    if !cites(alloc, document.name.as_slice(), front)? {
        return Ok(Value::Null);
    }
    let written = Written::before(document, place, keys_at_end(front));
    let list = candidates(alloc, paper, written)?;
    Ok(Value::Array(list))
}
