//! Lays out the entries of a database, or those that a range touches: one field a line. Only the white space between the
//! parts of an entry changes: the edits are made in a copy first, and sent only if its items are the same.

ghost use Rattle.std.specs.Prelude.{◌≡◌, ◌<◌, ◌*◌, ◌^◌, [], length, IfOk};
ghost use Rattle.std.specs.List.{fold};
ghost use Rattle.serde_json.specs.View.{view};
ghost use Rattle.bt_positions.specs.Lines.{begins_with_feed};
ghost use Rattle.bt_answers.specs.Formatting.{line_end, layout, is_touched, is_asked, scope_between, scope_of, with_gap, with_gaps, with_asked_gaps, if_kept, format_edits};

use crate::edit_values::edit_values;
use bt_bib::{PlacedPiece, read_bib};
use bt_documents::Document;
use bt_edited::{Change, Edit, is_made, text_after_edits};
use bt_mentions::{Gap, gaps, part};
use bt_places::{SHOWN_BYTES, is_database, position_at};
use bt_positions::{Counting, IndexedText, Position};
use bt_text::Bytes;
use serde_json::Value;
use std::alloc::{AllocError, Global};

/// How a line ends.
#[derive(Clone, Copy, PartialEq, Eq)]
pub enum LineEnd {
    /// With LF.
    Feed,
    /// With CR LF.
    ReturnFeed,
}

fn begins_with_feed(text: &[u8]) -> bool
    ensures { result ≡ begins_with_feed text.now }
{
    match text {
        [first, ..] => *first == b'\n',
        [] => false,
    }
}

/// How the lines of a text end: as the first one with a line feed does.
fn line_end(text: &[u8]) -> LineEnd
    ensures { result ≡ line_end text.now }
{
    let mut rest = text;
    'bytes: while let [first, others @ ..] = rest {
        if *first == b'\n' {
            return LineEnd::Feed;
        }
        if *first == b'\r' && begins_with_feed(others) {
            return LineEnd::ReturnFeed;
        }
        rest = others;
    }
    LineEnd::Feed
}

/// What a gap becomes: a line end, and two blanks unless the closing sign follows.
fn layout(end: LineEnd, is_last: bool) -> &'static [u8]
    ensures { result.now ≡ layout end is_last }
{
    match (end, is_last) {
        (LineEnd::Feed, true) => b"\n".as_slice(),
        (LineEnd::Feed, false) => b"\n  ".as_slice(),
        (LineEnd::ReturnFeed, true) => b"\r\n".as_slice(),
        (LineEnd::ReturnFeed, false) => b"\r\n  ".as_slice(),
    }
}

/// A part of a text, by the offsets of its beginning and its end.
#[derive(Clone, Copy, PartialEq, Eq)]
pub struct Scope {
    pub from: usize,
    pub to: usize,
}

/// A text that is laid out, or the items that a part of it touches.
#[derive(Clone, Copy)]
struct Page<'a> {
    text: &'a IndexedText,
    counting: Counting,
    end: LineEnd,
    scope: Option<Scope>,
}

/// Whether a part of a text touches a piece: it begins in the piece, or the piece begins in it.
fn is_touched(scope: Scope, start: usize, end: usize) -> bool
    ensures { result ≡ is_touched scope start end }
{
    if start <= scope.from {
        scope.from <= end
    } else {
        start < scope.to
    }
}

/// Whether a piece is to be laid out.
fn is_asked(scope: Option<Scope>, piece: &PlacedPiece) -> bool
    ensures { result ≡ is_asked scope piece.now }
{
    match scope {
        Some(scope) => is_touched(scope, piece.start.place, piece.end.place),
        None => true,
    }
}

fn scope_between(document: &Document, from: Option<Position>, to: Option<Position>) -> Option<Scope>
    ensures { result ≡ scope_between document.now from to }
{
    let text = &document.text;
    match (from, to) {
        (Some(from), Some(to)) => Some(Scope {
            from: text.offset_of(document.counting, from),
            to: text.offset_of(document.counting, to),
        }),
        (Some(_), None) => None,
        (None, _) => None,
    }
}

/// The part of a document that a message names.
fn scope_of(document: &Document, message: &Value) -> Option<Scope>
    ensures { result ≡ scope_of document.now (view message.now) }
{
    let from = position_at(
        message,
        "/params/range/start/line",
        "/params/range/start/character",
    );
    let to = position_at(
        message,
        "/params/range/end/line",
        "/params/range/end/character",
    );
    scope_between(document, from, to)
}

fn with_gap(
    alloc: Global,
    page: &Page<'_>,
    list: Vec<Edit>,
    gap: Gap,
) -> Result<Vec<Edit>, AllocError>
    requires { 2 * length page.now.text.now < 2 ^ 64 }
    ensures { IfOk result (λ all. all.items ≡ with_gap page.now.counting page.now.end page.now.text.now list.items gap) }
{
    let Page {
        text,
        counting,
        end,
        ..
    } = *page;
    let new = layout(end, gap.is_last);
    if part(text.as_slice(), gap.from, gap.to) == new {
        return Ok(list);
    }
    let new = Bytes::copied(alloc, new)?;
    let mut all = list;
    all.push(Edit::of(counting, text, gap.from, gap.to, new))?;
    Ok(all)
}

fn with_each(
    alloc: Global,
    page: &Page<'_>,
    list: Vec<Edit>,
    found: &[Gap],
) -> Result<Vec<Edit>, AllocError>
    requires { 2 * length page.now.text.now < 2 ^ 64 }
    ensures { IfOk result (λ all. all.items ≡
        fold (with_gap page.now.counting page.now.end page.now.text.now) list.items found.now) }
{
    let mut all = list;
    'found: for gap in found {
        all = with_gap(alloc, page, all, *gap)?;
    }
    Ok(all)
}

fn with_gaps(
    alloc: Global,
    page: &Page<'_>,
    list: Vec<Edit>,
    piece: &PlacedPiece,
) -> Result<Vec<Edit>, AllocError>
    requires { 2 * length page.now.text.now < 2 ^ 64 }
    ensures { IfOk result (λ all. all.items ≡
        with_gaps page.now.counting page.now.end page.now.text.now list.items piece.now) }
{
    let found = gaps(alloc, page.text.as_slice(), piece)?;
    with_each(alloc, page, list, found.as_slice())
}

fn with_asked_gaps(
    alloc: Global,
    page: &Page<'_>,
    list: Vec<Edit>,
    piece: &PlacedPiece,
) -> Result<Vec<Edit>, AllocError>
    requires { 2 * length page.now.text.now < 2 ^ 64 }
    ensures { IfOk result (λ all. all.items ≡
        with_asked_gaps page.now.counting page.now.end page.now.text.now page.now.scope list.items piece.now) }
{
    if !is_asked(page.scope, piece) {
        return Ok(list);
    }
    with_gaps(alloc, page, list, piece)
}

fn with_pieces(
    alloc: Global,
    page: &Page<'_>,
    list: Vec<Edit>,
    pieces: &[PlacedPiece],
) -> Result<Vec<Edit>, AllocError>
    requires { 2 * length page.now.text.now < 2 ^ 64 }
    ensures { IfOk result (λ all. all.items ≡
        fold (with_asked_gaps page.now.counting page.now.end page.now.text.now page.now.scope) list.items pieces.now) }
{
    let mut all = list;
    'pieces: for piece in pieces {
        all = with_asked_gaps(alloc, page, all, piece)?;
    }
    Ok(all)
}

/// The edits as a value, if the document has the same items after them; null if it hasn't.
fn if_kept(
    alloc: Global,
    document: &Document,
    pieces: &[PlacedPiece],
    edits: &[Edit],
) -> Result<Value, AllocError>
    ensures { IfOk result (λ v. view v ≡ if_kept document.now pieces.now edits.now) }
{
    let text = text_after_edits(alloc, document.counting, &document.text, edits)?;
    if !is_made(alloc, &Change::Nothing, pieces, &text)? {
        return Ok(Value::Null);
    }
    let values = edit_values(alloc, edits)?;
    Ok(Value::Array(values))
}

/// The edits that lay out a document, or the items that the message's range touches, if it is a database.
pub fn format_edits(
    alloc: Global,
    document: &Document,
    message: &Value,
) -> Result<Value, AllocError>
    ensures { IfOk result (λ v. view v ≡ format_edits document.now (view message.now)) }
{
    let text = &document.text;
    if !is_database(document.name.as_slice()) || text.as_slice().len() > SHOWN_BYTES {
        return Ok(Value::Null);
    }
    let items = read_bib(alloc, text.as_slice())?;
    let page = Page {
        text,
        counting: document.counting,
        end: line_end(text.as_slice()),
        scope: scope_of(document, message),
    };
    let edits = with_pieces(alloc, &page, Vec::new(alloc), items.pieces())?;
    if_kept(alloc, document, items.pieces(), edits.as_slice())
}
