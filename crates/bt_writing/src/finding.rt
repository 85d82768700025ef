//! Finds the entry of a key, the definition of a macro, or the function of an entry's type.

ghost use Rattle.std.specs.Prelude.{◌≡◌, option_map, IfOk};
ghost use Rattle.serde_json.specs.View.{view};
ghost use Rattle.bt_places.specs.Editor.{counting_in, in_workspace};
ghost use Rattle.bt_writing.specs.Finding.{place_in, location_in, found_in, found_at, type_of, type_at, type_places, typed_or_found, definition_at};

use crate::written::has_opening;
use bt_answers::{Loan, macro_at};
use bt_bib::{PlacedPiece, read_bib};
use bt_mentions::part;
use bt_places::{
    Cursor, Paper, SHOWN_BYTES, Workspace, is_database, item_around, key_of, kind_of, location,
    range_of, with_files, word_of,
};
use bt_positions::{Counting, IndexedText};
use bt_style_answers::Lent;
use bt_text::{Bytes, eq_ignore_ascii_case};
use serde_json::Value;
use std::alloc::{AllocError, Global};

/// Where the first entry of a key begins.
pub fn place_in(pieces: &[PlacedPiece], key: &[u8]) -> Option<usize>
    ensures { result ≡ place_in key.now pieces.now }
{
    'pieces: for piece in pieces {
        if eq_ignore_ascii_case(key_of(piece), key) {
            return Some(piece.start.place);
        }
    }
    None
}

/// Where the entry of a key begins in a file; null if it has none, or isn't a database.
fn location_in(
    alloc: Global,
    counting: Counting,
    uri: &[u8],
    text: &[u8],
    key: &[u8],
) -> Result<Value, AllocError>
    ensures { IfOk result (λ v. view v ≡ location_in counting key.now uri.now text.now) }
{
    if !is_database(uri) || text.len() > SHOWN_BYTES {
        return Ok(Value::Null);
    }
    let items = read_bib(alloc, text)?;
    match place_in(items.pieces(), key) {
        Some(place) => {
            let indexed = IndexedText::copied(alloc, text)?;
            let range = range_of(alloc, counting, &indexed, place, place)?;
            location(alloc, uri, range)
        }
        None => Ok(Value::Null),
    }
}

/// Where the entry of a key begins: in the first of the paper's databases that has it. Null if none has.
fn found_in<P: Paper>(
    alloc: Global,
    workspace: &Workspace<'_, P>,
    key: &[u8],
) -> Result<Value, AllocError>
    ensures { IfOk result (λ v. view v ≡
        found_in (counting_in workspace.now.editor.counting workspace.now.editor.documents.now) key.now
        (P.shown workspace.now.paper.now).files) }
{
    'files: for n in 0..workspace.paper.file_count() {
        let (uri, text) = workspace.paper.file(n);
        let found = location_in(alloc, workspace.editor.counting_in(uri), uri, text, key)?;
        if !found.is_null() {
            return Ok(found);
        }
    }
    Ok(Value::Null)
}

fn found_at<P: Paper>(
    alloc: Global,
    workspace: &Workspace<'_, P>,
    cursor: &Cursor<'_>,
) -> Result<Value, AllocError>
    ensures { IfOk result (λ v. view v ≡ in_workspace found_at P.shown workspace.now cursor.now.document.now cursor.now.at) }
{
    let found = found_in(alloc, workspace, word_of(cursor))?;
    Ok(found)
}

/// The type of an item around a place, if no brace or parenthesis opens before the place; empty otherwise.
fn type_of<'a>(around: Option<&'a PlacedPiece>, text: &[u8], place: usize) -> &'a [u8]
    ensures { result.now ≡ type_of text.now place (option_map (λ p. p.now) around.entry) }
{
    match around {
        Some(piece) => if has_opening(part(text, piece.start.place, place)) {
            &[]
        } else {
            kind_of(piece)
        },
        None => &[],
    }
}

fn type_at(alloc: Global, cursor: &Cursor<'_>) -> Result<Bytes, AllocError>
    ensures { IfOk result (λ kind. kind ≡ type_at cursor.now.document.now cursor.now.at) }
{
    let Cursor { document, at } = *cursor;
    if !is_database(document.name.as_slice()) {
        return Ok(Bytes::new(alloc));
    }
    let text = document.text.as_slice();
    let place = document.text.offset_of(document.counting, at);
    let items = read_bib(alloc, text)?;
    let around = item_around(items.pieces(), place);
    Bytes::copied(alloc, type_of(around, text, place))
}

/// Where the paper's style declares the function of a type.
fn type_places<P: Paper>(
    alloc: Global,
    workspace: &Workspace<'_, P>,
    kind: &[u8],
) -> Result<Value, AllocError>
    ensures { IfOk result (λ v. view v ≡ in_workspace type_places P.shown workspace.now kind.now) }
{
    let loan = Loan {
        editor: workspace.editor,
        lent: Lent::Function,
        name: kind,
    };
    let list = with_files(alloc, workspace.paper, &loan, Vec::new(alloc))?;
    Ok(Value::Array(list))
}

fn typed_or_found<P: Paper>(
    alloc: Global,
    workspace: &Workspace<'_, P>,
    cursor: &Cursor<'_>,
    kind: &[u8],
) -> Result<Value, AllocError>
    ensures { IfOk result (λ v. view v ≡
        in_workspace typed_or_found P.shown workspace.now cursor.now.document.now cursor.now.at kind.now) }
{
    match kind {
        [] => found_at(alloc, workspace, cursor),
        [_, ..] => type_places(alloc, workspace, kind),
    }
}

/// Where the macro or the entry's type at a position of a document is defined; if there is none, where the entry of the key
/// there begins.
pub fn definition_at<P: Paper>(
    alloc: Global,
    workspace: &Workspace<'_, P>,
    cursor: &Cursor<'_>,
) -> Result<Value, AllocError>
    ensures { IfOk result (λ v. view v ≡
        in_workspace definition_at P.shown workspace.now cursor.now.document.now cursor.now.at) }
{
    match macro_at(alloc, workspace, cursor)? {
        Some(found) => Ok(found),
        None => {
            let kind = type_at(alloc, cursor)?;
            let found = typed_or_found(alloc, workspace, cursor, kind.as_slice())?;
            Ok(found)
        }
    }
}
