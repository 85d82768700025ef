//! The items of a database as an editor's outline.

ghost use Rattle.std.specs.Prelude.{◌≡◌, ◌<◌, ◌*◌, ◌^◌, ◌++◌, [], length, map, option_map, IfOk};
ghost use Rattle.std.specs.List.{cons_option};
ghost use Rattle.serde_json.specs.View.{view};
ghost use Rattle.bt_answers.specs.Outline.{symbol_of, symbols_in, symbols_of};

use bt_bib::{PlacedPiece, read_bib};
use bt_documents::Document;
use bt_places::{SHOWN_BYTES, is_database, name_of, range_of, symbol_kind};
use bt_shapes::symbol;
use serde_json::Value;
use std::alloc::{AllocError, Global};

fn symbol_of(
    alloc: Global,
    document: &Document,
    piece: &PlacedPiece,
) -> Result<Option<Value>, AllocError>
    requires { 2 * length document.now.text < 2 ^ 64 }
    ensures { IfOk result (λ found. option_map view found ≡ symbol_of document.now.counting document.now.text piece.now) }
{
    let name = name_of(piece);
    if name.is_empty() {
        return Ok(None);
    }
    let counting = document.counting;
    let text = &document.text;
    let whole = range_of(alloc, counting, text, piece.start.place, piece.end.place)?;
    let head = range_of(alloc, counting, text, piece.start.place, piece.start.place)?;
    Ok(Some(symbol(alloc, name, symbol_kind(piece), whole, head)?))
}

fn add_symbol(
    alloc: Global,
    document: &Document,
    piece: &PlacedPiece,
    list: Vec<Value>,
) -> Result<Vec<Value>, AllocError>
    requires { 2 * length document.now.text < 2 ^ 64 }
    ensures { IfOk result (λ all. map view all.items ≡
        map view list.items ++ cons_option (symbol_of document.now.counting document.now.text piece.now) []) }
{
    let mut all = list;
    if let Some(found) = symbol_of(alloc, document, piece)? {
        all.push(found)?;
    }
    Ok(all)
}

fn symbols_in(
    alloc: Global,
    document: &Document,
    pieces: &[PlacedPiece],
) -> Result<Vec<Value>, AllocError>
    requires { 2 * length document.now.text < 2 ^ 64 }
    ensures { IfOk result (λ list. map view list.items ≡ symbols_in document.now.counting document.now.text pieces.now) }
{
    let mut list = Vec::new(alloc);
    'pieces: for piece in pieces {
        list = add_symbol(alloc, document, piece, list)?;
    }
    Ok(list)
}

/// The outline of a document, if it is a database.
pub fn symbols_of(alloc: Global, document: &Document) -> Result<Value, AllocError>
    ensures { IfOk result (λ v. view v ≡ symbols_of document.now) }
{
    let text = &document.text;
    if !is_database(document.name.as_slice()) || text.as_slice().len() > SHOWN_BYTES {
        return Ok(Value::Null);
    }
    let items = read_bib(alloc, text.as_slice())?;
    let list = symbols_in(alloc, document, items.pieces())?;
    Ok(Value::Array(list))
}
