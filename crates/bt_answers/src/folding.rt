//! The parts of a database that an editor can fold: items of more than a line.

ghost use Rattle.std.specs.Prelude.{◌≡◌, ◌<◌, ◌*◌, ◌^◌, ◌++◌, [], length, map, option_map, IfOk};
ghost use Rattle.std.specs.List.{cons_option};
ghost use Rattle.serde_json.specs.View.{view};
ghost use Rattle.bt_answers.specs.Folding.{fold_of, folds_in, folds_of};

use bt_bib::{PlacedPiece, read_bib};
use bt_documents::Document;
use bt_places::{SHOWN_BYTES, is_database};
use bt_shapes::fold_between;
use serde_json::Value;
use std::alloc::{AllocError, Global};

fn fold_of(
    alloc: Global,
    document: &Document,
    piece: &PlacedPiece,
) -> Result<Option<Value>, AllocError>
    requires { 2 * length document.now.text < 2 ^ 64 }
    ensures { IfOk result (λ found. option_map view found ≡ fold_of document.now.counting document.now.text piece.now) }
{
    let counting = document.counting;
    let text = &document.text;
    let end = text.as_slice().len();
    let from = text.position_of(counting, piece.start.place.min(end));
    let to = text.position_of(counting, piece.end.place.min(end));
    fold_between(alloc, from.line, to.line)
}

fn add_fold(
    alloc: Global,
    document: &Document,
    piece: &PlacedPiece,
    list: Vec<Value>,
) -> Result<Vec<Value>, AllocError>
    requires { 2 * length document.now.text < 2 ^ 64 }
    ensures { IfOk result (λ all. map view all.items ≡
        map view list.items ++ cons_option (fold_of document.now.counting document.now.text piece.now) []) }
{
    let mut all = list;
    if let Some(found) = fold_of(alloc, document, piece)? {
        all.push(found)?;
    }
    Ok(all)
}

fn folds_in(
    alloc: Global,
    document: &Document,
    pieces: &[PlacedPiece],
) -> Result<Vec<Value>, AllocError>
    requires { 2 * length document.now.text < 2 ^ 64 }
    ensures { IfOk result (λ list. map view list.items ≡ folds_in document.now.counting document.now.text pieces.now) }
{
    let mut list = Vec::new(alloc);
    'pieces: for piece in pieces {
        list = add_fold(alloc, document, piece, list)?;
    }
    Ok(list)
}

/// What can be folded in a document, if it is a database.
pub fn folds_of(alloc: Global, document: &Document) -> Result<Value, AllocError>
    ensures { IfOk result (λ v. view v ≡ folds_of document.now) }
{
    let text = &document.text;
    if !is_database(document.name.as_slice()) || text.as_slice().len() > SHOWN_BYTES {
        return Ok(Value::Null);
    }
    let items = read_bib(alloc, text.as_slice())?;
    let list = folds_in(alloc, document, items.pieces())?;
    Ok(Value::Array(list))
}
