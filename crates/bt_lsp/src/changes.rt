//! The changes of a `didChange`.

ghost use Rattle.std.specs.Prelude.{◌≡◌, [], map, option_map, IfOk};
ghost use Rattle.serde_json.specs.View.{view, items_of};
ghost use Rattle.bt_lsp.specs.Changes.{change_between, change_of, changes_with, changes_of};

use bt_documents::Change;
use bt_places::{bytes_of, position_at, text_at};
use bt_positions::{Counting, Position};
use bt_text::Bytes;
use serde_json::Value;
use std::alloc::{AllocError, Global};

/// The change to these bytes of the part between two positions, or of the whole text if one of them is missing.
fn change_between(from: Option<Position>, to: Option<Position>, bytes: Bytes) -> Change
    ensures { result ≡ change_between from to bytes }
{
    match (from, to) {
        (Some(from), Some(to)) => Change::Range(from, to, bytes),
        _ => Change::Whole(bytes),
    }
}

/// A change; none if it has no text.
fn change_of(alloc: Global, counting: Counting, value: &Value) -> Result<Option<Change>, AllocError>
    ensures { IfOk result (λ change. change ≡ change_of counting (view value.now)) }
{
    let Some(text) = text_at(value, "/text") else {
        return Ok(None);
    };
    let bytes = bytes_of(alloc, counting, text)?;
    let from = position_at(value, "/range/start/line", "/range/start/character");
    let to = position_at(value, "/range/end/line", "/range/end/character");
    Ok(Some(change_between(from, to, bytes)))
}

/// The changes of a list, in order; none if one of them has no text.
fn changes_in(
    alloc: Global,
    counting: Counting,
    values: &[Value],
) -> Result<Option<Vec<Change>>, AllocError>
    ensures { IfOk result (λ changes. option_map (λ v. v.items) changes ≡ changes_with counting [] (items_of (map view values.now))) }
{
    let mut changes = Vec::new(alloc);
    'changes: for value in values {
        match change_of(alloc, counting, value)? {
            Some(change) => changes.push(change)?,
            None => return Ok(None),
        }
    }
    Ok(Some(changes))
}

/// The changes of a message; none if they can't be read.
pub fn changes_of(
    alloc: Global,
    counting: Counting,
    message: &Value,
) -> Result<Option<Vec<Change>>, AllocError>
    ensures { IfOk result (λ changes. option_map (λ v. v.items) changes ≡ changes_of counting (view message.now)) }
{
    match message
        .pointer("/params/contentChanges")
        .and_then(Value::as_array)
    {
        Some(values) => changes_in(alloc, counting, values),
        None => Ok(None),
    }
}
