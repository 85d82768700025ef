//! Edits of texts, of files and of all files.

ghost use Rattle.std.specs.Prelude.{◌≡◌, map, IfOk};
ghost use Rattle.serde_json.specs.View.{view};
ghost use Rattle.bt_shapes.specs.Shapes.{text_edit, file_edit, workspace_edit};

use crate::text::shown;
use serde_json::{Value, json};
use std::alloc::{AllocError, Global};

/// An edit: a part of a text, and what replaces it.
pub fn text_edit(alloc: Global, range: Value, new: &[u8]) -> Result<Value, AllocError>
    ensures { IfOk result (λ v. view v ≡ text_edit (view range) new.now) }
{
    let text = shown(alloc, new)?;
    json!(in alloc; {"range": range, "newText": text})
}

/// The edits of a file. The version is null: the client knows its own.
pub fn file_edit(alloc: Global, uri: &[u8], edits: Vec<Value>) -> Result<Value, AllocError>
    ensures { IfOk result (λ v. view v ≡ file_edit uri.now (map view edits.items)) }
{
    let uri = shown(alloc, uri)?;
    let edits = Value::Array(edits);
    json!(in alloc; {"textDocument": {"uri": uri, "version": null}, "edits": edits})
}

/// The edits of several files.
pub fn workspace_edit(alloc: Global, changes: Vec<Value>) -> Result<Value, AllocError>
    ensures { IfOk result (λ v. view v ≡ workspace_edit (map view changes.items)) }
{
    let changes = Value::Array(changes);
    json!(in alloc; {"documentChanges": changes})
}
