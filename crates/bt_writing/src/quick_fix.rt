//! An action that replaces a part of a document.

ghost use Rattle.std.specs.Prelude.{◌≡◌, ◌<◌, ◌*◌, ◌^◌, length, IfOk};
ghost use Rattle.serde_json.specs.View.{view};
ghost use Rattle.bt_writing.specs.QuickFix.{action, edit_at};

use bt_answers::{with_edits, workspace_edit};
use bt_documents::Document;
use bt_places::{range_of, with_value};
use bt_shapes::text_edit;
use serde_json::{Value, json};
use std::alloc::{AllocError, Global};

/// The action of this title that makes an edit.
pub fn action(alloc: Global, title: &str, edit: Value) -> Result<Value, AllocError>
    ensures { IfOk result (λ v. view v ≡ action title.now (view edit)) }
{
    json!(in alloc; {"title": title, "kind": "quickfix", "edit": edit})
}

/// The edit that replaces a part of a document.
pub fn edit_at(
    alloc: Global,
    document: &Document,
    from: usize,
    to: usize,
    new: &[u8],
) -> Result<Value, AllocError>
    requires { 2 * length document.now.text < 2 ^ 64 }
    ensures { IfOk result (λ v. view v ≡ edit_at document.now from to new.now) }
{
    let range = range_of(alloc, document.counting, &document.text, from, to)?;
    let edits = with_value(Vec::new(alloc), text_edit(alloc, range, new)?)?;
    let files = with_edits(alloc, Vec::new(alloc), document.name.as_slice(), edits)?;
    workspace_edit(alloc, files)
}
