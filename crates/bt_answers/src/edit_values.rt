//! Edits as values of the protocol.

ghost use Rattle.std.specs.Prelude.{◌≡◌, map, IfOk};
ghost use Rattle.serde_json.specs.View.{view};
ghost use Rattle.bt_answers.specs.EditValues.{edit_value, edit_values};

use bt_edited::Edit;
use bt_shapes::{range, text_edit, with_value};
use serde_json::Value;
use std::alloc::{AllocError, Global};

fn edit_value(alloc: Global, edit: &Edit) -> Result<Value, AllocError>
    ensures { IfOk result (λ v. view v ≡ edit_value edit.now) }
{
    let range = range(alloc, edit.from, edit.to)?;
    text_edit(alloc, range, edit.new.as_slice())
}

/// The edits, in their order.
pub fn edit_values(alloc: Global, edits: &[Edit]) -> Result<Vec<Value>, AllocError>
    ensures { IfOk result (λ all. map view all.items ≡ edit_values edits.now) }
{
    let mut all = Vec::with_capacity(alloc, edits.len())?;
    'edits: for edit in edits {
        all = with_value(all, edit_value(alloc, edit)?)?;
    }
    Ok(all)
}
