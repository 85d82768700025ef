//! An outline's symbols, and what can be folded.

ghost use Rattle.std.specs.Prelude.{◌≡◌, option_map, IfOk};
ghost use Rattle.serde_json.specs.View.{view};
ghost use Rattle.bt_shapes.specs.Shapes.{symbol, fold_between};

use crate::text::shown;
use serde_json::{Value, json};
use std::alloc::{AllocError, Global};

/// A symbol of the outline: a name with the protocol's number of its kind, the part of the text that it is, and the part
/// where its name stands.
pub fn symbol(
    alloc: Global,
    name: &[u8],
    kind: u8,
    whole: Value,
    head: Value,
) -> Result<Value, AllocError>
    ensures { IfOk result (λ v. view v ≡ symbol name.now kind (view whole) (view head)) }
{
    let name = shown(alloc, name)?;
    json!(in alloc; {"name": name, "kind": kind, "range": whole, "selectionRange": head})
}

/// A fold from one line to another, if that is a later one.
pub fn fold_between(alloc: Global, from: usize, to: usize) -> Result<Option<Value>, AllocError>
    ensures { IfOk result (λ found. option_map view found ≡ fold_between from to) }
{
    if from >= to {
        return Ok(None);
    }
    let fold = json!(in alloc; {"startLine": from, "endLine": to})?;
    Ok(Some(fold))
}
