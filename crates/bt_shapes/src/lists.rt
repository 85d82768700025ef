//! Lists of values.

ghost use Rattle.std.specs.Prelude.{◌≡◌, ◌++◌, ◌∷◌, [], map, IfOk};
ghost use Rattle.serde_json.specs.View.{view};

use serde_json::Value;
use std::alloc::AllocError;

/// A list with one value more.
pub fn with_value(list: Vec<Value>, value: Value) -> Result<Vec<Value>, AllocError>
    ensures { IfOk result (λ all. map view all.items ≡ map view list.items ++ view value ∷ []) }
{
    let mut all = list;
    all.push(value)?;
    Ok(all)
}
