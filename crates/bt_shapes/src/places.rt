//! Parts of texts and files.

ghost use Rattle.std.specs.Prelude.{◌≡◌, ◌<◌, ◌*◌, ◌^◌, length, IfOk};
ghost use Rattle.serde_json.specs.View.{view};
ghost use Rattle.bt_shapes.specs.Shapes.{range, range_of, location};

use crate::text::shown;
use bt_positions::{Counting, IndexedText, Position};
use serde_json::{Value, json};
use std::alloc::{AllocError, Global};

/// A range.
pub fn range(alloc: Global, from: Position, to: Position) -> Result<Value, AllocError>
    ensures { IfOk result (λ v. view v ≡ range from to) }
{
    json!(in alloc; {
        "start": {"line": (from.line), "character": (from.character)},
        "end": {"line": (to.line), "character": (to.character)}
    })
}

/// The range of a part of a text, as far as the text has it.
pub fn range_of(
    alloc: Global,
    counting: Counting,
    text: &IndexedText,
    from: usize,
    to: usize,
) -> Result<Value, AllocError>
    requires { 2 * length text.now < 2 ^ 64 }
    ensures { IfOk result (λ v. view v ≡ range_of counting text.now from to) }
{
    let end = text.as_slice().len();
    let begin = text.position_of(counting, from.min(end));
    let end = text.position_of(counting, to.min(end));
    range(alloc, begin, end)
}

/// A part of a file.
pub fn location(alloc: Global, uri: &[u8], range: Value) -> Result<Value, AllocError>
    ensures { IfOk result (λ v. view v ≡ location uri.now (view range)) }
{
    let uri = shown(alloc, uri)?;
    json!(in alloc; {"uri": uri, "range": range})
}
