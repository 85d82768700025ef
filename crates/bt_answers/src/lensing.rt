//! What stands over lines, and where a byte of the bibliography comes from, as values of the protocol.

ghost use Rattle.std.specs.Prelude.{◌≡◌, map, option_map, IfOk};
ghost use Rattle.serde_json.specs.View.{view};
ghost use Rattle.bt_answers.specs.Lensing.{line_range, lens_object, lens_value, lens_values, line_location, line_or_null, origin_object, origin_value};

use bt_places::location;
use bt_positions::Position;
use bt_remarks::{FileLine, Lens, Origin};
use bt_shapes::{range, shown};
use serde_json::{Value, json};
use std::alloc::{AllocError, Global};

fn line_range(alloc: Global, line: usize) -> Result<Value, AllocError>
    ensures { IfOk result (λ v. view v ≡ line_range line) }
{
    let at = Position { line, character: 0 };
    range(alloc, at, at)
}

/// Words over a range. They run no command.
fn lens_object(alloc: Global, range: Value, words: &[u8]) -> Result<Value, AllocError>
    ensures { IfOk result (λ v. view v ≡ lens_object (view range) words.now) }
{
    let words = shown(alloc, words)?;
    json!(in alloc; {"range": range, "command": {"title": words, "command": ""}})
}

fn lens_value(alloc: Global, lens: &Lens) -> Result<Value, AllocError>
    ensures { IfOk result (λ v. view v ≡ lens_value lens.now) }
{
    let range = line_range(alloc, lens.line)?;
    let value = lens_object(alloc, range, lens.words.as_slice())?;
    Ok(value)
}

fn lens_list(alloc: Global, lenses: &[Lens]) -> Result<Vec<Value>, AllocError>
    ensures { IfOk result (λ list. map view list.items ≡ map lens_value lenses.now) }
{
    let mut list = Vec::new(alloc);
    'lenses: for lens in lenses {
        list.push(lens_value(alloc, lens)?)?;
    }
    Ok(list)
}

/// What stands over lines of a document.
pub fn lens_values(alloc: Global, lenses: &[Lens]) -> Result<Value, AllocError>
    ensures { IfOk result (λ v. view v ≡ lens_values lenses.now) }
{
    let list = lens_list(alloc, lenses)?;
    Ok(Value::Array(list))
}

fn line_location(alloc: Global, at: &FileLine) -> Result<Value, AllocError>
    ensures { IfOk result (λ v. view v ≡ line_location at.now) }
{
    let range = line_range(alloc, at.line)?;
    let value = location(alloc, at.file.as_slice(), range)?;
    Ok(value)
}

fn line_or_null(alloc: Global, at: Option<&FileLine>) -> Result<Value, AllocError>
    ensures { IfOk result (λ v. view v ≡ line_or_null (option_map (λ l. l.now) at.entry)) }
{
    match at {
        Some(at) => line_location(alloc, at),
        None => Ok(Value::Null),
    }
}

fn origin_object(
    alloc: Global,
    words: &[u8],
    field: Value,
    word: Value,
) -> Result<Value, AllocError>
    ensures { IfOk result (λ v. view v ≡ origin_object words.now (view field) (view word)) }
{
    let words = shown(alloc, words)?;
    json!(in alloc; {"words": words, "field": field, "word": word})
}

/// Where a byte of the bibliography comes from; null if that isn't known.
pub fn origin_value(alloc: Global, origin: Option<&Origin>) -> Result<Value, AllocError>
    ensures { IfOk result (λ v. view v ≡ origin_value (option_map (λ o. o.now) origin.entry)) }
{
    let Some(origin) = origin else {
        return Ok(Value::Null);
    };
    let field = line_or_null(alloc, origin.field.as_ref())?;
    let word = line_or_null(alloc, origin.word.as_ref())?;
    let value = origin_object(alloc, origin.words.as_slice(), field, word)?;
    Ok(value)
}
