//! What kept values are: numbers, texts, parts of texts. Each function holds for any pool in which the value lies.

ghost use Rattle.std.specs.Prelude.{◌≡◌, ◌≤◌, ℕ, List, true, length, slice_get, option_copied, option_map, option_and_then, IfSome};
ghost use Rattle.bt_actions.specs.Arguments.{as_number, as_text, as_field_text, as_code, as_target};
ghost use Rattle.bt_actions.specs.View.{code_seen};
ghost use Rattle.bt_stack.specs.Tops.{cut, equal_two};
ghost use Rattle.bt_stack.specs.inner.Kept.{item_in, bytes_in, items, is_text, text_value, Fits, AllFit};

use crate::value::Value;
use bt_actions::Code;
use bt_style::Target;

/// The kept value `depth` places below the top, if there is one.
pub fn value_at<'a>(values: &[Value<'a>], depth: usize) -> Option<Value<'a>>
    ensures fits { (size : ℕ) → AllFit size values.now → IfSome result (Fits size) }
    ensures item { (pool : List ℕ) → option_map (item_in pool) result ≡ slice_get (items pool values.now) depth }
{
    let count = values.len();
    if depth < count {
        Some(values[count - 1 - depth])
    } else {
        None
    }
}

/// A kept value itself, if it is a text.
pub fn text_value(value: Value<'_>) -> Option<Value<'_>>
    ensures value { result ≡ text_value value.entry }
    ensures text { IfSome result (λ text. is_text text ≡ true) }
    ensures fits { (size : ℕ) → Fits size value.entry → IfSome result (Fits size) }
    ensures item { (pool : List ℕ) → option_map (bytes_in pool) result ≡ as_text (item_in pool value.entry) }
{
    match value {
        Value::Given(_) | Value::Made(_, _) => Some(value),
        _ => None,
    }
}

/// The kept value `depth` places below the top, if it is a text.
pub fn text_value_at<'a>(values: &[Value<'a>], depth: usize) -> Option<Value<'a>>
    ensures fits { (size : ℕ) → AllFit size values.now → IfSome result (Fits size) }
    ensures text { IfSome result (λ value. is_text value ≡ true) }
    ensures item { (pool : List ℕ) → option_map (bytes_in pool) result
        ≡ option_and_then as_text (slice_get (items pool values.now) depth) }
{
    match value_at(values, depth) {
        Some(value) => text_value(value),
        None => None,
    }
}

/// A kept value, if it is a number.
pub fn number_in(value: Value) -> Option<i32>
    ensures { (pool : List ℕ) → result ≡ as_number (item_in pool value.entry) }
{
    match value {
        Value::Number(number) => Some(number),
        _ => None,
    }
}

/// A kept value, if it is a function.
pub fn code_in(value: Value<'_>) -> Option<Code<'_>>
    ensures { (pool : List ℕ) → option_map code_seen result ≡ as_code (item_in pool value.entry) }
{
    match value {
        Value::Name(name) => Some(Code::Name(name)),
        Value::Block(ops) => Some(Code::Block(ops)),
        _ => None,
    }
}

/// A kept value, if it is a quoted name.
pub fn name_in(value: Value) -> Option<Target>
    ensures { (pool : List ℕ) → result ≡ as_target (item_in pool value.entry) }
{
    match value {
        Value::Name(name) => Some(name),
        _ => None,
    }
}

/// The bytes of a kept value, if it is a text.
pub fn text_in<'b>(pool: &'b [u8], value: Value<'b>) -> Option<&'b [u8]>
    requires { Fits (length pool.now) value }
    ensures text { option_copied result ≡ as_text (item_in pool.now value.entry) }
    ensures short { IfSome result (λ text. length text.now ≤ 65536) }
{
    match value {
        Value::Given(text) => Some(text),
        Value::Made(start, count) => Some(&pool[start..start + count]),
        _ => None,
    }
}

/// The bytes of a kept value, or an inner `None` for a missing field, if it is either.
pub fn field_text_in<'b>(pool: &'b [u8], value: Value<'b>) -> Option<Option<&'b [u8]>>
    requires { Fits (length pool.now) value }
    ensures { option_map option_copied result ≡ as_field_text (item_in pool.now value.entry) }
{
    match value {
        Value::Given(text) => Some(Some(text)),
        Value::Made(start, count) => Some(Some(&pool[start..start + count])),
        Value::Missing(_) => Some(None),
        _ => None,
    }
}

/// How many bytes a kept text has.
pub fn text_len(value: Value) -> Option<usize>
    ensures len { (pool : List ℕ) → Fits (length pool) value.entry
        → result ≡ option_map length (as_text (item_in pool value.entry)) }
    ensures bytes { (pool : List ℕ) → Fits (length pool) value.entry
        → IfSome result (λ len. len ≡ length (bytes_in pool value.entry)) }
    ensures short { (size : ℕ) → Fits size value.entry → IfSome result (λ len. len ≤ 65536) }
{
    match value {
        Value::Given(text) => Some(text.len()),
        Value::Made(_, count) => Some(count),
        _ => None,
    }
}

/// Whether two kept values are equal, if they are two numbers or two texts.
pub fn equal(pool: &[u8], lower: Value, upper: Value) -> Option<bool>
    requires lower { Fits (length pool.now) lower }
    requires upper { Fits (length pool.now) upper }
    ensures { result ≡ equal_two (item_in pool.now lower.entry) (item_in pool.now upper.entry) }
{
    match (lower, upper) {
        (Value::Number(n), Value::Number(m)) => Some(n == m),
        // Only for speed: most comparisons are of two given texts.
        (Value::Given(text), Value::Given(other)) => Some(text == other),
        _ => match (text_in(pool, lower), text_in(pool, upper)) {
            (Some(text), Some(other)) => Some(text == other),
            _ => None,
        },
    }
}

/// A part of a kept value, if it is a text. Only the proof needs the pool: it bounds the new place.
pub fn cut<'a>(pool: &[u8], value: Value<'a>, from: usize, len: usize) -> Value<'a>
    requires { Fits (length pool.now) value }
    ensures item { item_in pool.now result ≡ cut from len (item_in pool.now value.entry) }
    ensures fits { Fits (length pool.now) result }
{
    match value {
        Value::Given(text) => {
            let from = from.min(text.len());
            let len = len.min(text.len() - from);
            Value::Given(&text[from..][..len])
        }
        Value::Made(start, count) => {
            let from = from.min(count);
            let len = len.min(count - from);
            Value::Made(start + from, len)
        }
        _ => value,
    }
}
