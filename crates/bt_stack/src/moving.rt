//! How texts move to another pool, once most bytes of the first one aren't in use. First all texts are copied, which may
//! fail but changes nothing else. Then the values get their new places, which can't fail.

ghost use Rattle.std.specs.Prelude.{◌≡◌, ◌<◌, ◌^◌, ◌++◌, ◌+◌, length, OnOk};
ghost use Rattle.bt_stack.specs.inner.Kept.{AllFit};
ghost use Rattle.bt_stack.specs.inner.Moved.{made_len, made_bytes, made_size, placed, moved};

use crate::value::Value;
use std::alloc::AllocError;

/// How many bytes of the pool a kept value names.
fn made_len(value: Value) -> usize
    ensures { result ≡ made_len value.entry }
{
    match value {
        Value::Made(_, count) => count,
        _ => 0,
    }
}

/// How many bytes kept values name together, or the largest number if that overflows.
pub fn made_size(values: &[Value]) -> usize {
    let mut len = 0usize;
    for value in values {
        len = len.saturating_add(made_len(*value));
    }
    len
}

/// Puts the bytes of all texts that lie in a pool after one another.
pub fn copy_made(pool: &[u8], values: &[Value], to: &mut Vec<u8>) -> Result<(), AllocError>
    requires { AllFit (length pool.now) values.now }
    ensures { OnOk result (to.new.items ≡ to.old.items ++ made_bytes pool.now values.now) }
{
    'values: for value in values {
        if let Value::Made(start, count) = *value {
            to.extend_from_slice(&pool[start..start + count])?;
        }
    }
    Ok(())
}

/// A kept value whose text, if it lies in a pool, starts here.
fn placed<'a>(value: Value<'a>, start: usize) -> Value<'a>
    ensures { result ≡ placed start value.entry }
{
    match value {
        Value::Made(_, count) => Value::Made(start, count),
        _ => value,
    }
}

/// Lets the texts that lie in a pool follow one another, from a place on.
pub fn move_made(values: &mut Vec<Value>, start: usize)
    requires { start + made_size values.old.items < 2 ^ 64 }
    ensures { values.new.items ≡ moved start values.old.items }
{
    let mut at = start;
    'values: for i in 0..values.len() {
        let value = values[i];
        values[i] = placed(value, at);
        at += made_len(value);
    }
}
