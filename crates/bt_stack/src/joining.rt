//! How two kept texts become one, and how a text gets into the pool. The text that was written last ends the pool, so joining
//! a piece to it copies only the piece: a title of ten pieces isn't copied ten times. If `:=` or `format.name$` wrote behind
//! it, it is copied once more.

ghost use Rattle.std.specs.Prelude.{◌≡◌, true, ◌≤◌, ◌++◌, ◌+◌, length, drop, option_map, IfSome, IfOk, OnOk, OnErr};
ghost use Rattle.bt_actions.specs.Item.{Txt};
ghost use Rattle.bt_stack.specs.Tops.{joined_two};
ghost use Rattle.bt_stack.specs.inner.Kept.{item_in, bytes_in, is_text, Fits, Grows};

use crate::reading::text_len;
use crate::value::Value;
use bt_text::TEXT_BYTES;
use std::alloc::AllocError;

/// Puts the bytes of a kept text at the end of the pool. Those that lie in it go through `scratch`, since a pool can't
/// be read and written at once, and std's `extend_from_within` goes byte by byte.
#[inline(always)]
fn append(pool: &mut Vec<u8>, scratch: &mut Vec<u8>, value: Value) -> Result<(), AllocError>
    requires { Fits (length pool.old.items) value }
    ensures ok { OnOk result (pool.new.items ≡ pool.old.items ++ bytes_in pool.old.items value.entry) }
    ensures err { OnErr result (pool.new.items ≡ pool.old.items) }
{
    match value {
        Value::Given(text) => pool.extend_from_slice(text),
        Value::Made(start, count) => {
            scratch.clear();
            scratch.extend_from_slice(&pool[start..start + count])?;
            pool.extend_from_slice(scratch)
        }
        _ => Ok(()),
    }
}

/// Puts a kept text at the end of the pool, unless it lies there, and returns where it begins.
#[inline(always)]
#[tactic(auto, using(crate::proofs::JoinLemmas::last_part))]
fn put_last(pool: &mut Vec<u8>, scratch: &mut Vec<u8>, value: Value) -> Result<usize, AllocError>
    requires { Fits (length pool.old.items) value }
    ensures grows { Grows pool.old.items pool.new.items }
    ensures within { IfOk result (λ start. start ≤ length pool.new.items) }
    ensures last { IfOk result (λ start. drop start pool.new.items ≡ bytes_in pool.old.items value.entry) }
{
    match value {
        Value::Made(start, count) if start + count == pool.len() => Ok(start),
        _ => {
            let start = pool.len();
            append(pool, scratch, value)?;
            Ok(start)
        }
    }
}

/// Joins two kept texts of `len` bytes together. If the first one ends the pool, only the second is copied; if they lie
/// side by side, neither is; otherwise both are copied to the end of the pool.
#[tactic(auto, using(crate::proofs::JoinLemmas::last_joined, crate::proofs::GrowLemmas::fits_grown, crate::proofs::GrowLemmas::grown_more))]
fn join_texts<'a>(
    pool: &mut Vec<u8>,
    scratch: &mut Vec<u8>,
    lower: Value<'a>,
    upper: Value<'a>,
    len: usize,
) -> Result<Value<'a>, AllocError>
    requires lower { Fits (length pool.old.items) lower }
    requires upper { Fits (length pool.old.items) upper }
    requires len { len ≡ length (bytes_in pool.old.items lower) + length (bytes_in pool.old.items upper) }
    requires short { len ≤ 65536 }
    ensures grows { Grows pool.old.items pool.new.items }
    ensures item { IfOk result (λ text. item_in pool.new.items text
        ≡ Txt (bytes_in pool.old.items lower.entry ++ bytes_in pool.old.items upper.entry)) }
    ensures fits { IfOk result (Fits (length pool.new.items)) }
{
    match (lower, upper) {
        (Value::Made(start, count), Value::Made(next, _)) if start + count == next => {
            Ok(Value::Made(start, len))
        }
        _ => {
            let start = put_last(pool, scratch, lower)?;
            append(pool, scratch, upper)?;
            Ok(Value::Made(start, len))
        }
    }
}

/// Joins two kept values, if they are texts and not too long together.
pub fn join<'a>(
    pool: &mut Vec<u8>,
    scratch: &mut Vec<u8>,
    lower: Value<'a>,
    upper: Value<'a>,
) -> Result<Option<Value<'a>>, AllocError>
    requires lower { Fits (length pool.old.items) lower }
    requires upper { Fits (length pool.old.items) upper }
    ensures grows { Grows pool.old.items pool.new.items }
    ensures item { IfOk result (λ text. option_map (item_in pool.new.items) text
        ≡ joined_two (item_in pool.old.items lower.entry) (item_in pool.old.items upper.entry)) }
    ensures fits { IfOk result (λ text. IfSome text (Fits (length pool.new.items))) }
{
    match (text_len(lower), text_len(upper)) {
        (Some(first), Some(second)) if first + second <= TEXT_BYTES => {
            let text = join_texts(pool, scratch, lower, upper, first + second)?;
            Ok(Some(text))
        }
        _ => Ok(None),
    }
}

/// The same text as a range of the pool. It is copied to the end of the pool if it lies elsewhere. The only error is out of
/// memory.
#[inline(always)]
#[tactic(auto, using(crate::proofs::JoinLemmas::put_last_part))]
pub fn in_pool(pool: &mut Vec<u8>, value: Value) -> Result<Value<'static>, AllocError>
    requires text { is_text value ≡ true }
    requires fits { Fits (length pool.old.items) value }
    ensures grows { Grows pool.old.items pool.new.items }
    ensures text { IfOk result (λ made. is_text made ≡ true) }
    ensures bytes { IfOk result (λ made. bytes_in pool.new.items made ≡ bytes_in pool.old.items value.entry) }
    ensures fits { IfOk result (λ made. Fits (length pool.new.items) made) }
{
    match value {
        Value::Given(text) => {
            let start = pool.len();
            pool.extend_from_slice(text)?;
            Ok(Value::Made(start, text.len()))
        }
        Value::Made(start, len) => Ok(Value::Made(start, len)),
        _ => Ok(Value::Missing(0)),
    }
}
