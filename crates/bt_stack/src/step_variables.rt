//! The variables of a step: those that it was given, and beside them the values that it gave to some. So a step that
//! changes none copies none.

ghost use Rattle.std.specs.Prelude.{◌≡◌, ◌<◌, ℕ, ℤ, List, [], pos, length, slice_get, slice_index_or, slice_set, option_map, option_and_then, true, IfSome, OnOk, OnErr};
ghost use Rattle.bt_stack.specs.Desk.{short};
ghost use Rattle.bt_stack.specs.inner.Kept.{item_in, bytes_in, is_text, text_value, Fits, AllFit, texts_over, own_of, value_over, values_over};

use crate::reading::text_value;
use crate::value::Value;
use bt_actions::Variables;
use bt_text::{Bytes, Shared, TEXT_BYTES, Values};
use std::alloc::AllocError;

/// For how many variables there is room once a step gives a value to the first. Most styles have fewer; texts of so many
/// variables are 1,008 bytes.
const FIRST_VARIABLES: usize = 42;

/// Variables, and the values that a step gave to some of them, each by the number of its variable. A variable after the
/// end of `numbers` or `texts` has none, and neither has one whose place holds `None` or a kept value that is no text.
#[derive(Drop)]
pub struct StepVariables<'a> {
    pub given: &'a Shared<Variables>,
    pub numbers: Vec<Option<i32>>,
    /// Each lies in the pool and borrows nothing, so the vector can serve another step.
    pub texts: Vec<Value<'static>>,
}

/// The number that the step gave to a variable, or else the one that it was given.
fn number_over(own: Option<i32>, given: i32) -> i32
    ensures { result ≡ value_over own given }
{
    match own {
        Some(number) => number,
        None => given,
    }
}

/// The number that the step gave to a variable, if it gave it one.
pub fn own_number(numbers: &[Option<i32>], n: usize) -> Option<i32>
    ensures { result ≡ own_of (slice_get numbers.now n) }
{
    match numbers.get(n) {
        Some(number) => *number,
        None => None,
    }
}

/// The number of a variable, or 0 if there is no such variable.
#[tactic(auto, using(crate::proofs::VariableLemmas::numbers_none))]
pub fn number_of(numbers: &[Option<i32>], given: &Values<i32>, n: usize) -> i32
    ensures { result ≡ slice_index_or (values_over numbers.now given.now) n (pos 0) }
{
    match given.get(n) {
        None => 0,
        Some(number) => number_over(own_number(numbers, n), *number),
    }
}

/// A text that lives longer than the step, unless it is too long.
fn short<'a>(text: &'a [u8]) -> Option<Value<'a>>
    ensures item { (pool : List ℕ) → option_map (item_in pool) result ≡ short text.now }
    ensures fits { (size : ℕ) → IfSome result (Fits size) }
{
    if text.len() <= TEXT_BYTES {
        Some(Value::Given(text))
    } else {
        None
    }
}

/// The value that the step gave to a text variable, if it gave it one.
fn own_text<'a>(texts: &[Value<'a>], n: usize) -> Option<Value<'a>>
    ensures value { result ≡ option_and_then text_value (slice_get texts.now n) }
    ensures fits { (size : ℕ) → AllFit size texts.now → IfSome result (Fits size) }
{
    if n < texts.len() {
        text_value(texts[n])
    } else {
        None
    }
}

/// The text of a variable, or the empty text if there is no such variable, unless it is too long.
pub fn text_of<'a>(
    texts: &[Value<'a>],
    given: &'a Values<Shared<Bytes>>,
    n: usize,
) -> Option<Value<'a>>
    ensures item { (pool : List ℕ) → AllFit (length pool) texts.now
        → option_map (item_in pool) result ≡ short (slice_index_or (texts_over pool texts.now given.now) n []) }
    ensures fits { (size : ℕ) → AllFit size texts.now → IfSome result (Fits size) }
{
    match given.get(n) {
        None => short(b""),
        Some(text) => match own_text(texts, n) {
            Some(own) => Some(own),
            None => short(text.as_slice()),
        },
    }
}

/// Gives an empty vector room for the values of the first variables.
fn make_room<T: Drop>(values: &mut Vec<T>, count: usize) -> Result<(), AllocError>
    ensures { values.new.items ≡ values.old.items }
{
    if values.is_empty() {
        values.reserve(count.min(FIRST_VARIABLES))
    } else {
        Ok(())
    }
}

/// Makes a place for the value of number variable `n` of `count`.
#[cold]
#[tactic(auto, using(crate::proofs::VariableLemmas::numbers_padded))]
fn make_number_place(
    numbers: &mut Vec<Option<i32>>,
    count: usize,
    n: usize,
) -> Result<(), AllocError>
    ensures there { OnOk result (n < length numbers.new.items) }
    ensures same { (zs : List ℤ) → values_over numbers.new.items zs ≡ values_over numbers.old.items zs }
{
    make_room(numbers, count)?;
    'numbers: while numbers.len() <= n {
        numbers.push(None)?;
    }
    Ok(())
}

/// Gives a value to number variable `n` of `count`, if there is one.
#[inline(always)]
#[tactic(auto, using(crate::proofs::VariableLemmas::numbers_set, crate::proofs::VariableLemmas::numbers_past))]
pub fn set_number(
    numbers: &mut Vec<Option<i32>>,
    count: usize,
    n: usize,
    number: i32,
) -> Result<(), AllocError>
    ensures ok { OnOk result ((zs : List ℤ) → length zs ≡ count
        → values_over numbers.new.items zs ≡ slice_set (values_over numbers.old.items zs) n number) }
    ensures err { OnErr result ((zs : List ℤ) → values_over numbers.new.items zs ≡ values_over numbers.old.items zs) }
{
    if n >= numbers.len() {
        if n >= count {
            return Ok(());
        }
        make_number_place(numbers, count, n)?;
    }
    numbers[n] = Some(number);
    Ok(())
}

/// Makes a place for the value of text variable `n` of `count`.
#[cold]
#[tactic(auto, using(crate::proofs::VariableLemmas::texts_padded))]
fn make_text_place(texts: &mut Vec<Value>, count: usize, n: usize) -> Result<(), AllocError>
    ensures there { OnOk result (n < length texts.new.items) }
    ensures same { (pool : List ℕ) (ts : List (List ℕ))
        → texts_over pool texts.new.items ts ≡ texts_over pool texts.old.items ts }
    ensures fit { (size : ℕ) → AllFit size texts.old.items → AllFit size texts.new.items }
{
    make_room(texts, count)?;
    'texts: while texts.len() <= n {
        texts.push(Value::Missing(0))?;
    }
    Ok(())
}

/// Gives a value to text variable `n` of `count`, if there is one.
#[inline(always)]
#[tactic(auto, using(crate::proofs::VariableLemmas::texts_set, crate::proofs::VariableLemmas::texts_past))]
pub fn set_text<'a>(
    texts: &mut Vec<Value<'a>>,
    count: usize,
    n: usize,
    value: Value<'a>,
) -> Result<(), AllocError>
    requires { is_text value ≡ true }
    ensures ok { OnOk result ((pool : List ℕ) (t : List (List ℕ)) → length t ≡ count
        → texts_over pool texts.new.items t
        ≡ slice_set (texts_over pool texts.old.items t) n (bytes_in pool value.entry)) }
    ensures err { OnErr result ((pool : List ℕ) (ts : List (List ℕ))
        → texts_over pool texts.new.items ts ≡ texts_over pool texts.old.items ts) }
    ensures fit { (size : ℕ) → Fits size value.entry → AllFit size texts.old.items → AllFit size texts.new.items }
{
    if n >= texts.len() {
        if n >= count {
            return Ok(());
        }
        make_text_place(texts, count, n)?;
    }
    texts[n] = value;
    Ok(())
}
