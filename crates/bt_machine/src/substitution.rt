//! Variables whose values at reached places are replaced.
//!
//! `left` is what the earlier step left, and `base` the present variables. The result always has as many values as
//! `left`. Nearly always `base` has as many, and then its chunks are shared.

ghost use Rattle.std.specs.Prelude.{◌≡◌, length, pos, [], false, OnOk, IfOk, drop, take};
ghost use Rattle.bt_style.specs.Reach.{is_among};
ghost use Rattle.bt_actions.specs.declared.entry.Variables.{Variables};
ghost use Rattle.bt_machine.specs.Footprint.{blend, blend_globals, blend_own};
ghost use Rattle.bt_machine.specs.inner.Footprint.{among};
ghost use Rattle.bt_machine.specs.inner.Substitution.{blend_at, value_put};

use crate::agreement::number_at;
use bt_actions::Variables;
use bt_style::Reach;
use bt_text::{Bytes, Element, Shared, Values};
use std::alloc::{AllocError, Global};

/// The places of some variables.
#[derive(Clone, Copy)]
pub struct Places<'a> {
    pub numbers: &'a [usize],
    pub texts: &'a [usize],
}

/// The places of the style's variables that a step can reach.
pub fn reached_globals(reach: &Reach) -> Places<'_>
    ensures { (v b : Variables) → blend_at result v b ≡ blend_globals (is_among reach.now.targets) v b }
{
    Places {
        numbers: reach.global_numbers.as_slice(),
        texts: reach.global_texts.as_slice(),
    }
}

/// The places of an entry's variables that a step can reach.
pub fn reached_owns(reach: &Reach) -> Places<'_>
    ensures { (v b : Variables) → blend_at result v b ≡ blend_own (is_among reach.now.targets) v b }
{
    Places {
        numbers: reach.entry_numbers.as_slice(),
        texts: reach.entry_texts.as_slice(),
    }
}

fn put_number(
    alloc: Global,
    left: &Values<i32>,
    base: &mut Values<i32>,
    place: usize,
) -> Result<(), AllocError>
    ensures { OnOk result (base.new ≡ value_put (pos 0) place left.now base.old) }
{
    base.set(alloc, place, number_at(left, place))
}

fn put_numbers(
    alloc: Global,
    left: &Values<i32>,
    base: &mut Values<i32>,
    places: &[usize],
) -> Result<(), AllocError>
    requires { length left.now ≡ length base.old }
    ensures { OnOk result (base.new ≡ blend (among places.now) left.now base.old) }
{
    'places: for place in places {
        put_number(alloc, left, base, *place)?;
    }
    Ok(())
}

fn put_text(
    alloc: Global,
    left: &Values<Shared<Bytes>>,
    base: &mut Values<Shared<Bytes>>,
    place: usize,
) -> Result<(), AllocError>
    requires { length left.now ≡ length base.old }
    ensures { OnOk result (base.new ≡ value_put [] place left.now base.old) }
{
    match left.get(place) {
        Some(text) => base.set(alloc, place, text.share()?),
        None => Ok(()),
    }
}

fn put_texts(
    alloc: Global,
    left: &Values<Shared<Bytes>>,
    base: &mut Values<Shared<Bytes>>,
    places: &[usize],
) -> Result<(), AllocError>
    requires { length left.now ≡ length base.old }
    ensures { OnOk result (base.new ≡ blend (among places.now) left.now base.old) }
{
    'places: for place in places {
        put_text(alloc, left, base, *place)?;
    }
    Ok(())
}

fn front<T>(items: &[T], count: usize) -> &[T]
    ensures { result.now ≡ take count items.now }
{
    items.get(..count).unwrap_or(items)
}

fn back<T>(items: &[T], count: usize) -> &[T]
    ensures { result.now ≡ drop count items.now }
{
    items.get(count..).unwrap_or(&[])
}

/// As many values as `left` has: those of `base` as far as they go, then those of `left`.
fn as_many<T: Element>(alloc: Global, left: &[T], base: &[T]) -> Result<Vec<T>, AllocError>
    ensures { IfOk result (λ values. values.items ≡ blend (λ n. false) left.now base.now) }
{
    let mut values = T::copied(alloc, front(base, left.len()))?;
    let mut more = T::copied(alloc, back(left, base.len()))?;
    values.append(&mut more)?;
    Ok(values)
}

/// The same for lists that share chunks: if the lengths are equal, `base` itself, without a copy of its values.
fn fitted<T: Element>(
    alloc: Global,
    left: &Values<T>,
    base: &Values<T>,
) -> Result<Values<T>, AllocError>
    ensures { IfOk result (λ values. values ≡ blend (λ n. false) left.now base.now) }
{
    if left.len() == base.len() {
        return base.copied(alloc);
    }
    let left = left.to_vec(alloc)?;
    let base = base.to_vec(alloc)?;
    let values = as_many(alloc, left.as_slice(), base.as_slice())?;
    Values::from_vec(alloc, values)
}

fn numbers_over(
    alloc: Global,
    left: &Values<i32>,
    base: &Values<i32>,
    places: &[usize],
) -> Result<Values<i32>, AllocError>
    ensures { IfOk result (λ numbers. numbers ≡ blend (among places.now) left.now base.now) }
{
    let mut numbers = fitted(alloc, left, base)?;
    put_numbers(alloc, left, &mut numbers, places)?;
    Ok(numbers)
}

fn texts_over(
    alloc: Global,
    left: &Values<Shared<Bytes>>,
    base: &Values<Shared<Bytes>>,
    places: &[usize],
) -> Result<Values<Shared<Bytes>>, AllocError>
    ensures { IfOk result (λ texts. texts ≡ blend (among places.now) left.now base.now) }
{
    let mut texts = fitted(alloc, left, base)?;
    put_texts(alloc, left, &mut texts, places)?;
    Ok(texts)
}

/// The variables of `base`, with those of `left` at some places, and as many as `left` has.
pub fn variables_over(
    alloc: Global,
    left: &Variables,
    base: &Variables,
    places: Places<'_>,
) -> Result<Variables, AllocError>
    ensures { IfOk result (λ both. both ≡ blend_at places.entry left.now base.now) }
{
    Ok(Variables {
        numbers: numbers_over(alloc, &left.numbers, &base.numbers, places.numbers)?,
        texts: texts_over(alloc, &left.texts, &base.texts, places.texts)?,
    })
}
