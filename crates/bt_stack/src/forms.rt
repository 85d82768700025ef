//! The forms of built-in functions. A function of values is a few lines; that its arguments are read where they lie,
//! that wrong ones are taken away and reported in their order, and that the answer is written over the lowest of them,
//! is said and proved once for each form. What happens to wrong arguments stands in cold functions, so the fast way is
//! short enough to be inlined into the loop.

ghost use Rattle.std.specs.Prelude.{◌≡◌, ◌≤◌, ◌<◌, [], ℤ, ℕ, List, Option, IfOk, OnOk, length, drop, option_copied, ◌++◌};
ghost use Rattle.bt_actions.specs.Item.{Txt};
ghost use Rattle.bt_actions.specs.Arguments.{as_number, as_text, as_field_text, taken, taken_two};
ghost use Rattle.bt_actions.specs.Given.{Given, Gives, valued, zero_item, empty_item, number_given, truth};
ghost use Rattle.bt_actions.specs.State.{pushed, pushed_in_error};
ghost use Rattle.bt_actions.specs.World.{with_stack};
ghost use Rattle.bt_stack.specs.Forms.{number_or_error, text_given};
ghost use Rattle.bt_stack.specs.Forms.{text_or_error};
ghost use Rattle.bt_stack.specs.View.{Acts};

use crate::numbers::truth;
use crate::operands::push_empty_in_error;
use crate::state::State;
use bt_actions::{Complaint, Flow};
use bt_style::Builtin;
use bt_text::Bytes;
use std::alloc::{AllocError, Global};

/// A function of two numbers that gives a number.
pub trait OfTwoNumbers {
    ghost value: { ℤ × ℤ → Given };

    /// Its value, or what is wrong with it.
    fn of(lower: i32, upper: i32) -> Result<i32, Complaint>
        ensures { number_or_error result ≡ value (lower, upper) };
}

/// A function of a text that gives a number.
pub trait OfTextToNumber {
    ghost value: { List ℕ → Given };

    /// Its value, or what is wrong with it.
    fn of(alloc: Global, text: &[u8]) -> Result<Result<i32, Complaint>, AllocError>
        requires { length text.now ≤ 65536 }
        ensures { IfOk result (λ number. number_or_error number ≡ value text.now) };
}

/// A test of a text, or of a field that is missing.
pub trait OfFieldText {
    ghost value: { Option (List ℕ) → Given };

    /// Whether it holds.
    fn of(text: Option<&[u8]>) -> bool
        ensures { Gives (truth result) ≡ value (option_copied text.entry) };
}

/// A function of a text that gives a text.
pub trait OfTextToText {
    ghost value: { List ℕ → List ℕ };

    /// Writes its value on a page.
    fn write(text: &[u8], page: &mut Vec<u8>) -> Result<(), AllocError>
        ensures { OnOk result (page.new.items ≡ page.old.items ++ value text.now) };
}

/// A function of a number that gives a text.
pub trait OfNumberToText {
    ghost value: { ℤ → Given };

    /// Writes its value on an empty page, or tells what is wrong with the number.
    fn write(number: i32, page: &mut Vec<u8>) -> Result<Option<Complaint>, AllocError>
        requires { page.old.items ≡ [] }
        ensures { IfOk result (λ wrong. text_or_error wrong page.new.items ≡ value number) };
}

/// A number that must fit 32 signed bits.
pub fn fitting(builtin: Builtin, number: i64) -> Result<i32, Complaint>
    ensures { number_or_error result ≡ number_given builtin number }
{
    match i32::try_from(number) {
        Ok(number) => Ok(number),
        Err(_) => Err(Complaint::OutOfRange(builtin)),
    }
}

/// Reports an error, and puts 0 in place of arguments that were there.
#[cold]
pub fn answer_in_error(
    state: &mut State,
    count: usize,
    complaint: Complaint,
) -> Result<Flow, AllocError>
    requires some { 0 < count }
    requires there { count ≤ length state.old.stack.items }
    ensures { IfOk result (Acts (λ world. pushed_in_error complaint zero_item
        (with_stack (drop count world.stack) world)) state.old state.new) }
{
    state.tell(complaint)?;
    state.stack.answer_number(count, 0);
    Ok(Flow::Go)
}

/// Reports an error, and puts the empty text in place of arguments that were there.
#[cold]
pub fn answer_empty_in_error(
    state: &mut State,
    count: usize,
    complaint: Complaint,
) -> Result<Flow, AllocError>
    requires { count ≤ length state.old.stack.items }
    ensures { IfOk result (Acts (λ world. pushed_in_error complaint empty_item
        (with_stack (drop count world.stack) world)) state.old state.new) }
{
    state.stack.drop_tops(count);
    push_empty_in_error(state, complaint)
}

/// Puts a text that was written in place of arguments, unless it is too long.
pub fn answer_page(state: &mut State, count: usize, page: Vec<u8>) -> Result<Flow, AllocError>
    requires some { 0 < count }
    requires there { count ≤ length state.old.stack.items }
    ensures { IfOk result (Acts (λ world. pushed (Txt page.items) (with_stack (drop count world.stack) world))
        state.old state.new) }
{
    if state.stack.answer_text(count, page)? {
        Ok(Flow::Go)
    } else {
        state.stack.drop_tops(count);
        state.pass_text_limit()
    }
}

/// Puts a text in place of arguments, unless it is too long.
pub fn answer_bytes(state: &mut State, count: usize, text: Bytes) -> Result<Flow, AllocError>
    requires some { 0 < count }
    requires there { count ≤ length state.old.stack.items }
    ensures { IfOk result (Acts (λ world. pushed (Txt text) (with_stack (drop count world.stack) world))
        state.old state.new) }
{
    let page = text.into_vec();
    answer_page(state, count, page)
}

/// Calls a function of two numbers.
pub fn call_of_two_numbers<F: OfTwoNumbers>(
    state: &mut State,
    builtin: Builtin,
) -> Result<Flow, AllocError>
    ensures { IfOk result (Acts (λ world.
        valued F.value zero_item (taken_two builtin as_number as_number world)) state.old state.new) }
{
    match (state.stack.number_at(1), state.stack.number_at(0)) {
        (Some(lower), Some(upper)) => match F::of(lower, upper) {
            Ok(number) => {
                state.stack.answer_number(2, number);
                Ok(Flow::Go)
            }
            Err(complaint) => answer_in_error(state, 2, complaint),
        },
        _ => {
            let wrong = state.stack.is_no_number(0) || state.stack.is_no_number(1);
            state.refuse_two(builtin, wrong)?;
            state.push_number(0)
        }
    }
}

/// Calls a function of a text that gives a number.
#[inline(never)]
pub fn call_of_text_to_number<F: OfTextToNumber>(
    state: &mut State,
    alloc: Global,
    builtin: Builtin,
) -> Result<Flow, AllocError>
    ensures { IfOk result (Acts (λ world.
        valued F.value zero_item (taken builtin as_text world)) state.old state.new) }
{
    match state.stack.text_at(0) {
        Some(text) => match F::of(alloc, text)? {
            Ok(number) => {
                state.stack.answer_number(1, number);
                Ok(Flow::Go)
            }
            Err(complaint) => answer_in_error(state, 1, complaint),
        },
        None => {
            let wrong = state.stack.is_no_text(0);
            state.refuse_one(builtin, wrong)?;
            state.push_number(0)
        }
    }
}

/// Calls a test of a text, or of a field that is missing.
pub fn call_of_field_text<F: OfFieldText>(
    state: &mut State,
    builtin: Builtin,
) -> Result<Flow, AllocError>
    ensures { IfOk result (Acts (λ world.
        valued F.value zero_item (taken builtin as_field_text world)) state.old state.new) }
{
    match state.stack.field_text_at(0) {
        Some(text) => {
            let holds = F::of(text);
            state.stack.answer_number(1, truth(holds));
            Ok(Flow::Go)
        }
        None => {
            let wrong = state.stack.is_no_field_text(0);
            state.refuse_one(builtin, wrong)?;
            state.push_number(0)
        }
    }
}

/// Calls a function of a text that gives a text.
#[inline(never)]
pub fn call_of_text_to_text<F: OfTextToText>(
    state: &mut State,
    alloc: Global,
    builtin: Builtin,
) -> Result<Flow, AllocError>
    ensures { IfOk result (Acts (λ world.
        valued (text_given F.value) empty_item (taken builtin as_text world)) state.old state.new) }
{
    let mut page = state.stack.take_page(alloc);
    match state.stack.text_at(0) {
        Some(text) => {
            F::write(text, &mut page)?;
            answer_page(state, 1, page)
        }
        None => {
            let wrong = state.stack.is_no_text(0);
            state.refuse_one(builtin, wrong)?;
            state.push_given(b"")
        }
    }
}

/// Calls a function of a number that gives a text.
#[inline(never)]
pub fn call_of_number_to_text<F: OfNumberToText>(
    state: &mut State,
    alloc: Global,
    builtin: Builtin,
) -> Result<Flow, AllocError>
    ensures { IfOk result (Acts (λ world.
        valued F.value empty_item (taken builtin as_number world)) state.old state.new) }
{
    let mut page = state.stack.take_page(alloc);
    match state.stack.number_at(0) {
        Some(number) => match F::write(number, &mut page)? {
            None => answer_page(state, 1, page),
            Some(complaint) => answer_empty_in_error(state, 1, complaint),
        },
        None => {
            let wrong = state.stack.is_no_number(0);
            state.refuse_one(builtin, wrong)?;
            state.push_given(b"")
        }
    }
}
