//! The functions on texts. A text that ends the pool grows where it lies; all others are written on the stack's page.

ghost use Rattle.std.specs.Prelude.{◌≡◌, ◌≤◌, [], None, pos, length, drop, option_map, IfOk, IfSome, IfNone};
ghost use Rattle.bt_text.specs.Period.{with_period};
ghost use Rattle.bt_text.specs.Purification.{purified};
ghost use Rattle.bt_actions.specs.Arguments.{as_number, as_text, taken_two, taken_three};
ghost use Rattle.bt_actions.specs.Given.{valued, empty_item, number_given};
ghost use Rattle.bt_actions.specs.Texts.{mode_of, case_of};
ghost use Rattle.bt_actions.specs.inner.Rows.{join_of, substring_given, prefix_of, length_of, width_given};
ghost use Rattle.bt_actions.specs.World.{Goes, say, with_stack};
ghost use Rattle.bt_style.specs.declared.builtin.Builtin.TheVariants as builtin;
ghost use Rattle.bt_stack.specs.Forms.{number_or_error};
ghost use Rattle.bt_stack.specs.Tops.{joined_tops, top_len};
ghost use Rattle.bt_stack.specs.View.{Acts};
ghost use Rattle.bt_stack.specs.inner.Converted.{case_told, case_asked, case_answer};
ghost use Rattle.bt_stack.specs.inner.Part.{IsPart, part_asked, prefix_asked};

use crate::forms::{OfTextToNumber, OfTextToText, answer_bytes, answer_page};
use crate::stack::Stack;
use crate::state::State;
use bt_actions::{Complaint, Flow};
use bt_style::Builtin;
use bt_text::{
    Bytes, Mode, part_place, push_changed_case, push_prefix, push_purified, push_with_period,
    text_length, width,
};
use std::alloc::{AllocError, Global};

/// A count, which must fit 32 signed bits.
pub fn count_fitting(builtin: Builtin, count: usize) -> Result<i32, Complaint>
    ensures { number_or_error result ≡ number_given builtin (pos count) }
{
    match i32::try_from(count) {
        Ok(number) => Ok(number),
        Err(_) => Err(Complaint::OutOfRange(builtin)),
    }
}

/// `text.length$`.
pub struct TextLength;

impl OfTextToNumber for TextLength {
    ghost value = { length_of };

    fn of(_alloc: Global, text: &[u8]) -> Result<Result<i32, Complaint>, AllocError> {
        Ok(count_fitting(Builtin::TextLength, text_length(text)))
    }
}

/// `width$`.
pub struct Width;

impl OfTextToNumber for Width {
    ghost value = { width_given };

    fn of(_alloc: Global, text: &[u8]) -> Result<Result<i32, Complaint>, AllocError> {
        Ok(count_fitting(Builtin::Width, width(text) as usize))
    }
}

/// `purify$`.
pub struct Purify;

impl OfTextToText for Purify {
    ghost value = { purified };

    fn write(text: &[u8], page: &mut Vec<u8>) -> Result<(), AllocError> {
        push_purified(page, text)
    }
}

/// `add.period$`.
pub struct AddPeriod;

impl OfTextToText for AddPeriod {
    ghost value = { with_period };

    fn write(text: &[u8], page: &mut Vec<u8>) -> Result<(), AllocError> {
        push_with_period(page, text)
    }
}

/// `*`.
#[inline(never)]
pub fn join(state: &mut State) -> Result<Flow, AllocError>
    ensures { IfOk result (Acts (λ world.
        valued join_of empty_item (taken_two builtin.Join as_text as_text world)) state.old state.new) }
{
    if state.stack.join()? {
        Ok(Flow::Go)
    } else {
        refuse_join(state)
    }
}

/// `*` of two values that can't be joined, or would be too long.
#[cold]
fn refuse_join(state: &mut State) -> Result<Flow, AllocError>
    requires { joined_tops state.old.stack.items ≡ None }
    ensures { IfOk result (Acts (λ world.
        valued join_of empty_item (taken_two builtin.Join as_text as_text world)) state.old state.new) }
{
    if state.stack.text_at(0).is_some() && state.stack.text_at(1).is_some() {
        state.stack.drop_tops(2);
        state.pass_text_limit()
    } else {
        let wrong = state.stack.is_no_text(0) || state.stack.is_no_text(1);
        state.refuse_two(Builtin::Join, wrong)?;
        state.push_given(b"")
    }
}

/// The change of case that a text names.
fn mode_of(name: &[u8]) -> Option<Mode>
    ensures { result ≡ mode_of name.now }
{
    match name {
        [b't' | b'T'] => Some(Mode::Title),
        [b'l' | b'L'] => Some(Mode::Lower),
        [b'u' | b'U'] => Some(Mode::Upper),
        _ => None,
    }
}

/// Reports that a text names no change of case. The text below it stays.
#[cold]
fn refuse_mode(state: &mut State, complaint: Complaint) -> Result<Flow, AllocError>
    requires { 2 ≤ length state.old.stack.items }
    ensures { IfOk result (Acts (λ world. Goes (with_stack (drop 1 world.stack) (say complaint world)))
        state.old state.new) }
{
    state.tell(complaint)?;
    state.stack.drop_tops(1);
    Ok(Flow::Go)
}

/// A text in the case that another one names, written on an empty page, or that it names none.
fn converted(
    alloc: Global,
    page: Vec<u8>,
    text: &[u8],
    name: &[u8],
) -> Result<Result<Bytes, Complaint>, AllocError>
    requires { page.items ≡ [] }
    ensures { IfOk result (λ told. told ≡ case_told (text.now, name.now)) }
{
    match mode_of(name) {
        Some(mode) => {
            let mut page = page;
            push_changed_case(&mut page, text, mode)?;
            Ok(Ok(Bytes::from_vec(page)))
        }
        None => {
            let name = Bytes::copied(alloc, name)?;
            Ok(Err(Complaint::BadCase(name)))
        }
    }
}

/// What the two topmost values ask for, if they are texts. They are borrowed only here, so the caller can change the
/// stack.
#[tactic(auto, using(crate::proofs::CaseLemmas::second_short))]
fn converted_tops(
    alloc: Global,
    page: Vec<u8>,
    stack: &Stack,
) -> Result<Option<Result<Bytes, Complaint>>, AllocError>
    requires { page.items ≡ [] }
    ensures told { IfOk result (λ told. told ≡ option_map case_told (case_asked stack.now.items)) }
    ensures few { length stack.now.items ≤ 1000 }
    ensures short { IfOk result (λ told. IfSome told (λ _. top_len (drop 1 stack.now.items) ≤ 65536)) }
{
    if stack.len() < 2 {
        return Ok(None);
    }
    match (stack.text_at(1), stack.text_at(0)) {
        (Some(text), Some(name)) => {
            let told = converted(alloc, page, text, name)?;
            Ok(Some(told))
        }
        _ => Ok(None),
    }
}

/// Puts a text in another case in place of two arguments, or reports that none was named.
fn answer_converted(state: &mut State, told: Result<Bytes, Complaint>) -> Result<Flow, AllocError>
    requires { 2 ≤ length state.old.stack.items }
    ensures { IfOk result (Acts (case_answer told) state.old state.new) }
{
    match told {
        Ok(text) => answer_bytes(state, 2, text),
        Err(complaint) => refuse_mode(state, complaint),
    }
}

/// `change.case$` of other values.
#[cold]
#[tactic(auto, using(crate::proofs::FormLemmas::two_refused))]
fn refuse_case(state: &mut State) -> Result<Flow, AllocError>
    requires { case_asked state.old.stack.items ≡ None }
    ensures { IfOk result (Acts (λ world.
        valued case_of empty_item (taken_two builtin.ChangeCase as_text as_text world)) state.old state.new) }
{
    let wrong = state.stack.is_no_text(0) || state.stack.is_no_text(1);
    state.refuse_two(Builtin::ChangeCase, wrong)?;
    state.push_given(b"")
}

/// `change.case$`.
#[inline(never)]
pub fn convert_case(state: &mut State, alloc: Global) -> Result<Flow, AllocError>
    ensures { IfOk result (Acts (λ world.
        valued case_of empty_item (taken_two builtin.ChangeCase as_text as_text world)) state.old state.new) }
{
    let page = state.stack.take_page(alloc);
    match converted_tops(alloc, page, &state.stack)? {
        Some(told) => answer_converted(state, told),
        None => refuse_case(state),
    }
}

/// `text.prefix$` of other values.
#[cold]
#[tactic(auto, using(crate::proofs::FormLemmas::two_refused))]
fn refuse_prefix(state: &mut State) -> Result<Flow, AllocError>
    requires { prefix_asked state.old.stack.items ≡ None }
    ensures { IfOk result (Acts (λ world.
        valued prefix_of empty_item (taken_two builtin.TextPrefix as_text as_number world)) state.old state.new) }
{
    let wrong = state.stack.is_no_number(0) || state.stack.is_no_text(1);
    state.refuse_two(Builtin::TextPrefix, wrong)?;
    state.push_given(b"")
}

/// `text.prefix$`.
#[inline(never)]
pub fn prefix(state: &mut State, alloc: Global) -> Result<Flow, AllocError>
    ensures { IfOk result (Acts (λ world.
        valued prefix_of empty_item (taken_two builtin.TextPrefix as_text as_number world)) state.old state.new) }
{
    let mut page = state.stack.take_page(alloc);
    match state.stack.number_at(0) {
        Some(most) => match state.stack.text_at(1) {
            Some(text) => {
                push_prefix(&mut page, text, most)?;
                answer_page(state, 2, page)
            }
            None => refuse_prefix(state),
        },
        None => refuse_prefix(state),
    }
}

/// Where in a text the part is that the three topmost values ask for, if they are a text and two numbers. The text is
/// borrowed only here, so the caller can change the stack.
fn part_tops(stack: &Stack) -> Option<(usize, usize)>
    ensures some { IfSome result (λ place. IsPart place.0 place.1 stack.now.items) }
    ensures none { IfNone result (part_asked stack.now.items ≡ None) }
{
    match (stack.text_at(2), stack.number_at(1), stack.number_at(0)) {
        (Some(text), Some(start), Some(len)) => Some(part_place(text.len(), start, len)),
        _ => None,
    }
}

/// `substring$` of other values.
#[cold]
#[tactic(auto, using(crate::proofs::FormLemmas::three_refused))]
fn refuse_part(state: &mut State) -> Result<Flow, AllocError>
    requires { part_asked state.old.stack.items ≡ None }
    ensures { IfOk result (Acts (λ world.
        valued substring_given empty_item (taken_three builtin.Substring as_text as_number as_number world))
        state.old state.new) }
{
    let wrong = state.stack.is_no_number(0)
        || state.stack.is_no_number(1)
        || state.stack.is_no_text(2);
    state.refuse_three(Builtin::Substring, wrong)?;
    state.push_given(b"")
}

/// `substring$`. The part isn't copied: it is a place in the same text.
#[inline(never)]
pub fn cut(state: &mut State) -> Result<Flow, AllocError>
    ensures { IfOk result (Acts (λ world.
        valued substring_given empty_item (taken_three builtin.Substring as_text as_number as_number world))
        state.old state.new) }
{
    match part_tops(&state.stack) {
        Some(place) => {
            state.stack.drop_tops(2);
            state.stack.cut_top(place.0, place.1);
            Ok(Flow::Go)
        }
        None => refuse_part(state),
    }
}
