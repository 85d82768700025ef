//! What fields and variables, the key, the type and the preamble push, and the functions that use only the stack.

ghost use Rattle.std.specs.Prelude.{◌≡◌, IfOk};
ghost use Rattle.bt_actions.specs.declared.complaint.Complaint.TheVariants.{NoEntry};
ghost use Rattle.bt_actions.specs.Item.{Txt};
ghost use Rattle.bt_actions.specs.World.{Goes};
ghost use Rattle.bt_actions.specs.State.{popped, pushed, pushed_in_error};
ghost use Rattle.bt_actions.specs.Stack.{duplicated, swapped};
ghost use Rattle.bt_actions.specs.Given.{zero_item, empty_item};
ghost use Rattle.bt_actions.specs.Operands.{kind_shown, field_at, number_at, text_at, kind_item, of_entry, global_number, global_text};
ghost use Rattle.bt_actions.specs.inner.Rows.{key_item};
ghost use Rattle.bt_stack.specs.View.{Acts};

use crate::state::State;
use bt_actions::{Complaint, Entry, Flow, STACK_LIMIT};
use std::alloc::AllocError;

/// Reports that there is no entry and pushes 0, unless the stack is full.
#[cold]
fn push_zero_without_entry(state: &mut State) -> Result<Flow, AllocError>
    ensures { IfOk result (Acts (pushed_in_error NoEntry zero_item) state.old state.new) }
{
    if state.stack.len() < STACK_LIMIT {
        state.tell(Complaint::NoEntry)?;
    }
    state.push_number(0)
}

/// Reports an error and pushes the empty text, unless the stack is full.
#[cold]
pub fn push_empty_in_error(state: &mut State, complaint: Complaint) -> Result<Flow, AllocError>
    ensures { IfOk result (Acts (pushed_in_error complaint empty_item) state.old state.new) }
{
    if state.stack.len() < STACK_LIMIT {
        state.tell(complaint)?;
    }
    state.push_given(b"")
}

/// Reports that there is no entry and pushes the empty text, unless the stack is full.
#[cold]
fn push_empty_without_entry(state: &mut State) -> Result<Flow, AllocError>
    ensures { IfOk result (Acts (pushed_in_error NoEntry empty_item) state.old state.new) }
{
    push_empty_in_error(state, Complaint::NoEntry)
}

/// Pushes a field of the step's entry, which may be missing.
#[inline(always)]
pub fn call_field(state: &mut State, n: usize) -> Result<Flow, AllocError>
    ensures { IfOk result (Acts (of_entry (field_at n) empty_item) state.old state.new) }
{
    match state.entry {
        None => push_empty_without_entry(state),
        Some(entry) => match entry.fields.get(n) {
            None => state.push_missing(n),
            Some(text) => state.push_given(text.as_slice()),
        },
    }
}

/// Pushes the value of a number variable of the step's entry.
pub fn call_entry_number(state: &mut State, n: usize) -> Result<Flow, AllocError>
    ensures { IfOk result (Acts (of_entry (number_at n) zero_item) state.old state.new) }
{
    match state.entry {
        None => push_zero_without_entry(state),
        Some(_) => {
            let number = state.stack.own_number(n);
            state.push_number(number)
        }
    }
}

/// Pushes the value of a text variable of the step's entry.
pub fn call_entry_text(state: &mut State, n: usize) -> Result<Flow, AllocError>
    ensures { IfOk result (Acts (of_entry (text_at n) empty_item) state.old state.new) }
{
    match state.entry {
        None => push_empty_without_entry(state),
        Some(_) => {
            if state.stack.len() < STACK_LIMIT && state.stack.push_own_text(n)? {
                Ok(Flow::Go)
            } else {
                state.pass_text_limit()
            }
        }
    }
}

/// Pushes the value of a number variable of the style. No element is more frequent in most styles.
#[inline(always)]
pub fn call_global_number(state: &mut State, n: usize) -> Result<Flow, AllocError>
    ensures { IfOk result (Acts (global_number n) state.old state.new) }
{
    let number = state.stack.global_number(n);
    state.push_number(number)
}

/// Pushes the value of a text variable of the style.
#[inline(always)]
pub fn call_global_text(state: &mut State, n: usize) -> Result<Flow, AllocError>
    ensures { IfOk result (Acts (global_text n) state.old state.new) }
{
    if state.stack.len() < STACK_LIMIT && state.stack.push_global_text(n)? {
        Ok(Flow::Go)
    } else {
        state.pass_text_limit()
    }
}

/// The text of an entry's type, or nothing if the type has no function.
fn kind_shown(entry: &Entry) -> &[u8]
    ensures { result.now ≡ kind_shown entry.now.function entry.now.kind }
{
    match entry.function {
        None => b"",
        Some(_) => entry.kind.as_slice(),
    }
}

/// `cite$`.
pub fn cite(state: &mut State) -> Result<Flow, AllocError>
    ensures { IfOk result (Acts (of_entry key_item empty_item) state.old state.new) }
{
    match state.entry {
        None => push_empty_without_entry(state),
        Some(entry) => state.push_given(entry.key.as_slice()),
    }
}

/// `type$`.
pub fn entry_type(state: &mut State) -> Result<Flow, AllocError>
    ensures { IfOk result (Acts (of_entry kind_item empty_item) state.old state.new) }
{
    match state.entry {
        None => push_empty_without_entry(state),
        Some(entry) => state.push_given(kind_shown(entry)),
    }
}

/// `preamble$`.
pub fn preamble(state: &mut State) -> Result<Flow, AllocError>
    ensures { IfOk result (Acts (λ world. pushed (Txt world.preamble) world) state.old state.new) }
{
    let preamble = state.preamble;
    state.push_given(preamble)
}

/// `duplicate$`.
pub fn duplicate(state: &mut State) -> Result<Flow, AllocError>
    ensures { IfOk result (Acts (λ world. duplicated world.stack world) state.old state.new) }
{
    if state.stack.len() >= STACK_LIMIT {
        return state.pass_text_limit();
    }
    if state.stack.len() == 0 {
        state.tell_empty()?;
    } else {
        state.stack.duplicate()?;
    }
    Ok(Flow::Go)
}

/// `pop$`.
#[inline(always)]
pub fn pop(state: &mut State) -> Result<Flow, AllocError>
    ensures { IfOk result (Acts (λ world. Goes (popped world).1) state.old state.new) }
{
    state.drop_top()?;
    Ok(Flow::Go)
}

/// `swap$`.
pub fn swap(state: &mut State) -> Result<Flow, AllocError>
    ensures { IfOk result (Acts (λ world. Goes (swapped world.stack world)) state.old state.new) }
{
    if state.stack.len() < 2 {
        state.tell_empty()?;
    } else {
        state.stack.swap();
    }
    Ok(Flow::Go)
}
