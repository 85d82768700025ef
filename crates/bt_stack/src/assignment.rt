//! `:=`: how variables get values.

ghost use Rattle.std.specs.Prelude.{◌≡◌, ◌<◌, length, drop, IfOk, OnOk};
ghost use Rattle.bt_actions.specs.Actions.{change_with};
ghost use Rattle.bt_actions.specs.Arguments.{as_any, as_target, taken_two};
ghost use Rattle.bt_actions.specs.Assignment.{assigned};
ghost use Rattle.bt_actions.specs.World.{say, with_stack};
ghost use Rattle.bt_actions.specs.declared.complaint.Complaint.TheVariants.{NoEntry, NotVariable, WrongKind};
ghost use Rattle.bt_style.specs.declared.builtin.Builtin.TheVariants as builtin;
ghost use Rattle.bt_style.specs.declared.style.Target.TheVariants as target;
ghost use Rattle.bt_stack.specs.Assigning.{value_given};
ghost use Rattle.bt_stack.specs.View.{world_of, Acts};

use crate::state::State;
use bt_actions::{Complaint, Flow};
use bt_style::{Builtin, Target};
use std::alloc::AllocError;

/// Reports why a name doesn't get the topmost value, and removes the value.
#[cold]
fn refuse_value(state: &mut State, complaint: Complaint) -> Result<(), AllocError>
    requires { 0 < length state.old.stack.items }
    ensures { OnOk result (world_of state.new
        ≡ with_stack (drop 1 (world_of state.old).stack) (say complaint (world_of state.old))) }
{
    state.tell(complaint)?;
    state.stack.drop_tops(1);
    Ok(())
}

/// Reports that a variable's values are of another kind, and removes the value.
#[cold]
fn refuse_kind(state: &mut State) -> Result<(), AllocError>
    requires { 0 < length state.old.stack.items }
    ensures { OnOk result (world_of state.new
        ≡ with_stack (drop 1 (world_of state.old).stack) (say (WrongKind builtin.Assign) (world_of state.old))) }
{
    refuse_value(state, Complaint::WrongKind(Builtin::Assign))
}

/// Reports that there is no entry whose variable could get the value, and removes the value.
#[cold]
fn refuse_without_entry(state: &mut State) -> Result<(), AllocError>
    requires { 0 < length state.old.stack.items }
    ensures { OnOk result (world_of state.new
        ≡ with_stack (drop 1 (world_of state.old).stack) (say NoEntry (world_of state.old))) }
{
    refuse_value(state, Complaint::NoEntry)
}

/// Reports that a name isn't a variable's, and removes the value.
#[cold]
fn refuse_name(state: &mut State) -> Result<(), AllocError>
    requires { 0 < length state.old.stack.items }
    ensures { OnOk result (world_of state.new
        ≡ with_stack (drop 1 (world_of state.old).stack) (say NotVariable (world_of state.old))) }
{
    refuse_value(state, Complaint::NotVariable)
}

/// A number variable of the style gets the topmost value.
fn assign_global_number(state: &mut State, n: usize) -> Result<(), AllocError>
    requires { 0 < length state.old.stack.items }
    ensures { OnOk result (world_of state.new ≡ value_given (target.GlobalNumber n) (world_of state.old)) }
{
    if state.stack.set_global_number(n, 0)? {
        state.stack.drop_tops(1);
        Ok(())
    } else {
        refuse_kind(state)
    }
}

/// The same of a text variable of the style.
fn assign_global_text(state: &mut State, n: usize) -> Result<(), AllocError>
    requires { 0 < length state.old.stack.items }
    ensures { OnOk result (world_of state.new ≡ value_given (target.GlobalText n) (world_of state.old)) }
{
    if state.stack.set_global_text(n, 0)? {
        state.stack.drop_tops(1);
        Ok(())
    } else {
        refuse_kind(state)
    }
}

/// The same of a number variable of the step's entry.
fn assign_entry_number(state: &mut State, n: usize) -> Result<(), AllocError>
    requires { 0 < length state.old.stack.items }
    ensures { OnOk result (world_of state.new ≡ value_given (target.EntryNumber n) (world_of state.old)) }
{
    if state.entry.is_none() {
        refuse_without_entry(state)
    } else if state.stack.set_own_number(n, 0)? {
        state.stack.drop_tops(1);
        Ok(())
    } else {
        refuse_kind(state)
    }
}

/// The same of a text variable of the step's entry.
#[inline(always)]
fn assign_entry_text(state: &mut State, n: usize) -> Result<(), AllocError>
    requires { 0 < length state.old.stack.items }
    ensures { OnOk result (world_of state.new ≡ value_given (target.EntryText n) (world_of state.old)) }
{
    if state.entry.is_none() {
        refuse_without_entry(state)
    } else if state.stack.set_own_text(n, 0)? {
        state.stack.drop_tops(1);
        Ok(())
    } else {
        refuse_kind(state)
    }
}

/// Gives the topmost value to a name, and removes it. The stack has one.
#[inline(always)]
pub fn assign_value(state: &mut State, target: Target) -> Result<(), AllocError>
    requires { 0 < length state.old.stack.items }
    ensures { OnOk result (world_of state.new ≡ value_given target (world_of state.old)) }
{
    match target {
        Target::EntryNumber(n) => assign_entry_number(state, n),
        Target::EntryText(n) => assign_entry_text(state, n),
        Target::GlobalNumber(n) => assign_global_number(state, n),
        Target::GlobalText(n) => assign_global_text(state, n),
        Target::Builtin(_) | Target::Field(_) | Target::Function(_) => refuse_name(state),
    }
}

/// `:=`.
#[inline(never)]
pub fn assign(state: &mut State) -> Result<Flow, AllocError>
    ensures { IfOk result (Acts (λ world.
        change_with assigned (taken_two builtin.Assign as_any as_target world)) state.old state.new) }
{
    match state.stack.name_at(0) {
        Some(name) if state.stack.len() >= 2 => {
            state.stack.drop_tops(1);
            assign_value(state, name)?;
            Ok(Flow::Go)
        }
        _ => {
            let wrong = state.stack.is_no_name(0);
            state.refuse_two(Builtin::Assign, wrong)?;
            Ok(Flow::Go)
        }
    }
}
