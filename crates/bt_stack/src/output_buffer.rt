//! The functions that write lines.

ghost use Rattle.std.specs.Prelude.{IfOk};
ghost use Rattle.bt_actions.specs.Actions.{act_with};
ghost use Rattle.bt_actions.specs.Arguments.{as_text, taken};
ghost use Rattle.bt_actions.specs.State.{appended, held_line_ended};
ghost use Rattle.bt_actions.specs.World.{Goes};
ghost use Rattle.bt_style.specs.declared.builtin.Builtin.TheVariants as builtin;
ghost use Rattle.bt_stack.specs.View.{Acts};

use crate::state::State;
use bt_actions::{Complaint, Flow};
use bt_style::Builtin;
use bt_text::HeldFault;
use std::alloc::{AllocError, Global};

/// `newline$`.
#[inline(never)]
pub fn newline(state: &mut State, alloc: Global) -> Result<Flow, AllocError>
    ensures { IfOk result (Acts (λ world. Goes (held_line_ended world)) state.old state.new) }
{
    match state.held.newline(alloc, &mut state.lines) {
        Ok(()) => Ok(Flow::Go),
        Err(_) => Err(AllocError),
    }
}

/// `write$`. The text is read where it lies.
#[inline(never)]
pub fn write(state: &mut State, alloc: Global) -> Result<Flow, AllocError>
    ensures { IfOk result (Acts (λ world. act_with appended (taken builtin.Write as_text world)) state.old
        state.new) }
{
    match state.stack.text_at(0) {
        Some(text) => match state.held.write(alloc, text, &mut state.lines) {
            Ok(()) => {
                state.stack.drop_tops(1);
                Ok(Flow::Go)
            }
            Err(HeldFault::TooLong) => {
                state.stack.drop_tops(1);
                state.stop(Complaint::TextPassed)
            }
            Err(HeldFault::OutOfMemory) => Err(AllocError),
        },
        None => {
            let wrong = state.stack.is_no_text(0);
            state.refuse_one(Builtin::Write, wrong)?;
            Ok(Flow::Go)
        }
    }
}
