//! The functions that log.

ghost use Rattle.std.specs.Prelude.{◌≡◌, IfOk};
ghost use Rattle.bt_style.specs.Program.{program_of};
ghost use Rattle.bt_actions.specs.Actions.{change_with};
ghost use Rattle.bt_actions.specs.Arguments.{as_any, as_text, taken};
ghost use Rattle.bt_actions.specs.LogLines.{log_stack};
ghost use Rattle.bt_actions.specs.inner.Rows.{log_value, log_warning};
ghost use Rattle.bt_actions.specs.World.{Goes};
ghost use Rattle.bt_style.specs.declared.builtin.Builtin.TheVariants as builtin;
ghost use Rattle.bt_stack.specs.inner.Logged.{logged_from};
ghost use Rattle.bt_stack.specs.View.{world_of, Acts};

use crate::state::State;
use bt_actions::{Complaint, Flow};
use bt_style::{Builtin, Style};
use bt_text::Bytes;
use std::alloc::{AllocError, Global};

/// Logs the topmost value and takes it away, if there is one.
fn log_top(state: &mut State, alloc: Global, style: &Style) -> Result<bool, AllocError>
    ensures { IfOk result (λ done. (done, world_of state.new)
        ≡ logged_from (program_of style.now) (world_of state.old).stack (world_of state.old)) }
{
    match state.stack.shown_top(alloc, style)? {
        None => Ok(false),
        Some(words) => {
            state.stack.drop_tops(1);
            state.tell(Complaint::Shown(words))?;
            Ok(true)
        }
    }
}

/// `top$`.
#[inline(never)]
pub fn top(state: &mut State, alloc: Global, style: &Style) -> Result<Flow, AllocError>
    ensures { IfOk result (Acts (λ world.
        change_with (log_value (program_of style.now)) (taken builtin.Top as_any world)) state.old state.new) }
{
    if !log_top(state, alloc, style)? {
        state.tell(Complaint::EmptyStack)?;
    }
    Ok(Flow::Go)
}

/// `stack$`.
#[inline(never)]
#[tactic(auto, using(crate::proofs::LogLemmas::all_more, crate::proofs::LogLemmas::fewer_left, crate::proofs::LogLemmas::none_left))]
pub fn all(state: &mut State, alloc: Global, style: &Style) -> Result<Flow, AllocError>
    ensures { IfOk result (Acts (λ world. Goes (log_stack (program_of style.now) world)) state.old state.new) }
{
    'values: while log_top(state, alloc, style)? {}
    Ok(Flow::Go)
}

/// `warning$`.
#[inline(never)]
pub fn warning(state: &mut State, alloc: Global) -> Result<Flow, AllocError>
    ensures { IfOk result (Acts (λ world.
        change_with log_warning (taken builtin.Warning as_text world)) state.old state.new) }
{
    match state.stack.text_at(0) {
        Some(text) => {
            let words = Bytes::copied(alloc, text)?;
            state.stack.drop_tops(1);
            state.tell(Complaint::Warned(words))?;
            Ok(Flow::Go)
        }
        None => {
            let wrong = state.stack.is_no_text(0);
            state.refuse_one(Builtin::Warning, wrong)?;
            Ok(Flow::Go)
        }
    }
}
