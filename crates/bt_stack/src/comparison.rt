//! `=`, and the tests of texts and of fields.

ghost use Rattle.std.specs.Prelude.{◌≡◌, None, IfOk};
ghost use Rattle.std.specs.List.{list_all};
ghost use Rattle.bt_text.specs.ByteTests.{is_white};
ghost use Rattle.bt_actions.specs.Arguments.{as_any, taken_two};
ghost use Rattle.bt_actions.specs.Comparison.{equality_of};
ghost use Rattle.bt_actions.specs.inner.Rows.{emptiness_of, missing_of};
ghost use Rattle.bt_actions.specs.Given.{valued, zero_item};
ghost use Rattle.bt_style.specs.declared.builtin.Builtin.TheVariants as builtin;
ghost use Rattle.bt_stack.specs.Tops.{tops_equal};
ghost use Rattle.bt_stack.specs.View.{Acts};

use crate::forms::{OfFieldText, answer_in_error};
use crate::numbers::truth;
use crate::state::State;
use bt_actions::{Complaint, Flow};
use bt_style::Builtin;
use bt_text::is_white;
use std::alloc::AllocError;

/// `=`.
#[inline(always)]
pub fn equals(state: &mut State) -> Result<Flow, AllocError>
    ensures { IfOk result (Acts (λ world.
        valued equality_of zero_item (taken_two builtin.Equals as_any as_any world)) state.old state.new) }
{
    match state.stack.tops_equal() {
        Some(equal) => {
            state.stack.answer_number(2, truth(equal));
            Ok(Flow::Go)
        }
        None => refuse_equals(state),
    }
}

/// `=` of two values that can't be compared.
#[cold]
fn refuse_equals(state: &mut State) -> Result<Flow, AllocError>
    requires { tops_equal state.old.stack.items ≡ None }
    ensures { IfOk result (Acts (λ world.
        valued equality_of zero_item (taken_two builtin.Equals as_any as_any world)) state.old state.new) }
{
    if state.stack.len() >= 2 {
        answer_in_error(state, 2, Complaint::WrongKind(Builtin::Equals))
    } else {
        state.refuse_two(Builtin::Equals, false)?;
        state.push_number(0)
    }
}

/// Whether a text is all white space.
fn is_all_white(text: &[u8]) -> bool
    ensures { result ≡ list_all is_white text.now }
{
    text.iter().all(|byte| is_white(*byte))
}

/// `empty$`.
pub struct Empty;

impl OfFieldText for Empty {
    ghost value = { emptiness_of };

    fn of(text: Option<&[u8]>) -> bool {
        match text {
            None => true,
            Some(text) => is_all_white(text),
        }
    }
}

/// `missing$`.
pub struct Missing;

impl OfFieldText for Missing {
    ghost value = { missing_of };

    fn of(text: Option<&[u8]>) -> bool {
        text.is_none()
    }
}
