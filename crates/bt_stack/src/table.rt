//! The table of the built-in functions that run no other.
//!
//! It is inlined into the machine's loop, with the functions that take a few instructions. Those on texts and lines stay
//! functions, so the loop stays small.

ghost use Rattle.std.specs.Prelude.{IfOk};
ghost use Rattle.bt_style.specs.Program.{program_of};
ghost use Rattle.bt_actions.specs.Actions.{basic};
ghost use Rattle.bt_stack.specs.View.{Acts};

use crate::comparison::{Empty, Missing, equals};
use crate::forms::{
    call_of_field_text, call_of_number_to_text, call_of_text_to_number, call_of_text_to_text,
    call_of_two_numbers,
};
use crate::names::{NumNames, format_name};
use crate::numbers::{ChrToInt, Greater, Less, Minus, Plus};
use crate::spelling::{IntToChr, IntToStr};
use crate::state::State;
use crate::texts::{AddPeriod, Purify, TextLength, Width, convert_case, cut, join, prefix};
use crate::{assignment, log_lines, operands, output_buffer};
use bt_actions::Flow;
use bt_style::{Builtin, Style};
use std::alloc::{AllocError, Global};

/// Calls a built-in function that runs no other: what it does to the state, and whether the run goes on. For
/// `call.type$`, `if$` and `while$`, which run others, nothing is done.
#[inline(always)]
pub fn call_basic(
    state: &mut State,
    alloc: Global,
    style: &Style,
    builtin: Builtin,
) -> Result<Flow, AllocError>
    ensures { IfOk result (Acts (basic (program_of style.now) builtin) state.old state.new) }
{
    match builtin {
        Builtin::Greater => call_of_two_numbers::<Greater>(state, builtin),
        Builtin::Less => call_of_two_numbers::<Less>(state, builtin),
        Builtin::Equals => equals(state),
        Builtin::Plus => call_of_two_numbers::<Plus>(state, builtin),
        Builtin::Minus => call_of_two_numbers::<Minus>(state, builtin),
        Builtin::Join => join(state),
        Builtin::Assign => assignment::assign(state),
        Builtin::AddPeriod => call_of_text_to_text::<AddPeriod>(state, alloc, builtin),
        Builtin::ChangeCase => convert_case(state, alloc),
        Builtin::ChrToInt => call_of_text_to_number::<ChrToInt>(state, alloc, builtin),
        Builtin::Cite => operands::cite(state),
        Builtin::Duplicate => operands::duplicate(state),
        Builtin::Empty => call_of_field_text::<Empty>(state, builtin),
        Builtin::FormatName => format_name(state, alloc),
        Builtin::IntToChr => call_of_number_to_text::<IntToChr>(state, alloc, builtin),
        Builtin::IntToStr => call_of_number_to_text::<IntToStr>(state, alloc, builtin),
        Builtin::Missing => call_of_field_text::<Missing>(state, builtin),
        Builtin::Newline => output_buffer::newline(state, alloc),
        Builtin::NumNames => call_of_text_to_number::<NumNames>(state, alloc, builtin),
        Builtin::Pop => operands::pop(state),
        Builtin::Preamble => operands::preamble(state),
        Builtin::Purify => call_of_text_to_text::<Purify>(state, alloc, builtin),
        Builtin::Quote => state.push_given(b"\""),
        Builtin::Stack => log_lines::all(state, alloc, style),
        Builtin::Substring => cut(state),
        Builtin::Swap => operands::swap(state),
        Builtin::TextLength => call_of_text_to_number::<TextLength>(state, alloc, builtin),
        Builtin::TextPrefix => prefix(state, alloc),
        Builtin::Top => log_lines::top(state, alloc, style),
        Builtin::Type => operands::entry_type(state),
        Builtin::Warning => log_lines::warning(state, alloc),
        Builtin::Width => call_of_text_to_number::<Width>(state, alloc, builtin),
        Builtin::Write => output_buffer::write(state, alloc),
        Builtin::CallType | Builtin::If | Builtin::Skip | Builtin::While => Ok(Flow::Go),
    }
}
