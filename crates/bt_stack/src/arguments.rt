//! The arguments of `if$` and `while$`, which run functions, and the number that the test of a loop leaves.

ghost use Rattle.std.specs.Prelude.{◌≡◌, None, IfOk, option_map};
ghost use Rattle.bt_actions.specs.Arguments.{as_number, as_code, taken, taken_two, taken_three};
ghost use Rattle.bt_actions.specs.View.{code_seen};
ghost use Rattle.bt_style.specs.declared.builtin.Builtin.TheVariants as builtin;
ghost use Rattle.bt_stack.specs.Choice.{chosen, chosen_of, choice_asked, choice_depth};
ghost use Rattle.bt_stack.specs.View.{world_of};

use crate::stack::Stack;
use crate::state::State;
use bt_actions::Code;
use bt_style::Builtin;
use std::alloc::AllocError;

/// Takes the number that the test of a loop left, or reports that there is none.
pub fn take_number(state: &mut State) -> Result<Option<i32>, AllocError>
    ensures { IfOk result (λ number.
        (number, world_of state.new) ≡ taken builtin.While as_number (world_of state.old)) }
{
    match state.stack.number_at(0) {
        Some(number) => {
            state.stack.drop_tops(1);
            Ok(Some(number))
        }
        None => {
            let wrong = state.stack.is_no_number(0);
            state.refuse_one(Builtin::While, wrong)?;
            Ok(None)
        }
    }
}

/// Takes the test and the body of a loop, or reports what is wrong with them.
pub fn take_loop<'a>(state: &mut State<'a>) -> Result<Option<(Code<'a>, Code<'a>)>, AllocError>
    ensures { IfOk result (λ pair.
        (option_map (λ codes. (code_seen codes.0, code_seen codes.1)) pair, world_of state.new)
        ≡ taken_two builtin.While as_code as_code (world_of state.old)) }
{
    match (state.stack.code_at(1), state.stack.code_at(0)) {
        (Some(test), Some(body)) => {
            state.stack.drop_tops(2);
            Ok(Some((test, body)))
        }
        _ => {
            let wrong = state.stack.is_no_code(0) || state.stack.is_no_code(1);
            state.refuse_two(Builtin::While, wrong)?;
            Ok(None)
        }
    }
}

/// How far below the top the function lies that `if$` runs.
fn choice_depth(number: i32) -> usize
    ensures { result ≡ choice_depth number }
{
    if number > 0 { 1 } else { 0 }
}

/// The function that `if$` runs, if there are two, and a number below them. The other one isn't read.
fn chosen_top<'a>(stack: &Stack<'a>) -> Option<Code<'a>>
    ensures { option_map code_seen result ≡ option_map chosen (choice_asked stack.now.items) }
{
    match stack.number_at(2) {
        None => None,
        Some(number) => {
            let depth = choice_depth(number);
            match stack.code_at(1 - depth) {
                None => None,
                Some(_) => stack.code_at(depth),
            }
        }
    }
}

/// `if$` of other values.
#[cold]
#[tactic(auto, using(crate::proofs::FormLemmas::three_refused))]
fn refuse_choice<'a>(state: &mut State<'a>) -> Result<Option<Code<'a>>, AllocError>
    requires { choice_asked state.old.stack.items ≡ None }
    ensures { IfOk result (λ code. (option_map code_seen code, world_of state.new)
        ≡ chosen_of (taken_three builtin.If as_number as_code as_code (world_of state.old))) }
{
    let wrong = state.stack.is_no_code(0)
        || state.stack.is_no_code(1)
        || state.stack.is_no_number(2);
    state.refuse_three(Builtin::If, wrong)?;
    Ok(None)
}

/// Takes the number and the two functions of `if$`, and returns the one that runs, or reports what is wrong with them.
pub fn take_choice<'a>(state: &mut State<'a>) -> Result<Option<Code<'a>>, AllocError>
    ensures { IfOk result (λ code. (option_map code_seen code, world_of state.new)
        ≡ chosen_of (taken_three builtin.If as_number as_code as_code (world_of state.old))) }
{
    match chosen_top(&state.stack) {
        Some(code) => {
            state.stack.drop_tops(3);
            Ok(Some(code))
        }
        None => refuse_choice(state),
    }
}
