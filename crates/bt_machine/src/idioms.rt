//! Elements that follow one another so often that they are carried out at once: two functions with `if$`, each in braces
//! or a quoted name, and `'name :=`. A third of plain.bst's ticks are theirs. If `if$` chooses `'skip$`, that runs
//! at once, too.
//!
//! The functions, or the name, aren't put on the stack. So this is done only if there are ticks and places on the stack
//! for each element by itself. Otherwise they are carried out one by one, and a limit is passed at exactly its element.

ghost use Rattle.std.specs.Prelude.{◌≡◌, ◌+◌, ◌≤◌, ◌<◌, ◌∷◌, Some, length, drop, slice_get, option_and_then, IfOk, IfSome, IsTrue, OnOk};
ghost use Rattle.bt_style.specs.Program.{Program};
ghost use Rattle.bt_style.specs.Tree.{Then, Quoted, Braced, Called, element_of, ops_body};
ghost use Rattle.bt_style.specs.declared.builtin.Builtin.TheVariants as builtin;
ghost use Rattle.bt_style.specs.declared.style.Target.TheVariants as target;
ghost use Rattle.bt_actions.specs.Arguments.{as_number};
ghost use Rattle.bt_actions.specs.Tally.{with_call};
ghost use Rattle.bt_actions.specs.View.{code_seen};
ghost use Rattle.bt_actions.specs.Item.{Name};
ghost use Rattle.bt_actions.specs.World.{with_stack};
ghost use Rattle.bt_stack.specs.View.{world_of};
ghost use Rattle.bt_machine.specs.Eval.{eval, act, builtin_called};
ghost use Rattle.bt_machine.specs.inner.Loop.{ComesTo, IsBegun, Run, putting, by_if, whole};

use crate::calls::{Next, next_after};
use crate::control::{Frame, begin, called_by};
use bt_actions::{Code, STACK_LIMIT, Tally};
use bt_stack::{State, assign_value};
use bt_style::{Builtin, Op, Target};
use std::alloc::AllocError;

/// The function that an element puts on the stack.
#[inline(always)]
fn code_of(op: &Op) -> Option<Code<'_>>
    ensures { IfSome result (λ code. element_of op.now ≡ putting (code_seen code)) }
{
    match op {
        Op::Quote(name) => Some(Code::Name(*name)),
        Op::Block(ops) => Some(Code::Block(ops)),
        _ => None,
    }
}

/// Whether an element calls `if$`.
fn calls_if(op: &Op) -> bool
    ensures { IsTrue result → builtin_called (element_of op.now) ≡ Some builtin.If }
{
    matches!(called_by(op), Some(Builtin::If))
}

/// Whether an element calls `:=`.
fn calls_assign(op: &Op) -> bool
    ensures { IsTrue result → builtin_called (element_of op.now) ≡ Some builtin.Assign }
{
    matches!(called_by(op), Some(Builtin::Assign))
}

/// The other function and the `if$` after the first function, and what comes after them.
#[inline(always)]
fn choice_behind<'a>(rest: &'a [Op]) -> Option<(Code<'a>, &'a [Op])>
    ensures { IfSome result (λ two. ops_body rest.now
        ≡ Then (putting (code_seen two.0)) (Then (Called (target.Builtin builtin.If)) (ops_body two.1.now))) }
{
    match rest {
        [first, second, after @ ..] if calls_if(second) => {
            let other = code_of(first)?;
            Some((other, after))
        }
        _ => None,
    }
}

/// What comes after the `:=` after a quoted name.
fn assignment_behind(rest: &[Op]) -> Option<&[Op]>
    ensures { IfSome result (λ after. ops_body rest.now
        ≡ Then (Called (target.Builtin builtin.Assign)) (ops_body after.now)) }
{
    match rest {
        [first, after @ ..] if calls_assign(first) => Some(after),
        _ => None,
    }
}

/// What an `if$` after a function needs beside it.
#[derive(Clone, Copy)]
struct Choice<'a> {
    number: i32,
    other: Code<'a>,
    after: &'a [Op],
}

/// The choice after the first function, if all of it is there, with ticks and places for each element.
#[inline(always)]
fn choice_ahead<'a>(state: &State<'a>, tally: &Tally, rest: &'a [Op]) -> Option<Choice<'a>>
    ensures ticks { IfSome result (λ all. 2 ≤ tally.now.ticks) }
    ensures few { IfSome result (λ all. length (world_of state.now).stack ≤ 998) }
    ensures number { IfSome result (λ all.
        Some all.number ≡ option_and_then as_number (slice_get (world_of state.now).stack 0)) }
    ensures behind { IfSome result (λ all. ops_body rest.now
        ≡ Then (putting (code_seen all.other)) (Then (Called (target.Builtin builtin.If)) (ops_body all.after.now))) }
{
    if tally.ticks < 2 || state.stack.len() > STACK_LIMIT - 2 {
        return None;
    }
    let (other, after) = choice_behind(rest)?;
    let number = state.stack.number_at(0)?;
    Some(Choice {
        number,
        other,
        after,
    })
}

/// The function that `if$` runs.
#[inline(always)]
fn function_of_if<'a>(number: i32, above: Code<'a>, other: Code<'a>) -> Code<'a>
    ensures { Run (code_seen result) ≡ by_if number above.entry other.entry }
{
    if number > 0 { above } else { other }
}

/// Takes the ticks of the second function and of `if$`, and the number, and returns the function that runs next.
#[inline(always)]
fn choose_at_once<'a>(
    state: &mut State<'a>,
    tally: &mut Tally,
    above: Code<'a>,
    choice: Choice<'a>,
) -> Code<'a>
    requires ticks { 2 ≤ tally.old.ticks }
    requires number { 0 < length state.old.stack.items }
    ensures ticks { tally.new.ticks + 2 ≡ tally.old.ticks }
    ensures calls { tally.new.calls ≡ with_call (Some builtin.If) tally.old.calls }
    ensures world { world_of state.new ≡ with_stack (drop 1 (world_of state.old).stack) (world_of state.old) }
    ensures code { Run (code_seen result) ≡ by_if choice.entry.number above.entry choice.entry.other }
{
    tally.take(None);
    tally.take(Some(Builtin::If));
    state.stack.drop_tops(1);
    function_of_if(choice.number, above, choice.other)
}

/// Whether a function is `skip$`, the most frequent of those that are quoted.
#[inline(always)]
fn is_skip(code: Code) -> bool
    ensures { IsTrue result → code_seen code.entry ≡ Name (target.Builtin builtin.Skip) }
{
    matches!(code, Code::Name(Target::Builtin(Builtin::Skip)))
}

/// Puts a function before what is left, and returns the body that runs next. `skip$` runs at once, if a tick is left.
#[inline(always)]
fn begin_or_skip<'a>(
    control: &mut Vec<Frame<'a>>,
    tally: &mut Tally,
    rest: &'a [Op],
    code: Code<'a>,
) -> Result<&'a [Op], AllocError>
    ensures same { IfOk result (λ body. IsBegun body.now control.new.items tally.new
        (Run (code_seen code.entry) ∷ whole rest.now control.old.items) tally.old) }
    ensures ticks { OnOk result (tally.new.ticks ≤ tally.old.ticks) }
    ensures more { OnOk result (length control.new.items ≤ length control.old.items + 4) }
{
    if tally.ticks > 0 && is_skip(code) {
        tally.take(Some(Builtin::Skip));
        return Ok(rest);
    }
    begin(control, rest, code)
}

/// Puts a function in braces on the stack, or carries out the `if$` that it belongs to.
pub fn put_block<'a>(
    state: &mut State<'a>,
    control: &mut Vec<Frame<'a>>,
    tally: &mut Tally,
    above: &'a [Op],
    rest: &'a [Op],
) -> Result<Next<'a>, AllocError>
    ensures leads { (p : Program) → IfOk result (λ on. ComesTo p state.old tally.old state.new tally.new
        (act p (eval p) (Braced (ops_body above.now))) rest.now control.old.items on control.new.items) }
    ensures ticks { OnOk result (tally.new.ticks ≤ tally.old.ticks) }
    ensures more { OnOk result (length control.new.items ≤ length control.old.items + 4) }
{
    match choice_ahead(state, tally, rest) {
        Some(choice) => {
            let code = choose_at_once(state, tally, Code::Block(above), choice);
            let body = begin_or_skip(control, tally, choice.after, code)?;
            Ok(Next::Body(body))
        }
        None => Ok(next_after(state.push_block(above)?, rest)),
    }
}

/// What comes after the `:=` after a quoted name, if there is a value for it, with ticks and places for each element.
#[inline(always)]
fn assignment_ahead<'a>(state: &State, tally: &Tally, rest: &'a [Op]) -> Option<&'a [Op]>
    ensures ticks { IfSome result (λ after. 1 ≤ tally.now.ticks) }
    ensures some { IfSome result (λ after. 0 < length (world_of state.now).stack) }
    ensures few { IfSome result (λ after. length (world_of state.now).stack ≤ 999) }
    ensures behind { IfSome result (λ after. ops_body rest.now
        ≡ Then (Called (target.Builtin builtin.Assign)) (ops_body after.now)) }
{
    let count = state.stack.len();
    if tally.ticks < 1 || count < 1 || count >= STACK_LIMIT {
        return None;
    }
    assignment_behind(rest)
}

/// Puts a quoted name on the stack, or carries out the `if$` that it belongs to.
fn put_quoted<'a>(
    state: &mut State<'a>,
    control: &mut Vec<Frame<'a>>,
    tally: &mut Tally,
    name: Target,
    rest: &'a [Op],
) -> Result<Next<'a>, AllocError>
    ensures leads { (p : Program) → IfOk result (λ next. ComesTo p state.old tally.old state.new tally.new
        (act p (eval p) (Quoted name)) rest.now control.old.items next control.new.items) }
    ensures ticks { OnOk result (tally.new.ticks ≤ tally.old.ticks) }
    ensures more { OnOk result (length control.new.items ≤ length control.old.items + 4) }
{
    match choice_ahead(state, tally, rest) {
        Some(choice) => {
            let code = choose_at_once(state, tally, Code::Name(name), choice);
            let body = begin_or_skip(control, tally, choice.after, code)?;
            Ok(Next::Body(body))
        }
        None => Ok(next_after(state.push_name(name)?, rest)),
    }
}

/// The same, or carries out the `:=` that it belongs to.
pub fn put_name<'a>(
    state: &mut State<'a>,
    control: &mut Vec<Frame<'a>>,
    tally: &mut Tally,
    name: Target,
    rest: &'a [Op],
) -> Result<Next<'a>, AllocError>
    ensures leads { (p : Program) → IfOk result (λ next. ComesTo p state.old tally.old state.new tally.new
        (act p (eval p) (Quoted name)) rest.now control.old.items next control.new.items) }
    ensures ticks { OnOk result (tally.new.ticks ≤ tally.old.ticks) }
    ensures more { OnOk result (length control.new.items ≤ length control.old.items + 4) }
{
    match assignment_ahead(state, tally, rest) {
        Some(after) => {
            tally.take(Some(Builtin::Assign));
            assign_value(state, name)?;
            Ok(Next::Body(after))
        }
        None => put_quoted(state, control, tally, name, rest),
    }
}
