//! Calls of names, and the built-in functions that run others: `call.type$`, `if$` and `while$`. A function runs after
//! the call has put it before what is left to do.

ghost use Rattle.std.specs.Prelude.{◌≡◌, ◌+◌, ◌≤◌, List, length, bytes_eq, codes, position, IsTrue, IfOk, OnOk};
ghost use Rattle.std.specs.Option.{option_or};
ghost use Rattle.bt_style.specs.Program.{Program, program_of};
ghost use Rattle.bt_style.specs.Tree.{ops_body};
ghost use Rattle.bt_style.specs.declared.builtin.Builtin.TheVariants as builtin;
ghost use Rattle.bt_actions.specs.Actions.{basic};
ghost use Rattle.bt_actions.specs.World.{World};
ghost use Rattle.bt_machine.specs.Eval.{Counts, Runner, acted, eval, called, built_in, function_body, default_type, then_go};
ghost use Rattle.bt_machine.specs.declared.control.Frame.{Frame as HeldFrame};
ghost use Rattle.bt_machine.specs.inner.Loop.{LeadsTo, Means, followed, left, run_ended, whole};

use crate::control::{Context, Frame, begin, begin_loop, keep};
use bt_actions::{Complaint, Entry, Flow};
use bt_stack::{
    State, call_basic, call_entry_number, call_entry_text, call_field, call_global_number,
    call_global_text, take_choice, take_loop,
};
use bt_style::{Builtin, Function, Op, Style, Target};
use std::alloc::AllocError;

/// What comes after an element.
#[derive(Clone, Copy)]
pub enum Next<'a> {
    /// The end of the run.
    Stop,
    /// These elements: the rest of its body, or another body, for which the rest waits.
    Body(&'a [Op]),
}

/// What comes after an element that runs no other function.
#[inline(always)]
pub fn next_after<'a>(flow: Flow, rest: &'a [Op]) -> Next<'a>
    ensures { (p : Program) (fs : List HeldFrame) (w : World) (k : Counts) →
        followed p result fs w k ≡ then_go (run_ended flow w k) (left p (whole rest.now fs)) }
{
    match flow {
        Flow::Go => Next::Body(rest),
        Flow::Stop => Next::Stop,
    }
}

#[cold]
fn find_default_type(functions: &[Function]) -> Option<usize>
    ensures { result ≡ position (λ f. bytes_eq f.name (codes "default.type")) functions.now }
{
    functions.iter().position(|function| function.name.as_slice() == b"default.type".as_slice())
}

/// The number of the function that an entry's type calls, if there is one.
fn type_function(entry: &Entry, style: &Style) -> Option<usize>
    ensures { result ≡ option_or entry.now.function (default_type (program_of style.now).functions) }
{
    match entry.function {
        Some(n) => Some(n),
        None => find_default_type(&style.functions),
    }
}

/// The body of the function of a number. One out of range stands for a function without elements.
fn function_body(style: &Style, n: usize) -> &[Op]
    ensures { ops_body result.now ≡ function_body (program_of style.now).functions n }
{
    if n < style.functions.len() {
        &style.functions[n].body
    } else {
        &[]
    }
}

/// Enters the function of a number, unless it has no elements.
fn enter<'a>(
    control: &mut Vec<Frame<'a>>,
    style: &'a Style,
    n: usize,
    rest: &'a [Op],
) -> Result<Next<'a>, AllocError>
    ensures leads { let p = program_of style.now in IfOk result (λ next.
        Means p (eval p (function_body p.functions n)) rest.now control.old.items next control.new.items) }
    ensures more { OnOk result (length control.new.items ≤ length control.old.items + 4) }
{
    let body = function_body(style, n);
    if body.is_empty() {
        return Ok(Next::Body(rest));
    }
    keep(control, rest)?;
    Ok(Next::Body(body))
}

/// `call.type$`.
fn call_type<'a>(
    state: &mut State<'a>,
    control: &mut Vec<Frame<'a>>,
    style: &'a Style,
    rest: &'a [Op],
) -> Result<Next<'a>, AllocError>
    ensures leads { let p = program_of style.now in IfOk result (λ next. LeadsTo p state.old state.new
        (built_in p (eval p) builtin.CallType) rest.now control.old.items next control.new.items) }
    ensures more { OnOk result (length control.new.items ≤ length control.old.items + 4) }
{
    match state.entry {
        None => {
            state.tell(Complaint::NoEntry)?;
            Ok(Next::Body(rest))
        }
        Some(entry) => match type_function(entry, style) {
            None => Ok(Next::Body(rest)),
            Some(n) => {
                let next = enter(control, style, n, rest)?;
                Ok(next)
            }
        },
    }
}

/// `if$`.
fn choose<'a>(
    state: &mut State<'a>,
    control: &mut Vec<Frame<'a>>,
    rest: &'a [Op],
) -> Result<Next<'a>, AllocError>
    ensures leads { (p : Program) → IfOk result (λ next. LeadsTo p state.old state.new
        (built_in p (eval p) builtin.If) rest.now control.old.items next control.new.items) }
    ensures more { OnOk result (length control.new.items ≤ length control.old.items + 4) }
{
    match take_choice(state)? {
        None => Ok(Next::Body(rest)),
        Some(code) => {
            let body = begin(control, rest, code)?;
            Ok(Next::Body(body))
        }
    }
}

/// `while$`.
fn repeat<'a>(
    state: &mut State<'a>,
    control: &mut Vec<Frame<'a>>,
    rest: &'a [Op],
) -> Result<Next<'a>, AllocError>
    ensures leads { (p : Program) → IfOk result (λ next. LeadsTo p state.old state.new
        (built_in p (eval p) builtin.While) rest.now control.old.items next control.new.items) }
    ensures more { OnOk result (length control.new.items ≤ length control.old.items + 4) }
{
    match take_loop(state)? {
        None => Ok(Next::Body(rest)),
        Some((test, body)) => {
            let first = begin_loop(control, rest, test, body)?;
            Ok(Next::Body(first))
        }
    }
}

/// Whether a built-in function runs no other.
#[inline(always)]
fn is_basic(builtin: Builtin) -> bool
    ensures { IsTrue result → (p : Program) (run : Runner) (w : World) (k : Counts) →
        built_in p run builtin w k ≡ acted (basic p builtin w) k }
{
    match builtin {
        Builtin::CallType | Builtin::If | Builtin::While => false,
        _ => true,
    }
}

/// Calls a built-in function of any kind. It stands apart for those that run others: in the loop, its three results
/// would be set to 0 at each call of a built-in function.
#[inline(never)]
fn call_any<'a>(
    state: &mut State<'a>,
    control: &mut Vec<Frame<'a>>,
    context: Context<'a>,
    builtin: Builtin,
    rest: &'a [Op],
) -> Result<Next<'a>, AllocError>
    ensures leads { let p = program_of context.entry.style.now in IfOk result (λ next. LeadsTo p state.old state.new
        (built_in p (eval p) builtin) rest.now control.old.items next control.new.items) }
    ensures more { OnOk result (length control.new.items ≤ length control.old.items + 4) }
{
    match builtin {
        Builtin::CallType => {
            let next = call_type(state, control, context.style, rest)?;
            Ok(next)
        }
        Builtin::If => {
            let next = choose(state, control, rest)?;
            Ok(next)
        }
        Builtin::While => {
            let next = repeat(state, control, rest)?;
            Ok(next)
        }
        _ => Ok(next_after(
            call_basic(state, context.alloc, context.style, builtin)?,
            rest,
        )),
    }
}

/// The same, apart because its result would be set to 0 at each call of a built-in function.
#[inline(always)]
fn call_runner<'a>(
    state: &mut State<'a>,
    control: &mut Vec<Frame<'a>>,
    context: Context<'a>,
    builtin: Builtin,
    rest: &'a [Op],
) -> Result<Next<'a>, AllocError>
    ensures leads { let p = program_of context.entry.style.now in IfOk result (λ next. LeadsTo p state.old state.new
        (built_in p (eval p) builtin) rest.now control.old.items next control.new.items) }
    ensures more { OnOk result (length control.new.items ≤ length control.old.items + 4) }
{
    let next = call_any(state, control, context, builtin, rest)?;
    Ok(next)
}

/// Calls a built-in function. One that runs no other function is called right here.
#[inline(always)]
pub fn call_builtin<'a>(
    state: &mut State<'a>,
    control: &mut Vec<Frame<'a>>,
    context: Context<'a>,
    builtin: Builtin,
    rest: &'a [Op],
) -> Result<Next<'a>, AllocError>
    ensures leads { let p = program_of context.entry.style.now in IfOk result (λ next. LeadsTo p state.old state.new
        (built_in p (eval p) builtin) rest.now control.old.items next control.new.items) }
    ensures more { OnOk result (length control.new.items ≤ length control.old.items + 4) }
{
    if is_basic(builtin) {
        let flow = call_basic(state, context.alloc, context.style, builtin)?;
        Ok(next_after(flow, rest))
    } else {
        call_runner(state, control, context, builtin, rest)
    }
}

#[inline(always)]
pub fn call<'a>(
    state: &mut State<'a>,
    control: &mut Vec<Frame<'a>>,
    context: Context<'a>,
    target: Target,
    rest: &'a [Op],
) -> Result<Next<'a>, AllocError>
    ensures leads { let p = program_of context.entry.style.now in IfOk result (λ next. LeadsTo p state.old state.new
        (called p (eval p) target) rest.now control.old.items next control.new.items) }
    ensures more { OnOk result (length control.new.items ≤ length control.old.items + 4) }
{
    match target {
        Target::Builtin(builtin) => {
            let next = call_builtin(state, control, context, builtin, rest)?;
            Ok(next)
        }
        Target::Field(n) => Ok(next_after(call_field(state, n)?, rest)),
        Target::EntryNumber(n) => Ok(next_after(call_entry_number(state, n)?, rest)),
        Target::EntryText(n) => Ok(next_after(call_entry_text(state, n)?, rest)),
        Target::GlobalNumber(n) => Ok(next_after(call_global_number(state, n)?, rest)),
        Target::GlobalText(n) => Ok(next_after(call_global_text(state, n)?, rest)),
        Target::Function(n) => {
            let next = enter(control, context.style, n, rest)?;
            Ok(next)
        }
    }
}

/// Calls any name. Not inlined, so that `call` is inlined only once, in the loop.
#[inline(never)]
fn call_apart<'a>(
    state: &mut State<'a>,
    control: &mut Vec<Frame<'a>>,
    context: Context<'a>,
    target: Target,
    rest: &'a [Op],
) -> Result<Next<'a>, AllocError>
    ensures leads { let p = program_of context.entry.style.now in IfOk result (λ next. LeadsTo p state.old state.new
        (called p (eval p) target) rest.now control.old.items next control.new.items) }
    ensures more { OnOk result (length control.new.items ≤ length control.old.items + 4) }
{
    call(state, control, context, target, rest)
}

/// Calls a quoted name. Most of them are functions of the style, which the loop enters itself.
#[inline(always)]
pub fn call_quoted<'a>(
    state: &mut State<'a>,
    control: &mut Vec<Frame<'a>>,
    context: Context<'a>,
    target: Target,
    rest: &'a [Op],
) -> Result<Next<'a>, AllocError>
    ensures leads { let p = program_of context.entry.style.now in IfOk result (λ next. LeadsTo p state.old state.new
        (called p (eval p) target) rest.now control.old.items next control.new.items) }
    ensures more { OnOk result (length control.new.items ≤ length control.old.items + 4) }
{
    match target {
        Target::Function(n) => {
            let next = enter(control, context.style, n, rest)?;
            Ok(next)
        }
        _ => call_apart(state, control, context, target, rest),
    }
}
