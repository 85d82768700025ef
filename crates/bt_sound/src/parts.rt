//! What the elements of a body do that run no function, and what `if$` and `while$` take from the stack.

ghost use Rattle.std.specs.Prelude.{◌≡◌, ◌∷◌, [], IfOk, OnOk, Some, bytes_eq, codes, map, position};
ghost use Rattle.bt_style.specs.Tree.{Called, element_of, ops_body};
ghost use Rattle.bt_style.specs.Program.{program_of};
ghost use Rattle.bt_machine.specs.Eval.{default_type, function_body};
ghost use Rattle.std.specs.List.{list_all};
ghost use Rattle.bt_text.specs.ByteTests.{is_white};
ghost use Rattle.bt_style.specs.declared.builtin.Builtin.TheVariants as builtins;
ghost use Rattle.bt_style.specs.declared.style.Target.TheVariants as targets;
ghost use Rattle.bt_actions.specs.View.{code_seen};
ghost use Rattle.bt_sound.specs.Holds.{literal};
ghost use Rattle.bt_sound.specs.Reading.{pushing};
ghost use Rattle.bt_sound.specs.Transfer.{stack_after};
ghost use Rattle.bt_sound.specs.Seen.{known_seen, knowns_seen, state_seen, states_seen};
ghost use Rattle.bt_sound.specs.Follows.{Chooses, Loops, Makes, Pushes, Splits, SplitsOff, some_if};

use crate::assigning::{assigned, doubled};
use crate::known::Known;
use crate::may::May;
use crate::range::Range;
use crate::reading::{
    entry_text_read, field_read, global_number_read, global_text_read, own_number_read,
    own_text_read,
};
use crate::state::{State, alone, only};
use crate::stop::Stop;
use crate::tops::{code_top, range_top};
use crate::transfer::stack_after;
use bt_actions::Code;
use bt_style::{Builtin, Function, Op, Style, Target};
use bt_text::{Bytes, is_white};
use std::alloc::{AllocError, Global};

fn is_blank(text: &[u8]) -> bool
    ensures { result ≡ list_all is_white text.now }
{
    text.iter().all(|byte| is_white(*byte))
}

fn literal(text: &Bytes) -> May
    ensures { result ≡ literal text.now }
{
    if is_blank(text.as_slice()) {
        May::only_blank()
    } else {
        May::only_inked()
    }
}

/// What an element puts on the stack that calls nothing.
pub fn constant<'a>(op: &'a Op) -> Result<Known<'a>, Stop>
    ensures { IfOk result (λ known. Pushes (element_of op.now) (known_seen known)) }
{
    match op {
        Op::Number(number) => Ok(Known::Number(Range::exactly(*number))),
        Op::Text(text) => Ok(Known::Text(literal(text))),
        Op::Quote(target) => Ok(Known::Run(Code::Name(*target))),
        Op::Block(inner) => Ok(Known::Run(Code::Block(inner.as_slice()))),
        Op::Call(_) => Err(Stop::Refused),
    }
}

/// States with a value on the stack of each.
pub fn all_pushed<'a>(
    alloc: Global,
    known: Known<'a>,
    states: &[State<'a>],
) -> Result<Vec<State<'a>>, AllocError>
    ensures { IfOk result (λ after. states_seen after.items ≡ map (pushing (known_seen known.entry)) (states_seen states.now)) }
{
    let mut after = Vec::new(alloc);
    'states: for state in states {
        after.push(state.pushed(alloc, known)?)?;
    }
    Ok(after)
}

pub fn all_copied<'a>(alloc: Global, states: &[State<'a>]) -> Result<Vec<State<'a>>, AllocError>
    ensures { IfOk result (λ copies. states_seen copies.items ≡ states_seen states.now) }
{
    let mut copies = Vec::new(alloc);
    'states: for state in states {
        copies.push(state.copied(alloc)?)?;
    }
    Ok(copies)
}

fn some_if<'a>(alloc: Global, is_so: bool, state: &State<'a>) -> Result<Vec<State<'a>>, AllocError>
    ensures { IfOk result (λ states. states_seen states.items ≡ some_if is_so (state_seen state.now)) }
{
    if is_so {
        only(alloc, state)
    } else {
        Ok(Vec::new(alloc))
    }
}

/// The states after a field or a variable is called.
pub fn read<'a>(alloc: Global, name: Target, state: &State<'a>) -> Result<Vec<State<'a>>, Stop>
    ensures { IfOk result (λ after. Makes (Called name) (state_seen state.now) (states_seen after.items)) }
{
    match name {
        Target::Field(n) => {
            let after = field_read(alloc, n, state)?;
            Ok(after)
        }
        Target::EntryNumber(n) => {
            let after = own_number_read(alloc, n, state)?;
            Ok(after)
        }
        Target::EntryText(n) => {
            let after = own_text_read(alloc, n, state)?;
            Ok(after)
        }
        Target::GlobalNumber(n) => {
            let after = global_number_read(alloc, n, state)?;
            Ok(after)
        }
        Target::GlobalText(n) => {
            let after = global_text_read(alloc, n, state)?;
            Ok(after)
        }
        Target::Builtin(_) | Target::Function(_) => Err(Stop::Refused),
    }
}

/// The stack after a built-in function that looks at it only.
fn stack_of<'a>(
    alloc: Global,
    builtin: Builtin,
    stack: &[Known<'a>],
) -> Result<Vec<Known<'a>>, Stop>
    ensures { IfOk result (λ after. stack_after builtin (knowns_seen stack.now) ≡ Some (knowns_seen after.items)) }
{
    match stack_after(alloc, builtin, stack)? {
        Some(after) => Ok(after),
        None => Err(Stop::Refused),
    }
}

/// The states after a built-in function that looks at the stack only.
fn basic<'a>(alloc: Global, builtin: Builtin, state: &State<'a>) -> Result<Vec<State<'a>>, Stop>
    ensures { IfOk result (λ after. Makes (Called (targets.Builtin builtin)) (state_seen state.now) (states_seen after.items)) }
{
    let stack = stack_of(alloc, builtin, state.stack.as_slice())?;
    let after = state.holding(stack)?;
    let states = alone(alloc, after)?;
    Ok(states)
}

fn after_assignment<'a>(alloc: Global, state: &State<'a>) -> Result<Vec<State<'a>>, Stop>
    ensures { IfOk result (λ after. Makes (Called (targets.Builtin builtins.Assign)) (state_seen state.now) (states_seen after.items)) }
{
    let after = assigned(alloc, state)?;
    let states = alone(alloc, after)?;
    Ok(states)
}

/// The states after a built-in function that runs no other.
pub fn simple<'a>(
    alloc: Global,
    builtin: Builtin,
    state: &State<'a>,
) -> Result<Vec<State<'a>>, Stop>
    ensures { IfOk result (λ after. Makes (Called (targets.Builtin builtin)) (state_seen state.now) (states_seen after.items)) }
{
    match builtin {
        Builtin::Assign => {
            let after = after_assignment(alloc, state)?;
            Ok(after)
        }
        Builtin::Duplicate => {
            let after = doubled(alloc, state)?;
            Ok(after)
        }
        Builtin::Cite => {
            let after = entry_text_read(alloc, state)?;
            Ok(after)
        }
        Builtin::Type => {
            let after = entry_text_read(alloc, state)?;
            Ok(after)
        }
        _ => {
            let after = basic(alloc, builtin, state)?;
            Ok(after)
        }
    }
}

/// What `if$` takes from the stack: two functions, and the states in which each is run.
#[derive(Drop)]
pub struct Branch<'a> {
    pub first: Code<'a>,
    pub second: Code<'a>,
    pub above: Vec<State<'a>>,
    pub upto: Vec<State<'a>>,
}

pub fn branch_of<'a>(alloc: Global, state: &State<'a>) -> Result<Branch<'a>, Stop>
    ensures { IfOk result (λ branch. Chooses (state_seen state.now) (code_seen branch.first) (code_seen branch.second)
        (states_seen branch.above.items) (states_seen branch.upto.items)) }
{
    let (second, below) = code_top(state.stack.as_slice())?;
    let (first, below) = code_top(below)?;
    let (range, below) = range_top(below)?;
    let rest = state.with_stack(alloc, below)?;
    let above = some_if(alloc, range.above_zero().is_open(), &rest)?;
    let upto = some_if(alloc, range.upto_zero().is_open(), &rest)?;
    Ok(Branch {
        first,
        second,
        above,
        upto,
    })
}

/// What `while$` takes from the stack: its test, its body, and the state in which it begins, as a list.
#[derive(Drop)]
pub struct Loop<'a> {
    pub test: Code<'a>,
    pub body: Code<'a>,
    pub first: Vec<State<'a>>,
}

pub fn loop_of<'a>(alloc: Global, state: &State<'a>) -> Result<Loop<'a>, Stop>
    ensures { IfOk result (λ taken. Loops (state_seen state.now) (code_seen taken.test) (code_seen taken.body)
        (states_seen taken.first.items)) }
{
    let (body, below) = code_top(state.stack.as_slice())?;
    let (test, below) = code_top(below)?;
    let rest = state.with_stack(alloc, below)?;
    let first = alone(alloc, rest)?;
    Ok(Loop { test, body, first })
}

/// States after a loop's test: those in which its body is run, and those in which it ends.
#[derive(Drop)]
pub struct Parts<'a> {
    pub goes: Vec<State<'a>>,
    pub ends: Vec<State<'a>>,
}

/// Adds a state after a loop's test to the parts.
fn put_apart<'a>(
    alloc: Global,
    state: &State<'a>,
    goes: &mut Vec<State<'a>>,
    ends: &mut Vec<State<'a>>,
) -> Result<(), Stop>
    ensures { OnOk result (SplitsOff (state_seen state.now) (states_seen goes.old.items) (states_seen ends.old.items)
        (states_seen goes.new.items) (states_seen ends.new.items)) }
{
    let (range, below) = range_top(state.stack.as_slice())?;
    let rest = state.with_stack(alloc, below)?;
    let mut above = some_if(alloc, range.above_zero().is_open(), &rest)?;
    let mut upto = some_if(alloc, range.upto_zero().is_open(), &rest)?;
    goes.append(&mut above)?;
    ends.append(&mut upto)?;
    Ok(())
}

pub fn split<'a>(alloc: Global, mids: &[State<'a>]) -> Result<Parts<'a>, Stop>
    ensures { IfOk result (λ parts. Splits (states_seen mids.now) (states_seen parts.goes.items) (states_seen parts.ends.items)) }
{
    let mut goes = Vec::new(alloc);
    let mut ends = Vec::new(alloc);
    'mids: for state in mids {
        put_apart(alloc, state, &mut goes, &mut ends)?;
    }
    Ok(Parts { goes, ends })
}

fn find_default_type(functions: &[Function]) -> Option<usize>
    ensures { result ≡ position (λ f. bytes_eq f.name (codes "default.type")) functions.now }
{
    functions.iter().position(|function| function.name.as_slice() == b"default.type".as_slice())
}

/// The number of the function `default.type`, if there is one.
pub fn default_type_of(style: &Style) -> Option<usize>
    ensures { result ≡ default_type (program_of style.now).functions }
{
    find_default_type(&style.functions)
}

/// The body of the function of a number.
pub fn body_of(style: &Style, n: usize) -> Result<&[Op], Stop>
    ensures { IfOk result (λ body. ops_body body.now ≡ function_body (program_of style.now).functions n) }
{
    if n < style.functions.len() {
        Ok(style.functions[n].body.as_slice())
    } else {
        Err(Stop::Refused)
    }
}
