//! The loop that runs a step.
//!
//! The present body and the ticks are locals, so an element costs no push and no pop.
//!
//! The definition (`eval`) is a recursion that knows nothing of this. Each function of `control`, `calls` and this module
//! has a contract on its part of the definition; `work` joins them.
//!
//! An element is matched where it lies in its body, and what comes after it is only a slice. So the loop holds both in
//! registers: a copy of an element, or a result that holds a `Target`, would go through memory at each tick.

ghost use Rattle.std.specs.Prelude.{◌≡◌, ◌+◌, ◌≤◌, ◌<◌, [], length, IfOk, IfSome, OnOk};
ghost use Rattle.bt_style.specs.Program.{program_of};
ghost use Rattle.bt_style.specs.Tree.{End, Then, Called};
ghost use Rattle.bt_style.specs.declared.builtin.Builtin.TheVariants as builtin;
ghost use Rattle.bt_actions.specs.declared.complaint.Complaint.TheVariants.{TicksPassed};
ghost use Rattle.bt_actions.specs.Arguments.{as_number, taken};
ghost use Rattle.bt_actions.specs.World.{say};
ghost use Rattle.bt_stack.specs.View.{world_of};
ghost use Rattle.bt_machine.specs.Eval.{eval};
ghost use Rattle.bt_machine.specs.inner.Cases.{counts_begun};
ghost use Rattle.bt_machine.specs.inner.Loop.{counts, run_ended, OpComesTo, IsCalled, is_above};

use crate::calls::{Next, call, call_builtin, call_quoted, next_after};
use crate::control::{Context, Due, Frame, begin, begin_loop, builtin_of, next_due};
use crate::idioms::{put_block, put_name};
use bt_actions::{Code, Complaint, Flow, Tally};
use bt_stack::{State, take_number};
use bt_style::{Op, Target};
use std::alloc::AllocError;

/// How many frames there is room for at a step's beginning. Most steps need no more; it is 1,008 bytes.
const FIRST_FRAMES: usize = 18;

/// Reports that a step has no tick left. If `work` made the complaint, it would set its bytes to 0 at each tick.
#[cold]
fn tell_no_tick(state: &mut State) -> Result<(), AllocError>
    ensures { OnOk result (world_of state.new ≡ say TicksPassed (world_of state.old)) }
{
    state.tell(Complaint::TicksPassed)
}

/// Takes the number that a loop's test left, and returns whether there is another turn. Without a number, after an
/// error, there is none.
fn goes_on(state: &mut State) -> Result<bool, AllocError>
    ensures turn { IfOk result (λ more. more ≡ is_above (taken builtin.While as_number (world_of state.old)).0) }
    ensures world { OnOk result (world_of state.new ≡ (taken builtin.While as_number (world_of state.old)).1) }
{
    match take_number(state)? {
        Some(number) => Ok(number > 0),
        None => Ok(false),
    }
}

/// Takes an element's tick, runs it, and returns what comes next. `at` is the element and the rest of its body. Each arm
/// counts its own call: counting before the `match` would test the kind twice, and a run would take 3 to 5 % longer.
fn carry_out<'a>(
    state: &mut State<'a>,
    control: &mut Vec<Frame<'a>>,
    tally: &mut Tally,
    context: Context<'a>,
    at: (&'a Op, &'a [Op]),
) -> Result<Next<'a>, AllocError>
    requires { 0 < tally.old.ticks }
    ensures leads { IfOk result (λ to. OpComesTo (program_of context.entry.style.now) state.old tally.old state.new tally.new
        at.entry control.old.items to control.new.items) }
    ensures ticks { OnOk result (tally.new.ticks < tally.old.ticks) }
    ensures more { OnOk result (length control.new.items ≤ length control.old.items + 4) }
{
    let (op, rest) = at;
    match op {
        Op::Number(n) => {
            tally.take(None);
            Ok(next_after(state.push_number(*n)?, rest))
        }
        Op::Text(text) => {
            tally.take(None);
            Ok(next_after(state.push_given(text.as_slice())?, rest))
        }
        Op::Quote(target) => {
            tally.take(None);
            let next = put_name(state, control, tally, *target, rest)?;
            Ok(next)
        }
        Op::Block(ops) => {
            tally.take(None);
            let next = put_block(state, control, tally, ops, rest)?;
            Ok(next)
        }
        Op::Call(target) => match *target {
            Target::Builtin(builtin) => {
                tally.take(Some(builtin));
                let next = call_builtin(state, control, context, builtin, rest)?;
                Ok(next)
            }
            target => {
                // `builtin_of` returns `None` here; the proof needs it.
                tally.take(builtin_of(target));
                let next = call(state, control, context, target, rest)?;
                Ok(next)
            }
        },
    }
}

/// Calls a quoted name that waited, with its tick, and returns the body that runs next, unless the run stops.
fn call_due<'a>(
    state: &mut State<'a>,
    control: &mut Vec<Frame<'a>>,
    tally: &mut Tally,
    context: Context<'a>,
    name: Target,
) -> Result<Option<&'a [Op]>, AllocError>
    ensures leads { IfOk result (λ next. IsCalled (program_of context.entry.style.now) state.old tally.old state.new tally.new
        name [] control.old.items next control.new.items) }
    ensures ticks { IfOk result (λ next. IfSome next (λ body. tally.new.ticks < tally.old.ticks)) }
    ensures more { OnOk result (length control.new.items ≤ length control.old.items + 4) }
{
    if tally.ticks == 0 {
        tell_no_tick(state)?;
        return Ok(None);
    }
    tally.take(builtin_of(name));
    let next = call_quoted(state, control, context, name, &[])?;
    match next {
        Next::Stop => Ok(None),
        Next::Body(body) => Ok(Some(body)),
    }
}

/// Runs a call of a name and all that it leads to.
#[inline(always)]
fn run_all<'a>(
    state: &mut State<'a>,
    tally: &mut Tally,
    context: Context<'a>,
    first: Target,
) -> Result<Flow, AllocError>
    ensures { IfOk result (λ flow. run_ended flow (world_of state.new) (counts tally.new)
        ≡ eval (program_of context.entry.style.now) (Then (Called first) End) (world_of state.old) (counts tally.old)) }
{
    let mut control = Vec::with_capacity(context.alloc, FIRST_FRAMES)?;
    control.push(Frame::Run(Code::Name(first)))?;
    let mut rest: &'a [Op] = &[];
    'work: loop {
        match rest.split_first() {
            Some((op, after)) => {
                if tally.ticks == 0 {
                    tell_no_tick(state)?;
                    return Ok(Flow::Stop);
                }
                let next = carry_out(state, &mut control, tally, context, (op, after))?;
                // The loop's measure needs this call's clause that the stack is small.
                let _depth = state.stack.len();
                match next {
                    Next::Stop => return Ok(Flow::Stop),
                    Next::Body(body) => rest = body,
                }
            }
            None => match next_due(rest, &mut control) {
                Due::Nothing => return Ok(Flow::Go),
                Due::Body(body) => rest = body,
                Due::Test(test, body) => {
                    if goes_on(state)? {
                        rest = begin_loop(&mut control, rest, test, body)?;
                        rest = begin(&mut control, rest, body)?;
                    }
                }
                Due::Name(name) => {
                    let next = call_due(state, &mut control, tally, context, name)?;
                    let _depth = state.stack.len();
                    match next {
                        Some(body) => rest = body,
                        None => return Ok(Flow::Stop),
                    }
                }
            },
        }
    }
}

/// Runs a call of a name and all that it leads to, and writes the tally down. It isn't inlined, so that it finds the state
/// through one register and its own tally near. A result that held the tally would be set to 0 and copied as a whole.
#[inline(never)]
pub fn work<'a>(
    state: &mut State<'a>,
    end: &mut Tally,
    context: Context<'a>,
    first: Target,
) -> Result<Flow, AllocError>
    ensures { IfOk result (λ flow. run_ended flow (world_of state.new) (counts end.new)
        ≡ eval (program_of context.entry.style.now) (Then (Called first) End) (world_of state.old) counts_begun) }
{
    let mut tally = Tally::new();
    let flow = run_all(state, &mut tally, context, first)?;
    *end = tally;
    Ok(flow)
}
