//! What is left to do: the rest of a body, and what waits until it has run.
//!
//! A call uses no Rust stack: the rest of the caller's body waits on a `Vec`. An empty rest isn't kept, so a call at the
//! end of a body doesn't make the `Vec` grow.

ghost use Rattle.std.specs.Prelude.{◌≡◌, ◌+◌, ◌≤◌, [], ◌∷◌, length, IfOk, OnOk};
ghost use Rattle.bt_style.specs.Tree.{Called, element_of};
ghost use Rattle.bt_actions.specs.View.{code_seen};
ghost use Rattle.bt_machine.specs.Eval.{builtin_called};
ghost use Rattle.bt_machine.specs.inner.Loop.{Run, Test, SameLeft, kept, whole, IsDue};

use bt_actions::Code;
use bt_style::{Builtin, Op, Style, Target};
use std::alloc::{AllocError, Global};

/// What waits until a body has run.
#[derive(Clone, Copy)]
pub enum Frame<'a> {
    /// This runs next.
    Run(Code<'a>),
    /// A loop's test, which has run, and its body: the number that the test left decides on a turn of the body.
    Test(Code<'a>, Code<'a>),
}

/// What a step runs with, and never changes.
#[derive(Clone, Copy)]
pub struct Context<'a> {
    pub alloc: Global,
    pub style: &'a Style,
}

/// The built-in function that a call of a name calls.
pub fn builtin_of(target: Target) -> Option<Builtin>
    ensures { result ≡ builtin_called (Called target) }
{
    match target {
        Target::Builtin(builtin) => Some(builtin),
        _ => None,
    }
}

/// The built-in function that an element calls.
pub fn called_by(op: &Op) -> Option<Builtin>
    ensures { result ≡ builtin_called (element_of op.now) }
{
    match op {
        Op::Call(target) => builtin_of(*target),
        _ => None,
    }
}

/// What the loop does at the end of a body.
#[derive(Clone, Copy)]
pub enum Due<'a> {
    /// Nothing more.
    Nothing,
    /// This body, which waited.
    Body(&'a [Op]),
    /// The call of a quoted name, which takes a tick.
    Name(Target),
    /// A loop's test has run: the number that it left decides on a turn.
    Test(Code<'a>, Code<'a>),
}

/// What is due at the end of a body, of which nothing is left.
pub fn next_due<'a>(rest: &'a [Op], control: &mut Vec<Frame<'a>>) -> Due<'a>
    requires { length rest.now ≡ 0 }
    ensures { IsDue result rest.now control.old.items control.new.items }
{
    match control.pop() {
        None => Due::Nothing,
        Some(Frame::Run(Code::Block(ops))) => Due::Body(ops),
        Some(Frame::Run(Code::Name(target))) => Due::Name(target),
        Some(Frame::Test(test, body)) => Due::Test(test, body),
    }
}

/// Keeps what is left of a body, if anything is.
pub fn keep<'a>(control: &mut Vec<Frame<'a>>, rest: &'a [Op]) -> Result<(), AllocError>
    ensures same { OnOk result (SameLeft (kept control.new.items) (whole rest.now control.old.items)) }
    ensures more { OnOk result (length control.new.items ≤ length control.old.items + 1) }
{
    if !rest.is_empty() {
        control.push(Frame::Run(Code::Block(rest)))?;
    }
    Ok(())
}

/// Puts a function before what is left, and returns the body that runs next.
#[inline(always)]
pub fn begin<'a>(
    control: &mut Vec<Frame<'a>>,
    rest: &'a [Op],
    code: Code<'a>,
) -> Result<&'a [Op], AllocError>
    ensures same { IfOk result (λ body. SameLeft (whole body.now control.new.items)
        (Run (code_seen code.entry) ∷ whole rest.now control.old.items)) }
    ensures more { OnOk result (length control.new.items ≤ length control.old.items + 2) }
{
    keep(control, rest)?;
    match code {
        Code::Block(ops) => Ok(ops),
        Code::Name(_) => {
            control.push(Frame::Run(code))?;
            Ok(&[])
        }
    }
}

/// Puts a loop before what is left, and returns the body that runs next.
#[inline(always)]
pub fn begin_loop<'a>(
    control: &mut Vec<Frame<'a>>,
    rest: &'a [Op],
    test: Code<'a>,
    body: Code<'a>,
) -> Result<&'a [Op], AllocError>
    ensures same { IfOk result (λ ops. SameLeft (whole ops.now control.new.items)
        (Run (code_seen test.entry) ∷ Test (code_seen test.entry) (code_seen body.entry)
        ∷ whole rest.now control.old.items)) }
    ensures more { OnOk result (length control.new.items ≤ length control.old.items + 4) }
{
    keep(control, rest)?;
    control.push(Frame::Test(test, body))?;
    begin(control, &[], test)
}
