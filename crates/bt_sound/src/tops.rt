//! What stands on the top of a stack.

ghost use Rattle.std.specs.Prelude.{◌≡◌, ◌∷◌, IfOk};
ghost use Rattle.bt_actions.specs.View.{code_seen};
ghost use Rattle.bt_sound.specs.Known.{Number, Run};
ghost use Rattle.bt_sound.specs.Seen.{known_seen, knowns_seen};

use crate::known::Known;
use crate::range::Range;
use crate::stop::Stop;
use bt_actions::Code;

/// Any value on the top of the stack, and what is below it.
pub fn value_top<'s, 'a>(stack: &'s [Known<'a>]) -> Result<(Known<'a>, &'s [Known<'a>]), Stop>
    ensures { IfOk result (λ top. knowns_seen stack.now ≡ known_seen top.0 ∷ knowns_seen top.1.now) }
{
    match stack {
        [top, below @ ..] => Ok((*top, below)),
        [] => Err(Stop::Refused),
    }
}

/// A number on the top.
pub fn range_top<'s, 'a>(stack: &'s [Known<'a>]) -> Result<(Range, &'s [Known<'a>]), Stop>
    ensures { IfOk result (λ top. knowns_seen stack.now ≡ Number top.0 ∷ knowns_seen top.1.now) }
{
    let (top, below) = value_top(stack)?;
    match top {
        Known::Number(range) => Ok((range, below)),
        _ => Err(Stop::Refused),
    }
}

/// A function on the top.
pub fn code_top<'s, 'a>(stack: &'s [Known<'a>]) -> Result<(Code<'a>, &'s [Known<'a>]), Stop>
    ensures { IfOk result (λ top. knowns_seen stack.now ≡ Run (code_seen top.0) ∷ knowns_seen top.1.now) }
{
    let (top, below) = value_top(stack)?;
    match top {
        Known::Run(code) => Ok((code, below)),
        _ => Err(Stop::Refused),
    }
}
