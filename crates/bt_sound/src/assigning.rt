//! What `:=` and `duplicate$` make of a state.

ghost use Rattle.std.specs.Prelude.{◌≡◌, ◌∷◌, IfOk, Some};
ghost use Rattle.bt_actions.specs.Item.{Name};
ghost use Rattle.bt_sound.specs.Known.{Run, Text, holding};
ghost use Rattle.bt_sound.specs.Reading.{assigning, doubled, doubled_case, field_states, number_put, of_variables, text_put, value_put, when};
ghost use Rattle.bt_sound.specs.Seen.{known_seen, knowns_seen, state_seen, states_seen};

use crate::known::Known;
use crate::may::May;
use crate::reading::{entry_of, when};
use crate::state::{KnownEntry, KnownVariables, State, alone, on};
use crate::stop::Stop;
use crate::tops::{code_top, value_top};
use bt_actions::Code;
use bt_style::Target;
use std::alloc::{AllocError, Global};

fn number_put(
    alloc: Global,
    n: usize,
    value: Known,
    variables: &KnownVariables,
) -> Result<KnownVariables, Stop>
    ensures { IfOk result (λ after. number_put n (known_seen value.entry) variables.now ≡ Some after) }
{
    let Known::Number(range) = value else {
        return Err(Stop::Refused);
    };
    if n >= variables.numbers.len() {
        return Err(Stop::Refused);
    }
    Ok(variables.with_number(alloc, n, range)?)
}

fn text_put(
    alloc: Global,
    n: usize,
    value: Known,
    variables: &KnownVariables,
) -> Result<KnownVariables, Stop>
    ensures { IfOk result (λ after. text_put n (known_seen value.entry) variables.now ≡ Some after) }
{
    let Known::Text(may) = value else {
        return Err(Stop::Refused);
    };
    if may.missing || n >= variables.texts.len() {
        return Err(Stop::Refused);
    }
    Ok(variables.with_text(alloc, n, may)?)
}

fn own_put<'a>(
    alloc: Global,
    state: &State<'a>,
    entry: &KnownEntry,
    variables: KnownVariables,
) -> Result<State<'a>, AllocError>
    ensures { IfOk result (λ after. state_seen after ≡ of_variables entry.now (state_seen state.now) variables) }
{
    let entry = entry.with_variables(alloc, variables)?;
    state.with_entry(alloc, entry)
}

fn value_put<'a>(
    alloc: Global,
    target: Target,
    value: Known,
    state: &State<'a>,
) -> Result<State<'a>, Stop>
    ensures { IfOk result (λ after. value_put target (known_seen value.entry) (state_seen state.now) ≡ Some (state_seen after)) }
{
    match target {
        Target::EntryNumber(n) => {
            let entry = entry_of(state)?;
            let variables = number_put(alloc, n, value, &entry.variables)?;
            Ok(own_put(alloc, state, entry, variables)?)
        }
        Target::EntryText(n) => {
            let entry = entry_of(state)?;
            let variables = text_put(alloc, n, value, &entry.variables)?;
            Ok(own_put(alloc, state, entry, variables)?)
        }
        Target::GlobalNumber(n) => {
            let globals = number_put(alloc, n, value, &state.globals)?;
            Ok(state.with_globals(alloc, globals)?)
        }
        Target::GlobalText(n) => {
            let globals = text_put(alloc, n, value, &state.globals)?;
            Ok(state.with_globals(alloc, globals)?)
        }
        _ => Err(Stop::Refused),
    }
}

fn name_top<'s, 'a>(stack: &'s [Known<'a>]) -> Result<(Target, &'s [Known<'a>]), Stop>
    ensures { IfOk result (λ top. knowns_seen stack.now ≡ Run (Name top.0) ∷ knowns_seen top.1.now) }
{
    let (code, below) = code_top(stack)?;
    match code {
        Code::Name(target) => Ok((target, below)),
        Code::Block(_) => Err(Stop::Refused),
    }
}

/// The state after `:=`.
pub fn assigned<'a>(alloc: Global, state: &State<'a>) -> Result<State<'a>, Stop>
    ensures { IfOk result (λ after. assigning (state_seen state.now).stack (state_seen state.now) ≡ Some (state_seen after)) }
{
    let (target, below) = name_top(state.stack.as_slice())?;
    let (value, below) = value_top(below)?;
    let state = state.with_stack(alloc, below)?;
    value_put(alloc, target, value, &state)
}

/// A text of the stack that is copied, above these values.
#[derive(Clone, Copy)]
struct Copied<'s, 'a> {
    alloc: Global,
    state: &'s State<'a>,
    below: &'s [Known<'a>],
}

impl<'a> Copied<'_, 'a> {
    /// The state after it was copied, if it is so.
    fn case(&self, may: May) -> Result<State<'a>, AllocError>
        ensures { IfOk result (λ after. state_seen after
            ≡ doubled_case may (knowns_seen self.now.below.now) (state_seen self.now.state.now)) }
    {
        let stack = on(self.alloc, Known::Text(may), self.below)?;
        let state = self.state.holding(stack)?;
        state.pushed(self.alloc, Known::Text(may))
    }

    /// This state before others, if it may be so.
    fn before(
        &self,
        may: May,
        may_be: bool,
        rest: Vec<State<'a>>,
    ) -> Result<Vec<State<'a>>, AllocError>
        ensures { IfOk result (λ states. states_seen states.items ≡ when may_be
            (doubled_case may (knowns_seen self.now.below.now) (state_seen self.now.state.now)) (states_seen rest.entry.items)) }
    {
        let first = self.case(may)?;
        let states = when(self.alloc, may_be, first, rest)?;
        Ok(states)
    }
}

/// The states after a text was copied: one for each case, as if it were read.
fn text_doubled<'a>(
    alloc: Global,
    state: &State<'a>,
    below: &[Known<'a>],
    may: May,
) -> Result<Vec<State<'a>>, AllocError>
    ensures { IfOk result (λ states. states_seen states.items
        ≡ field_states may (λ m. holding (Text m ∷ knowns_seen below.now) (state_seen state.now))) }
{
    let copied = Copied {
        alloc,
        state,
        below,
    };
    let states = Vec::new(alloc);
    let states = copied.before(May::only_inked(), may.inked, states)?;
    let states = copied.before(May::only_blank(), may.blank, states)?;
    let states = copied.before(May::only_missing(), may.missing, states)?;
    Ok(states)
}

/// The states after `duplicate$`.
pub fn doubled<'a>(alloc: Global, state: &State<'a>) -> Result<Vec<State<'a>>, Stop>
    ensures { IfOk result (λ states. doubled (state_seen state.now).stack (state_seen state.now) ≡ Some (states_seen states.items)) }
{
    let (top, below) = value_top(state.stack.as_slice())?;
    match top {
        Known::Text(may) => {
            let states = text_doubled(alloc, state, below, may)?;
            Ok(states)
        }
        Known::Number(range) => {
            let after = state.pushed(alloc, Known::Number(range))?;
            let states = alone(alloc, after)?;
            Ok(states)
        }
        Known::Run(code) => {
            let after = state.pushed(alloc, Known::Run(code))?;
            let states = alone(alloc, after)?;
            Ok(states)
        }
    }
}
