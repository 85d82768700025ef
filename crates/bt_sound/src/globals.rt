//! What is known of the global variables between the steps of a run.

ghost use Rattle.std.specs.Prelude.{◌≡◌, IfOk, IfSome, IsTrue, map, true};
ghost use Rattle.std.specs.List.{list_all};
ghost use Rattle.bt_style.specs.Program.{program_of};
ghost use Rattle.bt_sound.specs.Below.{variables_within};
ghost use Rattle.bt_sound.specs.Checked.{first_known, unknown_variables};
ghost use Rattle.bt_sound.specs.Follows.{GlobalsWithin};
ghost use Rattle.bt_sound.specs.Known.{exactly};
ghost use Rattle.bt_sound.specs.Seen.{state_seen, states_seen};
ghost use Rattle.bt_sound.specs.Sound.{first_number};

use crate::joining::joined_variables;
use crate::may::May;
use crate::range::Range;
use crate::state::{KnownVariables, State};
use crate::within::are_variables_within;
use bt_style::Style;
use bt_text::{Bytes, Sequence};
use std::alloc::{AllocError, Global};

/// What is known of the global variables before a step.
#[derive(Clone, Copy, Drop)]
pub enum Globals {
    /// Nothing, so that each command is followed once.
    Forgotten,
    /// What the steps before it left in them.
    Tracked,
}

/// Nothing is known of these variables.
pub fn unknown_variables(
    alloc: Global,
    numbers: &Sequence<Bytes>,
    texts: &Sequence<Bytes>,
) -> Result<KnownVariables, AllocError>
    ensures { IfOk result (λ variables. variables ≡ unknown_variables numbers.now texts.now) }
{
    let numbers = vec![in alloc; Range::any(); numbers.len()]?;
    let texts = vec![in alloc; May::any_text(); texts.len()]?;
    Ok(KnownVariables {
        numbers: Sequence::from_vec(numbers),
        texts: Sequence::from_vec(texts),
    })
}

fn first_number(name: &[u8]) -> i32
    ensures { result ≡ first_number name.now }
{
    if name == b"entry.max$".as_slice() {
        250
    } else if name == b"global.max$".as_slice() {
        20000
    } else {
        0
    }
}

fn first_ranges(alloc: Global, names: &[Bytes]) -> Result<Vec<Range>, AllocError>
    ensures { IfOk result (λ ranges. ranges.items ≡ map (λ name. exactly (first_number name)) names.now) }
{
    let mut ranges = Vec::new(alloc);
    'names: for name in names {
        ranges.push(Range::exactly(first_number(name.as_slice())))?;
    }
    Ok(ranges)
}

fn first_known(alloc: Global, style: &Style) -> Result<KnownVariables, AllocError>
    ensures { IfOk result (λ known. known ≡ first_known (program_of style.now)) }
{
    let numbers = first_ranges(alloc, style.global_numbers.as_slice())?;
    let texts = vec![in alloc; May::only_blank(); style.global_texts.len()]?;
    Ok(KnownVariables {
        numbers: Sequence::from_vec(numbers),
        texts: Sequence::from_vec(texts),
    })
}

/// What is known of the global variables before the first step, if that is right.
pub fn start(
    alloc: Global,
    style: &Style,
    tracked: Globals,
) -> Result<Option<KnownVariables>, AllocError>
    ensures { IfOk result (λ start. IfSome start (λ start. variables_within (first_known (program_of style.now)) start ≡ true)) }
{
    let first = first_known(alloc, style)?;
    let start = match tracked {
        Globals::Forgotten => unknown_variables(alloc, &style.global_numbers, &style.global_texts)?,
        Globals::Tracked => first.copied(alloc)?,
    };
    if are_variables_within(&first, &start) {
        Ok(Some(start))
    } else {
        Ok(None)
    }
}

fn are_all_within(states: &[State], globals: &KnownVariables) -> bool
    ensures { result ≡ list_all (λ s. variables_within (state_seen s).globals globals.now) states.now }
{
    states
        .iter()
        .all(|state| are_variables_within(&state.globals, globals))
}

/// Whether no more is known of the global variables than each of these states says.
pub fn are_globals_within(states: &[State], globals: &KnownVariables) -> bool
    ensures { IsTrue result → GlobalsWithin (states_seen states.now) globals.now }
{
    are_all_within(states, globals)
}

/// Whether what was known of the global variables is kept by steps that leave these states, and what is known now says no
/// more.
pub fn is_kept(globals: &KnownVariables, states: &[State], now: &KnownVariables) -> bool
    ensures begins { IsTrue result → variables_within globals.now now.now ≡ true }
    ensures again { IsTrue result → GlobalsWithin (states_seen states.now) now.now }
{
    are_variables_within(globals, now) && are_globals_within(states, now)
}

/// What is known of the global variables, joined with what each of these states says.
pub fn widened<'a>(
    alloc: Global,
    globals: &KnownVariables,
    states: &[State<'a>],
) -> Result<KnownVariables, AllocError> {
    let mut known = globals.copied(alloc)?;
    for state in states {
        known = joined_variables(alloc, &known, &state.globals)?;
    }
    Ok(known)
}

/// What all states say of the global variables.
pub fn globals_of<'a>(
    alloc: Global,
    states: &[State<'a>],
) -> Result<Option<KnownVariables>, AllocError> {
    match states {
        [] => Ok(None),
        [first, others @ ..] => Ok(Some(widened(alloc, &first.globals, others)?)),
    }
}
