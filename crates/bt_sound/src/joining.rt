//! States that are joined where their stacks are the same, so that there are never many.
//!
//! How they are joined needs no proof: what comes of it is used only if it covers the states that were joined.

ghost use Rattle.std.specs.Prelude.{IfOk};
ghost use Rattle.bt_sound.specs.Follows.{Covered};
ghost use Rattle.bt_sound.specs.Seen.{states_seen};

use crate::known::Known;
use crate::may::May;
use crate::range::Range;
use crate::state::{KnownEntry, KnownVariables, State};
use crate::within::{are_knowns_within, is_covered, is_known_within, is_state_within};
use bt_actions::Code;
use bt_style::Target;
use bt_text::{Sequence, Shared};
use std::alloc::{AllocError, Global};

fn joined_ranges(
    alloc: Global,
    ours: &[Range],
    theirs: &[Range],
) -> Result<Sequence<Range>, AllocError> {
    let mut joined = Vec::new(alloc);
    for (our, their) in ours.iter().zip(theirs) {
        joined.push(our.joined(*their))?;
    }
    Ok(Sequence::from_vec(joined))
}

fn joined_texts(alloc: Global, ours: &[May], theirs: &[May]) -> Result<Sequence<May>, AllocError> {
    let mut joined = Vec::new(alloc);
    for (our, their) in ours.iter().zip(theirs) {
        joined.push(our.or(*their))?;
    }
    Ok(Sequence::from_vec(joined))
}

/// What both say of variables.
pub fn joined_variables(
    alloc: Global,
    ours: &KnownVariables,
    theirs: &KnownVariables,
) -> Result<KnownVariables, AllocError> {
    let numbers = joined_ranges(alloc, ours.numbers.as_slice(), theirs.numbers.as_slice())?;
    let texts = joined_texts(alloc, ours.texts.as_slice(), theirs.texts.as_slice())?;
    Ok(KnownVariables { numbers, texts })
}

fn joined_entry(
    alloc: Global,
    ours: &Option<Shared<KnownEntry>>,
    theirs: &Option<Shared<KnownEntry>>,
) -> Result<Option<Shared<KnownEntry>>, AllocError> {
    match (ours, theirs) {
        (Some(ours), Some(theirs)) => {
            let fields = joined_texts(alloc, ours.fields.as_slice(), theirs.fields.as_slice())?;
            let variables = joined_variables(alloc, &ours.variables, &theirs.variables)?;
            Ok(Some(Shared::new(alloc, KnownEntry { fields, variables })?))
        }
        _ => Ok(None),
    }
}

fn joined_known<'a>(ours: Known<'a>, theirs: Known<'a>) -> Known<'a> {
    match (ours, theirs) {
        (Known::Number(ours), Known::Number(theirs)) => Known::Number(ours.joined(theirs)),
        _ => ours,
    }
}

/// What both stacks say of numbers; all else is the first one's.
fn joined_stack<'a>(
    alloc: Global,
    ours: &[Known<'a>],
    theirs: &[Known<'a>],
) -> Result<Vec<Known<'a>>, AllocError> {
    let mut joined = Vec::new(alloc);
    for (our, their) in ours.iter().zip(theirs) {
        joined.push(joined_known(*our, *their))?;
    }
    Ok(joined)
}

fn joined<'a>(
    alloc: Global,
    ours: &State<'a>,
    theirs: &State<'a>,
) -> Result<State<'a>, AllocError> {
    let stack = joined_stack(alloc, ours.stack.as_slice(), theirs.stack.as_slice())?;
    let entry = joined_entry(alloc, &ours.entry, &theirs.entry)?;
    let globals = joined_variables(alloc, &ours.globals, &theirs.globals)?;
    let globals = Shared::new(alloc, globals)?;
    Ok(State {
        stack,
        entry,
        globals,
    })
}

fn texts_differ(ours: &[May], theirs: &[May], n: usize) -> bool {
    match (ours.get(n), theirs.get(n)) {
        (Some(ours), Some(theirs)) => ours.certain() != theirs.certain(),
        _ => false,
    }
}

fn numbers_differ(ours: &[Range], theirs: &[Range], n: usize) -> bool {
    match (ours.get(n), theirs.get(n)) {
        (Some(ours), Some(theirs)) => ours.sign() != theirs.sign(),
        _ => false,
    }
}

/// Whether what is known of a field or variable of the entry tells two states apart.
fn entries_differ(ours: &State, theirs: &State, name: Target) -> bool {
    match (&ours.entry, &theirs.entry) {
        (Some(ours), Some(theirs)) => match name {
            Target::Field(n) => texts_differ(ours.fields.as_slice(), theirs.fields.as_slice(), n),
            Target::EntryText(n) => texts_differ(
                ours.variables.texts.as_slice(),
                theirs.variables.texts.as_slice(),
                n,
            ),
            Target::EntryNumber(n) => numbers_differ(
                ours.variables.numbers.as_slice(),
                theirs.variables.numbers.as_slice(),
                n,
            ),
            _ => false,
        },
        _ => false,
    }
}

/// Whether what is known of a field or variable tells two states apart.
fn differ(ours: &State, theirs: &State, name: Target) -> bool {
    match name {
        Target::GlobalText(n) => {
            texts_differ(
                ours.globals.texts.as_slice(),
                theirs.globals.texts.as_slice(),
                n,
            )
        }
        Target::GlobalNumber(n) => numbers_differ(
            ours.globals.numbers.as_slice(),
            theirs.globals.numbers.as_slice(),
            n,
        ),
        _ => entries_differ(ours, theirs, name),
    }
}

/// Whether two states have the same stack and needn't stay apart.
fn may_join(ours: &State, theirs: &State, apart: &[Target]) -> bool {
    are_knowns_within(ours.stack.as_slice(), theirs.stack.as_slice())
        && are_knowns_within(theirs.stack.as_slice(), ours.stack.as_slice())
        && !apart.iter().any(|name| differ(ours, theirs, *name))
}

/// Puts a state in the place of one of the others that is joined with it, or after them.
fn put_in<'a>(
    alloc: Global,
    state: &State<'a>,
    states: &mut Vec<State<'a>>,
    place: Option<usize>,
) -> Result<(), AllocError> {
    match place {
        Some(place) => {
            if let Some(known) = states.get_mut(place) {
                if !is_state_within(state, known) {
                    *known = joined(alloc, known, state)?;
                }
            }
            Ok(())
        }
        None => {
            states.push(state.copied(alloc)?)?;
            Ok(())
        }
    }
}

/// Adds states to others: each is joined with the first that has the same stack and needn't stay apart.
fn join_all<'a>(
    alloc: Global,
    states: &[State<'a>],
    others: &mut Vec<State<'a>>,
    apart: &[Target],
) -> Result<(), AllocError> {
    for state in states {
        let place = others
            .iter()
            .position(|known| may_join(known, state, apart));
        put_in(alloc, state, others, place)?;
    }
    Ok(())
}

fn is_alike(ours: Known, theirs: Known) -> bool {
    match (ours, theirs) {
        (Known::Number(_), Known::Number(_)) => true,
        _ => is_known_within(ours, theirs) && is_known_within(theirs, ours),
    }
}

/// Whether two states have the same stack but for its numbers, and needn't stay apart.
fn may_widen(ours: &State, theirs: &State, apart: &[Target]) -> bool {
    let alike = ours
        .stack
        .iter()
        .zip(theirs.stack.iter())
        .all(|(our, their)| is_alike(*our, *their));
    ours.stack.len() == theirs.stack.len()
        && alike
        && !apart.iter().any(|name| differ(ours, theirs, *name))
}

/// Adds states to the heads of a loop, which widen until they cover what the loop's body leaves.
pub fn widen_all<'a>(
    alloc: Global,
    states: &[State<'a>],
    heads: &mut Vec<State<'a>>,
    apart: &[Target],
) -> Result<(), AllocError> {
    for state in states {
        let place = heads
            .iter()
            .position(|known| may_widen(known, state, apart));
        put_in(alloc, state, heads, place)?;
    }
    Ok(())
}

/// Whether the first state's stack has a function in braces. No such state counts as within another.
fn has_block(states: &[State]) -> bool {
    match states {
        [first, ..] => {
            first
                .stack
                .iter()
                .any(|known| matches!(known, Known::Run(Code::Block(_))))
        }
        [] => false,
    }
}

/// The states joined, where the result covers them; the given ones else.
pub fn merged<'a>(
    alloc: Global,
    states: Vec<State<'a>>,
    apart: &[Target],
) -> Result<Vec<State<'a>>, AllocError>
    ensures { IfOk result (λ merged. Covered (states_seen states.entry.items) (states_seen merged.items)) }
{
    if states.len() < 2 {
        return Ok(states);
    }
    if has_block(states.as_slice()) {
        return Ok(states);
    }
    let mut joined = Vec::new(alloc);
    join_all(alloc, states.as_slice(), &mut joined, apart)?;
    if joined.len() < states.len() {
        if is_covered(states.as_slice(), joined.as_slice()) {
            return Ok(joined);
        }
    }
    Ok(states)
}
