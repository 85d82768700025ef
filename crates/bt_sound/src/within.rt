//! When one state says no less than another.

ghost use Rattle.std.specs.Prelude.{◌≡◌, IsTrue};
ghost use Rattle.std.specs.List.{list_all, list_any};
ghost use Rattle.bt_actions.specs.View.{code_seen};
ghost use Rattle.bt_sound.specs.Below.{entry_within, is_within, known_within, pairs_all, range_within, may_within, same_code, variables_within};
ghost use Rattle.bt_sound.specs.Seen.{known_seen, knowns_seen, state_seen, states_seen};
ghost use Rattle.bt_sound.specs.Follows.{Covered};

use crate::known::Known;
use crate::may::May;
use crate::range::Range;
use crate::state::{KnownEntry, KnownVariables, State};
use bt_actions::Code;
use bt_text::Shared;

/// Whether both are the same quoted name. No two functions in braces count as the same.
fn is_same_code(ours: Code, theirs: Code) -> bool
    ensures { result ≡ same_code (code_seen ours.entry) (code_seen theirs.entry) }
{
    match (ours, theirs) {
        (Code::Name(ours), Code::Name(theirs)) => ours == theirs,
        _ => false,
    }
}

pub fn is_known_within(ours: Known, theirs: Known) -> bool
    ensures { result ≡ known_within (known_seen ours.entry) (known_seen theirs.entry) }
{
    match (ours, theirs) {
        (Known::Number(ours), Known::Number(theirs)) => ours.is_within(theirs),
        (Known::Text(ours), Known::Text(theirs)) => ours.is_within(theirs),
        (Known::Run(ours), Known::Run(theirs)) => is_same_code(ours, theirs),
        _ => false,
    }
}

/// Whether each value of a stack says no less than the other stack's.
pub fn are_knowns_within(ours: &[Known], theirs: &[Known]) -> bool
    ensures { result ≡ pairs_all known_within (knowns_seen ours.now) (knowns_seen theirs.now) }
{
    match ours {
        [] => theirs.is_empty(),
        [our, ours @ ..] => match theirs {
            [] => false,
            [their, theirs @ ..] => {
                is_known_within(*our, *their) && are_knowns_within(ours, theirs)
            }
        },
    }
}

fn are_ranges_within(ours: &[Range], theirs: &[Range]) -> bool
    ensures { result ≡ pairs_all range_within ours.now theirs.now }
{
    match ours {
        [] => theirs.is_empty(),
        [our, ours @ ..] => match theirs {
            [] => false,
            [their, theirs @ ..] => our.is_within(*their) && are_ranges_within(ours, theirs),
        },
    }
}

fn are_texts_within(ours: &[May], theirs: &[May]) -> bool
    ensures { result ≡ pairs_all may_within ours.now theirs.now }
{
    match ours {
        [] => theirs.is_empty(),
        [our, ours @ ..] => match theirs {
            [] => false,
            [their, theirs @ ..] => our.is_within(*their) && are_texts_within(ours, theirs),
        },
    }
}

pub fn are_variables_within(ours: &KnownVariables, theirs: &KnownVariables) -> bool
    ensures { result ≡ variables_within ours.now theirs.now }
{
    are_ranges_within(ours.numbers.as_slice(), theirs.numbers.as_slice())
        && are_texts_within(ours.texts.as_slice(), theirs.texts.as_slice())
}

fn is_entry_within(ours: &Option<Shared<KnownEntry>>, theirs: &Option<Shared<KnownEntry>>) -> bool
    ensures { result ≡ entry_within ours.now theirs.now }
{
    match (ours, theirs) {
        (None, None) => true,
        (Some(ours), Some(theirs)) => {
            are_texts_within(ours.fields.as_slice(), theirs.fields.as_slice())
                && are_variables_within(&ours.variables, &theirs.variables)
        }
        _ => false,
    }
}

/// Whether each world that is as the first state says is as the second says.
pub fn is_state_within(ours: &State, theirs: &State) -> bool
    ensures { result ≡ is_within (state_seen ours.now) (state_seen theirs.now) }
{
    are_knowns_within(ours.stack.as_slice(), theirs.stack.as_slice())
        && is_entry_within(&ours.entry, &theirs.entry)
        && are_variables_within(&ours.globals, &theirs.globals)
}

fn is_among(ours: &State, theirs: &[State]) -> bool
    ensures { result ≡ list_any (λ t. is_within (state_seen ours.now) (state_seen t)) theirs.now }
{
    theirs.iter().any(|theirs| is_state_within(ours, theirs))
}

fn are_among(ours: &[State], theirs: &[State]) -> bool
    ensures { result ≡ list_all (λ s. list_any (λ t. is_within (state_seen s) (state_seen t)) theirs.now) ours.now }
{
    ours.iter().all(|ours| is_among(ours, theirs))
}

/// Whether each of the first states is within one of the second.
pub fn is_covered(ours: &[State], theirs: &[State]) -> bool
    ensures { IsTrue result → Covered (states_seen ours.now) (states_seen theirs.now) }
{
    are_among(ours, theirs)
}

/// Whether a loop's first states and those in which it comes back are within its heads.
pub fn is_closed(first: &[State], back: &[State], heads: &[State]) -> bool
    ensures first { IsTrue result → Covered (states_seen first.now) (states_seen heads.now) }
    ensures back { IsTrue result → Covered (states_seen back.now) (states_seen heads.now) }
{
    is_covered(first, heads) && is_covered(back, heads)
}
