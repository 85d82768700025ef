//! What a step leaves if it needn't run, because an earlier step agrees with it.
//!
//! The outcome has the earlier step's values where the step can reach them, and the present ones elsewhere. Nearly
//! always one of the two is equal to it as a whole. So the whole is compared first, and shared; a copy with single
//! values put in (`substitution`) is rare.

ghost use Rattle.std.specs.Prelude.{◌≡◌, IsTrue, IfOk, option_map};
ghost use Rattle.bt_style.specs.Reach.{is_among, keeps_held};
ghost use Rattle.bt_machine.specs.AgreementLaws.{IsNextOutcome, outcome_over, own_over};
ghost use Rattle.bt_machine.specs.Footprint.{blend_globals, pick};
ghost use Rattle.bt_machine.specs.inner.Substitution.{blend_at};

use crate::agreement::{same_counts, same_variables};
use crate::input::Input;
use crate::outcome::Outcome;
use crate::substitution::{Places, reached_globals, reached_owns, variables_over};
use bt_actions::{Variables, share_texts};
use bt_log::Message;
use bt_style::Reach;
use bt_text::{Held, Sequence, Shared};
use std::alloc::{AllocError, Global};

/// Whether all variables are equal.
pub fn equal_variables(old: &Variables, new: &Variables) -> bool
    ensures { IsTrue result → old.now ≡ new.now }
{
    same_counts(old, new) && old.numbers.is_same(&new.numbers) && old.texts.is_same(&new.texts)
}

/// Shares `base` if it has as many values as `left`, and the same ones at these places.
fn left_at(
    alloc: Global,
    left: &Variables,
    base: &Shared<Variables>,
    places: Places<'_>,
) -> Result<Shared<Variables>, AllocError>
    ensures { IfOk result (λ both. both ≡ blend_at places.entry left.now base.now) }
{
    if same_counts(left, base) && same_variables(left, base, places.numbers, places.texts) {
        return base.share();
    }
    Shared::new(alloc, variables_over(alloc, left, base, places)?)
}

/// Shares what the earlier step left if it began with the present variables: the common case, without any copy.
fn variables_after(
    alloc: Global,
    old: &Variables,
    left: &Shared<Variables>,
    new: &Shared<Variables>,
    places: Places<'_>,
) -> Result<Shared<Variables>, AllocError>
    requires { left.now ≡ blend_at places left.now old.now }
    ensures { IfOk result (λ both. both ≡ blend_at places.entry left.now new.now) }
{
    if equal_variables(old, new) {
        return left.share();
    }
    left_at(alloc, left, new, places)
}

fn globals_left(
    alloc: Global,
    old: &Input,
    left: &Outcome,
    new: &Input,
    reach: &Reach,
) -> Result<Shared<Variables>, AllocError>
    requires { left.now.globals ≡ blend_globals (is_among reach.now.targets) left.now.globals old.now.globals }
    ensures { IfOk result (λ both. both ≡ blend_globals (is_among reach.now.targets) left.now.globals new.now.globals) }
{
    let places = reached_globals(reach);
    variables_after(alloc, &old.globals, &left.globals, &new.globals, places)
}

fn owns_left(
    alloc: Global,
    old: &Input,
    left: &Outcome,
    new: &Input,
    reach: &Reach,
) -> Result<Option<Shared<Variables>>, AllocError>
    requires { left.now.variables
        ≡ option_map (own_over (is_among reach.now.targets) old.now.entry) left.now.variables }
    ensures { IfOk result (λ both. both
        ≡ option_map (own_over (is_among reach.now.targets) new.now.entry) left.now.variables) }
{
    let Some(left) = &left.variables else {
        return Ok(None);
    };
    let Some(new) = &new.entry else {
        return Ok(Some(left.share()?));
    };
    let places = reached_owns(reach);
    let both = match &old.entry {
        None => left_at(alloc, left, &new.variables, places)?,
        Some(old) => variables_after(alloc, &old.variables, left, &new.variables, places)?,
    };
    Ok(Some(both))
}

fn held_left(alloc: Global, left: &Held, new: &Held, reach: &Reach) -> Result<Held, AllocError>
    ensures { IfOk result (λ held. held ≡ pick (keeps_held (is_among reach.now.targets)) left.now new.now) }
{
    if reach.held {
        left.copy(alloc)
    } else {
        new.copy(alloc)
    }
}

fn shared_messages(alloc: Global, messages: &[Message]) -> Result<Sequence<Message>, AllocError>
    ensures { IfOk result (λ same. same ≡ messages.now) }
{
    let mut same = Sequence::new(alloc);
    'messages: for message in messages {
        same.push(message.share()?)?;
    }
    Ok(same)
}

/// What a step leaves, made from what an earlier step left (`left`), whose input agrees with this step's in all that it
/// can reach. Reached values come from the earlier outcome, all others from this step's input. Lines are shared. So are
/// the globals and the entry's variables, if the earlier step began with the same ones or left what is there now;
/// otherwise they are a copy of the present ones, with the reached ones put in.
pub fn left_over(
    alloc: Global,
    old: &Input,
    left: &Outcome,
    new: &Input,
    reach: &Reach,
) -> Result<Outcome, AllocError>
    requires { left.now ≡ outcome_over (is_among reach.now.targets) old.now left.now }
    ensures over { IfOk result (λ outcome. outcome ≡ outcome_over (is_among reach.now.targets) new.now left.now) }
    ensures step { IfOk result (IsNextOutcome reach.now.targets old.now left.now new.now) }
{
    Ok(Outcome {
        globals: globals_left(alloc, old, left, new, reach)?,
        variables: owns_left(alloc, old, left, new, reach)?,
        held: held_left(alloc, &left.held, &new.held, reach)?,
        lines: share_texts(alloc, left.lines.as_slice())?,
        messages: shared_messages(alloc, left.messages.as_slice())?,
        stop: left.stop,
        calls: left.calls,
    })
}
