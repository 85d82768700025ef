//! Whether an earlier step was given just what a step is given now.

ghost use Rattle.std.specs.Prelude.{◌≡◌, ◌<◌, length, IsTrue};
ghost use Rattle.std.specs.Option.{ForSome, option_map};
ghost use Rattle.bt_actions.specs.World.{entry_in};
ghost use Rattle.bt_machine.specs.OwnEntry.{IsPlace};
ghost use Rattle.bt_run.specs.Course.{course_world, input_at};
ghost use Rattle.bt_run.specs.inner.Earlier.{fixed};
ghost use Rattle.bt_run.specs.inner.Turn.{IsEntered, IsGiven};

use crate::course::Course;
use crate::reused_step::is_same_number;
use bt_actions::Entry;
use bt_machine::{Input, equal_variables};
use bt_style::Target;
use bt_text::equal_bytes;

/// The longest preamble that is compared at each step.
const PREAMBLE_BYTES: usize = 4096;

/// Whether two entries are equal, but for their variables. What mostly differs is compared first.
pub fn equal_fixed(old: &Entry, new: &Entry) -> bool
    ensures { IsTrue result → fixed old.now ≡ fixed new.now }
{
    equal_bytes(old.key.as_slice(), new.key.as_slice())
        && is_same_number(old.function, new.function)
        && equal_bytes(old.kind.as_slice(), new.kind.as_slice())
        && old.fields.is_same(&new.fields)
}

/// Whether two entries are equal. All but their variables is compared where it isn't known to be the same.
fn equal_entries(old: &Entry, new: &Entry, same: bool) -> bool
    requires { IsTrue same → fixed old.now ≡ fixed new.now }
    ensures { IsTrue result → old.now ≡ new.now }
{
    equal_variables(&old.variables, &new.variables) && (same || equal_fixed(old, new))
}

/// Whether an entry is the one at a place, or there is none at none.
fn is_entry_at(entry: &Option<Entry>, entries: &[Entry], place: Option<usize>, same: bool) -> bool
    requires placed { ForSome place (λ n. n < length entries.now) }
    requires same { IsTrue same → option_map fixed entry.now ≡ option_map fixed (entry_in entries.now place) }
    ensures { IsTrue result → entry.now ≡ entry_in entries.now place }
{
    match (entry, place) {
        (None, None) => true,
        (Some(entry), Some(place)) => equal_entries(entry, &entries[place], same),
        _ => false,
    }
}

/// Whether two preambles are equal, and not so long that it would take time to tell.
fn equal_preambles(old: &[u8], new: &[u8]) -> bool
    ensures { IsTrue result → old.now ≡ new.now }
{
    new.len() <= PREAMBLE_BYTES && equal_bytes(old, new)
}

/// Whether an input has the run's globals and held line, which may be known.
fn is_given(input: &Input, course: &Course, known: bool) -> bool
    requires { IsTrue known → IsGiven (course_world course.now) input.now }
    ensures { IsTrue result → IsGiven (course_world course.now) input.now }
{
    known
        || (equal_variables(&input.globals, &course.globals)
            && equal_bytes(input.held.bytes(), course.held.bytes()))
}

/// What is known of an input, so that nobody needs to compare it.
#[derive(Clone, Copy)]
pub struct Known {
    /// Its entry is the one at the place, but for the variables.
    pub same: bool,
    /// It has the run's globals and held line.
    pub given: bool,
}

/// Whether an input has the entry at a place, or none, and the run's preamble.
fn is_entered(input: &Input, course: &Course, place: Option<usize>, same: bool) -> bool
    requires placed { IsPlace place (course_world course.now) }
    requires same { IsTrue same →
        option_map fixed input.now.entry ≡ option_map fixed (entry_in course.now.entries place) }
    ensures { IsTrue result → IsEntered (course_world course.now) place input.now }
{
    is_entry_at(&input.entry, course.entries.as_slice(), place, same)
        && equal_preambles(input.preamble.as_slice(), course.preamble.as_slice())
}

/// Whether an input is what a step is given now, for the entry at a place or for none.
#[tactic(auto, using(crate::proofs::TurnLemmas::input_given, bt_style::proofs::ReachLemmas::target_eq_sound))]
pub fn is_input(
    input: &Input,
    course: &Course,
    target: Target,
    place: Option<usize>,
    known: Known,
) -> bool
    requires placed { IsPlace place (course_world course.now) }
    requires same { IsTrue known.same →
        option_map fixed input.now.entry ≡ option_map fixed (entry_in course.now.entries place) }
    requires given { IsTrue known.given → IsGiven (course_world course.now) input.now }
    ensures { IsTrue result → input.now ≡ input_at target place (course_world course.now) }
{
    input.target == target
        && is_entered(input, course, place, known.same)
        && is_given(input, course, known.given)
}
