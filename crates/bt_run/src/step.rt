//! A step of a run: its input is cut out of the run, and its outcome put back. A run that keeps no steps lends the input.

ghost use Rattle.std.specs.Prelude.{◌≡◌, ◌<◌, ◌++◌, ℕ, List, Some, length, option_copied, IfOk, OnOk};
ghost use Rattle.std.specs.Option.{option_map, ForSome};
ghost use Rattle.bt_actions.specs.declared.entry.Entry.{Entry as EntrySeen};
ghost use Rattle.bt_actions.specs.World.{entry_in};
ghost use Rattle.bt_machine.specs.OwnEntry.{IsPlace};
ghost use Rattle.bt_machine.specs.Step.{outcome_with};
ghost use Rattle.bt_log.specs.declared.message.Place.TheVariants as places;
ghost use Rattle.bt_log.specs.Message.{at};
ghost use Rattle.bt_run.specs.Course.{course_world, input_at};
ghost use Rattle.bt_run.specs.inner.Cases.{all_told};
ghost use Rattle.bt_run.specs.inner.Course.{variables_back, put_back, given_up};

use crate::course::{CommandPlace, Course};
use crate::step_command::StepCommand;
use bt_actions::{Entry, Variables};
use bt_log::{Message, Place};
use bt_machine::{Input, LentInput, Outcome, StepEnd};
use bt_style::Target;
use bt_text::{Bytes, Held, Sequence, Shared};
use std::alloc::{AllocError, Global};
use std::mem;

/// The entry at a place, or none.
fn entry_at(course: &Course, place: Option<usize>) -> Option<&Entry>
    requires { IsPlace place (course_world course.now) }
    ensures { option_copied result ≡ entry_in course.now.entries place }
{
    match place {
        None => None,
        Some(place) => Some(&course.entries.as_slice()[place]),
    }
}

/// The same entry for one more owner, if there is one.
pub fn share_if_any(entry: Option<&Entry>) -> Result<Option<Entry>, AllocError>
    ensures { IfOk result (λ same. same ≡ option_copied entry.entry) }
{
    match entry {
        None => Ok(None),
        Some(entry) => Ok(Some(entry.share()?)),
    }
}

/// What a step is given, shared with the run.
pub fn cut_out(
    alloc: Global,
    course: &Course,
    target: Target,
    place: Option<usize>,
) -> Result<Input, AllocError>
    requires { IsPlace place (course_world course.now) }
    ensures { IfOk result (λ input. input ≡ input_at target place (course_world course.now)) }
{
    Ok(Input {
        target,
        entry: share_if_any(entry_at(course, place))?,
        globals: course.globals.share()?,
        held: course.held.copy(alloc)?,
        preamble: course.preamble.share()?,
    })
}

/// A step's input, lent by the run.
pub fn lend_input(course: &Course, target: Target, place: Option<usize>) -> LentInput<'_>
    requires { IsPlace place (course_world course.now) }
    ensures { result ≡ input_at target place (course_world course.now) }
{
    LentInput {
        target,
        entry: entry_at(course, place),
        globals: &course.globals,
        held: &course.held,
        preamble: &course.preamble,
    }
}

/// Replaces the run's global variables and the entry's by `others`, until `move_back`. Then what the step left is the only
/// owner of the old ones, and `settle_step` changes them in place.
pub fn give_up_variables(
    alloc: Global,
    course: &mut Course,
    place: Option<usize>,
    others: &Shared<Variables>,
) -> Result<(), AllocError>
    requires { IsPlace place (course_world course.old) }
    ensures { OnOk result (course.new ≡ given_up place others.now course.old) }
{
    course.globals = others.share()?;
    let others = Some(others.share()?);
    put_variables_back(alloc, &mut course.entries, place, others);
    Ok(())
}

fn told(message: &Message, site: &CommandPlace) -> Result<Message, AllocError>
    ensures { IfOk result (λ m. m ≡ at (places.Step site.now.style site.now.line) message.now) }
{
    let place = Place::Step {
        style: site.style.share()?,
        line: site.line,
    };
    message.at(place)
}

/// Puts a step's messages into the log.
fn log_messages(
    log: &mut Sequence<Message>,
    messages: &[Message],
    site: &CommandPlace,
) -> Result<(), AllocError>
    ensures { OnOk result (log.new ≡ log.old ++ all_told site.now.line site.now.style messages.now) }
{
    'messages: for message in messages {
        log.push(told(message, site)?)?;
    }
    Ok(())
}

fn set_variables(
    alloc: Global,
    entries: &mut Sequence<Entry>,
    place: usize,
    variables: Shared<Variables>,
)
    requires { place < length entries.old }
    ensures { entries.new ≡ variables_back (Some place) (Some variables) entries.old }
{
    let mut all = mem::replace(entries, Sequence::new(alloc)).into_vec();
    all[place].variables = variables;
    *entries = Sequence::from_vec(all);
}

fn put_variables_back(
    alloc: Global,
    entries: &mut Sequence<Entry>,
    place: Option<usize>,
    variables: Option<Shared<Variables>>,
)
    requires { ForSome place (λ n. n < length entries.old) }
    ensures { entries.new ≡ variables_back place variables entries.old }
{
    if let Some(place) = place
        && let Some(variables) = variables
    {
        set_variables(alloc, entries, place, variables);
    }
}

fn shared(variables: &Option<Shared<Variables>>) -> Result<Option<Shared<Variables>>, AllocError>
    ensures { IfOk result (λ same. same ≡ variables.now) }
{
    match variables {
        None => Ok(None),
        Some(variables) => Ok(Some(variables.share()?)),
    }
}

/// Puts a held line in the place of another. An equal one stays, so that none is copied.
fn put_held(alloc: Global, held: &mut Held, left: &Held) -> Result<(), AllocError>
    ensures { OnOk result (held.new ≡ left.now) }
{
    if held.bytes() != left.bytes() {
        *held = left.copy(alloc)?;
    }
    Ok(())
}

/// Puts what a step of a command left back into the run, and its messages into the log.
pub fn put_back(
    command: StepCommand<'_>,
    course: &mut Course,
    place: Option<usize>,
    outcome: &Outcome,
) -> Result<(), AllocError>
    requires { IsPlace place (course_world course.old) }
    ensures { OnOk result (course.new ≡ put_back command.entry.site.now place outcome.now course.old) }
{
    let StepCommand { job, site } = command;
    let alloc = job.alloc;
    let variables = shared(&outcome.variables)?;
    put_variables_back(alloc, &mut course.entries, place, variables);
    course.globals = outcome.globals.share()?;
    put_held(alloc, &mut course.held, &outcome.held)?;
    log_messages(&mut course.log, outcome.messages.as_slice(), site)?;
    course.stopped = outcome.stop;
    Ok(())
}

/// The same for what nobody else needs.
pub fn move_back(
    command: StepCommand<'_>,
    course: &mut Course,
    place: Option<usize>,
    end: StepEnd,
) -> Result<(), AllocError>
    requires { IsPlace place (course_world course.old) }
    ensures { (lines : List (List ℕ)) (calls : List ℕ) → OnOk result (course.new
        ≡ put_back command.entry.site.now place (outcome_with end lines calls) course.old) }
{
    let StepCommand { job, site } = command;
    let alloc = job.alloc;
    let StepEnd {
        globals,
        variables,
        held,
        messages,
        stop,
    } = end;
    put_variables_back(alloc, &mut course.entries, place, variables);
    course.globals = globals;
    put_held(alloc, &mut course.held, &held)?;
    log_messages(&mut course.log, messages.as_slice(), site)?;
    course.stopped = stop;
    Ok(())
}

/// The key of an input's entry.
pub fn key_of(input: &Input) -> Result<Option<Shared<Bytes>>, AllocError>
    ensures { IfOk result (λ key. key ≡ option_map (λ (e : EntrySeen). e.key) input.now.entry) }
{
    match &input.entry {
        None => Ok(None),
        Some(entry) => Ok(Some(entry.key.share()?)),
    }
}
