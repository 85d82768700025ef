//! The steps of the new run, after an edit that changes one entry for READ.
//!
//! A step sees no entry but its own. So the walk goes over the old run's steps in order and re-makes only those for the
//! changed entry, and those for other entries as long as the globals or the held line differ from what the old step was
//! given. A re-made step is the old one if that agrees, or else it runs. All other steps stay. Of each, the walk reads only its
//! mark, and its key if the mark has no place.
//!
//! The walk gives up, and a whole run begins, if the new run could differ in more than these steps: for example, if a re-made
//! step gives other messages or stops the run, if one for another entry leaves that entry other variables, or if SORT may give
//! another order (`sort_order.rt`). It also gives up after `MOST_RUN` steps that ran, because a whole run would run them again.
//!
//! In what follows, `own` says that a step is for the changed entry.

ghost use Rattle.std.specs.Prelude.{◌≡◌, ◌+◌, ◌<◌, ◌^◌, [], true, false, All, IfOk, IfSome, IsTrue, OnOk, Some, length, slice_get, if◌then◌else◌};
ghost use Rattle.std.specs.Option.{ForSome};
ghost use Rattle.bt_log.specs.Log.{lines_bytes};
ghost use Rattle.bt_style.specs.Program.{program_of};
ghost use Rattle.bt_run.specs.declared.course.Step.{Step as StepSeen};
ghost use Rattle.bt_run.specs.Meaning.{first_globals};
ghost use Rattle.bt_run.specs.inner.Beside.{MayLeave, is_for};
ghost use Rattle.bt_run.specs.inner.Course.{with_variables};
ghost use Rattle.bt_run.specs.inner.Names.{IsIndex};
ghost use Rattle.bt_run.specs.inner.Walk.{AreOrderedIn, GiveAlike, IsAgain, IsNoted, IsPutAt, IsWalkThroughIn, IsWalkedIn, given_to};
ghost use Rattle.bt_run.specs.inner.Work.{IsKnown, IsNext};

use crate::counts::Calls;
use crate::course::Step;
use crate::known_calls::exchange_calls;
use crate::reuse::Reuse;
use crate::reused_step::{Done, StepToTake};
use crate::same_messages::are_same_messages;
use crate::step::share_if_any;
use crate::walk_context::WalkContext;
use bt_actions::{Entry, Variables};
use bt_machine::{Input, Outcome, equal_variables};
use bt_text::{Bytes, Held, Sequence, Shared, equal_bytes};
use std::alloc::{AllocError, Global};

/// How many steps a walk runs at most.
const MOST_RUN: u128 = 16;

/// A re-made step, in the place of the old one of this number.
#[derive(Drop)]
pub struct NewStep {
    pub number: usize,
    pub step: Shared<Step>,
    /// How many bytes it writes.
    pub length: usize,
}

/// The new run so far.
#[derive(Drop)]
pub struct Walk {
    /// The changed entry as its last step left it.
    pub entry: Entry,
    /// Whether the next step is given the globals and the held line that the old one was given.
    pub in_step: bool,
    /// The globals and the held line that it is given, if not.
    pub globals: Shared<Variables>,
    pub held: Held,
    pub steps: Sequence<NewStep>,
    /// How often the steps so far, and the old ones behind them, called each built-in function.
    pub calls: Calls,
    pub reuse: Reuse,
    /// The command of the last step for the changed entry, or READ if there was none. Each SORT before it leaves the old
    /// order.
    pub last_command: usize,
}

fn are_equal(one: &Option<Shared<Variables>>, other: &Option<Shared<Variables>>) -> bool
    ensures { IsTrue result → one.now ≡ other.now }
{
    match (one, other) {
        (None, None) => true,
        (Some(one), Some(other)) => equal_variables(one, other),
        _ => false,
    }
}

/// Whether a re-made step may replace the old one: same messages, same stop, and, if it is for another entry, the same
/// variables.
fn may_leave(left: &Outcome, old: &Outcome, own: bool) -> bool
    ensures { IsTrue result → MayLeave own left.now old.now }
{
    left.stop == old.stop
        && are_same_messages(left.messages.as_slice(), old.messages.as_slice())
        && (own || are_equal(&left.variables, &old.variables))
}

/// Whether the next step is given the same after both.
fn give_alike(left: &Outcome, old: &Outcome) -> bool
    ensures { IsTrue result → GiveAlike left.now old.now }
{
    equal_variables(&left.globals, &old.globals) && equal_bytes(left.held.bytes(), old.held.bytes())
}

/// How many bytes these lines take with their line feeds.
fn length_of(lines: &[Shared<Bytes>]) -> Result<usize, AllocError>
    ensures { IfOk result (λ count. count ≡ length (lines_bytes lines.now)) }
{
    let mut length: usize = 0;
    'lines: for line in lines {
        length = length
            .checked_add(line.len())
            .ok_or(AllocError)?
            .checked_add(1)
            .ok_or(AllocError)?;
    }
    Ok(length)
}

/// Whether the first step, if there is one, was given these globals and no held line.
fn begins_alike(steps: &[Shared<Step>], globals: &Variables) -> bool
    ensures globals { IsTrue result → (s : StepSeen) → slice_get steps.now 0 ≡ Some s → globals.now ≡ s.input.globals }
    ensures held { IsTrue result → (s : StepSeen) → slice_get steps.now 0 ≡ Some s → s.input.held ≡ [] }
{
    match steps.get(0) {
        None => true,
        Some(step) => {
            equal_variables(globals, &step.input.globals) && step.input.held.bytes().is_empty()
        }
    }
}

impl Walk {
    /// At the first step. None if the calls of the old steps aren't known.
    pub fn begun(context: WalkContext<'_>, globals: Variables) -> Result<Option<Walk>, AllocError>
        requires { globals ≡ first_globals (program_of context.style.now) }
        ensures walked { IfOk result (λ begun. IfSome begun (IsWalkedIn context.entry 0)) }
        ensures ordered { IfOk result (λ begun. IfSome begun (AreOrderedIn context.entry 0)) }
    {
        let earlier = context.earlier;
        let Some(calls) = earlier.calls else {
            return Ok(None);
        };
        let in_step = begins_alike(earlier.steps.as_slice(), &globals);
        Ok(Some(Walk {
            entry: context.first.share()?,
            in_step,
            globals: Shared::new(context.alloc, globals)?,
            held: Held::new(context.alloc),
            steps: Sequence::new(context.alloc),
            calls,
            reuse: Reuse::begun(context.alloc),
            last_command: context.read,
        }))
    }

    fn entry_for(&self, old: &Option<Entry>, own: bool) -> Result<Option<Entry>, AllocError>
        ensures { IfOk result (λ entry. entry ≡ (if own then Some self.now.entry else old.now)) }
    {
        if own {
            return Ok(Some(self.entry.share()?));
        }
        share_if_any(old.as_ref())
    }

    /// The input of a re-made step, from the old step's.
    fn input(&self, alloc: Global, old: &Input, own: bool) -> Result<Input, AllocError>
        ensures { IfOk result (λ input. input ≡ given_to own self.now old.now) }
    {
        let entry = self.entry_for(&old.entry, own)?;
        if self.in_step {
            return Ok(Input {
                target: old.target,
                entry,
                globals: old.globals.share()?,
                held: old.held.copy(alloc)?,
                preamble: old.preamble.share()?,
            });
        }
        Ok(Input {
            target: old.target,
            entry,
            globals: self.globals.share()?,
            held: self.held.copy(alloc)?,
            preamble: old.preamble.share()?,
        })
    }

    /// The re-made step of this number.
    fn step_again(
        &mut self,
        context: WalkContext<'_>,
        number: usize,
        own: bool,
    ) -> Result<Shared<Step>, AllocError>
        requires number { number < length context.earlier.now.steps }
        requires meter { self.old.reuse.meter + 1000000 < 2 ^ 128 }
        requires ran { self.old.reuse.ran + 1 < 2 ^ 128 }
        requires known { All (IsKnown (program_of context.style.now)) self.old.reuse.known }
        requires indexed { ForSome self.old.reuse.lookup.index (IsIndex context.earlier.now.steps) }
        ensures again { IfOk result (λ t. (s : StepSeen) → slice_get context.entry.earlier.now.steps number ≡ Some s →
            IsAgain own self.old s t) }
        ensures next { IfOk result (λ t. IsNext (program_of context.entry.style.now) context.entry.earlier.now.steps t
            self.old.reuse self.new.reuse) }
        ensures rest { OnOk result (self.new ≡ record self.old { reuse = self.new.reuse }) }
    {
        let earlier = context.earlier;
        let old = &earlier.steps.as_slice()[number];
        let input = self.input(context.alloc, &old.input, own)?;
        self.reuse.next = number;
        let next = StepToTake {
            alloc: context.alloc,
            style: context.style,
            earlier,
            command: old.command,
            input: &input,
            place: None,
            same: &[],
        };
        let Done { outcome, cost } = next.take_over_or_carry_out(&mut self.reuse)?;
        let made = Step::of(old.command, input, outcome, cost)?;
        let step = Shared::new(context.alloc, made)?;
        Ok(step)
    }

    /// Notes whether the next step is given what the old one was, and otherwise what.
    fn leave(&mut self, alloc: Global, left: &Outcome, old: &Outcome) -> Result<(), AllocError>
        ensures alike { OnOk result (IsTrue self.new.in_step → GiveAlike left.now old.now) }
        ensures globals { OnOk result (self.new.in_step ≡ false → self.new.globals ≡ left.now.globals) }
        ensures held { OnOk result (self.new.in_step ≡ false → self.new.held ≡ left.now.held) }
        ensures rest { OnOk result (self.new ≡ record self.old {
          in_step = self.new.in_step;
          globals = self.new.globals;
          held = self.new.held;
        }) }
    {
        self.in_step = give_alike(left, old);
        if !self.in_step {
            self.globals = left.globals.share()?;
            self.held = left.held.copy(alloc)?;
        }
        Ok(())
    }

    fn keep_variables(&mut self, left: &Outcome, own: bool) -> Result<(), AllocError>
        ensures entry { OnOk result (self.new.entry
            ≡ (if own then with_variables left.now.variables self.old.entry else self.old.entry)) }
        ensures rest { OnOk result (self.new ≡ record self.old { entry = self.new.entry }) }
    {
        if own && let Some(variables) = &left.variables {
            self.entry.variables = variables.share()?;
        }
        Ok(())
    }

    /// Notes a re-made step: its calls, what it left, how much it wrote.
    fn note(
        &mut self,
        context: WalkContext<'_>,
        number: usize,
        step: Shared<Step>,
        own: bool,
    ) -> Result<(), AllocError>
        requires number { number < length context.earlier.now.steps }
        ensures { OnOk result ((s : StepSeen) → slice_get context.entry.earlier.now.steps number ≡ Some s →
            IsNoted own number s step self.old self.new) }
    {
        let old = &context.earlier.steps.as_slice()[number].outcome;
        let left = &step.outcome;
        exchange_calls(&mut self.calls, &old.calls, &left.calls)?;
        self.leave(context.alloc, left, old)?;
        self.keep_variables(left, own)?;
        let length = length_of(left.lines.as_slice())?;
        self.steps.push(NewStep {
            number,
            step,
            length,
        })?;
        Ok(())
    }

    /// Re-makes a step. False if it may not replace the old one.
    fn make(
        &mut self,
        context: WalkContext<'_>,
        number: usize,
        own: bool,
    ) -> Result<bool, AllocError>
        requires number { number < length context.earlier.now.steps }
        requires own { (s : StepSeen) → slice_get context.earlier.now.steps number ≡ Some s → is_for context.key.now s ≡ own }
        requires walked { IsWalkedIn context number self.old }
        ensures walked { IfOk result (λ on. IsTrue on → IsWalkedIn context.entry (number + 1) self.new) }
        ensures put { IfOk result (λ on. IsTrue on → IsPutAt number self.old self.new) }
    {
        let step = self.step_again(context, number, own)?;
        let old = &context.earlier.steps.as_slice()[number];
        if !may_leave(&step.outcome, &old.outcome, own) {
            return Ok(false);
        }
        self.note(context, number, step, own)?;
        Ok(true)
    }

    /// Re-makes a step for the changed entry. False, too, if SORT may give another order.
    fn make_own(&mut self, context: WalkContext<'_>, number: usize) -> Result<bool, AllocError>
        requires number { number < length context.earlier.now.steps }
        requires own { (s : StepSeen) → slice_get context.earlier.now.steps number ≡ Some s → is_for context.key.now s ≡ true }
        requires walked { IsWalkedIn context number self.old }
        requires ordered { AreOrderedIn context number self.old }
        ensures walked { IfOk result (λ on. IsTrue on → IsWalkedIn context.entry (number + 1) self.new) }
        ensures ordered { IfOk result (λ on. IsTrue on → AreOrderedIn context.entry (number + 1) self.new) }
    {
        let command = context.earlier.steps.as_slice()[number].command;
        if !context.keeps_order(number, &self.entry, self.last_command) {
            return Ok(false);
        }
        self.last_command = command;
        let on = self.make(context, number, true)?;
        Ok(on)
    }

    /// Goes past a step, re-making it if need be. False if a whole run must begin.
    fn pass(&mut self, context: WalkContext<'_>, number: usize) -> Result<bool, AllocError>
        requires number { number < length context.earlier.now.steps }
        requires walked { IsWalkedIn context number self.old }
        requires ordered { AreOrderedIn context number self.old }
        ensures walked { IfOk result (λ on. IsTrue on → IsWalkedIn context.entry (number + 1) self.new) }
        ensures ordered { IfOk result (λ on. IsTrue on → AreOrderedIn context.entry (number + 1) self.new) }
    {
        let Some(own) = context.is_own(number) else {
            return Ok(false);
        };
        if self.in_step && !own {
            return Ok(true);
        }
        if self.reuse.ran >= MOST_RUN {
            return Ok(false);
        }
        if own {
            return self.make_own(context, number);
        }
        let on = self.make(context, number, false)?;
        Ok(on)
    }

    /// Goes past all steps. False if a whole run must begin.
    pub fn pass_all(&mut self, context: WalkContext<'_>) -> Result<bool, AllocError>
        requires walked { IsWalkedIn context 0 self.old }
        requires ordered { AreOrderedIn context 0 self.old }
        ensures { IfOk result (λ on. IsTrue on → IsWalkThroughIn context.entry self.new) }
    {
        let count = context.earlier.steps.len();
        'steps: for number in 0..count {
            if !self.pass(context, number)? {
                return Ok(false);
            }
        }
        Ok(context.has_no_sort_from(self.last_command) && context.ran_to_its_end())
    }
}
