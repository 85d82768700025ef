//! The recorder of a session: it keeps each step, and reuses steps of the run before.

ghost use Rattle.std.specs.Prelude.{◌≡◌, ◌<◌, [], Some, IfOk, IfSome, IsTrue, OnOk, length};
ghost use Rattle.bt_style.specs.Program.{program_of};
ghost use Rattle.bt_actions.specs.World.{entry_in};
ghost use Rattle.bt_machine.specs.OwnEntry.{IsPlace};
ghost use Rattle.bt_run.specs.Course.{course_world, input_at};
ghost use Rattle.bt_run.specs.inner.Earlier.{AreSame};
ghost use Rattle.bt_run.specs.inner.Found.{AreFoundBy};
ghost use Rattle.bt_run.specs.inner.Steps.{steps_under};
ghost use Rattle.bt_run.specs.inner.Marks.{step_tag};
ghost use Rattle.bt_run.specs.inner.Turn.{IsGivenAt, IsSharedFrom};
ghost use Rattle.bt_run.specs.inner.Work.{IsBegun, IsConsistent, IsMarkedAt, IsNext};

use crate::alike::same_entries;
use crate::counts::Calls;
use crate::course::{Course, Step};
use crate::job::Job;
use crate::kept::{Before, Kept};
use crate::kept_resolution::KeptResolution;
use crate::known_calls::{Turn, count_step};
use crate::mark::{Mark, marks_of, tag_of};
use crate::read_command::read;
use crate::readings::Readings;
use crate::recorder::Recorder;
use crate::reuse::Reuse;
use crate::reused_step::{Done, Marked, StepToTake, marked_at};
use crate::same_input::{Known, is_input};
use crate::step::{cut_out, put_back};
use crate::step_command::StepCommand;
use bt_machine::{Input, step_depends_on_its_input};
use bt_style::Target;
use bt_text::{Sequence, Shared};
use std::alloc::{AllocError, Global};

struct Next {
    step: Shared<Step>,
    tag: u64,
    /// Whether it is the previous run's step at the cursor.
    shared: bool,
}

/// The steps of a run so far, and what the run keeps to reuse steps of an earlier one.
#[derive(Drop)]
pub struct KeptSteps {
    /// Those that were reused whole are shared with the run before.
    pub steps: Sequence<Shared<Step>>,
    pub marks: Sequence<Mark>,
    /// Whether the earlier run's entry at a place is the one there, but for its variables.
    pub same: Sequence<bool>,
    /// Whether the previous run's step at the cursor is known to have been given the globals and the held line that the
    /// run has now, so that nobody needs to compare them.
    pub in_step: bool,
    /// How often these steps and the previous run's steps from the cursor on called each built-in function, if known: a
    /// step that moves the cursor elsewhere than to the next step forgets it. At the end of the run it is of these steps.
    pub calls: Option<Calls>,
    /// What READ found, in this run or an earlier one.
    pub resolution: Option<KeptResolution>,
    /// Whether READ found it in this run.
    pub is_own: bool,
    /// Whether READ found it in the earlier run.
    pub is_earlier: bool,
    pub reuse: Reuse,
    /// What was read of other files than databases, by earlier runs and this one.
    pub readings: Readings,
}

impl KeptSteps {
    /// No step, over what earlier runs have read and READ has found. `is_earlier` tells whether it found that in the earlier
    /// run.
    pub fn begun(
        alloc: Global,
        readings: Readings,
        resolution: Option<KeptResolution>,
        is_earlier: bool,
    ) -> KeptSteps
        ensures begun { IsBegun result }
        ensures resolution { result.resolution ≡ resolution }
        ensures is_earlier { result.is_earlier ≡ is_earlier }
    {
        KeptSteps {
            steps: Sequence::new(alloc),
            marks: Sequence::new(alloc),
            same: Sequence::new(alloc),
            in_step: false,
            calls: None,
            resolution,
            is_own: false,
            is_earlier,
            reuse: Reuse::begun(alloc),
            readings,
        }
    }

    /// The run before, if it had a style of this text, and otherwise nothing.
    pub fn earlier_under<'a>(&mut self, before: Before<'a>, text: &[u8]) -> &'a Kept
        requires { AreFoundBy self.old.is_earlier self.old.resolution before.kept.now.entries }
        ensures steps { result.now.steps
            ≡ steps_under before.entry.kept.now.text before.entry.kept.now.steps text.now }
        ensures found { AreFoundBy self.new.is_earlier self.new.resolution result.now.entries }
        ensures rest { self.new ≡ record self.old { is_earlier = self.new.is_earlier } }
    {
        if let Some(own) = &before.kept.text
            && own.as_slice() == text
        {
            return before.kept;
        }
        self.is_earlier = false;
        before.nothing
    }

    fn make_room(&mut self, count: usize) -> Result<(), AllocError>
        ensures { OnOk result (self.new ≡ self.old) }
    {
        self.steps.reserve(count)?;
        self.marks.reserve(count)?;
        Ok(())
    }

    /// The earlier step to try next, if it is one of this command and was given what a step for the entry at this
    /// place, or for none, is given now.
    fn given_again<'a>(
        &self,
        command: StepCommand<'a>,
        target: Target,
        place: Option<usize>,
        course: &Course,
    ) -> Option<Marked<'a>>
        requires placed { IsPlace place (course_world course.now) }
        requires same { AreSame command.job.earlier.now.entries course.now.entries self.now.same }
        requires given { IsTrue self.now.in_step →
            IsGivenAt command.job.earlier.now.steps self.now.reuse.next (course_world course.now) }
        ensures at { IfSome result (IsMarkedAt command.entry.job.earlier.now self.now.reuse.next) }
        ensures command { IfSome result (λ again. again.step.now.command ≡ command.entry.site.now.command) }
        ensures input { IfSome result (λ again. again.step.now.input ≡ input_at target place (course_world course.now)) }
    {
        let again = marked_at(command.job.earlier, self.reuse.next)?;
        let Marked { step, mark } = again;
        let known = Known {
            same: mark.is_same(place, self.same.as_slice()),
            given: self.in_step,
        };
        if step.command == command.site.command
            && is_input(&step.input, course, target, place, known)
        {
            return Some(again);
        }
        None
    }

    fn make_step(
        &mut self,
        command: StepCommand<'_>,
        place: Option<usize>,
        input: Input,
        course: &Course,
    ) -> Result<Shared<Step>, AllocError>
        requires entry { input.entry ≡ entry_in course.now.entries place }
        requires consistent { IsConsistent (program_of command.job.style.now) command.job.earlier.now (course_world course.now) self.old }
        ensures command { IfOk result (λ s. s.command ≡ command.entry.site.now.command) }
        ensures input { IfOk result (λ s. s.input ≡ input) }
        ensures next { IfOk result (λ s. IsNext (program_of command.entry.job.style.now)
            command.entry.job.earlier.now.steps s self.old.reuse self.new.reuse) }
        ensures rest { OnOk result (self.new ≡ record self.old { reuse = self.new.reuse }) }
    {
        // Read for the proof alone: its length fits 64 bits, so that the count of the steps that were carried out can't
        // overflow.
        let _steps = self.steps.len();
        let StepCommand { job, site } = command;
        let next = StepToTake {
            alloc: job.alloc,
            style: job.style,
            earlier: job.earlier,
            command: site.command,
            input: &input,
            place,
            same: self.same.as_slice(),
        };
        let Done { outcome, cost } = next.take_over_or_carry_out(&mut self.reuse)?;
        let made = Step::of(site.command, input, outcome, cost)?;
        let step = Shared::new(job.alloc, made)?;
        Ok(step)
    }

    /// The next step of the run. If the earlier step to try next had the same input, it is shared whole.
    fn next_step(
        &mut self,
        command: StepCommand<'_>,
        target: Target,
        place: Option<usize>,
        course: &Course,
    ) -> Result<Next, AllocError>
        requires placed { IsPlace place (course_world course.now) }
        requires consistent { IsConsistent (program_of command.job.style.now) command.job.earlier.now (course_world course.now) self.old }
        ensures command { IfOk result (λ n. n.step.command ≡ command.entry.site.now.command) }
        ensures input { IfOk result (λ n. n.step.input ≡ input_at target place (course_world course.now)) }
        ensures next { IfOk result (λ n. IsNext (program_of command.entry.job.style.now)
            command.entry.job.earlier.now.steps n.step self.old.reuse self.new.reuse) }
        ensures tag { IfOk result (λ n. n.tag ≡ step_tag n.step) }
        ensures shared { IfOk result (λ n. IsTrue n.shared →
            IsSharedFrom command.entry.job.earlier.now.steps n.step self.old.reuse.next self.new.reuse.next) }
        ensures rest { OnOk result (self.new ≡ record self.old { reuse = self.new.reuse }) }
    {
        // Read for the proof alone: the length fits 64 bits, so that the cursor can't overflow.
        let _earlier = command.job.earlier.steps.len();
        match self.given_again(command, target, place, course) {
            Some(again) => {
                self.reuse.next += 1;
                let step = again.step.share()?;
                Ok(Next {
                    step,
                    tag: again.mark.tag,
                    shared: true,
                })
            }
            None => {
                let input = cut_out(command.job.alloc, course, target, place)?;
                let tag = tag_of(command.site.command, &input);
                let step = self.make_step(command, place, input, course)?;
                Ok(Next {
                    step,
                    tag,
                    shared: false,
                })
            }
        }
    }
}

impl Recorder for KeptSteps {
    ghost use Rattle.std.specs.Prelude.{◌++◌, [], ◌∷◌, List};
    ghost use Rattle.bt_style.specs.Program.{program_of};
    ghost use Rattle.bt_run.specs.declared.course.Step.{Step};
    ghost use Rattle.bt_run.specs.inner.Work.{IsConsistent};

    ghost Seen = { List Step };

    ghost seen = { λ s. s.steps };

    ghost note = { λ steps step. steps ++ step ∷ [] };

    ghost ready = { λ s job w. IsConsistent (program_of job.style.now) job.earlier.now w s };

    /// Also notes which entries the earlier run has at the same place. (Steps before READ have no entry.)
    fn read(&mut self, job: Job<'_>, number: usize, course: &mut Course) -> Result<(), AllocError> {
        let found = read(job, number, course, &mut self.resolution)?;
        let alike = found.when(self.is_earlier);
        let same = same_entries(
            job.alloc,
            job.earlier.entries.as_slice(),
            course.entries.as_slice(),
            &alike,
        )?;
        drop(alike);
        let marks = marks_of(job.alloc, self.steps.as_slice())?;
        self.marks = marks;
        self.same = same;
        self.is_own = true;
        self.is_earlier = false;
        self.make_room(job.earlier.steps.len())?;
        Ok(())
    }

    fn runs_all(&self, job: Job<'_>) -> bool {
        job.earlier.steps.len() == 0
    }

    /// Adds the step's cost to the meter if it is run, and not if it is reused.
    fn take_step(
        &mut self,
        command: StepCommand<'_>,
        target: Target,
        place: Option<usize>,
        course: &mut Course,
    ) -> Result<(), AllocError> {
        // This call does nothing; the proof needs its contract, a law of the machine.
        step_depends_on_its_input();
        let earlier = command.job.earlier.steps.as_slice();
        let from = self.reuse.next;
        let Next { step, tag, shared } = self.next_step(command, target, place, course)?;
        put_back(command, course, place, &step.outcome)?;
        let next = self.reuse.next;
        count_step(&mut self.calls, earlier, Turn { from, next, shared }, &step)?;
        self.in_step = shared;
        self.steps.push(step)?;
        self.marks.push(Mark { place, tag })?;
        Ok(())
    }
}
