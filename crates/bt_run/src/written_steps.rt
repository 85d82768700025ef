//! The recorder of a single run: it writes lines as they come, adds up calls, and keeps no step.

ghost use Rattle.std.specs.Prelude.{◌≡◌, [], slice_index_or, ℕ, ◌<◌, IfOk};

use crate::bibliography::write_own_lines;
use crate::counts::{Calls, add_calls};
use crate::course::Course;
use crate::job::Job;
use crate::read_command::read_once;
use crate::recorder::Recorder;
use crate::step::{give_up_variables, lend_input, move_back};
use crate::step_command::StepCommand;
use bt_actions::{Tally, Variables};
use bt_machine::{StepTools, run_step, settle_step, step_depends_on_its_input};
use bt_style::{BUILTIN_COUNT, Style, Target};
use bt_text::{Bytes, Shared, Values};
use std::alloc::{AllocError, Global};

/// What the steps of a run have written, and how often they called each built-in function.
#[derive(Drop)]
pub struct WrittenSteps {
    pub bbl: Bytes,
    pub calls: Calls,
    /// Stands in for the variables that the run gave up.
    others: Shared<Variables>,
    tools: StepTools,
}

impl WrittenSteps {
    /// No step.
    pub fn none(alloc: Global, style: &Style) -> Result<WrittenSteps, AllocError>
        ensures bbl { IfOk result (λ written. written.bbl ≡ []) }
        ensures calls { IfOk result (λ written. (place : ℕ) → place < 37 → slice_index_or written.calls place 0 ≡ 0) }
    {
        let others = Variables {
            numbers: Values::new(alloc),
            texts: Values::new(alloc),
        };
        let others = Shared::new(alloc, others)?;
        let tools = StepTools::of(alloc, style)?;
        Ok(WrittenSteps {
            bbl: Bytes::new(alloc),
            calls: [0; BUILTIN_COUNT],
            others,
            tools,
        })
    }
}

impl Recorder for WrittenSteps {
    ghost use Rattle.bt_run.specs.inner.Written.{Written, written, with_step};

    ghost Seen = { Written };

    ghost seen = { λ s. written s.bbl s.calls };

    ghost note = { with_step };

    ghost ready = { λ s job w. Unit {0} };

    fn read(&mut self, job: Job<'_>, number: usize, course: &mut Course) -> Result<(), AllocError> {
        read_once(job, number, course)
    }

    fn runs_all(&self, _job: Job<'_>) -> bool {
        true
    }

    #[tactic(auto, using(crate::proofs::CourseLemmas::placed_given_up))]
    fn take_step(
        &mut self,
        command: StepCommand<'_>,
        target: Target,
        place: Option<usize>,
        course: &mut Course,
    ) -> Result<(), AllocError> {
        // A law of the machine, for the proof alone: the call does nothing.
        step_depends_on_its_input();
        let job = command.job;
        let alloc = job.alloc;
        let input = lend_input(course, target, place);
        let mut tally = Tally::new();
        let (left, flow) = run_step(alloc, job.style, &mut self.tools, input, &mut tally)?;
        give_up_variables(alloc, course, place, &self.others)?;
        let (end, lines) = settle_step(alloc, &mut self.tools, left, flow)?;
        move_back(command, course, place, end)?;
        write_own_lines(&mut self.bbl, lines.as_slice())?;
        add_calls(&mut self.calls, &tally.calls)?;
        Ok(())
    }
}
