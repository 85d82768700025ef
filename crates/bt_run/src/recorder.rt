//! What is done with the steps of a run. The run itself, its commands and their order, is the same for each recorder.

use crate::course::Course;
use crate::job::Job;
use crate::step_command::StepCommand;
use bt_style::Target;
use std::alloc::AllocError;

/// Takes the steps of a run, and keeps of them what it needs.
pub trait Recorder {
    ghost use Rattle.std.specs.Prelude.{◌≡◌, OnOk, length};
    ghost use Rattle.bt_style.specs.Program.{program_of};
    ghost use Rattle.bt_actions.specs.World.{World};
    ghost use Rattle.bt_machine.specs.OwnEntry.{IsPlace};
    ghost use Rattle.bt_run.specs.declared.course.Step.{Step as StepSeen};
    ghost use Rattle.bt_run.specs.declared.job.Job.{Job as JobSeen};
    ghost use Rattle.bt_run.specs.Course.{course_world, stepped};
    ghost use Rattle.bt_run.specs.ReadCommand.{read};
    ghost use Rattle.bt_run.specs.inner.Course.{recorded, IsOrdered};
    ghost use Rattle.bt_run.specs.inner.JobView.{job_of};

    /// What it keeps of the steps so far.
    ghost Seen: { Type 0 };

    ghost seen: { Self → Self.Seen };

    /// The same with one more step.
    ghost note: { Self.Seen → StepSeen → Self.Seen };

    /// What it knows of a job and of the world between two steps.
    ghost ready: { Self → JobSeen → World → Type 0 };

    /// READ. After out of memory nothing is said of the course.
    fn read(&mut self, job: Job<'_>, number: usize, course: &mut Course) -> Result<(), AllocError>
        requires { ready self.old job (course_world course.old) }
        ensures run { OnOk result (course.new ≡ read (job_of job.entry) number course.old) }
        ensures seen { OnOk result (seen self.new ≡ seen self.old) }
        ensures ready { OnOk result (ready self.new job.entry (course_world course.new)) };

    /// Whether every step has to run, because there are no earlier steps to reuse. Only speed depends on it.
    fn runs_all(&self, job: Job<'_>) -> bool;

    /// Takes a step for the entry at a place, or for none. After out of memory a part of what it left may be in the
    /// course.
    fn take_step(
        &mut self,
        command: StepCommand<'_>,
        target: Target,
        place: Option<usize>,
        course: &mut Course,
    ) -> Result<(), AllocError>
        requires placed { IsPlace place (course_world course.old) }
        requires ordered { IsOrdered course.old }
        requires ready { ready self.old command.job (course_world course.old) }
        ensures run { OnOk result (recorded course.new (seen self.new)
            ≡ stepped note (program_of command.entry.job.style.now) command.entry.site.now target place
            (recorded course.old (seen self.old))) }
        ensures ordered { OnOk result (IsOrdered course.new) }
        ensures entries { OnOk result (length course.new.entries ≡ length course.old.entries) }
        ensures ready { OnOk result (ready self.new command.entry.job (course_world course.new)) };
}
