//! The commands of a style in order.

ghost use Rattle.std.specs.Prelude.{◌≡◌, OnOk, IfOk};
ghost use Rattle.bt_style.specs.Program.{program_of};
ghost use Rattle.bt_run.specs.inner.Course.{recorded, IsOrdered};
ghost use Rattle.bt_run.specs.Commands.{commands_from};
ghost use Rattle.bt_run.specs.Course.{course_world};
ghost use Rattle.bt_run.specs.inner.Cases.{site_of, sorted_run, command as command_done};
ghost use Rattle.bt_run.specs.Meaning.{first_globals, run_begun};
ghost use Rattle.bt_run.specs.inner.JobView.{job_of, commands_of};

use crate::course::{CommandPlace, Course};
use crate::job::Job;
use crate::kept::Kept;
use crate::recorder::Recorder;
use crate::sort_command::sorted_places;
use crate::start::{begin, first_globals};
use crate::step_command::StepCommand;
use bt_log::Message;
use bt_style::{Action, Command};
use bt_text::{Bytes, Sequence, Shared};
use std::alloc::{AllocError, Global};

/// The places of the entries, sorted. This starts from the previous run's order, which is nearly sorted if the list is the
/// same or only its end has changed.
fn sorted_again(
    alloc: Global,
    earlier: &Kept,
    course: &Course,
) -> Result<Sequence<usize>, AllocError>
    ensures { IfOk result (λ order. order ≡ (sorted_run course.now).order) }
{
    let entries = course.entries.as_slice();
    let before = earlier.order_for(alloc, entries.len())?;
    let order = sorted_places(alloc, entries, before.as_slice())?;
    Ok(order)
}

fn sort(job: Job<'_>, course: &mut Course) -> Result<(), AllocError>
    requires { IsOrdered course.old }
    ensures { OnOk result (course.new ≡ sorted_run course.old) }
{
    course.order = sorted_again(job.alloc, job.earlier, course)?;
    Ok(())
}

fn site_of(job: Job<'_>, number: usize, line: usize) -> Result<CommandPlace, AllocError>
    ensures { IfOk result (λ site. site ≡ site_of (job_of job.entry) number line) }
{
    Ok(CommandPlace {
        style: Shared::<Bytes>::copied(job.alloc, job.name)?,
        command: number,
        line,
    })
}

fn carry_out<R: Recorder>(
    job: Job<'_>,
    number: usize,
    command: Command,
    course: &mut Course,
    recorder: &mut R,
) -> Result<(), AllocError>
    requires ordered { IsOrdered course.old }
    requires ready { R.ready recorder.old job (course_world course.old) }
    ensures run { OnOk result (recorded course.new (R.seen recorder.new)
        ≡ command_done R.note (job_of job.entry) number command (recorded course.old (R.seen recorder.old))) }
    ensures ordered { OnOk result (IsOrdered course.new) }
    ensures ready { OnOk result (R.ready recorder.new job.entry (course_world course.new)) }
{
    if course.stopped {
        return Ok(());
    }
    match command.action {
        Action::Entry
        | Action::Function(_)
        | Action::Integers
        | Action::Macro(_)
        | Action::Strings => Ok(()),
        Action::Execute(target) => {
            let site = &site_of(job, number, command.line)?;
            recorder.take_step(StepCommand { job, site }, target, None, course)
        }
        Action::Iterate(target) => {
            let site = &site_of(job, number, command.line)?;
            StepCommand { job, site }.iterate(target, course, recorder)
        }
        Action::Reverse(target) => {
            let site = &site_of(job, number, command.line)?;
            StepCommand { job, site }.reverse(target, course, recorder)
        }
        Action::Read => {
            recorder.read(job, number, course)?;
            Ok(())
        }
        Action::Sort => {
            sort(job, course)?;
            Ok(())
        }
    }
}

/// Carries out a style's commands in order, up to a step that stops the run. After out of memory the course is that of
/// the commands and steps before it, with perhaps a part of the next one; `answers_after` drops it.
pub fn run_commands<R: Recorder>(
    job: Job<'_>,
    course: &mut Course,
    recorder: &mut R,
) -> Result<(), AllocError>
    requires ordered { IsOrdered course.old }
    requires ready { R.ready recorder.old job (course_world course.old) }
    ensures run { OnOk result (recorded course.new (R.seen recorder.new) ≡ commands_from R.note
        (job_of job.entry) 0 job.entry.style.now.commands (recorded course.old (R.seen recorder.old))) }
    ensures ordered { OnOk result (IsOrdered course.new) }
    ensures ready { OnOk result (R.ready recorder.new job.entry (course_world course.new)) }
{
    'commands: for (number, command) in job.style.commands.as_slice().iter().enumerate() {
        carry_out(job, number, *command, course, recorder)?;
    }
    Ok(())
}

/// Carries out a style's commands after a log.
pub fn run_style<R: Recorder>(
    job: Job<'_>,
    log: Sequence<Message>,
    recorder: &mut R,
) -> Result<Course, AllocError>
    requires { R.ready recorder.old job
        (course_world (run_begun (first_globals (program_of job.style.now)) log).course) }
    ensures run { IfOk result (λ course. recorded course (R.seen recorder.new)
        ≡ commands_of R.note job.entry log (R.seen recorder.old)) }
    ensures ordered { IfOk result (λ course. IsOrdered course) }
    ensures ready { IfOk result (λ course. R.ready recorder.new job.entry (course_world course)) }
{
    let globals = first_globals(job.alloc, job.style)?;
    let mut course = begin(job.alloc, globals, log)?;
    run_commands(job, &mut course, recorder)?;
    Ok(course)
}
