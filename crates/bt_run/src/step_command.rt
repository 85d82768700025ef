//! A command of the style that takes steps: EXECUTE, ITERATE or REVERSE.

ghost use Rattle.std.specs.Prelude.{◌≡◌, ◌<◌, Some, All, OnOk, length, reverse};
ghost use Rattle.bt_run.specs.Course.{course_world};
ghost use Rattle.bt_run.specs.inner.Course.{recorded, IsOrdered};
ghost use Rattle.bt_run.specs.inner.JobView.{next_step, steps_for};

use crate::course::{CommandPlace, Course};
use crate::job::Job;
use crate::prefetch::Prefetch;
use crate::recorder::Recorder;
use bt_style::Target;
use std::alloc::AllocError;

/// A command that takes steps: what its run reads, and where it stands in the style.
#[derive(Clone, Copy)]
pub struct StepCommand<'a> {
    pub job: Job<'a>,
    pub site: &'a CommandPlace,
}

impl<'a> StepCommand<'a> {
    fn take_next<R: Recorder>(
        self,
        target: Target,
        place: usize,
        course: &mut Course,
        recorder: &mut R,
    ) -> Result<(), AllocError>
        requires placed { place < length course.old.entries }
        requires ordered { IsOrdered course.old }
        requires ready { R.ready recorder.old self.job (course_world course.old) }
        ensures run { OnOk result (recorded course.new (R.seen recorder.new)
            ≡ next_step R.note self.entry target (Some place) (recorded course.old (R.seen recorder.old))) }
        ensures ordered { OnOk result (IsOrdered course.new) }
        ensures entries { OnOk result (length course.new.entries ≡ length course.old.entries) }
        ensures ready { OnOk result (R.ready recorder.new self.entry.job (course_world course.new)) }
    {
        if course.stopped {
            return Ok(());
        }
        recorder.take_step(self, target, Some(place), course)
    }

    fn run_for_each<R: Recorder>(
        self,
        target: Target,
        places: &[usize],
        course: &mut Course,
        recorder: &mut R,
    ) -> Result<(), AllocError>
        requires placed { All (λ n. n < length course.old.entries) places.now }
        requires ordered { IsOrdered course.old }
        requires ready { R.ready recorder.old self.job (course_world course.old) }
        ensures run { OnOk result (recorded course.new (R.seen recorder.new)
            ≡ steps_for R.note self.entry target places.now (recorded course.old (R.seen recorder.old))) }
        ensures ordered { OnOk result (IsOrdered course.new) }
        ensures ready { OnOk result (R.ready recorder.new self.entry.job (course_world course.new)) }
    {
        let count = if recorder.runs_all(self.job) {
            places.len()
        } else {
            0
        };
        let mut prefetch = Prefetch::of(count);
        'places: for (done, place) in places.iter().enumerate() {
            prefetch.touch(course.entries.as_slice(), &places[done..]);
            self.take_next(target, *place, course, recorder)?;
        }
        Ok(())
    }

    /// Takes a step for each entry in the present order, and none after one that stopped the run. After out of memory
    /// the steps before it are taken, and a part of what the next one left may be in the course.
    pub fn iterate<R: Recorder>(
        self,
        target: Target,
        course: &mut Course,
        recorder: &mut R,
    ) -> Result<(), AllocError>
        requires ordered { IsOrdered course.old }
        requires ready { R.ready recorder.old self.job (course_world course.old) }
        ensures run { OnOk result (recorded course.new (R.seen recorder.new)
            ≡ steps_for R.note self.entry target course.old.order (recorded course.old (R.seen recorder.old))) }
        ensures ordered { OnOk result (IsOrdered course.new) }
        ensures ready { OnOk result (R.ready recorder.new self.entry.job (course_world course.new)) }
    {
        let places = Vec::from_slice(self.job.alloc, course.order.as_slice())?;
        self.run_for_each(target, places.as_slice(), course, recorder)
    }

    /// Takes a step for each entry in the reverse of the present order, and none after one that stopped the run. After
    /// out of memory the steps before it are taken, and a part of what the next one left may be in the course.
    pub fn reverse<R: Recorder>(
        self,
        target: Target,
        course: &mut Course,
        recorder: &mut R,
    ) -> Result<(), AllocError>
        requires ordered { IsOrdered course.old }
        requires ready { R.ready recorder.old self.job (course_world course.old) }
        ensures run { OnOk result (recorded course.new (R.seen recorder.new)
            ≡ steps_for R.note self.entry target (reverse course.old.order)
            (recorded course.old (R.seen recorder.old))) }
        ensures ordered { OnOk result (IsOrdered course.new) }
        ensures ready { OnOk result (R.ready recorder.new self.entry.job (course_world course.new)) }
    {
        let mut places = Vec::from_slice(self.job.alloc, course.order.as_slice())?;
        places.reverse();
        self.run_for_each(target, places.as_slice(), course, recorder)
    }
}
