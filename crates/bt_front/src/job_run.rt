//! The run of a job whose files change.

ghost use Rattle.std.specs.Prelude.{◌≡◌, ℕ, List, false, IfErr, IfOk, IsTrue};
ghost use Rattle.bt_job.specs.declared.files.File.{File};
ghost use Rattle.bt_front.specs.Job.{names_of};
ghost use Rattle.bt_front.specs.JobRun.{IsRunOfJob, IsRunUnder};
ghost use Rattle.bt_run.specs.inner.Unseen.{AreOtherwise, AreTextsOf};

use crate::job::{UnderNames, put_names_back};
use bt_job::File;
use bt_run::{Change, Kept, Run, answers_after};
use std::alloc::{AllocError, Global};

/// The run of a job. What it shows has the author's names of files; its steps and what it read have the session's.
#[derive(Drop)]
pub struct JobRun {
    pub run: Run,
    /// Whether the job needs no other names. Then its files ran as they are.
    pub is_plain: bool,
}

impl UnderNames {
    /// `drop` is called by name here, since it is proved for all types at once: a function in which `?` drops a run takes a
    /// minute to prove.
    fn run_after(&self, alloc: Global, min: u32, kept: &mut Kept) -> Result<Run, AllocError>
        ensures run { IfOk result (IsRunUnder self.now min) }
        ensures same_text { kept.new.text ≡ kept.old.text }
        ensures same_steps { kept.new.steps ≡ kept.old.steps }
        ensures others { (others : List File) (from : List ℕ) →
            AreTextsOf others from kept.old → AreTextsOf others from kept.new }
    {
        let (files, root) = (self.files.as_slice(), self.root.as_slice());
        let mut run = answers_after(alloc, files, root, min, kept)?;
        match put_names_back(alloc, &self.names, &mut run.answers) {
            Ok(()) => Ok(run),
            Err(error) => {
                drop(run);
                Err(error)
            }
        }
    }
}

impl JobRun {
    /// The run of these files from scratch. `root` is the name of the job's first `.aux` file without its ending. The only
    /// error is out of memory.
    pub fn of(alloc: Global, files: &[File], root: &[u8], min: u32) -> Result<JobRun, AllocError>
        ensures { IfOk result (IsRunOfJob files.now root.now min) }
    {
        JobRun::after(alloc, files, root, min, &mut Kept::nothing(alloc))
    }

    /// The run of these files after one that left `kept`: a step that nothing new can reach isn't run, and a text that was
    /// read isn't re-read. What READ found is taken out of `kept`; its style's text and its steps stay, even after an error. The
    /// only error is out of memory.
    pub fn after(
        alloc: Global,
        files: &[File],
        root: &[u8],
        min: u32,
        kept: &mut Kept,
    ) -> Result<JobRun, AllocError>
        ensures run { IfOk result (IsRunOfJob files.now root.now min) }
        ensures same_text { kept.new.text ≡ kept.old.text }
        ensures same_steps { kept.new.steps ≡ kept.old.steps }
        ensures others { (others : List File) (from : List ℕ) →
            AreTextsOf others from kept.old → AreTextsOf others from kept.new }
    {
        let under = UnderNames::of(alloc, files, root)?;
        let run = under.run_after(alloc, min, kept)?;
        Ok(JobRun {
            run,
            is_plain: under.names.is_empty(),
        })
    }

    /// Tries to make this the run of the files after a change that leaves the job's names, and returns whether it did. The only
    /// error is out of memory. After false or an error, this is still the run of the files before: use `after`.
    pub fn follow(&mut self, change: Change<'_>) -> Result<bool, AllocError>
        requires run { IsRunOfJob change.was.now change.root.now change.min self.old }
        requires names { names_of change.files.now change.root.now ≡ names_of change.was.now change.root.now }
        requires rest { AreOtherwise change.name.now change.was.now change.files.now }
        ensures run { IfOk result (λ followed. IsTrue followed →
            IsRunOfJob change.entry.files.now change.entry.root.now change.entry.min self.new) }
        ensures stay { IfOk result (λ followed. followed ≡ false →
            IsRunOfJob change.entry.was.now change.entry.root.now change.entry.min self.new) }
        ensures err { IfErr result (λ error.
            IsRunOfJob change.entry.was.now change.entry.root.now change.entry.min self.new) }
    {
        if !self.is_plain {
            return Ok(false);
        }
        let report = self.run.follow(change)?;
        Ok(report.is_some())
    }
}
