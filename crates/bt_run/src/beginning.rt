//! A whole run: from what the `.aux` files ask for to the answers. It reuses steps of the run before.

ghost use Rattle.std.specs.Prelude.{◌≡◌, ◌≤◌, length, map, false, IfOk, OnOk};
ghost use Rattle.std.specs.Option.{ForSome};
ghost use Rattle.bt_style.specs.Program.{program_of};
ghost use Rattle.bt_run.specs.Kept.{named_text, report_after, style_text};
ghost use Rattle.bt_run.specs.Meaning.{meaning, style_run, trace};
ghost use Rattle.bt_run.specs.Shown.{meaning_of};
ghost use Rattle.bt_run.specs.Steps.{StepsAre};
ghost use Rattle.bt_run.specs.inner.Cases.{bytes_written, run_with};
ghost use Rattle.bt_run.specs.inner.Course.{IsArranged, IsOrdered, recorded};
ghost use Rattle.bt_run.specs.inner.Found.{AreFoundBy};
ghost use Rattle.bt_run.specs.inner.JobView.{job_of};
ghost use Rattle.bt_run.specs.inner.Names.{HaveDistinctNames};
ghost use Rattle.bt_run.specs.inner.Steps.{IsTaken};
ghost use Rattle.bt_run.specs.inner.Work.{AreKept, IsBegun, IsWork};

use crate::answers::{Answers, Report, Run, show};
use crate::bibliography::{Written, bbl_of};
use crate::commands::run_style;
use crate::counts::tell_counts;
use crate::course::Course;
use crate::declarations::copied_texts;
use crate::job::{Job, cites_of, shared_text};
use crate::kept::{Before, Kept};
use crate::kept_steps::KeptSteps;
use crate::known_calls::calls_of_all;
use crate::start::{idle, shared_messages, with_fault};
use bt_actions::Entry;
use bt_job::{Citations, File};
use bt_log::Message;
use bt_style::{StyleFault, StyleRefusal, fields_are_apart};
use bt_text::{Bytes, Sequence, Shared};
use std::alloc::{AllocError, Global};

/// Carries out the commands of a style after a log, and logs the counts.
#[tactic(auto, using(crate::proofs::AnswerLemmas::begun_consistent, crate::proofs::AnswerLemmas::carried_by))]
fn carry_out_style(
    job: Job<'_>,
    log: Sequence<Message>,
    steps: &mut KeptSteps,
) -> Result<Course, AllocError>
    requires begun { IsBegun steps.old }
    requires found { AreFoundBy steps.old.is_earlier steps.old.resolution job.earlier.now.entries }
    ensures run { IfOk result (λ course. recorded course steps.new.steps ≡ style_run (job_of job.entry) log) }
    ensures work { OnOk result
        (IsWork (program_of job.entry.style.now) job.entry.earlier.now.steps steps.new.steps steps.new.reuse) }
    ensures ordered { IfOk result (λ course. IsOrdered course) }
    ensures kept { IfOk result (λ course. AreKept course.entries steps.new) }
{
    steps.calls = job.earlier.calls;
    let mut course = run_style(job, log, steps)?;
    let earlier = job.earlier.steps.as_slice();
    let calls = calls_of_all(
        earlier,
        steps.reuse.next,
        steps.steps.as_slice(),
        steps.calls,
    )?;
    tell_counts(job.alloc, &mut course.log, &calls)?;
    steps.calls = Some(calls);
    Ok(course)
}

/// A run up to its log, and the text of its style.
struct StyleRun {
    course: Course,
    text: Option<Shared<Bytes>>,
}

impl StyleRun {
    fn new(course: Course, text: Option<Shared<Bytes>>) -> StyleRun
        ensures course { result.course ≡ course }
        ensures text { result.text ≡ text }
    {
        StyleRun { course, text }
    }
}

/// What a run gives, without its steps.
pub struct Ran {
    answers: Answers,
    report: Report,
    text: Option<Shared<Bytes>>,
    entries: Sequence<Entry>,
    order: Sequence<usize>,
    lengths: Sequence<usize>,
}

impl Ran {
    /// The same, with the steps that are kept for the next run.
    pub fn with_steps(self, steps: KeptSteps) -> Run
        requires true_steps { StepsAre self.text steps.steps }
        requires arranged { IsArranged (length self.entries) self.order }
        requires kept { AreKept self.entries steps }
        requires lengths { self.lengths ≡ map bytes_written steps.steps }
        requires named { HaveDistinctNames steps.steps }
        ensures answers { result.answers ≡ self.answers }
        ensures report { result.report ≡ self.report }
        ensures text { result.kept.text ≡ self.text }
        ensures steps { result.kept.steps ≡ steps.steps }
        ensures present { result.kept.is_present ≡ false }
    {
        let Ran {
            answers,
            report,
            text,
            entries,
            order,
            lengths,
        } = self;
        let KeptSteps {
            steps,
            marks,
            calls,
            resolution,
            is_own,
            readings,
            ..
        } = steps;
        let kept = Kept {
            text,
            steps,
            marks,
            entries,
            order,
            calls,
            resolution,
            is_own,
            is_present: false,
            lengths,
            readings,
        };
        Run {
            answers,
            kept,
            report,
        }
    }
}

/// What a run begins with: the files, the root (the name of its file without `.aux`), min-crossrefs, and the run before.
#[derive(Clone, Copy)]
pub struct Beginning<'a, 'b> {
    pub alloc: Global,
    pub files: &'a [File],
    pub root: &'a [u8],
    pub min: u32,
    pub before: Before<'b>,
}

impl Beginning<'_, '_> {
    /// Runs what the `.aux` files ask for.
    #[tactic(auto, using(crate::proofs::AnswerLemmas::no_style, crate::proofs::AnswerLemmas::lent_style, crate::proofs::AnswerLemmas::style_ran, crate::proofs::AnswerLemmas::style_refused, crate::proofs::AnswerLemmas::nothing_taken, crate::proofs::AnswerLemmas::begun_kept, crate::proofs::CommandLemmas::begun_ordered, crate::proofs::AnswerLemmas::run_taken, crate::proofs::AnswerLemmas::earlier_steps))]
    fn run_asked(self, citations: &Citations, steps: &mut KeptSteps) -> Result<StyleRun, AllocError>
        requires begun { IsBegun steps.old }
        requires found { AreFoundBy steps.old.is_earlier steps.old.resolution self.before.kept.now.entries }
        requires star { ForSome citations.now.star (λ before. before ≤ length citations.now.keys) }
        ensures run { IfOk result (λ r. recorded r.course steps.new.steps
            ≡ run_with self.entry.files.now citations.now self.entry.min citations.now.style) }
        ensures text { IfOk result (λ r. r.text ≡ named_text self.entry.files.now citations.now.style) }
        ensures taken { IfOk result (λ r. IsTaken self.entry.before.kept.now.text self.entry.before.kept.now.steps r.text steps.new.steps steps.new.reuse) }
        ensures ordered { IfOk result (λ r. IsOrdered r.course) }
        ensures kept { IfOk result (λ r. AreKept r.course.entries steps.new) }
    {
        let Beginning {
            alloc,
            files,
            min,
            before,
            ..
        } = self;
        let log = shared_messages(alloc, citations.log.as_slice())?;
        let Some(name) = &citations.style else {
            let course = idle(alloc, log)?;
            return Ok(StyleRun::new(course, None));
        };
        // This call does nothing; the proof needs its contract, a law of the reader of styles.
        fields_are_apart();
        let cites = cites_of(citations)?;
        let text = shared_text(alloc, files, name.as_slice())?;
        let bytes = text.as_slice();
        match steps.readings.style(alloc, &text) {
            Ok(style) => {
                let earlier = steps.earlier_under(before, bytes);
                let job = Job {
                    alloc,
                    files,
                    cites: &cites,
                    databases: citations.databases.as_slice(),
                    min,
                    name: name.as_slice(),
                    style: &style,
                    earlier,
                };
                let course = carry_out_style(job, log, steps)?;
                Ok(StyleRun::new(course, Some(text)))
            }
            Err(StyleRefusal::Fault { kind, line }) => {
                let log = with_fault(alloc, name.as_slice(), StyleFault { kind, line }, log)?;
                let course = idle(alloc, log)?;
                Ok(StyleRun::new(course, Some(text)))
            }
            Err(StyleRefusal::OutOfMemory) => Err(AllocError),
        }
    }

    /// Runs what the files ask for. Everything that can fail is in here, because the steps are borrowed: a function that owned
    /// them would drop them at each error, which takes long to prove. The only error is out of memory.
    #[tactic(auto, using(crate::proofs::AnswerLemmas::star_within))]
    pub fn run(self, steps: &mut KeptSteps) -> Result<Ran, AllocError>
        requires begun { IsBegun steps.old }
        requires found { AreFoundBy steps.old.is_earlier steps.old.resolution self.before.kept.now.entries }
        ensures shown { IfOk result (λ ran. meaning_of ran.answers ≡ meaning self.entry.files.now self.entry.root.now self.entry.min) }
        ensures report { IfOk result (λ ran. ran.report
            ≡ report_after self.entry.before.kept.now.text self.entry.before.kept.now.steps self.entry.files.now self.entry.root.now self.entry.min) }
        ensures text { IfOk result (λ ran. ran.text ≡ style_text self.entry.files.now self.entry.root.now) }
        ensures steps { OnOk result (steps.new.steps ≡ trace self.entry.files.now self.entry.root.now self.entry.min) }
        ensures true_steps { IfOk result (λ ran. StepsAre ran.text steps.new.steps) }
        ensures arranged { IfOk result (λ ran. IsArranged (length ran.entries) ran.order) }
        ensures kept { IfOk result (λ ran. AreKept ran.entries steps.new) }
        ensures lengths { IfOk result (λ ran. ran.lengths ≡ map bytes_written steps.new.steps) }
    {
        let Beginning {
            alloc,
            files,
            root,
            before,
            ..
        } = self;
        let citations = steps.readings.aux_texts.citations(alloc, files, root)?;
        let wanted = copied_texts(alloc, citations.wanted.as_slice())?;
        let ran = self.run_asked(&citations, steps)?;
        drop(citations);
        let StyleRun { course, text } = ran;
        let Course {
            entries,
            order,
            log,
            ..
        } = course;
        let before = before.kept.lengths.as_slice();
        let written = bbl_of(alloc, steps.steps.as_slice(), before)?;
        let Written { bbl, lengths } = written;
        let answers = show(alloc, bbl, log, wanted)?;
        let report = Report::of(answers.status, steps.steps.as_slice(), &steps.reuse);
        let aux_texts = steps.readings.aux_texts.present(alloc, files)?;
        steps.readings.aux_texts = aux_texts;
        Ok(Ran {
            answers,
            report,
            text,
            entries,
            order,
            lengths,
        })
    }
}
