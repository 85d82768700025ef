//! A run from scratch that keeps no steps.

ghost use Rattle.std.specs.Prelude.{◌≡◌, ◌≤◌, [], length, IfOk};
ghost use Rattle.std.specs.Option.{ForSome};
ghost use Rattle.bt_run.specs.Meaning.{style_run, meaning};
ghost use Rattle.bt_run.specs.inner.Cases.{run_with};
ghost use Rattle.bt_run.specs.inner.Steps.{run_shown};
ghost use Rattle.bt_run.specs.Shown.{meaning_of};
ghost use Rattle.bt_run.specs.inner.JobView.{job_of};

use crate::answers::{Answers, show};
use crate::commands::run_style;
use crate::counts::tell_counts;
use crate::course::Course;
use crate::job::{Job, shared_text};
use crate::kept::Kept;
use crate::start::with_fault;
use crate::written_steps::WrittenSteps;
use bt_job::{AuxTexts, Citations, File, read_citations};
use bt_log::Message;
use bt_resolve::Cites;
use bt_style::{StyleFault, StyleRefusal, fields_are_apart, read_style};
use bt_text::{Bytes, Sequence, Shared};
use std::alloc::{AllocError, Global};

fn show_style(
    job: Job<'_>,
    log: Sequence<Message>,
    wanted: Sequence<Bytes>,
) -> Result<Answers, AllocError>
    ensures { IfOk result (λ answers. meaning_of answers ≡ run_shown (style_run (job_of job.entry) log) wanted) }
{
    let mut written = WrittenSteps::none(job.alloc, job.style)?;
    let mut course = run_style(job, log, &mut written)?;
    tell_counts(job.alloc, &mut course.log, &written.calls)?;
    let Course { log, entries, .. } = course;
    let answers = show(job.alloc, written.bbl, log, wanted)?;
    Ok(answers.with_spent(entries))
}

#[tactic(auto, using(crate::proofs::WrittenLemmas::no_style_shown))]
fn show_asked(
    alloc: Global,
    files: &[File],
    citations: Citations,
    min: u32,
    nothing: &Kept,
) -> Result<Answers, AllocError>
    requires star { ForSome citations.star (λ before. before ≤ length citations.keys) }
    requires nothing { nothing.now.steps ≡ [] }
    ensures { IfOk result (λ answers. meaning_of answers
        ≡ run_shown (run_with files.now citations min citations.style) citations.wanted) }
{
    let Citations {
        keys,
        star,
        databases: names,
        style,
        log,
        wanted,
    } = citations;
    let Some(name) = style else {
        let answers = show(alloc, Bytes::new(alloc), log, wanted)?;
        return Ok(answers);
    };
    let name = name.as_slice();
    // This call does nothing; the proof needs its contract, a law of the reader of styles.
    fields_are_apart();
    let cites = Cites { keys, star };
    let text = shared_text(alloc, files, name)?;
    match read_style(alloc, text.as_slice()) {
        Ok(style) => {
            let job = Job {
                alloc,
                files,
                cites: &cites,
                databases: names.as_slice(),
                min,
                name,
                style: &style,
                earlier: nothing,
            };
            let answers = show_style(job, log, wanted)?;
            Ok(answers)
        }
        Err(StyleRefusal::Fault { kind, line }) => {
            let log = with_fault(alloc, name, StyleFault { kind, line }, log)?;
            let answers = show(alloc, Bytes::new(alloc), log, wanted)?;
            Ok(answers)
        }
        Err(StyleRefusal::OutOfMemory) => Err(AllocError),
    }
}

/// What the files mean from this root, the name of its file without `.aux`, with this min-crossrefs. All is read and
/// run from scratch, and nothing is kept: where no edit follows, this takes less time and memory than `answers_after`.
#[tactic(auto, using(crate::proofs::AnswerLemmas::star_within))]
pub fn run_once(alloc: Global, files: &[File], root: &[u8], min: u32) -> Result<Answers, AllocError>
    ensures { IfOk result (λ answers. meaning_of answers ≡ meaning files.now root.now min) }
{
    let citations = read_citations(alloc, files, root, &mut AuxTexts::new(alloc))?;
    let nothing = Kept::nothing(alloc);
    let answers = show_asked(alloc, files, citations, min, &nothing);
    drop(nothing);
    answers
}
