//! What the files mean, by a run that reuses steps of an earlier run.

ghost use Rattle.std.specs.Prelude.{◌≡◌, ◌≤◌, ◌-◌, ℕ, List, length, false, IfOk};
ghost use Rattle.bt_run.specs.Kept.{report_after, style_text};
ghost use Rattle.bt_run.specs.Meaning.{meaning, trace};
ghost use Rattle.bt_run.specs.Shown.{meaning_of};
ghost use Rattle.bt_run.specs.inner.Cases.{shown_of};
ghost use Rattle.bt_run.specs.inner.Unseen.{AreTextsOf};

use crate::beginning::Beginning;
use crate::course::Step;
use crate::kept::{Before, Kept};
use crate::kept_steps::KeptSteps;
use crate::reuse::Reuse;
use bt_actions::Entry;
use bt_job::File;
use bt_log::{Message, log_bytes, status, terse_bytes};
use bt_text::{Bytes, Sequence, Shared};
use std::alloc::{AllocError, Global};
use std::mem;

/// What a run shows.
#[derive(Drop)]
pub struct Answers {
    /// The bytes of the bibliography, the `.bbl` file.
    pub bbl: Bytes,
    /// The bytes of the log, the `.blg` file.
    pub blg: Bytes,
    /// The log without the lines of files and the counts of calls.
    pub terse: Bytes,
    /// The messages of the log in their parts, in order.
    pub messages: Sequence<Message>,
    /// 0 for a clean run, 1 after warnings, 2 after errors, 3 after a fatal error.
    pub status: u8,
    /// The names of the files that were looked for and not found, in order, each once.
    pub wanted: Sequence<Bytes>,
    /// The entries of a run that keeps no steps. Nobody needs them, but to free them takes 3 % of a run, which a program
    /// that ends here saves by `forget`.
    spent: Sequence<Entry>,
}

impl Answers {
    /// The same answers, with the entries of their run.
    pub(crate) fn with_spent(self, entries: Sequence<Entry>) -> Answers
        ensures { meaning_of result ≡ meaning_of self }
    {
        let mut answers = self;
        answers.spent = entries;
        answers
    }
}

/// What a run took.
#[derive(Clone, Copy, PartialEq, Eq, Debug)]
pub struct Report {
    /// The status of the run: 0 clean, 1 warnings, 2 errors, 3 a fatal error.
    pub status: u8,
    /// How many steps agree with none of the earlier run, and so had to run.
    pub ran: u64,
    /// How many steps were reused from an earlier run.
    pub reused: u64,
    /// The ticks of the steps that ran.
    pub ticks: u128,
}

impl Report {
    /// The report of a run that reuses all these steps.
    pub(crate) fn of_nothing(status: u8, steps: &[Shared<Step>]) -> Report
        ensures { result ≡ record { status = status; ran = 0; reused = length steps.now; ticks = 0 } }
    {
        Report {
            status,
            ran: 0,
            reused: steps.len() as u64,
            ticks: 0,
        }
    }

    pub(crate) fn of(status: u8, steps: &[Shared<Step>], reuse: &Reuse) -> Report
        requires fewer { reuse.now.ran ≤ length steps.now }
        ensures status { result.status ≡ status }
        ensures ran { result.ran ≡ reuse.now.ran }
        ensures reused { result.reused ≡ length steps.now - reuse.now.ran }
        ensures ticks { result.ticks ≡ reuse.now.meter }
    {
        Report {
            status,
            ran: reuse.ran as u64,
            reused: steps.len() as u64 - reuse.ran as u64,
            ticks: reuse.meter.value(),
        }
    }
}

/// What a bibliography, a log and the names of missing files show.
pub fn show(
    alloc: Global,
    bbl: Bytes,
    log: Sequence<Message>,
    wanted: Sequence<Bytes>,
) -> Result<Answers, AllocError>
    ensures { IfOk result (λ answers. meaning_of answers ≡ shown_of bbl log wanted) }
{
    let blg = log_bytes(alloc, log.as_slice())?;
    let terse = terse_bytes(alloc, log.as_slice())?;
    Ok(Answers {
        bbl,
        blg,
        terse,
        status: status(log.as_slice()),
        messages: log,
        wanted,
        spent: Sequence::new(alloc),
    })
}

/// What a run gives: what it shows, what is kept of it for the next one, and what it took.
#[derive(Drop)]
pub struct Run {
    pub answers: Answers,
    pub kept: Kept,
    /// What the run took. `follow` returns its own report and leaves this one.
    pub report: Report,
}

/// What the files mean from this root (the name of its file without `.aux`), with this min-crossrefs. If the earlier
/// run's style had the same text, its steps that agree are reused. All others run, and are reported. Texts that were
/// read before aren't read again. What READ found before is taken out of `kept`, and is in the new run if there is one.
#[tactic(auto, using(crate::proofs::DistinctNameLemmas::run_names_distinct))]
pub fn answers_after<'a>(
    alloc: Global,
    files: &'a [File],
    root: &'a [u8],
    min: u32,
    kept: &mut Kept,
) -> Result<Run, AllocError>
    ensures shown { IfOk result (λ run. meaning_of run.answers ≡ meaning files.now root.now min) }
    ensures report { IfOk result (λ run. run.report
        ≡ report_after kept.old.text kept.old.steps files.now root.now min) }
    ensures text { IfOk result (λ run. run.kept.text ≡ style_text files.now root.now) }
    ensures steps { IfOk result (λ run. run.kept.steps ≡ trace files.now root.now min) }
    ensures databases { IfOk result (λ run. AreTextsOf files.now root.now run.kept) }
    ensures same_text { kept.new.text ≡ kept.old.text }
    ensures same_steps { kept.new.steps ≡ kept.old.steps }
    ensures others { (others : List File) (from : List ℕ) →
        AreTextsOf others from kept.old → AreTextsOf others from kept.new }
{
    let readings = kept.readings.share(alloc)?;
    let is_earlier = mem::replace(&mut kept.is_own, false);
    let resolution = kept.resolution.take();
    let mut steps = KeptSteps::begun(alloc, readings, resolution, is_earlier);
    let nothing = Kept::nothing(alloc);
    let before = Before {
        kept,
        nothing: &nothing,
    };
    let beginning = Beginning {
        alloc,
        files,
        root,
        min,
        before,
    };
    match beginning.run(&mut steps) {
        Ok(ran) => {
            drop(nothing);
            Ok(ran.with_steps(steps))
        }
        Err(error) => {
            drop(nothing);
            drop(steps);
            Err(error)
        }
    }
}
