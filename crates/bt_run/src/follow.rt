//! The new run, after an edit of which the style sees nothing or only one changed entry.
//!
//! In the first case it is the old run (`unseen.rt`). In the second it has the old steps, except those that the walk
//! re-makes (`walk.rt`). All of it is made beside the old run. Then the new part of the bibliography is put into the old
//! one; if there is no memory for it, nothing has changed. Last, the rest is put in place, which can't fail (`put.rt`).

ghost use Rattle.std.specs.Prelude.{◌≡◌, ◌≤◌, None, IfErr, IfOk, IfSome, OnErr, OnOk, length};
ghost use Rattle.bt_style.specs.Program.{program_of};
ghost use Rattle.bt_run.specs.Kept.{report_after};
ghost use Rattle.bt_run.specs.inner.Change.{IsAskedOfRun};
ghost use Rattle.bt_run.specs.inner.Cases.{bbl_of};
ghost use Rattle.bt_run.specs.inner.Put.{GoesOver, IsPartOf, IsPutBeside, with_bbl_of};
ghost use Rattle.bt_run.specs.inner.Follow.{IsNewRun, IsReportOf, IsStill};
ghost use Rattle.bt_run.specs.inner.Unseen.{AreOtherwise, AreTextsOf, IsRunOf};
ghost use Rattle.bt_run.specs.inner.Walk.{with_steps};

use crate::answers::{Answers, Report, Run};
use crate::bibliography::NewPart;
use crate::change::Change;
use crate::kept_walk::PlacedWalk;
use crate::walk::Walk;
use bt_machine::step_depends_on_its_input;
use bt_style::Style;
use bt_text::Shared;
use std::alloc::{AllocError, Global};
use std::mem;

/// The new run: the place of the changed entry, the steps, and what the run shows.
#[derive(Drop)]
pub struct NewRun {
    pub place: usize,
    pub walk: Walk,
    pub part: NewPart,
    /// What else it shows; `bbl` is empty until `Run::put`.
    pub answers: Answers,
}

impl Run {
    /// The style, if READ finds what is kept in the old files and asks the same of the new ones.
    fn style_asked(&mut self, change: Change<'_>) -> Result<Option<Shared<Style>>, AllocError>
        requires run { IsRunOf change.was.now change.root.now change.min self.old }
        requires texts { AreTextsOf change.was.now change.root.now self.old.kept }
        ensures asked { IfOk result (λ found. IfSome found (λ style. IsAskedOfRun change.entry self.new (program_of style))) }
        ensures still { IsStill change.entry.was.now change.entry.root.now self.old self.new }
    {
        let found = self.kept.style_asked(change)?;
        Ok(found)
    }

    /// The new run. None if a whole run must begin.
    fn new_run(&self, change: Change<'_>, style: &Style) -> Result<Option<NewRun>, AllocError>
        requires asked { IsAskedOfRun change self.now (program_of style.now) }
        requires rest { AreOtherwise change.name.now change.was.now change.files.now }
        ensures { IfOk result (λ found. IfSome found (IsNewRun change.entry self.now)) }
    {
        // This call does nothing; the proof needs its contract, a law of the machine.
        step_depends_on_its_input();
        let Some(placed) = self.kept.walk(change.alloc, style)? else {
            return Ok(None);
        };
        let others = placed.walk.steps.as_slice();
        let part = NewPart::of(
            change.alloc,
            self.answers.bbl.as_slice(),
            &self.kept,
            others,
        )?;
        let answers = self.new_answers(change.alloc, &placed.walk)?;
        let PlacedWalk { place, walk } = placed;
        Ok(Some(NewRun {
            place,
            walk,
            part,
            answers,
        }))
    }

    /// Puts the new run in the place of the old one. After out of memory nothing has changed.
    fn put(&mut self, alloc: Global, new: NewRun) -> Result<Report, AllocError>
        requires put { IsPutBeside self.old.kept new.place new.walk }
        requires fewer { new.walk.reuse.ran ≤ length self.old.kept.steps }
        requires part { IsPartOf new.part self.old.answers.bbl (bbl_of (with_steps self.old.kept.steps new.walk.steps)) }
        ensures answers { OnOk result (self.new.answers ≡ with_bbl_of (with_steps self.old.kept.steps new.walk.steps) new.answers) }
        ensures text { OnOk result (self.new.kept.text ≡ self.old.kept.text) }
        ensures steps { OnOk result (self.new.kept.steps ≡ with_steps self.old.kept.steps new.walk.steps) }
        ensures resolution { OnOk result (GoesOver self.old.kept.resolution self.new.kept.resolution) }
        ensures report { IfOk result (IsReportOf new (length self.old.kept.steps)) }
        ensures err { OnErr result (self.new ≡ self.old) }
    {
        let NewRun {
            place,
            walk,
            part,
            mut answers,
        } = new;
        part.put(alloc, &mut self.answers.bbl)?;
        mem::swap(&mut answers.bbl, &mut self.answers.bbl);
        let report = Report::of(answers.status, self.kept.steps.as_slice(), &walk.reuse);
        self.kept.put(place, walk);
        drop(mem::replace(&mut self.answers, answers));
        Ok(report)
    }

    /// Makes this the run of the files after a change, and returns its report, if the style sees nothing of the change or
    /// only one changed entry. Returns None if a whole run must begin. The only error is out of memory. After None or an error,
    /// answers, style text and steps are unchanged.
    pub fn follow(&mut self, change: Change<'_>) -> Result<Option<Report>, AllocError>
        requires run { IsRunOf change.was.now change.root.now change.min self.old }
        requires texts { AreTextsOf change.was.now change.root.now self.old.kept }
        requires rest { AreOtherwise change.name.now change.was.now change.files.now }
        ensures run { IfOk result (λ found. IfSome found (λ report.
            IsRunOf change.entry.files.now change.entry.root.now change.entry.min self.new)) }
        ensures after { IfOk result (λ found. IfSome found (λ report.
            AreTextsOf change.entry.files.now change.entry.root.now self.new.kept)) }
        ensures report { IfOk result (λ found. IfSome found (λ report. report
            ≡ report_after self.old.kept.text self.old.kept.steps change.entry.files.now change.entry.root.now change.entry.min)) }
        ensures stay { IfOk result (λ found. found ≡ None →
            IsStill change.entry.was.now change.entry.root.now self.old self.new) }
        ensures err { IfErr result (λ error. IsStill change.entry.was.now change.entry.root.now self.old self.new) }
    {
        if let Some(report) = self.follow_unseen(change)? {
            return Ok(Some(report));
        }
        let Some(style) = self.style_asked(change)? else {
            return Ok(None);
        };
        let Some(new) = self.new_run(change, &style)? else {
            return Ok(None);
        };
        let report = self.put(change.alloc, new)?;
        Ok(Some(report))
    }
}
