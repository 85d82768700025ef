//! An edit of which the style sees nothing.
//!
//! What a run does depends on its files in three ways: what the `.aux` files ask for, the text of the style, and what READ
//! finds. So if an edit of a database changes nothing that READ finds (a field that the style doesn't read, an entry that
//! isn't cited, the space between entries), the new run is step by step the old one. Nothing is run or compared, and all
//! that is kept of the run stays.

ghost use Rattle.std.specs.Prelude.{◌≡◌, false, IfErr, IfOk, IfSome, IsTrue, None};
ghost use Rattle.bt_resolve.specs.declared.seen_edit.SeenEdit.TheVariants.{Same};
ghost use Rattle.bt_resolve.specs.inner.Kept.{resolved_for};
ghost use Rattle.bt_run.specs.Kept.{report_after};
ghost use Rattle.bt_run.specs.inner.Unseen.{AreFilesOf, AreOtherwise, AreTextsOf, IsRunOf, IsSameRun, IsUnseen};

use crate::answers::{Report, Run};
use crate::change::Change;
use crate::kept::Kept;
use crate::kept_resolution::KeptResolution;
use crate::readings::Readings;
use crate::same_messages::are_same_messages;
use bt_resolve::{Resolved, ResolvedEdit, SeenEdit};
use std::alloc::AllocError;

/// Whether an edit changes nothing that READ finds or says.
fn is_unseen(found: &Resolved, made: &ResolvedEdit) -> bool
    ensures seen { IsTrue result → made.now.seen ≡ Same }
    ensures messages { IsTrue result → made.now.messages ≡ found.now.messages }
{
    match &made.seen {
        SeenEdit::Same => are_same_messages(made.messages.as_slice(), found.messages.as_slice()),
        SeenEdit::Others(_) => false,
    }
}

impl KeptResolution {
    /// Whether the kept edit changes nothing that is seen.
    fn has_unseen_edit(&self) -> bool
        ensures { IsTrue result → IsUnseen self.now }
    {
        if let Some(edit) = &self.edit
            && let Some(made) = &edit.made
        {
            return is_unseen(self.resolution.resolved(), made);
        }
        false
    }

    /// Makes the kept edit, if the new run is known to be the old one. What is found stays in any case.
    pub fn pass(&mut self, change: Change<'_>, readings: &mut Readings) -> Result<bool, AllocError>
        requires texts { AreFilesOf change.was.now change.root.now self.old }
        requires rest { AreOtherwise change.name.now change.was.now change.files.now }
        ensures texts { IfOk result (λ passed. IsTrue passed →
            AreFilesOf change.entry.files.now change.entry.root.now self.new) }
        ensures stay { IfOk result (λ passed. passed ≡ false → self.new.texts ≡ self.old.texts) }
        ensures err { IfErr result (λ error. self.new.texts ≡ self.old.texts) }
        ensures same { resolved_for self.new.resolution ≡ resolved_for self.old.resolution }
        ensures run { IfOk result (λ passed. IsTrue passed →
            IsSameRun change.entry.was.now change.entry.files.now change.entry.root.now change.entry.min) }
    {
        if !self.has_unseen_edit() {
            return Ok(false);
        }
        let Some(style) = self.style_asked(change, readings)? else {
            return Ok(false);
        };
        drop(style);
        self.put();
        Ok(true)
    }
}

impl Kept {
    fn has_unseen_edit(&self) -> bool {
        match &self.resolution {
            None => false,
            Some(kept) => kept.has_unseen_edit(),
        }
    }

    /// Whether the new run is known to be the old one, because the style sees nothing of the change. Then the kept edit is
    /// made.
    fn pass(&mut self, change: Change<'_>) -> Result<bool, AllocError>
        requires texts { AreTextsOf change.was.now change.root.now self.old }
        requires rest { AreOtherwise change.name.now change.was.now change.files.now }
        ensures text { self.new.text ≡ self.old.text }
        ensures steps { self.new.steps ≡ self.old.steps }
        ensures run { IfOk result (λ passed. IsTrue passed →
            IsSameRun change.entry.was.now change.entry.files.now change.entry.root.now change.entry.min) }
        ensures after { IfOk result (λ passed. IsTrue passed →
            AreTextsOf change.entry.files.now change.entry.root.now self.new) }
        ensures stay { IfOk result (λ passed. passed ≡ false →
            AreTextsOf change.entry.was.now change.entry.root.now self.new) }
        ensures err { IfErr result (λ error. AreTextsOf change.entry.was.now change.entry.root.now self.new) }
    {
        if !self.has_unseen_edit() || !self.is_found_in(change.was, change.root) {
            return Ok(false);
        }
        let Some(kept) = &mut self.resolution else {
            return Ok(false);
        };
        kept.pass(change, &mut self.readings)
    }
}

impl Run {
    /// Makes this the run of the new files, if the style sees nothing of the change, and returns the report. Answers, style
    /// text and steps stay in any case.
    pub(crate) fn follow_unseen(&mut self, change: Change<'_>) -> Result<Option<Report>, AllocError>
        requires run { IsRunOf change.was.now change.root.now change.min self.old }
        requires texts { AreTextsOf change.was.now change.root.now self.old.kept }
        requires rest { AreOtherwise change.name.now change.was.now change.files.now }
        ensures answers { self.new.answers ≡ self.old.answers }
        ensures text { self.new.kept.text ≡ self.old.kept.text }
        ensures steps { self.new.kept.steps ≡ self.old.kept.steps }
        ensures run { IfOk result (λ found. IfSome found (λ report.
            IsRunOf change.entry.files.now change.entry.root.now change.entry.min self.old)) }
        ensures after { IfOk result (λ found. IfSome found (λ report.
            AreTextsOf change.entry.files.now change.entry.root.now self.new.kept)) }
        ensures stay { IfOk result (λ found. found ≡ None →
            AreTextsOf change.entry.was.now change.entry.root.now self.new.kept) }
        ensures err { IfErr result (λ error. AreTextsOf change.entry.was.now change.entry.root.now self.new.kept) }
        ensures report { IfOk result (λ found. IfSome found (λ report. report
            ≡ report_after self.old.kept.text self.old.kept.steps change.entry.files.now change.entry.root.now change.entry.min)) }
    {
        if !self.kept.pass(change)? {
            return Ok(None);
        }
        let report = Report::of_nothing(self.answers.status, self.kept.steps.as_slice());
        Ok(Some(report))
    }
}
