//! A change of one file, and what READ asks before and after it.

ghost use Rattle.std.specs.Prelude.{◌≡◌, ◌<◌, ℕ, IfOk, IfSome, IsTrue, length, map};
ghost use Rattle.std.specs.Option.{ForSome};
ghost use Rattle.bt_style.specs.Program.{program_of};
ghost use Rattle.bt_run.specs.inner.Cases.{text_in};
ghost use Rattle.bt_run.specs.inner.Change.{AreAsked, DeclaresAt, IsAskedOf, IsAskedOfKept, IsOnlyAt, IsStyledBy};
ghost use Rattle.bt_run.specs.inner.Unseen.{AreFilesOf, AreTextsOf};

use crate::asking::{is_same_cites, is_same_declared};
use crate::declarations::declared_before;
use crate::job::{cites_of, shared_text};
use crate::kept::Kept;
use crate::kept_resolution::KeptResolution;
use crate::readings::Readings;
use crate::walk_context::is_read;
use bt_job::{Citations, File, text_of};
use bt_resolve::Declared;
use bt_style::{Style, StyleRefusal};
use bt_text::{Bytes, Shared, equal_bytes};
use std::alloc::{AllocError, Global};

/// A change of one file's text; all other files stay. The root and min-crossrefs are the same before and after it.
#[derive(Clone, Copy)]
pub struct Change<'a> {
    pub alloc: Global,
    /// The name of the file that changes.
    pub name: &'a [u8],
    /// The files before the change.
    pub was: &'a [File],
    /// The files after it.
    pub files: &'a [File],
    pub root: &'a [u8],
    pub min: u32,
}

impl Change<'_> {
    /// The style of a name, if both files have the same text of it and it can be read.
    fn style(
        self,
        readings: &mut Readings,
        name: &[u8],
    ) -> Result<Option<Shared<Style>>, AllocError>
        ensures { IfOk result (λ found. IfSome found (λ style.
            IsStyledBy self.entry.was.now self.entry.files.now name.now (program_of style))) }
    {
        let text = shared_text(self.alloc, self.files, name)?;
        let before = shared_text(self.alloc, self.was, name)?;
        if !equal_bytes(text.as_slice(), before.as_slice()) {
            return Ok(None);
        }
        match readings.style(self.alloc, &text) {
            Ok(style) => Ok(Some(style)),
            Err(StyleRefusal::Fault { .. }) => Ok(None),
            Err(StyleRefusal::OutOfMemory) => Err(AllocError),
        }
    }
}

/// The text of a name; the empty text where there is none.
fn text_in<'a>(files: &'a [File], name: &[u8]) -> &'a [u8]
    ensures { result.now ≡ text_in files.now name.now }
{
    text_of(files, name).unwrap_or(b"")
}

/// Whether a name stands at this number, and nowhere else.
fn is_only_at(name: &[u8], number: usize, names: &[Bytes]) -> bool
    ensures { IsTrue result → IsOnlyAt name.now number names.now }
{
    'names: for place in 0..names.len() {
        if (name == names[place].as_slice()) != (place == number) {
            return false;
        }
    }
    true
}

/// Whether the command of this number, if it is READ, declares this.
fn declares_at(
    alloc: Global,
    style: &Style,
    number: usize,
    declared: &Declared,
) -> Result<bool, AllocError>
    requires { number < length style.now.commands }
    ensures { IfOk result (λ same. IsTrue same → DeclaresAt (program_of style.now) declared.now number) }
{
    if !is_read(&style.commands.as_slice()[number]) {
        return Ok(true);
    }
    Ok(is_same_declared(&declared_before(alloc, style, number)?, declared))
}

/// Whether each READ of a style declares this.
fn all_declare(alloc: Global, style: &Style, declared: &Declared) -> Result<bool, AllocError>
    ensures { IfOk result (λ same. IsTrue same → (k : ℕ) → DeclaresAt (program_of style.now) declared.now k) }
{
    'commands: for number in 0..style.commands.len() {
        if !declares_at(alloc, style, number, declared)? {
            return Ok(false);
        }
    }
    Ok(true)
}

impl KeptResolution {
    /// Whether its databases have the texts of the files of these names.
    fn has_texts(&self, files: &[File], names: &[Bytes]) -> bool
        ensures { IsTrue result → self.now.texts ≡ map (text_in files.now) names.now }
    {
        let texts = self.texts.as_slice();
        if texts.len() != names.len() {
            return false;
        }
        'names: for number in 0..names.len() {
            if !equal_bytes(
                texts[number].as_slice(),
                text_in(files, names[number].as_slice()),
            ) {
                return false;
            }
        }
        true
    }

    /// Whether the kept edit makes the new text of the changed file, and that file is one database and no other.
    fn has_edit_to(&self, change: Change<'_>, names: &[Bytes]) -> bool
        ensures { IsTrue result → ForSome self.now.edit (λ edit.
            (text_in change.entry.files.now change.entry.name.now ≡ edit.text) × IsOnlyAt change.entry.name.now edit.number names.now) }
    {
        let Some(edit) = &self.edit else {
            return false;
        };
        equal_bytes(text_in(change.files, change.name), edit.text.as_slice())
            && is_only_at(change.name, edit.number, names)
    }

    /// Whether each READ of a style asks what was asked. The databases may be others.
    fn is_asked(
        &self,
        change: Change<'_>,
        citations: &Citations,
        style: &Style,
    ) -> Result<bool, AllocError>
        ensures { IfOk result (λ asked. IsTrue asked →
            AreAsked self.now.resolution citations.now change.entry.min (program_of style.now)) }
    {
        let question = self.resolution.question();
        if question.min != change.min || !is_same_cites(&cites_of(citations)?, &question.cites) {
            return Ok(false);
        }
        all_declare(change.alloc, style, &question.declared)
    }

    /// The style, if each READ of the new files asks what was asked, and the kept edit is all that changes of their
    /// databases.
    pub fn style_asked(
        &self,
        change: Change<'_>,
        readings: &mut Readings,
    ) -> Result<Option<Shared<Style>>, AllocError>
        ensures { IfOk result (λ found. IfSome found (λ style. IsAskedOf change.entry self.now (program_of style))) }
    {
        let Some(citations) = readings
            .aux_texts
            .known_for_both(change.was, change.files, change.root)
        else {
            return Ok(None);
        };
        let citations = citations.share()?;
        let Some(name) = &citations.style else {
            return Ok(None);
        };
        let Some(style) = change.style(readings, name.as_slice())? else {
            return Ok(None);
        };
        if !self.is_asked(change, &citations, &style)?
            || !self.has_edit_to(change, citations.databases.as_slice())
        {
            return Ok(None);
        }
        Ok(Some(style))
    }
}

impl Kept {
    /// Whether it is known what the kept edit changes. (This is asked before the texts are compared, which takes longer.)
    fn knows_edit(&self) -> bool {
        if let Some(kept) = &self.resolution
            && let Some(edit) = &kept.edit
        {
            return edit.made.is_some();
        }
        false
    }

    fn has_texts_of(&self, files: &[File], root: &[u8]) -> bool
        ensures { IsTrue result → ForSome self.now.resolution (AreFilesOf files.now root.now) }
    {
        let Some(kept) = &self.resolution else {
            return false;
        };
        let Some(citations) = self.readings.aux_texts.known_citations(files, root) else {
            return false;
        };
        kept.has_texts(files, citations.databases.as_slice())
    }

    /// Whether READ found what is kept in the texts of these files. If so, that is noted, so the texts are compared once.
    pub fn is_found_in(&mut self, files: &[File], root: &[u8]) -> bool
        requires { AreTextsOf files.now root.now self.old }
        ensures same { self.new ≡ record self.old { is_present = self.new.is_present } }
        ensures present { result ≡ self.new.is_present }
        ensures texts { AreTextsOf files.now root.now self.new }
    {
        if !self.is_present {
            self.is_present = self.has_texts_of(files, root);
        }
        self.is_present
    }

    /// The style, if READ finds what is kept in the old files and asks the same of the new ones.
    pub(crate) fn style_asked(
        &mut self,
        change: Change<'_>,
    ) -> Result<Option<Shared<Style>>, AllocError>
        requires { AreTextsOf change.was.now change.root.now self.old }
        ensures asked { IfOk result (λ found. IfSome found (λ style. IsAskedOfKept change.entry self.new (program_of style))) }
        ensures rest { self.new ≡ record self.old { is_present = self.new.is_present; readings = self.new.readings } }
        ensures texts { AreTextsOf change.entry.was.now change.entry.root.now self.new }
    {
        if !self.is_own || !self.knows_edit() || !self.is_found_in(change.was, change.root) {
            return Ok(None);
        }
        let Some(kept) = &self.resolution else {
            return Ok(None);
        };
        let Some(style) = kept.style_asked(change, &mut self.readings)? else {
            return Ok(None);
        };
        Ok(Some(style))
    }
}
