//! `.aux` texts as they were read, and what they asked for. Both outlive the run that read them.
//!
//! An edit changes few files, so the next run finds most texts here and doesn't read them again. A text is found by its
//! bytes: no contract has to say which version of which file it was. A job has few `.aux` files, so a list is enough.

ghost use Rattle.std.specs.Prelude.{◌≡◌, IfOk, IfSome};
ghost use Rattle.bt_bib.specs.AuxLine.{aux_lines};
ghost use Rattle.bt_job.specs.Citations.{citations};
ghost use Rattle.bt_job.specs.Fit.{IsFit};

use crate::asked::Asked;
use crate::citations::Citations;
use crate::files::File;
use crate::nested_files::read_citations;
use bt_bib::{AuxItem, read_aux};
use bt_text::{Bytes, Sequence, Shared};
use std::alloc::{AllocError, Global};

/// An `.aux` text, with its lines that matter.
#[derive(Drop)]
pub struct AuxText {
    text: Shared<Bytes>,
    lines: Shared<Sequence<AuxItem>>,
    ghost read: { lines ≡ aux_lines text },
}

impl AuxText {
    fn read(alloc: Global, text: Shared<Bytes>) -> Result<AuxText, AllocError>
        ensures { IfOk result (λ known. known.text ≡ text) }
    {
        let lines = Shared::new(alloc, read_aux(alloc, text.as_slice())?)?;
        Ok(AuxText { text, lines })
    }

    fn share(&self) -> Result<AuxText, AllocError>
        ensures { IfOk result (λ same. same.text ≡ self.now.text) }
    {
        Ok(AuxText {
            text: self.text.share()?,
            lines: self.lines.share()?,
        })
    }
}

/// The `.aux` texts that runs have read, and what the last run's files asked for.
#[derive(Drop)]
pub struct AuxTexts {
    known: Sequence<AuxText>,
    /// What the last run's files asked for, if that is known.
    asked: Option<Shared<Asked>>,
}

impl AuxTexts {
    /// No texts. Allocates nothing.
    pub fn new(alloc: Global) -> AuxTexts {
        AuxTexts {
            known: Sequence::new(alloc),
            asked: None,
        }
    }

    /// The same texts, shared, not copied. The only error is out of memory.
    pub fn share(&self, alloc: Global) -> Result<AuxTexts, AllocError> {
        let mut known = Sequence::new(alloc);
        'texts: for text in self.known.as_slice() {
            known.push(text.share()?)?;
        }
        let asked = self.shared_asked()?;
        Ok(AuxTexts { known, asked })
    }

    fn shared_asked(&self) -> Result<Option<Shared<Asked>>, AllocError> {
        match &self.asked {
            None => Ok(None),
            Some(asked) => Ok(Some(asked.share()?)),
        }
    }

    fn find(&self, text: &[u8]) -> Option<&AuxText>
        ensures { IfSome result (λ known. known.now.text ≡ text.now) }
    {
        self.known
            .as_slice()
            .iter()
            .find(|known| known.text.as_slice() == text)
    }

    /// The lines of a text that matter. The text is read only if it wasn't read before. The only error is out of
    /// memory.
    pub fn lines(
        &mut self,
        alloc: Global,
        text: &Shared<Bytes>,
    ) -> Result<Shared<Sequence<AuxItem>>, AllocError>
        ensures { IfOk result (λ lines. lines ≡ aux_lines text.now) }
    {
        if let Some(known) = self.find(text.as_slice()) {
            return known.lines.share();
        }
        let read = AuxText::read(alloc, text.share()?)?;
        let lines = read.lines.share()?;
        self.known.push(read)?;
        Ok(lines)
    }

    /// The texts that one of these files still has, and the last answer. The other texts are dropped, so that memory doesn't
    /// grow with each edit. The only error is out of memory.
    pub fn present(&self, alloc: Global, files: &[File]) -> Result<AuxTexts, AllocError> {
        let mut known = Sequence::new(alloc);
        'files: for file in files {
            if let Some(text) = self.find(file.text.as_slice()) {
                known.push(text.share()?)?;
            }
        }
        let asked = self.shared_asked()?;
        Ok(AuxTexts { known, asked })
    }

    /// What the files ask for, if that is known.
    pub fn known_citations(&self, files: &[File], root: &[u8]) -> Option<&Shared<Citations>>
        ensures { IfSome result (λ asked. asked.now ≡ citations files.now root.now) }
    {
        let last = self.asked.as_ref()?;
        if last.is_asked(files, root) {
            return Some(&last.asked);
        }
        None
    }

    /// What these files ask for, if that is known and others are known to ask for the same.
    pub fn known_for_both(
        &self,
        files: &[File],
        others: &[File],
        root: &[u8],
    ) -> Option<&Shared<Citations>>
        ensures files { IfSome result (λ asked. asked.now ≡ citations files.now root.now) }
        ensures others { IfSome result (λ asked. asked.now ≡ citations others.now root.now) }
    {
        let last = self.asked.as_ref()?;
        if last.is_asked(files, root) && last.is_asked(others, root) {
            return Some(&last.asked);
        }
        None
    }

    /// What the files ask for, as `read_citations` says. They are read only if a name, an `.aux` text or the root has
    /// changed since the last call. The only error is out of memory; then the last answer is still known.
    pub fn citations(
        &mut self,
        alloc: Global,
        files: &[File],
        root: &[u8],
    ) -> Result<Shared<Citations>, AllocError>
        ensures value { IfOk result (λ asked. asked ≡ citations files.now root.now) }
        ensures fit { IfOk result (λ asked. IsFit files.now asked) }
    {
        if let Some(known) = self.known_citations(files, root) {
            let asked = known.share()?;
            return Ok(asked);
        }
        let asked = Shared::new(alloc, read_citations(alloc, files, root, self)?)?;
        let last = Asked::of(alloc, files, root, asked.share()?)?;
        self.asked = Some(Shared::new(alloc, last)?);
        Ok(asked)
    }
}
