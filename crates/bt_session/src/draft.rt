//! An author's files before a session runs them.

ghost use Rattle.std.specs.Prelude.{◌≡◌, ℕ, IfOk, OnErr};

use crate::files::{is_full_for, with_text};
use bt_front::wanted;
use bt_job::File;
use bt_text::{Bytes, Sequence, Shared};
use std::alloc::{AllocError, Global};
use std::marker::Model;

/// An author's files by name, the root name and min-crossrefs, which aren't run yet. `AuthorSession::of` runs them, once for
/// all that was written.
#[derive(Drop)]
pub struct AuthorDraft {
    pub(crate) alloc: Global,
    pub(crate) texts: Sequence<File>,
    pub(crate) root: Bytes,
    pub(crate) min: u32,
}

impl Model for AuthorDraft {
    ghost use Rattle.bibtex.specs.declared.state.State.{State};

    ghost Value = { State };

    ghost view = { λ d. record { texts = d.texts; root = d.root; min = d.min } };
}

impl AuthorDraft {
    ghost use Rattle.bibtex.specs.Present.{no_texts, with_text};
    ghost use Rattle.bt_session.specs.Author.{is_full_for, shown};

    /// A job without files, whose run begins at the root name followed by `.aux`. The only error is out of memory.
    pub fn new(alloc: Global, root: &[u8], min: u32) -> Result<AuthorDraft, AllocError>
        ensures { IfOk result (λ draft. draft ≡ no_texts root.now min) }
    {
        Ok(AuthorDraft {
            alloc,
            texts: Sequence::new(alloc),
            root: Bytes::copied(alloc, root)?,
            min,
        })
    }

    /// Whether there is no room for a file of this name: it would be one more, and there are 64 files.
    pub fn is_full_for(&self, name: &[u8]) -> bool
        ensures { result ≡ is_full_for self.now.texts name.now }
    {
        is_full_for(self.texts.as_slice(), name)
    }

    /// Gives the file of a name this text. After out of memory nothing has changed.
    pub fn write(&mut self, name: &[u8], text: &[u8]) -> Result<(), AllocError>
        ensures ok { IfOk result (λ _. self.new ≡ record self.old { texts = with_text name.now text.now self.old.texts }) }
        ensures err { OnErr result (self.new ≡ self.old) }
    {
        let text = Shared::<Bytes>::copied(self.alloc, text)?;
        let texts = with_text(self.alloc, self.texts.as_slice(), name, text)?;
        self.texts = texts;
        Ok(())
    }

    /// The names of the files that a run looks for and doesn't find, in order, each once. The only error is out of memory.
    pub fn wanted(&self) -> Result<Sequence<Bytes>, AllocError>
        ensures { IfOk result (λ names. names ≡ (shown self.now).wanted) }
    {
        let names = wanted(self.alloc, self.texts.as_slice(), self.root.as_slice())?;
        Ok(names)
    }
}
