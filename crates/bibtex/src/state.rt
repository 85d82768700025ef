//! The present state, and the one after an edit.

ghost use Rattle.std.specs.Prelude.{◌≡◌, length, None, IfOk};
ghost use Rattle.bibtex.specs.Edit.{edit_of, bytes_of};
ghost use Rattle.bt_bib.specs.Splice.{IsSplice};
ghost use Rattle.bibtex.specs.Present.{with_text};
ghost use Rattle.bibtex.specs.inner.Cases.{present_text, replaced};
ghost use Rattle.bibtex.specs.Applied.{changed, refusal_of, splice_refusal};

use crate::edit::{Edit, Refusal};
use crate::files::{all_shared, replaced, with_text, without};
use crate::refusal::{remove_refusal, root_refusal, splice_refusal, write_refusal};
use bt_bib::Splice;
use bt_job::{File, text_of};
use bt_text::{Bytes, Sequence, Shared};
use std::alloc::{AllocError, Global};

/// What a session is about: the present texts, each under its name, the root name, and how many entries must refer to
/// an uncited one before it is listed.
#[derive(Drop)]
pub struct State {
    pub texts: Sequence<File>,
    pub root: Shared<Bytes>,
    pub min: u32,
}

impl State {
    /// The present text of a name; the empty text where there is none.
    pub fn text(&self, name: &[u8]) -> &[u8]
        ensures { result.now ≡ present_text self.now.texts name.now }
    {
        text_of(self.texts.as_slice(), name).unwrap_or(b"")
    }

    fn with_texts(&self, texts: Sequence<File>) -> Result<State, AllocError>
        ensures { IfOk result (λ state. state ≡ record self.now { texts = texts }) }
    {
        Ok(State {
            texts,
            root: self.root.share()?,
            min: self.min,
        })
    }

    /// The first reason to refuse an edit that brings `size` bytes; its own bytes don't count.
    pub fn refusal(&self, edit: Edit<'_>, size: usize) -> Option<Refusal>
        ensures { result ≡ refusal_of (edit_of edit.entry) size self.now }
    {
        let files = self.texts.as_slice();
        match edit {
            Edit::Write(name, _) => write_refusal(files, name, size),
            Edit::Splice(name, start, end, _) => splice_refusal(files, name, start, end, size),
            Edit::Remove(name) => remove_refusal(files, name),
            Edit::Root(name) => root_refusal(name),
            Edit::MinCrossrefs(_) => None,
        }
    }

    /// The state with this text under this name.
    pub fn with_text(
        &self,
        alloc: Global,
        name: &[u8],
        text: Shared<Bytes>,
    ) -> Result<State, AllocError>
        ensures { IfOk result (λ state. state ≡ record self.now { texts = with_text name.now text self.now.texts }) }
    {
        self.with_texts(with_text(alloc, self.texts.as_slice(), name, text)?)
    }

    /// The text of a name after a splice that brings these bytes.
    #[tactic(auto, using(crate::proofs::SessionLemmas::replaced_is_splice))]
    pub fn spliced_text(
        &self,
        alloc: Global,
        name: &[u8],
        splice: Splice,
        bytes: &[u8],
    ) -> Result<Shared<Bytes>, AllocError>
        requires right { splice_refusal self.now.texts name.now splice.begin splice.end (length bytes.now) ≡ None }
        ensures text { IfOk result (λ text.
            text ≡ replaced splice.begin splice.end bytes.now (present_text self.now.texts name.now)) }
        ensures splice { IfOk result (λ text.
            IsSplice (present_text self.now.texts name.now) text splice.begin splice.end (length bytes.now)) }
    {
        let text = replaced(alloc, self.text(name), splice.begin, splice.end, bytes)?;
        Shared::new(alloc, text)
    }

    /// The state after an edit that there is no reason to refuse, made beside this one, with which it shares everything
    /// that stays.
    pub fn changed(&self, alloc: Global, edit: Edit<'_>) -> Result<State, AllocError>
        requires right { refusal_of (edit_of edit) (length (bytes_of (edit_of edit))) self.now ≡ None }
        ensures { IfOk result (λ state. state ≡ changed (edit_of edit.entry) self.now) }
    {
        let files = self.texts.as_slice();
        match edit {
            Edit::Write(name, text) => {
                self.with_text(alloc, name, Shared::<Bytes>::copied(alloc, text)?)
            }
            Edit::Splice(name, begin, end, bytes) => {
                let splice = splice_of(begin, end, bytes);
                self.with_text(alloc, name, self.spliced_text(alloc, name, splice, bytes)?)
            }
            Edit::Remove(name) => self.with_texts(without(alloc, files, name)?),
            Edit::Root(name) => Ok(State {
                texts: all_shared(alloc, files)?,
                root: Shared::<Bytes>::copied(alloc, name)?,
                min: self.min,
            }),
            Edit::MinCrossrefs(min) => Ok(State {
                texts: all_shared(alloc, files)?,
                root: self.root.share()?,
                min,
            }),
        }
    }
}

/// The splice of an edit that brings these bytes.
pub fn splice_of(begin: usize, end: usize, bytes: &[u8]) -> Splice
    ensures { result ≡ record { begin = begin; end = end; inserted = length bytes.now } }
{
    Splice {
        begin,
        end,
        inserted: bytes.len(),
    }
}
