//! A present state that is made edit by edit, before a session runs it.

ghost use Rattle.std.specs.Prelude.{◌≡◌, Ok, IfOk, OnErr};

use crate::edit::{Edit, Refusal};
use crate::refusal::is_root_name;
use crate::state::State;
use bt_job::{AuxTexts, read_citations};
use bt_text::{Bytes, Sequence, Shared};
use std::alloc::{AllocError, Global};
use std::marker::Model;

/// A present state that isn't run yet: the texts by name, the root name and min-crossrefs. `Session::of` or
/// `Snapshot::of` runs it, once for all its edits.
#[derive(Drop)]
pub struct Draft {
    pub(crate) alloc: Global,
    pub(crate) state: State,
}

impl Model for Draft {
    ghost use Rattle.bibtex.specs.declared.state.State.{State};
    ghost use Rattle.bibtex.specs.Present.{EachOnce};

    ghost Value = { State };

    ghost view = { λ d. d.state };

    ghost invariant = { λ d. EachOnce d.state.texts };
}

impl Draft {
    ghost use Rattle.bibtex.specs.Present.{is_root_name, no_texts, shown};
    ghost use Rattle.bibtex.specs.Edit.{edit_of};
    ghost use Rattle.bibtex.specs.Applied.{applied, IsAnswer, IsNew};

    /// A state without files, whose run begins at the root name followed by `.aux`. The errors are `BadName`, exactly if
    /// the root isn't a file name of at most 60 bytes, and `OutOfMemory`.
    pub fn new(alloc: Global, root: &[u8], min: u32) -> Result<Draft, Refusal>
        ensures ok { IfOk result (λ draft. draft ≡ no_texts root.now min) }
        ensures refused { IsNew (is_root_name root.now) result }
    {
        if !is_root_name(root) {
            return Err(Refusal::BadName);
        }
        let state = State {
            texts: Sequence::new(alloc),
            root: Shared::<Bytes>::copied(alloc, root)?,
            min,
        };
        Ok(Draft { alloc, state })
    }

    /// Carries out an edit. On a refusal nothing is changed. Refusals are tested in the order of their cases, out of
    /// memory last.
    pub fn edit(&mut self, edit: Edit<'_>) -> Result<(), Refusal>
        ensures ok { IfOk result (λ _. applied (edit_of edit.entry) self.old ≡ Ok self.new) }
        ensures refused { IsAnswer (applied (edit_of edit.entry) self.old) result }
        ensures err { OnErr result (self.new ≡ self.old) }
    {
        if let Some(refusal) = self.state.refusal(edit, edit.bytes().len()) {
            return Err(refusal);
        }
        let state = self.state.changed(self.alloc, edit)?;
        self.state = state;
        Ok(())
    }

    /// The names of the files that a run of this state looks for and doesn't find, in order, each once.
    #[tactic(auto, using(crate::proofs::SessionLemmas::wanted_by))]
    pub fn wanted(&self) -> Result<Sequence<Bytes>, AllocError>
        ensures { IfOk result (λ names. names ≡ (shown self.now).wanted) }
    {
        let files = self.state.texts.as_slice();
        let root = self.state.root.as_slice();
        let citations = read_citations(self.alloc, files, root, &mut AuxTexts::new(self.alloc))?;
        Ok(citations.wanted)
    }
}
