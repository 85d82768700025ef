//! A session: it keeps the present state and what it means, and changes both by edits.

ghost use Rattle.std.specs.Prelude.{◌≡◌, length, None, IfOk, IfErr, OnErr, Ok};
ghost use Rattle.std.specs.Option.{option_map};

use crate::draft::Draft;
use crate::edit::{Edit, Refusal};
use crate::entry_lines::entry_text;
use crate::state::{State, splice_of};
use bt_bib::Splice;
use bt_job::text_of;
use bt_log::Message;
use bt_run::{Change, Kept, Report, Run, answers_after};
use bt_text::Bytes;
use std::alloc::{AllocError, Global};
use std::marker::Model;
use std::mem;

/// A session over the texts of `.aux`, `.bib` and `.bst` files. Contracts see its present state: the texts by name, the
/// root name and min-crossrefs. It also keeps what these mean, the steps of their run, and what was read from the texts.
#[derive(Drop)]
pub struct Session {
    alloc: Global,
    state: State,
    run: Run,
}

impl Model for Session {
    ghost use Rattle.bibtex.specs.declared.state.State.{State};
    ghost use Rattle.bibtex.specs.Present.{Keeps};
    ghost use Rattle.bt_run.specs.Shown.{meaning_of};
    ghost use Rattle.bt_run.specs.inner.Unseen.{AreTextsOf};

    ghost Value = { State };

    ghost view = { λ s. s.state };

    ghost invariant = { λ s. Keeps s.state (meaning_of s.run.answers) s.run.kept.text s.run.kept.steps
        × AreTextsOf s.state.texts s.state.root s.run.kept };
}

impl Session {
    ghost use Rattle.bibtex.specs.Present.{is_root_name, no_texts, shown, reported, EachOnce, Keeps};
    ghost use Rattle.bibtex.specs.Edit.{edit_of, bytes_of, splice as splice_edit};
    ghost use Rattle.bibtex.specs.Applied.{applied, changed, refusal_of, splice_refusal, IsAnswer, IsNew};
    ghost use Rattle.bt_job.specs.FileNames.{text_of};
    ghost use Rattle.bt_log.specs.Log.{log_bytes};
    ghost use Rattle.bt_run.specs.Meaning.{trace};
    ghost use Rattle.bt_run.specs.Shown.{meaning_of};
    ghost use Rattle.bibtex.specs.EntryText.{entry_text};
    ghost use Rattle.bt_run.specs.inner.Unseen.{AreOtherwise, AreTextsOf};

    /// A session without files, whose run begins at the root name followed by `.aux`. The errors are `BadName`, exactly if
    /// the root isn't a file name of at most 60 bytes, and `OutOfMemory`.
    pub fn new(alloc: Global, root: &[u8], min: u32) -> Result<Session, Refusal>
        ensures ok { IfOk result (λ session. session ≡ no_texts root.now min) }
        ensures refused { IsNew (is_root_name root.now) result }
    {
        Ok(Session::of(Draft::new(alloc, root, min)?)?)
    }

    /// A session at this state, which is run from scratch.
    pub fn of(draft: Draft) -> Result<Session, AllocError>
        ensures { IfOk result (λ session. session ≡ draft) }
    {
        let Draft {
            alloc,
            state: first,
        } = draft;
        let run = answers_after(
            alloc,
            first.texts.as_slice(),
            first.root.as_slice(),
            first.min,
            &mut Kept::nothing(alloc),
        )?;
        Ok(Session {
            alloc,
            state: first,
            run,
        })
    }

    /// The first reason to refuse an edit that brings `size` bytes; its own bytes don't count, nor does out of memory. It
    /// allocates nothing.
    pub fn refusal(&self, edit: Edit<'_>, size: usize) -> Option<Refusal>
        ensures { result ≡ refusal_of (edit_of edit.entry) size self.now }
    {
        self.state.refusal(edit, size)
    }

    /// Replaces the state and everything that it means, and returns the run's report.
    fn replace(&mut self, state: State, run: Run) -> Report
        requires keeps { Keeps state (meaning_of run.answers) run.kept.text run.kept.steps }
        requires texts { AreTextsOf state.texts state.root run.kept }
        ensures state { self.new ≡ state }
        ensures report { result ≡ run.report }
    {
        let report = run.report;
        drop(mem::replace(&mut self.run, run));
        drop(mem::replace(&mut self.state, state));
        report
    }

    /// Goes to a state, using what was read before: everything that the state means is made beside what is kept, and then
    /// replaces it. Only the resolution is moved into the run, which edits it or makes a new one from it. After out of memory
    /// the session has none, which it may, because a resolution is only right about its own question.
    fn go_to(&mut self, state: State) -> Result<Report, Refusal>
        requires { EachOnce state.texts }
        ensures ok { IfOk result (λ _. self.new ≡ state) }
        ensures report { IfOk result (λ report. report ≡ reported self.old self.new) }
        ensures refused { IfErr result (λ refusal. refusal ≡ Refusal.OutOfMemory) }
        ensures err { OnErr result (self.new ≡ self.old) }
    {
        let run = answers_after(
            self.alloc,
            state.texts.as_slice(),
            state.root.as_slice(),
            state.min,
            &mut self.run.kept,
        )?;
        Ok(self.replace(state, run))
    }

    /// Goes to a state in which one file alone has another text. The run follows the change if it can; otherwise a new one
    /// begins.
    fn go_over(&mut self, name: &[u8], state: State) -> Result<Report, Refusal>
        requires once { EachOnce state.texts }
        requires root { state.root ≡ self.old.root }
        requires min { state.min ≡ self.old.min }
        requires rest { AreOtherwise name.now self.old.texts state.texts }
        ensures ok { IfOk result (λ _. self.new ≡ state) }
        ensures report { IfOk result (λ report. report ≡ reported self.old self.new) }
        ensures refused { IfErr result (λ refusal. refusal ≡ Refusal.OutOfMemory) }
        ensures err { OnErr result (self.new ≡ self.old) }
    {
        let change = Change {
            alloc: self.alloc,
            name,
            was: self.state.texts.as_slice(),
            files: state.texts.as_slice(),
            root: state.root.as_slice(),
            min: state.min,
        };
        if let Some(report) = self.run.follow(change)? {
            drop(mem::replace(&mut self.state, state));
            return Ok(report);
        }
        self.go_to(state)
    }

    /// The state after a splice that there is no reason to refuse. A database that it changes is read again where it can
    /// have changed.
    fn spliced(&mut self, name: &[u8], splice: Splice, bytes: &[u8]) -> Result<State, AllocError>
        requires size { splice.inserted ≡ length bytes.now }
        requires right { splice_refusal self.old.texts name.now splice.begin splice.end (length bytes.now) ≡ None }
        ensures state { IfOk result (λ state.
            state ≡ changed (splice_edit name.now splice.begin splice.end bytes.now) self.old) }
        ensures same { self.new ≡ self.old }
    {
        let text = self.state.spliced_text(self.alloc, name, splice, bytes)?;
        let old = self.state.text(name);
        self.run.kept.splice(self.alloc, old, &text, splice)?;
        self.state.with_text(self.alloc, name, text)
    }

    /// The state after an edit that there is no reason to refuse.
    fn state_after(&mut self, edit: Edit<'_>) -> Result<State, AllocError>
        requires { refusal_of (edit_of edit) (length (bytes_of (edit_of edit))) self.old ≡ None }
        ensures state { IfOk result (λ state. state ≡ changed (edit_of edit.entry) self.old) }
        ensures same { self.new ≡ self.old }
    {
        if let Edit::Splice(name, begin, end, bytes) = edit {
            return self.spliced(name, splice_of(begin, end, bytes), bytes);
        }
        self.state.changed(self.alloc, edit)
    }

    /// Makes an edit and reports its work: how many steps ran and what they cost, and how many were reused from the run
    /// before. A refusal changes nothing. Refusals are tested in the order of their cases, out of memory last.
    pub fn edit(&mut self, edit: Edit<'_>) -> Result<Report, Refusal>
        ensures ok { IfOk result (λ _. applied (edit_of edit.entry) self.old ≡ Ok self.new) }
        ensures report { IfOk result (λ report. report ≡ reported self.old self.new) }
        ensures refused { IsAnswer (applied (edit_of edit.entry) self.old) result }
        ensures err { OnErr result (self.new ≡ self.old) }
    {
        if let Some(refusal) = self.state.refusal(edit, edit.bytes().len()) {
            return Err(refusal);
        }
        let state = self.state_after(edit)?;
        if let Edit::Splice(name, _, _, _) = edit {
            return self.go_over(name, state);
        }
        self.go_to(state)
    }

    /// The bytes of the `.bbl` file.
    pub fn bbl(&self) -> &[u8]
        ensures { result.now ≡ (shown self.now).bbl }
    {
        self.run.answers.bbl.as_slice()
    }

    /// The bytes of the `.blg` file, the log.
    pub fn blg(&self) -> &[u8]
        ensures { result.now ≡ (shown self.now).blg }
    {
        self.run.answers.blg.as_slice()
    }

    /// The log without the lines of files and the counts of calls.
    pub fn terse(&self) -> &[u8]
        ensures { result.now ≡ (shown self.now).terse }
    {
        self.run.answers.terse.as_slice()
    }

    /// The messages of the log in their parts, in order: what each counts as, what it says, the key of its entry, where
    /// it belongs, its second line. The log is what they are in words, and the last line.
    #[tactic(auto, using(crate::proofs::SessionLemmas::log_in_words))]
    pub fn messages(&self) -> &[Message]
        ensures meaning { result.now ≡ (shown self.now).messages }
        ensures log { (shown self.now).blg ≡ log_bytes result.now }
    {
        self.run.answers.messages.as_slice()
    }

    /// 0 for a clean run, 1 after warnings, 2 after errors, 3 after a fatal error.
    pub fn status(&self) -> u8
        ensures { result ≡ (shown self.now).status }
    {
        self.run.answers.status
    }

    /// The names of the files that were looked for and not found, in order, each once.
    pub fn wanted(&self) -> &[Bytes]
        ensures { result.now ≡ (shown self.now).wanted }
    {
        self.run.answers.wanted.as_slice()
    }

    /// What the entry of a key prints in the present run, in the paper's own style: the lines that the steps for this key
    /// end, each with a line feed. It is empty if the run has no such entry. The only error is out of memory.
    pub fn entry_text(&self, key: &[u8]) -> Result<Bytes, AllocError>
        ensures { IfOk result (λ text. text ≡ entry_text key.now (trace self.now.texts self.now.root self.now.min)) }
    {
        entry_text(self.alloc, self.run.kept.steps.as_slice(), key)
    }

    /// The steps of the run.
    pub fn kept(&self) -> &Kept
        ensures { result.now.steps ≡ trace self.now.texts self.now.root self.now.min }
    {
        &self.run.kept
    }

    /// The present text of a name, if there is one. Each name has one text.
    pub fn file(&self, name: &[u8]) -> Option<&[u8]>
        ensures once { EachOnce self.now.texts }
        ensures text { option_map (λ text. text.now) result ≡ text_of self.now.texts name.now }
    {
        text_of(self.state.texts.as_slice(), name)
    }
}
