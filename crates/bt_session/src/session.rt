//! The session.

ghost use Rattle.std.specs.Prelude.{◌≡◌, IfOk, IsTrue, OnErr, option_map};

use crate::differing::splice_between;
use crate::draft::AuthorDraft;
use crate::entry_lines::entry_text;
use crate::files::{is_full_for, with_text, without};
use bt_front::JobRun;
use bt_job::{File, text_of};
use bt_log::Message;
use bt_run::{Change, Kept};
use bt_text::{Bytes, Sequence, Shared};
use std::alloc::{AllocError, Global};
use std::marker::Model;
use std::mem;

/// A session over an author's files. Contracts see its files by name, the root name and min-crossrefs. It also keeps what these
/// mean, the steps of their run, and what was read from the texts.
#[derive(Drop)]
pub struct AuthorSession {
    alloc: Global,
    texts: Sequence<File>,
    root: Bytes,
    min: u32,
    job: JobRun,
}

impl Model for AuthorSession {
    ghost use Rattle.bibtex.specs.declared.state.State.{State};
    ghost use Rattle.bt_front.specs.JobRun.{IsRunOfJob};

    ghost Value = { State };

    ghost view = { λ s. record { texts = s.texts; root = s.root; min = s.min } };

    ghost invariant = { λ s. IsRunOfJob s.texts s.root s.min s.job };
}

impl AuthorSession {
    ghost use Rattle.bibtex.specs.Present.{with_text};
    ghost use Rattle.bibtex.specs.inner.Cases.{without};
    ghost use Rattle.bibtex.specs.EntryText.{entry_text};
    ghost use Rattle.bt_job.specs.FileNames.{text_of};
    ghost use Rattle.bt_front.specs.Job.{names_of};
    ghost use Rattle.bt_run.specs.inner.Unseen.{AreOtherwise};
    ghost use Rattle.bt_session.specs.Author.{is_full_for, shown, steps_of};

    /// A session over these files, which are run from scratch. The only error is out of memory.
    pub fn of(draft: AuthorDraft) -> Result<AuthorSession, AllocError>
        ensures { IfOk result (λ session. session ≡ draft) }
    {
        let AuthorDraft {
            alloc,
            texts,
            root,
            min,
        } = draft;
        let job = JobRun::of(alloc, texts.as_slice(), root.as_slice(), min)?;
        Ok(AuthorSession {
            alloc,
            texts,
            root,
            min,
            job,
        })
    }

    /// Goes to other files, using what was read before: everything that they mean is made beside what is kept, and then
    /// replaces it. Only the resolution isn't kept twice: after out of memory the session has none.
    fn go_to(&mut self, texts: Sequence<File>) -> Result<(), AllocError>
        ensures ok { IfOk result (λ _. self.new ≡ record self.old { texts = texts }) }
        ensures err { OnErr result (self.new ≡ self.old) }
    {
        let job = JobRun::after(
            self.alloc,
            texts.as_slice(),
            self.root.as_slice(),
            self.min,
            &mut self.job.run.kept,
        )?;
        // An assignment would drop the old one here, which takes long to prove.
        drop(mem::replace(&mut self.job, job));
        self.texts = texts;
        Ok(())
    }

    /// Goes to files of the same names, of which one has another text.
    fn go_over(&mut self, name: &[u8], texts: Sequence<File>) -> Result<(), AllocError>
        requires names { names_of texts self.old.root ≡ names_of self.old.texts self.old.root }
        requires rest { AreOtherwise name.now self.old.texts texts }
        ensures ok { IfOk result (λ _. self.new ≡ record self.old { texts = texts }) }
        ensures err { OnErr result (self.new ≡ self.old) }
    {
        let change = Change {
            alloc: self.alloc,
            name,
            was: self.texts.as_slice(),
            files: texts.as_slice(),
            root: self.root.as_slice(),
            min: self.min,
        };
        if self.job.follow(change)? {
            self.texts = texts;
            return Ok(());
        }
        self.go_to(texts)
    }

    /// Hands the splice that gives a file this text to what the job keeps. Returns true only if the names that the files have
    /// and give stay the same.
    fn note(&mut self, name: &[u8], text: &Shared<Bytes>) -> Result<bool, AllocError>
        ensures same { self.new ≡ self.old }
        ensures names { IfOk result (λ stay. IsTrue stay →
            names_of (with_text name.now text.now self.old.texts) self.old.root ≡ names_of self.old.texts self.old.root) }
    {
        let Some(old) = text_of(self.texts.as_slice(), name) else {
            return Ok(false);
        };
        let splice = splice_between(old, text.as_slice());
        self.job.run.kept.splice(self.alloc, old, text, splice)?;
        Ok(!name.ends_with(b".aux"))
    }

    /// Whether there is no room for a file of this name: it would be one more, and there are 64 files.
    pub fn is_full_for(&self, name: &[u8]) -> bool
        ensures { result ≡ is_full_for self.now.texts name.now }
    {
        is_full_for(self.texts.as_slice(), name)
    }

    /// Gives the file of a name this text, of any size. After out of memory nothing has changed.
    pub fn write(&mut self, name: &[u8], text: &[u8]) -> Result<(), AllocError>
        ensures ok { IfOk result (λ _. self.new ≡ record self.old { texts = with_text name.now text.now self.old.texts }) }
        ensures err { OnErr result (self.new ≡ self.old) }
    {
        let text = Shared::<Bytes>::copied(self.alloc, text)?;
        let texts = with_text(self.alloc, self.texts.as_slice(), name, text.share()?)?;
        if self.note(name, &text)? {
            return self.go_over(name, texts);
        }
        self.go_to(texts)
    }

    /// Removes the file of a name, if there is one. After out of memory nothing has changed.
    pub fn remove(&mut self, name: &[u8]) -> Result<(), AllocError>
        ensures ok { IfOk result (λ _. self.new ≡ record self.old { texts = without name.now self.old.texts }) }
        ensures err { OnErr result (self.new ≡ self.old) }
    {
        let texts = without(self.alloc, self.texts.as_slice(), name)?;
        self.go_to(texts)
    }

    /// The bytes of the bibliography.
    pub fn bbl(&self) -> &[u8]
        ensures { result.now ≡ (shown self.now).bbl }
    {
        self.job.run.answers.bbl.as_slice()
    }

    /// The bytes of the log.
    pub fn blg(&self) -> &[u8]
        ensures { result.now ≡ (shown self.now).blg }
    {
        self.job.run.answers.blg.as_slice()
    }

    /// The messages of the log in their parts, in order, with the author's names of files.
    pub fn messages(&self) -> &[Message]
        ensures { result.now ≡ (shown self.now).messages }
    {
        self.job.run.answers.messages.as_slice()
    }

    /// 0 for a clean run, 1 after warnings, 2 after errors, 3 after a fatal error.
    pub fn status(&self) -> u8
        ensures { result ≡ (shown self.now).status }
    {
        self.job.run.answers.status
    }

    /// The names of the files that were looked for and not found, in order, each once.
    pub fn wanted(&self) -> &[Bytes]
        ensures { result.now ≡ (shown self.now).wanted }
    {
        self.job.run.answers.wanted.as_slice()
    }

    /// What the entry of a key prints in the present run: the lines that the steps for this key end, each with a line feed. It
    /// is empty if the run has no such entry. The only error is out of memory.
    pub fn entry_text(&self, key: &[u8]) -> Result<Bytes, AllocError>
        ensures { IfOk result (λ text. text ≡ entry_text key.now (steps_of self.now)) }
    {
        entry_text(self.alloc, self.job.run.kept.steps.as_slice(), key)
    }

    /// The steps of the run. They name files as the run does.
    pub fn kept(&self) -> &Kept
        ensures { result.now.steps ≡ steps_of self.now }
    {
        &self.job.run.kept
    }

    /// The text of the file of a name, if there is one.
    pub fn file(&self, name: &[u8]) -> Option<&[u8]>
        ensures { option_map (λ text. text.now) result ≡ text_of self.now.texts name.now }
    {
        text_of(self.texts.as_slice(), name)
    }
}
