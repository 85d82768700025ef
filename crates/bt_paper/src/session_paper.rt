//! A session as the desk's paper.

ghost use Rattle.std.specs.Prelude.{IsTrue};
ghost use Rattle.bt_documents.specs.Documents.{Follows};
ghost use Rattle.bt_places.specs.Words.{fits_latin};
ghost use Rattle.bt_paper.specs.Paper.{text_at, KeepsTexts};

use crate::beginning::{ROUNDS, all_folders, begun};
use crate::finding::find;
use crate::folders::{Folder, path_of};
use crate::giving::{give, taken};
use crate::known::{Known, name_of};
use crate::library::Library;
use crate::looking::{lenses_at, origin_of, step_words_at};
use crate::open_files::{add, is_among, reread};
use bt_documents::{Document, Files, Written};
use bt_log::Message;
use bt_places::{Paper, fits_latin};
use bt_remarks::{Finding, Lens, Origin, Remarks, StepWord};
use bt_session::AuthorSession;
use bt_style_findings::findings_of;
use bt_text::{Bytes, Sequence};
use std::alloc::{AllocError, Global};
use std::mem;

/// What the command line says.
#[derive(Drop)]
pub struct Options {
    /// The job, unless the editor names another. Empty if it isn't named.
    pub job: String,
    /// The folders that are searched in order, each with a slash at its end. The editor's folder precedes them.
    pub folders: Vec<String>,
}

/// A session, once its job is known, and its files.
#[derive(Drop)]
pub struct SessionPaper<L> {
    pub alloc: Global,
    pub library: L,
    pub options: Options,
    pub folders: Vec<Folder>,
    pub session: Option<AuthorSession>,
    pub known: Sequence<Known>,
}

/// Copies, since the session changes while the files of these names are added.
fn wanted(alloc: Global, session: &Option<AuthorSession>) -> Result<Sequence<Bytes>, AllocError> {
    let mut names = Sequence::new(alloc);
    if let Some(session) = session {
        'names: for name in session.wanted() {
            names.push(Bytes::copied(alloc, name.as_slice())?)?;
        }
    }
    Ok(names)
}

/// Whether a text is what a file in Latin-1 has.
fn is_latin(bytes: &[u8], text: &str) -> bool
    ensures { IsTrue result → IsTrue (fits_latin text.now) }
{
    if str::from_utf8(bytes).is_ok() || !fits_latin(text) {
        return false;
    }
    text.chars().eq(bytes.iter().map(|byte| *byte as char))
}

impl<L: Library> SessionPaper<L> {
    /// A paper whose job isn't begun.
    pub fn new(alloc: Global, library: L, options: Options) -> Self {
        SessionPaper {
            alloc,
            library,
            options,
            folders: Vec::new(alloc),
            session: None,
            known: Sequence::new(alloc),
        }
    }

    /// Reads the file at a place again, unless it is open. If memory runs out, the file keeps its text.
    fn reread(&mut self, alloc: Global, n: usize, documents: &[Document]) -> Result<(), AllocError>
        ensures { Follows (text_at self.old.session self.old.known) documents.now →
            Follows (text_at self.new.session self.new.known) documents.now }
    {
        let Some(one) = self.known.as_slice().get(n) else {
            return Ok(());
        };
        if is_among(documents, one.uri.as_slice()) {
            return Ok(());
        }
        let text = self.library.read(alloc, one.path.as_str())?;
        let Some(session) = &mut self.session else {
            return Ok(());
        };
        let written = reread(session, self.known.as_slice(), one.uri.as_slice(), text);
        taken(written)?;
        Ok(())
    }

    /// Gives the run the file of a name, if it is found and the run has none. Says whether the run took it.
    fn add(&mut self, alloc: Global, name: &[u8]) -> Result<bool, AllocError>
        ensures { KeepsTexts (text_at self.old.session self.old.known) (text_at self.new.session self.new.known) }
    {
        let Some(found) = find(alloc, &self.library, &self.folders, name)? else {
            return Ok(false);
        };
        match &mut self.session {
            Some(session) => add(alloc, session, &mut self.known, found),
            None => Ok(false),
        }
    }

    /// Gives the run the files that it looks for, as far as they are found. Says whether it took one.
    fn fill(&mut self, alloc: Global) -> Result<bool, AllocError>
        ensures { KeepsTexts (text_at self.old.session self.old.known) (text_at self.new.session self.new.known) }
    {
        let names = wanted(alloc, &self.session)?;
        let mut grown = false;
        'names: for name in names.as_slice() {
            let taken = self.add(alloc, name.as_slice())?;
            grown = grown || taken;
        }
        Ok(grown)
    }

    /// The same until it takes none.
    fn complete(&mut self, alloc: Global) -> Result<(), AllocError>
        ensures { KeepsTexts (text_at self.old.session self.old.known) (text_at self.new.session self.new.known) }
    {
        'rounds: for _ in 0..ROUNDS {
            if !self.fill(alloc)? {
                return Ok(());
            }
        }
        Ok(())
    }
}

impl<L: Library> Files for SessionPaper<L> {
    ghost use Rattle.bt_paper.specs.Paper.{text_at, refuses_at};

    ghost text = { λ paper uri. text_at paper.session paper.known uri };

    ghost refuses = { λ paper uri new. refuses_at paper.session paper.known uri };

    fn write(&mut self, name: &[u8], new: &[u8]) -> Written {
        let Some(own) = name_of(self.known.as_slice(), name) else {
            return Written::Refused;
        };
        match &mut self.session {
            Some(session) => give(session, own, new),
            None => Written::Refused,
        }
    }
}

impl<L: Library> Paper for SessionPaper<L> {
    ghost use Rattle.std.specs.Prelude.{unwrap_or};
    ghost use Rattle.std.specs.String.{string_bytes};
    ghost use Rattle.bt_paper.specs.Paper.{shown_of, IsOfJob};

    ghost shown = { λ paper. shown_of paper.session paper.known };

    ghost begins = { λ paper job folder after. IsOfJob (unwrap_or job (string_bytes paper.options.job)) after.session };

    fn name(&self, uri: &[u8]) -> Option<&[u8]> {
        name_of(self.known.as_slice(), uri)
    }

    fn messages(&self) -> &[Message] {
        match &self.session {
            Some(session) => session.messages(),
            None => &[],
        }
    }

    fn file_count(&self) -> usize {
        self.known.len()
    }

    fn file(&self, n: usize) -> (&[u8], &[u8]) {
        let one = &self.known.as_slice()[n];
        match &self.session {
            Some(session) => (
                one.uri.as_slice(),
                session.file(one.name.as_slice()).unwrap_or(&[]),
            ),
            None => (one.uri.as_slice(), &[]),
        }
    }

    fn entry_text(&self, key: &[u8]) -> Result<Bytes, AllocError> {
        match &self.session {
            Some(session) => session.entry_text(key),
            None => Ok(Bytes::new(self.alloc)),
        }
    }

    fn bibliography(&self) -> &[u8] {
        match &self.session {
            Some(session) => session.bbl(),
            None => &[],
        }
    }

    fn log(&self) -> &[u8] {
        match &self.session {
            Some(session) => session.blg(),
            None => &[],
        }
    }

    fn status(&self) -> u8 {
        match &self.session {
            Some(session) => session.status(),
            None => 0,
        }
    }

    fn lenses(&self, alloc: Global, uri: &[u8]) -> Result<Sequence<Lens>, AllocError> {
        match &self.session {
            Some(session) => lenses_at(alloc, session, self.known.as_slice(), uri),
            None => Ok(Sequence::new(alloc)),
        }
    }

    fn origin(
        &self,
        alloc: Global,
        line: usize,
        column: usize,
    ) -> Result<Option<Origin>, AllocError> {
        match &self.session {
            Some(session) => origin_of(alloc, session, self.known.as_slice(), line, column),
            None => Ok(None),
        }
    }

    fn is_latin(&self, alloc: Global, uri: &str, text: &str) -> Result<bool, AllocError> {
        let Some(path) = path_of(alloc, uri.as_bytes())? else {
            return Ok(false);
        };
        let Some(bytes) = self.library.read(alloc, path.as_str())? else {
            return Ok(false);
        };
        Ok(is_latin(bytes.as_slice(), text))
    }

    fn begin(
        &mut self,
        alloc: Global,
        job: Option<&str>,
        folder: Option<&str>,
    ) -> Result<(), AllocError> {
        let folders = all_folders(alloc, folder, &self.options.folders)?;
        let root = job.unwrap_or(self.options.job.as_str());
        let mut known = Sequence::new(alloc);
        let session = begun(alloc, &self.library, &folders, root.as_bytes(), &mut known)?;
        // An assignment would drop the old one here, which takes long to prove.
        drop(mem::replace(&mut self.session, session));
        self.folders = folders;
        self.known = known;
        Ok(())
    }

    fn refresh(&mut self, alloc: Global, documents: &[Document]) -> Result<(), AllocError> {
        'known: for n in 0..self.known.len() {
            self.reread(alloc, n, documents)?;
        }
        self.complete(alloc)
    }
}

impl<L: Library> Remarks for SessionPaper<L> {
    fn step_words(
        &self,
        alloc: Global,
        uri: &[u8],
    ) -> Result<Sequence<Option<StepWord>>, AllocError> {
        match &self.session {
            Some(session) => step_words_at(alloc, session, self.known.as_slice(), uri),
            None => Ok(Sequence::new(alloc)),
        }
    }

    fn findings_of(&self, alloc: Global, text: &[u8]) -> Result<Sequence<Finding>, AllocError> {
        findings_of(alloc, text)
    }
}
