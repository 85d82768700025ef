//! The `.aux` files of a session, with the lines of each nested file in its place.
//!
//! No file is opened twice (`FileNote::AuxTwice`), so files nest no deeper than there are files. The recursion is
//! bounded by one more than their number, so it always ends; no reading reaches the bound.

ghost use Rattle.std.specs.Prelude.{◌≡◌, ◌≤◌, ◌+◌, ◌-◌, length, IfOk, OnOk};
ghost use Rattle.bt_job.specs.Fit.{IsFit};
ghost use Rattle.bt_job.specs.FileNames.{text_of};
ghost use Rattle.bt_job.specs.Citations.{file_line, citations};
ghost use Rattle.bt_job.specs.inner.NestedFiles.{file_taken, missing, missing_one, ended, nothing_met, rooted};

use crate::aux_texts::AuxTexts;
use crate::citations::Citations;
use crate::file_names::{owned_text_of, text_of};
use crate::files::File;
use crate::progress::Outcome;
use crate::reader::Reader;
use bt_bib::Command;
use bt_log::{FileKind, FileNote, Message, Place, Rank};
use bt_text::{Bytes, Shared};
use std::alloc::{AllocError, Global};

fn file_line(level: usize, file: Shared<Bytes>) -> Message
    ensures { result ≡ file_line level file }
{
    if level == 0 {
        Message::of_file(Rank::FileLine, FileNote::RootAux, file)
    } else {
        Message::of_file(Rank::FileLine, FileNote::NestedAux(level), file)
    }
}

/// What the root's files lack if a command isn't there, and if it names nothing.
#[derive(Clone, Copy)]
struct Lacks<'a> {
    command: &'a [u8],
    named: &'a [u8],
}

impl Reader {
    /// Takes the lines of a file, with the lines of each file that it nests in the place of the nesting line, at most
    /// `bound` levels deep. The file's own level is `files.len() + 1 - bound`.
    fn take_file(
        &mut self,
        files: &[File],
        known: &mut AuxTexts,
        bound: usize,
        file: &Shared<Bytes>,
    ) -> Result<(), AllocError>
        requires { bound ≤ length files.now + 1 }
        ensures { OnOk result (self.new.progress
            ≡ file_taken bound files.now (length files.now + 1 - bound) file.now self.old.progress) }
    {
        if bound == 0 {
            return Ok(());
        }
        let Some(text) = owned_text_of(files, file.as_slice()) else {
            return Ok(());
        };
        self.tell(file_line(files.len() + 1 - bound, file.share()?))?;
        let items = known.lines(self.alloc, text)?;
        'items: for item in items.as_slice() {
            match self.take_item(files, item)? {
                Outcome::Taken => {}
                Outcome::Wrong(said) => self.tell_at(file, item.line, said)?,
                Outcome::Opens(name) => { self.take_file(files, known, bound - 1, &name)? }
            }
        }
        Ok(())
    }

    fn miss(&mut self, what: &[u8], file: &Shared<Bytes>) -> Result<(), AllocError>
        ensures { OnOk result (self.new.progress ≡ missing what.now file.now self.old.progress) }
    {
        let message = Message::of(self.alloc, Rank::Error, &[b"I found no ", what])?;
        let place = Place::WholeFile {
            file: file.share()?,
        };
        self.tell(message.at(place)?)
    }

    /// Reports a command that wasn't met, or that named nothing.
    fn miss_one(
        &mut self,
        met: bool,
        nothing: bool,
        lacks: Lacks<'_>,
        file: &Shared<Bytes>,
    ) -> Result<(), AllocError>
        ensures { OnOk result (self.new.progress
            ≡ missing_one met nothing lacks.entry.command.now lacks.entry.named.now file.now self.old.progress) }
    {
        if !met {
            self.miss(lacks.command, file)
        } else if nothing {
            self.miss(lacks.named, file)
        } else {
            Ok(())
        }
    }

    #[tactic(auto, unfolding(crate::specs::inner::NestedFiles::ended))]
    fn end(&mut self, file: &Shared<Bytes>) -> Result<(), AllocError>
        ensures { OnOk result (self.new.progress ≡ ended file.now self.old.progress) }
    {
        let asked = &self.progress;
        let no_keys = asked.keys.as_slice().is_empty() && asked.star.is_none();
        let no_databases = asked.databases.as_slice().is_empty();
        let no_style = asked.style.is_none();
        let (citation, database, style) = (asked.citation_met, asked.database_met, asked.style_met);
        let cited = Lacks {
            command: b"\\citation commands",
            named: b"cite keys",
        };
        let listed = Lacks {
            command: b"\\bibdata command",
            named: b"database files",
        };
        let styled = Lacks {
            command: b"\\bibstyle command",
            named: b"style file",
        };
        self.miss_one(citation, no_keys, cited, file)?;
        self.miss_one(database, no_databases, listed, file)?;
        self.miss_one(style, no_style, styled, file)
    }

    fn read_root(
        &mut self,
        files: &[File],
        known: &mut AuxTexts,
        file: &Shared<Bytes>,
    ) -> Result<(), AllocError>
        requires { self.old.progress ≡ nothing_met }
        ensures { OnOk result (self.new.progress ≡ rooted files.now file.now (text_of files.now file.now)) }
    {
        let name = file.as_slice();
        if text_of(files, name).is_none() {
            let note = FileNote::NotOpened(FileKind::Aux);
            self.tell(Message::of_file(Rank::Fatal, note, file.share()?))?;
            return self.want(name);
        }
        self.meet(Command::Nested, name)?;
        self.take_file(files, known, files.len() + 1, file)?;
        self.end(file)
    }
}

/// What the files of a session ask for. `root` is the root's name without `.aux`. Only texts that aren't in `known` are
/// read, and they are put there. The only error is out of memory.
pub fn read_citations(
    alloc: Global,
    files: &[File],
    root: &[u8],
    known: &mut AuxTexts,
) -> Result<Citations, AllocError>
    ensures value { IfOk result (λ asked. asked ≡ citations files.now root.now) }
    ensures fit { IfOk result (λ asked. IsFit files.now asked) }
{
    let file = Shared::new(alloc, Bytes::of(alloc, &[root, b".aux"])?)?;
    let mut reader = Reader::new(alloc);
    reader.read_root(files, known, &file)?;
    let asked = reader.into_citations()?;
    Ok(asked)
}
