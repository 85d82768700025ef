//! What a line that matters changes.
//!
//! A part is taken, or is an error, after which the rest of its line is skipped, or opens a nested file (`Outcome`). If
//! memory runs out, `progress` may be only partly updated; the caller then drops the whole reading.

ghost use Rattle.std.specs.Prelude.{◌≡◌, ◌++◌, codes, IfOk};
ghost use Rattle.bt_log.specs.declared.message.Said.TheVariants.{Words, OfFile};
ghost use Rattle.bt_job.specs.declared.progress.Outcome.TheVariants.{Wrong};
ghost use Rattle.bt_job.specs.inner.LineEffects.{cited_all, cited_part, file_kind, file_found, named, part_taken, argument_words};
ghost use Rattle.bt_job.specs.inner.LineEffects.{fault_outcome, is_second, second_words, command_met, item_taken};

use crate::file_names::{file_name_of, text_of};
use crate::files::File;
use crate::progress::Outcome;
use crate::reader::Reader;
use bt_bib::{AuxFault, AuxItem, Command};
use bt_log::{FileKind, FileNote, Message, Rank, Said};
use bt_text::{Bytes, Shared};
use std::alloc::{AllocError, Global};

fn wrong(alloc: Global, words: &[u8]) -> Result<Outcome, AllocError>
    ensures { IfOk result (λ outcome. outcome ≡ Wrong (Words words.now)) }
{
    let words = Shared::<Bytes>::copied(alloc, words)?;
    Ok(Outcome::Wrong(Said::Words(words)))
}

fn wrong_file(alloc: Global, note: FileNote, name: &[u8]) -> Result<Outcome, AllocError>
    ensures { IfOk result (λ outcome. outcome ≡ Wrong (OfFile note name.now)) }
{
    let file = Shared::<Bytes>::copied(alloc, name)?;
    Ok(Outcome::Wrong(Said::OfFile { note, file }))
}

/// The error for a key that was cited before in a different spelling.
fn mismatch(alloc: Global, key: &[u8], old: &[u8]) -> Result<Outcome, AllocError>
    ensures { IfOk result (λ outcome. outcome
        ≡ Wrong (Words (codes "Case mismatch error between cite keys " ++ key.now ++ codes " and " ++ old.now))) }
{
    let words = Shared::<Bytes>::of(
        alloc,
        &[
            b"Case mismatch error between cite keys ",
            key,
            b" and ",
            old,
        ],
    )?;
    Ok(Outcome::Wrong(Said::Words(words)))
}

/// The kind of file that a command names. A `\citation` names none.
fn file_kind(command: Command) -> FileKind
    ensures { result ≡ file_kind command }
{
    match command {
        Command::Database => FileKind::Bib,
        Command::Style => FileKind::Bst,
        Command::Nested | Command::Citation => FileKind::Aux,
    }
}

fn argument_words(fault: AuxFault) -> &'static [u8]
    ensures { result.now ≡ argument_words fault }
{
    match fault {
        AuxFault::NoBrace => b"No \"}\"",
        AuxFault::WhiteSpace => b"White space in argument",
        AuxFault::StuffAfter => b"Stuff after \"}\"",
    }
}

fn fault_outcome(alloc: Global, fault: Option<AuxFault>) -> Result<Outcome, AllocError>
    ensures { IfOk result (λ outcome. outcome ≡ fault_outcome fault) }
{
    match fault {
        None => Ok(Outcome::Taken),
        Some(fault) => wrong(alloc, argument_words(fault)),
    }
}

fn second_words(command: Command) -> &'static [u8]
    ensures { result.now ≡ second_words command }
{
    match command {
        Command::Database => b"Illegal, another \\bibdata command",
        Command::Style => b"Illegal, another \\bibstyle command",
        Command::Citation | Command::Nested => b"",
    }
}

impl Reader {
    /// A part `*`, which means all entries of the databases.
    fn cite_all(&mut self) -> Result<Outcome, AllocError>
        ensures { IfOk result (λ outcome. (self.new.progress, outcome)
            ≡ cited_all self.old.progress.star self.old.progress) }
    {
        if self.progress.star.is_some() {
            return wrong(self.alloc, b"Multiple inclusions of entire database");
        }
        self.progress.star = Some(self.progress.keys.as_slice().len());
        Ok(Outcome::Taken)
    }

    #[tactic(auto, unfolding(crate::specs::inner::LineEffects::cited_part))]
    fn cite(&mut self, part: &[u8]) -> Result<Outcome, AllocError>
        ensures { IfOk result (λ outcome. (self.new.progress, outcome) ≡ cited_part part.now self.old.progress) }
    {
        if part == b"*".as_slice() {
            return self.cite_all();
        }
        let alloc = self.alloc;
        let Some(old) = self.progress.keys.find(alloc, part)? else {
            self.progress.keys.push(alloc, part)?;
            return Ok(Outcome::Taken);
        };
        let old = old.as_slice();
        if old == part {
            Ok(Outcome::Taken)
        } else {
            mismatch(alloc, part, old)
        }
    }

    fn take_found(&mut self, command: Command, name: &[u8]) -> Result<Outcome, AllocError>
        ensures { IfOk result (λ outcome. (self.new.progress, outcome)
            ≡ file_found command name.now self.old.progress) }
    {
        match command {
            Command::Database => {
                let name = Bytes::copied(self.alloc, name)?;
                self.progress.databases.push(name)?;
                Ok(Outcome::Taken)
            }
            Command::Style => {
                let file = Shared::<Bytes>::copied(self.alloc, name)?;
                self.progress.style = Some(Bytes::copied(self.alloc, name)?);
                let line = Message::of_file(Rank::FileLine, FileNote::StyleFile, file);
                self.tell(line)?;
                Ok(Outcome::Taken)
            }
            Command::Nested => {
                let file = Shared::<Bytes>::copied(self.alloc, name)?;
                Ok(Outcome::Opens(file))
            }
            Command::Citation => Ok(Outcome::Taken),
        }
    }

    #[tactic(auto, unfolding(crate::specs::inner::LineEffects::named))]
    fn take_name(
        &mut self,
        files: &[File],
        command: Command,
        name: &[u8],
    ) -> Result<Outcome, AllocError>
        ensures { IfOk result (λ outcome. (self.new.progress, outcome)
            ≡ named files.now command name.now self.old.progress) }
    {
        if let Some(note) = self.name_fault(command, name) {
            return wrong_file(self.alloc, note, name);
        }
        self.meet(command, name)?;
        if text_of(files, name).is_some() {
            self.take_found(command, name)
        } else {
            self.want(name)?;
            wrong_file(self.alloc, FileNote::NotOpened(file_kind(command)), name)
        }
    }

    fn take_part(
        &mut self,
        files: &[File],
        command: Command,
        part: &[u8],
    ) -> Result<Outcome, AllocError>
        ensures { IfOk result (λ outcome. (self.new.progress, outcome)
            ≡ part_taken files.now command part.now self.old.progress) }
    {
        match command {
            Command::Citation => self.cite(part),
            Command::Database | Command::Style | Command::Nested => {
                let name = file_name_of(self.alloc, command, part)?;
                self.take_name(files, command, name.as_slice())
            }
        }
    }

    /// Whether the command may occur only once, and occurred before.
    fn is_second(&self, command: Command) -> bool
        ensures { result ≡ is_second command self.now.progress }
    {
        match command {
            Command::Database => self.progress.database_met,
            Command::Style => self.progress.style_met,
            Command::Citation | Command::Nested => false,
        }
    }

    fn enter(&mut self, command: Command)
        ensures { self.new.progress ≡ command_met command self.old.progress }
    {
        match command {
            Command::Citation => self.progress.citation_met = true,
            Command::Database => self.progress.database_met = true,
            Command::Style => self.progress.style_met = true,
            Command::Nested => {}
        }
    }

    /// Takes a line that matters. The only error is out of memory; some parts of the line may have been taken by then.
    #[tactic(auto, unfolding(crate::specs::inner::LineEffects::item_taken))]
    pub fn take_item(&mut self, files: &[File], item: &AuxItem) -> Result<Outcome, AllocError>
        ensures { IfOk result (λ outcome. (self.new.progress, outcome)
            ≡ item_taken files.now item.now self.old.progress) }
    {
        if self.is_second(item.command) {
            return wrong(self.alloc, second_words(item.command));
        }
        self.enter(item.command);
        'parts: for part in item.parts.as_slice() {
            match self.take_part(files, item.command, part.as_slice())? {
                Outcome::Taken => {}
                outcome => return Ok(outcome),
            }
        }
        fault_outcome(self.alloc, item.fault)
    }
}
