//! The state of a reading of the `.aux` files.
//!
//! Contracts are only about `progress`. The tables merely speed up look-ups in its two lists of file names; only `meet`
//! and `want` change them, each together with its list.

ghost use Rattle.std.specs.Prelude.{◌≡◌, IfOk, OnOk, OnErr};
ghost use Rattle.bt_text.specs.NameList.{is_among};
ghost use Rattle.bt_job.specs.inner.NameTable.{Mirrors};
ghost use Rattle.bt_job.specs.inner.LineEffects.{told, logged_at, meeting, wanting};
ghost use Rattle.bt_job.specs.inner.NestedFiles.{nothing_met, asked_for};

use crate::citations::Citations;
use crate::name_table::NameTable;
use crate::progress::Progress;
use bt_bib::Command;
use bt_log::{Message, Place, Said};
use bt_text::{Bytes, NameList, Sequence, Shared};
use std::alloc::{AllocError, Global};

#[derive(Drop)]
pub struct Reader {
    pub alloc: Global,
    pub progress: Progress,
    met: NameTable,
    wanted: NameTable,
    ghost met_mirrored: { Mirrors met progress.met },
    ghost wanted_mirrored: { Mirrors wanted progress.wanted },
}

impl Reader {
    /// The state before any file is read. Allocates nothing.
    pub fn new(alloc: Global) -> Self
        ensures { result.progress ≡ nothing_met }
    {
        Reader {
            alloc,
            progress: Progress {
                keys: NameList::new(alloc),
                star: None,
                databases: Sequence::new(alloc),
                style: None,
                log: Sequence::new(alloc),
                wanted: Sequence::new(alloc),
                met: Sequence::new(alloc),
                citation_met: false,
                database_met: false,
                style_met: false,
            },
            met: NameTable::new(alloc),
            wanted: NameTable::new(alloc),
        }
    }

    /// The result. The only error is out of memory.
    pub fn into_citations(self) -> Result<Citations, AllocError>
        ensures { IfOk result (λ asked. asked ≡ asked_for self.progress) }
    {
        let Reader {
            alloc,
            progress,
            ..
        } = self;
        let asked = progress.into_citations(alloc)?;
        Ok(asked)
    }

    /// Appends a message. The only error is out of memory; nothing is logged then.
    pub fn tell(&mut self, message: Message) -> Result<(), AllocError>
        ensures ok { OnOk result (self.new.progress ≡ told message self.old.progress) }
        ensures err { OnErr result (self.new.progress ≡ self.old.progress) }
    {
        self.progress.log.push(message)?;
        Ok(())
    }

    /// Appends an error at a line of a file. The only error is out of memory; nothing is logged then.
    pub fn tell_at(
        &mut self,
        file: &Shared<Bytes>,
        line: usize,
        said: Said,
    ) -> Result<(), AllocError>
        ensures ok { OnOk result (self.new.progress ≡ logged_at file.now line said self.old.progress) }
        ensures err { OnErr result (self.new.progress ≡ self.old.progress) }
    {
        let place = Place::Line {
            file: file.share()?,
            line: line as u128,
            byte: None,
        };
        let message = Message::skipping(self.alloc, said, place, b"command")?;
        self.tell(message)?;
        Ok(())
    }

    /// Whether a database or an `.aux` file of this name was met.
    pub fn was_met(&self, name: &[u8]) -> bool
        ensures { result ≡ is_among self.now.progress.met name.now }
    {
        self.met.has(name)
    }

    /// Records that a database or an `.aux` file was met. The only error is out of memory; nothing is recorded then.
    pub fn meet(&mut self, command: Command, name: &[u8]) -> Result<(), AllocError>
        ensures ok { OnOk result (self.new.progress ≡ meeting command name.now self.old.progress) }
        ensures err { OnErr result (self.new.progress ≡ self.old.progress) }
    {
        match command {
            Command::Database | Command::Nested => {
                self.met.note(self.alloc, &mut self.progress.met, name)
            }
            Command::Style | Command::Citation => Ok(()),
        }
    }

    /// Records that a name was looked up and not found. The only error is out of memory; nothing is recorded then.
    pub fn want(&mut self, name: &[u8]) -> Result<(), AllocError>
        ensures ok { OnOk result (self.new.progress ≡ wanting name.now self.old.progress) }
        ensures err { OnErr result (self.new.progress ≡ self.old.progress) }
    {
        if self.wanted.has(name) {
            return Ok(());
        }
        self.wanted
            .note(self.alloc, &mut self.progress.wanted, name)
    }
}
