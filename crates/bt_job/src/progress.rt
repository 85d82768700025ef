//! How far the reading of the `.aux` files has progressed.

ghost use Rattle.std.specs.Prelude.{◌≡◌, IfOk};
ghost use Rattle.bt_job.specs.inner.NestedFiles.{asked_for};

use crate::citations::Citations;
use bt_log::{Message, Said};
use bt_text::{Bytes, NameList, Sequence, Shared};
use std::alloc::{AllocError, Global};

/// What the `.aux` files have asked for so far (as in `Citations`), and which names and commands were met.
#[derive(Drop)]
pub struct Progress {
    pub keys: NameList,
    /// How many keys were cited before the `*`, if it was cited.
    pub star: Option<usize>,
    pub databases: Sequence<Bytes>,
    pub style: Option<Bytes>,
    pub log: Sequence<Message>,
    /// The names that were looked up and not found, each once.
    pub wanted: Sequence<Bytes>,
    /// The names of the databases and `.aux` files that were met.
    pub met: Sequence<Bytes>,
    pub citation_met: bool,
    pub database_met: bool,
    pub style_met: bool,
}

impl Progress {
    /// What was asked for. The only error is out of memory.
    pub fn into_citations(self, alloc: Global) -> Result<Citations, AllocError>
        ensures { IfOk result (λ asked. asked ≡ asked_for self) }
    {
        let Progress {
            keys,
            star,
            databases,
            style,
            log,
            wanted,
            ..
        } = self;
        Ok(Citations {
            keys: Shared::new(alloc, keys)?,
            star,
            databases,
            style,
            log,
            wanted,
        })
    }
}

/// The outcome of a part of a command.
#[derive(Drop)]
pub enum Outcome {
    /// It is taken, or it is already known.
    Taken,
    Wrong(Said),
    /// It opens the file of this name.
    Opens(Shared<Bytes>),
}
