//! What the tests call of a session. These methods promise nothing, and the tests are proved from them alone: so no
//! proof of a test carries along what a session is made of, or what its contracts say.

ghost use Rattle.std.specs.Prelude.{◌<◌, ◌-◌, ◌^◌};

use bibtex::{Bytes, Edit, Message, Refusal, Report, Session, edit_all};
use bt_serve::{ServeFault, serve};
use bt_streams::{Sink, Source};
use std::alloc::{AllocError, Global};

/// What a session shows, but for its texts.
#[derive(Clone, Copy)]
pub struct Shown<'a> {
    pub bbl: &'a [u8],
    pub blg: &'a [u8],
    pub terse: &'a [u8],
    pub status: u8,
    pub wanted: &'a [Bytes],
    pub messages: &'a [Message],
}

/// A session as the tests use it.
pub trait Tested: Drop {
    fn begun(alloc: Global, root: &[u8], min: u32) -> Result<Self, Refusal>;

    fn make(&mut self, edit: Edit<'_>) -> Result<Report, Refusal>;

    fn make_all(
        &mut self,
        alloc: Global,
        edits: &[Edit<'_>],
    ) -> Result<Vec<Result<Report, Refusal>>, AllocError>;

    fn answer<S: Source, K: Sink>(
        &mut self,
        alloc: Global,
        source: &mut S,
        sink: &mut K,
    ) -> Result<(), ServeFault>
        requires reads { (S.seen source.old).failures < 2 ^ 64 - 1 }
        requires writes { (K.seen sink.old).failures < 2 ^ 64 - 1 };

    /// The first reason to refuse an edit that brings this number of bytes.
    fn reason(&self, edit: Edit<'_>, size: usize) -> Option<Refusal>;

    fn shown(&self) -> Shown<'_>;

    fn text(&self, name: &[u8]) -> Option<&[u8]>;
}

impl Tested for Session {
    fn begun(alloc: Global, root: &[u8], min: u32) -> Result<Self, Refusal> {
        Session::new(alloc, root, min)
    }

    fn make(&mut self, edit: Edit<'_>) -> Result<Report, Refusal> {
        self.edit(edit)
    }

    fn make_all(
        &mut self,
        alloc: Global,
        edits: &[Edit<'_>],
    ) -> Result<Vec<Result<Report, Refusal>>, AllocError> {
        edit_all(alloc, self, edits)
    }

    fn answer<S: Source, K: Sink>(
        &mut self,
        alloc: Global,
        source: &mut S,
        sink: &mut K,
    ) -> Result<(), ServeFault> {
        serve(alloc, source, sink, self)
    }

    fn reason(&self, edit: Edit<'_>, size: usize) -> Option<Refusal> {
        self.refusal(edit, size)
    }

    fn shown(&self) -> Shown<'_> {
        Shown {
            bbl: self.bbl(),
            blg: self.blg(),
            terse: self.terse(),
            status: self.status(),
            wanted: self.wanted(),
            messages: self.messages(),
        }
    }

    fn text(&self, name: &[u8]) -> Option<&[u8]> {
        self.file(name)
    }
}
