//! Edits of the present state, and why they are refused.

ghost use Rattle.std.specs.Prelude.{◌≡◌};
ghost use Rattle.bibtex.specs.Edit.{edit_of, bytes_of, with_bytes};

use std::alloc::AllocError;
use thiserror::Error;

/// An edit of the present state. It borrows the names and bytes that it brings.
#[derive(Clone, Copy, Debug)]
pub enum Edit<'a> {
    /// The name of a file and its bytes: a new text, or one that replaces the present text of that name.
    Write(&'a [u8], &'a [u8]),
    /// The name of a file, and bytes that replace its bytes from one place, counted from 0, up to another.
    Splice(&'a [u8], usize, usize, &'a [u8]),
    /// The name of a file that is removed.
    Remove(&'a [u8]),
    /// The root name: the run begins at the file of this name followed by `.aux`.
    Root(&'a [u8]),
    /// How many entries must refer to an uncited one before it is listed.
    MinCrossrefs(u32),
}

impl<'a> Edit<'a> {
    /// The bytes that the edit brings; none if it brings no text.
    pub fn bytes(self) -> &'a [u8]
        ensures { result.now ≡ bytes_of (edit_of self.entry) }
    {
        match self {
            Edit::Write(_, bytes) | Edit::Splice(_, _, _, bytes) => bytes,
            Edit::Remove(_) | Edit::Root(_) | Edit::MinCrossrefs(_) => b"",
        }
    }

    /// The same edit with these bytes instead of those that it brings. An edit that brings none stays as it is.
    pub fn with(self, bytes: &'a [u8]) -> Edit<'a>
        ensures { edit_of result ≡ with_bytes bytes.entry.now (edit_of self.entry) }
    {
        match self {
            Edit::Write(name, _) => Edit::Write(name, bytes),
            Edit::Splice(name, start, end, _) => Edit::Splice(name, start, end, bytes),
            Edit::Remove(_) | Edit::Root(_) | Edit::MinCrossrefs(_) => self,
        }
    }
}

/// Why an edit is refused. A refused edit changes nothing.
#[derive(Clone, Copy, PartialEq, Eq, Debug, Error)]
#[error("{:?}", self)]
pub enum Refusal {
    /// The name isn't one of 1 to 64 bytes, each an ASCII letter, a digit or one of `. - _ + /`; or a root name isn't
    /// one of 1 to 60 such bytes.
    BadName,
    /// No file has the name.
    NoSuchFile,
    /// The bytes to be replaced end before they begin, or after the end of the text.
    RangeOutside,
    /// The text would have more than 1,048,576 bytes.
    FileTooLarge,
    /// The name is new, and there are 64 files already.
    TooManyFiles,
    /// Memory ran out.
    OutOfMemory,
}

impl From<AllocError> for Refusal {
    ghost use Rattle.std.specs.Prelude.{◌≡◌};
    ghost use Rattle.bibtex.specs.declared.edit.Refusal.TheVariants.{OutOfMemory};

    ghost from_gives = { λ _ e. e ≡ OutOfMemory };

    fn from(_value: AllocError) -> Self {
        Refusal::OutOfMemory
    }
}
