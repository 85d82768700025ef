//! Names of files: which are allowed, which text each has, and what is wrong with one.
//!
//! A session never opens a path, so a name is only bytes to compare. LaTeX writes the names of databases and styles as
//! the author does, mostly without an extension, but names of nested files with one. So `.bib` and `.bst` are added
//! where they are missing, and a nested file without `.aux` is a fault.

ghost use Rattle.std.specs.Prelude.{◌≡◌, IfOk};
ghost use Rattle.std.specs.List.{list_all};
ghost use Rattle.std.specs.Option.{option_map};
ghost use Rattle.bt_job.specs.FileNames.{is_aux, is_file_name_byte, is_file_name, with_ending, file_name_of, text_of};
ghost use Rattle.bt_job.specs.inner.FileNames.{has_ending, met_before, name_fault};

use crate::files::File;
use crate::reader::Reader;
use bt_bib::Command;
use bt_log::FileNote;
use bt_text::{Bytes, Shared};
use std::alloc::{AllocError, Global};

/// How many bytes a file's name may have, including its folder and extension.
pub const FILE_NAME_BYTES: usize = 64;

fn is_name_byte(byte: u8) -> bool
    ensures { result ≡ is_file_name_byte byte }
{
    matches!(byte, b'A'..=b'Z' | b'a'..=b'z' | b'0'..=b'9' | b'.' | b'-' | b'_' | b'+' | b'/')
}

fn has_name_bytes(name: &[u8]) -> bool
    ensures { result ≡ list_all is_file_name_byte name.now }
{
    name.iter().all(|byte| is_name_byte(*byte))
}

/// Whether a file may have this name.
pub fn is_file_name(name: &[u8]) -> bool
    ensures { result ≡ is_file_name name.now }
{
    name.len() >= 1 && name.len() <= FILE_NAME_BYTES && has_name_bytes(name)
}

/// The text of the file with this name, as the file owns it, if there is such a file.
pub fn owned_text_of<'a>(files: &'a [File], name: &[u8]) -> Option<&'a Shared<Bytes>>
    ensures { option_map (λ t. t.now) result ≡ text_of files.now name.now }
{
    'files: for file in files {
        if file.name.as_slice() == name {
            return Some(&file.text);
        }
    }
    None
}

/// The text of the file with this name, if there is such a file.
pub fn text_of<'a>(files: &'a [File], name: &[u8]) -> Option<&'a [u8]>
    ensures { option_map (λ t. t.now) result ≡ text_of files.now name.now }
{
    let text = owned_text_of(files, name)?;
    Some(text.as_slice())
}

fn with_ending(alloc: Global, ending: &[u8], name: &[u8]) -> Result<Bytes, AllocError>
    ensures { IfOk result (λ text. text ≡ with_ending ending.now name.now) }
{
    if name.ends_with(ending) {
        Bytes::copied(alloc, name)
    } else {
        Bytes::of(alloc, &[name, ending])
    }
}

/// The name of the file that a part of a command means; a key is returned unchanged. The only error is out of memory.
pub fn file_name_of(alloc: Global, command: Command, part: &[u8]) -> Result<Bytes, AllocError>
    ensures { IfOk result (λ name. name ≡ file_name_of command part.now) }
{
    match command {
        Command::Database => with_ending(alloc, b".bib", part),
        Command::Style => with_ending(alloc, b".bst", part),
        Command::Nested | Command::Citation => Bytes::copied(alloc, part),
    }
}

/// Whether a name ends as that of an `.aux` file.
pub fn is_aux(name: &[u8]) -> bool
    ensures { result ≡ is_aux name.now }
{
    name.ends_with(b".aux")
}

fn has_ending(command: Command, name: &[u8]) -> bool
    ensures { result ≡ has_ending command name.now }
{
    match command {
        Command::Nested => is_aux(name),
        Command::Database | Command::Style | Command::Citation => true,
    }
}

fn met_before(command: Command) -> Option<FileNote>
    ensures { result ≡ met_before command }
{
    match command {
        Command::Database => Some(FileNote::DatabaseTwice),
        Command::Nested => Some(FileNote::AuxTwice),
        Command::Style | Command::Citation => None,
    }
}

impl Reader {
    /// What is wrong with a name, given the files that were met so far.
    #[tactic(auto, unfolding(crate::specs::inner::FileNames::name_fault))]
    pub fn name_fault(&self, command: Command, name: &[u8]) -> Option<FileNote>
        ensures { result ≡ name_fault command self.now.progress.met name.now }
    {
        if !has_ending(command, name) {
            Some(FileNote::WrongExtension)
        } else if !is_file_name(name) {
            Some(FileNote::BadFileName)
        } else if self.was_met(name) {
            met_before(command)
        } else {
            None
        }
    }
}
