//! The first reason to refuse a change.

ghost use Rattle.std.specs.Prelude.{◌≡◌};
ghost use Rattle.bibtex.specs.Present.{is_root_name};
ghost use Rattle.bibtex.specs.Applied.{write_refusal, range_refusal, splice_refusal, code_of};
ghost use Rattle.bibtex.specs.inner.Cases.{remove_refusal, root_refusal};

use crate::edit::Refusal;
use crate::files::place_of;
use bt_job::{File, is_file_name, text_of};

/// How many bytes a file may have.
pub const FILE_BYTES: usize = 1_048_576;

/// How many files there may be.
pub const FILE_LIMIT: usize = 64;

/// How many bytes a root name may have, so that it is a file's name with `.aux` after it.
const ROOT_LIMIT: usize = 60;

/// Whether a run may begin at this name followed by `.aux`.
pub fn is_root_name(root: &[u8]) -> bool
    ensures { result ≡ is_root_name root.now }
{
    is_file_name(root) && root.len() <= ROOT_LIMIT
}

/// The reason to refuse a text of `size` bytes under a name, if there is one.
pub fn write_refusal(files: &[File], name: &[u8], size: usize) -> Option<Refusal>
    ensures { result ≡ write_refusal files.now name.now size }
{
    if !is_file_name(name) {
        return Some(Refusal::BadName);
    }
    if size > FILE_BYTES {
        return Some(Refusal::FileTooLarge);
    }
    if place_of(files, name).is_none() && files.len() >= FILE_LIMIT {
        return Some(Refusal::TooManyFiles);
    }
    None
}

/// The reason to refuse `size` bytes in the place of a text's bytes `start..end`, if there is one.
fn range_refusal(text: &[u8], start: usize, end: usize, size: usize) -> Option<Refusal>
    ensures { result ≡ range_refusal text.now start end size }
{
    if start > end || end > text.len() {
        return Some(Refusal::RangeOutside);
    }
    let kept = start + (text.len() - end);
    if kept > FILE_BYTES || size > FILE_BYTES - kept {
        return Some(Refusal::FileTooLarge);
    }
    None
}

/// The reason to refuse `size` bytes in the place of the bytes `start..end` of the text of a name, if there is one.
pub fn splice_refusal(
    files: &[File],
    name: &[u8],
    start: usize,
    end: usize,
    size: usize,
) -> Option<Refusal>
    ensures { result ≡ splice_refusal files.now name.now start end size }
{
    if !is_file_name(name) {
        return Some(Refusal::BadName);
    }
    match text_of(files, name) {
        Some(text) => range_refusal(text, start, end, size),
        None => Some(Refusal::NoSuchFile),
    }
}

pub fn remove_refusal(files: &[File], name: &[u8]) -> Option<Refusal>
    ensures { result ≡ remove_refusal files.now name.now }
{
    if !is_file_name(name) {
        return Some(Refusal::BadName);
    }
    match text_of(files, name) {
        Some(_) => None,
        None => Some(Refusal::NoSuchFile),
    }
}

pub fn root_refusal(root: &[u8]) -> Option<Refusal>
    ensures { result ≡ root_refusal root.now }
{
    if is_root_name(root) {
        None
    } else {
        Some(Refusal::BadName)
    }
}

/// The number of a refusal, as the answers of the command loop and the lines of the one-shot form have it: 1 to 6, in
/// the order of the cases.
pub fn code_of(refusal: Refusal) -> u8
    ensures { result ≡ code_of refusal }
{
    match refusal {
        Refusal::BadName => 1,
        Refusal::NoSuchFile => 2,
        Refusal::RangeOutside => 3,
        Refusal::FileTooLarge => 4,
        Refusal::TooManyFiles => 5,
        Refusal::OutOfMemory => 6,
    }
}
