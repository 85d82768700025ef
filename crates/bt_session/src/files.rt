//! An author's files with one of them changed, beside those that are there.

ghost use Rattle.std.specs.Prelude.{◌≡◌, ◌<◌, length, IfOk, IfSome};
ghost use Rattle.bibtex.specs.Applied.{file_count_limit};
ghost use Rattle.bibtex.specs.Present.{place_of_file, with_text};
ghost use Rattle.bibtex.specs.inner.Cases.{without};
ghost use Rattle.bt_session.specs.Author.{is_full_for};

use bibtex::FILE_LIMIT;
use bt_job::{File, text_of};
use bt_text::{Bytes, Sequence, Shared};
use std::alloc::{AllocError, Global};

/// Whether there is no room for a file of this name: it would be one more, and there are 64 files.
pub fn is_full_for(files: &[File], name: &[u8]) -> bool
    ensures { result ≡ is_full_for files.now name.now }
{
    match text_of(files, name) {
        Some(_) => false,
        None => files.len() >= FILE_LIMIT,
    }
}

fn place_of(files: &[File], name: &[u8]) -> Option<usize>
    ensures place { result ≡ place_of_file name.now files.now }
    ensures within { IfSome result (λ n. n < length files.now) }
{
    files.iter().position(|file| file.name.as_slice() == name)
}

fn shared(file: &File) -> Result<File, AllocError>
    ensures { IfOk result (λ again. again ≡ file.now) }
{
    Ok(File {
        name: file.name.share()?,
        text: file.text.share()?,
    })
}

fn all_shared(alloc: Global, files: &[File]) -> Result<Sequence<File>, AllocError>
    ensures { IfOk result (λ again. again ≡ files.now) }
{
    let mut again = Sequence::new(alloc);
    'files: for file in files {
        again.push(shared(file)?)?;
    }
    Ok(again)
}

/// The files with a text in the place of that of its name, or after the others if none has it.
pub fn with_text(
    alloc: Global,
    files: &[File],
    name: &[u8],
    text: Shared<Bytes>,
) -> Result<Sequence<File>, AllocError>
    ensures { IfOk result (λ changed. changed ≡ with_text name.now text files.now) }
{
    let file = File {
        name: Shared::<Bytes>::copied(alloc, name)?,
        text,
    };
    let mut changed = all_shared(alloc, files)?;
    match place_of(files, name) {
        Some(place) => changed.set(place, file),
        None => changed.push(file)?,
    }
    Ok(changed)
}

/// The files without the one of a name.
pub fn without(alloc: Global, files: &[File], name: &[u8]) -> Result<Sequence<File>, AllocError>
    ensures { IfOk result (λ left. left ≡ without name.now files.now) }
{
    let mut left = Sequence::new(alloc);
    'files: for file in files {
        if file.name.as_slice() != name {
            left.push(shared(file)?)?;
        }
    }
    Ok(left)
}
