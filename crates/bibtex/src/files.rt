//! Texts and files with a part of them changed, beside those that are there.

ghost use Rattle.std.specs.Prelude.{◌≡◌, ◌<◌, ◌≤◌, length, IfOk, IfSome};
ghost use Rattle.bibtex.specs.Present.{place_of_file, with_text};
ghost use Rattle.bibtex.specs.inner.Cases.{without, replaced};

use bt_job::File;
use bt_text::{Bytes, Sequence, Shared};
use std::alloc::{AllocError, Global};

pub fn place_of(files: &[File], name: &[u8]) -> Option<usize>
    ensures place { result ≡ place_of_file name.now files.now }
    ensures within { IfSome result (λ n. n < length files.now) }
{
    files.iter().position(|file| file.name.as_slice() == name)
}

fn shared(file: &File) -> Result<File, AllocError>
    ensures { IfOk result (λ again. again ≡ file.now) }
{
    Ok(File {
        name: file.name.share()?,
        text: file.text.share()?,
    })
}

pub fn all_shared(alloc: Global, files: &[File]) -> Result<Sequence<File>, AllocError>
    ensures { IfOk result (λ again. again ≡ files.now) }
{
    let mut again = Sequence::new(alloc);
    'files: for file in files {
        again.push(shared(file)?)?;
    }
    Ok(again)
}

/// The files with this text under this name: in the place of the name's old text, or last if the name is new.
pub fn with_text(
    alloc: Global,
    files: &[File],
    name: &[u8],
    text: Shared<Bytes>,
) -> Result<Sequence<File>, AllocError>
    ensures { IfOk result (λ changed. changed ≡ with_text name.now text files.now) }
{
    let file = File {
        name: Shared::<Bytes>::copied(alloc, name)?,
        text,
    };
    let mut changed = all_shared(alloc, files)?;
    match place_of(files, name) {
        Some(place) => changed.set(place, file),
        None => changed.push(file)?,
    }
    Ok(changed)
}

pub fn without(alloc: Global, files: &[File], name: &[u8]) -> Result<Sequence<File>, AllocError>
    ensures { IfOk result (λ left. left ≡ without name.now files.now) }
{
    let mut left = Sequence::new(alloc);
    'files: for file in files {
        if file.name.as_slice() != name {
            left.push(shared(file)?)?;
        }
    }
    Ok(left)
}

/// A text with other bytes in the place of its bytes `start..end`.
pub fn replaced(
    alloc: Global,
    text: &[u8],
    start: usize,
    end: usize,
    bytes: &[u8],
) -> Result<Bytes, AllocError>
    requires in_order { start ≤ end }
    requires within { end ≤ length text.now }
    ensures { IfOk result (λ changed. changed ≡ replaced start end bytes.now text.now) }
{
    let kept = start + (text.len() - end);
    let mut changed = Vec::with_capacity(alloc, kept + bytes.len())?;
    changed.extend_from_slice(&text[..start])?;
    changed.extend_from_slice(bytes)?;
    changed.extend_from_slice(&text[end..])?;
    Ok(Bytes::from_vec(changed))
}
