//! Begins a job: finds its files, and runs them once.

ghost use Rattle.std.specs.Prelude.{◌≡◌, IfOk};
ghost use Rattle.bt_paper.specs.Paper.{IsOfJob, KeepsJob};

use crate::finding::{Found, find};
use crate::folders::{Folder, folder_at, folder_of};
use crate::known::{Known, note};
use crate::library::Library;
use bt_session::{AuthorDraft, AuthorSession};
use bt_text::Sequence;
use std::alloc::{AllocError, Global};

/// How often new texts may name further files: nested `.aux` files do.
pub const ROUNDS: usize = 64;

/// The folders of an editor and of the command line, in this order.
pub fn all_folders(
    alloc: Global,
    editor: Option<&str>,
    paths: &[String],
) -> Result<Vec<Folder>, AllocError> {
    let mut folders = Vec::new(alloc);
    if let Some(uri) = editor
        && let Some(folder) = folder_of(alloc, uri)?
    {
        folders.push(folder)?;
    }
    'paths: for path in paths {
        folders.push(folder_at(alloc, path.as_str())?)?;
    }
    Ok(folders)
}

/// Gives a draft a file. Says whether the draft took it.
fn write(draft: &mut AuthorDraft, name: &[u8], text: &[u8]) -> Result<bool, AllocError>
    ensures { KeepsJob draft.old draft.new }
{
    if draft.is_full_for(name) {
        return Ok(false);
    }
    draft.write(name, text)?;
    Ok(true)
}

/// Gives a draft the files that it looks for, as far as they are found. Says whether it took one.
fn fill<L: Library>(
    alloc: Global,
    library: &L,
    folders: &[Folder],
    draft: &mut AuthorDraft,
    known: &mut Sequence<Known>,
) -> Result<bool, AllocError>
    ensures { KeepsJob draft.old draft.new }
{
    let wanted = draft.wanted()?;
    let mut grown = false;
    'names: for name in wanted.as_slice() {
        let name = name.as_slice();
        if let Some(Found { file, text }) = find(alloc, library, folders, name)? {
            note(known, file)?;
            let taken = write(draft, name, text.as_slice())?;
            grown = grown || taken;
        }
    }
    Ok(grown)
}

fn filled<L: Library>(
    alloc: Global,
    library: &L,
    folders: &[Folder],
    root: &[u8],
    known: &mut Sequence<Known>,
) -> Result<AuthorDraft, AllocError>
    ensures { IfOk result (λ draft. (draft.root ≡ root.now) × (draft.min ≡ 2)) }
{
    let mut draft = AuthorDraft::new(alloc, root, 2)?;
    'rounds: for _ in 0..ROUNDS {
        if !fill(alloc, library, folders, &mut draft, known)? {
            break;
        }
    }
    Ok(draft)
}

/// The session of a job, whose files are read and run once. There is none if the job isn't named.
pub fn begun<L: Library>(
    alloc: Global,
    library: &L,
    folders: &[Folder],
    root: &[u8],
    known: &mut Sequence<Known>,
) -> Result<Option<AuthorSession>, AllocError>
    ensures { IfOk result (λ session. IsOfJob root.now session) }
{
    if root.is_empty() {
        return Ok(None);
    }
    let draft = filled(alloc, library, folders, root, known)?;
    Ok(Some(AuthorSession::of(draft)?))
}
