//! Files that weren't found: where they were looked for, and which others have such a name.

use crate::hints::{Hints, Job};
use bt_log::{FileKind, FileNote, Message, Said};
use std::alloc::{AllocError, Global};
use std::fs;
use strsim::levenshtein;

/// How many letters may differ between a name that wasn't found and one that is suggested.
const NEAR: usize = 2;

/// How many bytes a name may have for which others are suggested: what a file system takes.
const LONGEST: usize = 255;

/// A style or database that a message says wasn't found.
fn not_found(message: &Message) -> Option<(FileKind, &[u8])> {
    match &message.said {
        Said::OfFile {
            note: FileNote::NotOpened(kind),
            file,
        } if *kind != FileKind::Aux => Some((*kind, file.as_slice())),
        _ => None,
    }
}

fn ending(kind: FileKind) -> &'static str {
    match kind {
        FileKind::Aux => ".aux",
        FileKind::Bib => ".bib",
        FileKind::Bst => ".bst",
    }
}

/// The variable that names the folders to search.
fn variable(kind: FileKind) -> &'static str {
    match kind {
        FileKind::Bst => "BSTINPUTS",
        FileKind::Aux | FileKind::Bib => "BIBINPUTS",
    }
}

/// A file of a folder that comes closest to a name.
#[derive(Drop)]
struct Nearest<'a> {
    name: &'a str,
    best: Option<(usize, String)>,
}

impl Nearest<'_> {
    /// Notes a file, if it is closer than those before.
    fn note(&mut self, alloc: Global, name: &str) -> Result<(), AllocError> {
        let distance = levenshtein(alloc, self.name, name)?;
        let limit = match &self.best {
            Some((distance, _)) => *distance,
            None => NEAR + 1,
        };
        if distance < limit {
            self.best = Some((distance, String::from_str(alloc, name)?));
        }
        Ok(())
    }

    /// Looks at a file or folder: whether it is the file or has it, or has nearly its name.
    fn look_at(
        &mut self,
        alloc: Global,
        rt: &HostRuntime,
        found: &str,
        ending: &str,
    ) -> Result<Option<Offer>, AllocError> {
        if found == self.name {
            return Ok(Some(Offer::Itself));
        }
        if found.ends_with(ending) {
            self.note(alloc, found)?;
        } else if !found.starts_with('.') && is_in(alloc, rt, found, self.name)? {
            return Ok(Some(Offer::Folder(String::from_str(alloc, found)?)));
        }
        Ok(None)
    }
}

fn is_in(alloc: Global, rt: &HostRuntime, folder: &str, name: &str) -> Result<bool, AllocError> {
    let path = format!(in alloc; "{folder}/{name}")?;
    Ok(matches!(fs::exists(rt, path.as_str()), Ok(true)))
}

/// What the folder offers in the place of a file.
#[derive(Drop)]
enum Offer {
    /// The file itself, which wasn't looked for there, or can't be read.
    Itself,
    /// A file of this name in this folder.
    Folder(String),
    /// A file of nearly the same name.
    Name(String),
}

fn look_for(
    alloc: Global,
    rt: &HostRuntime,
    name: &str,
    ending: &str,
) -> Result<Option<Offer>, AllocError> {
    let Ok(entries) = fs::read_dir(rt, ".") else {
        return Ok(None);
    };
    let mut nearest = Nearest { name, best: None };
    'entries: for entry in entries {
        let entry = match entry {
            Ok(entry) => entry,
            // Such as a name that isn't UTF-8.
            Err(_) => continue,
        };
        if let Some(offer) = nearest.look_at(alloc, rt, entry.file_name(), ending)? {
            return Ok(Some(offer));
        }
    }
    match nearest.best {
        Some((_, found)) => Ok(Some(Offer::Name(found))),
        None => Ok(None),
    }
}

fn advice(
    alloc: Global,
    rt: &HostRuntime,
    kind: FileKind,
    name: &str,
) -> Result<String, AllocError> {
    if name.contains('/') {
        return format!(in alloc; "doesn't exist, or can't be read");
    }
    let variable = variable(kind);
    match look_for(alloc, rt, name, ending(kind))? {
        Some(Offer::Itself) => format!(in alloc;
            "is in the current folder, but wasn't read: either it is unreadable, or {variable} doesn't name that folder"
        ),
        Some(Offer::Folder(folder)) => format!(in alloc;
            "isn't in the current folder, but there is {folder}/{name}: set {variable}={folder}:"
        ),
        Some(Offer::Name(other)) => {
            format!(in alloc; "isn't in the current folder; did you mean {other}?")
        }
        None => format!(in alloc;
            "wasn't found in the current folder or anywhere else; to search more folders, set {variable}"
        ),
    }
}

/// A hint for each style and database that wasn't found.
pub fn hint(alloc: Global, hints: &mut Hints<'_>, job: Job<'_>) -> Result<(), AllocError> {
    'messages: for message in job.messages() {
        if hints.is_full() {
            return Ok(());
        }
        if let Some((kind, name)) = not_found(message)
            && name.len() <= LONGEST
            && let Ok(name) = str::from_utf8(name)
        {
            let advice = advice(alloc, hints.rt, kind, name)?;
            hints.give(&[b"hint: ", name.as_bytes(), b" ", advice.as_bytes(), b"\n"]);
        }
    }
    Ok(())
}
