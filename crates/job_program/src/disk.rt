//! Writes files so that a kill leaves the old file or the new one.
//!
//! A file's new text is written into a draft beside it, under an unused name, and once the draft is complete, it takes the
//! file's name. Some files are overwritten in place instead: what isn't an ordinary file, such as a device; a file with a
//! second name, which would keep the old text; somebody else's file, whose owner would change; and a file in a folder in
//! which nothing can be created.

use bt_programs::folder_of;
use std::alloc::{AllocError, Global};
use std::fs::{self, File, OpenOptions};
use std::io::{ErrorKind, Write};
use std::os::unix::fs::MetadataExt;

fn opens(rt: &HostRuntime, path: &str, create: bool) -> bool {
    OpenOptions::new()
        .write(true)
        .create(create)
        .open(rt, path)
        .is_ok()
}

/// How a file gets a new text.
#[derive(Drop)]
enum Way {
    /// By a draft that replaces this ordinary file, which may be missing.
    Draft(String),
    /// By overwriting it in place: a device, a pipe, or a file with a second name.
    Over,
    /// It can't be written.
    Nowhere,
}

/// The way for a missing file. A link to nothing is followed.
fn way_to_new(alloc: Global, rt: &HostRuntime, path: &str) -> Result<Way, AllocError> {
    if fs::read_link(rt, path).is_err() {
        return Ok(Way::Draft(String::from_str(alloc, path)?));
    }
    Ok(if opens(rt, path, true) {
        Way::Over
    } else {
        Way::Nowhere
    })
}

fn way_to(alloc: Global, rt: &HostRuntime, path: &str) -> Result<Way, AllocError> {
    match fs::metadata(rt, path) {
        Err(_) => way_to_new(alloc, rt, path),
        Ok(found) if found.is_dir() => Ok(Way::Nowhere),
        // It isn't opened: a pipe's reader would take that for the end.
        Ok(found) if !found.is_file() => Ok(Way::Over),
        Ok(_) if !opens(rt, path, false) => Ok(Way::Nowhere),
        Ok(found) if found.nlink() > 1 => Ok(Way::Over),
        Ok(_) => match fs::canonicalize(rt, path) {
            Ok(target) => Ok(Way::Draft(String::from_str(alloc, target.to_string_lossy())?)),
            Err(fault) if fault.kind() == ErrorKind::OutOfMemory => Err(AllocError),
            Err(_) => Ok(Way::Over),
        },
    }
}

/// A new file beside the one for which it is written. It is removed unless it replaces that one.
struct Draft<'a> {
    rt: &'a HostRuntime,
    file: File,
    name: String,
    target: String,
}

impl Drop for Draft<'_> {
    fn drop(self) {
        let Draft {
            rt,
            file: _,
            name,
            target: _,
        } = self;
        let _ = fs::remove_file(rt, name.as_str());
    }
}

/// How many names are tried for a draft: a program that was killed leaves its own behind.
const NAMES: usize = 100;

impl<'a> Draft<'a> {
    fn new(
        alloc: Global,
        rt: &'a HostRuntime,
        target: String,
        mark: &str,
    ) -> Result<Option<Draft<'a>>, AllocError> {
        'names: for number in 0..NAMES {
            let folder = folder_of(target.as_str());
            let name = format!(in alloc; "{folder}bibtex-{mark}-{number}~")?;
            match File::create_new(rt, name.as_str()) {
                Ok(file) => {
                    return Ok(Some(Draft {
                        rt,
                        file,
                        name,
                        target,
                    }));
                }
                Err(fault) if fault.kind() == ErrorKind::AlreadyExists => {}
                Err(_) => return Ok(None),
            }
        }
        Ok(None)
    }

    fn has_same_owner(&self) -> bool {
        match (
            self.file.metadata(),
            fs::metadata(self.rt, self.target.as_str()),
        ) {
            (Ok(own), Ok(found)) => own.uid() == found.uid() && own.gid() == found.gid(),
            _ => true,
        }
    }

    /// Replaces the file by the draft, with the file's permissions, and returns whether that succeeded.
    fn put(self) -> bool {
        let target = self.target.as_str();
        if let Ok(found) = fs::metadata(self.rt, target) {
            let _ = self.file.set_permissions(found.permissions());
        }
        if fs::rename(self.rt, self.name.as_str(), target).is_err() {
            return false;
        }
        // Another program may have a draft of this name by now, so it isn't removed.
        let Draft {
            rt: _,
            file: _,
            name: _,
            target: _,
        } = self;
        true
    }
}

/// A new text for a file, which stays as it is until `put`.
#[derive(Drop)]
pub struct Output<'a> {
    rt: &'a HostRuntime,
    path: &'a str,
    bytes: &'a [u8],
    draft: Option<Draft<'a>>,
}

impl<'a> Output<'a> {
    /// Makes everything ready to write a file; none if it can't be written. `mark` keeps apart the drafts of programs that
    /// run at once. The only error is out of memory.
    pub fn new(
        alloc: Global,
        rt: &'a HostRuntime,
        path: &'a str,
        bytes: &'a [u8],
        mark: &str,
    ) -> Result<Option<Output<'a>>, AllocError> {
        let over = Output {
            rt,
            path,
            bytes,
            draft: None,
        };
        let target = match way_to(alloc, rt, path)? {
            Way::Draft(target) => target,
            Way::Over => return Ok(Some(over)),
            Way::Nowhere => return Ok(None),
        };
        let draft = Draft::new(alloc, rt, target, mark)?.filter(|draft| draft.has_same_owner());
        let Some(mut draft) = draft else {
            // No file can be created in the folder, so this one must be there already.
            return Ok(Some(over).filter(|_| fs::metadata(rt, path).is_ok()));
        };
        if draft.file.write_all(bytes).is_err() {
            return Ok(None);
        }
        Ok(Some(Output {
            draft: Some(draft),
            ..over
        }))
    }

    /// Gives the file its new text, and returns whether that succeeded. A file that may not be replaced is overwritten in
    /// place.
    pub fn put(self) -> bool {
        let Output {
            rt,
            path,
            bytes,
            draft,
        } = self;
        if let Some(draft) = draft
            && draft.put()
        {
            return true;
        }
        fs::write(rt, path, bytes).is_ok()
    }
}
