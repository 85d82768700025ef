//! Finds files in folders.

use crate::folders::Folder;
use crate::known::Known;
use crate::library::Library;
use bt_text::Bytes;
use std::alloc::{AllocError, Global};

/// A file that was found, and its text.
#[derive(Drop)]
pub struct Found {
    pub file: Known,
    pub text: Bytes,
}

fn found_in<L: Library>(
    alloc: Global,
    library: &L,
    folder: &Folder,
    name: &str,
) -> Result<Option<Found>, AllocError> {
    let path = folder.path_of(alloc, name)?;
    let Some(text) = library.read(alloc, path.as_str())? else {
        return Ok(None);
    };
    let file = Known {
        name: Bytes::copied(alloc, name.as_bytes())?,
        uri: folder.uri_of(alloc, name)?,
        path,
    };
    Ok(Some(Found { file, text }))
}

/// The file of a name in the first folder that has it.
pub fn find<L: Library>(
    alloc: Global,
    library: &L,
    folders: &[Folder],
    name: &[u8],
) -> Result<Option<Found>, AllocError> {
    let Ok(name) = str::from_utf8(name) else {
        return Ok(None);
    };
    'folders: for folder in folders {
        let found = found_in(alloc, library, folder, name)?;
        if found.is_some() {
            return Ok(found);
        }
    }
    Ok(None)
}
