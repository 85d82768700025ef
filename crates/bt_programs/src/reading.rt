//! Reads whole files.

use bt_text::Bytes;
use std::alloc::{AllocError, Global};
use std::fs;
use std::io::{ErrorKind, Read};

/// The bytes of a file, or `None` if there is none of this name that can be read. The only error is out of memory.
pub fn read(alloc: Global, rt: &HostRuntime, path: &str) -> Result<Option<Bytes>, AllocError> {
    let Ok(mut file) = fs::open(rt, path) else {
        return Ok(None);
    };
    let mut bytes = Vec::new(alloc);
    match file.read_to_end(&mut bytes) {
        Ok(_) => Ok(Some(Bytes::from_vec(bytes))),
        Err(fault) if fault.kind() == ErrorKind::OutOfMemory => Err(AllocError),
        Err(_) => Ok(None),
    }
}

/// The part of a path up to its last slash.
pub fn folder_of(path: &str) -> &str {
    match path.rsplit_once('/') {
        Some((folder, _)) => path.get(..folder.len() + 1).unwrap_or(""),
        None => "",
    }
}
