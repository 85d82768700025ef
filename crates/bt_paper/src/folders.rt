//! Folders in which files are looked for, and the URIs of paths.

use bt_text::Bytes;
use percent_encoding::{CONTROLS, percent_decode, percent_encode};
use std::alloc::{AllocError, Global};

/// What the URIs of files begin with.
const SCHEME: &str = "file://";

/// A folder in which files are looked for. Both fields end with a slash.
#[derive(Drop)]
pub struct Folder {
    pub uri: String,
    pub path: String,
}

/// The path of a file's URI, if it is one.
pub fn path_of(alloc: Global, uri: &[u8]) -> Result<Option<String>, AllocError> {
    let Some(rest) = uri.strip_prefix(b"file://") else {
        return Ok(None);
    };
    let mut bytes = Vec::new(alloc);
    percent_decode(rest).append_to(&mut bytes)?;
    match String::from_utf8(bytes) {
        Ok(path) => Ok(Some(path)),
        Err(_) => Ok(None),
    }
}

/// Appends a path to a URI, spelled as editors do.
fn append(uri: &mut String, path: &str) -> Result<(), AllocError> {
    let escaped = CONTROLS
        .add(b' ')
        .add(b'"')
        .add(b'#')
        .add(b'%')
        .add(b'?')
        .add(b'<')
        .add(b'>');
    percent_encode(path.as_bytes(), escaped).append_to(uri)
}

/// The folder above one; nothing is above the top one. Both end with a slash.
fn above(uri: &str) -> &str {
    let folder = uri.strip_suffix('/').unwrap_or(uri);
    match folder.rsplit_once('/') {
        Some((above, _)) if above.len() >= SCHEME.len() => {
            uri.get(..above.len() + 1).unwrap_or(uri)
        }
        _ => uri,
    }
}

/// The URI of a path from a folder on, in which no `.` and no `..` is left: editors resolve them.
fn resolved(alloc: Global, folder: &str, path: &str) -> Result<Bytes, AllocError> {
    let mut uri = String::from_str(alloc, folder)?;
    'names: for name in path.split('/') {
        match name {
            "" | "." => {}
            ".." => uri = String::from_str(alloc, above(uri.as_str()))?,
            _ => {
                append(&mut uri, name)?;
                uri.push('/')?;
            }
        }
    }
    let uri = uri.as_str();
    Bytes::copied(alloc, uri.strip_suffix('/').unwrap_or(uri).as_bytes())
}

impl Folder {
    /// The path of a file whose name the texts spell from this folder on.
    pub fn path_of(&self, alloc: Global, name: &str) -> Result<String, AllocError> {
        let mut path = String::new(alloc);
        if !name.starts_with('/') {
            path.push_str(self.path.as_str())?;
        }
        path.push_str(name)?;
        Ok(path)
    }

    /// The URI of the same file.
    pub fn uri_of(&self, alloc: Global, name: &str) -> Result<Bytes, AllocError> {
        if name.starts_with('/') {
            resolved(alloc, "file:///", name)
        } else {
            resolved(alloc, self.uri.as_str(), name)
        }
    }
}

/// The folder at a path that ends with a slash.
pub fn folder_at(alloc: Global, path: &str) -> Result<Folder, AllocError> {
    let mut uri = String::from_str(alloc, SCHEME)?;
    append(&mut uri, path)?;
    Ok(Folder {
        uri,
        path: String::from_str(alloc, path)?,
    })
}

/// A path or URI that ends with a slash.
pub fn with_slash(alloc: Global, text: &str) -> Result<String, AllocError> {
    let mut whole = String::from_str(alloc, text)?;
    if !text.ends_with('/') {
        whole.push('/')?;
    }
    Ok(whole)
}

/// The folder of a URI, if it is a file's.
pub fn folder_of(alloc: Global, uri: &str) -> Result<Option<Folder>, AllocError> {
    let uri = with_slash(alloc, uri)?;
    let Some(path) = path_of(alloc, uri.as_bytes())? else {
        return Ok(None);
    };
    Ok(Some(Folder { uri, path }))
}
