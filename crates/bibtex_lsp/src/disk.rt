//! The files that the server reads.

use bt_paper::Library;
use bt_text::Bytes;
use std::alloc::{AllocError, Global};
use std::fs;
use std::io::{self, ErrorKind, Read};
use std::rt::Files;

/// The files that a runtime reaches.
#[derive(Drop)]
pub struct Disk<'a, R> {
    pub rt: &'a R,
}

fn contents<R: Files>(rt: &R, alloc: Global, path: &str) -> io::Result<Bytes> {
    let mut file = fs::open(rt, path)?;
    let mut bytes = Vec::new(alloc);
    file.read_to_end(&mut bytes)?;
    Ok(Bytes::from_vec(bytes))
}

impl<R: Files> Library for Disk<'_, R> {
    fn read(&self, alloc: Global, path: &str) -> Result<Option<Bytes>, AllocError> {
        match contents(self.rt, alloc, path) {
            Ok(bytes) => Ok(Some(bytes)),
            Err(fault) if fault.kind() == ErrorKind::OutOfMemory => Err(AllocError),
            Err(_) => Ok(None),
        }
    }
}
