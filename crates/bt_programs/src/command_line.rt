//! The words of a command line.

use std::alloc::AllocError;
use std::env;
use std::io::ErrorKind;

/// The words of the command line; none if they aren't UTF-8. The only error is out of memory.
pub fn words(rt: &HostRuntime) -> Result<Option<Vec<String>>, AllocError> {
    match env::args(rt) {
        Ok(args) => {
            let words: Result<Vec<String>, AllocError> = args.collect(rt.alloc());
            Ok(Some(words?))
        }
        Err(fault) if fault.kind() == ErrorKind::OutOfMemory => Err(AllocError),
        Err(_) => Ok(None),
    }
}
