//! The folder that the program was started in.

ghost use Rattle.std.specs.Prelude.{◌≡◌, None};

use bibtex::{Bytes, FILE_BYTES};
use bt_one_shot::{Folder, Found};
use std::alloc::Global;
use std::fs;
use std::io::{ErrorKind, Read};
use std::rt::Files;

/// How many bytes of a file are read: one more than a file may have, so that a longer one is refused.
const MOST_READ: u64 = FILE_BYTES as u64 + 1;

/// The files of the folder that the program was started in.
#[derive(Drop)]
pub struct Disk<'a, R> {
    alloc: Global,
    rt: &'a R,
    failures: u64,
    reads: u64,
}

impl<'a, R: Files> Disk<'a, R> {
    /// The folder, as this runtime reaches it.
    pub fn new(alloc: Global, rt: &'a R) -> Self
        ensures { result.failures ≡ 0 }
    {
        Disk {
            alloc,
            rt,
            failures: 0,
            reads: 0,
        }
    }
}

impl<R: Files> Folder for Disk<'_, R> {
    ghost seen = { λ d. record {
      held = None;
      looked_up = None;
      written = None;
      failures = d.failures;
      reads = d.reads;
    } };

    fn read(&mut self, name: &[u8]) -> Found {
        self.reads = self.reads.saturating_add(1);
        let Ok(path) = str::from_utf8(name) else {
            return Found::Missing;
        };
        let Ok(file) = fs::open(self.rt, path) else {
            return Found::Missing;
        };
        let mut bytes = Vec::new(self.alloc);
        match file.take(MOST_READ).read_to_end(&mut bytes) {
            Ok(_) => {
                bytes.truncate(FILE_BYTES + 1);
                Found::Bytes(Bytes::from_vec(bytes))
            }
            Err(fault) if fault.kind() == ErrorKind::OutOfMemory => Found::NoRoom,
            Err(_) => Found::Missing,
        }
    }

    fn write(&mut self, name: &[u8], bytes: &[u8]) -> bool {
        if let Ok(path) = str::from_utf8(name)
            && fs::write(self.rt, path, bytes).is_ok()
        {
            return true;
        }
        self.failures += 1;
        false
    }

    fn failures(&self) -> u64 {
        self.failures
    }
}
