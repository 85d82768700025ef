//! Looks up the files that a job names, each once: in the folder that the program was started in, where `kpsewhich` found
//! them, and, for `.aux` files, beside the job's own. All names are looked up, also those after one that is missing, so that
//! `kpsewhich` is asked once.

use crate::script::Script;
use bt_front::names_of;
use bt_job::File;
use bt_programs::{folder_of, read};
use bt_text::{Bytes, Sequence, Shared};
use indexmap::IndexSet;
use std::alloc::{AllocError, Global};

/// How deep `.aux` files nest at most: each round of the search reads those that the round before found. TeX nests far
/// fewer.
const DEEPEST: usize = 10_000;

/// A job's files as far as they were looked up.
#[derive(Drop)]
pub struct Search<'a> {
    alloc: Global,
    rt: &'a HostRuntime,
    script: &'a Script,
    /// The folder of the job's `.aux` file, with its last slash; empty for the folder the program was started in.
    folder: &'a str,
    met: IndexSet<Vec<u8>>,
    files: Sequence<File>,
    /// The names that weren't found.
    missing: Sequence<Bytes>,
    /// Whether a name or a path isn't UTF-8, so that the file can't be read.
    has_unreadable: bool,
}

impl<'a> Search<'a> {
    /// Before any file of a job was looked up.
    pub fn new(alloc: Global, rt: &'a HostRuntime, script: &'a Script, job: &'a str) -> Search<'a> {
        Search {
            alloc,
            rt,
            script,
            folder: folder_of(job),
            met: IndexSet::new(alloc),
            files: Sequence::new(alloc),
            missing: Sequence::new(alloc),
            has_unreadable: false,
        }
    }

    /// The files that were found.
    pub fn files(&self) -> &[File] {
        self.files.as_slice()
    }

    /// The names that weren't found.
    pub fn missing(&self) -> &[Bytes] {
        self.missing.as_slice()
    }

    /// Whether the job names a file whose name or path isn't UTF-8. Such a file counts as missing.
    pub fn has_unreadable(&self) -> bool {
        self.has_unreadable
    }

    fn read(&self, path: &[u8]) -> Result<Option<Bytes>, AllocError> {
        match str::from_utf8(path) {
            Ok(path) => read(self.alloc, self.rt, path),
            Err(_) => Ok(None),
        }
    }

    /// A file beside the job's `.aux` file.
    fn read_beside(&self, name: &[u8]) -> Result<Option<Bytes>, AllocError> {
        if self.folder.is_empty() || name.starts_with(b"/") {
            return Ok(None);
        }
        let path = Bytes::of(self.alloc, &[self.folder.as_bytes(), name])?;
        self.read(path.as_slice())
    }

    fn read_searched(&self, name: &[u8]) -> Result<Option<Bytes>, AllocError> {
        if let Some(path) = self.script.path_of(name) {
            return self.read(path);
        }
        if self.script.search_all {
            return Ok(None);
        }
        self.read(name)
    }

    fn read_named(&self, name: &[u8]) -> Result<Option<Bytes>, AllocError> {
        if !name.ends_with(b".aux") {
            return self.read_searched(name);
        }
        match self.read(name)? {
            Some(text) => Ok(Some(text)),
            None => self.read_beside(name),
        }
    }

    fn look_up(&mut self, name: &[u8]) -> Result<(), AllocError> {
        let _ = self.met.insert(Vec::from_slice(self.alloc, name)?)?;
        let path = self.script.path_of(name).unwrap_or(name);
        if str::from_utf8(path).is_err() {
            self.has_unreadable = true;
        }
        match self.read_named(name)? {
            Some(text) => self.files.push(File {
                name: Shared::<Bytes>::copied(self.alloc, name)?,
                text: Shared::new(self.alloc, text)?,
            })?,
            None => self.missing.push(Bytes::copied(self.alloc, name)?)?,
        }
        Ok(())
    }

    fn look_up_new(&mut self, names: &[Bytes]) -> Result<(), AllocError> {
        'names: for name in names {
            let name = name.as_slice();
            if !self.met.contains(name) {
                self.look_up(name)?;
            }
        }
        Ok(())
    }

    /// Looks up all files that a job names. The only error is out of memory.
    pub fn run(&mut self, job: &str) -> Result<(), AllocError> {
        let mut done = 0usize;
        'rounds: for _ in 0..DEEPEST {
            let found = self.files.as_slice().get(done..).unwrap_or(&[]);
            let names = names_of(self.alloc, found, job.as_bytes())?;
            done = self.files.len();
            self.look_up_new(names.as_slice())?;
            if self.files.len() == done {
                break;
            }
        }
        Ok(())
    }
}
