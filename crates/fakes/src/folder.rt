//! A folder in memory.

ghost use Rattle.std.specs.Prelude.{◌≡◌, [], ◌∷◌, ◌++◌, bytes_eq, fold, if◌then◌else◌, take, IfOk, OnOk, OnErr, Some};
ghost use Rattle.std.specs.Option.{option_map};
ghost use Rattle.bt_one_shot.specs.Folders.{most_read, with_file};
ghost use Rattle.fakes.specs.Held.{held_in, untouched};

use bt_one_shot::{Folder, Found};
use bt_text::{Bytes, Sequence};
use std::alloc::{AllocError, Global};
use std::marker::Model;

/// At most how many bytes of a file are read.
const MOST_READ: usize = 1_048_577;

/// A file of a folder in memory.
#[derive(Drop)]
pub struct KeptFile {
    pub name: Bytes,
    pub bytes: Bytes,
}

impl Model for KeptFile {
    ghost use Rattle.bt_one_shot.specs.Folders.{Written};

    ghost Value = { Written };

    ghost view = { λ file. record { name = file.name; bytes = file.bytes } };
}

/// A folder in memory, which also knows what was read and written.
#[derive(Drop)]
pub struct Memory {
    alloc: Global,
    given: Sequence<KeptFile>,
    /// The names of the files for whose bytes there is no memory.
    tight: Sequence<Bytes>,
    /// The names that can't be written.
    sealed: Sequence<Bytes>,
    looked_up: Sequence<Bytes>,
    written: Sequence<KeptFile>,
    failures: u64,
    reads: u64,
    /// A line for each read.
    read_lines: Bytes,
}

fn letters(alloc: Global, count: usize) -> Result<Vec<u8>, AllocError> {
    vec![in alloc; b'a'; count]
}

fn note(lines: &mut Bytes, name: &[u8]) -> Result<(), AllocError> {
    lines.append(b"read ")?;
    lines.append(name)?;
    lines.append(b"\n")
}

fn has(names: &[Bytes], name: &[u8]) -> bool {
    names.iter().any(|each| each.as_slice() == name)
}

fn keep(
    alloc: Global,
    files: &mut Sequence<KeptFile>,
    name: &[u8],
    bytes: &[u8],
) -> Result<(), AllocError>
    ensures ok { OnOk result (files.new ≡ files.old ++ record { name = name.now; bytes = bytes.now } ∷ []) }
    ensures err { OnErr result (files.new ≡ files.old) }
{
    let name = Bytes::copied(alloc, name)?;
    let bytes = Bytes::copied(alloc, bytes)?;
    Ok(files.push(KeptFile { name, bytes })?)
}

fn keep_name(alloc: Global, names: &mut Sequence<Bytes>, name: &[u8]) -> Result<(), AllocError>
    ensures ok { OnOk result (names.new ≡ names.old ++ name.now ∷ []) }
    ensures err { OnErr result (names.new ≡ names.old) }
{
    Ok(names.push(Bytes::copied(alloc, name)?)?)
}

/// The bytes of a file, if it has this name, or else these.
fn newer<'a>(file: &'a KeptFile, name: &[u8], found: Option<&'a [u8]>) -> Option<&'a [u8]>
    ensures { option_map (λ b. b.now) result ≡
        (if bytes_eq file.now.name name.now then Some file.now.bytes else option_map (λ b. b.now) found.entry) }
{
    if file.name.as_slice() == name {
        Some(file.bytes.as_slice())
    } else {
        found
    }
}

/// The bytes of the last of some files that has this name, or else these.
#[tactic(auto, using(crate::proofs::FolderLemmas::last_then))]
fn last_of<'a>(files: &'a [KeptFile], name: &[u8], before: Option<&'a [u8]>) -> Option<&'a [u8]>
    ensures { option_map (λ b. b.now) result
        ≡ fold with_file (λ _. option_map (λ b. b.now) before.entry) files.now name.now }
{
    let mut found = before;
    'files: for file in files {
        found = newer(file, name, found);
    }
    found
}

impl Memory {
    /// A folder without files.
    pub fn new(alloc: Global) -> Self
        ensures { ⟦<Memory as Folder>⟧.seen result ≡ untouched }
    {
        Memory {
            alloc,
            given: Sequence::new(alloc),
            tight: Sequence::new(alloc),
            sealed: Sequence::new(alloc),
            looked_up: Sequence::new(alloc),
            written: Sequence::new(alloc),
            failures: 0,
            reads: 0,
            read_lines: Bytes::new(alloc),
        }
    }

    /// Gives the folder a file. Whatever is written under its name replaces it.
    pub fn give(&mut self, name: &str, bytes: &[u8]) -> Result<(), AllocError> {
        keep(self.alloc, &mut self.given, name.as_bytes(), bytes)
    }

    /// Gives the folder a file of `count` letters.
    pub fn give_letters(&mut self, name: &str, count: usize) -> Result<(), AllocError> {
        let text = letters(self.alloc, count)?;
        self.give(name, text.as_slice())
    }

    /// From now on, a read has no memory for the bytes of this name.
    pub fn deny_room(&mut self, name: &str) -> Result<(), AllocError> {
        keep_name(self.alloc, &mut self.tight, name.as_bytes())
    }

    /// From now on this name can't be written.
    pub fn seal(&mut self, name: &str) -> Result<(), AllocError> {
        keep_name(self.alloc, &mut self.sealed, name.as_bytes())
    }

    /// A line `read NAME` for each read, in order.
    pub fn read_lines(&self) -> &[u8] {
        self.read_lines.as_slice()
    }

    /// The files that were written, in order.
    pub fn written(&self) -> &[KeptFile]
        ensures { Some result.now ≡ (⟦<Memory as Folder>⟧.seen self.now).written }
    {
        self.written.as_slice()
    }

    fn held(&self, name: &[u8]) -> Option<&[u8]>
        ensures { option_map (λ b. b.now) result ≡ held_in self.now.given self.now.written name.now }
    {
        last_of(
            self.written.as_slice(),
            name,
            last_of(self.given.as_slice(), name, None),
        )
    }

    /// A copy of the first bytes of a name, at most as many as are read.
    fn first_bytes(&self, name: &[u8]) -> Result<Option<Bytes>, AllocError>
        ensures { IfOk result (λ bytes. bytes
            ≡ option_map (take most_read) (held_in self.now.given self.now.written name.now)) }
    {
        match self.held(name) {
            Some(bytes) => {
                let first = &bytes[..MOST_READ.min(bytes.len())];
                Ok(Some(Bytes::copied(self.alloc, first)?))
            }
            None => Ok(None),
        }
    }
}

impl Folder for Memory {
    ghost use Rattle.fakes.specs.Held.{held_in};

    ghost seen = { λ m. record {
      held = Some (held_in m.given m.written);
      looked_up = Some m.looked_up;
      written = Some m.written;
      failures = m.failures;
      reads = m.reads;
    } };

    fn read(&mut self, name: &[u8]) -> Found {
        self.reads = self.reads.saturating_add(1);
        if note(&mut self.read_lines, name).is_err() || has(self.tight.as_slice(), name) {
            return Found::NoRoom;
        }
        let Ok(bytes) = self.first_bytes(name) else {
            return Found::NoRoom;
        };
        if keep_name(self.alloc, &mut self.looked_up, name).is_err() {
            return Found::NoRoom;
        }
        match bytes {
            Some(bytes) => Found::Bytes(bytes),
            None => Found::Missing,
        }
    }

    #[tactic(auto, using(crate::proofs::FolderLemmas::holds_more))]
    fn write(&mut self, name: &[u8], bytes: &[u8]) -> bool {
        if has(self.sealed.as_slice(), name)
            || keep(self.alloc, &mut self.written, name, bytes).is_err()
        {
            self.failures += 1;
            return false;
        }
        true
    }

    fn failures(&self) -> u64 {
        self.failures
    }
}
