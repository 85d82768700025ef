//! What files asked for, kept for the next run.
//!
//! Most edits of a session change a database, so the files ask for the same as before. What files ask for depends only on
//! their names, in order, and on the texts of the `.aux` files. So only these are kept and compared: in the kept list of
//! files, every other text is empty.

ghost use Rattle.std.specs.Prelude.{◌≡◌, map, IfOk, IsTrue};
ghost use Rattle.bt_job.specs.AuxOnly.{aux_only};
ghost use Rattle.bt_job.specs.Citations.{citations};

use crate::citations::Citations;
use crate::file_names::is_aux;
use crate::files::File;
use bt_text::{Bytes, Sequence, Shared, equal_bytes};
use std::alloc::{AllocError, Global};

/// What files asked for from a root.
#[derive(Drop)]
pub struct Asked {
    files: Sequence<File>,
    root: Bytes,
    pub asked: Shared<Citations>,
    ghost by_files: { asked ≡ citations files root },
}

fn aux_text(file: &File) -> &[u8]
    ensures { result.now ≡ (aux_only file.now).text }
{
    if is_aux(file.name.as_slice()) {
        file.text.as_slice()
    } else {
        &[]
    }
}

fn aux_only(alloc: Global, file: &File) -> Result<File, AllocError>
    ensures { IfOk result (λ only. only ≡ aux_only file.now) }
{
    let name = file.name.share()?;
    let text = if is_aux(name.as_slice()) {
        file.text.share()?
    } else {
        Shared::new(alloc, Bytes::new(alloc))?
    };
    Ok(File { name, text })
}

fn all_aux_only(alloc: Global, files: &[File]) -> Result<Sequence<File>, AllocError>
    ensures { IfOk result (λ only. only ≡ map aux_only files.now) }
{
    let mut only = Sequence::new(alloc);
    'files: for file in files {
        only.push(aux_only(alloc, file)?)?;
    }
    Ok(only)
}

fn is_kept(file: &File, kept: &File) -> bool
    ensures { IsTrue result → aux_only file.now ≡ kept.now }
{
    equal_bytes(file.name.as_slice(), kept.name.as_slice())
        && equal_bytes(aux_text(file), kept.text.as_slice())
}

fn are_kept(files: &[File], kept: &[File]) -> bool
    ensures { IsTrue result → map aux_only files.now ≡ kept.now }
{
    if files.len() != kept.len() {
        return false;
    }
    'files: for place in 0..files.len() {
        if !is_kept(&files[place], &kept[place]) {
            return false;
        }
    }
    true
}

impl Asked {
    /// What these files ask for.
    #[tactic(auto, using(crate::proofs::LookupLemmas::kept_asks))]
    pub fn of(
        alloc: Global,
        files: &[File],
        root: &[u8],
        asked: Shared<Citations>,
    ) -> Result<Asked, AllocError>
        requires { asked ≡ citations files.now root.now }
    {
        let files = all_aux_only(alloc, files)?;
        let root = Bytes::copied(alloc, root)?;
        Ok(Asked { files, root, asked })
    }

    /// Whether these files ask for the same.
    #[tactic(auto, using(crate::proofs::LookupLemmas::still_asked))]
    pub fn is_asked(&self, files: &[File], root: &[u8]) -> bool
        ensures { IsTrue result → self.now.asked ≡ citations files.now root.now }
    {
        equal_bytes(root, self.root.as_slice()) && are_kept(files, self.files.as_slice())
    }
}
