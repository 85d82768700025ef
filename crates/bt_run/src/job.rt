//! What a run reads: the files, the citations, and the style.

ghost use Rattle.std.specs.Prelude.{◌≡◌, ◌≤◌, [], All, length, unwrap_or, IfOk, IsTrue};
ghost use Rattle.bt_style.specs.Program.{program_of};
ghost use Rattle.bt_run.specs.Work.{IsStep};
ghost use Rattle.std.specs.Option.{ForSome};
ghost use Rattle.bt_job.specs.FileNames.{text_of};
ghost use Rattle.bt_text.specs.NameList.{are_apart};

use crate::kept::Kept;
use bt_job::{Citations, File, owned_text_of};
use bt_resolve::Cites;
use bt_style::Style;
use bt_text::{Bytes, Shared};
use std::alloc::{AllocError, Global};

/// What a run reads.
#[derive(Clone, Copy)]
pub struct Job<'a> {
    pub alloc: Global,
    pub files: &'a [File],
    pub cites: &'a Cites,
    pub databases: &'a [Bytes],
    /// How many entries must refer to an uncited one to keep it in the list.
    pub min: u32,
    /// The name of the style's file.
    pub name: &'a [u8],
    pub style: &'a Style,
    /// An earlier run under this style; one without steps where there was none.
    pub earlier: &'a Kept,
    ghost steps: { All (IsStep (program_of style.now)) earlier.now.steps },
    ghost fields_apart: { IsTrue (are_apart style.now.fields) },
    ghost star_within: { ForSome cites.now.star (λ before. before ≤ length cites.now.keys) },
}

/// The keys that the `.aux` files cite, shared.
pub fn cites_of(citations: &Citations) -> Result<Cites, AllocError>
    ensures { IfOk result (λ cites. cites ≡ record { keys = citations.now.keys; star = citations.now.star }) }
{
    Ok(Cites {
        keys: citations.keys.share()?,
        star: citations.star,
    })
}

/// The text of a name, shared with its file; the empty text where there is none.
pub fn shared_text(alloc: Global, files: &[File], name: &[u8]) -> Result<Shared<Bytes>, AllocError>
    ensures { IfOk result (λ text. text ≡ unwrap_or (text_of files.now name.now) []) }
{
    match owned_text_of(files, name) {
        Some(text) => text.share(),
        None => Shared::new(alloc, Bytes::new(alloc)),
    }
}
