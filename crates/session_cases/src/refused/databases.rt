//! A database that is re-read after a splice.

ghost use Rattle.std.specs.Prelude.{◌≡◌, ◌+◌, ◌<◌, length, IfOk};
ghost use Rattle.bt_bib.specs.BibText.{pieces_of};
ghost use Rattle.bt_bib.specs.Splice.{IsSplice};

use crate::refused::attempt::Case;
use bt_bib::{Items, ItemsEdit, Splice, read_bib};
use bt_text::Bytes;
use std::alloc::{AllocError, Global};

const DATABASE: &[u8] =
    b"@string{m = \"M and\" # { N}}\n@preamble{\"pre\" # m}\n@misc{a, title = {A} # m, crossref = {p}}\n@book{B, title = {B}\n@misc{b, crossref = {P}, title = nix}\n@misc{p, title = {P}, note = {n}}\n@misc{A, title = {twice}}\n";

/// The byte of the database that is spliced: the title of `a`.
const BEGIN: usize = 66;

/// The bytes that replace it.
const INSERTED: &[u8] = b"Q, R";

/// A database as it was read, its text, how the splice changes its items, and the items after it.
#[derive(Drop)]
pub struct Rereading {
    items: Items,
    text: Bytes,
    edit: Option<ItemsEdit>,
    again: Option<Items>,
    ghost read: { items ≡ pieces_of text },
}

fn with_inserted(
    alloc: Global,
    text: &[u8],
    place: usize,
    bytes: &[u8],
) -> Result<Bytes, AllocError>
    requires { place < length text.now }
    ensures { IfOk result (λ new. IsSplice text.now new place (place + 1) (length bytes.now)) }
{
    Bytes::of(alloc, &[&text[..place], bytes, &text[place + 1..]])
}

impl Case for Rereading {
    fn begun(alloc: Global) -> Result<Self, AllocError> {
        let text = Bytes::copied(alloc, DATABASE)?;
        let items = read_bib(alloc, text.as_slice())?;
        Ok(Rereading {
            items,
            text,
            edit: None,
            again: None,
        })
    }

    fn call(&mut self, alloc: Global, _name: &str) -> Result<(), AllocError> {
        let (old, begin, end) = (self.text.as_slice(), BEGIN, BEGIN + 1);
        if old.len() < end {
            return Err(AllocError);
        }
        let new = with_inserted(alloc, old, begin, INSERTED)?;
        let (items, new) = (&self.items, new.as_slice());
        let splice = Splice {
            begin,
            end,
            inserted: INSERTED.len(),
        };
        let edit = items.edit(alloc, old, new, splice)?;
        let again = items.edited(alloc, new, &edit)?;
        self.edit = Some(edit);
        self.again = Some(again);
        Ok(())
    }

    fn seen(&self, alloc: Global) -> Result<Bytes, AllocError> {
        let (items, edit, again) = (&self.items, &self.edit, &self.again);
        Ok(Bytes::from_vec(format!(in alloc; "{items:?} {edit:?} {again:?}")?.into_bytes()))
    }
}
