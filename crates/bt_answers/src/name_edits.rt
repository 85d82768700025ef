//! The edits of one file that rename a key or a macro, and whether they change the name in its items and nothing else.

ghost use Rattle.std.specs.Prelude.{◌≡◌, ◌<◌, ◌*◌, ◌^◌, [], length, IfOk};
ghost use Rattle.std.specs.List.{fold};
ghost use Rattle.bt_places.specs.Editor.{counting_in};
ghost use Rattle.bt_answers.specs.Renaming.{spelling, with_edit, name_edits, renamed_text, change_of, is_database_renamed, is_renamed, also_renamed};

use crate::references::{Wanted, is_mention};
use bt_bib::read_bib;
use bt_edited::{Change, Edit, is_made, text_after_edits};
use bt_mentions::{Mention, Role};
use bt_places::{Editor, SHOWN_BYTES, is_database, mentions_of};
use bt_positions::{Counting, IndexedText};
use bt_text::Bytes;
use std::alloc::{AllocError, Global};

/// A change of a name to another in all mentions.
#[derive(Clone, Copy)]
pub struct Renaming<'a> {
    pub editor: Editor<'a>,
    pub wanted: Wanted,
    pub old: &'a [u8],
    pub new: &'a [u8],
}

/// How a mention of this role spells a name: a number becomes a text in braces.
fn spelling(alloc: Global, role: Role, name: &[u8]) -> Result<Bytes, AllocError>
    ensures { IfOk result (λ text. text ≡ spelling role name.now) }
{
    match role {
        Role::Number => Bytes::of(alloc, &[b"{", name, b"}"]),
        Role::Key | Role::Crossref | Role::Citation => Bytes::copied(alloc, name),
        Role::Definition | Role::Macro => Bytes::copied(alloc, name),
    }
}

/// A text, in the units of its editor.
#[derive(Clone, Copy)]
struct Page<'a> {
    text: &'a IndexedText,
    counting: Counting,
}

impl Renaming<'_> {
    /// Adds the edit of a mention, if it is one of the old name.
    fn with_edit(
        &self,
        alloc: Global,
        page: &Page<'_>,
        list: Vec<Edit>,
        one: Mention,
    ) -> Result<Vec<Edit>, AllocError>
        requires { 2 * length page.now.text.now < 2 ^ 64 }
        ensures { IfOk result (λ all. all.items ≡
            with_edit page.now.counting self.now.wanted self.now.old.now self.now.new.now page.now.text.now list.items one) }
    {
        if !is_mention(self.wanted, self.old, page.text.as_slice(), one) {
            return Ok(list);
        }
        let new = spelling(alloc, one.role, self.new)?;
        let mut all = list;
        all.push(Edit::of(page.counting, page.text, one.from, one.to, new))?;
        Ok(all)
    }

    fn with_each(
        &self,
        alloc: Global,
        page: &Page<'_>,
        found: &[Mention],
    ) -> Result<Vec<Edit>, AllocError>
        requires { 2 * length page.now.text.now < 2 ^ 64 }
        ensures { IfOk result (λ all. all.items ≡
            fold (with_edit page.now.counting self.now.wanted self.now.old.now self.now.new.now page.now.text.now) [] found.now) }
    {
        let mut all = Vec::new(alloc);
        'found: for one in found {
            all = self.with_edit(alloc, page, all, *one)?;
        }
        Ok(all)
    }

    /// The edits of a file of at most 1 GiB.
    pub fn edits_in(
        &self,
        alloc: Global,
        uri: &[u8],
        text: &IndexedText,
    ) -> Result<Vec<Edit>, AllocError>
        ensures { IfOk result (λ all. all.items ≡ name_edits (counting_in self.now.editor.counting self.now.editor.documents.now)
            self.now.wanted self.now.old.now self.now.new.now uri.now text.now) }
    {
        if text.as_slice().len() > SHOWN_BYTES {
            return Ok(Vec::new(alloc));
        }
        let found = mentions_of(alloc, uri, text.as_slice())?;
        let page = Page {
            text,
            counting: self.editor.counting_in(uri),
        };
        self.with_each(alloc, &page, found.as_slice())
    }

    fn renamed_text(
        &self,
        alloc: Global,
        uri: &[u8],
        text: &[u8],
    ) -> Result<Option<Bytes>, AllocError>
        ensures { IfOk result (λ all. all ≡ renamed_text (counting_in self.now.editor.counting self.now.editor.documents.now)
            self.now.wanted self.now.old.now self.now.new.now uri.now text.now) }
    {
        let indexed = IndexedText::copied(alloc, text)?;
        let edits = self.edits_in(alloc, uri, &indexed)?;
        text_after_edits(
            alloc,
            self.editor.counting_in(uri),
            &indexed,
            edits.as_slice(),
        )
    }

    fn change(&self, alloc: Global) -> Result<Change, AllocError>
        ensures { IfOk result (λ change. change ≡ change_of self.now.wanted self.now.old.now self.now.new.now) }
    {
        let old = Bytes::copied(alloc, self.old)?;
        let new = Bytes::copied(alloc, self.new)?;
        match self.wanted {
            Wanted::Keys | Wanted::KeyUses => Ok(Change::Key(old, new)),
            Wanted::Macros | Wanted::MacroUses | Wanted::Definitions => Ok(Change::Macro(old, new)),
        }
    }

    fn is_database_renamed(
        &self,
        alloc: Global,
        uri: &[u8],
        text: &[u8],
    ) -> Result<bool, AllocError>
        ensures { IfOk result (λ is. is ≡ is_database_renamed (counting_in self.now.editor.counting self.now.editor.documents.now)
            self.now.wanted self.now.old.now self.now.new.now uri.now text.now) }
    {
        let after = self.renamed_text(alloc, uri, text)?;
        let change = self.change(alloc)?;
        let items = read_bib(alloc, text)?;
        is_made(alloc, &change, items.pieces(), &after)
    }

    /// Whether the edits of a file, if it is a database, change the name in its items and nothing else.
    fn is_renamed(&self, alloc: Global, uri: &[u8], text: &[u8]) -> Result<bool, AllocError>
        ensures { IfOk result (λ is. is ≡ is_renamed (counting_in self.now.editor.counting self.now.editor.documents.now)
            self.now.wanted self.now.old.now self.now.new.now uri.now text.now) }
    {
        if !is_database(uri) {
            return Ok(true);
        }
        self.is_database_renamed(alloc, uri, text)
    }

    /// Whether that holds for the files before, and for this one too.
    pub fn also_renamed(
        &self,
        alloc: Global,
        before: bool,
        uri: &[u8],
        text: &[u8],
    ) -> Result<bool, AllocError>
        ensures { IfOk result (λ are. are ≡ also_renamed (counting_in self.now.editor.counting self.now.editor.documents.now)
            self.now.wanted self.now.old.now self.now.new.now before (uri.now, text.now)) }
    {
        if !before {
            return Ok(false);
        }
        self.is_renamed(alloc, uri, text)
    }
}
