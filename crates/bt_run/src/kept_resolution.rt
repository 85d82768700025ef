//! What READ found, kept for the next run.
//!
//! From one run to the next READ mostly asks the same, or one of its databases has a splice. In the first case what is
//! kept is the answer. In the second it mostly becomes the answer by an edit, which reads at most one item and the strings
//! before it. Otherwise the question is resolved anew: only databases with new texts are read, and if one splice made
//! them, the new resolution begins with the old one.
//!
//! What is kept is right about its own question, whatever the session's state is. So an edit that fails may leave it out
//! or leave one about another state: the next run compares the questions.

ghost use Rattle.std.specs.Prelude.{◌≡◌, ◌≤◌, None, length, map, IfOk, IfSome, IsTrue};
ghost use Rattle.std.specs.Option.{ForSome};
ghost use Rattle.std.proofs.Props.{props};
ghost use Rattle.bt_bib.specs.BibText.{pieces_of};
ghost use Rattle.bt_bib.specs.Splice.{IsSplice};
ghost use Rattle.bt_text.specs.NameList.{are_apart};
ghost use Rattle.bt_resolve.specs.inner.Earlier.{AreEdited};
ghost use Rattle.bt_resolve.specs.inner.Kept.{resolved_for};
ghost use Rattle.bt_run.specs.inner.Alike.{IsAlike, is_known};
ghost use Rattle.bt_run.specs.inner.Asked.{question_of, with_databases};
ghost use Rattle.bt_run.specs.inner.Edits.{IsAlikeAfter, IsAmong, IsEditIn, KeepsPieces, Makes, edited_question, kept_prop, within_prop};

use crate::alike::Alike;
use crate::asking::{Asking, is_same_declared};
use crate::database_edit::{DatabaseEdit, KnownDatabase};
use bt_bib::{Items, Splice};
use bt_resolve::{EditedDatabase, KeptPieces, Question, Resolution};
use bt_text::{Bytes, Sequence, Shared, are_same, equal_bytes};
use std::alloc::{AllocError, Global};
use std::mem;

/// What READ found, with the texts of its databases.
#[derive(Drop)]
pub struct KeptResolution {
    pub resolution: Resolution,
    pub texts: Sequence<Shared<Bytes>>,
    /// How the last splice changed one of these databases, if READ hasn't followed it.
    pub edit: Option<DatabaseEdit>,
    ghost read: { resolution.databases ≡ map pieces_of texts },
    ghost edited: { ForSome edit (IsEditIn resolution) } by { Prim.hlevel (props, within_prop) },
    ghost kept: { ForSome edit (KeepsPieces resolution) } by { Prim.hlevel (props, kept_prop) },
}

/// The resolution of a question about these texts. It reuses what it can of an earlier one. An earlier one that is of no use is
/// dropped first, so the two aren't in memory at once.
fn resolution_after(
    alloc: Global,
    earlier: Option<KeptResolution>,
    texts: &[Shared<Bytes>],
    question: Question,
) -> Result<Resolution, AllocError>
    requires fields { IsTrue (are_apart question.declared.fields) }
    requires star { IfSome question.cites.star (λ before. before ≤ length question.cites.keys) }
    requires texts { question.databases ≡ map pieces_of texts.now }
    ensures { IfOk result (λ resolution. resolution ≡ question) }
{
    let Some(earlier) = earlier else {
        return Resolution::of(alloc, question);
    };
    let Some(edited) = earlier.edited_database(texts) else {
        drop(earlier);
        return Resolution::of(alloc, question);
    };
    if !is_same_declared(&question.declared, &earlier.resolution.question().declared) {
        drop(earlier);
        return Resolution::of(alloc, question);
    }
    let found = earlier.resolution.after(alloc, question, edited);
    drop(earlier);
    found
}

impl KeptResolution {
    /// What is found in databases of these items.
    pub fn of(
        alloc: Global,
        asking: Asking,
        databases: Sequence<Shared<Items>>,
        earlier: Option<KeptResolution>,
    ) -> Result<KeptResolution, AllocError>
        requires fields { IsTrue (are_apart asking.declared.fields) }
        requires star { IfSome asking.cites.star (λ before. before ≤ length asking.cites.keys) }
        requires databases { databases ≡ map pieces_of asking.texts }
        ensures { IfOk result (λ kept. kept.resolution ≡ question_of asking) }
    {
        let Asking {
            declared,
            cites,
            texts,
            min,
        } = asking;
        let question = Question {
            declared,
            cites,
            databases,
            min,
        };
        let resolution = resolution_after(alloc, earlier, texts.as_slice(), question)?;
        let kept = KeptResolution {
            resolution,
            texts,
            edit: None,
        };
        Ok(kept)
    }

    fn known(&self, text: &[u8]) -> Option<KnownDatabase<'_>>
        ensures { IfSome result (λ known. IsAmong self.entry.now.texts text.now known.number known.items.now) }
    {
        let databases = self.resolution.question().databases.as_slice();
        let texts = self.texts.as_slice();
        'texts: for number in 0..texts.len() {
            if number < databases.len() && equal_bytes(texts[number].as_slice(), text) {
                let items = &databases[number];
                return Some(KnownDatabase { number, items });
            }
        }
        None
    }

    /// The items of a text, if it is that of a database or what a splice made of one.
    pub fn items_of(&self, text: &[u8]) -> Option<&Shared<Items>>
        ensures { IfSome result (λ items. items.now ≡ pieces_of text.now) }
    {
        if let Some(edit) = &self.edit
            && equal_bytes(edit.text.as_slice(), text)
        {
            return Some(&edit.items);
        }
        match self.known(text) {
            None => None,
            Some(known) => Some(known.items),
        }
    }

    fn edit_by(
        &self,
        alloc: Global,
        old: &[u8],
        text: &Shared<Bytes>,
        splice: Splice,
    ) -> Result<Option<DatabaseEdit>, AllocError>
        requires { IsSplice old.now text.now splice.begin splice.end splice.inserted }
        ensures edit { IfOk result (λ edit. ForSome edit (IsEditIn self.now.resolution)) }
        ensures kept { IfOk result (λ edit. ForSome edit (KeepsPieces self.now.resolution)) }
    {
        let Some(known) = self.known(old) else {
            return Ok(None);
        };
        let KnownDatabase { number, items } = known;
        let new = text.as_slice();
        let edit = items.edit(alloc, old, new, splice)?;
        let items = Shared::new(alloc, items.edited(alloc, new, &edit)?)?;
        let made = self.resolution.edit(alloc, number, &items, &edit)?;
        let kept = KeptPieces::of(&edit);
        let text = text.share()?;
        Ok(Some(DatabaseEdit {
            number,
            text,
            items,
            kept,
            made,
        }))
    }

    /// Takes note of a splice that made `text` of the text `old`. If `old` is the text of a database, only the part is read
    /// that the splice can have changed: from the boundary before it to the first one after it that both texts have. After
    /// out of memory nothing has changed.
    pub fn splice(
        &mut self,
        alloc: Global,
        old: &[u8],
        text: &Shared<Bytes>,
        splice: Splice,
    ) -> Result<(), AllocError>
        requires { IsSplice old.now text.now splice.begin splice.end splice.inserted }
        ensures resolution { self.new.resolution ≡ self.old.resolution }
        ensures texts { self.new.texts ≡ self.old.texts }
    {
        let edit = self.edit_by(alloc, old, text, splice)?;
        drop(mem::replace(&mut self.edit, edit));
        Ok(())
    }

    /// Whether the edit makes these texts of those that are kept.
    fn is_edited(&self, texts: &[Shared<Bytes>]) -> bool
        ensures { IsTrue result → ForSome self.now.edit (Makes self.now.texts texts.now) }
    {
        let Some(edit) = &self.edit else {
            return false;
        };
        edit.makes(self.texts.as_slice(), texts)
    }

    /// Which database these texts have edited, if all others are the same.
    fn edited_database(&self, texts: &[Shared<Bytes>]) -> Option<EditedDatabase>
        ensures { IfSome result (λ edited. AreEdited self.now.resolution edited (map pieces_of texts.now)) }
    {
        if are_same(self.texts.as_slice(), texts) {
            return Some(EditedDatabase {
                number: 0,
                kept: KeptPieces::all(),
            });
        }
        let Some(edit) = &self.edit else {
            return None;
        };
        if !edit.makes(self.texts.as_slice(), texts) {
            return None;
        }
        Some(EditedDatabase {
            number: edit.number,
            kept: edit.kept,
        })
    }

    /// Puts what the edit made in the place of what was found, if it made something. It can't fail.
    pub fn put(&mut self)
        ensures resolution { ForSome self.old.edit (λ edit. ForSome edit.made (λ made.
            self.new.resolution ≡ edited_question self.old.resolution self.old.texts edit)) }
        ensures texts { ForSome self.old.edit (λ edit. ForSome edit.made (λ made. Makes self.old.texts self.new.texts edit)) }
    {
        let Some(edit) = self.edit.take() else {
            return;
        };
        let DatabaseEdit {
            number,
            text,
            items,
            made,
            ..
        } = edit;
        let Some(made) = made else {
            return;
        };
        self.resolution.put(number, items, made);
        self.texts.set(number, text);
    }

    /// Which entries stay after the edit, if that is known.
    fn alike(&self) -> Result<Alike, AllocError>
        ensures { IfOk result (λ alike. IsTrue (is_known alike) → IsAlikeAfter self.now.edit alike) }
    {
        if let Some(edit) = &self.edit
            && let Some(made) = &edit.made
        {
            let alike = Alike::after(&made.seen)?;
            return Ok(alike);
        }
        Ok(Alike::Unknown)
    }

    /// Goes over to these texts and returns which entries stay. If more may change than the values of one entry, it does
    /// nothing and returns `Unknown`.
    pub fn follow(&mut self, texts: &[Shared<Bytes>]) -> Result<Alike, AllocError>
        ensures done { IfOk result (λ alike. IsTrue (is_known alike) → self.new.resolution
            ≡ with_databases (map pieces_of texts.now) self.old.resolution) }
        ensures alike { IfOk result (λ alike.
            IsAlike alike (resolved_for self.old.resolution) (resolved_for self.new.resolution)) }
    {
        let alike = self.alike()?;
        if alike.is_known() && self.is_edited(texts) {
            self.put();
            return Ok(alike);
        }
        if are_same(self.texts.as_slice(), texts) {
            return Ok(Alike::All);
        }
        Ok(Alike::Unknown)
    }
}
