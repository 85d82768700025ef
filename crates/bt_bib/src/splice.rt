//! The items of a database after a splice, from its items before.
//!
//! There are three parts. The pieces that end below the splice are kept. Then the new text is read from the last
//! boundary below the splice up to a boundary that both texts have. The old pieces after that boundary are kept too, at
//! moved places. A piece that ends exactly where the splice begins is re-read, since its end can depend on the byte
//! after it.

ghost use Rattle.std.specs.Prelude.{◌≡◌, ◌-◌, IfOk};
ghost use Rattle.bt_bib.specs.BibText.{pieces_of};

use crate::boundaries::{count_below, last_boundary};
use crate::items::Items;
use crate::reader::Reader;
use crate::spot::Spot;
use bt_text::{Bytes, Shared};
use std::alloc::{AllocError, Global};

/// A splice of a text: `inserted` bytes replaced those from `begin` up to `end`.
#[derive(Clone, Copy)]
pub struct Splice {
    pub begin: usize,
    pub end: usize,
    pub inserted: usize,
}

/// How a splice changes the items of a text. Comment words count as items here.
#[derive(Debug, Drop)]
pub struct ItemsEdit {
    /// How many of the first old items keep their places.
    pub before: usize,
    /// The old items from index `before` up to this index are replaced; those from this index on are moved.
    pub upto: usize,
    /// The items that replace them.
    pub new: Items,
    /// Where the text after them begins in the old text.
    pub stood: Spot,
    /// Where it begins in the new text.
    pub stand: Spot,
    /// How many bytes were read to find the difference.
    pub read: usize,
}

impl Items {
    ghost use Rattle.bt_bib.specs.Splice.{reread_from, reread_upto, IsSplice, IsItemsEdit};

    /// How the items of `new_text` differ from these, which must be the items of `old_text`. The new text is the old
    /// one after the splice. Only a part of the new text is read: from the last boundary below the splice up to the
    /// first boundary after it that both texts have. The only error is out of memory.
    pub fn edit(
        &self,
        alloc: Global,
        old_text: &[u8],
        new_text: &[u8],
        splice: Splice,
    ) -> Result<ItemsEdit, AllocError>
        requires old { self.now ≡ pieces_of old_text.now }
        requires splice { IsSplice old_text.now new_text.now splice.begin splice.end splice.inserted }
        ensures edit { IfOk result (λ edit. IsItemsEdit self.now (pieces_of new_text.now) edit) }
        ensures read { IfOk result (λ edit. edit.read
            ≡ reread_upto old_text.now new_text.now splice.begin splice.end splice.inserted
            - reread_from old_text.now splice.begin) }
    {
        let old = self.pieces();
        let kept = count_below(old, splice.begin);
        let from = last_boundary(old, kept);
        let no_source = Shared::<Bytes>::copied(alloc, b"")?;
        let reader = Reader {
            alloc,
            text: new_text,
            keeps: true,
            source: &no_source,
            offset: 0,
            known: &[],
        };
        let none = Items::new(alloc);
        let (new, at, joint) = reader.reread(none, from, old, splice)?;
        match joint {
            Some(passed) => {
                let back = last_boundary(old, passed);
                Ok(ItemsEdit {
                    before: kept,
                    upto: passed,
                    new,
                    stood: back,
                    stand: at,
                    read: at.place - from.place,
                })
            }
            None => Ok(ItemsEdit {
                before: kept,
                upto: old.len(),
                new,
                stood: at,
                stand: at,
                read: new_text.len() - from.place,
            }),
        }
    }

    /// These items after an edit. All pieces are shared. The only error is out of memory.
    pub fn edited(
        &self,
        alloc: Global,
        new_text: &[u8],
        edit: &ItemsEdit,
    ) -> Result<Items, AllocError>
        requires { IsItemsEdit self.now (pieces_of new_text.now) edit.now }
        ensures { IfOk result (λ items. items ≡ pieces_of new_text.now) }
    {
        let old = self.pieces();
        let new = edit.new.pieces();
        let front = Items::new(alloc);
        let items = front.with_rebased(&old[..edit.before], Spot::ITEM_START, Spot::ITEM_START)?;
        let items = items.with_rebased(new, Spot::ITEM_START, Spot::ITEM_START)?;
        let items = items.with_rebased(&old[edit.upto..], edit.stood, edit.stand)?;
        Ok(items)
    }
}
