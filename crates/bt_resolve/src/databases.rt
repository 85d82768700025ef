//! The databases are read in one pass, item by item.
//!
//! The definitions look everything up among the items before an item: the last string that defines a macro, the entries
//! that are stored already. Code that did so would take quadratic time. Instead, the code keeps a `Reading`: hashed
//! tables of what the items so far have yielded. `specs/inner/Databases.antt` says how one more item changes it, and
//! `proofs/PlacingLemmas.antt` proves that this is what the definitions say about an item at its place.

ghost use Rattle.std.specs.Prelude.{◌≡◌, ◌∷◌, [], IfOk, IfSome, IsTrue, OnOk, map};
ghost use Rattle.bt_bib.specs.BibText.{pieces_of};
ghost use Rattle.bt_bib.specs.Items.{items_of};
ghost use Rattle.bt_text.specs.NameList.{are_apart};
ghost use Rattle.bt_resolve.specs.inner.Databases.{after_content, after_databases, after_item, after_items, nothing_read, state_of};
ghost use Rattle.bt_resolve.specs.inner.Earlier.{IsEarlier, IsKnowing, KnowsAt, KnowsDatabase};
ghost use Rattle.bt_resolve.specs.inner.KnownEntries.{KnowsContent, KnowsPiece};
ghost use Rattle.bt_resolve.specs.inner.Reaches.{database_reaches, reaches};

use crate::asked::Asked;
use crate::declared::Macro;
use crate::earlier::{Earlier, KnownPieces};
use crate::known_entry::KnownEntry;
use crate::macros::style_macros;
use crate::place::Origin;
use crate::reader::Reader;
use crate::reading::{Reach, Reading};
use crate::store::Store;
use bt_bib::{Content, Items, Piece, PieceCursor, PlacedPiece};
use bt_text::{Bytes, Sequence, Shared};
use std::alloc::{AllocError, Global};

impl Reader<'_, '_> {
    fn content(&self, reading: &mut Reading) -> Result<(), AllocError>
        requires fields { IsTrue (are_apart self.now.asked.now.fields) }
        requires known { IfSome self.now.known (KnowsContent self.now.asked.now self.now.origin.database
            self.now.item.now.line self.now.item.now.content) }
        ensures { OnOk result (state_of reading.new
            ≡ after_content self.now.asked.now self.now.origin self.now.item.now (state_of reading.old)) }
    {
        let Reading {
            macros,
            store,
            preamble,
            messages,
        } = reading;
        match &self.item.content {
            Content::Entry(entry) => self.entry(entry, macros, store, messages),
            Content::Define(string) => self.string(string, macros, messages),
            Content::Preamble(parts) => self.preamble(parts, macros, preamble, messages),
        }
    }

    #[tactic(auto, unfolding(crate::specs::Messages::item_messages))]
    fn item(&self, reading: &mut Reading) -> Result<(), AllocError>
        requires fields { IsTrue (are_apart self.now.asked.now.fields) }
        requires known { IfSome self.now.known (KnowsContent self.now.asked.now self.now.origin.database
            self.now.item.now.line self.now.item.now.content) }
        ensures { OnOk result (state_of reading.new
            ≡ after_item self.now.asked.now self.now.origin self.now.end self.now.item.now (state_of reading.old)) }
    {
        self.content(reading)?;
        self.tell_fault(&mut reading.messages)
    }
}

/// What a database is read with.
#[derive(Clone, Copy, Drop)]
struct DatabaseReader<'a> {
    alloc: Global,
    asked: &'a Asked<'a>,
    /// Its number, from 1.
    database: usize,
}

impl DatabaseReader<'_> {
    fn piece(
        &self,
        piece: &PlacedPiece,
        known: Option<KnownEntry<'_>>,
        reading: &mut Reading,
    ) -> Result<(), AllocError>
        requires fields { IsTrue (are_apart self.now.asked.now.fields) }
        requires known { IfSome known (KnowsPiece self.now.asked.now self.now.database piece.now.piece) }
        ensures { OnOk result (state_of reading.new ≡ after_items self.now.asked.now self.now.database
            (state_of reading.old) (items_of (piece.now ∷ []))) }
    {
        match &*piece.piece {
            Piece::Comment => Ok(()),
            Piece::Item(item) => {
                let reader = Reader {
                    alloc: self.alloc,
                    asked: self.asked,
                    item,
                    origin: Origin {
                        database: self.database,
                        line: piece.start.line,
                    },
                    end: piece.end,
                    known,
                };
                reader.item(reading)
            }
        }
    }

    /// Reads the pieces of the database, and returns how far the reading was before each one and after the last.
    fn pieces(
        &self,
        pieces: &[PlacedPiece],
        earlier: Option<KnownPieces<'_>>,
        reading: &mut Reading,
    ) -> Result<Sequence<Reach>, AllocError>
        requires fields { IsTrue (are_apart self.now.asked.now.fields) }
        requires known { IfSome earlier (IsKnowing self.now.asked.now self.now.database pieces.now) }
        ensures read { OnOk result (state_of reading.new ≡ after_items self.now.asked.now self.now.database
            (state_of reading.old) (items_of pieces.now)) }
        ensures reaches { IfOk result (λ all. all
            ≡ reaches self.now.asked.now self.now.database (state_of reading.old) pieces.now) }
    {
        let mut all = Sequence::new(self.alloc);
        'pieces: for k in 0..pieces.len() {
            all.push(reading.so_far())?;
            let known = known_entry(earlier, k);
            self.piece(&pieces[k], known, reading)?;
        }
        all.push(reading.so_far())?;
        Ok(all)
    }
}

fn known_entry(earlier: Option<KnownPieces<'_>>, index: usize) -> Option<KnownEntry<'_>>
    ensures { IfSome result (KnowsAt earlier.entry index) }
{
    match &earlier {
        None => None,
        Some(earlier) => earlier.entry(index),
    }
}

fn known_pieces(earlier: Option<Earlier<'_>>, number: usize) -> Option<KnownPieces<'_>>
    ensures { IfSome result (KnowsDatabase earlier.entry number) }
{
    match &earlier {
        None => None,
        Some(earlier) => earlier.pieces(number),
    }
}

/// What is known before the first item.
pub fn nothing_read(alloc: Global, macros: &[Macro]) -> Result<Reading, AllocError>
    ensures { IfOk result (λ read. state_of read ≡ nothing_read macros.now) }
{
    Ok(Reading {
        macros: style_macros(alloc, macros)?,
        store: Store::new(alloc),
        preamble: Bytes::new(alloc),
        messages: Sequence::new(alloc),
    })
}

/// Reads the databases in their order. It says of each how far the reading was.
pub fn read_databases(
    alloc: Global,
    asked: &Asked<'_>,
    databases: &[Shared<Items>],
    earlier: Option<Earlier<'_>>,
    reading: &mut Reading,
) -> Result<Sequence<Sequence<Reach>>, AllocError>
    requires fields { IsTrue (are_apart asked.now.fields) }
    requires earlier { IfSome earlier (IsEarlier asked.now databases.now) }
    ensures read { OnOk result (state_of reading.new ≡ after_databases asked.now 1 (state_of reading.old)
        (map items_of databases.now)) }
    ensures reaches { IfOk result (λ all. all
        ≡ database_reaches asked.now 1 (state_of reading.old) databases.now) }
{
    let mut all = Sequence::new(alloc);
    'databases: for i in 0..databases.len() {
        let database = &databases[i];
        let known = known_pieces(earlier, i);
        let reader = DatabaseReader {
            alloc,
            asked: &*asked,
            database: i + 1,
        };
        let reaches = reader.pieces(database.pieces(), known, reading)?;
        all.push(reaches)?;
    }
    Ok(all)
}

/// Reads a database from its text. None of its pieces is kept.
fn read_text(
    alloc: Global,
    asked: &Asked<'_>,
    database: usize,
    text: &Shared<Bytes>,
    reading: &mut Reading,
) -> Result<(), AllocError>
    requires { IsTrue (are_apart asked.now.fields) }
    ensures { OnOk result (state_of reading.new
        ≡ after_items asked.now database (state_of reading.old) (items_of (pieces_of text.now))) }
{
    let mut left = PieceCursor::of(alloc, text)?;
    let reader = DatabaseReader {
        alloc,
        asked: &*asked,
        database,
    };
    'pieces: loop {
        let next = left.next()?;
        match next {
            None => return Ok(()),
            Some(piece) => reader.piece(&piece, None, reading)?,
        }
    }
}

/// Reads databases from their texts, in their order.
pub fn read_texts(
    alloc: Global,
    asked: &Asked<'_>,
    texts: &[Shared<Bytes>],
    reading: &mut Reading,
) -> Result<(), AllocError>
    requires { IsTrue (are_apart asked.now.fields) }
    ensures { OnOk result (state_of reading.new ≡ after_databases asked.now 1 (state_of reading.old)
        (map (λ text. items_of (pieces_of text)) texts.now)) }
{
    'texts: for i in 0..texts.len() {
        read_text(alloc, asked, i + 1, &texts[i], reading)?;
    }
    Ok(())
}
