//! Cases of databases: their items, each with its span, its content and its fault; and where a database can be cut into
//! parts.

ghost use Rattle.std.specs.Prelude.{◌≡◌};
ghost use Rattle.bt_bib.specs.BibText.{pieces_of};

use crate::Done;
use crate::answer::{Answer, Spelled, put};
use crate::words::Words;
use bt_bib::{
    Closing, Content, Entry, Item, ItemFault, Items, NameRole, Part, Piece, PlacedPiece,
    ValueParts, is_closed, read_bib, split_places,
};
use bt_text::Bytes;
use std::alloc::{AllocError, Global};

fn role_word(role: NameRole) -> &'static str {
    match role {
        NameRole::EntryType => "type",
        NameRole::StringName => "string_name",
        NameRole::FieldName => "field_name",
        NameRole::FieldPart => "field_part",
    }
}

fn fault_word(fault: ItemFault) -> &'static str {
    match fault {
        ItemFault::EndOfFile => "EndOfFile:",
        ItemFault::MissingName(_) => "MissingName:",
        ItemFault::BadNameEnd(_, _) => "BadNameEnd:",
        ItemFault::ExpectedOpen => "ExpectedOpen:",
        ItemFault::ExpectedCommaOrClose => "ExpectedCommaOrClose:",
        ItemFault::ExpectedEquals => "ExpectedEquals:",
        ItemFault::UnbalancedBraces => "UnbalancedBraces:",
        ItemFault::MissingPart => "MissingPart:",
    }
}

fn closing_words(close: Option<Closing>) -> &'static str {
    match close {
        Some(Closing::Brace) => " close=} fields=[",
        Some(Closing::Parenthesis) => " close=) fields=[",
        None => " close=. fields=[",
    }
}

/// Items in their spelling. Their lines count from the line of their `@`.
#[derive(Drop)]
struct Listing {
    from: usize,
    out: Answer,
}

impl Listing {
    fn new(alloc: Global) -> Listing {
        Listing {
            from: 0,
            out: Answer::new(alloc),
        }
    }

    fn end(self) -> Result<Bytes, AllocError> {
        let mut out = self.out;
        if out.is_empty() {
            out.put(b".");
        }
        out.end()
    }

    fn name(&mut self, name: &Bytes, line: usize) {
        put!(&mut self.out; *name, ":", self.from.saturating_add(line));
    }

    fn parts(&mut self, parts: &ValueParts) {
        for (place, part) in parts.as_slice().iter().enumerate() {
            self.out.separator(place, " ");
            match part {
                Part::Text(text) => put!(&mut self.out; "text:", *text),
                Part::Macro(name, line) => {
                    put!(&mut self.out; "macro:");
                    self.name(name, *line);
                }
            }
        }
    }

    fn value(&mut self, value: &Option<ValueParts>) {
        match value {
            Some(parts) => {
                put!(&mut self.out; "(");
                self.parts(parts);
                put!(&mut self.out; ")");
            }
            None => put!(&mut self.out; "."),
        }
    }

    fn entry(&mut self, entry: &Entry, close: &str) {
        put!(&mut self.out; "Entry type=", entry.kind, " key=", entry.key, close);
        for (place, field) in entry.fields.as_slice().iter().enumerate() {
            self.out.separator(place, ",");
            self.name(&field.name, field.line);
            put!(&mut self.out; ":(");
            self.parts(&field.value);
            put!(&mut self.out; ")");
        }
        put!(&mut self.out; "] value=.");
    }

    fn content(&mut self, item: &Item) {
        let close = closing_words(item.close);
        match &item.content {
            Content::Entry(entry) => self.entry(entry, close),
            Content::Define(definition) => {
                put!(&mut self.out; "Define type=. key=", definition.name, close, "] value=");
                self.value(&definition.value);
            }
            Content::Preamble(value) => {
                put!(&mut self.out; "Preamble type=. key=.", close, "] value=");
                self.value(value);
            }
        }
    }

    fn fault(&mut self, fault: ItemFault, line: usize) {
        put!(&mut self.out; fault_word(fault), line, ":");
        match fault {
            ItemFault::BadNameEnd(role, byte) => {
                put!(&mut self.out; [byte].as_slice(), ":", role_word(role));
            }
            ItemFault::MissingName(role) => put!(&mut self.out; ".:", role_word(role)),
            ItemFault::MissingPart => put!(&mut self.out; ".:field_part"),
            _ => put!(&mut self.out; ".:."),
        }
    }

    fn item(&mut self, placed: &PlacedPiece, item: &Item) {
        self.from = placed.start.line;
        let line = self.from.saturating_add(item.line);
        self.out.more(" ; ");
        put!(&mut self.out; placed.start.place, "..", placed.end.place, " line=", line, " ");
        self.content(item);
        put!(&mut self.out; " fault=");
        match item.fault {
            Some(fault) => self.fault(fault, placed.end.line),
            None => put!(&mut self.out; "."),
        }
    }

    fn last_fault(&mut self, placed: &PlacedPiece) {
        if let Piece::Item(item) = &*placed.piece
            && let Some(fault) = item.fault
        {
            put!(&mut self.out; placed.end.place, " ");
            self.fault(fault, placed.end.line);
        }
    }
}

/// The items, without comments.
pub fn spelled_items(alloc: Global, items: &Items) -> Result<Bytes, AllocError> {
    let mut listing = Listing::new(alloc);
    for placed in items.pieces() {
        if let Piece::Item(item) = &*placed.piece {
            listing.item(placed, item);
        }
    }
    listing.end()
}

fn last_fault(alloc: Global, items: &Items) -> Result<Bytes, AllocError> {
    let mut listing = Listing::new(alloc);
    if let Some(placed) = items.pieces().last() {
        listing.last_fault(placed);
    }
    listing.end()
}

fn item_count(items: &Items) -> usize {
    let mut count: usize = 0;
    for piece in items.pieces() {
        if let Piece::Item(_) = &*piece.piece {
            count = count.saturating_add(1);
        }
    }
    count
}

/// Where a text is cut into parts of at most this number of bytes.
fn push_cuts(words: Words<'_>, out: &mut Answer, text: &[u8], items: &Items) -> Done
    requires { items.now ≡ pieces_of text.now }
{
    let cuts = split_places(words.alloc, text, items, words.count(2))?;
    out.list(if cuts.is_empty() { "." } else { "" }, &cuts, " ", "");
    Ok(())
}

fn push_told(words: Words<'_>, out: &mut Answer, text: &[u8], items: &Items) -> Done
    requires { items.now ≡ pieces_of text.now }
{
    match words.word(0) {
        "item_count" => put!(out; item_count(items)),
        "last_fault" => out.put(last_fault(words.alloc, items)?.as_slice()),
        "split_places" => push_cuts(words, out, text, items)?,
        "is_closed" => put!(out; is_closed(text, items)),
        _ => out.put(spelled_items(words.alloc, items)?.as_slice()),
    }
    Ok(())
}

pub fn push_answer(words: Words<'_>, out: &mut Answer) -> Done {
    let text = words.text(1)?;
    let items = read_bib(words.alloc, &text)?;
    push_told(words, out, &text, &items)
}
