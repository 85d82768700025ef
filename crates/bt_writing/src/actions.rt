//! What an editor can do at a place of a database: remove a repeated entry, insert a missing comma, close an entry, and spell
//! a cross-reference like the entry that it names.

ghost use Rattle.std.specs.Prelude.{◌≡◌, ◌≤◌, ◌<◌, ◌*◌, ◌^◌, [], length, map, option_map, IfOk};
ghost use Rattle.serde_json.specs.View.{view};
ghost use Rattle.bt_writing.specs.Actions.{repeated, removal_at, with_removal, before_entry, closing_in, sign, with_brace, with_quote, spelling, solid_end, closing, between, separator, before_item, value_end, missing_by, missing_in, fix_of, title_of, fix_at, with_fix, array_if_any, actions_in, actions_at, actions};

use crate::finding::place_in;
use crate::item_ends::{begins_field, has_line_end, last_word};
use crate::quick_fix::{action, edit_at};
use crate::respelling::Database;
use crate::written::begins_item;
use bt_bib::{Closing, Content, Item, ItemFault, Piece, PlacedPiece, read_bib};
use bt_documents::Document;
use bt_mentions::{Inside, inside_item, part};
use bt_places::{SHOWN_BYTES, is_any, is_database, item_around, key_of, position_at, with_value};
use bt_positions::Position;
use bt_text::trim_end;
use serde_json::Value;
use std::alloc::{AllocError, Global};

/// What is missing in an item.
#[derive(Clone, Copy)]
pub enum Missing {
    Comma,
    /// Its closing sign.
    End(Closing),
    /// The closing brace of a value, and the closing sign.
    Brace(Closing),
    /// The closing quote of a value, and the closing sign.
    Quote(Closing),
    /// The closing quote of a value.
    ValueEnd,
}

/// What is missing at a place of a text.
#[derive(Clone, Copy)]
pub struct Fix {
    pub place: usize,
    pub missing: Missing,
}

/// The entry around a place, if an earlier one has its key.
fn repeated_entry(pieces: &[PlacedPiece], place: usize) -> Option<&PlacedPiece>
    ensures { option_map (λ p. p.now) result ≡ repeated place pieces.now }
{
    let piece = item_around(pieces, place)?;
    let key = key_of(piece);
    if key.is_empty() {
        return None;
    }
    let first = place_in(pieces, key)?;
    if first < piece.start.place {
        Some(piece)
    } else {
        None
    }
}

fn removal_at(alloc: Global, document: &Document, piece: &PlacedPiece) -> Result<Value, AllocError>
    requires { 2 * length document.now.text < 2 ^ 64 }
    ensures { IfOk result (λ v. view v ≡ removal_at document.now piece.now) }
{
    let edit = edit_at(alloc, document, piece.start.place, piece.end.place, &[])?;
    let removal = action(alloc, "Remove the repeated entry", edit)?;
    Ok(removal)
}

fn with_removal(
    alloc: Global,
    document: &Document,
    list: Vec<Value>,
    found: Option<&PlacedPiece>,
) -> Result<Vec<Value>, AllocError>
    requires { 2 * length document.now.text < 2 ^ 64 }
    ensures { IfOk result (λ all. map view all.items ≡
        with_removal document.now (map view list.items) (option_map (λ p. p.now) found.entry)) }
{
    match found {
        Some(piece) => {
            let removal = removal_at(alloc, document, piece)?;
            let all = with_value(list, removal)?;
            Ok(all)
        }
        None => Ok(list),
    }
}

/// How many bytes precede the next line that begins with an `@`; all of them if there is none.
fn before_entry(text: &[u8]) -> usize
    ensures value { result ≡ before_entry text.now }
    ensures within { result ≤ length text.now }
{
    let mut count = 0;
    let mut rest = text;
    'bytes: while let [first, others @ ..] = rest {
        if *first == b'\n' && begins_item(others) {
            return count;
        }
        count += 1;
        rest = others;
    }
    count
}

/// What closes an item that is open at such a place and ends with this sign. None if more than the last brace or quote of a
/// value is missing.
fn closing_in(inside: Inside, close: Closing) -> Option<Missing>
    ensures { result ≡ closing_in inside close }
{
    match inside {
        Inside::Name(_) | Inside::Value(_) => Some(Missing::End(close)),
        Inside::Braced(_, 0) => Some(Missing::Brace(close)),
        Inside::Quoted(_, 0) => Some(Missing::Quote(close)),
        Inside::Braced(_, _) | Inside::Quoted(_, _) => None,
    }
}

fn sign(close: Closing) -> &'static [u8]
    ensures { result.now ≡ sign close }
{
    match close {
        Closing::Brace => b"}",
        Closing::Parenthesis => b")",
    }
}

fn with_brace(close: Closing) -> &'static [u8]
    ensures { result.now ≡ with_brace close }
{
    match close {
        Closing::Brace => b"}}",
        Closing::Parenthesis => b"})",
    }
}

fn with_quote(close: Closing) -> &'static [u8]
    ensures { result.now ≡ with_quote close }
{
    match close {
        Closing::Brace => b"\"}",
        Closing::Parenthesis => b"\")",
    }
}

fn spelling(missing: Missing) -> &'static [u8]
    ensures { result.now ≡ spelling missing }
{
    match missing {
        Missing::Comma => b",",
        Missing::End(close) => sign(close),
        Missing::Brace(close) => with_brace(close),
        Missing::Quote(close) => with_quote(close),
        Missing::ValueEnd => b"\"",
    }
}

/// An item of a text with a fault.
#[derive(Clone, Copy)]
struct FaultyItem<'a> {
    text: &'a [u8],
    item: &'a Item,
    /// Where the item begins.
    start: usize,
    /// Where its fault is.
    end: usize,
}

impl FaultyItem<'_> {
    /// Where the item's text up to a place ends without the white space at its end.
    fn solid_end(&self, to: usize) -> usize
        requires { self.now.start ≤ length self.now.text.now }
        ensures { result ≡ solid_end self.now.text.now self.now.start to }
    {
        self.start + trim_end(part(self.text, self.start, to)).len()
    }

    /// What closes the item before a place, if it was opened.
    fn closing(&self, to: usize) -> Option<Fix>
        requires { self.now.start ≤ length self.now.text.now }
        ensures { result ≡ closing self.now.text.now self.now.start to self.now.item.now.close }
    {
        let inside = inside_item(part(self.text, self.start, to));
        let missing = closing_in(inside, self.item.close?)?;
        Some(Fix {
            place: self.solid_end(to),
            missing,
        })
    }

    /// What is missing between the parts of an entry, given the text behind the fault: the closing sign before an item, a comma
    /// before a field.
    fn between(&self, rest: &[u8]) -> Option<Fix>
        requires { self.now.start ≤ length self.now.text.now }
        ensures { result ≡ between self.now.text.now self.now.start self.now.end rest.now self.now.item.now.close }
    {
        if begins_item(rest) {
            self.closing(self.end)
        } else if begins_field(rest) {
            Some(Fix {
                place: self.solid_end(self.end),
                missing: Missing::Comma,
            })
        } else {
            None
        }
    }

    /// What is missing between the parts of an item: a comma or the closing sign in an entry, otherwise the closing sign.
    fn separator(&self) -> Option<Fix>
        requires { self.now.start ≤ length self.now.text.now }
        ensures { result ≡ separator self.now.text.now self.now.start self.now.end self.now.item.now.content
            self.now.item.now.close }
    {
        match &self.item.content {
            Content::Entry(_) => self.between(part(self.text, self.end, self.text.len())),
            Content::Define(_) | Content::Preamble(_) => self.closing(self.end),
        }
    }

    /// What closes an entry before the next item, if the head of that item was read as a field's name.
    fn before_item(&self) -> Option<Fix>
        requires { self.now.start ≤ length self.now.text.now }
        ensures { result ≡ before_item self.now.text.now self.now.start self.now.end self.now.item.now.content
            self.now.item.now.close }
    {
        let place = last_word(self.text, self.start, self.end);
        match &self.item.content {
            Content::Entry(_) => if begins_item(part(self.text, place, self.end)) {
                self.closing(place)
            } else {
                None
            },
            Content::Define(_) | Content::Preamble(_) => None,
        }
    }

    /// The closing quote of a value in which the closing sign of its item was read. That sign begins its line.
    fn value_end(&self) -> Option<Fix>
        requires { self.now.start ≤ length self.now.text.now }
        ensures { result ≡ value_end self.now.text.now self.now.start self.now.end self.now.item.now.close }
    {
        let place = self.solid_end(self.end);
        match self.item.close {
            Some(Closing::Brace) => if has_line_end(part(self.text, place, self.end)) {
                Some(Fix {
                    place,
                    missing: Missing::ValueEnd,
                })
            } else {
                None
            },
            Some(Closing::Parenthesis) | None => None,
        }
    }

    /// What is missing in the item, given its fault. An item that the text's end cuts off is closed before the next line that
    /// begins with an `@`.
    fn missing_by(&self, fault: ItemFault) -> Option<Fix>
        requires { self.now.start ≤ length self.now.text.now }
        ensures { result ≡ missing_by self.now.text.now self.now.start self.now.end self.now.item.now fault }
    {
        match fault {
            ItemFault::ExpectedCommaOrClose => self.separator(),
            ItemFault::EndOfFile => {
                let count = before_entry(self.text.split_at(self.start).1);
                self.closing(self.start + count)
            }
            ItemFault::BadNameEnd(_, _) | ItemFault::ExpectedEquals => self.before_item(),
            ItemFault::UnbalancedBraces => self.value_end(),
            ItemFault::MissingName(_) | ItemFault::ExpectedOpen | ItemFault::MissingPart => None,
        }
    }
}

fn missing_in(text: &[u8], start: usize, end: usize, item: &Item) -> Option<Fix>
    requires { start ≤ length text.now }
    ensures { result ≡ missing_in text.now start end item.now }
{
    let faulty = FaultyItem {
        text,
        item,
        start,
        end,
    };
    match item.fault {
        Some(fault) => faulty.missing_by(fault),
        None => None,
    }
}

/// What is missing in the item around a place, if that is known.
fn fix_of(text: &[u8], around: Option<&PlacedPiece>) -> Option<Fix>
    ensures { result ≡ fix_of text.now (option_map (λ p. p.now) around.entry) }
{
    let piece = around?;
    let start = piece.start.place.min(text.len());
    match &*piece.piece {
        Piece::Comment => None,
        Piece::Item(item) => missing_in(text, start, piece.end.place, item),
    }
}

fn title_of(missing: Missing) -> &'static str
    ensures { result.now ≡ title_of missing }
{
    match missing {
        Missing::Comma => "Insert the missing comma",
        Missing::End(_) | Missing::Brace(_) | Missing::Quote(_) => "Close the item",
        Missing::ValueEnd => "Close the value",
    }
}

fn fix_at(alloc: Global, document: &Document, fix: Fix) -> Result<Value, AllocError>
    requires { 2 * length document.now.text < 2 ^ 64 }
    ensures { IfOk result (λ v. view v ≡ fix_at document.now fix) }
{
    let edit = edit_at(alloc, document, fix.place, fix.place, spelling(fix.missing))?;
    let value = action(alloc, title_of(fix.missing), edit)?;
    Ok(value)
}

fn with_fix(
    alloc: Global,
    document: &Document,
    list: Vec<Value>,
    fix: Option<Fix>,
) -> Result<Vec<Value>, AllocError>
    requires { 2 * length document.now.text < 2 ^ 64 }
    ensures { IfOk result (λ all. map view all.items ≡ with_fix document.now (map view list.items) fix) }
{
    let Some(fix) = fix else {
        return Ok(list);
    };
    let value = fix_at(alloc, document, fix)?;
    let all = with_value(list, value)?;
    Ok(all)
}

/// The values as an array; null if there are none.
pub fn array_if_any(list: Vec<Value>) -> Value
    ensures { view result ≡ array_if_any (map view list.items) }
{
    if is_any(list.as_slice()) {
        Value::Array(list)
    } else {
        Value::Null
    }
}

fn actions_in(alloc: Global, database: &Database<'_>, place: usize) -> Result<Value, AllocError>
    requires { 2 * length database.now.document.now.text < 2 ^ 64 }
    ensures { IfOk result (λ v. view v ≡ actions_in database.now.document.now database.now.pieces.now place) }
{
    let Database { document, pieces } = *database;
    let around = item_around(pieces, place);
    let repeated = repeated_entry(pieces, place);
    let list = with_removal(alloc, document, Vec::new(alloc), repeated)?;
    let list = with_fix(
        alloc,
        document,
        list,
        fix_of(document.text.as_slice(), around),
    )?;
    let list = database.with_respellings_around(alloc, list, around)?;
    Ok(array_if_any(list))
}

fn actions_at(alloc: Global, document: &Document, at: Position) -> Result<Value, AllocError>
    ensures { IfOk result (λ v. view v ≡ actions_at document.now at) }
{
    let text = document.text.as_slice();
    if !is_database(document.name.as_slice()) || text.len() > SHOWN_BYTES {
        return Ok(Value::Null);
    }
    let place = document.text.offset_of(document.counting, at);
    let items = read_bib(alloc, text)?;
    let pieces = items.pieces();
    actions_in(alloc, &Database { document, pieces }, place)
}

/// The actions at the start of the range that a message has.
pub fn actions_for(alloc: Global, document: &Document, message: &Value) -> Result<Value, AllocError>
    ensures { IfOk result (λ v. view v ≡ actions document.now (view message.now)) }
{
    match position_at(
        message,
        "/params/range/start/line",
        "/params/range/start/character",
    ) {
        Some(at) => {
            let answer = actions_at(alloc, document, at)?;
            Ok(answer)
        }
        None => Ok(Value::Null),
    }
}
