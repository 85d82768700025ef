//! Compares the items of a database before and after edits, apart from their places and lines.

ghost use Rattle.std.specs.Prelude.{◌≡◌, bytes_eq, IfOk};
ghost use Rattle.std.specs.Cmp.Lexicographic.{pointwise};
ghost use Rattle.bt_edited.specs.Becomes.{same_text, same_fault, same_closing, key_becomes, macro_becomes, part_becomes, value_becomes, any_value_becomes, is_text, reference_becomes, field_becomes, entry_becomes, definition_becomes, content_becomes, item_becomes, pieces_become, is_made};

use crate::changes::{Change, is_crossref, rekeyed_value};
use bt_bib::{
    Closing, Content, Definition, Entry, Field, Item, ItemFault, Part, Piece, PlacedPiece,
    ValueParts, read_bib,
};
use bt_text::{Bytes, Shared};
use std::alloc::{AllocError, Global};

/// What a change can make something else of.
pub trait Changed {
    ghost use Rattle.std.specs.Prelude.{◌≡◌, Bool, IfOk};
    ghost use Rattle.bt_edited.specs.declared.changes.Change.{Change};

    /// Whether a change makes the second of the first.
    ghost becomes: { Change → Self → Self → Bool };

    fn becomes(&self, alloc: Global, change: &Change, other: &Self) -> Result<bool, AllocError>
        ensures { IfOk result (λ same. same ≡ becomes change.now self.now other.now) };
}

fn each_becomes<T: Changed>(
    alloc: Global,
    change: &Change,
    before: &[T],
    after: &[T],
) -> Result<bool, AllocError>
    ensures { IfOk result (λ same. same ≡ pointwise (T.becomes change.now) before.now after.now) }
{
    let mut ours = before;
    let mut theirs = after;
    'items: while let [one, more @ ..] = ours {
        let [other, others @ ..] = theirs else {
            return Ok(false);
        };
        if !one.becomes(alloc, change, other)? {
            return Ok(false);
        }
        ours = more;
        theirs = others;
    }
    Ok(theirs.is_empty())
}

fn same_text(one: &Option<Shared<Bytes>>, other: &Option<Shared<Bytes>>) -> bool
    ensures { result ≡ same_text one.now other.now }
{
    match (one, other) {
        (None, None) => true,
        (Some(one), Some(other)) => one.as_slice() == other.as_slice(),
        (None, Some(_)) | (Some(_), None) => false,
    }
}

fn same_fault(one: Option<ItemFault>, other: Option<ItemFault>) -> bool
    ensures { result ≡ same_fault one other }
{
    one == other
}

fn same_closing(one: Option<Closing>, other: Option<Closing>) -> bool
    ensures { result ≡ same_closing one other }
{
    one == other
}

fn key_becomes(change: &Change, key: &Option<Shared<Bytes>>, other: &Option<Shared<Bytes>>) -> bool
    ensures { result ≡ key_becomes change.now key.now other.now }
{
    match (key, other) {
        (None, None) => true,
        (Some(key), Some(other)) => change.key_after(key.as_slice()) == other.as_slice(),
        (None, Some(_)) | (Some(_), None) => false,
    }
}

fn macro_becomes(
    change: &Change,
    name: &Option<Shared<Bytes>>,
    other: &Option<Shared<Bytes>>,
) -> bool
    ensures { result ≡ macro_becomes change.now name.now other.now }
{
    match (name, other) {
        (None, None) => true,
        (Some(name), Some(other)) => change.macro_after(name.as_slice()) == other.as_slice(),
        (None, Some(_)) | (Some(_), None) => false,
    }
}

fn part_becomes(change: &Change, part: &Part, other: &Part) -> bool
    ensures { result ≡ part_becomes change.now part.now other.now }
{
    match (part, other) {
        (Part::Text(text), Part::Text(other)) => text.as_slice() == other.as_slice(),
        (Part::Macro(name, _), Part::Macro(other, _)) => {
            change.macro_after(name.as_slice()) == other.as_slice()
        }
        (Part::Text(_), Part::Macro(_, _)) | (Part::Macro(_, _), Part::Text(_)) => false,
    }
}

impl Changed for Part {
    ghost use Rattle.bt_edited.specs.Becomes.{part_becomes};

    ghost becomes = { part_becomes };

    fn becomes(&self, _alloc: Global, change: &Change, other: &Part) -> Result<bool, AllocError> {
        Ok(part_becomes(change, self, other))
    }
}

fn any_value_becomes(
    alloc: Global,
    change: &Change,
    value: &Option<ValueParts>,
    other: &Option<ValueParts>,
) -> Result<bool, AllocError>
    ensures { IfOk result (λ same. same ≡ any_value_becomes change.now value.now other.now) }
{
    match (value, other) {
        (None, None) => Ok(true),
        (Some(value), Some(other)) => {
            each_becomes(alloc, change, value.as_slice(), other.as_slice())
        }
        (None, Some(_)) | (Some(_), None) => Ok(false),
    }
}

/// Whether parts are this text alone.
fn is_text(text: &[u8], parts: &[Part]) -> bool
    ensures { result ≡ is_text text.now parts.now }
{
    match parts {
        [Part::Text(other)] => text == other.as_slice(),
        _ => false,
    }
}

/// Whether a change makes the second of the first, the value of a cross-reference.
fn reference_becomes(
    alloc: Global,
    change: &Change,
    parts: &[Part],
    others: &[Part],
) -> Result<bool, AllocError>
    ensures { IfOk result (λ same. same ≡ reference_becomes change.now parts.now others.now) }
{
    if let Change::Key(old, new) = change {
        if let Some(text) = rekeyed_value(alloc, old.as_slice(), new.as_slice(), parts)? {
            return Ok(is_text(text.as_slice(), others));
        }
    }
    each_becomes(alloc, change, parts, others)
}

impl Changed for Field {
    ghost use Rattle.bt_edited.specs.Becomes.{field_becomes};

    ghost becomes = { field_becomes };

    fn becomes(&self, alloc: Global, change: &Change, other: &Field) -> Result<bool, AllocError> {
        if self.name.as_slice() != other.name.as_slice() {
            return Ok(false);
        }
        let parts = self.value.as_slice();
        let others = other.value.as_slice();
        if is_crossref(self.name.as_slice()) {
            reference_becomes(alloc, change, parts, others)
        } else {
            each_becomes(alloc, change, parts, others)
        }
    }
}

fn entry_becomes(
    alloc: Global,
    change: &Change,
    entry: &Entry,
    other: &Entry,
) -> Result<bool, AllocError>
    ensures { IfOk result (λ same. same ≡ entry_becomes change.now entry.now other.now) }
{
    if !same_text(&entry.kind, &other.kind) || !key_becomes(change, &entry.key, &other.key) {
        return Ok(false);
    }
    each_becomes(
        alloc,
        change,
        entry.fields.as_slice(),
        other.fields.as_slice(),
    )
}

fn definition_becomes(
    alloc: Global,
    change: &Change,
    definition: &Definition,
    other: &Definition,
) -> Result<bool, AllocError>
    ensures { IfOk result (λ same. same ≡ definition_becomes change.now definition.now other.now) }
{
    if !macro_becomes(change, &definition.name, &other.name) {
        return Ok(false);
    }
    any_value_becomes(alloc, change, &definition.value, &other.value)
}

fn content_becomes(
    alloc: Global,
    change: &Change,
    content: &Content,
    other: &Content,
) -> Result<bool, AllocError>
    ensures { IfOk result (λ same. same ≡ content_becomes change.now content.now other.now) }
{
    match (content, other) {
        (Content::Entry(entry), Content::Entry(other)) => entry_becomes(
            alloc, change, entry, other,
        ),
        (Content::Define(definition), Content::Define(other)) => {
            definition_becomes(alloc, change, definition, other)
        }
        (Content::Preamble(value), Content::Preamble(other)) => {
            any_value_becomes(alloc, change, value, other)
        }
        (Content::Entry(_), _) | (Content::Define(_), _) | (Content::Preamble(_), _) => Ok(false),
    }
}

fn item_becomes(
    alloc: Global,
    change: &Change,
    item: &Item,
    other: &Item,
) -> Result<bool, AllocError>
    ensures { IfOk result (λ same. same ≡ item_becomes change.now item.now other.now) }
{
    if !content_becomes(alloc, change, &item.content, &other.content)? {
        return Ok(false);
    }
    Ok(same_closing(item.close, other.close) && same_fault(item.fault, other.fault))
}

impl Changed for PlacedPiece {
    ghost use Rattle.bt_edited.specs.Becomes.{placed_becomes};

    ghost becomes = { placed_becomes };

    fn becomes(
        &self,
        alloc: Global,
        change: &Change,
        other: &PlacedPiece,
    ) -> Result<bool, AllocError> {
        match (&*self.piece, &*other.piece) {
            (Piece::Comment, Piece::Comment) => Ok(true),
            (Piece::Item(item), Piece::Item(other)) => item_becomes(alloc, change, item, other),
            (Piece::Comment, Piece::Item(_)) | (Piece::Item(_), Piece::Comment) => Ok(false),
        }
    }
}

/// Whether a change makes the pieces of a database those of this text. No text comes from edits that overlap.
pub fn is_made(
    alloc: Global,
    change: &Change,
    before: &[PlacedPiece],
    text: &Option<Bytes>,
) -> Result<bool, AllocError>
    ensures { IfOk result (λ is. is ≡ is_made change.now before.now text.now) }
{
    match text {
        Some(text) => {
            let after = read_bib(alloc, text.as_slice())?;
            each_becomes(alloc, change, before, after.pieces())
        }
        None => Ok(false),
    }
}
