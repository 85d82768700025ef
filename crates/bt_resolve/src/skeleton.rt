//! Whether items can replace others without changing what is stored.
//!
//! What is listed, in what order, and what refers to what depends only on the keys, types and `crossref` fields of the
//! stored entries, their *skeletons*. An edit of other fields leaves all this as it was. Both versions of a `crossref`
//! are compared by their parts: equal parts have equal values, whatever the macros. Strings and preambles have to be
//! equal, since they count for the macros of later items and for the text that `preamble$` pushes.

ghost use Rattle.std.specs.Prelude.{◌≡◌, ◌≤◌, IsTrue, find, length, option_copied};
ghost use Rattle.bt_text.specs.CaseFolding.{is_same_folded};
ghost use Rattle.bt_resolve.specs.Names.{crossref};
ghost use Rattle.bt_resolve.specs.Values.{MacroTexts, joined_parts};
ghost use Rattle.bt_resolve.specs.inner.Cases.{part_text};
ghost use Rattle.bt_bib.specs.declared.item.Field.{Field as FieldSeen};
ghost use Rattle.bt_resolve.specs.Skeletons.{HaveOneSkeleton, IsItemLike, IsLike, is_entry};
ghost use Rattle.bt_resolve.specs.inner.Kept.{IsShort};
ghost use Rattle.bt_resolve.specs.inner.Skeletons.{IsPieceLike, text_in};

use crate::entries::kind_of;
use crate::fields::CROSSREF;
use bt_bib::{
    Content, Definition, Entry, Field, Item, ItemsEdit, Part, Piece, PlacedPiece, ValueParts,
};
use bt_text::{Bytes, Shared, eq_ignore_ascii_case, equal_bytes};

/// Whether two parts are the same, whatever their lines.
fn is_same_part(old: &Part, new: &Part) -> bool
    ensures { IsTrue result → (m : MacroTexts) → part_text m old.now ≡ part_text m new.now }
{
    match (old, new) {
        (Part::Text(old), Part::Text(new)) => equal_bytes(old.as_slice(), new.as_slice()),
        (Part::Macro(old, _), Part::Macro(new, _)) => {
            equal_bytes(old.as_slice(), new.as_slice())
        }
        _ => false,
    }
}

fn is_same_value(old: &[Part], new: &[Part]) -> bool
    ensures { IsTrue result → (m : MacroTexts) → joined_parts m old.now ≡ joined_parts m new.now }
{
    if old.len() != new.len() {
        return false;
    }
    'parts: for k in 0..old.len() {
        if !is_same_part(&old[k], &new[k]) {
            return false;
        }
    }
    true
}

/// The first field that refers to another entry.
fn crossref_of(fields: &[Field]) -> Option<&Field>
    ensures { option_copied result ≡ find (λ (f : FieldSeen). is_same_folded f.name crossref) fields.now }
{
    'fields: for field in fields {
        if eq_ignore_ascii_case(field.name.as_slice(), CROSSREF) {
            return Some(field);
        }
    }
    None
}

/// Whether two fields have the same parts, or both are missing.
fn is_same_field(old: Option<&Field>, new: Option<&Field>) -> bool
    ensures { IsTrue result → (m : MacroTexts) → text_in m old.entry ≡ text_in m new.entry }
{
    match (old, new) {
        (None, None) => true,
        (Some(old), Some(new)) => is_same_value(old.value.as_slice(), new.value.as_slice()),
        _ => false,
    }
}

/// Whether two keys are equal, or both are missing.
fn is_same_key(old: &Option<Shared<Bytes>>, new: &Option<Shared<Bytes>>) -> bool
    ensures { IsTrue result → old.now ≡ new.now }
{
    match (old, new) {
        (None, None) => true,
        (Some(old), Some(new)) => equal_bytes(old.as_slice(), new.as_slice()),
        _ => false,
    }
}

/// Whether two entries have one skeleton, whatever the macros: one key, one type, and the same parts of `crossref`.
fn is_same_skeleton(old: &Entry, new: &Entry) -> bool
    ensures { IsTrue result → (m : MacroTexts) → HaveOneSkeleton m old.now new.now }
{
    if !is_same_key(&old.key, &new.key) {
        return false;
    }
    if !equal_bytes(kind_of(old), kind_of(new)) {
        return false;
    }
    let was = crossref_of(old.fields.as_slice());
    let is = crossref_of(new.fields.as_slice());
    is_same_field(was, is)
}

/// Whether two parts are the same, with their lines.
fn is_equal_part(old: &Part, new: &Part) -> bool
    ensures { IsTrue result → old.now ≡ new.now }
{
    match (old, new) {
        (Part::Text(old), Part::Text(new)) => equal_bytes(old.as_slice(), new.as_slice()),
        (Part::Macro(old, line), Part::Macro(new, stands)) => {
            equal_bytes(old.as_slice(), new.as_slice()) && *line == *stands
        }
        _ => false,
    }
}

fn are_equal_parts(old: &[Part], new: &[Part]) -> bool
    ensures { IsTrue result → old.now ≡ new.now }
{
    if old.len() != new.len() {
        return false;
    }
    'parts: for k in 0..old.len() {
        if !is_equal_part(&old[k], &new[k]) {
            return false;
        }
    }
    true
}

/// Whether two values are equal, or both are missing.
fn is_equal_value(old: &Option<ValueParts>, new: &Option<ValueParts>) -> bool
    ensures { IsTrue result → old.now ≡ new.now }
{
    match (old, new) {
        (None, None) => true,
        (Some(old), Some(new)) => are_equal_parts(old.as_slice(), new.as_slice()),
        _ => false,
    }
}

fn is_equal_string(old: &Definition, new: &Definition) -> bool
    ensures { IsTrue result → old.now ≡ new.now }
{
    is_same_key(&old.name, &new.name) && is_equal_value(&old.value, &new.value)
}

/// Whether both contents are entries of one skeleton, or equal strings or preambles.
fn is_like(old: &Content, new: &Content) -> bool
    ensures { IsTrue result → (m : MacroTexts) → IsLike m old.now new.now }
{
    match (old, new) {
        (Content::Entry(old), Content::Entry(new)) => is_same_skeleton(old, new),
        (Content::Define(old), Content::Define(new)) => is_equal_string(old, new),
        (Content::Preamble(old), Content::Preamble(new)) => is_equal_value(old, new),
        _ => false,
    }
}

pub fn is_entry(content: &Content) -> bool
    ensures { result ≡ is_entry content.now }
{
    match content {
        Content::Entry(_) => true,
        Content::Define(_) => false,
        Content::Preamble(_) => false,
    }
}

/// Whether an item can replace another. If it isn't an entry, neither may have a fault.
fn is_item_like(old: &Item, new: &Item) -> bool
    ensures { IsTrue result → IsItemLike old.now new.now }
{
    if !is_like(&old.content, &new.content) {
        return false;
    }
    if is_entry(&old.content) {
        return true;
    }
    old.fault.is_none() && new.fault.is_none()
}

fn is_piece_like(old: &Piece, new: &Piece) -> bool
    ensures { IsTrue result → IsPieceLike old.now new.now }
{
    match (old, new) {
        (Piece::Comment, Piece::Comment) => true,
        (Piece::Item(old), Piece::Item(new)) => is_item_like(old, new),
        _ => false,
    }
}

/// Whether an edit replaces at most one piece: an entry by one of the same skeleton, anything else by its equal.
pub fn is_short(old: &[PlacedPiece], edit: &ItemsEdit) -> bool
    requires order { edit.now.before ≤ edit.now.upto }
    requires inside { edit.now.upto ≤ length old.now }
    ensures { IsTrue result → IsShort old.now edit.now }
{
    let new = edit.new.pieces();
    let span = &old[edit.before..edit.upto];
    if new.len() > 1 || span.len() != new.len() {
        return false;
    }
    if new.len() == 0 {
        return true;
    }
    let (was, is) = (&span[0], &new[0]);
    is_piece_like(&was.piece, &is.piece)
}
