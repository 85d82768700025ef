//! Hints about keys, beside the run's messages: citations of keys that no database has, and entries that nothing cites.

ghost use Rattle.std.specs.Prelude.{◌≡◌, ◌<◌, ◌*◌, ◌^◌, ◌++◌, ◌∷◌, [], length, map, IfOk, OnOk};
ghost use Rattle.std.specs.List.{fold};
ghost use Rattle.serde_json.specs.View.{view};
ghost use Rattle.bt_places.specs.Shapes.{range_of};
ghost use Rattle.bt_answers.specs.Hints.{room_after, is_small, with_name, is_asked, with_mention, with_file_names, names_in, missing_hint, unused_hint, is_unused, is_unused_at, asks_all, with_missing_among, with_missing_if_any, with_all_missing, with_unused_beside, with_unused_if_any, with_all_unused, with_hints};

use crate::missing::is_missing_at;
use bt_documents::Document;
use bt_mentions::{Mention, Role, is_parent, part};
use bt_places::{
    NamedText, Paper, Pick, is_database, is_tex, mentions_of, range_of, with_picked, with_value,
};
use bt_positions::{Counting, IndexedText};
use bt_text::NameList;
use serde_json::{Value, json};
use std::alloc::{AllocError, Global};

/// The most bytes of a paper that gets hints: 256 KiB. Hints need all databases to be re-read after each change, and in a
/// larger paper you would notice the delay.
const HINTED_BYTES: usize = 262_144;

/// Which names are collected.
#[derive(Clone, Copy)]
pub enum Names {
    /// The keys of entries.
    Entries,
    /// The keys that citations and cross-references ask for.
    Asked,
}

/// A search for citations of keys that aren't among these.
#[derive(Clone, Copy)]
struct Missing<'a> {
    counting: Counting,
    known: &'a NameList,
}

/// A search for entries whose keys aren't among these.
#[derive(Clone, Copy)]
struct Unused<'a> {
    counting: Counting,
    asked: &'a NameList,
}

/// How much room is left after a text; none if it has more bytes.
fn room_after(room: Option<usize>, text: &[u8]) -> Option<usize>
    ensures { result ≡ room_after room text.now }
{
    match room {
        Some(left) => if text.len() > left {
            None
        } else {
            Some(left - text.len())
        },
        None => None,
    }
}

/// Whether a paper's files have at most 256 KiB together: then it gets hints.
pub fn is_small<P: Paper>(paper: &P) -> bool
    ensures { result ≡ is_small (P.shown paper.now).files }
{
    let mut room = Some(HINTED_BYTES);
    'files: for n in 0..paper.file_count() {
        room = room_after(room, paper.file(n).1);
    }
    room.is_some()
}

fn add_name(alloc: Global, names: &mut NameList, name: &[u8]) -> Result<(), AllocError>
    ensures { OnOk result (names.new ≡ with_name names.old name.now) }
{
    let is_known = names.find(alloc, name)?.is_some();
    if is_known {
        return Ok(());
    }
    names.push(alloc, name)
}

fn is_asked(asked: Names, role: Role) -> bool
    ensures { result ≡ is_asked asked role }
{
    match asked {
        Names::Entries => role == Role::Key,
        Names::Asked => role == Role::Citation || is_parent(role),
    }
}

fn add_mention(
    alloc: Global,
    asked: Names,
    names: &mut NameList,
    text: &[u8],
    one: Mention,
) -> Result<(), AllocError>
    ensures { OnOk result (names.new ≡ with_mention asked text.now names.old one) }
{
    if !is_asked(asked, one.role) {
        return Ok(());
    }
    add_name(alloc, names, part(text, one.from, one.to))
}

fn add_mentions(
    alloc: Global,
    asked: Names,
    names: &mut NameList,
    text: &[u8],
    found: &[Mention],
) -> Result<(), AllocError>
    ensures { OnOk result (names.new ≡ fold (with_mention asked text.now) names.old found.now) }
{
    'found: for one in found {
        add_mention(alloc, asked, names, text, *one)?;
    }
    Ok(())
}

fn add_file_names(
    alloc: Global,
    asked: Names,
    names: &mut NameList,
    uri: &[u8],
    text: &[u8],
) -> Result<(), AllocError>
    ensures { OnOk result (names.new ≡ with_file_names asked names.old uri.now text.now) }
{
    let found = mentions_of(alloc, uri, text)?;
    add_mentions(alloc, asked, names, text, found.as_slice())
}

/// The names in the paper's files, of which no two match.
pub fn names_in<P: Paper>(alloc: Global, asked: Names, paper: &P) -> Result<NameList, AllocError>
    ensures { IfOk result (λ list. list ≡ names_in asked (P.shown paper.now).files) }
{
    let mut list = NameList::new(alloc);
    'files: for n in 0..paper.file_count() {
        let (uri, text) = paper.file(n);
        add_file_names(alloc, asked, &mut list, uri, text)?;
    }
    Ok(list)
}

fn missing_hint(alloc: Global, range: Value) -> Result<Value, AllocError>
    ensures { IfOk result (λ v. view v ≡ missing_hint (view range)) }
{
    json!(in alloc; {"range": range, "severity": 2, "source": "bibtex", "message": "No database has an entry of this key."})
}

fn unused_hint(alloc: Global, range: Value) -> Result<Value, AllocError>
    ensures { IfOk result (λ v. view v ≡ unused_hint (view range)) }
{
    json!(in alloc; {"range": range, "severity": 4, "source": "bibtex", "message": "Nothing cites this entry.", "tags": [1]})
}

fn with_missing_hint(
    alloc: Global,
    counting: Counting,
    text: &IndexedText,
    list: Vec<Value>,
    one: Mention,
) -> Result<Vec<Value>, AllocError>
    requires { 2 * length text.now < 2 ^ 64 }
    ensures { IfOk result (λ all. map view all.items ≡
        map view list.items ++ missing_hint (range_of counting text.now one.from one.to) ∷ []) }
{
    let range = range_of(alloc, counting, text, one.from, one.to)?;
    let hint = missing_hint(alloc, range)?;
    let all = with_value(list, hint)?;
    Ok(all)
}

fn with_unused_hint(
    alloc: Global,
    counting: Counting,
    text: &IndexedText,
    list: Vec<Value>,
    one: Mention,
) -> Result<Vec<Value>, AllocError>
    requires { 2 * length text.now < 2 ^ 64 }
    ensures { IfOk result (λ all. map view all.items ≡
        map view list.items ++ unused_hint (range_of counting text.now one.from one.to) ∷ []) }
{
    let range = range_of(alloc, counting, text, one.from, one.to)?;
    let hint = unused_hint(alloc, range)?;
    let all = with_value(list, hint)?;
    Ok(all)
}

impl Pick for Missing<'_> {
    ghost use Rattle.bt_answers.specs.Hints.{with_missing};

    ghost picked = { λ s uri text list one. with_missing s.counting s.known.now text list one };

    fn pick(
        &self,
        alloc: Global,
        file: &NamedText<'_>,
        list: Vec<Value>,
        one: Mention,
    ) -> Result<Vec<Value>, AllocError> {
        let missing = is_missing_at(alloc, self.known, file.text.as_slice(), one)?;
        if !missing {
            return Ok(list);
        }
        with_missing_hint(alloc, self.counting, file.text, list, one)
    }
}

fn is_unused(alloc: Global, asked: &NameList, role: Role, name: &[u8]) -> Result<bool, AllocError>
    ensures { IfOk result (λ unused. unused ≡ is_unused asked.now role name.now) }
{
    if role != Role::Key {
        return Ok(false);
    }
    let is_asked = asked.has(alloc, name)?;
    Ok(!is_asked)
}

fn is_unused_at(
    alloc: Global,
    asked: &NameList,
    text: &[u8],
    one: Mention,
) -> Result<bool, AllocError>
    ensures { IfOk result (λ unused. unused ≡ is_unused_at asked.now text.now one) }
{
    is_unused(alloc, asked, one.role, part(text, one.from, one.to))
}

impl Pick for Unused<'_> {
    ghost use Rattle.bt_answers.specs.Hints.{with_unused};

    ghost picked = { λ s uri text list one. with_unused s.counting s.asked.now text list one };

    fn pick(
        &self,
        alloc: Global,
        file: &NamedText<'_>,
        list: Vec<Value>,
        one: Mention,
    ) -> Result<Vec<Value>, AllocError> {
        let unused = is_unused_at(alloc, self.asked, file.text.as_slice(), one)?;
        if !unused {
            return Ok(list);
        }
        with_unused_hint(alloc, self.counting, file.text, list, one)
    }
}

fn with_missing_among(
    alloc: Global,
    known: &NameList,
    document: &Document,
    list: Vec<Value>,
) -> Result<Vec<Value>, AllocError>
    ensures { IfOk result (λ all. map view all.items ≡ with_missing_among known.now document.now (map view list.items)) }
{
    let missing = Missing {
        counting: document.counting,
        known,
    };
    let name = document.name.as_slice();
    let all = with_picked(alloc, &missing, list, name, document.text.as_slice())?;
    Ok(all)
}

fn with_missing_if_any(
    alloc: Global,
    known: &NameList,
    document: &Document,
    list: Vec<Value>,
) -> Result<Vec<Value>, AllocError>
    ensures { IfOk result (λ all. map view all.items ≡ with_missing_if_any known.now document.now (map view list.items)) }
{
    match known.as_slice() {
        [] => Ok(list),
        [_, ..] => with_missing_among(alloc, known, document, list),
    }
}

fn with_all_missing<P: Paper>(
    alloc: Global,
    paper: &P,
    document: &Document,
    list: Vec<Value>,
) -> Result<Vec<Value>, AllocError>
    ensures { IfOk result (λ all. map view all.items ≡
        with_all_missing (P.shown paper.now).files document.now (map view list.items)) }
{
    let known = names_in(alloc, Names::Entries, paper)?;
    let all = with_missing_if_any(alloc, &known, document, list)?;
    Ok(all)
}

/// Whether no entry counts as uncited: nothing is cited at all, or `*` is.
pub fn asks_all(alloc: Global, asked: &NameList) -> Result<bool, AllocError>
    ensures { IfOk result (λ all. all ≡ asks_all asked.now) }
{
    match asked.as_slice() {
        [] => Ok(true),
        [_, ..] => asked.has(alloc, b"*"),
    }
}

fn with_unused_beside(
    alloc: Global,
    asked: &NameList,
    document: &Document,
    list: Vec<Value>,
) -> Result<Vec<Value>, AllocError>
    ensures { IfOk result (λ all. map view all.items ≡ with_unused_beside asked.now document.now (map view list.items)) }
{
    let unused = Unused {
        counting: document.counting,
        asked,
    };
    let name = document.name.as_slice();
    let all = with_picked(alloc, &unused, list, name, document.text.as_slice())?;
    Ok(all)
}

fn with_unused_if_any(
    alloc: Global,
    asked: &NameList,
    document: &Document,
    list: Vec<Value>,
) -> Result<Vec<Value>, AllocError>
    ensures { IfOk result (λ all. map view all.items ≡ with_unused_if_any asked.now document.now (map view list.items)) }
{
    if asks_all(alloc, asked)? {
        return Ok(list);
    }
    with_unused_beside(alloc, asked, document, list)
}

fn with_all_unused<P: Paper>(
    alloc: Global,
    paper: &P,
    document: &Document,
    list: Vec<Value>,
) -> Result<Vec<Value>, AllocError>
    ensures { IfOk result (λ all. map view all.items ≡
        with_all_unused (P.shown paper.now).files document.now (map view list.items)) }
{
    let asked = names_in(alloc, Names::Asked, paper)?;
    let all = with_unused_if_any(alloc, &asked, document, list)?;
    Ok(all)
}

/// Adds a document's hints: in a LaTeX text its citations of missing keys, in a database of the run its uncited entries.
pub fn with_hints<P: Paper>(
    alloc: Global,
    paper: &P,
    document: &Document,
    list: Vec<Value>,
) -> Result<Vec<Value>, AllocError>
    ensures { IfOk result (λ all. map view all.items ≡
        with_hints (P.shown paper.now).files document.now (map view list.items)) }
{
    if !is_small(paper) {
        Ok(list)
    } else if is_tex(document.name.as_slice()) {
        with_all_missing(alloc, paper, document, list)
    } else if is_database(document.name.as_slice()) && document.in_step {
        with_all_unused(alloc, paper, document, list)
    } else {
        Ok(list)
    }
}
