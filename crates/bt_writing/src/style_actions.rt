//! The actions in a style. One puts the entry that a finding proposes to try at the end of an open database.

ghost use Rattle.std.specs.Prelude.{◌≡◌, ◌<◌, ◌*◌, ◌^◌, length, map, option_map, IfOk};
ghost use Rattle.std.specs.List.{fold};
ghost use Rattle.std.specs.String.{string_bytes};
ghost use Rattle.serde_json.specs.View.{view};
ghost use Rattle.bt_writing.specs.StyleActions.{first_database, touches_finding, trial_title, on_lines, trial, with_trial, with_trials, actions_between, actions_at, actions_in_style};

use crate::actions::array_if_any;
use crate::quick_fix::{action, edit_at};
use crate::spellings::spellings;
use bt_answers::file_name;
use bt_documents::Document;
use bt_places::{Editor, SHOWN_BYTES, is_database, position_at, with_value};
use bt_positions::Position;
use bt_remarks::{Finding, found_for};
use bt_shapes::shown;
use bt_text::Bytes;
use serde_json::Value;
use std::alloc::{AllocError, Global};

fn first_database(documents: &[Document]) -> Option<&Document>
    ensures { option_map (λ d. d.now) result ≡ first_database documents.now }
{
    documents
        .iter()
        .find(|document| is_database(document.name.as_slice()))
}

fn trial_title(alloc: Global, database: &Document) -> Result<String, AllocError>
    ensures { IfOk result (λ title. string_bytes title ≡ trial_title database.now) }
{
    let name = shown(alloc, file_name(database.name.as_slice()))?;
    format!(in alloc; "Insert the entry to try into {name}")
}

/// An entry on lines of its own.
fn on_lines(alloc: Global, entry: &[u8]) -> Result<Bytes, AllocError>
    ensures { IfOk result (λ lines. lines ≡ on_lines entry.now) }
{
    Bytes::of(alloc, &[b"\n", entry, b"\n"])
}

/// The action that puts an entry at a database's end.
fn trial(alloc: Global, database: &Document, entry: &[u8]) -> Result<Value, AllocError>
    requires { 2 * length database.now.text < 2 ^ 64 }
    ensures { IfOk result (λ v. view v ≡ trial database.now entry.now) }
{
    let end = database.text.as_slice().len();
    let lines = on_lines(alloc, entry)?;
    let edit = edit_at(alloc, database, end, end, lines.as_slice())?;
    let title = trial_title(alloc, database)?;
    let value = action(alloc, title.as_str(), edit)?;
    Ok(value)
}

/// A part of a style's text, and the database that gets entries.
#[derive(Clone, Copy)]
struct Trials<'a> {
    database: &'a Document,
    from: usize,
    to: usize,
}

impl Trials<'_> {
    fn touches(&self, one: &Finding) -> bool
        ensures { result ≡ touches_finding self.now.from self.now.to one.now }
    {
        one.start <= self.to && self.from <= one.end
    }

    /// Adds the action for a finding, if it lies here and has an entry.
    fn with_trial(
        &self,
        alloc: Global,
        list: Vec<Value>,
        one: &Finding,
    ) -> Result<Vec<Value>, AllocError>
        requires { 2 * length self.now.database.now.text < 2 ^ 64 }
        ensures { IfOk result (λ all. map view all.items ≡
            with_trial self.now.database.now self.now.from self.now.to (map view list.items) one.now) }
    {
        if !self.touches(one) || one.entry.len() == 0 {
            return Ok(list);
        }
        let value = trial(alloc, self.database, one.entry.as_slice())?;
        let all = with_value(list, value)?;
        Ok(all)
    }

    fn with_each(
        &self,
        alloc: Global,
        list: Vec<Value>,
        found: &[Finding],
    ) -> Result<Vec<Value>, AllocError>
        requires { 2 * length self.now.database.now.text < 2 ^ 64 }
        ensures { IfOk result (λ all. map view all.items ≡ fold
            (with_trial self.now.database.now self.now.from self.now.to) (map view list.items) found.now) }
    {
        let mut all = list;
        'found: for one in found {
            all = self.with_trial(alloc, all, one)?;
        }
        Ok(all)
    }

    /// Adds the actions for findings, if the database has at most 1 GiB.
    fn with_trials(
        &self,
        alloc: Global,
        list: Vec<Value>,
        found: &[Finding],
    ) -> Result<Vec<Value>, AllocError>
        ensures { IfOk result (λ all. map view all.items ≡ with_trials found.now self.now.from self.now.to
            self.now.database.now (map view list.items)) }
    {
        if self.database.text.as_slice().len() > SHOWN_BYTES {
            Ok(list)
        } else {
            self.with_each(alloc, list, found)
        }
    }
}

fn actions_between(
    alloc: Global,
    editor: &Editor<'_>,
    document: &Document,
    from: usize,
    to: usize,
) -> Result<Vec<Value>, AllocError>
    ensures { IfOk result (λ all. map view all.items ≡
        actions_between editor.now.checked.now editor.now.documents.now document.now from to) }
{
    let found = found_for(
        editor.checked,
        document.name.as_slice(),
        document.text.as_slice(),
    );
    let list = spellings(alloc, document, from, to)?;
    match first_database(editor.documents) {
        Some(database) => Trials { database, from, to }.with_trials(alloc, list, found),
        None => Ok(list),
    }
}

fn actions_at(
    alloc: Global,
    editor: &Editor<'_>,
    document: &Document,
    from: Option<Position>,
    to: Option<Position>,
) -> Result<Value, AllocError>
    ensures { IfOk result (λ v. view v ≡
        actions_at editor.now.checked.now editor.now.documents.now document.now from to) }
{
    let Some(from) = from else {
        return Ok(Value::Null);
    };
    let Some(to) = to else {
        return Ok(Value::Null);
    };
    let from = document.text.offset_of(document.counting, from);
    let to = document.text.offset_of(document.counting, to);
    let list = actions_between(alloc, editor, document, from, to)?;
    Ok(array_if_any(list))
}

/// The actions for a style's present text in the range that a message has: the likely names in place of misspelled ones, and
/// the entries to try of what was found, if a database is open.
pub fn actions_in_style(
    alloc: Global,
    editor: &Editor<'_>,
    document: &Document,
    message: &Value,
) -> Result<Value, AllocError>
    ensures { IfOk result (λ v. view v ≡
        actions_in_style editor.now.checked.now editor.now.documents.now document.now (view message.now)) }
{
    let from = position_at(
        message,
        "/params/range/start/line",
        "/params/range/start/character",
    );
    let to = position_at(
        message,
        "/params/range/end/line",
        "/params/range/end/character",
    );
    actions_at(alloc, editor, document, from, to)
}
