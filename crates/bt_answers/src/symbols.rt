//! The keys and macros of all databases.

ghost use Rattle.std.specs.Prelude.{◌≡◌, ◌<◌, ◌*◌, ◌^◌, ◌++◌, ◌∷◌, [], length, map, IfOk};
ghost use Rattle.serde_json.specs.View.{view};
ghost use Rattle.bt_places.specs.Editor.{in_workspace};
ghost use Rattle.bt_answers.specs.Symbols.{query_of, contains, number_of, is_symbol, symbol, symbol_at, symbols};

use bt_mentions::{Mention, Role, part};
use bt_places::{
    Editor, NamedText, Paper, Pick, Visit, Workspace, location, range_of, shown, text_at,
    with_files, with_picked, with_value,
};
use bt_positions::Counting;
use bt_text::eq_ignore_ascii_case;
use serde_json::{Value, json};
use std::alloc::{AllocError, Global};

#[derive(Clone, Copy)]
struct Query<'a> {
    editor: Editor<'a>,
    text: &'a [u8],
}

fn query_of(message: &Value) -> &[u8]
    ensures { result.now ≡ query_of (view message.now) }
{
    match text_at(message, "/params/query") {
        Some(text) => text.as_bytes(),
        None => &[],
    }
}

fn contains(text: &[u8], query: &[u8]) -> bool
    ensures { result ≡ contains query.now text.now }
{
    let mut rest = text;
    'places: while let [_, others @ ..] = rest {
        let (front, _) = rest.split_at(query.len().min(rest.len()));
        if eq_ignore_ascii_case(front, query) {
            return true;
        }
        rest = others;
    }
    query.len() == 0
}

/// The protocol's number: 20 for a key, 14 for a constant, and 0 for other mentions.
fn number_of(role: Role) -> u8
    ensures { result ≡ number_of role }
{
    match role {
        Role::Key => 20,
        Role::Definition => 14,
        Role::Crossref | Role::Number | Role::Citation | Role::Macro => 0,
    }
}

fn is_symbol(query: &[u8], text: &[u8], one: Mention) -> bool
    ensures { result ≡ is_symbol query.now text.now one }
{
    number_of(one.role) != 0 && contains(part(text, one.from, one.to), query)
}

fn symbol(alloc: Global, name: &[u8], number: u8, place: Value) -> Result<Value, AllocError>
    ensures { IfOk result (λ v. view v ≡ symbol name.now number (view place)) }
{
    let name = shown(alloc, name)?;
    json!(in alloc; {"name": name, "kind": number, "location": place})
}

fn with_one(
    alloc: Global,
    counting: Counting,
    file: &NamedText<'_>,
    list: Vec<Value>,
    one: Mention,
) -> Result<Vec<Value>, AllocError>
    requires { 2 * length file.now.text.now < 2 ^ 64 }
    ensures { IfOk result (λ all. map view all.items ≡
        map view list.items ++ symbol_at counting file.now.uri.now file.now.text.now one ∷ []) }
{
    let range = range_of(alloc, counting, file.text, one.from, one.to)?;
    let place = location(alloc, file.uri, range)?;
    let name = part(file.text.as_slice(), one.from, one.to);
    let found = symbol(alloc, name, number_of(one.role), place)?;
    with_value(list, found)
}

impl Pick for Query<'_> {
    ghost use Rattle.bt_places.specs.Editor.{counting_in};
    ghost use Rattle.bt_answers.specs.Symbols.{with_symbol};

    ghost picked = { λ q uri text list one.
        with_symbol (counting_in q.editor.counting q.editor.documents.now) q.text.now uri text list one };

    fn pick(
        &self,
        alloc: Global,
        file: &NamedText<'_>,
        list: Vec<Value>,
        one: Mention,
    ) -> Result<Vec<Value>, AllocError> {
        if !is_symbol(self.text, file.text.as_slice(), one) {
            return Ok(list);
        }
        with_one(alloc, self.editor.counting_in(file.uri), file, list, one)
    }
}

impl Visit for Query<'_> {
    ghost use Rattle.bt_places.specs.Editor.{counting_in};
    ghost use Rattle.bt_answers.specs.Symbols.{with_symbols};

    ghost added = { λ q list uri text.
        with_symbols (counting_in q.editor.counting q.editor.documents.now) q.text.now list uri text };

    fn visit(
        &self,
        alloc: Global,
        list: Vec<Value>,
        uri: &[u8],
        text: &[u8],
    ) -> Result<Vec<Value>, AllocError> {
        with_picked(alloc, self, list, uri, text)
    }
}

/// The keys and macros of the paper's databases whose names contain the text that a message asks for.
pub fn symbols_for<P: Paper>(
    alloc: Global,
    workspace: &Workspace<'_, P>,
    message: &Value,
) -> Result<Value, AllocError>
    ensures { IfOk result (λ v. view v ≡ in_workspace symbols P.shown workspace.now (view message.now)) }
{
    let query = Query {
        editor: workspace.editor,
        text: query_of(message),
    };
    let list = with_files(alloc, workspace.paper, &query, Vec::new(alloc))?;
    Ok(Value::Array(list))
}
