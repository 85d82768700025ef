//! Where a key or a macro is mentioned in the paper's files and in open LaTeX texts.

ghost use Rattle.std.specs.Prelude.{◌≡◌, ◌<◌, ◌*◌, ◌^◌, ◌++◌, ◌∷◌, [], length, map, option_map, IfOk};
ghost use Rattle.serde_json.specs.View.{view};
ghost use Rattle.bt_places.specs.Editor.{in_workspace};
ghost use Rattle.bt_places.specs.Shapes.{location, range_of};
ghost use Rattle.bt_answers.specs.References.{wanted_of, asked_of, is_use, is_definition, is_wanted, is_mention, all_references, is_mentioned, references, references_at, macro_places, macro_at};

use crate::lending::Loan;
use bt_mentions::{Mention, Role, part};
use bt_places::{
    Cursor, Editor, NamedText, Paper, Pick, Visit, Workspace, is_any, is_key, location, mention_at,
    range_of, with_files, with_picked, with_texts, with_value,
};
use bt_positions::Counting;
use bt_style_answers::Lent;
use bt_text::eq_ignore_ascii_case;
use serde_json::Value;
use std::alloc::{AllocError, Global};

/// What is looked for.
#[derive(Clone, Copy)]
pub enum Wanted {
    /// All mentions of a key.
    Keys,
    /// All mentions of a macro.
    Macros,
    /// The definitions of a macro.
    Definitions,
    /// The mentions of a key that aren't entries.
    KeyUses,
    /// The uses of a macro.
    MacroUses,
}

/// A search for the mentions of a name.
#[derive(Clone, Copy)]
pub struct Search<'a> {
    pub editor: Editor<'a>,
    pub wanted: Wanted,
    pub name: &'a [u8],
}

/// What is looked for if a mention's name is asked about.
pub fn wanted_of(role: Role) -> Wanted
    ensures { result ≡ wanted_of role }
{
    if is_key(role) {
        Wanted::Keys
    } else {
        Wanted::Macros
    }
}

/// Whether a macro is defined here.
pub fn is_definition(role: Role) -> bool
    ensures { result ≡ is_definition role }
{
    match role {
        Role::Definition => true,
        Role::Key | Role::Crossref | Role::Number | Role::Citation | Role::Macro => false,
    }
}

/// What is looked for, with the declarations or without.
fn asked_of(role: Role, with_declarations: bool) -> Wanted
    ensures { result ≡ asked_of role with_declarations }
{
    if with_declarations {
        wanted_of(role)
    } else if is_key(role) {
        Wanted::KeyUses
    } else {
        Wanted::MacroUses
    }
}

/// Whether a name is used here, and not declared.
fn is_use(role: Role) -> bool
    ensures { result ≡ is_use role }
{
    match role {
        Role::Crossref | Role::Number | Role::Citation | Role::Macro => true,
        Role::Key | Role::Definition => false,
    }
}

fn is_wanted(wanted: Wanted, role: Role) -> bool
    ensures { result ≡ is_wanted wanted role }
{
    match wanted {
        Wanted::Keys => is_key(role),
        Wanted::Macros => !is_key(role),
        Wanted::Definitions => is_definition(role),
        Wanted::KeyUses => is_use(role) && is_key(role),
        Wanted::MacroUses => is_use(role) && !is_key(role),
    }
}

/// Whether a mention of a text is one of a name. Names are compared without case.
pub fn is_mention(wanted: Wanted, name: &[u8], text: &[u8], one: Mention) -> bool
    ensures { result ≡ is_mention wanted name.now text.now one }
{
    is_wanted(wanted, one.role) && eq_ignore_ascii_case(part(text, one.from, one.to), name)
}

fn with_place(
    alloc: Global,
    counting: Counting,
    file: &NamedText<'_>,
    list: Vec<Value>,
    one: Mention,
) -> Result<Vec<Value>, AllocError>
    requires { 2 * length file.now.text.now < 2 ^ 64 }
    ensures { IfOk result (λ all. map view all.items ≡
        map view list.items ++ location file.now.uri.now (range_of counting file.now.text.now one.from one.to) ∷ []) }
{
    let range = range_of(alloc, counting, file.text, one.from, one.to)?;
    let place = location(alloc, file.uri, range)?;
    let all = with_value(list, place)?;
    Ok(all)
}

impl Pick for Search<'_> {
    ghost use Rattle.bt_places.specs.Editor.{counting_in};
    ghost use Rattle.bt_answers.specs.References.{with_reference};

    ghost picked = { λ s uri text list one.
        with_reference (counting_in s.editor.counting s.editor.documents.now) s.wanted s.name.now uri text list one };

    fn pick(
        &self,
        alloc: Global,
        file: &NamedText<'_>,
        list: Vec<Value>,
        one: Mention,
    ) -> Result<Vec<Value>, AllocError> {
        if !is_mention(self.wanted, self.name, file.text.as_slice(), one) {
            return Ok(list);
        }
        with_place(alloc, self.editor.counting_in(file.uri), file, list, one)
    }
}

impl Visit for Search<'_> {
    ghost use Rattle.bt_places.specs.Editor.{counting_in};
    ghost use Rattle.bt_answers.specs.References.{with_references};

    ghost added = { λ s list uri text.
        with_references (counting_in s.editor.counting s.editor.documents.now) s.wanted s.name.now list uri text };

    fn visit(
        &self,
        alloc: Global,
        list: Vec<Value>,
        uri: &[u8],
        text: &[u8],
    ) -> Result<Vec<Value>, AllocError> {
        with_picked(alloc, self, list, uri, text)
    }
}

fn all_references<P: Paper>(
    alloc: Global,
    paper: &P,
    search: &Search<'_>,
) -> Result<Vec<Value>, AllocError>
    ensures { IfOk result (λ list. map view list.items ≡ all_references (P.shown paper.now).files
        search.now.editor.documents.now search.now.editor.counting search.now.wanted search.now.name.now) }
{
    let list = with_files(alloc, paper, search, Vec::new(alloc))?;
    with_texts(alloc, search.editor.documents, search, list)
}

/// Whether a name is mentioned in the paper's files or in open LaTeX texts.
pub fn is_mentioned<P: Paper>(
    alloc: Global,
    paper: &P,
    search: &Search<'_>,
) -> Result<bool, AllocError>
    ensures { IfOk result (λ found. found ≡ is_mentioned (P.shown paper.now).files
        search.now.editor.documents.now search.now.editor.counting search.now.wanted search.now.name.now) }
{
    let list = all_references(alloc, paper, search)?;
    Ok(is_any(list.as_slice()))
}

fn references<P: Paper>(alloc: Global, paper: &P, search: &Search<'_>) -> Result<Value, AllocError>
    ensures { IfOk result (λ v. view v ≡ references (P.shown paper.now).files
        search.now.editor.documents.now search.now.editor.counting search.now.wanted search.now.name.now) }
{
    let list = all_references(alloc, paper, search)?;
    Ok(Value::Array(list))
}

/// Where the key or the macro at a position of a document is mentioned, with its declarations or without; null if there is
/// none.
pub fn references_at<P: Paper>(
    alloc: Global,
    workspace: &Workspace<'_, P>,
    cursor: &Cursor<'_>,
    with_declarations: bool,
) -> Result<Value, AllocError>
    ensures { IfOk result (λ v. view v ≡
        in_workspace references_at P.shown workspace.now cursor.now.document.now cursor.now.at with_declarations) }
{
    let Some(one) = mention_at(alloc, cursor)? else {
        return Ok(Value::Null);
    };
    let search = Search {
        editor: workspace.editor,
        wanted: asked_of(one.role, with_declarations),
        name: part(cursor.document.text.as_slice(), one.from, one.to),
    };
    let found = references(alloc, workspace.paper, &search)?;
    Ok(found)
}

fn macro_places<P: Paper>(
    alloc: Global,
    workspace: &Workspace<'_, P>,
    name: &[u8],
) -> Result<Value, AllocError>
    ensures { IfOk result (λ v. view v ≡ in_workspace macro_places P.shown workspace.now name.now) }
{
    let search = Search {
        editor: workspace.editor,
        wanted: Wanted::Definitions,
        name,
    };
    let list = all_references(alloc, workspace.paper, &search)?;
    let loan = Loan {
        editor: workspace.editor,
        lent: Lent::Macro,
        name,
    };
    let all = with_files(alloc, workspace.paper, &loan, list)?;
    Ok(Value::Array(all))
}

/// Where the macro at a position of a document is defined; none if there is no macro.
pub fn macro_at<P: Paper>(
    alloc: Global,
    workspace: &Workspace<'_, P>,
    cursor: &Cursor<'_>,
) -> Result<Option<Value>, AllocError>
    ensures { IfOk result (λ found. option_map view found ≡
        in_workspace macro_at P.shown workspace.now cursor.now.document.now cursor.now.at) }
{
    let Some(one) = mention_at(alloc, cursor)? else {
        return Ok(None);
    };
    if is_key(one.role) {
        return Ok(None);
    }
    let name = part(cursor.document.text.as_slice(), one.from, one.to);
    let found = macro_places(alloc, workspace, name)?;
    Ok(Some(found))
}
