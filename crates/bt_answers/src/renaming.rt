//! Renames a key or a macro in the paper's files and in open LaTeX texts. The edits of databases are made in copies first,
//! and sent only if nothing else changes in their items: a key can be spelled in ways that no mention covers.

ghost use Rattle.std.specs.Prelude.{◌≡◌, ◌<◌, ◌*◌, ◌^◌, ◌++◌, ◌∷◌, [], length, map, option_map, IfOk};
ghost use Rattle.std.specs.List.{list_all};
ghost use Rattle.serde_json.specs.View.{view};
ghost use Rattle.bt_talk.specs.Replies.{outcome_of};
ghost use Rattle.bt_mentions.specs.KeyBytes.{is_key_byte};
ghost use Rattle.bt_places.specs.Editor.{in_workspace};
ghost use Rattle.bt_places.specs.Shapes.{range_of};
ghost use Rattle.bt_answers.specs.Renaming.{file_edit, are_renamed, with_file_edit, is_new_key, can_be_named, rename_edit, is_free, is_lent, is_defined, renamed_if_free, of_renaming, is_named, rename_at, range_if_defined, name_range_at};

use crate::edit_values::edit_values;
use crate::lending::Loan;
use crate::name_edits::Renaming;
use crate::references::{Search, Wanted, is_mentioned, wanted_of};
use bt_documents::Document;
use bt_mentions::{Mention, is_key_byte, part};
use bt_places::{
    Cursor, Paper, SHOWN_BYTES, Visit, Workspace, is_any, is_key, mention_at, range_of, with_files,
    with_texts, with_value,
};
use bt_positions::IndexedText;
use bt_rpc::RpcError;
use bt_shapes::file_edit;
pub use bt_shapes::workspace_edit;
use bt_style_answers::Lent;
use bt_text::{eq_ignore_ascii_case, is_name};
use serde_json::Value;
use std::alloc::{AllocError, Global};

/// Adds the edits of the file at a URI.
pub fn with_edits(
    alloc: Global,
    list: Vec<Value>,
    uri: &[u8],
    edits: Vec<Value>,
) -> Result<Vec<Value>, AllocError>
    ensures { IfOk result (λ all. map view all.items ≡
        map view list.items ++ file_edit uri.now (map view edits.items) ∷ []) }
{
    let edit = file_edit(alloc, uri, edits)?;
    with_value(list, edit)
}

fn with_file_edit(
    alloc: Global,
    list: Vec<Value>,
    uri: &[u8],
    edits: Vec<Value>,
) -> Result<Vec<Value>, AllocError>
    ensures { IfOk result (λ all. map view all.items ≡ with_file_edit (map view list.items) uri.now (map view edits.items)) }
{
    if !is_any(edits.as_slice()) {
        return Ok(list);
    }
    with_edits(alloc, list, uri, edits)
}

impl Visit for Renaming<'_> {
    ghost use Rattle.bt_places.specs.Editor.{counting_in};
    ghost use Rattle.bt_answers.specs.Renaming.{with_renamed};

    ghost added = { λ r list uri text.
        with_renamed (counting_in r.editor.counting r.editor.documents.now) r.wanted r.old.now r.new.now list uri text };

    fn visit(
        &self,
        alloc: Global,
        list: Vec<Value>,
        uri: &[u8],
        text: &[u8],
    ) -> Result<Vec<Value>, AllocError> {
        let indexed = IndexedText::copied(alloc, text)?;
        let edits = self.edits_in(alloc, uri, &indexed)?;
        let values = edit_values(alloc, edits.as_slice())?;
        with_file_edit(alloc, list, uri, values)
    }
}

fn has_key_bytes_alone(text: &[u8]) -> bool
    ensures { result ≡ list_all is_key_byte text.now }
{
    text.iter().all(|byte| is_key_byte(*byte))
}

/// Whether a text can be a key in any entry and citation.
fn is_new_key(new: &[u8]) -> bool
    ensures { result ≡ is_new_key new.now }
{
    match new {
        [] => false,
        [_, ..] => has_key_bytes_alone(new),
    }
}

fn can_be_named(wanted: Wanted, new: &[u8]) -> bool
    ensures { result ≡ can_be_named wanted new.now }
{
    match wanted {
        Wanted::Keys | Wanted::KeyUses => is_new_key(new),
        Wanted::Macros | Wanted::MacroUses | Wanted::Definitions => is_name(new),
    }
}

fn rename_edit<P: Paper>(
    alloc: Global,
    paper: &P,
    renaming: &Renaming<'_>,
) -> Result<Value, AllocError>
    ensures { IfOk result (λ v. view v ≡ of_renaming rename_edit (P.shown paper.now).files renaming.now) }
{
    let changes = with_files(alloc, paper, renaming, Vec::new(alloc))?;
    let changes = with_texts(alloc, renaming.editor.documents, renaming, changes)?;
    workspace_edit(alloc, changes)
}

/// Whether a name is free: nothing has it, or it is the old one in another spelling.
fn is_free<P: Paper>(alloc: Global, paper: &P, renaming: &Renaming<'_>) -> Result<bool, AllocError>
    ensures { IfOk result (λ free. free ≡ of_renaming is_free (P.shown paper.now).files renaming.now) }
{
    if eq_ignore_ascii_case(renaming.new, renaming.old) {
        return Ok(true);
    }
    let search = Search {
        editor: renaming.editor,
        wanted: renaming.wanted,
        name: renaming.new,
    };
    let found = is_mentioned(alloc, paper, &search)?;
    Ok(!found)
}

/// Whether the style defines a macro.
fn is_lent<P: Paper>(
    alloc: Global,
    workspace: &Workspace<'_, P>,
    name: &[u8],
) -> Result<bool, AllocError>
    ensures { IfOk result (λ lent. lent ≡ in_workspace is_lent P.shown workspace.now name.now) }
{
    let loan = Loan {
        editor: workspace.editor,
        lent: Lent::Macro,
        name,
    };
    let list = with_files(alloc, workspace.paper, &loan, Vec::new(alloc))?;
    Ok(is_any(list.as_slice()))
}

/// Whether databases define what is looked for, and no style does: uses of a macro before its `@string` have the style's value.
/// A key needs no entry.
fn is_defined<P: Paper>(
    alloc: Global,
    workspace: &Workspace<'_, P>,
    wanted: Wanted,
    old: &[u8],
) -> Result<bool, AllocError>
    ensures { IfOk result (λ defined. defined ≡ in_workspace is_defined P.shown workspace.now wanted old.now) }
{
    match wanted {
        Wanted::Keys | Wanted::KeyUses => Ok(true),
        Wanted::Macros | Wanted::MacroUses | Wanted::Definitions => {
            let search = Search {
                editor: workspace.editor,
                wanted: Wanted::Definitions,
                name: old,
            };
            let found = is_mentioned(alloc, workspace.paper, &search)?;
            let lent = is_lent(alloc, workspace, old)?;
            Ok(found && !lent)
        }
    }
}

/// Whether the edits change the name in the items of all databases, and nothing else.
fn are_renamed<P: Paper>(
    alloc: Global,
    paper: &P,
    renaming: &Renaming<'_>,
) -> Result<bool, AllocError>
    ensures { IfOk result (λ are. are ≡ of_renaming are_renamed (P.shown paper.now).files renaming.now) }
{
    let mut are = true;
    'files: for n in 0..paper.file_count() {
        let (uri, text) = paper.file(n);
        are = renaming.also_renamed(alloc, are, uri, text)?;
    }
    Ok(are)
}

fn renamed_if_free<P: Paper>(
    alloc: Global,
    paper: &P,
    renaming: &Renaming<'_>,
) -> Result<Result<Value, RpcError>, AllocError>
    ensures { IfOk result (λ o. outcome_of o ≡ of_renaming renamed_if_free (P.shown paper.now).files renaming.now) }
{
    if !can_be_named(renaming.wanted, renaming.new) {
        return Ok(Err(RpcError::BadName));
    }
    if !is_free(alloc, paper, renaming)? {
        return Ok(Err(RpcError::TakenName));
    }
    let workspace = Workspace {
        paper,
        editor: renaming.editor,
    };
    if !is_defined(alloc, &workspace, renaming.wanted, renaming.old)? {
        return Ok(Err(RpcError::UndefinedMacro));
    }
    if !are_renamed(alloc, paper, renaming)? {
        return Ok(Err(RpcError::InexactRename));
    }
    Ok(Ok(rename_edit(alloc, paper, renaming)?))
}

/// Whether a mention has a name that can change. A number that isn't a key has none, and all entries without a key would get
/// the same one.
fn is_named(text: &[u8], one: Mention) -> bool
    ensures { result ≡ is_named text.now one }
{
    let name = part(text, one.from, one.to);
    !name.is_empty() && (is_key(one.role) || is_name(name))
}

/// The edits that give the key or the macro at a position of a document a new name, in all files; null if there is none.
pub fn rename_at<P: Paper>(
    alloc: Global,
    workspace: &Workspace<'_, P>,
    cursor: &Cursor<'_>,
    new: Option<&str>,
) -> Result<Result<Value, RpcError>, AllocError>
    ensures { IfOk result (λ o. outcome_of o ≡
        in_workspace rename_at P.shown workspace.now cursor.now.document.now cursor.now.at (option_map (λ s. s.now) new.entry)) }
{
    let Some(new) = new else {
        return Ok(Err(RpcError::InvalidParams));
    };
    let Some(one) = mention_at(alloc, cursor)? else {
        return Ok(Ok(Value::Null));
    };
    let text = cursor.document.text.as_slice();
    if !is_named(text, one) {
        return Ok(Ok(Value::Null));
    }
    let renaming = Renaming {
        editor: workspace.editor,
        wanted: wanted_of(one.role),
        old: part(text, one.from, one.to),
        new: new.as_bytes(),
    };
    let outcome = renamed_if_free(alloc, workspace.paper, &renaming)?;
    Ok(outcome)
}

/// The range of a name, if it can change.
fn range_if_defined<P: Paper>(
    alloc: Global,
    workspace: &Workspace<'_, P>,
    document: &Document,
    one: Mention,
) -> Result<Result<Value, RpcError>, AllocError>
    requires { 2 * length document.now.text < 2 ^ 64 }
    ensures { IfOk result (λ o. outcome_of o ≡ in_workspace range_if_defined P.shown workspace.now document.now one) }
{
    let old = part(document.text.as_slice(), one.from, one.to);
    if !is_defined(alloc, workspace, wanted_of(one.role), old)? {
        return Ok(Err(RpcError::UndefinedMacro));
    }
    let range = range_of(alloc, document.counting, &document.text, one.from, one.to)?;
    Ok(Ok(range))
}

/// The range of the name at a position of a document; null if there is none.
pub fn name_range_at<P: Paper>(
    alloc: Global,
    workspace: &Workspace<'_, P>,
    cursor: &Cursor<'_>,
) -> Result<Result<Value, RpcError>, AllocError>
    ensures { IfOk result (λ o. outcome_of o ≡
        in_workspace name_range_at P.shown workspace.now cursor.now.document.now cursor.now.at) }
{
    let document = cursor.document;
    if document.text.as_slice().len() > SHOWN_BYTES {
        return Ok(Ok(Value::Null));
    }
    let Some(one) = mention_at(alloc, cursor)? else {
        return Ok(Ok(Value::Null));
    };
    if !is_named(document.text.as_slice(), one) {
        return Ok(Ok(Value::Null));
    }
    range_if_defined(alloc, workspace, document, one)
}
