//! Values of the protocol.

ghost use Rattle.std.specs.Prelude.{◌≡◌, map, IfOk, OnOk};
ghost use Rattle.std.specs.String.{string_bytes};
ghost use Rattle.serde_json.specs.Data.{object};
ghost use Rattle.serde_json.specs.View.{view, members_view};
ghost use Rattle.bt_places.specs.Shapes.{diagnostic, publication_params, publication, contents, hover, shown_text, shown_status, completion_options, sync_options, choices, with_names, ability_names, abilities, encoding_of, capabilities};

use crate::words::{is_utf8, shown};
use bt_diagnostics::Diagnostic;
use bt_rpc::notification;
use bt_shapes::range;
pub use bt_shapes::{location, range_of};
use serde_json::{Map, Value, json, put};
use std::alloc::{AllocError, Global};

/// The most bytes of a document that is shown with diagnostics or an outline: 1 GiB.
pub const SHOWN_BYTES: usize = 1_073_741_824;

/// What an editor shows of a diagnostic.
pub fn diagnostic(alloc: Global, found: &Diagnostic) -> Result<Value, AllocError>
    ensures { IfOk result (λ v. view v ≡ diagnostic found.now) }
{
    let range = range(alloc, found.from, found.to)?;
    let words = shown(alloc, found.words.as_slice())?;
    let severity = found.severity;
    json!(in alloc; {"range": range, "severity": severity, "source": "bibtex", "message": words})
}

/// What an editor shows of diagnostics.
pub fn diagnostic_values(alloc: Global, found: &[Diagnostic]) -> Result<Vec<Value>, AllocError>
    ensures { IfOk result (λ list. map view list.items ≡ map diagnostic found.now) }
{
    let mut list = Vec::new(alloc);
    'found: for one in found {
        list.push(diagnostic(alloc, one)?)?;
    }
    Ok(list)
}

fn publication_params(alloc: Global, uri: &[u8], list: Vec<Value>) -> Result<Value, AllocError>
    ensures { IfOk result (λ v. view v ≡ publication_params uri.now (map view list.items)) }
{
    let list = Value::Array(list);
    let uri = shown(alloc, uri)?;
    json!(in alloc; {"uri": uri, "diagnostics": list})
}

/// The notification that publishes the diagnostics of a document.
pub fn publication(alloc: Global, uri: &[u8], list: Vec<Value>) -> Result<Value, AllocError>
    ensures { IfOk result (λ v. view v ≡ publication uri.now (map view list.items)) }
{
    let params = publication_params(alloc, uri, list)?;
    let message = notification(alloc, "textDocument/publishDiagnostics", &params)?;
    Ok(message)
}

fn contents(alloc: Global, kind: &str, words: String) -> Result<Value, AllocError>
    ensures { IfOk result (λ v. view v ≡ contents kind.now (string_bytes words)) }
{
    json!(in alloc; {"contents": {"kind": kind, "value": words}})
}

/// What a hover shows of lines: plain text, or a block of LaTeX in Markdown.
pub fn hover(alloc: Global, plain: bool, lines: &[u8]) -> Result<Value, AllocError>
    ensures { IfOk result (λ v. view v ≡ hover plain lines.now) }
{
    let words = shown(alloc, lines)?;
    if plain {
        return contents(alloc, "plaintext", words);
    }
    let block = format!(in alloc; "```tex\n{words}```")?;
    contents(alloc, "markdown", block)
}

/// The bibliography or the log, with the run's status.
pub fn shown_text(alloc: Global, text: &[u8], status: u8) -> Result<Value, AllocError>
    ensures { IfOk result (λ v. view v ≡ shown_text text.now status) }
{
    let exact = is_utf8(text);
    let words = shown(alloc, text)?;
    json!(in alloc; {"text": words, "exact": exact, "status": status})
}

/// The run's status.
pub fn shown_status(alloc: Global, status: u8) -> Result<Value, AllocError>
    ensures { IfOk result (λ v. view v ≡ shown_status status) }
{
    json!(in alloc; {"status": status})
}

fn completion_options(alloc: Global) -> Result<Value, AllocError>
    ensures { IfOk result (λ v. view v ≡ completion_options) }
{
    json!(in alloc; {"triggerCharacters": ["{", ",", "@"]})
}

fn sync_options(alloc: Global) -> Result<Value, AllocError>
    ensures { IfOk result (λ v. view v ≡ sync_options) }
{
    json!(in alloc; {"openClose": true, "change": 2, "save": true})
}

/// The abilities that have options or values of their own. Links and lenses are sent whole, so that the editor asks for no
/// more of them.
fn choices(
    alloc: Global,
    encoding: &str,
    completion: Value,
    sync: Value,
) -> Result<Value, AllocError>
    ensures { IfOk result (λ v. view v ≡ choices encoding.now (view completion) (view sync)) }
{
    json!(in alloc; {
        "textDocumentSync": sync,
        "renameProvider": {"prepareProvider": true},
        "positionEncoding": encoding,
        "documentLinkProvider": {"resolveProvider": false},
        "completionProvider": completion,
        "codeLensProvider": {"resolveProvider": false}
    })
}

/// Says of each name that the server can do it.
fn put_all(able: &mut Map<String, Value>, alloc: Global, names: &[&str]) -> Result<(), AllocError>
    ensures { OnOk result (members_view able.new.entries ≡
        with_names (map (λ name. name.now) names.now) (members_view able.old.entries)) }
{
    'names: for name in names {
        put(able, alloc, name, Value::Bool(true))?;
    }
    Ok(())
}

fn with_abilities(alloc: Global, choices: Map<String, Value>) -> Result<Value, AllocError>
    ensures { IfOk result (λ v. view v ≡ object (with_names ability_names (members_view choices.entries))) }
{
    let mut able = choices;
    put_all(
        &mut able,
        alloc,
        &[
            "codeActionProvider",
            "definitionProvider",
            "documentFormattingProvider",
            "documentRangeFormattingProvider",
            "documentSymbolProvider",
            "foldingRangeProvider",
            "hoverProvider",
            "referencesProvider",
            "workspaceSymbolProvider",
        ],
    )?;
    Ok(Value::Object(able))
}

/// Adds the abilities without options.
fn abilities(alloc: Global, choices: Value) -> Result<Value, AllocError>
    ensures { IfOk result (λ v. view v ≡ abilities (view choices)) }
{
    match choices {
        Value::Null => Ok(Value::Null),
        Value::Bool(value) => Ok(Value::Bool(value)),
        Value::Number(value) => Ok(Value::Number(value)),
        Value::String(value) => Ok(Value::String(value)),
        Value::Array(values) => Ok(Value::Array(values)),
        Value::Object(members) => with_abilities(alloc, members),
    }
}

fn encoding_of(counts_bytes: bool) -> &'static str
    ensures { result.now ≡ encoding_of counts_bytes }
{
    if counts_bytes { "utf-8" } else { "utf-16" }
}

/// The answer to `initialize`: how positions count, and what the server can do.
pub fn capabilities(alloc: Global, counts_bytes: bool) -> Result<Value, AllocError>
    ensures { IfOk result (λ v. view v ≡ capabilities counts_bytes) }
{
    let completion = completion_options(alloc)?;
    let sync = sync_options(alloc)?;
    let encoding = encoding_of(counts_bytes);
    let choices = choices(alloc, encoding, completion, sync)?;
    let able = abilities(alloc, choices)?;
    json!(in alloc; {"capabilities": able, "serverInfo": {"name": "bibtex-lsp"}})
}
