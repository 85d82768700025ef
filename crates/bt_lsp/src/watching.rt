//! What the server sends after `initialized`. An editor that shows progress is told that the first run begins. An editor that
//! watches files for servers is asked to report changes on disk, so it needs no settings for that. The desk doesn't wait for
//! the answer.

ghost use Rattle.std.specs.Prelude.{◌≡◌, map, IfOk};
ghost use Rattle.serde_json.specs.View.{view};
ghost use Rattle.bt_lsp.specs.Watching.{watches_files, watchers, registrations, registering, begin_messages_if, greeting};

use crate::progress::begin_messages;
use bt_places::{flag_at, with_value};
use serde_json::{Value, json};
use std::alloc::{AllocError, Global};

/// Whether an editor watches files for a server that asks for it, as it says in `initialize`.
pub fn watches_files(message: &Value) -> bool
    ensures { result ≡ watches_files (view message.now) }
{
    flag_at(
        message,
        "/params/capabilities/workspace/didChangeWatchedFiles/dynamicRegistration",
    )
    .unwrap_or(false)
}

/// The files that LaTeX writes and authors change.
fn watchers(alloc: Global) -> Result<Value, AllocError>
    ensures { IfOk result (λ v. view v ≡ watchers) }
{
    json!(in alloc; {"watchers": [{"globPattern": "**/*.{aux,bib,bst}"}]})
}

fn registrations(alloc: Global) -> Result<Value, AllocError>
    ensures { IfOk result (λ v. view v ≡ registrations) }
{
    let options = watchers(alloc)?;
    json!(in alloc; {"registrations": [
        {"id": "bibtex-lsp/files", "method": "workspace/didChangeWatchedFiles", "registerOptions": options}
    ]})
}

/// The request that these files be watched.
fn registering(alloc: Global) -> Result<Value, AllocError>
    ensures { IfOk result (λ v. view v ≡ registering) }
{
    let params = registrations(alloc)?;
    json!(in alloc; {"jsonrpc": "2.0", "id": "bibtex-lsp/watch", "method": "client/registerCapability", "params": params})
}

fn begin_messages_if(alloc: Global, shows: bool) -> Result<Vec<Value>, AllocError>
    ensures { IfOk result (λ told. map view told.items ≡ begin_messages_if shows) }
{
    if shows {
        begin_messages(alloc)
    } else {
        Ok(Vec::new(alloc))
    }
}

/// What an editor is told after `initialized`.
pub fn greeting(alloc: Global, shows: bool, watches: bool) -> Result<Vec<Value>, AllocError>
    ensures { IfOk result (λ told. map view told.items ≡ greeting shows watches) }
{
    let told = begin_messages_if(alloc, shows)?;
    if !watches {
        return Ok(told);
    }
    let request = registering(alloc)?;
    let all = with_value(told, request)?;
    Ok(all)
}
