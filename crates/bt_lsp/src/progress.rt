//! Progress of a paper's first run, for which all files are read.
//!
//! The run happens at the first message after `initialized`, so the editor can be told before it begins. The desk doesn't wait
//! for the answer to its request: an editor that refuses the token drops the notifications.

ghost use Rattle.std.specs.Prelude.{◌≡◌, ◌++◌, ◌∷◌, [], map, IfOk};
ghost use Rattle.serde_json.specs.View.{view};
ghost use Rattle.bt_lsp.specs.Progress.{shows_progress, token, beginning, ending, creating, progress_params, progress, begin_messages, with_end};

use bt_places::{flag_at, with_value};
use bt_rpc::notification;
use serde_json::{Value, json};
use std::alloc::{AllocError, Global};

/// Whether an editor shows progress, as it says in `initialize`.
pub fn shows_progress(message: &Value) -> bool
    ensures { result ≡ shows_progress (view message.now) }
{
    flag_at(message, "/params/capabilities/window/workDoneProgress").unwrap_or(false)
}

/// The name of the run among what goes on, and the id of the request that creates it.
fn token() -> &'static str
    ensures { result.now ≡ token }
{
    "bibtex-lsp/first-run"
}

fn beginning(alloc: Global) -> Result<Value, AllocError>
    ensures { IfOk result (λ v. view v ≡ beginning) }
{
    json!(in alloc; {"kind": "begin", "title": "BibTeX", "message": "reading the paper"})
}

fn ending(alloc: Global) -> Result<Value, AllocError>
    ensures { IfOk result (λ v. view v ≡ ending) }
{
    json!(in alloc; {"kind": "end"})
}

/// The request that creates the run's token.
fn creating(alloc: Global) -> Result<Value, AllocError>
    ensures { IfOk result (λ v. view v ≡ creating) }
{
    let token = token();
    json!(in alloc; {
        "jsonrpc": "2.0", "id": token, "method": "window/workDoneProgress/create", "params": {"token": token}
    })
}

fn progress_params(alloc: Global, value: Value) -> Result<Value, AllocError>
    ensures { IfOk result (λ v. view v ≡ progress_params (view value)) }
{
    let token = token();
    json!(in alloc; {"token": token, "value": value})
}

/// The notification of what the run does.
fn progress(alloc: Global, value: Value) -> Result<Value, AllocError>
    ensures { IfOk result (λ v. view v ≡ progress (view value)) }
{
    let params = progress_params(alloc, value)?;
    let note = notification(alloc, "$/progress", &params)?;
    Ok(note)
}

/// The messages that say that the run begins.
pub fn begin_messages(alloc: Global) -> Result<Vec<Value>, AllocError>
    ensures { IfOk result (λ told. map view told.items ≡ begin_messages) }
{
    let value = beginning(alloc)?;
    let mut told = Vec::new(alloc);
    told.push(creating(alloc)?)?;
    told.push(progress(alloc, value)?)?;
    Ok(told)
}

/// Adds that the run has ended, if its beginning was said.
pub fn with_end(alloc: Global, is_running: bool, list: Vec<Value>) -> Result<Vec<Value>, AllocError>
    ensures { IfOk result (λ all. map view all.items ≡ with_end is_running (map view list.items)) }
{
    if !is_running {
        return Ok(list);
    }
    let value = ending(alloc)?;
    let note = progress(alloc, value)?;
    let all = with_value(list, note)?;
    Ok(all)
}
