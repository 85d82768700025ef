//! What an editor can ask to be sent after each change: the bibliography, the log and the run's status, so that a window can
//! follow them. An editor that didn't ask for them might complain of methods that it doesn't know.

ghost use Rattle.std.specs.Prelude.{◌≡◌, ◌++◌, ◌∷◌, [], map, IfOk};
ghost use Rattle.serde_json.specs.View.{view};
ghost use Rattle.bt_rpc.specs.Messages.{notification};
ghost use Rattle.bt_places.specs.Shapes.{shown_text, shown_status};
ghost use Rattle.bt_lsp.specs.Announcing.{asks_for, announced_by, with_bibliography, with_log, with_status, with_announced};

use bt_places::{Paper, has_word_at, shown_status, shown_text, with_value};
use bt_rpc::notification;
use serde_json::Value;
use std::alloc::{AllocError, Global};

/// What is announced.
#[derive(Clone, Copy, Debug, PartialEq, Eq)]
pub struct Announced {
    pub bibliography: bool,
    pub log: bool,
    pub status: bool,
}

/// Whether an editor asks for what a word names.
fn asks_for(message: &Value, name: &str) -> bool
    ensures { result ≡ asks_for name.now (view message.now) }
{
    has_word_at(message, "/params/initializationOptions/announce", name)
}

/// What the editor asks for when it initializes the server.
pub fn announced_by(message: &Value) -> Announced
    ensures { result ≡ announced_by (view message.now) }
{
    Announced {
        bibliography: asks_for(message, "bbl"),
        log: asks_for(message, "log"),
        status: asks_for(message, "status"),
    }
}

fn with_note(
    alloc: Global,
    method: &str,
    params: &Value,
    list: Vec<Value>,
) -> Result<Vec<Value>, AllocError>
    ensures { IfOk result (λ all. map view all.items ≡ map view list.items ++ notification method.now (view params.now) ∷ []) }
{
    let note = notification(alloc, method, params)?;
    with_value(list, note)
}

fn with_bibliography<P: Paper>(
    alloc: Global,
    paper: &P,
    is_asked: bool,
    list: Vec<Value>,
) -> Result<Vec<Value>, AllocError>
    ensures { IfOk result (λ all. map view all.items ≡ with_bibliography is_asked (P.shown paper.now) (map view list.items)) }
{
    if !is_asked {
        return Ok(list);
    }
    let params = shown_text(alloc, paper.bibliography(), paper.status())?;
    let all = with_note(alloc, "bibtex/bbl", &params, list)?;
    Ok(all)
}

fn with_log<P: Paper>(
    alloc: Global,
    paper: &P,
    is_asked: bool,
    list: Vec<Value>,
) -> Result<Vec<Value>, AllocError>
    ensures { IfOk result (λ all. map view all.items ≡ with_log is_asked (P.shown paper.now) (map view list.items)) }
{
    if !is_asked {
        return Ok(list);
    }
    let params = shown_text(alloc, paper.log(), paper.status())?;
    let all = with_note(alloc, "bibtex/log", &params, list)?;
    Ok(all)
}

fn with_status<P: Paper>(
    alloc: Global,
    paper: &P,
    is_asked: bool,
    list: Vec<Value>,
) -> Result<Vec<Value>, AllocError>
    ensures { IfOk result (λ all. map view all.items ≡ with_status is_asked (P.shown paper.now) (map view list.items)) }
{
    if !is_asked {
        return Ok(list);
    }
    let params = shown_status(alloc, paper.status())?;
    let all = with_note(alloc, "bibtex/status", &params, list)?;
    Ok(all)
}

/// Adds what is announced.
pub fn with_announced<P: Paper>(
    alloc: Global,
    paper: &P,
    announced: Announced,
    list: Vec<Value>,
) -> Result<Vec<Value>, AllocError>
    ensures { IfOk result (λ all. map view all.items ≡ with_announced announced (P.shown paper.now) (map view list.items)) }
{
    let list = with_bibliography(alloc, paper, announced.bibliography, list)?;
    let more = with_log(alloc, paper, announced.log, list)?;
    let all = with_status(alloc, paper, announced.status, more)?;
    Ok(all)
}
