//! Handles one frame.

ghost use Rattle.std.specs.Prelude.{◌≡◌, [], ◌∷◌, IfOk, map, true, false};
ghost use Rattle.std.specs.List.{AllByRecursion};
ghost use Rattle.serde_json.specs.View.{view};
ghost use Rattle.serde_json.specs.Data.{null};
ghost use Rattle.serde_json.specs.Written.{has_float};
ghost use Rattle.bt_rpc.specs.Messages.{kind_of, request, notified, is_id, error_response};
ghost use Rattle.bt_talk.specs.Handled.{text, Handled, CarriedOut, HasNoFloat, answer_to};
ghost use Rattle.bt_talk.specs.Replies.{outcome_of};

use crate::desk::{Desk, Reply};
use bt_rpc::{Message, RpcError, error_response, message_of, response};
use bt_streams::Ahead;
use serde_json::Value;
use std::alloc::{AllocError, Global};

#[tactic(auto, using(crate::proofs::PlainLemmas::error_plain))]
fn error_to(alloc: Global, id: &Value, error: RpcError) -> Result<Vec<Value>, AllocError>
    requires { has_float (view id.now) ≡ false }
    ensures said { IfOk result (λ said. map view said.items ≡ error_response (view id.now) error ∷ []) }
    ensures plain { IfOk result (λ said. AllByRecursion HasNoFloat (map view said.items)) }
{
    let mut said = Vec::new(alloc);
    said.push(error_response(alloc, id, error)?)?;
    Ok(said)
}

fn answer_to(
    alloc: Global,
    id: &Value,
    outcome: &Result<Value, RpcError>,
) -> Result<Value, AllocError>
    ensures { IfOk result (λ v. view v ≡ answer_to (view id.now) (outcome_of outcome.now)) }
{
    match outcome {
        Ok(value) => response(alloc, id, value),
        Err(error) => error_response(alloc, id, *error),
    }
}

/// Carries out a request: the desk's notes and the answer, or one error if memory runs out.
#[tactic(auto, using(crate::proofs::PlainLemmas::id_plain))]
fn carry_out_request<D: Desk>(
    alloc: Global,
    desk: &mut D,
    id: &Value,
    method: &str,
    message: &Value,
) -> Result<Vec<Value>, AllocError>
    requires { is_id (view id.now) ≡ true }
    ensures said { IfOk result (λ said. CarriedOut D.answers D.notes D.lost (request (view id.now) method.now)
        (view message.now) desk.old (map view said.items) desk.new) }
    ensures plain { IfOk result (λ said. AllByRecursion HasNoFloat (map view said.items)) }
{
    match desk.answer(alloc, method, message) {
        Ok(Reply { outcome, mut notes }) => {
            notes.push(answer_to(alloc, id, &outcome)?)?;
            Ok(notes)
        }
        Err(_) => error_to(alloc, id, RpcError::InternalError),
    }
}

/// Carries out a notification: the desk's notes.
#[tactic(auto, using(crate::proofs::PlainLemmas::notes_plain))]
fn carry_out_notification<D: Desk>(
    alloc: Global,
    desk: &mut D,
    method: &str,
    message: &Value,
    ahead: Ahead,
) -> Vec<Value>
    ensures said { CarriedOut D.answers D.notes D.lost (notified method.now)
        (view message.now) desk.old (map view result.items) desk.new }
    ensures plain { AllByRecursion HasNoFloat (map view result.items) }
{
    desk.note(alloc, method, message, ahead)
}

/// Tells the desk that a message is lost. One error with this id is said.
#[tactic(auto, using(crate::proofs::PlainLemmas::error_plain))]
fn lose_with_id<D: Desk>(
    alloc: Global,
    desk: &mut D,
    id: &Value,
    error: RpcError,
) -> Result<Vec<Value>, AllocError>
    requires { has_float (view id.now) ≡ false }
    ensures said { IfOk result (λ said. map view said.items ≡ error_response (view id.now) error ∷ []) }
    ensures plain { IfOk result (λ said. AllByRecursion HasNoFloat (map view said.items)) }
    ensures lost { D.lost desk.old desk.new }
{
    desk.lose();
    error_to(alloc, id, error)
}

/// The same with the id null.
pub fn lose<D: Desk>(alloc: Global, desk: &mut D, error: RpcError) -> Result<Vec<Value>, AllocError>
    ensures said { IfOk result (λ said. map view said.items ≡ error_response null error ∷ []) }
    ensures plain { IfOk result (λ said. AllByRecursion HasNoFloat (map view said.items)) }
    ensures lost { D.lost desk.old desk.new }
{
    lose_with_id(alloc, desk, &Value::Null, error)
}

/// Carries out a message, and returns what is said.
#[tactic(auto, using(crate::proofs::PlainLemmas::id_plain))]
fn carry_out<D: Desk>(
    alloc: Global,
    desk: &mut D,
    message: &Value,
    ahead: Ahead,
) -> Result<Vec<Value>, AllocError>
    ensures said { IfOk result (λ said. CarriedOut D.answers D.notes D.lost (kind_of (view message.now))
        (view message.now) desk.old (map view said.items) desk.new) }
    ensures plain { IfOk result (λ said. AllByRecursion HasNoFloat (map view said.items)) }
{
    match message_of(message) {
        Message::Request(id, method) => carry_out_request(alloc, desk, id, method, message),
        Message::Notification(method) => {
            Ok(carry_out_notification(alloc, desk, method, message, ahead))
        }
        Message::Reply => Ok(Vec::new(alloc)),
        Message::Malformed(Some(id)) => lose_with_id(alloc, desk, id, RpcError::InvalidRequest),
        Message::Malformed(None) => lose(alloc, desk, RpcError::InvalidRequest),
    }
}

/// Handles the body of a frame, and returns what is said. It fails if there is no memory for an error, or for the
/// answer to a request that the desk has carried out.
pub fn handle<D: Desk>(
    alloc: Global,
    desk: &mut D,
    body: &[u8],
    ahead: Ahead,
) -> Result<Vec<Value>, AllocError>
    ensures said { IfOk result (λ said. Handled D.answers D.notes D.lost (text body.now) desk.old
        (map view said.items) desk.new) }
    ensures plain { IfOk result (λ said. AllByRecursion HasNoFloat (map view said.items)) }
{
    match Value::from_slice(alloc, body) {
        Ok(message) => carry_out(alloc, desk, &message, ahead),
        Err(error) => {
            if error.is_memory() {
                lose(alloc, desk, RpcError::InternalError)
            } else {
                lose(alloc, desk, RpcError::ParseError)
            }
        }
    }
}
