//! What a value that was read is as a message.

ghost use Rattle.std.specs.Prelude.{◌≡◌, option_map};
ghost use Rattle.serde_json.specs.View.{view};
ghost use Rattle.bt_rpc.specs.Messages.{kind_of, is_id, id_or_null};
ghost use Rattle.bt_rpc.specs.inner.Seen.{kind_seen, id_seen, HasId, IsIdIfAny};

use serde_json::Value;

/// A value as a message. It borrows from the value.
#[derive(Clone, Copy)]
pub enum Message<'a> {
    /// A request: its id and its method.
    Request(&'a Value, &'a str),
    /// A notification: its method.
    Notification(&'a str),
    /// The client's answer to a request of the server.
    Reply,
    /// A value that is no message, and the id for its error, if it has one.
    Malformed(Option<&'a Value>),
}

/// Whether a value is an id: a string or an integer. JSON-RPC also allows other numbers and null, and advises against
/// them; a float's text isn't determined, so it can't be repeated in an answer.
fn is_id(value: &Value) -> bool
    ensures { result ≡ is_id (view value.now) }
{
    match value {
        Value::String(_) => true,
        Value::Number(number) => !number.is_f64(),
        _ => false,
    }
}

fn id_if_any(id: Option<&Value>) -> Option<&Value>
    ensures value { id_seen result ≡ id_or_null (option_map (λ v. view v.now) id.entry) }
    ensures id { IsIdIfAny result }
{
    match id {
        Some(id) => { if is_id(id) { Some(id) } else { None } }
        None => None,
    }
}

/// What a value is as a message.
pub fn message_of(value: &Value) -> Message<'_>
    ensures kind { kind_seen result ≡ kind_of (view value.now) }
    ensures id { HasId result }
{
    let method = match value.get("method") {
        Some(method) => method.as_str(),
        None => None,
    };
    match (method, value.get("id")) {
        (Some(method), Some(id)) => {
            if is_id(id) {
                Message::Request(id, method)
            } else {
                Message::Malformed(None)
            }
        }
        (Some(method), None) => Message::Notification(method),
        (None, id) => {
            if value.get("result").is_some() || value.get("error").is_some() {
                Message::Reply
            } else {
                Message::Malformed(id_if_any(id))
            }
        }
    }
}
