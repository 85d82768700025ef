//! Answers and notifications.

ghost use Rattle.std.specs.Prelude.{◌≡◌, IfOk};
ghost use Rattle.serde_json.specs.View.{view};
ghost use Rattle.bt_rpc.specs.Messages.{response, error_response, notification, code_of, words_of};

use serde_json::{Value, json};
use std::alloc::{AllocError, Global};

/// Why a request has no result, in the words of JSON-RPC.
#[derive(Clone, Copy, Debug, PartialEq, Eq)]
pub enum RpcError {
    /// The body isn't JSON.
    ParseError,
    /// The value isn't a message.
    InvalidRequest,
    MethodNotFound,
    InvalidParams,
    /// Out of memory, or a message that is too large.
    InternalError,
    /// A request before `initialize`. The code is the Language Server Protocol's, as are those of the rest.
    ServerNotInitialized,
    /// A rename is refused: what is renamed can't have this name.
    BadName,
    /// A rename is refused: something else has this name.
    TakenName,
    /// A rename is refused: the style defines the macro, or no file does. The style isn't edited, so uses of the macro would
    /// become undefined.
    UndefinedMacro,
    /// A rename is refused: after its edits, the items of a database would not be those before with the name changed, for
    /// example because a cross-reference joins the key from several texts.
    InexactRename,
    /// A rename is refused: the style doesn't declare this name.
    UndeclaredName,
}

fn code_of(error: RpcError) -> i64
    ensures { result ≡ code_of error }
{
    match error {
        RpcError::ParseError => -32700,
        RpcError::InvalidRequest => -32600,
        RpcError::MethodNotFound => -32601,
        RpcError::InvalidParams => -32602,
        RpcError::InternalError => -32603,
        RpcError::ServerNotInitialized => -32002,
        RpcError::BadName | RpcError::TakenName => -32803,
        RpcError::UndefinedMacro | RpcError::InexactRename | RpcError::UndeclaredName => -32803,
    }
}

fn words_of(error: RpcError) -> &'static str
    ensures { result.now ≡ words_of error }
{
    match error {
        RpcError::ParseError => "the message isn't JSON",
        RpcError::InvalidRequest => "the message isn't one of JSON-RPC 2.0",
        RpcError::MethodNotFound => "the method is unknown",
        RpcError::InvalidParams => "the method's parameters are wrong",
        RpcError::InternalError => "out of memory, or the message is too large",
        RpcError::ServerNotInitialized => "the server isn't initialized",
        RpcError::BadName => "this can't be a name",
        RpcError::TakenName => "this name is taken",
        RpcError::UndefinedMacro => "the style defines this macro, or no database does",
        RpcError::InexactRename =>
            "the rename would miss the name, or change more, as in a value joined with #",
        RpcError::UndeclaredName => "the style doesn't declare this name",
    }
}

/// The answer to a request with this id that has a result.
pub fn response(alloc: Global, id: &Value, answer: &Value) -> Result<Value, AllocError>
    ensures { IfOk result (λ v. view v ≡ response (view id.now) (view answer.now)) }
{
    json!(in alloc; {"jsonrpc": "2.0", "id": id, "result": answer})
}

/// The answer to a request with this id that has no result.
pub fn error_response(alloc: Global, id: &Value, error: RpcError) -> Result<Value, AllocError>
    ensures { IfOk result (λ v. view v ≡ error_response (view id.now) error) }
{
    let code = code_of(error);
    let words = words_of(error);
    json!(in alloc; {"jsonrpc": "2.0", "id": id, "error": {"code": code, "message": words}})
}

/// A notification of the server.
pub fn notification(alloc: Global, method: &str, params: &Value) -> Result<Value, AllocError>
    ensures { IfOk result (λ v. view v ≡ notification method.now (view params.now)) }
{
    json!(in alloc; {"jsonrpc": "2.0", "method": method, "params": params})
}
