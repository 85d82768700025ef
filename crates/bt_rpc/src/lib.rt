//! Messages of JSON-RPC 2.0 as values of JSON: what a value that was read is as a message, and the answers and
//! notifications that a server writes.
#![tactic(auto)]

mod answers;
mod messages;

pub use answers::{RpcError, error_response, notification, response};
pub use messages::{Message, message_of};
