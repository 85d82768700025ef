//! What carries out messages: a desk.

use bt_rpc::RpcError;
use bt_streams::Ahead;
use serde_json::Value;
use std::alloc::{AllocError, Global};

/// A desk's reply to a request: its result or an error, and the notes (notifications and the server's own requests)
/// that are sent before the answer.
#[derive(Drop)]
pub struct Reply {
    pub outcome: Result<Value, RpcError>,
    pub notes: Vec<Value>,
}

/// What carries out messages. A request that runs out of memory has changed nothing. A notification can't be answered,
/// so if memory runs out, the desk must remember it and say so itself.
pub trait Desk {
    ghost use Rattle.std.specs.Prelude.{◌≡◌, ℕ, Bool, List, Result, IfOk, OnErr, map};
    ghost use Rattle.std.specs.List.{AllByRecursion};
    ghost use Rattle.serde_json.specs.Data.{Data};
    ghost use Rattle.serde_json.specs.View.{view};
    ghost use Rattle.bt_rpc.specs.declared.answers.RpcError.{RpcError as Refusal};
    ghost use Rattle.bt_talk.specs.Handled.{IsNote};
    ghost use Rattle.bt_talk.specs.Replies.{outcome_of, IsPlain};

    /// Whether a request may be answered so: the state before, its method, the whole message, the outcome, the notes
    /// that are sent before the answer, the state after.
    ghost answers: { Self → List ℕ → Data → Result Data Refusal → List Data → Self → Type 0 };

    /// Whether a notification may be carried out so: the state before, its method, the whole message, the notes that
    /// are sent, the state after.
    ghost notes: { Self → List ℕ → Data → List Data → Self → Type 0 };

    /// Whether a desk may go from one state to another when a message is lost.
    ghost lost: { Self → Self → Type 0 };

    /// Whether the loop ends.
    ghost is_over: { Self → Bool };

    /// Carries out a request, and returns its outcome and notes.
    fn answer(&mut self, alloc: Global, method: &str, message: &Value) -> Result<Reply, AllocError>
        ensures ok { IfOk result (λ r. answers self.old method.now (view message.now) (outcome_of r.outcome)
            (map view r.notes.items) self.new) }
        ensures plain { IfOk result (λ r. IsPlain r.outcome) }
        ensures notes { IfOk result (λ r. AllByRecursion IsNote (map view r.notes.items)) }
        ensures err { OnErr result (self.new ≡ self.old) };

    /// Carries out a notification, and returns its notes. If more input is ahead, the desk may put off what the editor would
    /// see for a moment only.
    fn note(&mut self, alloc: Global, method: &str, message: &Value, ahead: Ahead) -> Vec<Value>
        ensures said { notes self.old method.now (view message.now) (map view result.items) self.new }
        ensures notes { AllByRecursion IsNote (map view result.items) };

    /// Takes note that a message is lost: it was too large, there was no memory to read it, or it isn't a message.
    fn lose(&mut self)
        ensures { lost self.old self.new };

    /// Whether the loop ends after the message that was carried out last.
    fn is_over(&self) -> bool
        ensures { result ≡ is_over self.now };
}
