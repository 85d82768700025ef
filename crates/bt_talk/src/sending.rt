//! Writes messages in their frames.

ghost use Rattle.std.specs.Prelude.{◌≡◌, ◌-◌, ◌^◌, ◌<◌, OnOk, map, false};
ghost use Rattle.std.specs.List.{AllByRecursion};
ghost use Rattle.std.specs.Io.KnownBytes.{Appends};
ghost use Rattle.serde_json.specs.View.{view};
ghost use Rattle.serde_json.specs.Written.{has_float, compact_text};
ghost use Rattle.bt_frames.specs.Framed.{framed};
ghost use Rattle.bt_talk.specs.Talks.{sent};
ghost use Rattle.bt_talk.specs.Handled.{HasNoFloat};

use bt_frames::frame_head;
use bt_streams::{Sink, say};
use serde_json::Value;
use std::alloc::{AllocError, AllocFailed, Global};

/// Why the loop ended before its input did.
#[derive(Clone, Copy, Debug, PartialEq, Eq)]
pub enum TalkFault {
    ReadFailed,
    WriteFailed,
    /// The input ended inside a frame.
    Truncated,
    /// There was no memory to build or write what is said.
    OutOfMemory,
}

impl From<AllocError> for TalkFault {
    fn from(_value: AllocError) -> TalkFault {
        TalkFault::OutOfMemory
    }
}

impl<T: Drop> From<AllocFailed<T>> for TalkFault {
    fn from(_value: AllocFailed<T>) -> TalkFault {
        TalkFault::OutOfMemory
    }
}

fn send<K: Sink>(alloc: Global, sink: &mut K, message: &Value) -> Result<(), TalkFault>
    requires failures { (K.seen sink.old).failures < 2 ^ 64 - 1 }
    requires plain { has_float (view message.now) ≡ false }
    ensures sent { OnOk result (Appends (K.seen sink.old).contents (K.seen sink.new).contents
        (framed (compact_text (view message.now)))) }
    ensures failures { OnOk result ((K.seen sink.new).failures ≡ (K.seen sink.old).failures) }
{
    let body = message.to_vec(alloc)?;
    let head = frame_head(alloc, body.len())?;
    match say(sink, &[head.as_bytes(), body.as_slice()]) {
        Ok(()) => Ok(()),
        Err(_) => Err(TalkFault::WriteFailed),
    }
}

/// Writes messages in their frames.
pub fn send_all<K: Sink>(alloc: Global, sink: &mut K, messages: &[Value]) -> Result<(), TalkFault>
    requires failures { (K.seen sink.old).failures < 2 ^ 64 - 1 }
    requires plain { AllByRecursion HasNoFloat (map view messages.now) }
    ensures sent { OnOk result (Appends (K.seen sink.old).contents (K.seen sink.new).contents
        (sent (map view messages.now))) }
    ensures failures { OnOk result ((K.seen sink.new).failures ≡ (K.seen sink.old).failures) }
{
    'each: for message in messages {
        send(alloc, sink, message)?;
    }
    Ok(())
}
