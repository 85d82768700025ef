//! The loop.

ghost use Rattle.std.specs.Prelude.{◌≡◌, ◌-◌, ◌^◌, ◌<◌, OnOk};
ghost use Rattle.bt_talk.specs.Talks.{Turn, Talks, TakesTurn, Holds};

use crate::desk::Desk;
use crate::handling::{handle, lose};
use crate::sending::{TalkFault, send_all};
use bt_frames::{Frame, read_frame};
use bt_rpc::RpcError;
use bt_streams::{LooksAhead, Sink, Source};
use std::alloc::Global;

/// Reads the next frame, handles it and writes what is said. Returns true at the end of the input.
fn turn<S: Source + LooksAhead, K: Sink, D: Desk>(
    alloc: Global,
    source: &mut S,
    sink: &mut K,
    desk: &mut D,
) -> Result<bool, TalkFault>
    requires reads { (S.seen source.old).failures < 2 ^ 64 - 1 }
    requires writes { (K.seen sink.old).failures < 2 ^ 64 - 1 }
    ensures turn { TakesTurn (Turn D.answers D.notes D.lost) (S.seen source.old) (S.seen source.new)
        (K.seen sink.old) (K.seen sink.new) desk.old desk.new result }
    ensures reads { OnOk result ((S.seen source.new).failures ≡ (S.seen source.old).failures) }
    ensures writes { OnOk result ((K.seen sink.new).failures ≡ (K.seen sink.old).failures) }
    ensures lowers { OnOk result ((S.seen source.new).reads_left < (S.seen source.old).reads_left) }
{
    match read_frame(alloc, source) {
        Err(_) => Err(TalkFault::ReadFailed),
        Ok(Frame::End) => Ok(true),
        Ok(Frame::Cut) => Err(TalkFault::Truncated),
        Ok(Frame::NoLength) => {
            let said = lose(alloc, desk, RpcError::ParseError)?;
            send_all(alloc, sink, &said)?;
            Ok(false)
        }
        Ok(Frame::TooLarge) => {
            let said = lose(alloc, desk, RpcError::InternalError)?;
            send_all(alloc, sink, &said)?;
            Ok(false)
        }
        Ok(Frame::NoMemory) => {
            let said = lose(alloc, desk, RpcError::InternalError)?;
            send_all(alloc, sink, &said)?;
            Ok(false)
        }
        Ok(Frame::Body(body)) => {
            let ahead = source.ahead();
            let said = handle(alloc, desk, &body, ahead)?;
            send_all(alloc, sink, &said)?;
            Ok(false)
        }
    }
}

/// Reads frames, handles each once and in order, and writes what is said. Returns true after the first message that
/// leaves the desk over, false at the end of the input, and a fault if a read or a write fails, the input ends inside a
/// frame, or there is no memory to build or write what is said.
pub fn talk<S: Source + LooksAhead, K: Sink, D: Desk>(
    alloc: Global,
    source: &mut S,
    sink: &mut K,
    desk: &mut D,
) -> Result<bool, TalkFault>
    requires reads { (S.seen source.old).failures < 2 ^ 64 - 1 }
    requires writes { (K.seen sink.old).failures < 2 ^ 64 - 1 }
    ensures all { Holds (Talks D.answers D.notes D.lost D.is_over) (S.seen source.old) (S.seen source.new)
        (K.seen sink.old) (K.seen sink.new) desk.old desk.new result }
{
    'turns: loop {
        if turn(alloc, source, sink, desk)? {
            return Ok(false);
        }
        if desk.is_over() {
            return Ok(true);
        }
    }
}
