//! The loop that reads commands, carries them out and answers them.

ghost use Rattle.std.specs.Prelude.{◌≡◌, ℕ, ◌+◌, ◌-◌, ◌^◌, ◌<◌, OnOk, List, Some, Err};
ghost use Rattle.bt_serve.specs.Serves.{Serves};
ghost use Rattle.bt_serve.specs.inner.Serves.{CountsFailures, Turns};
ghost use Rattle.bt_serve.specs.Faults.{HandsOn};
ghost use Rattle.bt_serve.specs.Edits.{IsEdited};

use crate::answer::answer_request;
use crate::command::{Request, parse};
use crate::fault::ServeFault;
use bibtex::Session;
use bt_streams::{LineEnd, Sink, Source, read_line, skip_line};
use std::alloc::Global;

/// Reads the next command and answers it. Says whether it was the last one.
fn serve_one<S: Source, K: Sink>(
    alloc: Global,
    source: &mut S,
    sink: &mut K,
    session: &mut Session,
) -> Result<bool, ServeFault>
    requires reads { (S.seen source.old).failures < 2 ^ 64 - 1 }
    requires writes { (K.seen sink.old).failures < 2 ^ 64 - 1 }
    ensures turns { Turns (S.seen source.old).rest (S.seen source.new).rest
        (K.seen sink.old).contents (K.seen sink.new).contents session.old session.new result }
    ensures lowers { OnOk result ((S.seen source.new).reads_left < (S.seen source.old).reads_left) }
    ensures failures { CountsFailures (S.seen source.old).failures (S.seen source.new).failures
        (K.seen sink.old).failures (K.seen sink.new).failures result }
    ensures flushed { HandsOn (K.seen sink.old).is_flushed (K.seen sink.new).is_flushed result }
{
    let mut buffer = [0; 257];
    match read_line(source, &mut buffer) {
        Err(_) => Err(ServeFault::ReadFailed),
        Ok(LineEnd::Feed(n)) => answer_request(alloc, source, sink, session, parse(&buffer[..n])),
        Ok(LineEnd::End(0)) => Ok(true),
        Ok(LineEnd::End(n)) => {
            match answer_request(alloc, source, sink, session, parse(&buffer[..n])) {
                Ok(_) => Ok(true),
                Err(fault) => Err(fault),
            }
        }
        Ok(LineEnd::None) => match skip_line(source) {
            Err(_) => Err(ServeFault::ReadFailed),
            Ok(true) => answer_request(alloc, source, sink, session, Request::TooLong),
            Ok(false) => match answer_request(alloc, source, sink, session, Request::TooLong) {
                Ok(_) => Ok(true),
                Err(fault) => Err(fault),
            },
        },
    }
}

/// Reads commands from a source, carries them out on a session, and writes the answers to a sink, up to `quit`, the
/// end of the input, or a fault. Each answer is flushed before the next read. The session is then one that `edit_all`
/// of the commands' edits can leave.
///
/// The faults: `ReadFailed`, if a read failed; the commands that were read completely are carried out and answered.
/// `WriteFailed`, if a write failed; a prefix of that answer is written, its command is carried out, and all commands
/// before it are carried out and answered. `Truncated`, if the input ends inside the bytes of its last command; all
/// commands before it are carried out and answered.
pub fn serve<S: Source, K: Sink>(
    alloc: Global,
    source: &mut S,
    sink: &mut K,
    session: &mut Session,
) -> Result<(), ServeFault>
    requires reads { (S.seen source.old).failures < 2 ^ 64 - 1 }
    requires writes { (K.seen sink.old).failures < 2 ^ 64 - 1 }
    ensures served { Serves (S.seen source.old) (S.seen source.new) (K.seen sink.old) (K.seen sink.new)
        session.old session.new result }
    ensures edited { (input said : List ℕ) → (S.seen source.old).rest ≡ Some input →
        (K.seen sink.old).contents ≡ Some said → IsEdited result input session.old session.new }
    ensures read_failed { result ≡ Err ServeFault.ReadFailed →
        (S.seen source.new).failures ≡ (S.seen source.old).failures + 1 }
    ensures write_failed { result ≡ Err ServeFault.WriteFailed →
        (K.seen sink.new).failures ≡ (K.seen sink.old).failures + 1 }
    ensures flushed { HandsOn (K.seen sink.old).is_flushed (K.seen sink.new).is_flushed result }
{
    'turns: loop {
        match serve_one(alloc, source, sink, session) {
            Ok(false) => {}
            Ok(true) => return Ok(()),
            Err(fault) => return Err(fault),
        }
    }
}
