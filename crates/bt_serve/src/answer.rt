//! One request of the loop: reads its bytes, carries it out and writes its answer.

ghost use Rattle.std.specs.Prelude.{◌≡◌, ◌+◌, ◌-◌, ◌^◌, ◌<◌, ◌≤◌, [], length, codes, IfOk, IfSome, OnOk, Err, false};
ghost use Rattle.bibtex.specs.Edit.{edit_of};
ghost use Rattle.bt_serve.specs.inner.Asked.{request_seen};
ghost use Rattle.bt_serve.specs.Commands.{edit, number_line, text_answer, answer_of, ends, accepted, refused};
ghost use Rattle.bt_serve.specs.inner.Commands.{IsShown};
ghost use Rattle.bt_serve.specs.inner.Serves.{CountsFailures, Takes, taken_text, Replies};
ghost use Rattle.bt_streams.specs.Writes.{Says};
ghost use Rattle.bt_serve.specs.Faults.{HandsOn};

use crate::command::Request;
use crate::fault::ServeFault;
use bibtex::{Edit, FILE_BYTES, Refusal, Report, Session, code_of};
use bt_streams::{Sink, Source, StreamFailed, drop_bytes, read_bytes, say};
use itoa::Buffer;
use std::alloc::Global;

fn take_edit<S: Source>(
    alloc: Global,
    source: &mut S,
    session: &mut Session,
    bare: Edit<'_>,
    count: usize,
) -> Result<Result<Report, Refusal>, ServeFault>
    requires { (S.seen source.old).failures < 2 ^ 64 - 1 }
    ensures takes { Takes (edit_of bare.entry) count (S.seen source.old).rest (S.seen source.new).rest
        session.old session.new result }
    ensures lowers { (S.seen source.new).reads_left ≤ (S.seen source.old).reads_left }
    ensures ok { OnOk result ((S.seen source.new).failures ≡ (S.seen source.old).failures) }
    ensures read_failed { result ≡ Err ServeFault.ReadFailed →
        (S.seen source.new).failures ≡ (S.seen source.old).failures + 1 }
{
    let Some(mut bytes) = room(alloc, count) else {
        let refusal = session.refusal(bare, count);
        return match drop_bytes(source, count) {
            Err(_) => Err(ServeFault::ReadFailed),
            Ok(false) => Err(ServeFault::Truncated),
            Ok(true) => Ok(Err(refusal.unwrap_or(Refusal::OutOfMemory))),
        };
    };
    match read_bytes(source, &mut bytes) {
        Err(_) => Err(ServeFault::ReadFailed),
        Ok(false) => Err(ServeFault::Truncated),
        Ok(true) => Ok(session.edit(bare.with(&bytes))),
    }
}

/// Room for `count` bytes; none if memory runs out, or if no edit may bring that many.
fn room(alloc: Global, count: usize) -> Option<Vec<u8>>
    ensures { IfSome result (λ bytes. length bytes.items ≡ count) }
{
    if count > FILE_BYTES {
        return None;
    }
    vec![in alloc; 0; count].ok()
}

/// Answers a request, whose bytes are next in the source, and says whether it was the last one.
pub fn answer_request<S: Source, K: Sink>(
    alloc: Global,
    source: &mut S,
    sink: &mut K,
    session: &mut Session,
    request: Request<'_>,
) -> Result<bool, ServeFault>
    requires reads { (S.seen source.old).failures < 2 ^ 64 - 1 }
    requires writes { (K.seen sink.old).failures < 2 ^ 64 - 1 }
    ensures replies { Replies (request_seen request.entry) (S.seen source.old).rest (S.seen source.new).rest
        (K.seen sink.old).contents (K.seen sink.new).contents session.old session.new result }
    ensures lowers { (S.seen source.new).reads_left ≤ (S.seen source.old).reads_left }
    ensures failures { CountsFailures (S.seen source.old).failures (S.seen source.new).failures
        (K.seen sink.old).failures (K.seen sink.new).failures result }
    ensures flushed { HandsOn (K.seen sink.old).is_flushed (K.seen sink.new).is_flushed result }
{
    match request {
        Request::Edit(edit, count) => {
            let taken = take_edit(alloc, source, session, edit, count)?;
            match say_taken(sink, taken) {
                Ok(()) => Ok(false),
                Err(_) => Err(ServeFault::WriteFailed),
            }
        }
        _ => match say_shown(sink, session, request) {
            Ok(last) => Ok(last),
            Err(_) => Err(ServeFault::WriteFailed),
        },
    }
}

fn say_accepted<K: Sink>(sink: &mut K, report: Report) -> Result<(), StreamFailed>
    requires { (K.seen sink.old).failures < 2 ^ 64 - 1 }
    ensures { Says (K.seen sink.old) (K.seen sink.new) (accepted report) result }
{
    let mut status = Buffer::new();
    let mut ran = Buffer::new();
    let mut reused = Buffer::new();
    let mut ticks = Buffer::new();
    let status = status.format(report.status).as_bytes();
    let ran = ran.format(report.ran).as_bytes();
    let reused = reused.format(report.reused).as_bytes();
    let ticks = ticks.format(report.ticks).as_bytes();
    say(
        sink,
        &[b"ok ", status, b" ", ran, b" ", reused, b" ", ticks, b"\n"],
    )
}

fn say_refused<K: Sink>(sink: &mut K, refusal: Refusal) -> Result<(), StreamFailed>
    requires { (K.seen sink.old).failures < 2 ^ 64 - 1 }
    ensures { Says (K.seen sink.old) (K.seen sink.new) (refused refusal) result }
{
    let mut code = Buffer::new();
    let code = code.format(code_of(refusal)).as_bytes();
    say(sink, &[b"refused ", code, b"\n"])
}

fn say_taken<K: Sink>(sink: &mut K, taken: Result<Report, Refusal>) -> Result<(), StreamFailed>
    requires { (K.seen sink.old).failures < 2 ^ 64 - 1 }
    ensures { Says (K.seen sink.old) (K.seen sink.new) (taken_text taken) result }
{
    match taken {
        Ok(report) => say_accepted(sink, report),
        Err(refusal) => say_refused(sink, refusal),
    }
}

fn say_status<K: Sink>(sink: &mut K, status: u8) -> Result<(), StreamFailed>
    requires { (K.seen sink.old).failures < 2 ^ 64 - 1 }
    ensures { Says (K.seen sink.old) (K.seen sink.new) (number_line (codes "status ") status) result }
{
    let mut number = Buffer::new();
    let number = number.format(status).as_bytes();
    say(sink, &[b"status ", number, b"\n"])
}

/// Writes a text, after a word and the number of its bytes.
fn say_text<K: Sink>(sink: &mut K, word: &[u8], text: &[u8]) -> Result<(), StreamFailed>
    requires { (K.seen sink.old).failures < 2 ^ 64 - 1 }
    ensures { Says (K.seen sink.old) (K.seen sink.new) (text_answer word.now text.now) result }
{
    let mut size = Buffer::new();
    let size = size.format(text.len()).as_bytes();
    say(sink, &[word, size, b"\n", text])
}

/// Answers a request that changes nothing, and says whether it was the last one.
fn say_shown<K: Sink>(
    sink: &mut K,
    session: &Session,
    request: Request<'_>,
) -> Result<bool, StreamFailed>
    requires few { (K.seen sink.old).failures < 2 ^ 64 - 1 }
    requires shown { IsShown (request_seen request) }
    ensures says { Says (K.seen sink.old) (K.seen sink.new)
        (answer_of false session.now (request_seen request.entry) []) result }
    ensures last { IfOk result (λ last. last ≡ ends (request_seen request.entry)) }
{
    match request {
        // The clause `shown` requires another request.
        Request::Edit(_, _) => unreachable!(),
        Request::Bbl => {
            say_text(sink, b"bbl ", session.bbl())?;
            Ok(false)
        }
        Request::Blg => {
            say_text(sink, b"blg ", session.blg())?;
            Ok(false)
        }
        Request::Status => {
            say_status(sink, session.status())?;
            Ok(false)
        }
        Request::Quit => {
            say(sink, &[b"bye\n"])?;
            Ok(true)
        }
        Request::Unreadable => {
            say(sink, &[b"fault 1\n"])?;
            Ok(false)
        }
        Request::TooLong => {
            say(sink, &[b"fault 2\n"])?;
            Ok(false)
        }
    }
}
