//! The log: its bytes, and the status that it gives a run.
//!
//! Messages stay in their parts up to this point. So a caller can still replace the name of a file in them, and count
//! them by rank rather than by their words.

ghost use Rattle.std.specs.Prelude.{◌≡◌, [], ◌∷◌, ◌++◌, count_by, IfOk, OnOk};
ghost use Rattle.std.specs.List.{list_any};
ghost use Rattle.bt_log.specs.Log.{rank_status, has_status, status_of, lines_bytes, count_line, last_line, log_bytes, is_in_terse_log, terse_bytes};
ghost use Rattle.bt_log.specs.inner.Cases.{several, messages_bytes, terse};

use crate::message::{Message, Rank};
use crate::wording::spell;
use bt_text::{Bytes, Shared};
use itoa::Buffer;
use std::alloc::{AllocError, Global};

impl Rank {
    /// The status of a log in which all messages have this rank.
    fn status(self) -> u8
        ensures { result ≡ rank_status self }
    {
        match self {
            Rank::FileLine | Rank::Note | Rank::CallCount => 0,
            Rank::Warning => 1,
            Rank::Error => 2,
            Rank::Fatal => 3,
        }
    }

    fn is_in_terse_log(self) -> bool
        ensures { result ≡ is_in_terse_log self }
    {
        match self {
            Rank::FileLine | Rank::CallCount => false,
            Rank::Note | Rank::Warning | Rank::Error | Rank::Fatal => true,
        }
    }
}

fn has_status(log: &[Message], status: u8) -> bool
    ensures { result ≡ list_any (has_status status) log.now }
{
    log.iter().any(|message| message.rank.status() == status)
}

fn count(log: &[Message], status: u8) -> usize
    ensures { result ≡ count_by (has_status status) log.now }
{
    log.iter()
        .filter(|message| message.rank.status() == status)
        .count()
}

/// The status of a log: 3 if a message is fatal, else 2 if one is an error, else 1 if one is a warning, else 0.
pub fn status(log: &[Message]) -> u8
    ensures { result ≡ status_of log.now }
{
    if has_status(log, 3) {
        3
    } else if has_status(log, 2) {
        2
    } else if has_status(log, 1) {
        1
    } else {
        0
    }
}

/// For any count except 1. `name` is the singular, to which an `s` is added.
fn several(alloc: Global, count: usize, name: &[u8]) -> Result<Bytes, AllocError>
    ensures { IfOk result (λ line. line ≡ several count name.now) }
{
    let mut buffer = Buffer::new();
    let count = buffer.format(count).as_bytes();
    Bytes::of(alloc, &[b"(There were ", count, b" ", name, b"s)\n"])
}

fn count_line(alloc: Global, count: usize, name: &[u8]) -> Result<Bytes, AllocError>
    ensures { IfOk result (λ line. line ≡ count_line count name.now) }
{
    if count == 1 {
        Bytes::of(alloc, &[b"(There was 1 ", name, b")\n"])
    } else {
        several(alloc, count, name)
    }
}

fn last_line(alloc: Global, log: &[Message]) -> Result<Bytes, AllocError>
    ensures { IfOk result (λ line. line ≡ last_line log.now) }
{
    match status(log) {
        3 => Bytes::copied(alloc, b"(That was a fatal error)\n"),
        2 => count_line(alloc, count(log, 2), b"error message"),
        1 => count_line(alloc, count(log, 1), b"warning"),
        _ => Ok(Bytes::new(alloc)),
    }
}

fn add_line(text: &mut Bytes, line: &[u8]) -> Result<(), AllocError>
    ensures { OnOk result (text.new ≡ text.old ++ line.now ++ 10 ∷ []) }
{
    text.append(line)?;
    text.append(b"\n")
}

/// The lines, each with a line feed after it.
pub fn lines_bytes(alloc: Global, lines: &[Shared<Bytes>]) -> Result<Bytes, AllocError>
    ensures { IfOk result (λ bytes. bytes ≡ lines_bytes lines.now) }
{
    let mut text = Bytes::new(alloc);
    'lines: for line in lines {
        add_line(&mut text, line.as_slice())?;
    }
    Ok(text)
}

fn add_message(text: &mut Bytes, message: &Message) -> Result<(), AllocError>
    ensures { OnOk result (text.new ≡ text.old ++ messages_bytes (message.now ∷ [])) }
{
    spell(text, message)?;
    text.append(b"\n")
}

fn messages_bytes(alloc: Global, log: &[Message]) -> Result<Bytes, AllocError>
    ensures { IfOk result (λ bytes. bytes ≡ messages_bytes log.now) }
{
    let mut text = Bytes::new(alloc);
    'messages: for message in log {
        add_message(&mut text, message)?;
    }
    Ok(text)
}

fn add_tersely(text: &mut Bytes, message: &Message) -> Result<(), AllocError>
    ensures { OnOk result (text.new ≡ text.old ++ messages_bytes (terse (message.now ∷ []))) }
{
    if message.rank.is_in_terse_log() {
        add_message(text, message)
    } else {
        Ok(())
    }
}

fn terse_messages(alloc: Global, log: &[Message]) -> Result<Bytes, AllocError>
    ensures { IfOk result (λ bytes. bytes ≡ messages_bytes (terse log.now)) }
{
    let mut text = Bytes::new(alloc);
    'messages: for message in log {
        add_tersely(&mut text, message)?;
    }
    Ok(text)
}

/// The bytes of the log: its messages in words, then the last line, which is empty if the status is 0.
pub fn log_bytes(alloc: Global, log: &[Message]) -> Result<Bytes, AllocError>
    ensures { IfOk result (λ bytes. bytes ≡ log_bytes log.now) }
{
    let mut text = messages_bytes(alloc, log)?;
    text.append(last_line(alloc, log)?.as_slice())?;
    Ok(text)
}

/// The bytes of the log without the lines of files and the counts of calls; the last line is the whole log's.
pub fn terse_bytes(alloc: Global, log: &[Message]) -> Result<Bytes, AllocError>
    ensures { IfOk result (λ bytes. bytes ≡ terse_bytes log.now) }
{
    let mut text = terse_messages(alloc, log)?;
    text.append(last_line(alloc, log)?.as_slice())?;
    Ok(text)
}
