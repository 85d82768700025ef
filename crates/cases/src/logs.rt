//! Cases of logs, and of the lines of a bibliography.

use crate::Done;
use crate::answer::{Answer, Spelled, put};
use crate::words::Words;
use bt_log::{Message, Rank, lines_bytes, log_bytes, status, terse_bytes};
use bt_text::{Bytes, Sequence, Shared};
use std::alloc::AllocError;

fn rank_of(word: &str) -> Rank {
    match word {
        "file" => Rank::FileLine,
        "calls" => Rank::CallCount,
        "warning" => Rank::Warning,
        "error" => Rank::Error,
        "fatal" => Rank::Fatal,
        _ => Rank::Note,
    }
}

/// The status and the bytes of a log.
pub fn push_log(words: Words<'_>, out: &mut Answer, log: &[Message]) -> Done {
    put!(out; (status(log) as usize), " ", log_bytes(words.alloc, log)?);
    Ok(())
}

/// A log of messages, each a word of its rank and text.
fn log_of(words: Words<'_>) -> Result<Sequence<Message>, AllocError> {
    let mut log = Sequence::new(words.alloc);
    for word in words.after(1) {
        let message = words.parts(word);
        let rank = rank_of(message.word(0));
        log.push(Message::of(words.alloc, rank, &[&message.text(1)?])?)?;
    }
    Ok(log)
}

fn lines_of(words: Words<'_>) -> Result<Vec<Shared<Bytes>>, AllocError> {
    let mut lines = Vec::new(words.alloc);
    for word in words.after(1) {
        lines.push(words.parts(word).shared(0)?)?;
    }
    Ok(lines)
}

fn push_both_logs(words: Words<'_>, out: &mut Answer, log: &[Message]) -> Done {
    push_log(words, out, log)?;
    put!(out; " ", terse_bytes(words.alloc, log)?);
    Ok(())
}

pub fn push_answer(words: Words<'_>, out: &mut Answer) -> Done {
    match words.word(0) {
        "log" => push_both_logs(words, out, log_of(words)?.as_slice()),
        _ => {
            put!(out; lines_bytes(words.alloc, &lines_of(words)?)?);
            Ok(())
        }
    }
}
