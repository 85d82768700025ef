//! Cases of the held line: scripts of calls on it.

use crate::Done;
use crate::answer::{Answer, Spelled, put};
use crate::words::Words;
use bt_text::{Bytes, Held, HeldFault, Sequence};
use std::alloc::AllocError;

/// The held line, and the lines before it.
#[derive(Drop)]
struct Page {
    line: Held,
    lines: Sequence<Bytes>,
}

fn write_bytes(step: Words<'_>, page: &mut Page, text: &[u8]) -> Result<(), HeldFault> {
    for byte in text {
        page.line.write(step.alloc, &[*byte], &mut page.lines)?;
    }
    Ok(())
}

/// Ends the line, or writes a text, as a whole or byte by byte.
fn carry_out(step: Words<'_>, page: &mut Page) -> Result<(), HeldFault> {
    let text = step.text(1)?;
    match step.word(0) {
        "newline" => page.line.newline(step.alloc, &mut page.lines),
        "write" => page.line.write(step.alloc, &text, &mut page.lines),
        _ => write_bytes(step, page, &text),
    }
}

/// The lines and the held line after all steps, or the step that was too long.
fn push_end(words: Words<'_>, out: &mut Answer, page: &mut Page) -> Done {
    for (place, word) in words.after(1).enumerate() {
        match carry_out(words.parts(word), page) {
            Ok(()) => {}
            Err(HeldFault::TooLong) => {
                put!(out; "TooLong ", place);
                return Ok(());
            }
            Err(HeldFault::OutOfMemory) => return Err(AllocError),
        }
    }
    out.list("[", page.lines.as_slice(), ",", "] ");
    put!(out; page.line.bytes());
    Ok(())
}

/// How many bytes are held, how many a copy has, how many lines there are, or whether a step is too long.
fn push_told(step: Words<'_>, out: &mut Answer, page: &mut Page) -> Done {
    match step.word(0) {
        "bytes" => out.word(page.line.bytes().len()),
        "copied" => out.word(page.line.copy(step.alloc)?.bytes().len()),
        "lines" => out.word(page.lines.len()),
        _ => match carry_out(step, page) {
            Ok(()) => out.word("ok"),
            Err(HeldFault::TooLong) => out.word("TooLong"),
            Err(HeldFault::OutOfMemory) => return Err(AllocError),
        },
    }
    Ok(())
}

fn push_each(words: Words<'_>, out: &mut Answer, page: &mut Page) -> Done {
    for word in words.after(1) {
        push_told(words.parts(word), out, page)?;
    }
    Ok(())
}

pub fn push_answer(words: Words<'_>, out: &mut Answer) -> Done {
    let mut page = Page {
        line: Held::new(words.alloc),
        lines: Sequence::new(words.alloc),
    };
    match words.word(0) {
        "held" => push_end(words, out, &mut page),
        _ => push_each(words, out, &mut page),
    }
}
