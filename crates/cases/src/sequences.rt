//! Cases of byte texts and lists: scripts of calls on one.

use crate::Done;
use crate::answer::{Answer, Spelled, put};
use crate::words::Words;
use bt_text::{Bytes, Sequence};
use std::alloc::AllocError;

fn texts_of(words: Words<'_>) -> Result<Vec<Vec<u8>>, AllocError> {
    let mut texts = Vec::new(words.alloc);
    for word in words.after(1) {
        texts.push(Words::of(words.alloc, word).text(0)?)?;
    }
    Ok(texts)
}

fn joined(words: Words<'_>, texts: &[Vec<u8>]) -> Result<Bytes, AllocError> {
    let mut pieces = Vec::new(words.alloc);
    for text in texts {
        pieces.push(text.as_slice())?;
    }
    Bytes::of(words.alloc, &pieces)
}

fn appended(words: Words<'_>, texts: &[Vec<u8>]) -> Result<Bytes, AllocError> {
    let mut text = Bytes::new(words.alloc);
    for (place, more) in texts.iter().enumerate() {
        if place == 0 {
            text = Bytes::copied(words.alloc, more)?;
        } else {
            text.append(more)?;
        }
    }
    Ok(text)
}

/// Its first text with the others appended, the length, and the length of the same bytes from a vector.
fn push_appended(words: Words<'_>, out: &mut Answer, texts: &[Vec<u8>]) -> Done {
    let text = appended(words, texts)?;
    put!(out; text, " ", text.len(), " ");
    put!(out; Bytes::from_vec(text.into_vec()).len());
    Ok(())
}

/// Pushes a number, sets one at an existing place, appends a list of one number, or begins again with such a list.
fn carry_out(step: Words<'_>, numbers: &mut Sequence<usize>) -> Done {
    let n = step.count(1);
    match step.word(0) {
        "push" => numbers.push(n)?,
        "set" if n < numbers.len() => numbers.set(n, step.count(2)),
        "append" => numbers.append(Sequence::from_vec(vec![in step.alloc; n]?))?,
        _ => *numbers = Sequence::from_vec(vec![in step.alloc; n]?),
    }
    Ok(())
}

fn push_listed(words: Words<'_>, out: &mut Answer) -> Done {
    let mut numbers = Sequence::new(words.alloc);
    for word in words.after(1) {
        carry_out(words.parts(word), &mut numbers)?;
    }
    put!(out; numbers.len());
    out.list(" ", numbers.as_slice(), ",", "");
    Ok(())
}

pub fn push_answer(words: Words<'_>, out: &mut Answer) -> Done {
    match words.word(0) {
        "joined" => put!(out; joined(words, &texts_of(words)?)?),
        "appended" => push_appended(words, out, &texts_of(words)?)?,
        _ => push_listed(words, out)?,
    }
    Ok(())
}
