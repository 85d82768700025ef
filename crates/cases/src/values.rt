//! Cases of values by their places, few and many.

use crate::Done;
use crate::answer::{Answer, Spelled, put};
use crate::words::Words;
use bt_text::{Bytes, Shared, Values};
use std::alloc::{AllocError, Global};

fn numbers(alloc: Global, count: usize) -> Result<Values<i32>, AllocError> {
    let mut numbers = Vec::new(alloc);
    for place in 0..count.min(65_535) {
        numbers.push(place as i32)?;
    }
    Values::from_vec(alloc, numbers)
}

/// All numbers, and what comes after the last.
fn push_listed(out: &mut Answer, numbers: &Values<i32>) {
    out.more(" ");
    for place in 0..=numbers.len() {
        match numbers.get(place) {
            Some(n) => {
                out.shown(n);
                out.put(b",");
            }
            None => out.put(b"."),
        }
    }
}

fn push_values(out: &mut Answer, alloc: Global, numbers: &Values<i32>) -> Done {
    put!(out; numbers.len(), " ", numbers.to_vec(alloc)?.len());
    push_listed(out, numbers);
    Ok(())
}

fn change(alloc: Global, numbers: &mut Values<i32>, place: usize) -> Done {
    numbers.set(alloc, place, -1)?;
    numbers.set(alloc, place, -2)?;
    numbers.set(alloc, numbers.len(), -3)
}

/// Numbers and a copy that is changed at a place, and whether both are the same before and after.
fn push_copied(words: Words<'_>, out: &mut Answer) -> Done {
    let numbers = numbers(words.alloc, words.count(1))?;
    let mut copy = numbers.copied(words.alloc)?;
    out.word(copy.is_same(&numbers));
    change(words.alloc, &mut copy, words.count(2))?;
    out.word(copy.is_same(&numbers));
    push_listed(out, &copy);
    push_listed(out, &numbers);
    Ok(())
}

fn push_text_at(out: &mut Answer, texts: &Values<Shared<Bytes>>, place: usize) {
    out.more(" ");
    match texts.get(place) {
        Some(text) => put!(out; *text),
        None => out.put(b"."),
    }
}

fn texts_of(words: Words<'_>) -> Result<Values<Shared<Bytes>>, AllocError> {
    let text = words.shared(3)?;
    let mut texts = Vec::new(words.alloc);
    for _ in 0..words.count(1) {
        texts.push(text.share()?)?;
    }
    Values::from_vec(words.alloc, texts)
}

/// The text at a changed place of a copy and in the original, and whether each is the same as the latter.
fn push_texts(words: Words<'_>, out: &mut Answer, texts: &Values<Shared<Bytes>>) -> Done {
    let place = words.count(2);
    let mut copy = texts.copied(words.alloc)?;
    copy.set(words.alloc, place, words.shared(4)?)?;
    push_text_at(out, &copy, place);
    push_text_at(out, texts, place);
    out.word(copy.is_same(texts));
    out.word(texts.is_same(texts));
    Ok(())
}

pub fn push_answer(words: Words<'_>, out: &mut Answer) -> Done {
    let alloc = words.alloc;
    match words.word(0) {
        "no_values" => push_values(out, alloc, &Values::new(alloc)),
        "values" => push_values(out, alloc, &numbers(alloc, words.count(1))?),
        "values_copied" => push_copied(words, out),
        _ => push_texts(words, out, &texts_of(words)?),
    }
}
