//! Cases of the functions on texts.

use crate::Done;
use crate::answer::{Answer, Spelled, put};
use crate::words::Words;
use bt_text::{
    Bytes, Class, Mode, add_period, balanced, change_case, class, eq_ignore_ascii_case, is_name,
    is_white_joined, join_white, name_len, purify, substring, text_length, text_prefix,
    to_ascii_lowercase, trim_end, white_run, width,
};
use std::alloc::AllocError;

fn class_name(class: Class) -> &'static str {
    match class {
        Class::White => "White",
        Class::Letter => "Letter",
        Class::Digit => "Digit",
        Class::Sep => "Sep",
        Class::Other => "Other",
    }
}

fn mode_of(word: &str) -> Mode {
    match word {
        "t" => Mode::Title,
        "u" => Mode::Upper,
        _ => Mode::Lower,
    }
}

fn made(words: Words<'_>, text: &[u8]) -> Result<Bytes, AllocError> {
    let alloc = words.alloc;
    match words.word(0) {
        "purify" => purify(alloc, text),
        "add_period" => add_period(alloc, text),
        "text_prefix" => text_prefix(alloc, text, words.number(2)),
        "to_ascii_lowercase" => to_ascii_lowercase(alloc, text),
        "join_white" => join_white(alloc, text),
        "trim_end" => Bytes::copied(alloc, trim_end(text)),
        _ => substring(alloc, text, words.number(2), words.number(3)),
    }
}

fn push_changed(words: Words<'_>, out: &mut Answer) -> Done {
    let text = words.text(2)?;
    let changed = change_case(words.alloc, &text, mode_of(words.word(1)))?;
    match words.word(0) {
        "keeps_case" => put!(out; (changed.as_slice() == text.as_slice())),
        _ => put!(out; changed),
    }
    Ok(())
}

fn push_told(words: Words<'_>, out: &mut Answer, text: &[u8]) -> Done {
    match words.word(0) {
        "class" => put!(out; class_name(class(text.first().copied().unwrap_or(0)))),
        "balanced" => put!(out; balanced(text)),
        "is_name" => put!(out; is_name(text)),
        "is_white_joined" => put!(out; is_white_joined(text)),
        "text_length" => put!(out; text_length(text)),
        "name_len" => put!(out; name_len(text)),
        "white_run" => put!(out; white_run(text)),
        "width" if text.len() <= 65_536 => out.shown(&width(text)),
        "width" => put!(out; "too long"),
        _ => put!(out; made(words, text)?),
    }
    Ok(())
}

pub fn push_answer(words: Words<'_>, out: &mut Answer) -> Done {
    match words.word(0) {
        "change_case" | "keeps_case" => push_changed(words, out),
        "eq_ignore_ascii_case" => {
            put!(out; eq_ignore_ascii_case(&words.text(1)?, &words.text(2)?));
            Ok(())
        }
        _ => push_told(words, out, &words.text(1)?),
    }
}
