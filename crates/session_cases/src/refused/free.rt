//! Calls that allocate nothing. Their values are made first. From then on nothing asks for memory: neither the calls,
//! nor the comparison of their answers with the right ones. So `tests/memory` refuses every request from then on.

use crate::inputs::{input, reach, style};
use crate::refused::attempt::{Part, Verdict};
use crate::refused::refusing::is_refusing;
use bt_machine::{Input, Meter, TwoInputs, agrees};
use bt_names::{FormatFault, NameFault, count, format, parts};
use bt_style::{Reach, Style};
use bt_text::{
    Bytes, Class, Held, HeldFault, Sequence, TEXT_BYTES, balanced, class, text_length, width,
};
use std::alloc::{AllocError, Global};

fn are_classes_right() -> bool {
    class(b'\t') == Class::White
        && class(b'a') == Class::Letter
        && class(200) == Class::Letter
        && class(b'0') == Class::Digit
        && class(b'~') == Class::Sep
        && class(b'{') == Class::Other
}

fn are_braces_right() -> bool {
    balanced(b"{a}{{b}}") && balanced(b"") && !balanced(b"}{") && !balanced(b"{")
}

fn are_lengths_right() -> bool {
    text_length(b"{\\'e}b{cd}") == 4
        && text_length(b"") == 0
        && width(b"ab") == 1056
        && width(b"{a}") == 1500
        && width(b"{\\ss}") == 500
}

fn are_counts_right() -> bool {
    count(b"") == 0
        && count(b"A and B") == 2
        && count(b"A and and B") == 3
        && count(b"A {and} B") == 1
}

fn are_texts_right() -> bool {
    are_classes_right() && are_braces_right() && are_lengths_right() && are_counts_right()
}

fn has_no_parts(alloc: Global, names: &[u8], n: i32, fault: NameFault) -> bool {
    match parts(alloc, names, n) {
        Err(found) => found == fault,
        Ok(_) => false,
    }
}

fn is_not_formatted(alloc: Global, names: &[u8], pattern: &[u8], fault: FormatFault) -> bool {
    match format(alloc, names, 1, pattern) {
        Err(found) => found == fault,
        Ok(_) => false,
    }
}

/// Whether patterns have their fault at the right place, if the name has none.
fn are_patterns_refused(alloc: Global) -> bool {
    is_not_formatted(alloc, b"A", b"{ff x}", FormatFault::PatternFault(4))
        && is_not_formatted(alloc, b"A", b"{ff", FormatFault::PatternFault(3))
        && is_not_formatted(alloc, b"A", b"}", FormatFault::PatternFault(0))
}

fn are_names_right(alloc: Global) -> bool {
    has_no_parts(alloc, b"", 1, NameFault::NoSuchName)
        && has_no_parts(alloc, b"A and B", 3, NameFault::NoSuchName)
        && has_no_parts(alloc, b"A, B, C, D", 1, NameFault::TooManyCommas)
        && is_not_formatted(alloc, b"", b"}", FormatFault::NoSuchName)
        && is_not_formatted(alloc, b"A, B, C, D", b"}", FormatFault::TooManyCommas)
        && are_patterns_refused(alloc)
}

/// Fills a held line with as many bytes as it may have.
fn fill(alloc: Global, held: &mut Held, lines: &mut Sequence<Bytes>) -> Result<(), AllocError> {
    for _ in 0..TEXT_BYTES / 8 {
        if held.write(alloc, b"letters_", lines).is_err() {
            return Err(AllocError);
        }
    }
    Ok(())
}

fn is_too_long(alloc: Global, held: &mut Held, lines: &mut Sequence<Bytes>, text: &[u8]) -> bool {
    matches!(held.write(alloc, text, lines), Err(HeldFault::TooLong))
        && held.bytes().len() == TEXT_BYTES
        && lines.len() == 0
}

/// Whether a new line is empty, and a full one takes no more.
fn takes_no_more(alloc: Global, held: &mut Held, lines: &mut Sequence<Bytes>) -> bool {
    Held::new(alloc).bytes().is_empty()
        && is_too_long(alloc, held, lines, b"a")
        && is_too_long(alloc, held, lines, b"a word and more")
}

fn is_full_line_right(alloc: Global, part: Part) -> Result<bool, AllocError> {
    let mut held = Held::new(alloc);
    let mut lines = Sequence::new(alloc);
    fill(alloc, &mut held, &mut lines)?;
    Ok(part == Part::Setup || takes_no_more(alloc, &mut held, &mut lines))
}

/// Whether an input agrees with itself, and not with another one, in everything that a step reaches.
fn agrees_alone(style: &Style, one: &Input, other: &Input, reach: &Reach) -> bool {
    let itself = TwoInputs {
        old: one,
        new: one,
        same: false,
    };
    let apart = TwoInputs {
        old: one,
        new: other,
        same: false,
    };
    agrees(style, itself, reach) && !agrees(style, apart, reach)
}

/// Whether two inputs that differ only in their keys don't agree in everything that a step of this style reaches.
fn are_apart(alloc: Global, style: &Style, part: Part) -> Result<bool, AllocError> {
    let reach = reach(alloc, style)?;
    let one = input(alloc, "key,A,n")?;
    let other = input(alloc, "other,A,n")?;
    Ok(part == Part::Setup || agrees_alone(style, &one, &other, &reach))
}

fn is_agreement_right(alloc: Global, part: Part) -> Result<bool, AllocError> {
    let style = style(alloc)?;
    are_apart(alloc, &style, part)
}

/// Whether the calls of this name give the right answers; true if they aren't made.
fn is_right(alloc: Global, name: &str, part: Part) -> Result<bool, AllocError> {
    match name {
        "texts" => Ok(part == Part::Setup || are_texts_right()),
        "names" => Ok(part == Part::Setup || are_names_right(alloc)),
        "full-line" => is_full_line_right(alloc, part),
        "meter" => Ok(Meter::new().value() == 0),
        "agreement" => is_agreement_right(alloc, part),
        "refusing" => is_refusing(alloc, part),
        _ => Ok(false),
    }
}

/// The verdict on the calls of a name. The error is that memory was refused before them.
pub fn verdict_on_free(alloc: Global, name: &str, part: Part) -> Result<Verdict, AllocError> {
    Ok(if is_right(alloc, name, part)? {
        Verdict::NotRefused
    } else {
        Verdict::Lost
    })
}
