//! Cases of how faults are shown: each under the name of its case.

use crate::Done;
use crate::answer::Answer;
use crate::words::Words;
use bt_names::{FormatFault, NameFault};
use bt_style::{FaultKind, StyleRefusal};
use bt_text::HeldFault;
use std::fmt::Display;

fn push_all<T: Display>(out: &mut Answer, faults: &[T]) {
    for fault in faults {
        out.more(" ");
        out.shown(fault);
    }
}

/// The faults of a type.
pub fn push_answer(words: Words<'_>, out: &mut Answer) -> Done {
    let kind = FaultKind::MissingArgument;
    match words.word(1) {
        "NameFault" => push_all(
            out,
            &[
                NameFault::NoSuchName,
                NameFault::TooManyCommas,
                NameFault::OutOfMemory,
            ],
        ),
        "FormatFault" => push_all(
            out,
            &[
                FormatFault::NoSuchName,
                FormatFault::TooManyCommas,
                FormatFault::PatternFault(4),
                FormatFault::OutOfMemory,
            ],
        ),
        "StyleRefusal" => push_all(
            out,
            &[
                StyleRefusal::Fault { kind, line: 7 },
                StyleRefusal::OutOfMemory,
            ],
        ),
        _ => push_all(out, &[HeldFault::TooLong, HeldFault::OutOfMemory]),
    }
    Ok(())
}
