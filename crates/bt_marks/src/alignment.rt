//! Marks through the built-in functions that change texts.
//!
//! The real function makes the bytes. Each of them is then looked for in the argument, after the byte that the one before
//! it came from: `change.case$` and `purify$` only change and leave out bytes, `text.prefix$` and `add.period$` only add some
//! at the end. A byte that isn't found was added. So a wrong alignment can name a wrong byte of the same argument, and
//! never a byte that isn't there.

ghost use Rattle.std.specs.Prelude.{◌≡◌, IfOk};
ghost use Rattle.bt_marks.specs.Bytes.{text_bytes};

use crate::marks::{Marks, Site, Source};
use crate::texts::{Marked, Text};
use bt_style::Builtin;
use bt_text::is_white;
use std::alloc::{AllocError, Global};

/// The built-in function that makes a text, and the word that calls it.
#[derive(Clone, Copy)]
pub struct Maker {
    pub builtin: Builtin,
    pub site: Site,
}

/// Where in an argument the next byte is looked for, and the marks that were made last.
#[derive(Clone, Copy)]
struct Walk {
    next: usize,
    /// The mark of the argument's byte that was found last.
    beside: Option<usize>,
    /// What the last byte was that the function changed: its mark, and the new one.
    made: Option<(usize, usize)>,
    /// The mark of bytes that were added, and the mark beside which they are.
    added: Option<(Option<usize>, usize)>,
}

/// The mark of the first byte of a text.
pub fn first_mark(text: &[Marked]) -> Option<usize> {
    Some(text.first()?.mark)
}

fn is_turned_into_space(byte: u8) -> bool {
    is_white(byte) || byte == b'-' || byte == b'~'
}

/// Whether a built-in function may turn a byte into another one.
fn turns(builtin: Builtin, from: u8, to: u8) -> bool {
    match builtin {
        Builtin::ChangeCase => from.to_ascii_lowercase() == to.to_ascii_lowercase(),
        Builtin::Purify => from == to || (to == b' ' && is_turned_into_space(from)),
        _ => from == to,
    }
}

/// What a byte comes from that isn't the argument's.
fn added_source(builtin: Builtin, beside: Option<usize>) -> Source {
    match builtin {
        Builtin::AddPeriod | Builtin::TextPrefix => Source::Put(builtin),
        _ => Source::Added(builtin, beside),
    }
}

impl Walk {
    fn begin(argument: &[Marked]) -> Walk {
        Walk {
            next: 0,
            beside: first_mark(argument),
            made: None,
            added: None,
        }
    }

    /// Where the argument has a byte that this one can come from.
    fn find(&self, builtin: Builtin, argument: &[Marked], byte: u8) -> Option<usize> {
        let rest = argument.get(self.next..)?;
        let further = rest
            .iter()
            .position(|marked| turns(builtin, marked.byte, byte))?;
        Some(self.next.saturating_add(further))
    }

    /// The mark of a byte that was made of one with this mark.
    fn made_mark(
        &mut self,
        marks: &mut Marks,
        maker: Maker,
        of: usize,
    ) -> Result<usize, AllocError> {
        let made = self.made;
        match made {
            Some((last, mark)) if last == of => Ok(mark),
            _ => {
                let mark = marks.note(Source::Made(maker.builtin, of), maker.site)?;
                self.made = Some((of, mark));
                Ok(mark)
            }
        }
    }

    /// The mark of a byte that was added.
    fn added_mark(&mut self, marks: &mut Marks, maker: Maker) -> Result<usize, AllocError> {
        let (added, own) = (self.added, self.beside);
        match added {
            Some((beside, mark)) if beside == own => Ok(mark),
            _ => {
                let mark = marks.note(added_source(maker.builtin, own), maker.site)?;
                self.added = Some((own, mark));
                Ok(mark)
            }
        }
    }

    /// The mark of a byte of the result, and which byte of the mark's text it is.
    fn origin(
        &mut self,
        marks: &mut Marks,
        maker: Maker,
        argument: &[Marked],
        byte: u8,
    ) -> Result<(usize, usize), AllocError> {
        let Some(place) = self.find(maker.builtin, argument, byte) else {
            return Ok((self.added_mark(marks, maker)?, 0));
        };
        let Some(marked) = argument.get(place) else {
            return Ok((self.added_mark(marks, maker)?, 0));
        };
        self.next = place.saturating_add(1);
        self.beside = Some(marked.mark);
        if marked.byte == byte {
            Ok((marked.mark, marked.at))
        } else {
            Ok((self.made_mark(marks, maker, marked.mark)?, marked.at))
        }
    }
}

/// The bytes that a built-in function made of an argument, with their marks. New marks are added to `marks`. The only error
/// is out of memory; then some may have been added.
pub fn aligned(
    alloc: Global,
    marks: &mut Marks,
    maker: Maker,
    argument: &[Marked],
    bytes: &[u8],
) -> Result<Text, AllocError>
    ensures { IfOk result (λ text. text_bytes text.items ≡ bytes.now) }
{
    let mut text = Vec::with_capacity(alloc, bytes.len())?;
    let mut walk = Walk::begin(argument);
    'bytes: for byte in bytes {
        let (mark, at) = walk.origin(marks, maker, argument, *byte)?;
        text.push(Marked {
            byte: *byte,
            mark,
            at,
        })?;
    }
    Ok(text)
}
