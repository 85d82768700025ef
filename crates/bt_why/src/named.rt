//! What marks name, and whether it is there.

ghost use Rattle.std.specs.Prelude.{◌≡◌, false, IsTrue, IsNone, option_and_then, option_copied, slice_get};
ghost use Rattle.bt_why.specs.Named.{AreRight, IsLineRight, IsRight, entry_at, is_byte_of, text_named};

use crate::machine::Machine;
use bt_actions::Entry;
use bt_marks::{Line, Mark, Marked, Source, Written};

/// Whether a byte is another one, or what a built-in function makes of it.
fn is_byte_of(is_made: bool, named: u8, byte: u8) -> bool
    ensures { result ≡ is_byte_of is_made named byte }
{
    if is_made {
        byte == b' ' || byte.to_ascii_lowercase() == named.to_ascii_lowercase()
    } else {
        byte == named
    }
}

impl<'a> Machine<'a> {
    /// The entry in whose step a mark was made.
    pub fn entry_of(&self, mark: Mark) -> Option<&'a Entry>
        ensures { option_copied result ≡ entry_at self.now mark.site }
    {
        let step = self.marks.step(mark.site)?;
        let place = (*self.step_entries.get(step)?)?;
        let entries: &'a [Entry] = self.entries;
        entries.get(place)
    }

    /// The text that a mark names; none for what built-in functions made.
    fn named_text(&self, mark: Mark) -> Option<&[u8]>
        ensures { option_copied result ≡ text_named self.now mark.site mark.source }
    {
        match mark.source {
            Source::Literal(number) => Some(self.program.text(number)),
            Source::Quote => Some(b"\""),
            Source::Indent => Some(b" "),
            Source::Field(field) => Some(self.entry_of(mark)?.fields.get(field)?.as_slice()),
            Source::Key => Some(self.entry_of(mark)?.key.as_slice()),
            Source::Type => Some(self.entry_of(mark)?.kind.as_slice()),
            Source::Preamble => Some(self.preamble),
            Source::Made(_, _) | Source::Added(_, _) | Source::Put(_) => None,
        }
    }

    fn named_byte(&self, mark: Mark, at: usize) -> Option<u8>
        ensures { result ≡ option_and_then (λ text. slice_get text at) (text_named self.now mark.site mark.source) }
    {
        self.named_text(mark)?.get(at).copied()
    }

    /// Whether the place that a byte's mark names has this byte, or what a built-in function may have made it of. Nothing
    /// is claimed of a byte that one added.
    fn is_right(&self, marked: Marked) -> bool
        ensures { IsTrue result → IsRight self.now marked.byte marked.at false marked.mark }
    {
        let mut number = marked.mark;
        let mut is_made = false;
        'marks: for _ in 0..usize::MAX {
            let Some(mark) = self.marks.mark(number) else {
                return false;
            };
            match mark.source {
                Source::Made(_, of) => {
                    is_made = true;
                    number = of;
                }
                Source::Added(_, _) | Source::Put(_) => return true,
                _ => {
                    return match self.named_byte(mark, marked.at) {
                        Some(named) => is_byte_of(is_made, named, marked.byte),
                        None => false,
                    };
                }
            }
        }
        false
    }

    /// Whether every byte of a line is right.
    fn is_line_right(&self, line: &[Written]) -> bool
        ensures { IsTrue result → IsLineRight self.now line.now }
    {
        'line: for written in line {
            if !self.is_right(written.marked) {
                return false;
            }
        }
        true
    }

    /// The first of some lines with a byte that isn't right, from 0.
    pub fn wrong_line(&self, lines: &[Line]) -> Option<usize>
        ensures { IsNone result → AreRight self.now lines.now }
    {
        'lines: for (number, line) in lines.iter().enumerate() {
            if !self.is_line_right(line.as_slice()) {
                return Some(number);
            }
        }
        None
    }
}
