//! What is noted of the name and the word at a place of a style.

use crate::sentences::{before_words, effect_words};
use crate::spots::{spot_of, word_at};
use crate::words::with_notes;
use bt_check::{Spot, Watched, Watcher};
use bt_style::{Style, StyleRefusal, read_style};
use bt_style_text::{Mark, marks_of, name_at, part};
use bt_text::{Bytes, eq_ignore_ascii_case};
use bt_words::Program;
use std::alloc::{AllocError, Global};

/// How many steps the analysis of a function may take, so that an editor waits at most some 50 ms.
const WORK: u64 = 80_000;

#[derive(Clone, Copy)]
struct Scene<'a> {
    alloc: Global,
    text: &'a [u8],
    watcher: Watcher<'a>,
    marks: &'a [Mark],
    place: usize,
}

impl Scene<'_> {
    fn named_function(&self) -> Option<usize> {
        let mark = name_at(self.marks, self.place)?;
        let name = part(self.text, mark.start, mark.end);
        self.watcher.style.functions.iter().position(|function| eq_ignore_ascii_case(
            function.name.as_slice(),
            name,
        ))
    }

    /// What the function takes and leaves that is named at the place.
    fn effect(&self) -> Result<Bytes, AllocError> {
        if let Some(function) = self.named_function()
            && let Some(found) = self.watcher.watch(self.alloc, function, None)?
        {
            return effect_words(
                self.alloc,
                self.watcher.style.fields.as_slice(),
                self.watcher.program,
                &found,
            );
        }
        Ok(Bytes::new(self.alloc))
    }

    /// What lies on the stack before the word at the place.
    fn before(&self) -> Result<Bytes, AllocError> {
        if let Some(word) = word_at(self.marks, self.place)
            && let Some(spot) = spot_of(self.alloc, self.watcher.program, word)?
            && let Some(found) = self.watcher.watch(self.alloc, word.function, Some(spot))?
        {
            return before_words(
                self.alloc,
                self.watcher.style.fields.as_slice(),
                self.watcher.program,
                found.before.as_slice(),
            );
        }
        Ok(Bytes::new(self.alloc))
    }

    fn notes(&self) -> Result<Bytes, AllocError> {
        let effect = self.effect()?;
        let before = self.before()?;
        with_notes(self.alloc, effect.as_slice(), before.as_slice())
    }
}

fn notes_in<'x>(
    alloc: Global,
    text: &'x [u8],
    style: &'x Style,
    marks: &'x [Mark],
    place: usize,
) -> Result<Bytes, AllocError> {
    let program = Program::of(alloc, style, text)?;
    let scene = Scene {
        alloc,
        text,
        watcher: Watcher {
            style,
            program: &program,
            work: WORK,
        },
        marks,
        place,
    };
    scene.notes()
}

/// What there is to say of the stack at a place of a style's text, as Markdown: what the function that is named there takes
/// and leaves, and what lies on the stack before the word there. Empty if nothing is known. The one error is out of memory.
pub fn stack_notes(alloc: Global, text: &[u8], place: usize) -> Result<Bytes, AllocError> {
    let marks = marks_of(alloc, text)?;
    match read_style(alloc, text) {
        Ok(style) => notes_in(alloc, text, &style, marks.as_slice(), place),
        Err(StyleRefusal::OutOfMemory) => Err(AllocError),
        Err(StyleRefusal::Fault { .. }) => Ok(Bytes::new(alloc)),
    }
}
