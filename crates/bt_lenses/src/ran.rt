//! A run, and what is asked of it.

use crate::entries::entry_lenses;
use crate::functions::function_lenses;
use bt_log::Message;
use bt_origins::{
    Explained, NamedText, Places, Sources, explain, is_source, places_of, style_named, text_named,
};
use bt_remarks::Lens;
use bt_run::Kept;
use bt_style::{Style, StyleRefusal, read_style};
use bt_text::{Bytes, Sequence};
use bt_words::Program;
use std::alloc::{AllocError, Global};

/// The most bytes of a bibliography over whose files lenses stand: 64 KiB, some 400 entries, take some 50 ms. Editors ask
/// for lenses after each change.
const LENS_BYTES: usize = 65_536;

/// A run with the files that it read.
#[derive(Clone, Copy)]
pub struct Ran<'a> {
    pub alloc: Global,
    pub files: &'a [NamedText<'a>],
    pub messages: &'a [Message],
    pub kept: &'a Kept,
    pub bbl: &'a [u8],
}

/// The style of a run, with its file.
#[derive(Clone, Copy)]
pub struct Styled<'a> {
    pub style: &'a Style,
    pub program: &'a Program,
    pub name: &'a [u8],
}

/// A question about a run whose bytes have marks.
pub trait Question {
    type Answer;

    fn answer(&self, sources: Sources<'_>, styled: Styled<'_>) -> Result<Self::Answer, AllocError>;
}

fn ask_explained<Q: Question>(
    ran: Ran<'_>,
    styled: Styled<'_>,
    explained: &Explained<'_>,
    places: &Places<'_>,
    question: &Q,
) -> Result<Q::Answer, AllocError> {
    let sources = Sources {
        alloc: ran.alloc,
        kept: ran.kept,
        style: styled.style,
        style_name: styled.name,
        explained,
        places,
    };
    question.answer(sources, styled)
}

fn ask_styled<Q: Question>(
    ran: Ran<'_>,
    styled: Styled<'_>,
    places: &Places<'_>,
    question: &Q,
) -> Result<Option<Q::Answer>, AllocError> {
    match explain(ran.alloc, styled.style, styled.program, ran.kept, ran.bbl)? {
        Ok(explained) => Ok(Some(ask_explained(ran, styled, &explained, places, question)?)),
        Err(_) => Ok(None),
    }
}

fn ask_style<Q: Question>(
    ran: Ran<'_>,
    name: &[u8],
    style: &Style,
    text: &[u8],
    question: &Q,
) -> Result<Option<Q::Answer>, AllocError> {
    let program = Program::of(ran.alloc, style, text)?;
    let places = places_of(ran.alloc, ran.files, ran.messages, ran.kept)?;
    let styled = Styled {
        style,
        program: &program,
        name,
    };
    ask_styled(ran, styled, &places, question)
}

/// The answer to a question; none if the run can't be explained.
pub fn ask<Q: Question>(ran: Ran<'_>, question: &Q) -> Result<Option<Q::Answer>, AllocError> {
    let Some(name) = style_named(ran.messages) else {
        return Ok(None);
    };
    let Some(text) = text_named(ran.files, name) else {
        return Ok(None);
    };
    match read_style(ran.alloc, text) {
        Ok(style) => ask_style(ran, name, &style, text, question),
        Err(StyleRefusal::OutOfMemory) => Err(AllocError),
        Err(StyleRefusal::Fault { .. }) => Ok(None),
    }
}

/// What stands over the lines of a file.
#[derive(Drop)]
struct LensesOf<'a> {
    file: &'a [u8],
}

impl Question for LensesOf<'_> {
    type Answer = Sequence<Lens>;

    fn answer(
        &self,
        sources: Sources<'_>,
        styled: Styled<'_>,
    ) -> Result<Sequence<Lens>, AllocError> {
        if self.file == styled.name {
            function_lenses(sources, styled.program)
        } else {
            entry_lenses(sources, self.file)
        }
    }
}

/// What stands over the lines of the file of this name, from its first line on. The one error is out of memory.
pub fn lenses(ran: Ran<'_>, file: &[u8]) -> Result<Sequence<Lens>, AllocError> {
    if ran.bbl.len() > LENS_BYTES || !is_source(ran.messages, file) {
        return Ok(Sequence::new(ran.alloc));
    }
    match ask(ran, &LensesOf { file })? {
        Some(found) => Ok(found),
        None => Ok(Sequence::new(ran.alloc)),
    }
}
