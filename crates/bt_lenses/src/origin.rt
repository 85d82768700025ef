//! Where a byte of the bibliography comes from.

use crate::ran::{Question, Ran, Styled, ask};
use bt_origins::Sources;
use bt_remarks::{FileLine, Origin};
use bt_text::Bytes;
use bt_why::{Mark, Source};
use std::alloc::{AllocError, Global};

/// The most bytes of a bibliography whose origins are found: 1 MiB takes about a second.
const ORIGIN_BYTES: usize = 1_048_576;

/// Asks for a byte of a line, both from 0.
#[derive(Drop)]
struct OriginOf {
    line: usize,
    column: usize,
}

fn line_in(alloc: Global, file: &[u8], line: usize) -> Result<Option<FileLine>, AllocError> {
    Ok(Some(FileLine {
        file: Bytes::copied(alloc, file)?,
        line: line.saturating_sub(1),
    }))
}

fn field_of(sources: Sources<'_>, mark: usize) -> Result<Option<FileLine>, AllocError> {
    if let Some(root) = sources.root(mark)
        && let Source::Field(field) = root.source
        && let Some(place) = sources.place(root, field)?
    {
        return line_in(sources.alloc, place.file, place.line);
    }
    Ok(None)
}

/// The word that pushed what has a mark, in the innermost function.
fn word_of(sources: Sources<'_>, mark: Option<Mark>) -> Result<Option<FileLine>, AllocError> {
    match mark {
        Some(mark) => line_in(sources.alloc, sources.style_name, mark.site.line),
        None => Ok(None),
    }
}

fn origin_of(sources: Sources<'_>, mark: usize, step: usize) -> Result<Origin, AllocError> {
    Ok(Origin {
        words: sources.words(sources.key(step), mark)?,
        field: field_of(sources, mark)?,
        word: word_of(sources, sources.mark(mark))?,
    })
}

impl Question for OriginOf {
    type Answer = Option<Origin>;

    fn answer(
        &self,
        sources: Sources<'_>,
        _styled: Styled<'_>,
    ) -> Result<Option<Origin>, AllocError> {
        let lines = sources.explained.lines()?;
        let Some(line) = lines.get(self.line) else {
            return Ok(None);
        };
        match line.get(self.column) {
            Some(written) => Ok(Some(origin_of(sources, written.marked.mark, written.step)?)),
            None => Ok(None),
        }
    }
}

/// Where the byte at this line and column of the bibliography comes from, both from 0; none if there is no such byte or the
/// run can't be explained. The one error is out of memory.
pub fn origin_at(ran: Ran<'_>, line: usize, column: usize) -> Result<Option<Origin>, AllocError> {
    if ran.bbl.len() > ORIGIN_BYTES {
        return Ok(None);
    }
    match ask(ran, &OriginOf { line, column })? {
        Some(found) => Ok(found),
        None => Ok(None),
    }
}
