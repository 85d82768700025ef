//! A line, cut where its bytes come from something else.

use crate::lines::Written;
use crate::marks::{Mark, Marks, Source};
use std::alloc::{AllocError, Global};

/// Bytes of a line that come from one source: those from one place up to another.
#[derive(Clone, Copy)]
pub struct Piece {
    pub from: usize,
    pub to: usize,
    /// The mark that says most of the piece: one that a built-in function made, if there is one.
    pub mark: usize,
}

fn source(marks: &Marks, mark: usize) -> Option<Source> {
    Some(marks.mark(mark)?.source)
}

fn is_made(marks: &Marks, mark: usize) -> bool {
    matches!(
        source(marks, mark),
        Some(Source::Made(_, _) | Source::Added(_, _))
    )
}

/// Whether a source is a part of what an entry says.
fn is_of_database(source: Source) -> bool {
    matches!(source, Source::Field(_) | Source::Preamble)
}

/// Whether two marks come from the same field of the same step.
fn is_same_field(marks: &Marks, first: Mark, second: Mark) -> bool {
    is_of_database(first.source)
        && first.source == second.source
        && marks.step(first.site) == marks.step(second.site)
}

/// Whether a byte belongs to the piece that ends before it, if the piece is cut wherever marks change.
fn follows(last: Option<&Written>, written: &Written) -> bool {
    match last {
        Some(last) => {
            let (last, next) = (last.marked, written.marked);
            last.mark == next.mark && last.at.saturating_add(1) == next.at
        }
        None => false,
    }
}

/// Whether bytes with two marks belong to one piece.
fn is_one(marks: &Marks, first: usize, second: usize) -> bool {
    if first == second {
        return true;
    }
    let (Some(first), Some(second)) = (marks.root(first), marks.root(second)) else {
        return false;
    };
    match (marks.mark(first), marks.mark(second)) {
        (Some(a), Some(b)) => first == second || is_same_field(marks, a, b),
        _ => false,
    }
}

/// Whether a byte belongs to a piece. `last` is the byte before it.
fn belongs(
    marks: &Marks,
    piece: Option<&Piece>,
    last: Option<&Written>,
    written: &Written,
    is_exact: bool,
) -> bool {
    match piece {
        Some(piece) => {
            if is_exact {
                follows(last, written)
            } else {
                is_one(marks, piece.mark, written.marked.mark)
            }
        }
        None => false,
    }
}

impl Piece {
    /// Adds a byte with this mark.
    fn grow(&mut self, marks: &Marks, mark: usize) {
        self.to = self.to.saturating_add(1);
        if !is_made(marks, self.mark) {
            self.mark = mark;
        }
    }
}

/// The pieces of a line, in order. Unless `is_exact`, what a built-in function left of a field and what it changed are one
/// piece. The only error is out of memory.
pub fn pieces(
    alloc: Global,
    marks: &Marks,
    line: &[Written],
    is_exact: bool,
) -> Result<Vec<Piece>, AllocError> {
    let mut pieces: Vec<Piece> = Vec::new(alloc);
    let mut last = None;
    for (from, written) in line.iter().enumerate() {
        let mark = written.marked.mark;
        if belongs(marks, pieces.last(), last, written, is_exact) {
            if let Some(piece) = pieces.last_mut() {
                piece.grow(marks, mark);
            }
        } else {
            let to = from.saturating_add(1);
            pieces.push(Piece { from, to, mark })?;
        }
        last = Some(written);
    }
    Ok(pieces)
}
