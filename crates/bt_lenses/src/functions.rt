//! Over a function of a style: how many pieces of the bibliography were pushed while it ran, and in how many entries.

use bt_origins::Sources;
use bt_remarks::{Lens, function_words};
use bt_text::Sequence;
use bt_why::{Piece, pieces};
use bt_words::Program;
use indexmap::IndexSet;
use std::alloc::AllocError;

/// What a function wrote.
#[derive(Drop)]
struct Share {
    pieces: usize,
    /// The number of the last piece that was counted: a function that calls itself through others counts once.
    last: usize,
    /// The places of the entries in the list.
    entries: IndexSet<usize>,
}

fn shares_of(sources: Sources<'_>, program: &Program) -> Result<Vec<Share>, AllocError> {
    let mut shares = Vec::new(sources.alloc);
    for _ in 0..program.function_count {
        shares.push(Share {
            pieces: 0,
            last: 0,
            entries: IndexSet::new(sources.alloc),
        })?;
    }
    Ok(shares)
}

impl Share {
    fn count(&mut self, number: usize, entry: Option<usize>) -> Result<(), AllocError> {
        if self.last == number {
            return Ok(());
        }
        self.last = number;
        self.pieces = self.pieces.saturating_add(1);
        if let Some(entry) = entry {
            self.entries.insert_full(entry)?;
        }
        Ok(())
    }
}

/// Counts a piece for each function that ran when it was pushed. Pieces are numbered from 1.
fn count_piece(
    sources: Sources<'_>,
    shares: &mut Vec<Share>,
    number: usize,
    piece: Piece,
) -> Result<(), AllocError> {
    let Some(mark) = sources.mark(piece.mark) else {
        return Ok(());
    };
    let entry = match sources.step_of(mark.site) {
        Some(step) => sources.entry_place(step),
        None => None,
    };
    for (function, _) in sources.calls(mark.site)? {
        if let Some(share) = shares.get_mut(function) {
            share.count(number, entry)?;
        }
    }
    Ok(())
}

fn counted(sources: Sources<'_>, program: &Program) -> Result<Vec<Share>, AllocError> {
    let mut shares = shares_of(sources, program)?;
    let mut number = 0usize;
    for line in &sources.explained.lines()? {
        let marks = &sources.explained.machine.marks;
        for piece in pieces(sources.alloc, marks, line.as_slice(), false)? {
            number = number.saturating_add(1);
            count_piece(sources, &mut shares, number, piece)?;
        }
    }
    Ok(shares)
}

/// Over each function that wrote something.
pub fn function_lenses(
    sources: Sources<'_>,
    program: &Program,
) -> Result<Sequence<Lens>, AllocError> {
    let mut lenses = Sequence::new(sources.alloc);
    let shares = counted(sources, program)?;
    for (function, share) in shares.iter().enumerate() {
        let line = program.lines.get(function).copied().unwrap_or(0);
        if share.pieces > 0 {
            lenses.push(Lens {
                line: line.saturating_sub(1),
                words: function_words(sources.alloc, share.pieces, share.entries.len())?,
            })?;
        }
    }
    Ok(lenses)
}
