//! The line starts of a text without CR after a part of it is replaced: those before the part stay, and those behind it move.

ghost use Rattle.std.specs.Prelude.{◌≡◌, ◌≤◌, ◌<◌, ◌+◌, ◌++◌, ◌^◌, None, length, drop, IfOk, OnOk};
ghost use Rattle.std.specs.List.{AllByRecursion};
ghost use Rattle.memchr.specs.Find.{IsFirstByte, is_byte};
ghost use Rattle.bt_positions.specs.declared.lines.Lines.TheVariants.{Editor, Bibtex};
ghost use Rattle.bt_positions.specs.Positions.{spliced};
ghost use Rattle.bt_positions.specs.inner.LineStarts.{line_starts, moved, CanMove};

use crate::lines::{Lines, line_starts, lines_before};
use std::alloc::{AllocError, Global};

/// A part of a text, and the bytes that replace it.
#[derive(Clone, Copy)]
pub struct Splice<'a> {
    pub start: usize,
    pub end: usize,
    pub new: &'a [u8],
}

/// The text with a part replaced.
pub fn bytes_after(alloc: Global, text: &[u8], splice: &Splice<'_>) -> Result<Vec<u8>, AllocError>
    requires in_order { splice.now.start ≤ splice.now.end }
    requires within { splice.now.end ≤ length text.now }
    ensures { IfOk result (λ bytes. bytes.items ≡ spliced splice.now text.now) }
{
    let Splice { start, end, new } = *splice;
    let kept = text.len() - (end - start);
    let mut bytes = Vec::with_capacity(alloc, kept.saturating_add(new.len()))?;
    bytes.extend_from_slice(text.split_at(start).0)?;
    bytes.extend_from_slice(new)?;
    bytes.extend_from_slice(text.split_at(end).1)?;
    Ok(bytes)
}

fn push_moved(
    all: &mut Vec<usize>,
    starts: &[usize],
    from: usize,
    to: usize,
) -> Result<(), AllocError>
    requires { AllByRecursion (CanMove from to) starts.now }
    ensures { OnOk result (all.new.items ≡ all.old.items ++ moved from to starts.now) }
{
    let mut rest = starts;
    'starts: while let [first, others @ ..] = rest {
        all.push(*first - from + to)?;
        rest = others;
    }
    Ok(())
}

/// The line starts of a text after a part of it is replaced, from those before.
pub fn starts_after(
    alloc: Global,
    text: &[u8],
    starts: &[usize],
    splice: &Splice<'_>,
) -> Result<Vec<usize>, AllocError>
    requires starts { starts.now ≡ line_starts Editor 0 text.now }
    requires no_return { IsFirstByte (is_byte 13) text.now None }
    requires in_order { splice.now.start ≤ splice.now.end }
    requires within { splice.now.end ≤ length text.now }
    requires room { length (spliced splice.now text.now) < 2 ^ 64 }
    ensures { IfOk result (λ all. all.items ≡ line_starts Bibtex 0 (spliced splice.now text.now)) }
{
    let Splice { start, end, new } = *splice;
    let inner = line_starts(alloc, Lines::Bibtex, new)?;
    let mut all = Vec::with_capacity(alloc, starts.len().saturating_add(inner.len()))?;
    all.extend_from_slice(starts.split_at(lines_before(text, starts, start)).0)?;
    push_moved(&mut all, inner.as_slice(), 0, start)?;
    let behind = starts.split_at(lines_before(text, starts, end)).1;
    push_moved(&mut all, behind, end, start + new.len())?;
    Ok(all)
}
