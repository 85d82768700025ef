//! The bibliography, which steps write line by line.

ghost use Rattle.std.specs.Prelude.{◌≡◌, ◌++◌, ◌+◌, ◌-◌, ◌≤◌, [], ◌∷◌, drop, length, map, sum, take, IfOk, OnErr, OnOk};
ghost use Rattle.bt_log.specs.Log.{lines_bytes};
ghost use Rattle.bt_run.specs.inner.Cases.{bbl_of, bytes_written};
ghost use Rattle.bt_run.specs.inner.Put.{IsPartOf};
ghost use Rattle.bt_run.specs.inner.Walk.{AreNumbered, with_steps};

use crate::course::Step;
use crate::kept::Kept;
use crate::walk::NewStep;
use bt_text::{Bytes, Sequence, Shared};
use std::alloc::{AllocError, Global};
use std::mem;

fn write_line(text: &mut Bytes, line: &[u8]) -> Result<(), AllocError>
    ensures { OnOk result (text.new ≡ text.old ++ line.now ++ 10 ∷ []) }
{
    text.append(line)?;
    text.append(b"\n")
}

fn push_line(text: &mut Vec<u8>, line: &[u8]) -> Result<(), AllocError>
    ensures { OnOk result (text.new.items ≡ text.old.items ++ line.now ++ 10 ∷ []) }
{
    text.extend_from_slice(line)?;
    text.push(b'\n')?;
    Ok(())
}

/// Puts lines after a text, each with a line feed.
fn push_lines(text: &mut Vec<u8>, lines: &[Shared<Bytes>]) -> Result<(), AllocError>
    ensures { OnOk result (text.new.items ≡ text.old.items ++ lines_bytes lines.now) }
{
    'lines: for line in lines {
        push_line(text, line.as_slice())?;
    }
    Ok(())
}

/// Puts lines with one owner each after a text, each with a line feed.
pub fn write_own_lines(text: &mut Bytes, lines: &[Bytes]) -> Result<(), AllocError>
    ensures { OnOk result (text.new ≡ text.old ++ lines_bytes lines.now) }
{
    'lines: for line in lines {
        write_line(text, line.as_slice())?;
    }
    Ok(())
}

/// What steps have written, and how many bytes each.
pub struct Written {
    pub bbl: Bytes,
    pub lengths: Sequence<usize>,
}

/// Puts what a step wrote after a text, and its length after other lengths.
fn push_step(text: &mut Vec<u8>, lengths: &mut Vec<usize>, step: &Step) -> Result<(), AllocError>
    ensures text { OnOk result (text.new.items ≡ text.old.items ++ lines_bytes step.now.outcome.lines) }
    ensures lengths { OnOk result (lengths.new.items ≡ lengths.old.items ++ bytes_written step.now ∷ []) }
{
    let begin = text.len();
    push_lines(text, step.outcome.lines.as_slice())?;
    lengths.push(text.len().saturating_sub(begin))?;
    Ok(())
}

fn sum_of(lengths: &[usize]) -> usize {
    let mut sum: usize = 0;
    'lengths: for length in lengths {
        sum = sum.saturating_add(*length);
    }
    sum
}

/// What steps have written. It asks at once for as many bytes as the previous run's steps wrote (`before`: how many each).
pub fn bbl_of(
    alloc: Global,
    steps: &[Shared<Step>],
    before: &[usize],
) -> Result<Written, AllocError>
    ensures bbl { IfOk result (λ written. written.bbl ≡ bbl_of steps.now) }
    ensures lengths { IfOk result (λ written. written.lengths ≡ map bytes_written steps.now) }
{
    let mut bbl = Vec::with_capacity(alloc, sum_of(before))?;
    let mut lengths = Vec::with_capacity(alloc, steps.len())?;
    'steps: for step in steps {
        push_step(&mut bbl, &mut lengths, step)?;
    }
    Ok(Written {
        bbl: Bytes::from_vec(bbl),
        lengths: Sequence::from_vec(lengths),
    })
}

/// Where parts of these lengths end, if the first one begins at `begin`. They lie in a text of length `len`, so the sum can't
/// overflow: only the proof needs `len`.
fn end_of(begin: usize, lengths: &[usize], len: usize) -> usize
    requires { begin + sum lengths.now ≤ len }
    ensures { result ≡ begin + sum lengths.now }
{
    let mut end = begin;
    'lengths: for length in lengths {
        end += *length;
    }
    end
}

/// How many bytes the re-made steps write.
fn room_for(steps: &[NewStep]) -> usize {
    let mut room: usize = 0;
    'steps: for step in steps {
        room = room.saturating_add(step.length);
    }
    room
}

/// A change of the bibliography: bytes `begin..end` of the old one give way to `text`.
#[derive(Drop)]
pub struct NewPart {
    pub begin: usize,
    pub end: usize,
    pub text: Vec<u8>,
}

impl NewPart {
    /// Moves the part's end to `end`, and appends the old bytes that it passes. An empty part moves as a whole, so that it
    /// doesn't begin with unchanged bytes.
    fn extend_to(&mut self, old: &[u8], end: usize) -> Result<(), AllocError>
        requires begin { self.old.begin ≤ self.old.end }
        requires within { (self.old.end ≤ end) × (end ≤ length old.now) }
        ensures begin { OnOk result (self.new.begin ≤ end) }
        ensures end { OnOk result (self.new.end ≡ end) }
        ensures text { OnOk result (take self.new.begin old.now ++ self.new.text.items
            ≡ take self.old.begin old.now ++ self.old.text.items ++ take (end - self.old.end) (drop self.old.end old.now)) }
    {
        let from = mem::replace(&mut self.end, end);
        if self.begin == from && self.text.is_empty() {
            self.begin = end;
            return Ok(());
        }
        self.text.extend_from_slice(&old[from..end])
    }

    /// The part of the old bibliography that changes if each of `others` replaces the step with its number. It may contain unchanged
    /// bytes. The only error is out of memory.
    pub fn of(
        alloc: Global,
        old: &[u8],
        kept: &Kept,
        others: &[NewStep],
    ) -> Result<NewPart, AllocError>
        requires old { old.now ≡ bbl_of kept.now.steps }
        requires numbered { AreNumbered 0 (length kept.now.steps) others.now }
        ensures { IfOk result (λ part. IsPartOf part old.now (bbl_of (with_steps kept.now.steps others.now))) }
    {
        let lengths = kept.lengths.as_slice();
        let len = old.len();
        let text = Vec::with_capacity(alloc, room_for(others))?;
        let mut part = NewPart {
            begin: 0,
            end: 0,
            text,
        };
        let mut number: usize = 0;
        'others: for other in others {
            let end = end_of(part.end, &lengths[number..other.number], len);
            part.extend_to(old, end)?;
            push_lines(&mut part.text, other.step.outcome.lines.as_slice())?;
            part.end = end + lengths[other.number];
            number = other.number + 1;
        }
        Ok(part)
    }

    /// Puts it into the old bibliography. After out of memory the bibliography is as before.
    pub fn put(self, alloc: Global, bbl: &mut Bytes) -> Result<(), AllocError>
        requires within { (self.begin ≤ self.end) × (self.end ≤ length bbl.old) }
        ensures ok { OnOk result (bbl.new ≡ take self.begin bbl.old ++ (self.text.items ++ drop self.end bbl.old)) }
        ensures err { OnErr result (bbl.new ≡ bbl.old) }
    {
        let NewPart { begin, end, text } = self;
        let mut bytes = mem::replace(bbl, Bytes::new(alloc)).into_vec();
        let spliced = bytes.splice(begin..end, text);
        *bbl = Bytes::from_vec(bytes);
        drop(spliced?);
        Ok(())
    }
}
