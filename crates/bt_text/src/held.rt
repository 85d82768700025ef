//! The line that is written and has not ended yet: BibTeX's output buffer.
//!
//! A held line is broken as soon as it can be, so it has no place for a break: that is the invariant. A write therefore
//! looks for white space only in the new bytes and, if the line is short, in the at most 76 old ones after place 2. A
//! style that writes a long line in many small pieces takes linear time; a scan of the whole line at each write would
//! take quadratic time.

ghost use Rattle.std.specs.Prelude.{◌≡◌, ◌≢◌, ◌<◌, ◌≤◌, ◌+◌, ◌++◌, ◌↔◌, [], length, drop, is_some, IfOk, OnOk, OnErr, Err};
ghost use Rattle.std.specs.List.{list_any};
ghost use Rattle.bt_text.specs.LineBreaks.{break_place};
ghost use Rattle.bt_text.specs.ByteTests.{is_white};
ghost use Rattle.bt_text.specs.Held.{ended_lines, line_ended, written};

use crate::bytes::Bytes;
use crate::line_breaks::{add_line, break_lines, push_line};
use crate::output::Output;
use crate::sequence::Sequence;
use crate::white::has_white;
use std::alloc::{AllocError, Global};
use std::marker::Model;
use thiserror::Error;

/// How many bytes a text of a style may have: a value, an argument, and the held line with what is written after it.
pub const TEXT_BYTES: usize = 65_536;

/// How many bytes a line gets when it is begun, so that it needn't grow by small steps. A longer one is held only if it
/// can't be broken.
pub const LINE_BYTES: usize = 80;

/// Why nothing was written.
#[derive(Clone, Copy, PartialEq, Eq, Debug, Error)]
#[error("{:?}", self)]
pub enum HeldFault {
    /// The held line and the new bytes together would have more than 65,536 bytes.
    TooLong,
    /// There is no memory left.
    OutOfMemory,
}

impl From<AllocError> for HeldFault {
    ghost use Rattle.bt_text.specs.declared.held.HeldFault.TheVariants.{OutOfMemory};

    ghost from_gives = { λ _ e. e ≡ OutOfMemory };

    fn from(_error: AllocError) -> HeldFault {
        HeldFault::OutOfMemory
    }
}

/// What was written and isn't a line yet. Contracts see its bytes. It is broken as soon as it can be, so a held line
/// of more than 79 bytes has no white space after place 2.
#[derive(Debug, Drop)]
pub struct Held {
    bytes: Bytes,
}

impl Model for Held {
    ghost use Rattle.std.specs.Prelude.{◌≡◌, ◌≤◌, length, List, ℕ, None};
    ghost use Rattle.bt_text.specs.LineBreaks.{break_place};

    ghost Value = { List ℕ };

    ghost view = { λ held. held.bytes };

    ghost invariant = { λ held. (length held.bytes ≤ 65536) × (break_place held.bytes ≡ None) };
}

fn behind(text: &[u8], place: usize) -> &[u8]
    ensures { result.now ≡ drop place text.now }
{
    text.get(place..).unwrap_or(&[])
}

fn end_line(alloc: Global, held: &[u8], lines: &mut Sequence<Bytes>) -> Result<(), AllocError>
    ensures ok { OnOk result (lines.new ≡ lines.old ++ ended_lines held.now) }
    ensures err { OnErr result (lines.new ≡ lines.old) }
{
    if held.is_empty() {
        add_line(lines, Bytes::new(alloc))
    } else {
        push_line(alloc, lines, held)
    }
}

impl Held {
    /// A line with nothing in it. It takes no memory.
    pub fn new(alloc: Global) -> Held
        ensures { result ≡ [] }
    {
        Held {
            bytes: Bytes::new(alloc),
        }
    }

    /// A copy of the line.
    pub fn copy(&self, alloc: Global) -> Result<Held, AllocError>
        ensures { IfOk result (λ held. held ≡ self.now) }
    {
        Ok(Held {
            bytes: Bytes::copied(alloc, self.bytes.as_slice())?,
        })
    }

    /// What is held.
    pub fn bytes(&self) -> &[u8]
        ensures { result.now ≡ self.now }
    {
        self.bytes.as_slice()
    }

    /// Writes a text after what is held, and puts the lines that are broken off after `lines`. `TooLong` comes
    /// exactly if both together have more than 65,536 bytes, and before any memory is asked for. After a fault the
    /// held line and `lines` are as before.
    #[tactic(auto, using(crate::proofs::BreakingLemmas::broken_whole, crate::proofs::BreakingLemmas::lines_whole))]
    pub fn write(
        &mut self,
        alloc: Global,
        text: &[u8],
        lines: &mut Sequence<Bytes>,
    ) -> Result<(), HeldFault>
        ensures held { OnOk result (self.new ≡ (written self.old text.now).held) }
        ensures lines { OnOk result (lines.new ≡ lines.old ++ (written self.old text.now).lines) }
        ensures too_long { (result ≡ Err HeldFault.TooLong)
            ↔ (65536 < length self.old + length text.now) }
        ensures held_stays { OnErr result (self.new ≡ self.old) }
        ensures lines_stay { OnErr result (lines.new ≡ lines.old) }
    {
        if text.len() > TEXT_BYTES - self.bytes.len() {
            return Err(HeldFault::TooLong);
        }
        if self.breaks_with(text) {
            let output = self.broken_with(alloc, text)?;
            lines.append(output.lines)?;
            self.bytes = output.held;
        } else {
            self.make_room()?;
            self.bytes.append(text)?;
        }
        Ok(())
    }

    /// Gives an empty line room for its first texts.
    fn make_room(&mut self) -> Result<(), AllocError>
        ensures { self.new ≡ self.old }
    {
        if self.bytes.len() == 0 {
            self.bytes.reserve(LINE_BYTES)
        } else {
            Ok(())
        }
    }

    /// Whether white space is held after place 2. A line of more than 79 bytes has none there, by the invariant.
    fn has_white(&self) -> bool
        ensures { result ≡ list_any is_white (drop 3 self.now) }
    {
        self.bytes.len() <= 79 && has_white(behind(self.bytes.as_slice(), 3))
    }

    /// Whether lines are broken off when a text is written after what is held.
    #[tactic(auto, using(crate::proofs::HeldLemmas::written_where))]
    fn breaks_with(&self, text: &[u8]) -> bool
        requires { length self.now + length text.now ≤ 65536 }
        ensures { result ≡ is_some (break_place (self.now ++ text.now)) }
    {
        let held = self.bytes.len();
        79 < held + text.len()
            && (self.has_white() || has_white(behind(text, 3usize.saturating_sub(held))))
    }

    fn broken_with(&self, alloc: Global, text: &[u8]) -> Result<Output, AllocError>
        ensures output { IfOk result (λ output. output ≡ written self.now text.now) }
        ensures whole { IfOk result (λ output. break_place output.held ≡ None) }
        ensures shorter { IfOk result (λ output. length output.held
            ≤ length self.now + length text.now) }
    {
        let mut all = Vec::with_capacity(alloc, self.bytes.len().saturating_add(text.len()))?;
        all.extend_from_slice(self.bytes.as_slice())?;
        all.extend_from_slice(text)?;
        break_lines(alloc, all)
    }

    /// Ends the held line, and puts the line that this gives after `lines`. The next line is written into its memory. The
    /// one fault is out of memory, after which the held line and `lines` are as before.
    pub fn newline(&mut self, alloc: Global, lines: &mut Sequence<Bytes>) -> Result<(), HeldFault>
        ensures held { OnOk result (self.new ≡ (line_ended self.old).held) }
        ensures lines { OnOk result (lines.new ≡ lines.old ++ (line_ended self.old).lines) }
        ensures memory { result ≢ Err HeldFault.TooLong }
        ensures held_stays { OnErr result (self.new ≡ self.old) }
        ensures lines_stay { OnErr result (lines.new ≡ lines.old) }
    {
        end_line(alloc, self.bytes.as_slice(), lines)?;
        self.bytes.clear();
        Ok(())
    }
}
