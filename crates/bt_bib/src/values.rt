//! Values: one part, or several joined by `#`.

ghost use Rattle.std.specs.Prelude.{◌≡◌};
ghost use Rattle.bt_bib.specs.Spot.{here};
ghost use Rattle.bt_bib.specs.inner.Spot.{IsIn};
ghost use Rattle.bt_bib.specs.inner.Stop.{Gives};
ghost use Rattle.bt_bib.specs.Many.{all, collected};
ghost use Rattle.bt_bib.specs.Values.{next_part, part, value};
ghost use Rattle.bt_bib.specs.inner.Cases.{is_joined, raw_part};

use crate::fault::{ItemFault, NameRole};
use crate::item::{Closing, Part};
use crate::reader::Reader;
use crate::spot::Spot;
use crate::stop::ReadStop;
use crate::value_parts::ValueParts;
use bt_text::{is_digit, is_name_byte};

impl Reader<'_> {
    #[inline(always)]
    fn raw_part(&self, from: Spot, close: Closing) -> Result<(Part, Spot), ReadStop>
        requires { IsIn self.now.text.now from }
        ensures { Gives self.now.text.now from result (raw_part close (here self.now.text.now from)) }
    {
        let Some(byte) = self.peek(from) else {
            return Err(ReadStop::Stopped(ItemFault::EndOfFile, from));
        };
        if byte == b'{' {
            let (found, end) = self.enclosed(self.after_byte(from), b'}')?;
            Ok((Part::Text(found), self.after_byte(end)))
        } else if byte == b'"' {
            let (found, end) = self.enclosed(self.after_byte(from), b'"')?;
            Ok((Part::Text(found), self.after_byte(end)))
        } else if is_digit(byte) {
            let (found, end) = self.digits(from)?;
            Ok((Part::Text(found), end))
        } else if is_name_byte(byte) {
            let signs = [b',', b'#', close.sign()];
            let (found, end) = self.name(from, NameRole::FieldPart, &signs)?;
            Ok((Part::Macro(found, from.line), end))
        } else {
            Err(ReadStop::Stopped(ItemFault::MissingPart, from))
        }
    }

    /// A part of a value, and the white space after it.
    #[tactic(auto, unfolding(crate::specs::Values::part))]
    #[inline(always)]
    fn part(&self, from: Spot, close: Closing) -> Result<(Part, Spot), ReadStop>
        requires { IsIn self.now.text.now from }
        ensures { Gives self.now.text.now from result (part close (here self.now.text.now from)) }
    {
        let (part, end) = self.raw_part(from, close)?;
        Ok((part, self.after_white(end)))
    }

    #[tactic(auto, unfolding(crate::specs::Values::next_part))]
    fn next_part(&self, from: Spot, close: Closing) -> Result<(Option<Part>, Spot), ReadStop>
        requires { IsIn self.now.text.now from }
        ensures { Gives self.now.text.now from result (next_part close (here self.now.text.now from)) }
    {
        let Some(byte) = self.peek(from) else {
            return Ok((None, from));
        };
        if byte == b'#' {
            let (part, end) = self.part(self.after_white(self.after_byte(from)), close)?;
            Ok((Some(part), end))
        } else {
            Ok((None, from))
        }
    }

    /// Whether another part follows.
    fn is_joined(&self, at: Spot) -> bool
        ensures { result ≡ is_joined (here self.now.text.now at) }
    {
        match self.peek(at) {
            None => false,
            Some(byte) => byte == b'#',
        }
    }

    fn others(
        &self,
        from: Spot,
        close: Closing,
        parts: ValueParts,
    ) -> Result<(ValueParts, Spot), ReadStop>
        requires { IsIn self.now.text.now from }
        ensures { Gives self.now.text.now from result
            (collected parts (all (next_part close) (here self.now.text.now from))) }
    {
        let mut parts = parts;
        let mut at = from;
        'parts: loop {
            let (next, end) = self.next_part(at, close)?;
            match next {
                None => return Ok((parts, end)),
                Some(part) => parts = parts.with(self.alloc, part)?,
            }
            at = end;
        }
    }

    /// A value, and the white space after it.
    #[tactic(auto, unfolding(crate::specs::Values::value), using(crate::proofs::FieldLemmas::alone))]
    #[inline(always)]
    pub fn value(&self, from: Spot, close: Closing) -> Result<(ValueParts, Spot), ReadStop>
        requires { IsIn self.now.text.now from }
        ensures { Gives self.now.text.now from result (value close (here self.now.text.now from)) }
    {
        // Nearly all values have one part, and need no loop.
        let (first, end) = self.part(from, close)?;
        let parts = ValueParts::one(first);
        if self.is_joined(end) {
            self.others(end, close, parts)
        } else {
            Ok((parts, end))
        }
    }
}
