//! The fields of an entry.

ghost use Rattle.bt_bib.specs.Spot.{here};
ghost use Rattle.bt_bib.specs.inner.Spot.{IsIn};
ghost use Rattle.bt_bib.specs.inner.Stop.{Fills, Gives};
ghost use Rattle.bt_bib.specs.Many.{all};
ghost use Rattle.bt_bib.specs.inner.Many.{gathered};
ghost use Rattle.bt_bib.specs.Fields.{field, next_field};

use crate::fault::{ItemFault, NameRole};
use crate::item::{Closing, Field};
use crate::reader::Reader;
use crate::spot::Spot;
use crate::stop::ReadStop;
use bt_text::Sequence;

impl Reader<'_> {
    /// A field, and the white space after it.
    #[tactic(auto, unfolding(crate::specs::Fields::field))]
    fn field(&self, from: Spot, close: Closing) -> Result<(Field, Spot), ReadStop>
        requires { IsIn self.now.text.now from }
        ensures { Gives self.now.text.now from result (field close (here self.now.text.now from)) }
    {
        let (name, end) = self.name(from, NameRole::FieldName, b"=")?;
        let equals = self.sign(self.after_white(end), b'=', ItemFault::ExpectedEquals)?;
        let (value, end) = self.value(self.after_white(equals), close)?;
        let line = from.line;
        Ok((Field { name, line, value }, end))
    }

    #[tactic(auto, unfolding(crate::specs::Fields::next_field))]
    fn next_field(&self, from: Spot, close: Closing) -> Result<(Option<Field>, Spot), ReadStop>
        requires { IsIn self.now.text.now from }
        ensures { Gives self.now.text.now from result (next_field close (here self.now.text.now from)) }
    {
        let Some(byte) = self.peek(from) else {
            return Err(ReadStop::Stopped(ItemFault::EndOfFile, from));
        };
        if byte == close.sign() {
            Ok((None, self.after_byte(from)))
        } else if byte == b',' {
            let at = self.after_white(self.after_byte(from));
            let Some(byte) = self.peek(at) else {
                return Err(ReadStop::Stopped(ItemFault::EndOfFile, at));
            };
            if byte == close.sign() {
                Ok((None, self.after_byte(at)))
            } else {
                let (field, end) = self.field(at, close)?;
                Ok((Some(field), end))
            }
        } else {
            Err(ReadStop::Stopped(ItemFault::ExpectedCommaOrClose, from))
        }
    }

    /// Appends each field of an entry to `fields` as it is read, up to the entry's end or its fault. If memory runs
    /// out, `fields` keeps those that were read before.
    pub fn fields(
        &self,
        from: Spot,
        close: Closing,
        fields: &mut Sequence<Field>,
    ) -> Result<Spot, ReadStop>
        requires { IsIn self.now.text.now from }
        ensures { Fills self.now.text.now from result fields.new
            (gathered fields.old (all (next_field close) (here self.now.text.now from))) }
    {
        let mut at = from;
        'fields: loop {
            let (next, end) = self.next_field(at, close)?;
            match next {
                None => return Ok(end),
                Some(field) => fields.push(field)?,
            }
            at = end;
        }
    }
}
