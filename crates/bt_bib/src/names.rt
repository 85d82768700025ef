//! Names, and what may follow them.

ghost use Rattle.std.specs.Prelude.{◌≡◌, ◌≤◌, ◌==◌, ◌&&◌, not, length};
ghost use Rattle.std.specs.List.{list_any, take_while};
ghost use Rattle.bt_text.specs.ByteTests.{is_digit, is_small};
ghost use Rattle.bt_text.specs.NameBytes.{is_name_byte};
ghost use Rattle.bt_bib.specs.Spot.{here};
ghost use Rattle.bt_bib.specs.Scan.{after_run};
ghost use Rattle.bt_bib.specs.inner.Spot.{IsAhead, IsIn};
ghost use Rattle.bt_bib.specs.inner.Stop.{Finds, Gives};
ghost use Rattle.bt_bib.specs.Names.{name_ended, name, word};

use crate::fault::{ItemFault, NameRole};
use crate::reader::Reader;
use crate::spot::Spot;
use crate::stop::ReadStop;
use bt_text::{Bytes, Shared, is_digit, is_name_byte, is_white};

fn is_one_of(signs: &[u8], byte: u8) -> bool
    ensures { result ≡ list_any (λ sign. sign == byte) signs.now }
{
    signs.iter().any(|sign| *sign == byte)
}

fn is_small(byte: u8) -> bool
    ensures { result ≡ is_small byte }
{
    matches!(byte, b'a'..=b'z')
}

/// Whether names may hold a byte. Most bytes of names are small letters, and for these one comparison is enough.
#[tactic(auto, using(crate::proofs::RunLemmas::small_named))]
fn may_be_in_name(byte: u8) -> bool
    ensures { result ≡ is_name_byte byte }
{
    is_small(byte) || is_name_byte(byte)
}

/// Whether a name may begin with a byte: any byte of names but a digit.
#[tactic(auto, using(crate::proofs::RunLemmas::small_begins))]
fn may_begin_name(byte: u8) -> bool
    ensures { result ≡ is_name_byte byte && not (is_digit byte) }
{
    is_small(byte) || (is_name_byte(byte) && !is_digit(byte))
}

/// How many bytes of names the text begins with.
fn name_bytes_len(text: &[u8]) -> usize
    ensures within { result ≤ length text.now }
    ensures len { result ≡ length (take_while is_name_byte text.now) }
{
    text.iter()
        .take_while(|byte| may_be_in_name(**byte))
        .count()
}

impl Reader<'_> {
    /// The place after the longest run of name bytes. No name byte is a line feed, so the line stays the same.
    fn after_name(&self, from: Spot) -> Spot
        requires { IsIn self.now.text.now from }
        ensures value { here self.now.text.now result ≡ after_run is_name_byte (here self.now.text.now from) }
        ensures inside { IsAhead self.now.text.now from result }
    {
        let len = name_bytes_len(&self.text[from.place..]);
        Spot {
            place: from.place + len,
            line: from.line,
        }
    }

    /// The longest run of name bytes, which must not begin with a digit. It stops with `EndOfFile` at the end of the text, and
    /// with `MissingName` if no name begins here.
    #[tactic(auto, unfolding(crate::specs::Names::word))]
    #[inline(always)]
    pub fn word(&self, from: Spot, what: NameRole) -> Result<(Shared<Bytes>, Spot), ReadStop>
        requires { IsIn self.now.text.now from }
        ensures { Gives self.now.text.now from result (word what (here self.now.text.now from)) }
    {
        let Some(byte) = self.peek(from) else {
            return Err(ReadStop::Stopped(ItemFault::EndOfFile, from));
        };
        if may_begin_name(byte) {
            let end = self.after_name(from);
            let name = self.name_of(&self.text[from.place..end.place])?;
            Ok((name, end))
        } else {
            Err(ReadStop::Stopped(ItemFault::MissingName(what), from))
        }
    }

    /// This place, which must be followed by white space, the text's end or one of `signs`.
    #[tactic(auto, unfolding(crate::specs::Names::name_ended))]
    pub fn ended(&self, from: Spot, what: NameRole, signs: &[u8]) -> Result<Spot, ReadStop>
        requires { IsIn self.now.text.now from }
        ensures { Finds self.now.text.now from result (name_ended what signs.now (here self.now.text.now from)) }
    {
        let Some(byte) = self.peek(from) else {
            return Ok(from);
        };
        if is_white(byte) || is_one_of(signs, byte) {
            Ok(from)
        } else {
            Err(ReadStop::Stopped(ItemFault::BadNameEnd(what, byte), from))
        }
    }

    /// A name, which must be followed by white space, the text's end or one of `signs`.
    #[tactic(auto, unfolding(crate::specs::Names::name))]
    pub fn name(
        &self,
        from: Spot,
        what: NameRole,
        signs: &[u8],
    ) -> Result<(Shared<Bytes>, Spot), ReadStop>
        requires { IsIn self.now.text.now from }
        ensures { Gives self.now.text.now from result (name what signs.now (here self.now.text.now from)) }
    {
        let (word, end) = self.word(from, what)?;
        let end = self.ended(end, what, signs)?;
        Ok((word, end))
    }
}
