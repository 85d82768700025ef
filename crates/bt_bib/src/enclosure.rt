//! What braces and quotes enclose.
//!
//! The specification ends the text at the first closing sign before which there are as many left braces as right ones.
//! The code counts open braces instead, and `memchr3` finds the next byte that can matter. Deep nesting costs neither
//! recursion nor memory.

ghost use Rattle.std.specs.Prelude.{◌≡◌, ◌<◌, ◌+◌, ◌^◌};
ghost use Rattle.bt_bib.specs.Spot.{here};
ghost use Rattle.bt_bib.specs.inner.Spot.{IsAhead, IsIn};
ghost use Rattle.bt_bib.specs.Enclosure.{enclosed};
ghost use Rattle.bt_bib.specs.inner.Enclosure.{enclosed_end, is_plain, turn, IsNear, IsPlainUpto};
ghost use Rattle.bt_bib.specs.inner.Stop.{Finds, Gives};

use crate::fault::ItemFault;
use crate::reader::Reader;
use crate::spot::Spot;
use crate::stop::ReadStop;
use bt_text::Excerpt;
use memchr::memchr3;

/// How many bytes are searched at once. From 192 bytes on, `memchr3` is made for hits that are far away, and finds near
/// ones more slowly.
const NEAR: usize = 160;

/// What a byte does inside braces or quotes.
#[derive(Clone, Copy, PartialEq, Eq)]
pub enum Turn {
    /// It ends the enclosed text.
    Closes,
    /// It is a right brace without a left one.
    Breaks,
    /// It leaves this many inner braces open.
    Goes(usize),
}

impl Turn {
    /// What a byte does while `depth` inner braces are open.
    fn of(close: u8, depth: usize, byte: u8) -> Turn
        requires { depth + 1 < 2 ^ 64 }
        ensures value { result ≡ turn close depth byte }
        ensures near { IsNear (depth + 1) result }
    {
        if byte == close && depth == 0 {
            Turn::Closes
        } else if byte == b'{' {
            Turn::Goes(depth + 1)
        } else if byte == b'}' {
            if depth == 0 {
                Turn::Breaks
            } else {
                Turn::Goes(depth - 1)
            }
        } else {
            Turn::Goes(depth)
        }
    }
}

/// Whether a byte is neither a brace nor the closing sign.
fn is_plain(close: u8, byte: u8) -> bool
    ensures { result ≡ is_plain close byte }
{
    !(byte == close || byte == b'{' || byte == b'}')
}

impl Reader<'_> {
    /// Skips plain bytes: the place of the next byte that matters, or one before it, because a search covers at most `NEAR`
    /// bytes and, between braces, stops at line feeds.
    fn past_plain(&self, from: Spot, close: u8) -> Spot
        requires { IsIn self.now.text.now from }
        ensures value { IsPlainUpto close self.now.text.now from result }
        ensures inside { IsAhead self.now.text.now from result }
    {
        if from.place < self.text.len() && !is_plain(close, self.text[from.place]) {
            return from;
        }
        let rest = &self.text[from.place..];
        let near = &rest[..rest.len().min(NEAR)];
        if close == b'}' {
            // The search stops at line feeds too, so none has to be counted.
            let count = memchr3(b'\n', b'{', b'}', near).unwrap_or(near.len());
            Spot {
                place: from.place + count,
                line: from.line,
            }
        } else {
            let count = memchr3(close, b'{', b'}', near).unwrap_or(near.len());
            self.ahead(from, count)
        }
    }

    /// The place of the byte that closes the text. It stops with `EndOfFile`, or with `UnbalancedBraces` at a right brace too
    /// many.
    fn enclosed_end(&self, from: Spot, close: u8) -> Result<Spot, ReadStop>
        requires { IsIn self.now.text.now from }
        ensures { Finds self.now.text.now from result (enclosed_end close (here self.now.text.now from)) }
    {
        let mut at = from;
        let mut depth = 0;
        'bytes: loop {
            let next = self.past_plain(at, close);
            if next.place >= self.text.len() {
                return Err(ReadStop::Stopped(ItemFault::EndOfFile, next));
            }
            let byte = self.text[next.place];
            match Turn::of(close, depth, byte) {
                Turn::Closes => return Ok(next),
                Turn::Breaks => return Err(ReadStop::Stopped(ItemFault::UnbalancedBraces, next)),
                Turn::Goes(open) => depth = open,
            }
            at = next.after(byte);
        }
    }

    /// The text from here up to the byte that closes it, and that byte's place.
    #[tactic(auto, using(crate::proofs::EnclosedLemmas::enclosed_found, crate::proofs::EnclosedLemmas::enclosed_stopped))]
    pub fn enclosed(&self, from: Spot, close: u8) -> Result<(Excerpt, Spot), ReadStop>
        requires { IsIn self.now.text.now from }
        ensures { Gives self.now.text.now from result (enclosed close (here self.now.text.now from)) }
    {
        let end = self.enclosed_end(from, close)?;
        Ok((self.excerpt(from.place, end.place)?, end))
    }
}
