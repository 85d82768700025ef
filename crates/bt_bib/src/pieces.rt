//! What begins with an `@`: comment words, strings, preambles and entries.
//!
//! A fault doesn't lose what was read before it: a faulty entry keeps its type, its key and its complete fields, since
//! BibTeX still uses them. So a reader of items fails only when memory runs out; it turns any other stop into the
//! item's end and fault. `read_string` and `read_preamble` fill a value that their caller owns, so that a `?` loses
//! nothing.

ghost use Rattle.std.specs.Prelude.{◌≡◌, [], None, IfOk};
ghost use Rattle.bt_bib.specs.Spot.{here, item_start};
ghost use Rattle.bt_bib.specs.inner.Spot.{IsIn};
ghost use Rattle.bt_bib.specs.inner.Stop.{Fills, Finds, Gives, Makes};
ghost use Rattle.bt_bib.specs.Keywords.{keyword_of};
ghost use Rattle.bt_bib.specs.Pieces.{after_closing, entry_item, opening, piece, preamble_item, string_item, item_of_type, unread_entry, unread_string};
ghost use Rattle.bt_bib.specs.inner.Cases.{preamble_read, string_read};
ghost use Rattle.bt_bib.specs.inner.Pieces.{IsItem};

use crate::fault::{ItemFault, NameRole};
use crate::item::{Closing, Content, Definition, Entry, Field, Item, Piece};
use crate::keywords::Keyword;
use crate::reader::Reader;
use crate::scan::Class;
use crate::spot::Spot;
use crate::stop::ReadStop;
use crate::value_parts::ValueParts;
use bt_text::{Bytes, Sequence, Shared};
use std::alloc::{AllocError, Global};

/// How many fields there is room for at first. Most entries have no more.
const FIELDS: usize = 16;

/// A complete item, or one that ends at its fault.
fn item(
    line: usize,
    content: Content,
    close: Option<Closing>,
    end: Result<Spot, ReadStop>,
) -> Result<(Piece, Spot), AllocError>
    ensures { IfOk result (IsItem line content close end) }
{
    let (end, fault) = match end {
        Ok(end) => (end, None),
        Err(halt) => match halt {
            ReadStop::Stopped(fault, end) => (end, Some(fault)),
            ReadStop::OutOfMemory => return Err(AllocError),
        },
    };
    let item = Item {
        line,
        content,
        close,
        fault,
    };
    Ok((Piece::Item(item), end))
}

/// An item whose fault comes before its opening sign.
fn unopened(content: Content, halt: ReadStop) -> Result<(Piece, Spot), AllocError>
    ensures { IfOk result (IsItem 0 content None (Err halt)) }
{
    item(0, content, None, Err(halt))
}

/// An entry of which only the type was read, or nothing.
fn unread_entry(alloc: Global, kind: Option<Shared<Bytes>>) -> Content
    ensures { result ≡ unread_entry kind }
{
    Content::Entry(Entry {
        kind,
        key: None,
        fields: Sequence::new(alloc),
    })
}

impl Reader<'_> {
    #[tactic(auto, unfolding(crate::specs::Pieces::opening))]
    fn opening(&self, from: Spot) -> Result<(Closing, Spot), ReadStop>
        requires { IsIn self.now.text.now from }
        ensures { Gives self.now.text.now from result (opening (here self.now.text.now from)) }
    {
        let Some(byte) = self.peek(from) else {
            return Err(ReadStop::Stopped(ItemFault::EndOfFile, from));
        };
        if byte == b'{' {
            Ok((Closing::Brace, self.after_byte(from)))
        } else if byte == b'(' {
            Ok((Closing::Parenthesis, self.after_byte(from)))
        } else {
            Err(ReadStop::Stopped(ItemFault::ExpectedOpen, from))
        }
    }

    fn after_closing(&self, from: Spot, close: Closing) -> Result<Spot, ReadStop>
        requires { IsIn self.now.text.now from }
        ensures { Finds self.now.text.now from result (after_closing close (here self.now.text.now from)) }
    {
        self.sign(from, close.sign(), ItemFault::ExpectedCommaOrClose)
    }

    /// These fields. If items are kept, they take no more memory than they need.
    fn kept_fields(&self, fields: Sequence<Field>) -> Sequence<Field>
        ensures { result ≡ fields }
    {
        if !self.keeps {
            return fields;
        }
        let mut fields = fields.into_vec();
        fields.shrink_to_fit();
        Sequence::from_vec(fields)
    }

    fn entry_item(
        &self,
        kind: Shared<Bytes>,
        close: Closing,
        from: Spot,
    ) -> Result<(Piece, Spot), AllocError>
        requires { IsIn self.now.text.now from }
        ensures { Makes self.now.text.now from result (entry_item kind close (here self.now.text.now from)) }
    {
        let (key, end) = self.run(from, Class::Key(close))?;
        let mut found = Sequence::from_vec(Vec::with_capacity(self.alloc, FIELDS)?);
        let end = self.fields(self.after_white(end), close, &mut found);
        let entry = Entry {
            kind: Some(kind),
            key: Some(key),
            fields: self.kept_fields(found),
        };
        item(from.line, Content::Entry(entry), Some(close), end)
    }

    /// Reads a string into `found`, from its name up to its end or its fault.
    fn read_string(
        &self,
        from: Spot,
        close: Closing,
        found: &mut Definition,
    ) -> Result<Spot, ReadStop>
        requires at { IsIn self.now.text.now from }
        requires unread { Content.Define found.old ≡ unread_string }
        ensures { Fills self.now.text.now from result found.new (string_read close (here self.now.text.now from)) }
    {
        let (name, end) = self.name(from, NameRole::StringName, b"=")?;
        found.name = Some(name);
        let equals = self.sign(self.after_white(end), b'=', ItemFault::ExpectedEquals)?;
        let (value, end) = self.value(self.after_white(equals), close)?;
        found.value = Some(value);
        self.after_closing(end, close)
    }

    fn string_item(&self, close: Closing, from: Spot) -> Result<(Piece, Spot), AllocError>
        requires { IsIn self.now.text.now from }
        ensures { Makes self.now.text.now from result (string_item close (here self.now.text.now from)) }
    {
        let mut found = Definition {
            name: None,
            value: None,
        };
        let end = self.read_string(from, close, &mut found);
        let line = match &found.name {
            Some(_) => from.line,
            None => 0,
        };
        item(line, Content::Define(found), Some(close), end)
    }

    /// Reads a preamble into `found`, from its value up to its end or its fault.
    fn read_preamble(
        &self,
        from: Spot,
        close: Closing,
        found: &mut Option<ValueParts>,
    ) -> Result<Spot, ReadStop>
        requires at { IsIn self.now.text.now from }
        requires unread { found.old ≡ None }
        ensures { Fills self.now.text.now from result found.new (preamble_read close (here self.now.text.now from)) }
    {
        let (value, end) = self.value(from, close)?;
        *found = Some(value);
        self.after_closing(end, close)
    }

    fn preamble_item(&self, close: Closing, from: Spot) -> Result<(Piece, Spot), AllocError>
        requires { IsIn self.now.text.now from }
        ensures { Makes self.now.text.now from result (preamble_item close (here self.now.text.now from)) }
    {
        let mut found = None;
        let end = self.read_preamble(from, close, &mut found);
        item(0, Content::Preamble(found), Some(close), end)
    }

    fn string(&self, from: Spot) -> Result<(Piece, Spot), AllocError>
        requires { IsIn self.now.text.now from }
        ensures { Makes self.now.text.now from result
            (item_of_type Keyword.String [] (here self.now.text.now from)) }
    {
        match self.opening(self.after_white(from)) {
            Err(halt) => {
                let unread = Definition {
                    name: None,
                    value: None,
                };
                unopened(Content::Define(unread), halt)
            }
            Ok(opened) => self.string_item(opened.0, self.after_white(opened.1)),
        }
    }

    fn preamble(&self, from: Spot) -> Result<(Piece, Spot), AllocError>
        requires { IsIn self.now.text.now from }
        ensures { Makes self.now.text.now from result
            (item_of_type Keyword.Preamble [] (here self.now.text.now from)) }
    {
        match self.opening(self.after_white(from)) {
            Err(halt) => unopened(Content::Preamble(None), halt),
            Ok(opened) => self.preamble_item(opened.0, self.after_white(opened.1)),
        }
    }

    fn entry(&self, kind: Shared<Bytes>, from: Spot) -> Result<(Piece, Spot), AllocError>
        requires { IsIn self.now.text.now from }
        ensures { Makes self.now.text.now from result
            (item_of_type Keyword.Entry kind (here self.now.text.now from)) }
    {
        match self.opening(self.after_white(from)) {
            Err(halt) => unopened(unread_entry(self.alloc, Some(kind)), halt),
            Ok(opened) => self.entry_item(kind, opened.0, self.after_white(opened.1)),
        }
    }

    fn typed(&self, kind: Shared<Bytes>, from: Spot) -> Result<(Piece, Spot), AllocError>
        requires { IsIn self.now.text.now from }
        ensures { Makes self.now.text.now from result
            (item_of_type (keyword_of kind) kind (here self.now.text.now from)) }
    {
        match Keyword::of(kind.as_slice()) {
            Keyword::Comment => Ok((Piece::Comment, from)),
            Keyword::String => self.string(from),
            Keyword::Preamble => self.preamble(from),
            Keyword::Entry => self.entry(kind, from),
        }
    }

    /// The comment word or item that begins with the text's first byte, which must be an `@`.
    #[tactic(auto, unfolding(crate::specs::Pieces::piece))]
    pub fn piece(&self) -> Result<(Piece, Spot), AllocError>
        ensures { Makes self.now.text.now item_start result (piece self.now.text.now) }
    {
        let from = self.after_white(self.after_byte(Spot::ITEM_START));
        let (kind, end) = match self.word(from, NameRole::EntryType) {
            Ok(read) => read,
            Err(halt) => return unopened(unread_entry(self.alloc, None), halt),
        };
        match self.ended(end, NameRole::EntryType, b"{(") {
            Ok(end) => self.typed(kind, end),
            Err(halt) => unopened(unread_entry(self.alloc, Some(kind)), halt),
        }
    }
}
