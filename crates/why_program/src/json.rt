//! The report as JSON, an object a line.

use crate::report::Report;
use bt_log::{Message, Said};
use bt_origins::{Fate, decimal};
use bt_programs::append_json_string;
use bt_text::Bytes;
use bt_why::{Mark, Piece, Site, Source, Written, line_bytes};
use std::alloc::AllocError;

fn source_name(source: Option<Source>) -> &'static [u8] {
    match source {
        Some(Source::Literal(_)) => b"literal",
        Some(Source::Field(_)) => b"field",
        Some(Source::Quote) => b"quote$",
        Some(Source::Key) => b"cite$",
        Some(Source::Type) => b"type$",
        Some(Source::Preamble) => b"preamble$",
        Some(Source::Indent) => b"line break",
        Some(Source::Put(_)) => b"added",
        _ => b"number",
    }
}

impl<'a> Report<'a> {
    /// Begins a member of the object: `before` is what separates it from the one before.
    fn member<'x>(&mut self, before: &'x [u8], name: &'x [u8]) -> Result<(), AllocError> {
        self.text.append_all(&[before, b"\"", name, b"\":"])
    }

    fn string(&mut self, before: &[u8], name: &[u8], value: &[u8]) -> Result<(), AllocError> {
        self.member(before, name)?;
        append_json_string(&mut self.text, value)
    }

    fn number(&mut self, before: &[u8], name: &[u8], value: usize) -> Result<(), AllocError> {
        let value = decimal(self.sources.alloc, value)?;
        self.member(before, name)?;
        self.text.append(value.as_slice())
    }

    fn end_list(&mut self, is_empty: bool) -> Result<(), AllocError> {
        if is_empty {
            self.text.append(b"[]")
        } else {
            self.text.append(b"]")
        }
    }

    /// The functions in which a word ran, the innermost first.
    fn calls(&mut self, site: Site) -> Result<(), AllocError> {
        let sources = self.sources;
        self.member(b",", b"calls")?;
        let mut before: &[u8] = b"[{";
        for (function, line) in sources.calls(site)? {
            let name = sources.function_name(function);
            self.string(before, b"function", name)?;
            self.number(b",", b"line", line)?;
            self.text.append(b"}")?;
            before = b",{";
        }
        self.end_list(before == b"[{".as_slice())
    }

    fn field(&mut self, mark: Mark, field: usize) -> Result<(), AllocError> {
        let sources = self.sources;
        self.string(b",", b"field", sources.field_name(field))?;
        if let Some(place) = sources.place(mark, field)? {
            self.string(b",", b"entry", place.key)?;
            self.string(b",", b"file", place.file)?;
            self.number(b",", b"at", place.line)?;
        }
        Ok(())
    }

    fn makers(&mut self, mark: usize) -> Result<(), AllocError> {
        self.member(b",", b"by")?;
        let mut before: &[u8] = b"[";
        for builtin in self.sources.makers(mark)? {
            self.text.append(before)?;
            append_json_string(&mut self.text, builtin.name())?;
            before = b",";
        }
        self.end_list(before == b"[".as_slice())
    }

    fn source(&mut self, mark: usize) -> Result<(), AllocError> {
        let root = self.sources.root(mark);
        let source = root.map(|mark| mark.source);
        self.string(b",", b"source", source_name(source))?;
        if let Some(mark) = root
            && let Source::Field(field) = mark.source
        {
            self.field(mark, field)?;
        }
        self.makers(mark)
    }

    /// A piece of a line.
    pub fn add_json_piece(
        &mut self,
        number: usize,
        line: &[Written],
        piece: Piece,
    ) -> Result<(), AllocError> {
        let written = line.get(piece.from..piece.to).unwrap_or(&[]);
        let text = line_bytes(self.sources.alloc, written)?;
        self.number(b"{", b"line", number)?;
        self.number(b",", b"column", piece.from.saturating_add(1))?;
        self.string(b",", b"text", text.as_slice())?;
        if let Some(first) = written.first() {
            self.number(b",", b"byte", first.marked.at)?;
            if let Some(key) = self.sources.key(first.step) {
                self.string(b",", b"for", key)?;
            }
        }
        self.source(piece.mark)?;
        if let Some(mark) = self.sources.mark(piece.mark) {
            self.calls(mark.site)?;
        }
        self.text.append(b"}\n")
    }

    pub fn add_json_message(
        &mut self,
        message: &Message,
        site: Site,
        key: Option<&[u8]>,
    ) -> Result<(), AllocError> {
        if let Said::Words(words) = &message.said {
            self.string(b"{", b"message", words.as_slice())?;
        }
        if let Some(key) = key {
            self.string(b",", b"for", key)?;
        }
        self.calls(site)?;
        self.text.append(b"}\n")
    }

    /// A field of an entry that isn't in the bibliography.
    pub fn add_json_fate(
        &mut self,
        name: &[u8],
        file: &[u8],
        line: usize,
        fate: Fate,
    ) -> Result<(), AllocError> {
        let is_read: &[u8] = if fate == Fate::Read {
            b"only tested"
        } else {
            b"never read"
        };
        self.string(b"{", b"field", name)?;
        self.string(b",", b"file", file)?;
        self.number(b",", b"at", line)?;
        self.string(b",", b"fate", is_read)?;
        self.text.append(b"}\n")
    }
}
