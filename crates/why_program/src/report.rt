//! The report for people.

use crate::options::Format;
use bt_bib::Entry;
use bt_log::{Message, Rank, Said};
use bt_origins::{Explained, Sources, decimal};
use bt_run::Step;
use bt_style::{Builtin, Target};
use bt_text::Bytes;
use bt_why::{Line, Piece, Rerun, Site, Written, line_bytes, pieces};
use std::alloc::AllocError;

/// How many calls of a piece are shown beside the outermost one, unless it is the only one.
const CALLS: usize = 3;

const ALL_CALLS: usize = usize::MAX;
/// How many bytes of a line, of a piece and of a source fit their columns.
const LINE_WIDTH: usize = 90;

const TEXT_WIDTH: usize = 26;

const SOURCE_WIDTH: usize = 42;

/// A row of a report.
#[derive(Drop)]
struct Row {
    column: Bytes,
    text: Bytes,
    source: Bytes,
    calls: Bytes,
}

/// A report.
#[derive(Drop)]
pub struct Report<'a> {
    pub sources: Sources<'a>,
    /// The name of the bibliography.
    file: &'a [u8],
    is_exact: bool,
    pub format: Format,
    pub text: Bytes,
}

fn steps_of(line: &[Written], steps: &mut Vec<usize>) -> Result<(), AllocError> {
    for written in line {
        if !steps.contains(&written.step) {
            steps.push(written.step)?;
        }
    }
    Ok(())
}

fn is_asked(piece: Piece, column: Option<usize>) -> bool {
    match column {
        Some(column) => piece.from < column && column <= piece.to,
        None => true,
    }
}

impl<'a> Report<'a> {
    pub fn new(sources: Sources<'a>, file: &'a [u8], is_exact: bool, format: Format) -> Report<'a> {
        Report {
            sources,
            file,
            is_exact,
            format,
            text: Bytes::new(sources.alloc),
        }
    }

    /// A text that fits a column: the beginning of one that is longer.
    fn fitting(&self, text: &[u8], width: usize) -> Result<Bytes, AllocError> {
        if text.len() <= width {
            return Bytes::copied(self.sources.alloc, text);
        }
        let front = text.get(..width.saturating_sub(2)).unwrap_or(text);
        Bytes::of(self.sources.alloc, &[front, b".."])
    }

    /// Adds a text and the spaces that fill its column.
    fn add_cell(&mut self, text: &[u8], width: usize) -> Result<(), AllocError> {
        self.text.append(text)?;
        for _ in text.len()..width {
            self.text.append(b" ")?;
        }
        Ok(())
    }

    fn add_target(&mut self, target: Target) -> Result<(), AllocError> {
        match target {
            Target::Function(function) => {
                let name = self.sources.function_name(function);
                self.text.append(name)
            }
            Target::Builtin(Builtin::CallType) => self.text.append(b"call.type$"),
            _ => self.text.append(b".."),
        }
    }

    fn add_entry(&mut self, key: &[u8]) -> Result<(), AllocError> {
        self.text.append_all(&[b", for ", key])?;
        let Some(place) = self.sources.places.entry(key)? else {
            return Ok(());
        };
        let entry: &'a Entry = place.entry;
        let kind: &[u8] = match &entry.kind {
            Some(kind) => kind.as_slice(),
            None => &[],
        };
        let line = decimal(self.sources.alloc, place.line())?;
        self.text.append_all(&[b" (@", kind, b", ", place.file, b":", line.as_slice(), b")"])
    }

    fn add_step(&mut self, number: usize) -> Result<(), AllocError> {
        let sources = self.sources;
        let Some(step) = sources.step(number) else {
            return Ok(());
        };
        let step: &'a Step = step;
        let word = sources.command_word(step.command);
        let line = decimal(sources.alloc, sources.command_line(step.command))?;
        self.text.append_all(&[b"  ", word, b" {"])?;
        self.add_target(step.input.target)?;
        self.text
            .append_all(&[b"} (", sources.style_name, b":", line.as_slice(), b")"])?;
        if let Some(key) = sources.key(number) {
            self.add_entry(key)?;
        }
        self.text.append(b"\n")
    }

    fn row(&self, line: &[Written], piece: Piece, calls: usize) -> Result<Row, AllocError> {
        let sources = self.sources;
        let written = line.get(piece.from..piece.to).unwrap_or(&[]);
        let text = line_bytes(sources.alloc, written)?;
        let own = match written.first() {
            Some(first) => sources.key(first.step),
            None => None,
        };
        let source = sources.words(own, piece.mark)?;
        let chain = match sources.mark(piece.mark) {
            Some(mark) => sources.chain(mark.site, calls)?,
            None => Bytes::new(sources.alloc),
        };
        Ok(Row {
            column: decimal(sources.alloc, piece.from.saturating_add(1))?,
            text: self.fitting(text.as_slice(), TEXT_WIDTH)?,
            source,
            calls: chain,
        })
    }

    fn add_rows(&mut self, rows: &[Row]) -> Result<(), AllocError> {
        let mut width = 0usize;
        let mut source_width = 0usize;
        for row in rows {
            width = width.max(row.text.len());
            source_width = source_width.max(row.source.len().min(SOURCE_WIDTH));
        }
        for row in rows {
            for _ in row.column.len()..5 {
                self.text.append(b" ")?;
            }
            self.text.append_all(&[row.column.as_slice(), b"  "])?;
            self.add_cell(row.text.as_slice(), width)?;
            self.text.append(b"  ")?;
            if row.calls.len() > 0 {
                self.add_cell(row.source.as_slice(), source_width)?;
                self.text.append_all(&[b"  ", row.calls.as_slice()])?;
            } else {
                self.text.append(row.source.as_slice())?;
            }
            self.text.append(b"\n")?;
        }
        Ok(())
    }

    /// The pieces of a line, or the one at a column.
    fn asked(&self, line: &[Written], column: Option<usize>) -> Result<Vec<Piece>, AllocError> {
        let sources = self.sources;
        let marks = &sources.explained.machine.marks;
        let mut asked = Vec::new(sources.alloc);
        for piece in pieces(sources.alloc, marks, line, self.is_exact)? {
            if is_asked(piece, column) {
                asked.push(piece)?;
            }
        }
        Ok(asked)
    }

    fn add_head(&mut self, number: usize, line: &[Written]) -> Result<(), AllocError> {
        let sources = self.sources;
        let bytes = line_bytes(sources.alloc, line)?;
        let bytes = self.fitting(bytes.as_slice(), LINE_WIDTH)?;
        let number = decimal(sources.alloc, number)?;
        self.text.append_all(&[
            self.file,
            b":",
            number.as_slice(),
            b": ",
            bytes.as_slice(),
            b"\n",
        ])?;
        let mut steps = Vec::new(sources.alloc);
        steps_of(line, &mut steps)?;
        for step in &steps {
            self.add_step(*step)?;
        }
        Ok(())
    }

    fn add_text_line(
        &mut self,
        number: usize,
        line: &[Written],
        pieces: &[Piece],
        calls: usize,
    ) -> Result<(), AllocError> {
        let mut rows = Vec::new(self.sources.alloc);
        for piece in pieces {
            rows.push(self.row(line, *piece, calls)?)?;
        }
        self.add_head(number, line)?;
        self.add_rows(rows.as_slice())
    }

    fn add_json_line(
        &mut self,
        number: usize,
        line: &[Written],
        pieces: &[Piece],
    ) -> Result<(), AllocError> {
        for piece in pieces {
            self.add_json_piece(number, line, *piece)?;
        }
        Ok(())
    }

    /// Adds a line, its steps and its pieces, or the piece at a column. It says whether that is there.
    pub fn add_line(
        &mut self,
        number: usize,
        line: &Line,
        column: Option<usize>,
    ) -> Result<bool, AllocError> {
        let line = line.as_slice();
        let pieces = self.asked(line, column)?;
        if pieces.is_empty() && column.is_some() {
            return Ok(false);
        }
        let calls = if column.is_some() { ALL_CALLS } else { CALLS };
        match self.format {
            Format::Text => self.add_text_line(number, line, pieces.as_slice(), calls)?,
            Format::Json => self.add_json_line(number, line, pieces.as_slice())?,
        }
        Ok(true)
    }

    fn add_words(&mut self, message: &Message) -> Result<(), AllocError> {
        match &message.said {
            Said::Words(words) => self.text.append_all(&[words.as_slice(), b"\n"]),
            Said::OfFile { .. } => Ok(()),
        }
    }

    fn add_message(
        &mut self,
        message: &Message,
        site: Site,
        step: usize,
    ) -> Result<(), AllocError> {
        let sources = self.sources;
        if self.format == Format::Json {
            return self.add_json_message(message, site, sources.key(step));
        }
        self.add_words(message)?;
        self.add_step(step)?;
        let chain = sources.chain(site, ALL_CALLS)?;
        if chain.len() > 0 {
            self.text.append_all(&[b"  in ", chain.as_slice(), b"\n"])?;
        }
        Ok(())
    }

    /// Adds the messages of a step, but for what the style logs.
    fn add_messages_of(&mut self, number: usize, step: &Rerun) -> Result<(), AllocError> {
        for (message, site) in step.messages.as_slice().iter().zip(step.left.sites.iter()) {
            if message.rank != Rank::Note {
                self.add_message(message, *site, number)?;
            }
        }
        Ok(())
    }

    /// Adds the messages of the style, or those about an entry.
    pub fn add_messages(&mut self, key: Option<&[u8]>) -> Result<(), AllocError> {
        let sources = self.sources;
        let explained: &'a Explained<'a> = sources.explained;
        for (number, step) in explained.steps.iter().enumerate() {
            let is_asked = match key {
                Some(key) => sources.is_of(number, key),
                None => true,
            };
            if is_asked {
                self.add_messages_of(number, step)?;
            }
        }
        Ok(())
    }
}
