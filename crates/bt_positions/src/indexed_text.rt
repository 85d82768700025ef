//! A text with the offsets of its lines and its marks, so that a position is found without a pass over the text or its line.

ghost use Rattle.std.specs.Prelude.{◌≡◌, ◌≤◌, ◌<◌, ◌*◌, ◌^◌, length, IfOk};
ghost use Rattle.bt_positions.specs.declared.counting.Counting.TheVariants.{Utf16, LatinAsUtf8};
ghost use Rattle.bt_positions.specs.declared.lines.Lines.TheVariants.{Editor, Bibtex};
ghost use Rattle.bt_positions.specs.Lines.{place_of_line};
ghost use Rattle.bt_positions.specs.Positions.{offset_of, position_of, spliced};
ghost use Rattle.bt_positions.specs.inner.LineStarts.{line_starts, starts_or};
ghost use Rattle.bt_positions.specs.inner.Marks.{marks_of};

use crate::counting::{Counting, fitting};
use crate::lines::{Lines, has_return, line_begin, line_starts, lines_before, own_starts};
use crate::marks::{character_at, line_at, marks_of, spot_near};
use crate::splicing::{Splice, bytes_after, starts_after};
use std::alloc::{AllocError, Global};
use std::marker::Model;

/// A line, and a character of that line in the editor's units, both counted from 0.
#[derive(Clone, Copy, Debug, PartialEq, Eq)]
pub struct Position {
    pub line: usize,
    pub character: usize,
}

/// A text with the offsets of its lines. Contracts see the list of its bytes.
#[derive(Drop)]
pub struct IndexedText {
    bytes: Vec<u8>,
    editor: Vec<usize>,
    /// Where lines begin as messages count them; none if they are the editor's.
    bibtex: Option<Vec<usize>>,
    utf16: Vec<usize>,
    latin: Vec<usize>,
    ghost editor_starts: { editor.items ≡ line_starts Editor 0 bytes.items },
    ghost bibtex_starts: { starts_or bibtex editor.items ≡ line_starts Bibtex 0 bytes.items },
    ghost utf16_marks: { utf16.items ≡ marks_of Utf16 (length utf16.items) bytes.items },
    ghost latin_marks: { latin.items ≡ marks_of LatinAsUtf8 (length latin.items) bytes.items },
}

impl Model for IndexedText {
    ghost use Rattle.std.specs.Prelude.{List, ℕ};

    ghost Value = { List ℕ };

    ghost view = { λ t. t.bytes.items };
}

impl IndexedText {
    /// The text of these bytes.
    pub fn new(alloc: Global, bytes: Vec<u8>) -> Result<IndexedText, AllocError>
        ensures { IfOk result (λ text. text ≡ bytes.items) }
    {
        let editor = line_starts(alloc, Lines::Editor, bytes.as_slice())?;
        let bibtex = own_starts(alloc, bytes.as_slice())?;
        IndexedText::with_starts(alloc, bytes, editor, bibtex)
    }

    fn with_starts(
        alloc: Global,
        bytes: Vec<u8>,
        editor: Vec<usize>,
        bibtex: Option<Vec<usize>>,
    ) -> Result<Self, AllocError>
        requires editor { editor.items ≡ line_starts Editor 0 bytes.items }
        requires bibtex { starts_or bibtex editor.items ≡ line_starts Bibtex 0 bytes.items }
        ensures { IfOk result (λ text. text ≡ bytes.items) }
    {
        let utf16 = marks_of(alloc, Counting::Utf16, bytes.as_slice(), editor.as_slice())?;
        let latin = marks_of(
            alloc,
            Counting::LatinAsUtf8,
            bytes.as_slice(),
            editor.as_slice(),
        )?;
        Ok(IndexedText {
            bytes,
            editor,
            bibtex,
            utf16,
            latin,
        })
    }

    /// A text that is a copy of these bytes.
    pub fn copied(alloc: Global, bytes: &[u8]) -> Result<IndexedText, AllocError>
        ensures { IfOk result (λ text. text ≡ bytes.now) }
    {
        IndexedText::new(alloc, Vec::from_slice(alloc, bytes)?)
    }

    /// The text with a part replaced. The only error is out of memory. This text stays as it is.
    pub fn spliced(&self, alloc: Global, splice: &Splice<'_>) -> Result<IndexedText, AllocError>
        requires in_order { splice.now.start ≤ splice.now.end }
        requires within { splice.now.end ≤ length self.now }
        ensures { IfOk result (λ text. text ≡ spliced splice.now self.now) }
    {
        let text = self.bytes.as_slice();
        let bytes = bytes_after(alloc, text, splice)?;
        if has_return(text) || has_return(bytes.as_slice()) {
            return IndexedText::new(alloc, bytes);
        }
        let editor = starts_after(alloc, text, self.editor.as_slice(), splice)?;
        IndexedText::with_starts(alloc, bytes, editor, None)
    }

    /// The bytes.
    pub fn as_slice(&self) -> &[u8]
        ensures { result.now ≡ self.now }
    {
        self.bytes.as_slice()
    }

    fn starts(&self, lines: Lines) -> &[usize]
        ensures { result.now ≡ line_starts lines 0 self.now }
    {
        match lines {
            Lines::Editor => self.editor.as_slice(),
            Lines::Bibtex => match &self.bibtex {
                Some(own) => own.as_slice(),
                None => self.editor.as_slice(),
            },
        }
    }

    /// The offset at which a line begins, counted from 0; the text's length if it has fewer lines.
    #[tactic(auto, using(crate::proofs::StartLemmas::place_within))]
    pub fn line_begin(&self, lines: Lines, line: u128) -> usize
        ensures value { result ≡ place_of_line lines line self.now }
        ensures within { result ≤ length self.now }
    {
        line_begin(self.bytes.as_slice(), lines, self.starts(lines), line)
    }

    /// Marks of the text in these units. If each byte is a unit, none are needed.
    fn marks(&self, counting: Counting) -> &[usize]
        ensures { result.now ≡ marks_of counting (length result.now) self.now }
    {
        match counting {
            Counting::Utf8 | Counting::LatinAsUtf16 => &[],
            Counting::Utf16 => self.utf16.as_slice(),
            Counting::LatinAsUtf8 => self.latin.as_slice(),
        }
    }

    /// The offset of a position. A character after its line's end gives the line's end, and a line after the last one
    /// gives the text's end. The second unit of a character in UTF-16 gives that character's beginning; in UTF-8 a position
    /// inside a character gives an offset inside it.
    pub fn offset_of(&self, counting: Counting, position: Position) -> usize
        ensures value { result ≡ offset_of counting position self.now }
        ensures within { result ≤ length self.now }
    {
        let text = self.bytes.as_slice();
        let line = line_at(text, self.editor.as_slice(), position.line);
        let spot = spot_near(
            text,
            counting,
            self.marks(counting),
            line,
            position.character,
        );
        let (_, rest) = text.split_at(spot.place);
        spot.place + fitting(counting, position.character - spot.units, rest)
    }

    /// The position of an offset.
    pub fn position_of(&self, counting: Counting, offset: usize) -> Position
        requires within { offset ≤ length self.now }
        requires small { 2 * length self.now < 2 ^ 64 }
        ensures { result ≡ position_of counting offset self.now }
    {
        let line = lines_before(self.bytes.as_slice(), self.editor.as_slice(), offset);
        let start = self.line_begin(Lines::Editor, line as u128).min(offset);
        Position {
            line,
            character: character_at(
                self.bytes.as_slice(),
                counting,
                self.marks(counting),
                start,
                offset,
            ),
        }
    }
}
