//! Marks in words.

use crate::explained::{Explained, line_of, place_of};
use crate::places::{PlacedField, Places};
use bt_run::{Kept, Step};
use bt_style::{Action, Builtin, Style};
use bt_text::{Bytes, Shared, eq_ignore_ascii_case};
use bt_why::{Mark, Site, Source};
use std::alloc::{AllocError, Global};

/// A number in decimal.
pub fn decimal(alloc: Global, number: usize) -> Result<Bytes, AllocError> {
    Bytes::copied(alloc, format!(in alloc; "{number}")?.as_bytes())
}

/// What marks are put into words with.
#[derive(Clone, Copy)]
pub struct Sources<'a> {
    pub alloc: Global,
    pub kept: &'a Kept,
    pub style: &'a Style,
    /// The name of the style's file.
    pub style_name: &'a [u8],
    pub explained: &'a Explained<'a>,
    pub places: &'a Places<'a>,
}

fn is_key(own: Option<&[u8]>, key: &[u8]) -> bool {
    match own {
        Some(own) => eq_ignore_ascii_case(own, key),
        None => false,
    }
}

impl<'a> Sources<'a> {
    pub fn step(self, number: usize) -> Option<&'a Step> {
        let steps: &'a [Shared<Step>] = self.kept.steps.as_slice();
        Some(&**steps.get(number)?)
    }

    /// The key of a step's entry.
    pub fn key(self, step: usize) -> Option<&'a [u8]> {
        let step: &'a Step = self.step(step)?;
        match &step.key {
            Some(key) => Some(key.as_slice()),
            None => None,
        }
    }

    /// The place in the list of a step's entry.
    pub fn entry_place(self, step: usize) -> Option<usize> {
        place_of(self.kept, step)
    }

    /// Whether a step is for the entry with this key.
    pub fn is_of(self, step: usize, key: &[u8]) -> bool {
        match self.key(step) {
            Some(own) => eq_ignore_ascii_case(own, key),
            None => false,
        }
    }

    /// Whether the list has an entry of this key.
    pub fn has_key(self, key: &[u8]) -> bool {
        self.kept
            .entries
            .as_slice()
            .iter()
            .any(|entry| eq_ignore_ascii_case(entry.key.as_slice(), key))
    }

    pub fn mark(self, number: usize) -> Option<Mark> {
        self.explained.machine.marks.mark(number)
    }

    /// The mark at the root of a mark.
    pub fn root(self, number: usize) -> Option<Mark> {
        self.mark(self.explained.machine.marks.root(number)?)
    }

    pub fn step_of(self, site: Site) -> Option<usize> {
        self.explained.machine.marks.step(site)
    }

    pub fn field_name(self, field: usize) -> &'a [u8] {
        let names: &'a [Bytes] = self.style.fields.as_slice();
        match names.get(field) {
            Some(name) => name.as_slice(),
            None => &[],
        }
    }

    pub fn function_name(self, function: usize) -> &'a [u8] {
        let style: &'a Style = self.style;
        match style.functions.get(function) {
            Some(function) => function.name.as_slice(),
            None => &[],
        }
    }

    pub fn makers(self, mark: usize) -> Result<Vec<Builtin>, AllocError> {
        self.explained.machine.marks.makers(self.alloc, mark)
    }

    pub fn calls(self, site: Site) -> Result<Vec<(usize, usize)>, AllocError> {
        self.explained.machine.marks.calls_of(self.alloc, site)
    }

    /// Whether the entry `own` has or inherits a field from the entry of another key, which may be its own.
    pub fn has_from(self, own: &[u8], name: &[u8], key: &[u8]) -> Result<bool, AllocError> {
        match self.places.field(own, name)? {
            Some(place) => Ok(eq_ignore_ascii_case(place.key, key)),
            None => Ok(eq_ignore_ascii_case(own, key)),
        }
    }

    /// Whether what has a mark comes from a field of an entry.
    pub fn is_from(self, mark: usize, key: &[u8], name: &[u8]) -> Result<bool, AllocError> {
        let Some(Mark { source, site }) = self.root(mark) else {
            return Ok(false);
        };
        match (source, self.key_of(site)) {
            (Source::Field(field), Some(own))
                if eq_ignore_ascii_case(self.field_name(field), name) => {
                self.has_from(own, name, key)
            }
            _ => Ok(false),
        }
    }

    /// The key of the entry in whose step a word ran.
    fn key_of(self, site: Site) -> Option<&'a [u8]> {
        self.key(self.step_of(site)?)
    }

    /// Where the field of a mark stands, if a database has it.
    pub fn place(self, mark: Mark, field: usize) -> Result<Option<PlacedField<'a>>, AllocError> {
        match self.key_of(mark.site) {
            Some(key) => self.places.field(key, self.field_name(field)),
            None => Ok(None),
        }
    }

    /// A field with its place, and with the entry that has it, if that isn't this one.
    fn add_field(
        self,
        words: &mut Bytes,
        own: Option<&[u8]>,
        mark: Mark,
        field: usize,
    ) -> Result<(), AllocError> {
        let name = self.field_name(field);
        let Some(place) = self.place(mark, field)? else {
            return words.append(name);
        };
        if !is_key(own, place.key) {
            words.append_all(&[place.key, b"."])?;
        }
        let line = decimal(self.alloc, place.line)?;
        words.append_all(&[name, b" ", place.file, b":", line.as_slice()])
    }

    fn add_source(
        self,
        words: &mut Bytes,
        own: Option<&[u8]>,
        root: Option<Mark>,
    ) -> Result<(), AllocError> {
        let Some(mark) = root else {
            return words.append(b"an integer");
        };
        match mark.source {
            Source::Field(field) => self.add_field(words, own, mark, field),
            Source::Literal(_) => words.append(b"\""),
            Source::Quote => words.append(b"quote$"),
            Source::Key => words.append(b"cite$"),
            Source::Type => words.append(b"type$"),
            Source::Preamble => words.append(b"preamble$"),
            Source::Indent => words.append(b"a line break"),
            Source::Put(_) => words.append(b"added"),
            Source::Made(_, _) | Source::Added(_, _) => Ok(()),
        }
    }

    /// What a mark says, in words; `own` is the key of the entry whose line it is in.
    pub fn words(self, own: Option<&[u8]>, mark: usize) -> Result<Bytes, AllocError> {
        let mut words = Bytes::new(self.alloc);
        self.add_source(&mut words, own, self.root(mark))?;
        let mut between: &[u8] = b" by ";
        for builtin in self.makers(mark)? {
            words.append_all(&[between, builtin.name()])?;
            between = b", ";
        }
        Ok(words)
    }

    /// The functions in which a word ran, the innermost first, each with its line: at most so many, and the last one.
    pub fn chain(self, site: Site, most: usize) -> Result<Bytes, AllocError> {
        let calls = self.calls(site)?;
        let mut words = Bytes::new(self.alloc);
        let count = calls.len();
        for (place, (function, line)) in calls.iter().enumerate() {
            if place < most || place.saturating_add(1) == count {
                let between: &[u8] = if place == 0 {
                    b""
                } else if place > most {
                    b" < .. "
                } else {
                    b" < "
                };
                let line = decimal(self.alloc, *line)?;
                let name = self.function_name(*function);
                words.append_all(&[between, name, b":", line.as_slice()])?;
            }
        }
        Ok(words)
    }

    /// The word of a step's command.
    pub fn command_word(self, command: usize) -> &'static [u8] {
        let commands = self.style.commands.as_slice();
        match commands.get(command).map(|command| command.action) {
            Some(Action::Iterate(_)) => b"ITERATE",
            Some(Action::Reverse(_)) => b"REVERSE",
            _ => b"EXECUTE",
        }
    }

    pub fn command_line(self, command: usize) -> usize {
        line_of(self.style, command)
    }
}
