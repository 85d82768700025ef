//! The built-in functions on numbers and texts, and those that write.

use crate::machine::Machine;
use crate::values::{Kind, Value};
use bt_actions::{Complaint, Flow};
use bt_marks::{
    Maker, Marked, Source, Text, Written, aligned, break_lines, end_line, formatted, joined,
    name_in, of_mark, part,
};
use bt_names::{FormatFault, count, format};
use bt_style::Builtin;
use bt_text::{
    Bytes, Mode, TEXT_BYTES, add_period, change_case, is_white, part_place, purify, text_length,
    text_prefix, width,
};
use itoa::Buffer;
use std::alloc::AllocError;

/// The change of case that a text names.
fn mode_of(name: &[u8]) -> Option<Mode> {
    match name {
        [b't' | b'T'] => Some(Mode::Title),
        [b'l' | b'L'] => Some(Mode::Lower),
        [b'u' | b'U'] => Some(Mode::Upper),
        _ => None,
    }
}

/// The width of a text; no value has more bytes than a text may have.
fn text_width(text: &[u8]) -> usize {
    if text.len() <= TEXT_BYTES {
        width(text) as usize
    } else {
        0
    }
}

fn truth(holds: bool) -> i32 {
    if holds { 1 } else { 0 }
}

/// Whether two values are equal; none if they can't be compared.
fn are_equal(lower: Option<&Value>, upper: Option<&Value>) -> Option<bool> {
    match (lower?, upper?) {
        (Value::Number(lower), Value::Number(upper)) => Some(lower == upper),
        (Value::Text(lower), Value::Text(upper)) => Some(
            lower.len() == upper.len()
                && lower
                    .iter()
                    .zip(upper.iter())
                    .all(|(a, b)| a.byte == b.byte),
        ),
        _ => None,
    }
}

/// The value of a function of two numbers, if it is in range.
fn of_two(builtin: Builtin, lower: i32, upper: i32) -> Option<i32> {
    match builtin {
        Builtin::Greater => Some(truth(lower > upper)),
        Builtin::Less => Some(truth(lower < upper)),
        Builtin::Plus => lower.checked_add(upper),
        _ => lower.checked_sub(upper),
    }
}

impl<'a> Machine<'a> {
    fn maker(&self, builtin: Builtin) -> Maker {
        Maker {
            builtin,
            site: self.site,
        }
    }

    /// The bytes that a function made of a text, with marks.
    fn push_made(
        &mut self,
        builtin: Builtin,
        argument: &[Marked],
        bytes: &[u8],
    ) -> Result<Flow, AllocError> {
        let maker = self.maker(builtin);
        let text = aligned(self.alloc, &mut self.marks, maker, argument, bytes)?;
        self.push_text(text)
    }

    pub fn two_numbers(&mut self, builtin: Builtin) -> Result<Flow, AllocError> {
        if !self.finds(builtin, &[Kind::Number, Kind::Number])? {
            return self.push(Value::Number(0));
        }
        let upper = self.pop_number();
        let lower = self.pop_number();
        match of_two(builtin, lower, upper) {
            Some(number) => self.push(Value::Number(number)),
            None => self.push_zero_in_error(Complaint::OutOfRange(builtin)),
        }
    }

    pub fn equals(&mut self) -> Result<Flow, AllocError> {
        if let Some(holds) = are_equal(self.below(1), self.below(0)) {
            self.drop_top()?;
            self.drop_top()?;
            return self.push(Value::Number(truth(holds)));
        }
        if !self.finds(Builtin::Equals, &[Kind::Any, Kind::Any])? {
            return self.push(Value::Number(0));
        }
        self.drop_top()?;
        self.drop_top()?;
        self.push_zero_in_error(Complaint::WrongKind(Builtin::Equals))
    }

    pub fn join(&mut self) -> Result<Flow, AllocError> {
        if !self.finds(Builtin::Join, &[Kind::Text, Kind::Text])? {
            return self.push_empty();
        }
        let upper = self.pop_text()?;
        let lower = self.pop_text()?;
        if lower.len() > TEXT_BYTES.saturating_sub(upper.len()) {
            return self.pass_text_limit();
        }
        let text = joined(self.alloc, lower.as_slice(), upper.as_slice())?;
        self.push_text(text)
    }

    pub fn text_to_text(&mut self, builtin: Builtin) -> Result<Flow, AllocError> {
        if !self.finds(builtin, &[Kind::Text])? {
            return self.push_empty();
        }
        let text = self.pop_text()?;
        let bytes = self.bytes(text.as_slice())?;
        let made = match builtin {
            Builtin::AddPeriod => add_period(self.alloc, bytes.as_slice())?,
            _ => purify(self.alloc, bytes.as_slice())?,
        };
        self.push_made(builtin, text.as_slice(), made.as_slice())
    }

    pub fn convert_case(&mut self) -> Result<Flow, AllocError> {
        if !self.finds(Builtin::ChangeCase, &[Kind::Text, Kind::Text])? {
            return self.push_empty();
        }
        let name = self.pop_text()?;
        let name = self.bytes(name.as_slice())?;
        let Some(mode) = mode_of(name.as_slice()) else {
            self.tell(Complaint::BadCase(name))?;
            return Ok(Flow::Go);
        };
        let text = self.pop_text()?;
        let bytes = self.bytes(text.as_slice())?;
        let made = change_case(self.alloc, bytes.as_slice(), mode)?;
        self.push_made(Builtin::ChangeCase, text.as_slice(), made.as_slice())
    }

    pub fn prefix(&mut self) -> Result<Flow, AllocError> {
        if !self.finds(Builtin::TextPrefix, &[Kind::Number, Kind::Text])? {
            return self.push_empty();
        }
        let most = self.pop_number();
        let text = self.pop_text()?;
        let bytes = self.bytes(text.as_slice())?;
        let made = text_prefix(self.alloc, bytes.as_slice(), most)?;
        self.push_made(Builtin::TextPrefix, text.as_slice(), made.as_slice())
    }

    pub fn cut(&mut self) -> Result<Flow, AllocError> {
        if !self.finds(
            Builtin::Substring,
            &[Kind::Number, Kind::Number, Kind::Text],
        )? {
            return self.push_empty();
        }
        let length = self.pop_number();
        let start = self.pop_number();
        let text = self.pop_text()?;
        let (from, length) = part_place(text.len(), start, length);
        let text = part(self.alloc, text.as_slice(), from, length)?;
        self.push_text(text)
    }

    fn name_complaint(
        &self,
        fault: FormatFault,
        names: Bytes,
        number: i32,
        pattern: Bytes,
    ) -> Result<Complaint, AllocError> {
        match fault {
            FormatFault::NoSuchName => Ok(Complaint::NoSuchName(number, names)),
            FormatFault::TooManyCommas => Ok(Complaint::TooManyCommas(number, names)),
            FormatFault::PatternFault(place) => Ok(Complaint::PatternFault(pattern, place)),
            FormatFault::OutOfMemory => Err(AllocError),
        }
    }

    fn push_name(
        &mut self,
        text: &[Marked],
        number: i32,
        pattern: Bytes,
    ) -> Result<Flow, AllocError> {
        let names = self.bytes(text)?;
        match format(self.alloc, names.as_slice(), number, pattern.as_slice()) {
            Ok(made) => {
                let maker = self.maker(Builtin::FormatName);
                let (name, made) = (name_in(text, number), made.as_slice());
                let text = formatted(self.alloc, &mut self.marks, maker, name, made)?;
                self.push_text(text)
            }
            Err(fault) => {
                let complaint = self.name_complaint(fault, names, number, pattern)?;
                self.push_empty_in_error(complaint)
            }
        }
    }

    pub fn format_name(&mut self) -> Result<Flow, AllocError> {
        if !self.finds(Builtin::FormatName, &[Kind::Text, Kind::Number, Kind::Text])? {
            return self.push_empty();
        }
        let pattern = self.pop_text()?;
        let pattern = self.bytes(pattern.as_slice())?;
        let number = self.pop_number();
        let names = self.pop_text()?;
        self.push_name(names.as_slice(), number, pattern)
    }

    pub fn text_to_count(&mut self, builtin: Builtin) -> Result<Flow, AllocError> {
        if !self.finds(builtin, &[Kind::Text])? {
            return self.push(Value::Number(0));
        }
        let text = self.pop_text()?;
        let bytes = self.bytes(text.as_slice())?;
        let bytes = bytes.as_slice();
        let number = match builtin {
            Builtin::NumNames => count(bytes),
            Builtin::TextLength => text_length(bytes),
            _ => text_width(bytes),
        };
        match i32::try_from(number) {
            Ok(number) => self.push(Value::Number(number)),
            Err(_) => self.push_zero_in_error(Complaint::OutOfRange(builtin)),
        }
    }

    pub fn character_number(&mut self) -> Result<Flow, AllocError> {
        if !self.finds(Builtin::ChrToInt, &[Kind::Text])? {
            return self.push(Value::Number(0));
        }
        let text = self.pop_text()?;
        match text.as_slice() {
            [character] => self.push(Value::Number(character.byte as i32)),
            text => {
                let text = self.bytes(text)?;
                self.push_zero_in_error(Complaint::NotOneCharacter(text))
            }
        }
    }

    /// Pushes what a function made of a number.
    fn push_of_number(&mut self, builtin: Builtin, bytes: &[u8]) -> Result<Flow, AllocError> {
        let mark = self.marks.note(Source::Added(builtin, None), self.site)?;
        let text: Text = of_mark(self.alloc, bytes, mark)?;
        self.push_text(text)
    }

    pub fn character(&mut self) -> Result<Flow, AllocError> {
        if !self.finds(Builtin::IntToChr, &[Kind::Number])? {
            return self.push_empty();
        }
        let number = self.pop_number();
        if 0 <= number && number < 128 {
            self.push_of_number(Builtin::IntToChr, &[number as u8])
        } else {
            self.push_empty_in_error(Complaint::NotAscii(number))
        }
    }

    pub fn decimal(&mut self) -> Result<Flow, AllocError> {
        if !self.finds(Builtin::IntToStr, &[Kind::Number])? {
            return self.push_empty();
        }
        let number = self.pop_number();
        let mut buffer = Buffer::new();
        self.push_of_number(Builtin::IntToStr, buffer.format(number).as_bytes())
    }

    pub fn test_field(&mut self, builtin: Builtin) -> Result<Flow, AllocError> {
        if !self.finds(builtin, &[Kind::FieldText])? {
            return self.push(Value::Number(0));
        }
        let holds = match self.stack.pop() {
            Some(Value::Text(text)) => {
                builtin == Builtin::Empty && text.iter().all(|marked| is_white(marked.byte))
            }
            _ => true,
        };
        self.push(Value::Number(truth(holds)))
    }

    pub fn newline(&mut self) -> Result<Flow, AllocError> {
        end_line(self.alloc, &mut self.held, &mut self.left.lines)?;
        Ok(Flow::Go)
    }

    fn hold(&mut self, text: &[Marked]) -> Result<(), AllocError> {
        let step = self.step;
        for marked in text {
            self.held.push(Written {
                marked: *marked,
                step,
            })?;
        }
        Ok(())
    }

    pub fn write(&mut self) -> Result<Flow, AllocError> {
        if !self.finds(Builtin::Write, &[Kind::Text])? {
            return Ok(Flow::Go);
        }
        let text = self.pop_text()?;
        if text.len() > TEXT_BYTES.saturating_sub(self.held.len()) {
            return self.stop(Complaint::TextPassed);
        }
        self.hold(text.as_slice())?;
        if self.held.len() > 79 {
            let mark = self.marks.note(Source::Indent, self.site)?;
            let marked = Marked {
                byte: b' ',
                mark,
                at: 0,
            };
            let step = self.step;
            let space = Written { marked, step };
            break_lines(self.alloc, &mut self.held, &mut self.left.lines, space)?;
        }
        Ok(Flow::Go)
    }

    pub fn warning(&mut self) -> Result<Flow, AllocError> {
        if self.finds(Builtin::Warning, &[Kind::Text])? {
            let text = self.pop_text()?;
            let words = self.bytes(text.as_slice())?;
            self.tell(Complaint::Warned(words))?;
        }
        Ok(Flow::Go)
    }
}
