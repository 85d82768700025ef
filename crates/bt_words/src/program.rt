//! A style as the analysis goes over it: numbered bodies of words, with their lines.

ghost use Rattle.std.specs.Prelude.{◌≡◌};
ghost use Rattle.bt_words.specs.Constants.{constant_at};

use crate::lines::{FunctionLines, function_lines};
use bt_style::{Action, Function, Op, Style, Target};
use bt_text::is_white;
use indexmap::IndexSet;
use std::alloc::{AllocError, Global};

/// What a word of a body does.
#[derive(Clone, Copy)]
pub enum Act {
    Integer(i32),
    /// Pushes the constant of this number.
    Text(usize),
    Quote(Target),
    /// Pushes the function in braces that has the body of this number.
    Block(usize),
    Call(Target),
}

/// A word of a body: what it does, and its line.
#[derive(Clone, Copy)]
pub struct Word {
    pub act: Act,
    pub line: usize,
}

/// A style's bodies: first those of its functions, in their order, then those in braces.
#[derive(Drop)]
pub struct Program {
    pub bodies: Vec<Vec<Word>>,
    /// The line of each function's name.
    pub lines: Vec<usize>,
    /// The constants: first the functions' names, then the empty text.
    pub texts: IndexSet<Vec<u8>>,
    pub function_count: usize,
    /// Whether each function is defined before READ, so that an entry's type can name it.
    pub is_before_read: Vec<bool>,
    pub default_type: Option<usize>,
}

#[derive(Clone, Copy)]
struct Part<'a> {
    body: usize,
    ops: &'a [Op],
}

fn put_word(bodies: &mut Vec<Vec<Word>>, body: usize, word: Word) -> Result<(), AllocError> {
    if let Some(words) = bodies.get_mut(body) {
        words.push(word)?;
    }
    Ok(())
}

fn number_of(
    alloc: Global,
    texts: &mut IndexSet<Vec<u8>>,
    text: &[u8],
) -> Result<usize, AllocError> {
    let (number, _) = texts.insert_full(Vec::from_slice(alloc, text)?)?;
    Ok(number)
}

impl Program {
    fn empty(alloc: Global) -> Program {
        Program {
            bodies: Vec::new(alloc),
            lines: Vec::new(alloc),
            texts: IndexSet::new(alloc),
            function_count: 0,
            is_before_read: Vec::new(alloc),
            default_type: None,
        }
    }

    /// What an element does; a function in braces is left for later.
    fn act<'a>(
        &mut self,
        alloc: Global,
        parts: &mut Vec<Part<'a>>,
        op: &'a Op,
    ) -> Result<Act, AllocError> {
        match op {
            Op::Number(number) => Ok(Act::Integer(*number)),
            Op::Text(text) => Ok(Act::Text(number_of(alloc, &mut self.texts, text.as_slice())?)),
            Op::Quote(target) => Ok(Act::Quote(*target)),
            Op::Call(target) => Ok(Act::Call(*target)),
            Op::Block(inner) => {
                let body = self.bodies.len();
                self.bodies.push(Vec::new(alloc))?;
                parts.push(Part {
                    body,
                    ops: inner.as_slice(),
                })?;
                Ok(Act::Block(body))
            }
        }
    }

    fn take<'a>(
        &mut self,
        alloc: Global,
        parts: &mut Vec<Part<'a>>,
        part: Part<'a>,
        line: usize,
    ) -> Result<bool, AllocError> {
        let [first, rest @ ..] = part.ops else {
            return Ok(false);
        };
        parts.push(Part {
            body: part.body,
            ops: rest,
        })?;
        let act = self.act(alloc, parts, first)?;
        put_word(&mut self.bodies, part.body, Word { act, line })?;
        Ok(true)
    }

    fn add_body(
        &mut self,
        alloc: Global,
        body: usize,
        ops: &[Op],
        lines: &[usize],
    ) -> Result<(), AllocError> {
        let mut parts = Vec::new(alloc);
        parts.push(Part { body, ops })?;
        let mut at = 0usize;
        for _ in 0..u64::MAX {
            let Some(part) = parts.pop() else {
                return Ok(());
            };
            let line = lines.get(at).copied().unwrap_or(0);
            if self.take(alloc, &mut parts, part, line)? {
                at = at.saturating_add(1);
            }
        }
        Ok(())
    }

    fn add_function(&mut self, alloc: Global, function: &Function) -> Result<(), AllocError> {
        let name = function.name.as_slice();
        if name == b"default.type".as_slice() {
            self.default_type = Some(self.function_count);
        }
        self.function_count = self.function_count.saturating_add(1);
        self.bodies.push(Vec::new(alloc))?;
        self.is_before_read.push(false)?;
        self.texts.insert_full(Vec::from_slice(alloc, name)?)?;
        Ok(())
    }

    fn note_commands(&mut self, style: &Style) {
        for command in style.commands.as_slice() {
            match command.action {
                Action::Read => return,
                Action::Function(place) => {
                    if let Some(is_before) = self.is_before_read.get_mut(place) {
                        *is_before = true;
                    }
                }
                _ => {}
            }
        }
    }

    fn add_bodies(
        &mut self,
        alloc: Global,
        style: &Style,
        lines: &[FunctionLines],
    ) -> Result<(), AllocError> {
        for (place, function) in style.functions.iter().enumerate() {
            let (name, words) = match lines.get(place) {
                Some(lines) => (lines.name, lines.words.as_slice()),
                None => (0, [].as_slice()),
            };
            self.lines.push(name)?;
            self.add_body(alloc, place, function.body.as_slice(), words)?;
        }
        Ok(())
    }

    /// The words of a style with this text. The only error is out of memory.
    pub fn of(alloc: Global, style: &Style, text: &[u8]) -> Result<Program, AllocError> {
        let lines = function_lines(alloc, text)?;
        let mut program = Program::empty(alloc);
        for function in &style.functions {
            program.add_function(alloc, function)?;
        }
        program.texts.insert_full(Vec::new(alloc))?;
        program.note_commands(style);
        program.add_bodies(alloc, style, lines.as_slice())?;
        Ok(program)
    }

    /// The number of the empty text among the constants.
    pub fn empty_text(&self) -> usize {
        self.function_count
    }

    /// The words of the body of this number; none if there is no such body.
    pub fn body(&self, body: usize) -> &[Word] {
        match self.bodies.get(body) {
            Some(words) => words.as_slice(),
            None => &[],
        }
    }

    /// The constant of a number; empty if there is none.
    pub fn text(&self, number: usize) -> &[u8]
        ensures { result.now ≡ constant_at self.now number }
    {
        match self.texts.get_index(number) {
            Some(text) => text.as_slice(),
            None => &[],
        }
    }

    /// Whether a text has a byte that isn't white space.
    pub fn is_solid(&self, number: usize) -> bool {
        self.text(number).iter().any(|b| !is_white(*b))
    }

    /// The other function, if a function does nothing but call it.
    pub fn alias(&self, function: usize) -> Option<usize> {
        match self.body(function) {
            [
                Word {
                    act: Act::Call(Target::Function(other)),
                    ..
                },
            ] => Some(*other),
            _ => None,
        }
    }

    /// Whether a text is a name that a database would hardly use for a type.
    pub fn is_inner_name(&self, function: usize) -> bool {
        self.text(function).iter().any(|b| *b == b'.' || *b == b'$')
    }
}
