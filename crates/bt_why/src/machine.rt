//! The state of the marked machine: what a step works on, how it reports, and how it takes arguments.
//!
//! It does what the style machine does, value by value and message by message, and isn't written for speed. What is proved
//! of a step is proved of `bt_machine`; a user of this crate compares the two.

use crate::values::{Block, Code, Kind, Value, Variables};
use bt_actions::{Complaint, Entry, Flow, STACK_LIMIT, TICK_LIMIT};
use bt_marks::{Line, Marked, Marks, Site, Source, Text, bytes_of, of_mark};
use bt_style::{Builtin, Style, Target};
use bt_text::{Bytes, Shared, TEXT_BYTES};
use bt_words::Program;
use std::alloc::{AllocError, Global};
use std::mem;

/// How many bytes a run may push before it gives up; a mark counts as `MARK_WORK` bytes. A paper with a thousand citations
/// pushes some ten million.
const MOST_WORK: usize = 4_000_000_000;

const MARK_WORK: usize = 100;

/// What a step is given beside the variables and the held line.
#[derive(Clone, Copy)]
pub struct Given<'a> {
    pub target: Target,
    /// The place of its entry, if it has one.
    pub entry: Option<usize>,
    /// The line of its command.
    pub line: usize,
    pub preamble: &'a [u8],
}

/// What a step wrote and reported.
#[derive(Drop)]
pub struct Left {
    pub lines: Vec<Line>,
    pub complaints: Vec<Complaint>,
    /// For each complaint the word that ran.
    pub sites: Vec<Site>,
    pub ticks: u32,
    pub stop: bool,
    /// Whether the run took too much work.
    pub gave_up: bool,
    /// The numbers of the fields that were pushed, in order.
    pub fields: Vec<usize>,
}

/// What waits to be run.
#[derive(Clone, Copy)]
pub enum Frame {
    /// The rest of a body from a word on, in a call.
    Body { block: Block, next: usize },
    /// A quoted name, called by a word.
    Name(Target, Site),
    /// A loop's test, which has run, and its body.
    Test(Code, Code, Site),
}

/// A run of a style whose texts carry marks.
#[derive(Drop)]
pub struct Machine<'a> {
    pub alloc: Global,
    pub style: &'a Style,
    pub program: &'a Program,
    pub entries: &'a [Entry],
    pub marks: Marks,
    pub globals: Variables,
    /// The variables of each entry.
    pub own: Vec<Variables>,
    pub held: Line,
    /// The number of the step, from 0.
    pub step: usize,
    /// The entry of each step so far.
    pub step_entries: Vec<Option<usize>>,
    pub entry: Option<usize>,
    pub preamble: &'a [u8],
    /// The word that runs.
    pub site: Site,
    pub stack: Vec<Value>,
    pub control: Vec<Frame>,
    /// The bytes that were pushed so far.
    pub work: usize,
    pub left: Left,
}

fn nothing_left(alloc: Global) -> Left {
    Left {
        lines: Vec::new(alloc),
        complaints: Vec::new(alloc),
        sites: Vec::new(alloc),
        ticks: 0,
        stop: false,
        gave_up: false,
        fields: Vec::new(alloc),
    }
}

/// The variables of the style before the first step.
fn first_globals(alloc: Global, style: &Style) -> Result<Variables, AllocError> {
    let mut globals = Variables::blank(
        alloc,
        style.global_numbers.len(),
        style.global_texts.len(),
    )?;
    for (place, name) in style.global_numbers.as_slice().iter().enumerate() {
        match name.as_slice() {
            b"entry.max$" => globals.set_number(place, 250),
            b"global.max$" => globals.set_number(place, 20_000),
            _ => {}
        }
    }
    Ok(globals)
}

fn first_own(
    alloc: Global,
    style: &Style,
    entries: &[Entry],
) -> Result<Vec<Variables>, AllocError> {
    let mut own = Vec::new(alloc);
    for _ in entries {
        own.push(Variables::blank(alloc, style.entry_numbers.len(), style.entry_texts.len())?)?;
    }
    Ok(own)
}

impl<'a> Machine<'a> {
    /// Before the first step of a run over these entries.
    pub fn new(
        alloc: Global,
        style: &'a Style,
        program: &'a Program,
        entries: &'a [Entry],
    ) -> Result<Machine<'a>, AllocError> {
        let globals = first_globals(alloc, style)?;
        let own = first_own(alloc, style, entries)?;
        Ok(Machine {
            alloc,
            style,
            program,
            entries,
            marks: Marks::new(alloc),
            globals,
            own,
            held: Vec::new(alloc),
            step: 0,
            step_entries: Vec::new(alloc),
            entry: None,
            preamble: &[],
            site: Site { call: 0, line: 0 },
            stack: Vec::new(alloc),
            control: Vec::new(alloc),
            work: 0,
            left: nothing_left(alloc),
        })
    }

    /// Carries out the next step.
    pub fn run(&mut self, given: Given<'a>) -> Result<Left, AllocError> {
        self.step_entries.push(given.entry)?;
        self.entry = given.entry;
        self.preamble = given.preamble;
        let line = given.line;
        let call = self.marks.enter(None, Site { call: 0, line }, self.step)?;
        self.site = Site { call, line };
        self.stack = Vec::new(self.alloc);
        self.control = Vec::new(self.alloc);
        self.control.push(Frame::Name(given.target, self.site))?;
        let flow = self.run_all()?;
        if flow == Flow::Go && !self.stack.is_empty() {
            self.tell(Complaint::LeftOver)?;
        }
        self.left.stop = flow == Flow::Stop;
        self.step = self.step.saturating_add(1);
        Ok(mem::replace(&mut self.left, nothing_left(self.alloc)))
    }

    /// The entry of the step.
    pub fn own_entry(&self) -> Option<&'a Entry> {
        let entries: &'a [Entry] = self.entries;
        entries.get(self.entry?)
    }

    /// The variables of the step's entry.
    pub fn own_variables(&self) -> Option<&Variables> {
        self.own.get(self.entry?)
    }

    pub fn own_variables_mut(&mut self) -> Option<&mut Variables> {
        let entry = self.entry?;
        self.own.get_mut(entry)
    }

    pub fn tell(&mut self, complaint: Complaint) -> Result<(), AllocError> {
        self.left.sites.push(self.site)?;
        Ok(self.left.complaints.push(complaint)?)
    }

    pub fn stop(&mut self, limit: Complaint) -> Result<Flow, AllocError> {
        self.tell(limit)?;
        Ok(Flow::Stop)
    }

    /// Takes a tick, if there is one left.
    pub fn tick(&mut self) -> bool {
        let is_left = self.left.ticks < TICK_LIMIT;
        if is_left {
            self.left.ticks = self.left.ticks.saturating_add(1);
        }
        is_left
    }

    /// Reports that a text is too long, or that the stack is full.
    pub fn pass_text_limit(&mut self) -> Result<Flow, AllocError> {
        if self.stack.len() < STACK_LIMIT {
            self.stop(Complaint::TextPassed)
        } else {
            self.stop(Complaint::StackPassed)
        }
    }

    pub fn push(&mut self, value: Value) -> Result<Flow, AllocError> {
        if self.stack.len() >= STACK_LIMIT {
            return self.stop(Complaint::StackPassed);
        }
        self.stack.push(value)?;
        Ok(Flow::Go)
    }

    pub fn push_shared(&mut self, text: Shared<Text>) -> Result<Flow, AllocError> {
        if self.stack.len() >= STACK_LIMIT || text.len() > TEXT_BYTES {
            return self.pass_text_limit();
        }
        self.work = self
            .work
            .saturating_add(text.len())
            .saturating_add(MARK_WORK);
        if self.work > MOST_WORK {
            self.left.gave_up = true;
            return Ok(Flow::Stop);
        }
        self.stack.push(Value::Text(text))?;
        Ok(Flow::Go)
    }

    pub fn push_text(&mut self, text: Text) -> Result<Flow, AllocError> {
        let text = Shared::new(self.alloc, text)?;
        self.push_shared(text)
    }

    /// Pushes bytes that come from one place.
    pub fn push_from(&mut self, source: Source, bytes: &[u8]) -> Result<Flow, AllocError> {
        let mark = self.marks.note(source, self.site)?;
        let text = of_mark(self.alloc, bytes, mark)?;
        self.push_text(text)
    }

    pub fn push_empty(&mut self) -> Result<Flow, AllocError> {
        self.push_text(Vec::new(self.alloc))
    }

    /// Reports an error and pushes the default, unless the stack is full.
    pub fn push_zero_in_error(&mut self, complaint: Complaint) -> Result<Flow, AllocError> {
        if self.stack.len() < STACK_LIMIT {
            self.tell(complaint)?;
        }
        self.push(Value::Number(0))
    }

    pub fn push_empty_in_error(&mut self, complaint: Complaint) -> Result<Flow, AllocError> {
        if self.stack.len() < STACK_LIMIT {
            self.tell(complaint)?;
        }
        self.push_empty()
    }

    /// The value this number of places below the top.
    pub fn below(&self, depth: usize) -> Option<&Value> {
        let place = self.stack.len().checked_sub(depth.saturating_add(1))?;
        self.stack.get(place)
    }

    pub fn drop_top(&mut self) -> Result<(), AllocError> {
        match self.stack.pop() {
            Some(_) => Ok(()),
            None => self.tell(Complaint::EmptyStack),
        }
    }

    /// Whether the value this number of places below the top has a kind; none if there is no such value.
    fn has_at(&self, depth: usize, kind: Kind) -> Option<bool> {
        Some(kind.has(self.below(depth)?))
    }

    fn has(&self, kinds: &[Kind]) -> bool {
        kinds
            .iter()
            .enumerate()
            .all(|(depth, kind)| self.has_at(depth, *kind) == Some(true))
    }

    fn has_wrong(&self, kinds: &[Kind]) -> bool {
        kinds
            .iter()
            .enumerate()
            .any(|(depth, kind)| self.has_at(depth, *kind) == Some(false))
    }

    /// Whether the top values have these kinds, the kind of the top first. If not, they are removed, and what is wrong is
    /// reported.
    pub fn finds(&mut self, builtin: Builtin, kinds: &[Kind]) -> Result<bool, AllocError> {
        if self.has(kinds) {
            return Ok(true);
        }
        let is_wrong = self.has_wrong(kinds);
        for _ in 0..kinds.len() {
            self.drop_top()?;
        }
        if is_wrong {
            self.tell(Complaint::WrongKind(builtin))?;
        }
        Ok(false)
    }

    /// Takes the top, which is a number. (0 stands for another value, which callers rule out.)
    pub fn pop_number(&mut self) -> i32 {
        match self.stack.pop() {
            Some(Value::Number(number)) => number,
            _ => 0,
        }
    }

    /// Takes the top, which is a text, as `pop_number` does.
    pub fn pop_text(&mut self) -> Result<Shared<Text>, AllocError> {
        match self.stack.pop() {
            Some(Value::Text(text)) => Ok(text),
            _ => Shared::new(self.alloc, Vec::new(self.alloc)),
        }
    }

    pub fn pop_code(&mut self) -> Code {
        match self.stack.pop() {
            Some(Value::Name(target)) => Code::Name(target),
            Some(Value::Block(block)) => Code::Block(block),
            _ => Code::Name(Target::Builtin(Builtin::Skip)),
        }
    }

    pub fn bytes(&self, text: &[Marked]) -> Result<Bytes, AllocError> {
        bytes_of(self.alloc, text)
    }
}
