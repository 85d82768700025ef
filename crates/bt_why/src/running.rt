//! The loop that runs a step.

use crate::machine::{Frame, Machine};
use crate::values::{Block, Code, Kind, Value};
use bt_actions::{Complaint, Flow};
use bt_marks::{Site, Source};
use bt_style::{Builtin, Target};
use bt_words::{Act, Word};
use std::alloc::AllocError;

/// More turns than a step of 1,000,000 ticks can take: an element takes one, and puts at most three frames on the control
/// stack, each of which takes another one.
const MOST_TURNS: u32 = 5_000_000;

impl<'a> Machine<'a> {
    /// Runs what waits, until nothing does or a limit is passed.
    pub fn run_all(&mut self) -> Result<Flow, AllocError> {
        for _ in 0..MOST_TURNS {
            let Some(frame) = self.control.pop() else {
                return Ok(Flow::Go);
            };
            if self.turn(frame)? == Flow::Stop {
                return Ok(Flow::Stop);
            }
        }
        self.stop(Complaint::TicksPassed)
    }

    fn turn(&mut self, frame: Frame) -> Result<Flow, AllocError> {
        match frame {
            Frame::Body { block, next } => self.word_of(block, next),
            Frame::Name(target, site) => self.element(site, Act::Call(target)),
            Frame::Test(test, body, site) => self.test(test, body, site),
        }
    }

    /// The next word of a body, if there is one.
    fn word_of(&mut self, block: Block, next: usize) -> Result<Flow, AllocError> {
        let Some(Word { act, line }) = self.program.body(block.body).get(next).copied() else {
            return Ok(Flow::Go);
        };
        let next = next.saturating_add(1);
        self.control.push(Frame::Body { block, next })?;
        let call = block.call;
        self.element(Site { call, line }, act)
    }

    fn element(&mut self, site: Site, act: Act) -> Result<Flow, AllocError> {
        self.site = site;
        if !self.tick() {
            return self.stop(Complaint::TicksPassed);
        }
        match act {
            Act::Integer(number) => self.push(Value::Number(number)),
            Act::Text(number) => {
                let program: &'a bt_words::Program = self.program;
                self.push_from(Source::Literal(number), program.text(number))
            }
            Act::Quote(target) => self.push(Value::Name(target)),
            Act::Block(body) => {
                let call = site.call;
                self.push(Value::Block(Block { body, call }))
            }
            Act::Call(target) => self.call(target),
        }
    }

    fn call(&mut self, target: Target) -> Result<Flow, AllocError> {
        match target {
            Target::Builtin(builtin) => self.call_builtin(builtin),
            Target::Field(field) => self.field(field),
            Target::EntryNumber(place) => self.entry_number(place),
            Target::EntryText(place) => self.entry_text(place),
            Target::GlobalNumber(place) => {
                let number = self.globals.number(place);
                self.push(Value::Number(number))
            }
            Target::GlobalText(place) => self.global_text(place),
            Target::Function(function) => self.enter(function),
        }
    }

    /// Enters the function of a number.
    fn enter(&mut self, function: usize) -> Result<Flow, AllocError> {
        if function < self.program.function_count {
            let call = self.marks.enter(Some(function), self.site, self.step)?;
            let block = Block {
                body: function,
                call,
            };
            self.control.push(Frame::Body { block, next: 0 })?;
        }
        Ok(Flow::Go)
    }

    fn begin(&mut self, code: Code, site: Site) -> Result<(), AllocError> {
        let frame = match code {
            Code::Name(target) => Frame::Name(target, site),
            Code::Block(block) => Frame::Body { block, next: 0 },
        };
        Ok(self.control.push(frame)?)
    }

    fn begin_loop(&mut self, test: Code, body: Code, site: Site) -> Result<(), AllocError> {
        self.control.push(Frame::Test(test, body, site))?;
        self.begin(test, site)
    }

    /// What the test of a loop left decides on a turn.
    fn test(&mut self, test: Code, body: Code, site: Site) -> Result<Flow, AllocError> {
        self.site = site;
        if self.finds(Builtin::While, &[Kind::Number])? && self.pop_number() > 0 {
            self.begin_loop(test, body, site)?;
            self.begin(body, site)?;
        }
        Ok(Flow::Go)
    }

    pub fn repeat(&mut self) -> Result<Flow, AllocError> {
        if self.finds(Builtin::While, &[Kind::Code, Kind::Code])? {
            let body = self.pop_code();
            let test = self.pop_code();
            self.begin_loop(test, body, self.site)?;
        }
        Ok(Flow::Go)
    }

    pub fn choose(&mut self) -> Result<Flow, AllocError> {
        if self.finds(Builtin::If, &[Kind::Code, Kind::Code, Kind::Number])? {
            let other = self.pop_code();
            let above = self.pop_code();
            let code = if self.pop_number() > 0 { above } else { other };
            self.begin(code, self.site)?;
        }
        Ok(Flow::Go)
    }

    pub fn call_type(&mut self) -> Result<Flow, AllocError> {
        match self.own_entry() {
            None => {
                self.tell(Complaint::NoEntry)?;
                Ok(Flow::Go)
            }
            Some(entry) => match entry.function.or(self.program.default_type) {
                Some(function) => self.enter(function),
                None => Ok(Flow::Go),
            },
        }
    }
}
