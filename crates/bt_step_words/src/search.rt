//! Finds the words that ran when the steps of a run complained.

use crate::marking::{marked_line, marked_variables};
use bt_actions::Complaint;
use bt_log::{Message, Place, Said};
use bt_machine::Input;
use bt_remarks::{CallWord, StepWord};
use bt_run::{Kept, Step};
use bt_style::{Style, StyleRefusal, read_style};
use bt_style_text::Numbered;
use bt_text::{Bytes, Sequence, Shared};
use bt_why::{Given, Left, Machine, Rerun, Site, Source};
use std::alloc::{AllocError, Global};

/// How many ticks the steps that are carried out again may take: some hundred entries of a standard style, in 5 ms.
const WORK: u128 = 30_000;

/// How many calls are told of a word.
const MOST_CALLS: usize = 10;

/// A run: its messages, what it kept, and its style's text.
#[derive(Clone, Copy)]
pub struct TracedRun<'a> {
    pub alloc: Global,
    pub messages: &'a [Message],
    pub kept: &'a Kept,
    pub text: &'a [u8],
}

/// The messages of a run's steps, in their order, and the machine that carries out steps again.
#[derive(Drop)]
struct Search<'a> {
    alloc: Global,
    kept: &'a Kept,
    style: &'a Style,
    numbered: &'a Numbered,
    machine: Machine<'a>,
    /// The number of the step, and how many of its messages were met.
    step: usize,
    met: usize,
    /// The ticks that are left.
    work: u128,
    /// What the step left, if it was carried out again and left the same.
    rerun: Option<Rerun>,
}

fn is_same_text(one: &Option<Shared<Bytes>>, other: &Option<Shared<Bytes>>) -> bool {
    match (one, other) {
        (None, None) => true,
        (Some(one), Some(other)) => one.as_slice() == other.as_slice(),
        _ => false,
    }
}

fn says_same(one: &Said, other: &Said) -> bool {
    match (one, other) {
        (Said::Words(one), Said::Words(other)) => one.as_slice() == other.as_slice(),
        _ => false,
    }
}

/// Whether a message of a run is one of a step, which has no place yet.
fn is_same(message: &Message, own: &Message) -> bool {
    message.rank == own.rank
        && says_same(&message.said, &own.said)
        && is_same_text(&message.entry, &own.entry)
        && is_same_text(&message.second, &own.second)
}

fn is_of_step(message: &Message) -> bool {
    matches!(&message.place, Some(Place::Step { .. }))
}

impl<'a> Search<'a> {
    fn new(
        ran: TracedRun<'a>,
        style: &'a Style,
        numbered: &'a Numbered,
    ) -> Result<Search<'a>, AllocError> {
        let entries = ran.kept.entries.as_slice();
        Ok(Search {
            alloc: ran.alloc,
            kept: ran.kept,
            style,
            numbered,
            machine: Machine::new(ran.alloc, style, &numbered.program, entries)?,
            step: 0,
            met: 0,
            work: WORK,
            rerun: None,
        })
    }

    fn step_at(&self, number: usize) -> Option<&'a Step> {
        let steps: &'a [Shared<Step>] = self.kept.steps.as_slice();
        Some(&**steps.get(number)?)
    }

    /// Gives the machine what a step was given.
    fn give(&mut self, input: &Input, entry: Option<usize>) -> Result<(), AllocError> {
        let site = Site { call: 0, line: 0 };
        let mark = self.machine.marks.note(Source::Preamble, site)?;
        self.machine.globals = marked_variables(self.alloc, &input.globals, mark)?;
        self.machine.held = marked_line(self.alloc, input.held.bytes(), mark)?;
        if let (Some(place), Some(own)) = (entry, &input.entry)
            && let Some(variables) = self.machine.own.get_mut(place)
        {
            *variables = marked_variables(self.alloc, &own.variables, mark)?;
        }
        Ok(())
    }

    fn run(&mut self, step: &'a Step) -> Result<Left, AllocError> {
        let entry = match self.kept.marks.as_slice().get(self.step) {
            Some(mark) => mark.place,
            None => None,
        };
        self.give(&step.input, entry)?;
        self.machine.run(Given {
            target: step.input.target,
            entry,
            line: 0,
            preamble: step.input.preamble.as_slice(),
        })
    }

    /// Carries out a step again. What it left counts only if the step left the same.
    fn run_again(&mut self, step: &'a Step) -> Result<Option<Rerun>, AllocError> {
        if step.cost > self.work {
            return Ok(None);
        }
        self.work = self.work.saturating_sub(step.cost);
        let left = self.run(step)?;
        if left.gave_up {
            return Ok(None);
        }
        let rerun = Rerun::of(&self.machine, left)?;
        if rerun.is_outcome(self.alloc, &step.outcome, step.cost)? {
            Ok(Some(rerun))
        } else {
            Ok(None)
        }
    }

    /// The next step that has a message which wasn't met.
    fn next_step(&mut self) -> Option<&'a Step> {
        for number in self.step..self.kept.steps.len() {
            let step = self.step_at(number)?;
            if number != self.step {
                self.step = number;
                self.met = 0;
            }
            if self.met < step.outcome.messages.len() {
                return Some(step);
            }
        }
        None
    }

    fn call(&self, function: usize, number: usize) -> Result<Option<CallWord>, AllocError> {
        let (Some(word), Some(function)) = (
            self.numbered.word(number),
            self.style.functions.get(function),
        ) else {
            return Ok(None);
        };
        let line = format!(in self.alloc; "{}", word.line)?;
        let name = function.name.as_slice();
        Ok(Some(CallWord {
            start: word.start,
            end: word.end,
            words: Bytes::of(self.alloc, &[b"in ", name, b":", line.as_bytes()])?,
        }))
    }

    /// The word of a site; none if a command itself ran.
    fn word(&self, site: Site) -> Result<Option<StepWord>, AllocError> {
        let Some(word) = self.numbered.word(site.line) else {
            return Ok(None);
        };
        let mut calls = Sequence::new(self.alloc);
        let all = self.machine.marks.calls_of(self.alloc, site)?;
        for (function, number) in all.iter().take(MOST_CALLS) {
            if let Some(call) = self.call(*function, *number)? {
                calls.push(call)?;
            }
        }
        Ok(Some(StepWord {
            start: word.start,
            end: word.end,
            calls,
        }))
    }

    /// The word at which a message of the step came. What is left on the stack is found at the end, at no word.
    fn word_of(&self, place: usize) -> Result<Option<StepWord>, AllocError> {
        let Some(rerun) = &self.rerun else {
            return Ok(None);
        };
        match (
            rerun.left.complaints.get(place),
            rerun.left.sites.get(place),
        ) {
            (None, _) | (_, None) | (Some(Complaint::LeftOver), _) => Ok(None),
            (Some(_), Some(site)) => self.word(*site),
        }
    }

    /// The word of the next message of a step.
    fn next(&mut self, message: &Message) -> Result<Option<StepWord>, AllocError> {
        let Some(step) = self.next_step() else {
            return Ok(None);
        };
        let place = self.met;
        let Some(own) = step.outcome.messages.as_slice().get(place) else {
            return Ok(None);
        };
        if !is_same(message, own) {
            self.step = self.kept.steps.len();
            return Ok(None);
        }
        if place == 0 {
            self.rerun = self.run_again(step)?;
        }
        self.met = place.saturating_add(1);
        self.word_of(place)
    }
}

fn words_in(ran: TracedRun<'_>, style: &Style) -> Result<Sequence<Option<StepWord>>, AllocError> {
    let numbered = Numbered::of(ran.alloc, style, ran.text)?;
    let mut search = Search::new(ran, style, &numbered)?;
    let mut words = Sequence::new(ran.alloc);
    for message in ran.messages {
        let word = if is_of_step(message) {
            search.next(message)?
        } else {
            None
        };
        words.push(word)?;
    }
    Ok(words)
}

/// For each message of a run the word of the style that ran when it came. The messages that come first have theirs, until
/// their steps have taken `WORK` ticks; none have one if no message is of a step. The one error is out of memory.
pub fn step_words(ran: TracedRun<'_>) -> Result<Sequence<Option<StepWord>>, AllocError> {
    if !ran.messages.iter().any(is_of_step) {
        return Ok(Sequence::new(ran.alloc));
    }
    match read_style(ran.alloc, ran.text) {
        Ok(style) => words_in(ran, &style),
        Err(StyleRefusal::OutOfMemory) => Err(AllocError),
        Err(StyleRefusal::Fault { .. }) => Ok(Sequence::new(ran.alloc)),
    }
}
