//! Marks: where the bytes of texts come from, and which words of the style put them there.

ghost use Rattle.std.specs.Prelude.{◌≡◌, slice_get};
ghost use Rattle.bt_marks.specs.Places.{mark_at, step_at};

use bt_style::Builtin;
use std::alloc::{AllocError, Global};

/// What a byte comes from.
#[derive(Clone, Copy, PartialEq, Eq)]
pub enum Source {
    /// The constant of this number in the style.
    Literal(usize),
    /// The double quote that `quote$` pushes.
    Quote,
    /// The field of this number, of the step's entry.
    Field(usize),
    /// The key of the step's entry.
    Key,
    /// The type of the step's entry.
    Type,
    /// What `preamble$` pushes.
    Preamble,
    /// The space before a line that was broken off.
    Indent,
    /// What a built-in function made of the byte with this mark, such as a letter in another case.
    Made(Builtin, usize),
    /// A byte that a built-in function put among those with this mark, such as a tie in a name, or made of a number.
    Added(Builtin, Option<usize>),
    /// A byte that a built-in function put after a text, such as the full stop of `add.period$`.
    Put(Builtin),
}

/// A word of the style that runs: the number of the call in which it runs, and its line.
#[derive(Clone, Copy, PartialEq, Eq)]
pub struct Site {
    pub call: usize,
    pub line: usize,
}

/// A call of a function.
#[derive(Clone, Copy)]
pub struct Call {
    /// The function; none for the command of a step.
    pub function: Option<usize>,
    /// The word that called it.
    pub from: Site,
    /// The number of the step, from 0.
    pub step: usize,
}

/// A source, and the word that pushed what came from it.
#[derive(Clone, Copy)]
pub struct Mark {
    pub source: Source,
    pub site: Site,
}

/// The marks and calls of a run. Texts and marks name them by number.
#[derive(Drop)]
pub struct Marks {
    marks: Vec<Mark>,
    calls: Vec<Call>,
}

impl Marks {
    /// No marks and no calls. Allocates nothing.
    pub fn new(alloc: Global) -> Marks {
        Marks {
            marks: Vec::new(alloc),
            calls: Vec::new(alloc),
        }
    }

    /// Notes a mark, and returns its number. The only error is out of memory; then nothing is noted.
    pub fn note(&mut self, source: Source, site: Site) -> Result<usize, AllocError> {
        let number = self.marks.len();
        self.marks.push(Mark { source, site })?;
        Ok(number)
    }

    /// Notes a call, and returns its number. The only error is out of memory; then nothing is noted.
    pub fn enter(
        &mut self,
        function: Option<usize>,
        from: Site,
        step: usize,
    ) -> Result<usize, AllocError> {
        let number = self.calls.len();
        self.calls.push(Call {
            function,
            from,
            step,
        })?;
        Ok(number)
    }

    /// The mark of this number; none if there is none.
    pub fn mark(&self, number: usize) -> Option<Mark>
        ensures { result ≡ mark_at self.now number }
    {
        self.marks.get(number).copied()
    }

    /// The call of this number; none if there is none.
    pub fn call(&self, number: usize) -> Option<Call>
        ensures { result ≡ slice_get self.now.calls.items number }
    {
        self.calls.get(number).copied()
    }

    /// The step in which a word ran; none if its call isn't noted.
    pub fn step(&self, site: Site) -> Option<usize>
        ensures { result ≡ step_at self.now site }
    {
        Some(self.call(site.call)?.step)
    }

    fn mark_of(&self, number: Option<usize>) -> Option<Mark> {
        self.mark(number?)
    }

    /// The mark from whose bytes built-in functions made the bytes of this mark, the mark itself if none did. None if they
    /// made the bytes from a number.
    pub fn root(&self, number: usize) -> Option<usize> {
        let mut number = number;
        for _ in 0..self.marks.len() {
            match self.mark(number)?.source {
                Source::Made(_, of) => number = of,
                Source::Added(_, of) => number = of?,
                _ => return Some(number),
            }
        }
        None
    }

    /// The built-in functions through which the bytes of a mark went, each once, the last one first. The only error is out
    /// of memory.
    pub fn makers(&self, alloc: Global, number: usize) -> Result<Vec<Builtin>, AllocError> {
        let mut makers = Vec::new(alloc);
        let mut next = Some(number);
        for _ in 0..self.marks.len() {
            let Some(mark) = self.mark_of(next) else {
                return Ok(makers);
            };
            let (by, of) = match mark.source {
                Source::Made(by, of) => (by, Some(of)),
                Source::Added(by, of) => (by, of),
                Source::Put(by) => (by, None),
                _ => return Ok(makers),
            };
            if !makers.contains(&by) {
                makers.push(by)?;
            }
            next = of;
        }
        Ok(makers)
    }

    /// The functions in whose calls a word ran, the innermost first, each with the line that ran in it. The only error is
    /// out of memory.
    pub fn calls_of(&self, alloc: Global, site: Site) -> Result<Vec<(usize, usize)>, AllocError> {
        let mut calls = Vec::new(alloc);
        let mut site = site;
        for _ in 0..self.calls.len() {
            let Some(call) = self.call(site.call) else {
                return Ok(calls);
            };
            let Some(function) = call.function else {
                return Ok(calls);
            };
            calls.push((function, site.line))?;
            site = call.from;
        }
        Ok(calls)
    }
}
