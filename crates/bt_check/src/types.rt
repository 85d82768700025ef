//! Which functions entries name as their types.
//!
//! An entry may name any function that is defined before READ, also a helper such as `and`, which fails then. Those meant
//! are the standard types, functions that call what all of those call (as `output.bibitem` and `fin.entry`), their aliases,
//! and functions that nothing calls and that run without a fault (as `IEEEtranBSTCTL`) or read fields of their own (as
//! `Control` of rsc.bst). A style without standard types has others: all that nothing calls. Helpers are left out: they take
//! from the stack what they haven't put there, or leave something there.

use crate::checker::Checker;
use crate::signature::takes;
use bt_style::{Action, Builtin, Style, Target};
use bt_words::{Act, Program, Word};
use std::alloc::{AllocError, Global};

/// The types of the four standard styles, and `conference`.
pub const STANDARD: [&[u8]; 14] = [
    b"article",
    b"book",
    b"booklet",
    b"conference",
    b"inbook",
    b"incollection",
    b"inproceedings",
    b"manual",
    b"mastersthesis",
    b"misc",
    b"phdthesis",
    b"proceedings",
    b"techreport",
    b"unpublished",
];

fn is_standard(name: &[u8]) -> bool {
    STANDARD.iter().any(|standard| *standard == name)
}

#[derive(Drop)]
pub struct Mentions {
    /// The functions that are named, each once, in order.
    pub functions: Vec<usize>,
    pub calls_type: bool,
    /// The fields that it reads, some of them more than once.
    pub fields: Vec<usize>,
}

pub fn marks(alloc: Global, count: usize) -> Result<Vec<bool>, AllocError> {
    Ok(vec![in alloc; false; count]?)
}

pub fn is_marked(marks: &[bool], place: usize) -> bool {
    marks.get(place).copied().unwrap_or(false)
}

pub fn mark(marks: &mut Vec<bool>, place: usize) {
    if let Some(mark) = marks.get_mut(place) {
        *mark = true;
    }
}

pub fn all_words(alloc: Global, program: &Program, body: usize) -> Result<Vec<Word>, AllocError> {
    let mut words = Vec::new(alloc);
    let mut bodies = Vec::new(alloc);
    bodies.push(body)?;
    for _ in 0..u64::MAX {
        let Some(body) = bodies.pop() else {
            return Ok(words);
        };
        for word in program.body(body) {
            words.push(*word)?;
            if let Act::Block(inner) = word.act {
                bodies.push(inner)?;
            }
        }
    }
    Ok(words)
}

pub fn names_in(alloc: Global, program: &Program, function: usize) -> Result<Mentions, AllocError> {
    let mut mentions = Mentions {
        functions: Vec::new(alloc),
        calls_type: false,
        fields: Vec::new(alloc),
    };
    let words = all_words(alloc, program, function)?;
    for word in &words {
        match word.act {
            Act::Call(Target::Function(other)) | Act::Quote(Target::Function(other)) => {
                mentions.functions.push(other)?;
            }
            Act::Call(Target::Builtin(Builtin::CallType))
            | Act::Quote(Target::Builtin(Builtin::CallType)) => {
                mentions.calls_type = true;
            }
            Act::Call(Target::Field(field)) => mentions.fields.push(field)?,
            _ => {}
        }
    }
    mentions.functions.sort_unstable();
    mentions.functions.dedup();
    Ok(mentions)
}

#[derive(Drop)]
pub struct Catalogue {
    pub mentions: Vec<Mentions>,
    pub is_called: Vec<bool>,
    /// The functions that all standard types name; none if the style has no standard type.
    pub common: Option<Vec<usize>>,
    /// Whether a function reads a field that no other function reads.
    pub has_own_field: Vec<bool>,
}

/// Which functions read a field.
#[derive(Clone, Copy)]
enum Readers {
    None,
    One(usize),
    Several,
}

impl Readers {
    fn with(self, function: usize) -> Readers {
        match self {
            Readers::None => Readers::One(function),
            Readers::One(other) if other == function => self,
            _ => Readers::Several,
        }
    }
}

fn with_own_fields(
    alloc: Global,
    style: &Style,
    mentions: &[Mentions],
) -> Result<Vec<bool>, AllocError> {
    let mut readers = vec![in alloc; Readers::None; style.fields.len()]?;
    for (function, one) in mentions.iter().enumerate() {
        for field in &one.fields {
            if let Some(readers) = readers.get_mut(*field) {
                *readers = readers.with(function);
            }
        }
    }
    let mut has_own_field = marks(alloc, mentions.len())?;
    for readers in &readers {
        if let Readers::One(function) = *readers {
            mark(&mut has_own_field, function);
        }
    }
    Ok(has_own_field)
}

fn note_call(is_called: &mut Vec<bool>, target: Target) {
    if let Target::Function(function) = target {
        mark(is_called, function);
    }
}

fn called(alloc: Global, style: &Style, mentions: &[Mentions]) -> Result<Vec<bool>, AllocError> {
    let mut is_called = marks(alloc, mentions.len())?;
    for one in mentions {
        for function in &one.functions {
            mark(&mut is_called, *function);
        }
    }
    for command in style.commands.as_slice() {
        match command.action {
            Action::Execute(target) | Action::Iterate(target) | Action::Reverse(target) => {
                note_call(&mut is_called, target);
            }
            _ => {}
        }
    }
    Ok(is_called)
}

/// Whether a function is a standard type with a body of its own.
fn is_whole(program: &Program, function: usize) -> bool {
    is_marked(program.is_before_read.as_slice(), function)
        && is_standard(program.text(function))
        && program.body(function).len() > 1
}

fn common_mentions(
    alloc: Global,
    program: &Program,
    mentions: &[Mentions],
) -> Result<Option<Vec<usize>>, AllocError> {
    let mut shared: Option<Vec<usize>> = None;
    for (function, one) in mentions.iter().enumerate() {
        if is_whole(program, function) {
            match &mut shared {
                Some(shared) => shared.retain(|other| one.functions.binary_search(other).is_ok()),
                None => shared = Some(Vec::from_slice(alloc, one.functions.as_slice())?),
            }
        }
    }
    Ok(shared)
}

impl Catalogue {
    pub fn of(alloc: Global, style: &Style, program: &Program) -> Result<Catalogue, AllocError> {
        let mut all = Vec::new(alloc);
        for function in 0..program.function_count {
            all.push(names_in(alloc, program, function)?)?;
        }
        Ok(Catalogue {
            is_called: called(alloc, style, all.as_slice())?,
            common: common_mentions(alloc, program, all.as_slice())?,
            has_own_field: with_own_fields(alloc, style, all.as_slice())?,
            mentions: all,
        })
    }

    /// Whether a function calls at least half of what all standard types call.
    fn is_like_standard(&self, function: usize) -> bool {
        match (&self.common, self.mentions.get(function)) {
            (Some(common), Some(mentions)) => {
                let shared = common
                    .iter()
                    .filter(|one| mentions.functions.binary_search(one).is_ok());
                !common.is_empty() && shared.count().saturating_mul(2) >= common.len()
            }
            _ => false,
        }
    }

    fn typical(&self, alloc: Global, program: &Program) -> Result<Vec<bool>, AllocError> {
        let mut types = Vec::new(alloc);
        for function in 0..program.function_count {
            let can_be = is_marked(program.is_before_read.as_slice(), function);
            types.push(
                can_be && (is_standard(program.text(function)) || self.is_like_standard(function)),
            )?;
        }
        Ok(types)
    }
}

/// Adds the functions that only call a type. They come after it, so one pass finds them all.
fn add_aliases(program: &Program, types: &mut Vec<bool>) {
    for function in 0..program.function_count {
        if let Some(other) = program.alias(function) {
            if is_marked(program.is_before_read.as_slice(), function)
                && is_marked(types.as_slice(), other)
            {
                mark(types, function);
            }
        }
    }
}

/// Whether a function takes more from the stack than it has put there, so that it is a helper. A type's function begins
/// with an empty stack.
fn takes_from_caller(program: &Program, function: usize) -> bool {
    let mut depth = 0usize;
    for word in program.body(function) {
        match word.act {
            Act::Call(Target::Function(_)) => return false,
            Act::Call(Target::Builtin(builtin)) => return takes(builtin).len() > depth,
            _ => depth = depth.saturating_add(1),
        }
    }
    false
}

impl<'a> Checker<'a> {
    /// Whether a function that nothing calls is a type: a style without standard types may have others, and control entries
    /// run without a fault or have fields of their own.
    fn is_other_type(
        &mut self,
        catalogue: &Catalogue,
        function: usize,
    ) -> Result<bool, AllocError> {
        if !is_marked(self.program.is_before_read.as_slice(), function)
            || is_marked(catalogue.is_called.as_slice(), function)
            || self.program.is_inner_name(function)
            || takes_from_caller(self.program, function)
        {
            return Ok(false);
        }
        if catalogue.common.is_none() {
            return Ok(true);
        }
        Ok(
            self.is_clean(function)?
                || (is_marked(catalogue.has_own_field.as_slice(), function)
                    && !self.is_like_helper),
        )
    }

    pub fn find_types(&mut self, catalogue: &Catalogue) -> Result<(), AllocError> {
        let program: &'a Program = self.program;
        let mut types = catalogue.typical(self.alloc, program)?;
        add_aliases(program, &mut types);
        self.set_types(types.as_slice())?;
        for function in 0..program.function_count {
            if !is_marked(types.as_slice(), function) && self.is_other_type(catalogue, function)? {
                mark(&mut types, function);
            }
        }
        self.set_types(types.as_slice())
    }

    pub fn reached(&self, catalogue: &Catalogue, target: Target) -> Result<Vec<usize>, AllocError> {
        let mut seen = marks(self.alloc, self.program.function_count)?;
        let mut waiting = Vec::new(self.alloc);
        match target {
            Target::Function(function) => waiting.push(function)?,
            Target::Builtin(Builtin::CallType) => self.add_types(&mut waiting)?,
            _ => {}
        }
        let mut reached = Vec::new(self.alloc);
        for _ in 0..u64::MAX {
            let Some(function) = waiting.pop() else {
                return Ok(reached);
            };
            if !is_marked(seen.as_slice(), function) {
                mark(&mut seen, function);
                reached.push(function)?;
                self.add_mentioned(catalogue, function, &mut waiting)?;
            }
        }
        Ok(reached)
    }

    pub fn add_types(&self, waiting: &mut Vec<usize>) -> Result<(), AllocError> {
        waiting.extend_from_slice(self.types.as_slice())?;
        if let Some(function) = self.program.default_type {
            waiting.push(function)?;
        }
        Ok(())
    }

    fn add_mentioned(
        &self,
        catalogue: &Catalogue,
        function: usize,
        waiting: &mut Vec<usize>,
    ) -> Result<(), AllocError> {
        let Some(mentions) = catalogue.mentions.get(function) else {
            return Ok(());
        };
        waiting.extend_from_slice(mentions.functions.as_slice())?;
        if mentions.calls_type {
            self.add_types(waiting)?;
        }
        Ok(())
    }

    fn set_types(&mut self, types: &[bool]) -> Result<(), AllocError> {
        let mut list = Vec::new(self.alloc);
        for (function, is_type) in types.iter().enumerate() {
            if *is_type && self.program.default_type != Some(function) {
                list.push(function)?;
            }
        }
        self.types = list;
        Ok(())
    }
}
