//! What a style has and doesn't use, and what most styles have and it doesn't.

use crate::checker::Checker;
use crate::steps::Findings;
use crate::types::{Catalogue, STANDARD, all_words, is_marked, mark, marks};
use bt_style::{Action, Builtin, Style, Target};
use bt_text::Bytes;
use bt_words::{Act, Program, Word, line_of};
use std::alloc::{AllocError, Global};

#[derive(Clone, Copy)]
pub enum Rule {
    /// No command and no type runs a function.
    UnusedFunction,
    UnusedField,
    UnusedVariable,
    /// A variable is only set.
    NeverRead,
    /// A variable is only read, so it is always 0 or empty.
    NeverSet,
    /// Some of the standard types are missing.
    NoType,
    /// There is no `default.type`.
    NoDefault,
    /// The style has a field `month`, but doesn't define all months.
    NoMonth,
}

impl Rule {
    pub fn code(self) -> &'static [u8] {
        match self {
            Rule::UnusedFunction => b"unused-function",
            Rule::UnusedField => b"unused-field",
            Rule::UnusedVariable => b"unused-variable",
            Rule::NeverRead => b"never-read",
            Rule::NeverSet => b"never-set",
            Rule::NoType => b"no-type",
            Rule::NoDefault => b"no-default",
            Rule::NoMonth => b"no-month",
        }
    }
}

#[derive(Drop)]
pub struct Hint {
    pub rule: Rule,
    /// The line of the definition or declaration; 1 if it is of the whole style.
    pub line: usize,
    pub words: Bytes,
}

const MONTHS: [&[u8]; 12] = [
    b"jan", b"feb", b"mar", b"apr", b"may", b"jun", b"jul", b"aug", b"sep", b"oct", b"nov", b"dec",
];

/// A style with so few of the standard types has types of its own.
const FEW_TYPES: usize = 4;

#[derive(Drop)]
struct Uses {
    functions: Vec<bool>,
    fields: Vec<bool>,
    /// The variables that they read, by their places.
    read: Vec<bool>,
    set: Vec<bool>,
}

fn is_assignment(word: Option<&Word>) -> bool {
    match word {
        Some(word) => matches!(word.act, Act::Call(Target::Builtin(Builtin::Assign))),
        None => false,
    }
}

impl Uses {
    fn note(&mut self, checker: &Checker<'_>, target: Target, is_set: bool) {
        match (target, checker.variable(target)) {
            (Target::Field(field), _) => mark(&mut self.fields, field),
            (_, Some((place, _))) => {
                if is_set {
                    mark(&mut self.set, place);
                } else {
                    mark(&mut self.read, place);
                }
            }
            _ => {}
        }
    }

    fn note_words(&mut self, checker: &Checker<'_>, words: &[Word]) {
        for (place, word) in words.iter().enumerate() {
            match word.act {
                Act::Quote(target) => {
                    let is_set = is_assignment(words.get(place.saturating_add(1)));
                    self.note(checker, target, is_set);
                }
                Act::Call(target) => self.note(checker, target, false),
                _ => {}
            }
        }
    }
}

fn used_functions(checker: &Checker<'_>, catalogue: &Catalogue) -> Result<Vec<bool>, AllocError> {
    let mut used = marks(checker.alloc, checker.program.function_count)?;
    let mut targets = Vec::new(checker.alloc);
    targets.push(Target::Builtin(Builtin::CallType))?;
    for command in checker.style.commands.as_slice() {
        if let Action::Execute(target)
        | Action::Iterate(target)
        | Action::Reverse(target) = command.action
        {
            targets.push(target)?;
        }
    }
    for target in targets {
        for function in checker.reached(catalogue, target)? {
            mark(&mut used, function);
        }
    }
    Ok(used)
}

fn uses_of(checker: &Checker<'_>, functions: Vec<bool>) -> Result<Uses, AllocError> {
    let variables = checker.variable_count();
    Ok(Uses {
        functions,
        fields: marks(checker.alloc, checker.style.fields.len())?,
        read: marks(checker.alloc, variables)?,
        set: marks(checker.alloc, variables)?,
    })
}

fn note_all(checker: &Checker<'_>, uses: &mut Uses) -> Result<(), AllocError> {
    for function in 0..uses.functions.len() {
        if is_marked(uses.functions.as_slice(), function) {
            let words = all_words(checker.alloc, checker.program, function)?;
            uses.note_words(checker, words.as_slice());
        }
    }
    Ok(())
}

impl Checker<'_> {
    fn uses(&mut self, catalogue: &Catalogue, types: &[usize]) -> Result<Uses, AllocError> {
        self.types = Vec::from_slice(self.alloc, types)?;
        let functions = used_functions(self, catalogue)?;
        let mut uses = uses_of(self, functions)?;
        note_all(self, &mut uses)?;
        Ok(uses)
    }
}

#[derive(Drop)]
struct Linter<'a> {
    alloc: Global,
    style: &'a Style,
    text: &'a [u8],
    hints: Vec<Hint>,
}

impl<'a> Linter<'a> {
    fn tell(&mut self, rule: Rule, line: usize, words: &[&[u8]]) -> Result<(), AllocError> {
        let words = Bytes::of(self.alloc, words)?;
        Ok(self.hints.push(Hint { rule, line, words })?)
    }

    fn functions(&mut self, program: &Program, uses: &Uses) -> Result<(), AllocError> {
        for (place, is_used) in uses.functions.iter().enumerate() {
            if !*is_used {
                let line = program.lines.get(place).copied().unwrap_or(1);
                let name = program.text(place);
                self.tell(
                    Rule::UnusedFunction,
                    line,
                    &[b"no command and no type runs ", name],
                )?;
            }
        }
        Ok(())
    }

    fn fields(&mut self, uses: &Uses) -> Result<(), AllocError> {
        let style: &'a Style = self.style;
        for (place, name) in style.fields.as_slice().iter().enumerate() {
            // The first one is `crossref`, which no style declares.
            if place > 0 && !is_marked(uses.fields.as_slice(), place) {
                let name = name.as_slice();
                let line = line_of(self.text, name);
                self.tell(
                    Rule::UnusedField,
                    line,
                    &[b"the field ", name, b" is never used"],
                )?;
            }
        }
        Ok(())
    }

    fn variable<'x>(
        &mut self,
        kind: &'x [u8],
        name: &'x [u8],
        is_read: bool,
        is_set: bool,
    ) -> Result<(), AllocError> {
        let (rule, how): (Rule, &'x [u8]) = match (is_read, is_set) {
            (false, false) => (Rule::UnusedVariable, b" is never used"),
            (false, true) => (Rule::NeverRead, b" is set, but never read"),
            (true, false) => (Rule::NeverSet, b" is read, but never set"),
            (true, true) => return Ok(()),
        };
        let line = line_of(self.text, name);
        self.tell(rule, line, &[kind, name, how])
    }

    /// The variables of one kind that the style declares, whose places begin here.
    fn variables(
        &mut self,
        kind: &[u8],
        names: &[Bytes],
        first: usize,
        uses: &Uses,
    ) -> Result<(), AllocError> {
        for (number, name) in names.iter().enumerate() {
            let place = first.saturating_add(number);
            let is_read = is_marked(uses.read.as_slice(), place);
            let is_set = is_marked(uses.set.as_slice(), place);
            self.variable(kind, name.as_slice(), is_read, is_set)?;
        }
        Ok(())
    }

    fn all_variables(&mut self, uses: &Uses) -> Result<(), AllocError> {
        let style: &'a Style = self.style;
        let numbers = style.entry_numbers.as_slice();
        let texts = style.entry_texts.as_slice();
        let globals = style.global_numbers.as_slice();
        let at_texts = numbers.len();
        let at_globals = at_texts.saturating_add(texts.len());
        let at_last = at_globals.saturating_add(globals.len());
        self.variables(b"the entry integer ", numbers, 0, uses)?;
        // No style declares `sort.key$`, nor `entry.max$` and `global.max$`, which come first.
        let declared = texts.get(1..).unwrap_or(&[]);
        self.variables(
            b"the entry string ",
            declared,
            at_texts.saturating_add(1),
            uses,
        )?;
        let declared = globals.get(2..).unwrap_or(&[]);
        self.variables(
            b"the integer ",
            declared,
            at_globals.saturating_add(2),
            uses,
        )?;
        self.variables(b"the string ", style.global_texts.as_slice(), at_last, uses)
    }

    fn has_function(&self, name: &[u8]) -> bool {
        self.style
            .functions
            .iter()
            .any(|function| function.name.as_slice() == name)
    }

    fn types(&mut self) -> Result<(), AllocError> {
        let mut missing = Bytes::new(self.alloc);
        let mut count = 0usize;
        for name in STANDARD {
            if !self.has_function(name) {
                missing.append_all(&[b" ", name])?;
                count = count.saturating_add(1);
            }
        }
        if count > 0 && count.saturating_add(FEW_TYPES) < STANDARD.len() {
            self.tell(
                Rule::NoType,
                1,
                &[b"standard types are missing:", missing.as_slice()],
            )?;
        }
        if !self.has_function(b"default.type") {
            self.tell(Rule::NoDefault, 1, &[b"there is no default.type"])?;
        }
        Ok(())
    }

    fn months(&mut self) -> Result<(), AllocError> {
        let style: &'a Style = self.style;
        if !style
            .fields
            .as_slice()
            .iter()
            .any(|name| name.as_slice() == b"month".as_slice())
        {
            return Ok(());
        }
        let mut missing = Bytes::new(self.alloc);
        for month in MONTHS {
            if !style
                .macros
                .as_slice()
                .iter()
                .any(|one| one.name.as_slice() == month)
            {
                missing.append_all(&[b" ", month])?;
            }
        }
        if missing.len() > 0 {
            self.tell(
                Rule::NoMonth,
                1,
                &[b"months have no macro:", missing.as_slice()],
            )?;
        }
        Ok(())
    }

    fn all(&mut self, program: &Program, uses: &Uses) -> Result<(), AllocError> {
        self.types()?;
        self.months()?;
        self.functions(program, uses)?;
        self.fields(uses)?;
        self.all_variables(uses)
    }
}

fn uses_with(
    alloc: Global,
    style: &Style,
    program: &Program,
    types: &[usize],
) -> Result<Uses, AllocError> {
    let catalogue = Catalogue::of(alloc, style, program)?;
    let mut checker = Checker::new(alloc, style, program, 0)?;
    let uses = checker.uses(&catalogue, types);
    drop(checker);
    uses
}

/// Lints a style with its words, and the functions that are types of entries.
fn lint_program(
    alloc: Global,
    style: &Style,
    text: &[u8],
    program: &Program,
    types: &[usize],
) -> Result<Vec<Hint>, AllocError> {
    let uses = uses_with(alloc, style, program, types)?;
    let mut linter = Linter {
        alloc,
        style,
        text,
        hints: Vec::new(alloc),
    };
    linter.all(program, &uses)?;
    Ok(linter.hints)
}

/// Lints a style that this text spells, which was checked. The one error is out of memory.
pub fn lint(
    alloc: Global,
    style: &Style,
    text: &[u8],
    findings: &Findings,
) -> Result<Vec<Hint>, AllocError> {
    let program = Program::of(alloc, style, text)?;
    let hints = lint_program(alloc, style, text, &program, findings.types.as_slice());
    drop(program);
    hints
}
