//! The marked run of a job, held against the run that wrote the bibliography.

ghost use Rattle.std.specs.Prelude.{◌≡◌, ◌++◌, ◌∷◌, [], map, IfOk, IsNone};
ghost use Rattle.bt_origins.specs.Steps.{AreMeant, step_effect};
ghost use Rattle.bt_why.specs.Erased.{rerun_effect, steps_bytes};
ghost use Rattle.bt_why.specs.Named.{AllRight};

use bt_run::{Kept, Step};
use bt_style::Style;
use bt_text::Shared;
use bt_why::{Given, Line, Machine, Rerun, are_lines_of, are_right};
use bt_words::Program;
use std::alloc::{AllocError, Global};

/// A run whose bytes have marks.
#[derive(Drop)]
pub struct Explained<'a> {
    pub machine: Machine<'a>,
    /// What each step left.
    pub steps: Vec<Rerun>,
}

/// Why a run can't be explained.
#[derive(Clone, Copy)]
pub enum Difference {
    /// The marked run of the step of this number didn't leave what the run kept.
    Step(usize),
    /// A mark names another byte.
    Mark,
    /// The lines without marks aren't the bibliography.
    Bibliography,
    /// The run takes too much work with marks.
    TooMuch,
}

impl<'a> Explained<'a> {
    /// Before the first step of a run.
    fn new(
        alloc: Global,
        style: &'a Style,
        program: &'a Program,
        kept: &'a Kept,
    ) -> Result<Explained<'a>, AllocError>
        ensures { IfOk result (λ explained. explained.steps.items ≡ []) }
    {
        Ok(Explained {
            machine: Machine::new(alloc, style, program, kept.entries.as_slice())?,
            steps: Vec::new(alloc),
        })
    }

    /// Carries out a step again, with marks; none if that takes too much work.
    fn rerun(
        &mut self,
        number: usize,
        kept: &'a Kept,
        step: &'a Step,
    ) -> Result<Option<Rerun>, AllocError>
        ensures { self.new.steps ≡ self.old.steps }
    {
        let given = Given {
            target: step.input.target,
            entry: place_of(kept, number),
            line: line_of(self.machine.style, step.command),
            preamble: step.input.preamble.as_slice(),
        };
        let left = self.machine.run(given)?;
        if left.gave_up {
            return Ok(None);
        }
        Ok(Some(Rerun::of(&self.machine, left)?))
    }

    /// Carries out a step again, and says what is wrong, if anything is. Else the marked run left what the step left.
    fn step(
        &mut self,
        number: usize,
        kept: &'a Kept,
        step: &'a Step,
    ) -> Result<Option<Difference>, AllocError>
        ensures { IfOk result (λ difference. IsNone difference →
            map rerun_effect self.new.steps.items ≡ map rerun_effect self.old.steps.items ++ step_effect step.now ∷ []) }
    {
        let Some(rerun) = self.rerun(number, kept, step)? else {
            return Ok(Some(Difference::TooMuch));
        };
        if !rerun.is_outcome(self.machine.alloc, &step.outcome, step.cost)? {
            return Ok(Some(Difference::Step(number)));
        }
        self.steps.push(rerun)?;
        Ok(None)
    }

    /// The lines of all steps, in their order.
    pub fn lines(&self) -> Result<Vec<&Line>, AllocError> {
        let mut lines = Vec::new(self.machine.alloc);
        for step in &self.steps {
            for line in &step.left.lines {
                lines.push(line)?;
            }
        }
        Ok(lines)
    }
}

/// The place in the list of a step's entry.
pub fn place_of(kept: &Kept, step: usize) -> Option<usize> {
    kept.marks.as_slice().get(step)?.place
}

/// The line of a command.
pub fn line_of(style: &Style, command: usize) -> usize {
    match style.commands.as_slice().get(command) {
        Some(command) => command.line,
        None => 0,
    }
}

/// Carries out the steps of a run again, with marks. Each must leave what the run kept of it.
fn explain_steps<'a>(
    alloc: Global,
    style: &'a Style,
    program: &'a Program,
    kept: &'a Kept,
) -> Result<Result<Explained<'a>, Difference>, AllocError>
    ensures { IfOk result (λ told. IfOk told (λ explained.
        map rerun_effect explained.steps.items ≡ map step_effect kept.now.steps)) }
{
    let steps: &'a [Shared<Step>] = kept.steps.as_slice();
    let mut explained = Explained::new(alloc, style, program, kept)?;
    'steps: for (number, step) in steps.iter().enumerate() {
        if let Some(difference) = explained.step(number, kept, step)? {
            return Ok(Err(difference));
        }
    }
    Ok(Ok(explained))
}

/// What is wrong with the marks or the lines of a run, if anything is.
fn find_difference(
    alloc: Global,
    explained: &Explained<'_>,
    bbl: &[u8],
) -> Result<Option<Difference>, AllocError>
    ensures lines { IfOk result (λ difference. IsNone difference → steps_bytes explained.now.steps.items ≡ bbl.now) }
    ensures bytes { IfOk result (λ difference. IsNone difference →
        AllRight explained.now.machine explained.now.steps.items) }
{
    if !are_right(&explained.machine, explained.steps.as_slice()) {
        return Ok(Some(Difference::Mark));
    }
    if !are_lines_of(alloc, explained.steps.as_slice(), bbl)? {
        return Ok(Some(Difference::Bibliography));
    }
    Ok(None)
}

/// Explains a run by the steps that it kept, and its bibliography. Without marks, what its marked run left and cost is,
/// step by step, what the run left and cost, and so what the definition of a step gives; its lines are the bibliography,
/// byte for byte. Each byte is the one that its mark names.
pub fn explain<'a>(
    alloc: Global,
    style: &'a Style,
    program: &'a Program,
    kept: &'a Kept,
    bbl: &[u8],
) -> Result<Result<Explained<'a>, Difference>, AllocError>
    ensures steps { IfOk result (λ told. IfOk told (λ explained.
        map rerun_effect explained.steps.items ≡ map step_effect kept.now.steps)) }
    ensures meaning { IfOk result (λ told. IfOk told (λ explained.
        AreMeant kept.now.text kept.now.steps explained.steps.items)) }
    ensures lines { IfOk result (λ told. IfOk told (λ explained. steps_bytes explained.steps.items ≡ bbl.now)) }
    ensures bytes { IfOk result (λ told. IfOk told (λ explained.
        AllRight explained.machine explained.steps.items)) }
{
    let explained = match explain_steps(alloc, style, program, kept)? {
        Ok(explained) => explained,
        Err(difference) => return Ok(Err(difference)),
    };
    match find_difference(alloc, &explained, bbl)? {
        Some(difference) => Ok(Err(difference)),
        None => Ok(Ok(explained)),
    }
}
