//! A step of a style, and what it reaches.

use crate::inputs::{input, reach, style};
use crate::refused::attempt::Case;
use bt_machine::{Input, Meter, Outcome, activate};
use bt_style::{Reach, Style};
use bt_text::Bytes;
use std::alloc::{AllocError, Global};

/// A style, the input of a step, a meter, and the answer.
#[derive(Drop)]
pub struct Step {
    style: Style,
    input: Input,
    meter: Meter,
    reach: Option<Reach>,
    outcome: Option<Outcome>,
}

impl Step {
    fn carry_out(&mut self, alloc: Global) -> Result<(), AllocError> {
        if self.meter.value() > 1_000_000 {
            return Err(AllocError);
        }
        let outcome = activate(alloc, &self.style, &self.input, &mut self.meter)?;
        self.outcome = Some(outcome);
        Ok(())
    }
}

impl Case for Step {
    fn begun(alloc: Global) -> Result<Self, AllocError> {
        let input = input(alloc, "key,A {\\'E}tude of Many Words,n")?;
        let style = style(alloc)?;
        Ok(Step {
            style,
            input,
            meter: Meter::new(),
            reach: None,
            outcome: None,
        })
    }

    fn call(&mut self, alloc: Global, name: &str) -> Result<(), AllocError> {
        if name == "reach" {
            self.reach = Some(reach(alloc, &self.style)?);
            return Ok(());
        }
        self.carry_out(alloc)
    }

    fn seen(&self, alloc: Global) -> Result<Bytes, AllocError> {
        let (input, ticks, reach) = (&self.input, self.meter.value(), &self.reach);
        let outcome = &self.outcome;
        let words = format!(in alloc; "{input:?} {ticks} {reach:?} {outcome:?}")?;
        Ok(Bytes::from_vec(words.into_bytes()))
    }
}
