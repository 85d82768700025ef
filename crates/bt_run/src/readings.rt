//! What was read of `.aux` files and of a style, which outlasts the run that read it.

ghost use Rattle.bt_style.specs.Fault.{Gives};
ghost use Rattle.bt_style.specs.Program.{program_of};
ghost use Rattle.bt_style.specs.Reader.{style_of};

use crate::styles::{ReadStyle, known_or_read};
use bt_job::AuxTexts;
use bt_style::{Style, StyleRefusal};
use bt_text::{Bytes, Shared};
use std::alloc::{AllocError, Global};

/// What runs have read of other files than databases. Each reading is that of its own text.
#[derive(Drop)]
pub struct Readings {
    pub aux_texts: AuxTexts,
    /// The style that was read last.
    pub style: Option<ReadStyle>,
}

impl Readings {
    /// Nothing. It takes no memory.
    pub fn nothing(alloc: Global) -> Readings {
        Readings {
            aux_texts: AuxTexts::new(alloc),
            style: None,
        }
    }

    /// The readings for one more owner; no text or reading is copied.
    pub fn share(&self, alloc: Global) -> Result<Readings, AllocError> {
        let aux_texts = self.aux_texts.share(alloc)?;
        let style = match &self.style {
            None => None,
            Some(style) => Some(style.share()?),
        };
        Ok(Readings { aux_texts, style })
    }

    /// The style that a text spells, or its first fault. It is read if it isn't the style that was read last. After out of
    /// memory, what is known is as before, or has this style.
    pub fn style(
        &mut self,
        alloc: Global,
        text: &Shared<Bytes>,
    ) -> Result<Shared<Style>, StyleRefusal>
        ensures { Gives program_of result (style_of text.now) }
    {
        let known = known_or_read(alloc, &mut self.style, text.share()?)?;
        known.style()
    }
}
