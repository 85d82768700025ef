//! Styles as they were read, which outlast the run that read them.

ghost use Rattle.std.specs.Prelude.{◌≡◌, IfOk};
ghost use Rattle.std.proofs.Props.{props};
ghost use Rattle.bt_style.specs.Fault.{Gives};
ghost use Rattle.bt_style.specs.Program.{program_of};
ghost use Rattle.bt_style.specs.Reader.{style_of};
ghost use Rattle.bt_run.specs.Styles.{read_as};
ghost use Rattle.bt_run.specs.inner.BodySet.{bodies_set};

use bt_style::{Style, StyleFault, StyleRefusal, read_style};
use bt_text::{Bytes, Shared, equal_bytes};
use std::alloc::{AllocError, Global};

/// A style as it was read: its text, and the style or its first fault.
#[derive(Drop)]
pub struct ReadStyle {
    pub text: Shared<Bytes>,
    pub style: Result<Shared<Style>, StyleFault>,
    ghost read: { style_of text ≡ read_as style } by { Prim.hlevel (props, bodies_set) },
}

impl ReadStyle {
    fn read(alloc: Global, text: Shared<Bytes>) -> Result<ReadStyle, AllocError>
        ensures { IfOk result (λ known. known.text ≡ text) }
    {
        let style = match read_style(alloc, text.as_slice()) {
            Ok(style) => Ok(Shared::new(alloc, style)?),
            Err(StyleRefusal::Fault { kind, line }) => Err(StyleFault { kind, line }),
            Err(StyleRefusal::OutOfMemory) => return Err(AllocError),
        };
        Ok(ReadStyle { text, style })
    }

    /// What was read, for one more owner; no part of it is copied.
    pub fn share(&self) -> Result<ReadStyle, AllocError>
        ensures { IfOk result (λ same. same.text ≡ self.now.text) }
    {
        let style = match &self.style {
            Ok(style) => Ok(style.share()?),
            Err(fault) => Err(*fault),
        };
        Ok(ReadStyle {
            text: self.text.share()?,
            style,
        })
    }

    /// The style, shared, or its first fault.
    pub fn style(&self) -> Result<Shared<Style>, StyleRefusal>
        ensures { Gives program_of result (style_of self.now.text) }
    {
        match &self.style {
            Ok(style) => Ok(style.share()?),
            Err(StyleFault { kind, line }) => Err(StyleRefusal::Fault {
                kind: *kind,
                line: *line,
            }),
        }
    }
}

/// The style of a text: the one that was read last, if it has this text, or else it is read, and takes that one's place.
/// After out of memory that one is as before, or replaced.
pub fn known_or_read(
    alloc: Global,
    last: &mut Option<ReadStyle>,
    text: Shared<Bytes>,
) -> Result<ReadStyle, AllocError>
    ensures { IfOk result (λ known. known.text ≡ text) }
{
    if let Some(known) = last
        && equal_bytes(known.text.as_slice(), text.as_slice())
    {
        return known.share();
    }
    let known = ReadStyle::read(alloc, text)?;
    drop(last.replace(known.share()?));
    Ok(known)
}
