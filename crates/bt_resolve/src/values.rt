//! The value of parts joined by `#`, and its warnings.
//!
//! A value may name a macro twice whose value names another twice, and so on: forty lines of a database would fill any
//! memory. So the joined text is dropped as soon as it exceeds the limit, and later parts only yield their warnings.

ghost use Rattle.std.specs.Prelude.{◌≡◌, ◌++◌, [], ◌∷◌, None, not, option_copied, option_and_then, unwrap_or, IfOk, OnOk};
ghost use Rattle.bt_resolve.specs.Values.{is_named, joined_parts, value, value_warnings, within_limit, without_first_space, without_last_space};
ghost use Rattle.bt_resolve.specs.inner.Cases.{joined_or_empty, is_too_long, length_warnings, macro_warnings, part_text};
ghost use Rattle.bt_resolve.specs.inner.Values.{with_part};
ghost use Rattle.bt_resolve.specs.Warnings.{line_at};
ghost use Rattle.bt_resolve.specs.inner.Readers.{macros_for, messages_of_macro, messages_of_part, messages_of_parts, messages_of_value};

use crate::joined_parts::JoinedParts;
use crate::macro_text::MacroText;
use crate::messages::add_message;
use crate::place::Origin;
use crate::warnings::{own_macro, too_long, undefined_macro};
use bt_bib::Part;
use bt_log::Message;
use bt_text::{ByName, Excerpt, Sequence, TEXT_BYTES, eq_ignore_ascii_case};
use std::alloc::{AllocError, Global};

/// What the reader of a value needs.
#[derive(Clone, Copy, Drop)]
pub struct ValueReader<'a> {
    pub alloc: Global,
    /// The macros before the value.
    pub macros: &'a ByName<MacroText>,
    /// The string whose value it is; none for a field or a preamble.
    pub own: Option<&'a [u8]>,
    pub origin: Origin,
}

fn is_named(text: Option<&[u8]>, name: &[u8]) -> bool
    ensures { result ≡ is_named (option_copied text.entry) name.now }
{
    match text {
        None => false,
        Some(text) => eq_ignore_ascii_case(text, name),
    }
}

/// Compares the lengths separately, since their sum may overflow.
fn fits_after(front: &[u8], text: &[u8]) -> bool
    ensures { result ≡ not (is_too_long (front.now ++ text.now)) }
{
    text.len() <= TEXT_BYTES && front.len() <= TEXT_BYTES - text.len()
}

/// Appends a text to what was joined so far, or drops everything if the two together exceed the limit.
fn join_part(
    alloc: Global,
    joined: &mut Option<JoinedParts>,
    text: JoinedParts,
) -> Result<(), AllocError>
    ensures { OnOk result (joined.new ≡ option_and_then (with_part text) joined.old) }
{
    match joined {
        None => Ok(()),
        Some(front) => {
            if fits_after(front.as_slice(), text.as_slice()) {
                front.append(alloc, text)
            } else {
                *joined = None;
                Ok(())
            }
        }
    }
}

impl<'a> ValueReader<'a> {
    fn macro_text(&self, name: &[u8]) -> Result<Option<&'a MacroText>, AllocError>
        ensures { IfOk result (λ text. option_copied text ≡ macros_for self.now name.now) }
    {
        if is_named(self.own, name) {
            Ok(None)
        } else {
            self.macros.get(self.alloc, name)
        }
    }

    fn empty_macro(&self, name: &[u8], line: usize) -> Result<Message, AllocError>
        ensures { IfOk result (λ message. message ∷ [] ≡ macro_warnings
            (is_named (option_copied self.now.own) name.now) None (line_at self.now.origin line) name.now) }
    {
        let place = self.origin.place(line);
        if is_named(self.own, name) {
            own_macro(self.alloc, place, name)
        } else {
            undefined_macro(self.alloc, place, name)
        }
    }

    fn read_macro(
        &self,
        name: &[u8],
        line: usize,
        joined: &mut Option<JoinedParts>,
        messages: &mut Sequence<Message>,
    ) -> Result<(), AllocError>
        ensures joined { OnOk result (joined.new
            ≡ option_and_then (with_part (unwrap_or (macros_for self.now name.now) [])) joined.old) }
        ensures messages { OnOk result (messages.new ≡ messages.old ++ messages_of_macro self.now name.now line) }
    {
        match self.macro_text(name)? {
            None => {
                add_message(messages, self.empty_macro(name, line)?)?;
                join_part(self.alloc, joined, JoinedParts::new(self.alloc))
            }
            Some(text) => join_part(self.alloc, joined, JoinedParts::of_macro(text)?),
        }
    }

    fn part(
        &self,
        part: &Part,
        joined: &mut Option<JoinedParts>,
        messages: &mut Sequence<Message>,
    ) -> Result<(), AllocError>
        ensures joined { OnOk result (joined.new ≡ option_and_then
            (with_part (part_text (macros_for self.now) part.now)) joined.old) }
        ensures messages { OnOk result (messages.new ≡ messages.old ++ messages_of_part self.now part.now) }
    {
        match part {
            Part::Text(text) => join_part(self.alloc, joined, JoinedParts::of_text(text)?),
            Part::Macro(name, line) => self.read_macro(name.as_slice(), *line, joined, messages),
        }
    }

    fn parts(
        &self,
        parts: &[Part],
        messages: &mut Sequence<Message>,
    ) -> Result<Option<JoinedParts>, AllocError>
        ensures joined { IfOk result (λ joined. joined ≡ within_limit
            (joined_parts (macros_for self.now) parts.now)) }
        ensures messages { OnOk result (messages.new ≡ messages.old ++ messages_of_parts self.now parts.now) }
    {
        let mut joined = Some(JoinedParts::new(self.alloc));
        'parts: for part in parts {
            self.part(part, &mut joined, messages)?;
        }
        Ok(joined)
    }

    /// A value from its joined parts. If they exceed the limit, a warning is reported at the line of its name.
    fn finished(
        &self,
        joined: Option<JoinedParts>,
        name: &[u8],
        line: usize,
        messages: &mut Sequence<Message>,
    ) -> Result<Excerpt, AllocError>
        ensures value { IfOk result (λ text. text ≡ joined_or_empty joined) }
        ensures messages { OnOk result (messages.new ≡ messages.old
            ++ length_warnings joined (line_at self.now.origin line) name.now) }
    {
        match joined {
            None => {
                add_message(
                    messages,
                    too_long(self.alloc, self.origin.place(line), name)?,
                )?;
                Excerpt::copied(self.alloc, b"")
            }
            Some(joined) => joined.into_value(self.alloc),
        }
    }

    /// The value of the parts, with its warnings. A value over the limit is reported with this name, at this line.
    #[tactic(auto, unfolding(crate::specs::Values::value, crate::specs::Values::value_warnings))]
    pub fn value(
        &self,
        name: &[u8],
        line: usize,
        parts: &[Part],
        messages: &mut Sequence<Message>,
    ) -> Result<Excerpt, AllocError>
        ensures value { IfOk result (λ text. text
            ≡ value (macros_for self.now) parts.now) }
        ensures messages { OnOk result (messages.new ≡ messages.old
            ++ messages_of_value self.now name.now line parts.now) }
    {
        let joined = self.parts(parts, messages)?;
        self.finished(joined, name, line, messages)
    }
}

fn without_first_space(text: &[u8]) -> &[u8]
    ensures { result.now ≡ without_first_space text.now }
{
    if !text.is_empty() && text[0] == b' ' {
        &text[1..]
    } else {
        text
    }
}

fn without_last_space(text: &[u8]) -> &[u8]
    ensures { result.now ≡ without_last_space text.now }
{
    if !text.is_empty() && text[text.len() - 1] == b' ' {
        &text[..text.len() - 1]
    } else {
        text
    }
}

/// A text without one space at each end. Nothing is copied.
pub fn trimmed(alloc: Global, text: Excerpt) -> Result<Excerpt, AllocError>
    ensures { IfOk result (λ trimmed. trimmed ≡ without_last_space (without_first_space text)) }
{
    let rest = without_first_space(text.as_slice());
    let inside = without_last_space(rest);
    if inside.len() < text.len() {
        let start = text.len().saturating_sub(rest.len());
        text.part(alloc, start, inside)
    } else {
        Ok(text)
    }
}
