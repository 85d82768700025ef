//! The findings of a style's text, each at its place.

use crate::places::{Place, Wanted, Words};
use bt_check::{Call, Fault, Hint, Rule, check, function_name, lint};
use bt_remarks::{CallPlace, Finding, Weight};
use bt_style::{Style, StyleRefusal, read_style};
use bt_style_text::{Mark, marks_of, unused};
use bt_text::{Bytes, Sequence};
use bt_witness::{Effort, witnesses};
use std::alloc::{AllocError, Global};

/// How many steps the check may take, so that a letter is answered within some 50 ms. Four of five published styles need
/// fewer. `bibtex-check` may take two million.
const WORK: u64 = 150_000;

#[derive(Clone, Copy)]
struct Scene<'a> {
    alloc: Global,
    style: &'a Style,
    words: Words<'a>,
    /// What the names alone show to be unused.
    unused: &'a [Mark],
}

fn weight_of(rule: Rule) -> Weight {
    match rule {
        Rule::UnusedFunction | Rule::UnusedField | Rule::UnusedVariable | Rule::NeverRead => {
            Weight::Unused
        }
        Rule::NeverSet | Rule::NoType | Rule::NoDefault | Rule::NoMonth => Weight::Hint,
    }
}

impl Scene<'_> {
    /// The place of a call's word: the name of the function that it calls, or of the built-in one that complains.
    fn call_place(&self, call: Call, name: &[u8]) -> Result<CallPlace, AllocError> {
        let Place { start, end } = self.words.place_of(call.line, Wanted::Name(name));
        let call = call.words(self.alloc, self.style)?;
        let words = Bytes::of(self.alloc, &[b"in ", call.as_slice()])?;
        Ok(CallPlace { start, end, words })
    }

    /// The place of the word in a call: the function that the next call runs, or what complains.
    fn place_in(
        &self,
        call: Call,
        next: Option<Call>,
        name: &[u8],
    ) -> Result<CallPlace, AllocError> {
        match next {
            Some(next) => self.call_place(call, function_name(self.style, next.function)),
            None => self.call_place(call, name),
        }
    }

    fn calls(&self, fault: &Fault, name: &[u8]) -> Result<Sequence<CallPlace>, AllocError> {
        let count = fault.calls.len();
        let mut places = Sequence::new(self.alloc);
        for inner in 0..count {
            let number = count.saturating_sub(inner).saturating_sub(1);
            let next = fault.calls.get(number.saturating_add(1)).copied();
            if let Some(call) = fault.calls.get(number).copied() {
                let place = self.place_in(call, next, name)?;
                places.push(place)?;
            }
        }
        Ok(places)
    }

    /// The name of the word at which a fault is found: a built-in function, or the function that is run.
    fn name_of(&self, fault: &Fault) -> &[u8] {
        match (fault.by, fault.calls.last()) {
            (Some(by), _) => by.name(),
            (None, Some(call)) => function_name(self.style, call.function),
            (None, None) => b"",
        }
    }

    /// The words of a fault, and on lines of their own for which entries it comes, and such an entry.
    fn fault_words(&self, fault: &Fault, entry: &[u8]) -> Result<Bytes, AllocError> {
        let mut words = Bytes::copied(self.alloc, fault.words.as_slice())?;
        let condition = fault.condition_words(self.alloc, self.style)?;
        if condition.len() > 0 {
            words.append_all(&[b"\nwhen ", condition.as_slice()])?;
        }
        if !entry.is_empty() {
            words.append_all(&[b"\ntry ", entry])?;
        }
        Ok(words)
    }

    fn fault(&self, fault: &Fault, entry: &[u8]) -> Result<Finding, AllocError> {
        let name = self.name_of(fault);
        let Place { start, end } = self.words.place_of(fault.line, Wanted::Name(name));
        Ok(Finding {
            start,
            end,
            weight: Weight::Fault,
            code: Bytes::copied(self.alloc, fault.kind.code())?,
            words: self.fault_words(fault, entry)?,
            entry: Bytes::copied(self.alloc, entry)?,
            calls: self.calls(fault, name)?,
        })
    }

    /// What lint finds; none if the names alone show it, since the hints at names have it already.
    fn hint(&self, hint: &Hint) -> Result<Option<Finding>, AllocError> {
        let wanted = Wanted::DeclaredIn(hint.words.as_slice());
        let Place { start, end } = self.words.place_of(hint.line, wanted);
        if self.unused.iter().any(|mark| mark.start == start) {
            return Ok(None);
        }
        Ok(Some(Finding {
            start,
            end,
            weight: weight_of(hint.rule),
            code: Bytes::copied(self.alloc, hint.rule.code())?,
            words: Bytes::copied(self.alloc, hint.words.as_slice())?,
            entry: Bytes::new(self.alloc),
            calls: Sequence::new(self.alloc),
        }))
    }

    fn gave_up(&self) -> Result<Finding, AllocError> {
        let Place { start, end } = self.words.line(1);
        Ok(Finding {
            start,
            end,
            weight: Weight::Hint,
            code: Bytes::copied(self.alloc, b"gave-up")?,
            words: Bytes::copied(
                self.alloc,
                b"the check gave up: this style needs more work than fits between two letters; bibtex-check goes on",
            )?,
            entry: Bytes::new(self.alloc),
            calls: Sequence::new(self.alloc),
        })
    }
}

fn add_faults(
    scene: Scene<'_>,
    all: &mut Sequence<Finding>,
    faults: &[Fault],
) -> Result<(), AllocError> {
    let entries = witnesses(
        scene.alloc,
        scene.style,
        scene.words.text,
        faults,
        Effort::Brief,
    )?;
    for (place, fault) in faults.iter().enumerate() {
        let entry: &[u8] = match entries.get(place) {
            Some(Some(entry)) => entry.as_slice(),
            _ => &[],
        };
        let finding = scene.fault(fault, entry)?;
        all.push(finding)?;
    }
    Ok(())
}

fn all_findings(scene: Scene<'_>) -> Result<Sequence<Finding>, AllocError> {
    let text = scene.words.text;
    let found = check(scene.alloc, scene.style, text, WORK)?;
    let mut all = Sequence::new(scene.alloc);
    add_faults(scene, &mut all, found.faults.as_slice())?;
    for hint in lint(scene.alloc, scene.style, text, &found)? {
        if let Some(finding) = scene.hint(&hint)? {
            all.push(finding)?;
        }
    }
    if found.gave_up {
        let finding = scene.gave_up()?;
        all.push(finding)?;
    }
    Ok(all)
}

fn findings_at<'x>(
    alloc: Global,
    text: &'x [u8],
    style: &'x Style,
    marks: &'x [Mark],
    unused: &'x [Mark],
) -> Result<Sequence<Finding>, AllocError> {
    all_findings(Scene {
        alloc,
        style,
        words: Words { text, marks },
        unused,
    })
}

fn findings_in(alloc: Global, text: &[u8], style: &Style) -> Result<Sequence<Finding>, AllocError> {
    let marks = marks_of(alloc, text)?;
    let unused = unused(alloc, text, marks.as_slice())?;
    findings_at(alloc, text, style, marks.as_slice(), unused.as_slice())
}

/// The findings of a text: the faults, then the lint, and last a hint if the check gave up. A text that can't be read has
/// none: its fault is a message of the run. The only error is out of memory.
pub fn findings_of(alloc: Global, text: &[u8]) -> Result<Sequence<Finding>, AllocError> {
    match read_style(alloc, text) {
        Ok(style) => findings_in(alloc, text, &style),
        Err(StyleRefusal::OutOfMemory) => Err(AllocError),
        Err(StyleRefusal::Fault { .. }) => Ok(Sequence::new(alloc)),
    }
}
