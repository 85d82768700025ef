//! What is known of a style that was checked, and the report for people.

use bt_check::{Fault, Findings, Hint, decimal, function_name};
use bt_style::Style;
use bt_text::Bytes;
use std::alloc::{AllocError, Global};

#[derive(Drop)]
pub struct Checked<'a> {
    pub alloc: Global,
    pub path: &'a str,
    pub style: &'a Style,
    pub findings: Findings,
    /// For each fault an entry that triggers it, if one was found.
    pub witnesses: Vec<Option<Bytes>>,
    /// Whether it is proved that no fault of these kinds can be triggered. Then no fault has a witness.
    pub is_sound: bool,
    pub hints: Vec<Hint>,
    pub shows_types: bool,
}

/// The exit status if only the lint found something.
const HINTS: u8 = 1;
/// The exit status if a style has a fault.
const FAULTS: u8 = 2;
/// The exit status if a style can't be read, or the analysis gave up.
pub const UNKNOWN: u8 = 3;

impl<'a> Checked<'a> {
    pub fn witness(&self, place: usize) -> Option<&Bytes> {
        match self.witnesses.get(place) {
            Some(Some(entry)) => Some(entry),
            _ => None,
        }
    }

    pub fn result(&self) -> &'static [u8] {
        if self.findings.gave_up {
            b"gave up"
        } else if !self.findings.faults.is_empty() {
            b"faults"
        } else if self.is_sound {
            b"accepted"
        } else {
            b"no fault found"
        }
    }

    pub fn status(&self) -> u8 {
        if self.findings.gave_up {
            UNKNOWN
        } else if !self.findings.faults.is_empty() {
            FAULTS
        } else if !self.hints.is_empty() {
            HINTS
        } else {
            0
        }
    }
}

#[derive(Drop)]
struct Report<'a> {
    checked: &'a Checked<'a>,
    text: Bytes,
}

pub fn refused(alloc: Global, path: &str, line: usize, words: &[u8]) -> Result<Bytes, AllocError> {
    let line = decimal(alloc, line)?;
    Bytes::of(
        alloc,
        &[
            path.as_bytes(),
            b":",
            line.as_slice(),
            b": error[read]: ",
            words,
            b"\n",
        ],
    )
}

impl<'a> Report<'a> {
    fn begin(
        &mut self,
        line: usize,
        severity: &[u8],
        code: &[u8],
        words: &[u8],
    ) -> Result<(), AllocError> {
        let checked: &'a Checked<'a> = self.checked;
        let line = decimal(checked.alloc, line)?;
        self.text
            .append_all(&[checked.path.as_bytes(), b":", line.as_slice(), b": "])?;
        self.text
            .append_all(&[severity, b"[", code, b"]: ", words, b"\n"])
    }

    fn add_line<'x>(&mut self, begin: &'x [u8], words: &'x Bytes) -> Result<(), AllocError> {
        if words.len() == 0 {
            return Ok(());
        }
        self.text.append_all(&[begin, words.as_slice(), b"\n"])
    }

    fn add_calls(&mut self, fault: &Fault) -> Result<(), AllocError> {
        let words = fault.calls_words(self.checked.alloc, self.checked.style)?;
        self.add_line(b"    in ", &words)
    }

    fn add_conditions(&mut self, fault: &Fault) -> Result<(), AllocError> {
        let words = fault.condition_words(self.checked.alloc, self.checked.style)?;
        self.add_line(b"    when ", &words)
    }

    /// Adds an entry that triggers the fault, or that none was found.
    fn add_witness(&mut self, witness: Option<&Bytes>) -> Result<(), AllocError> {
        match witness {
            Some(entry) => self
                .text
                .append_all(&[b"    try ", entry.as_slice(), b"\n"]),
            None => self.text.append(b"    no entry to try was found\n"),
        }
    }

    fn fault(&mut self, fault: &Fault, witness: Option<&Bytes>) -> Result<(), AllocError> {
        self.begin(
            fault.line,
            b"error",
            fault.kind.code(),
            fault.words.as_slice(),
        )?;
        self.add_calls(fault)?;
        self.add_conditions(fault)?;
        if fault.step.is_of_entries {
            self.add_witness(witness)?;
        }
        Ok(())
    }

    fn hint(&mut self, hint: &Hint) -> Result<(), AllocError> {
        self.begin(
            hint.line,
            b"warning",
            hint.rule.code(),
            hint.words.as_slice(),
        )
    }

    /// Adds what the check came to, unless faults say it.
    fn end(&mut self) -> Result<(), AllocError> {
        let findings = &self.checked.findings;
        if findings.gave_up || findings.faults.is_empty() {
            let checked: &'a Checked<'a> = self.checked;
            self.text.append_all(&[checked.path.as_bytes(), b": "])?;
            self.text.append(checked.result())?;
            self.text.append(b"\n")?;
        }
        Ok(())
    }

    fn types(&mut self) -> Result<(), AllocError> {
        let checked: &'a Checked<'a> = self.checked;
        self.text
            .append_all(&[checked.path.as_bytes(), b": types:"])?;
        for function in &checked.findings.types {
            let name = function_name(checked.style, *function);
            self.text.append_all(&[b" ", name])?;
        }
        self.text.append(b"\n")
    }
}

pub fn in_words<'a>(checked: &'a Checked<'a>) -> Result<Bytes, AllocError> {
    let mut report = Report {
        checked,
        text: Bytes::new(checked.alloc),
    };
    for (place, fault) in checked.findings.faults.iter().enumerate() {
        report.fault(fault, checked.witness(place))?;
    }
    for hint in &checked.hints {
        report.hint(hint)?;
    }
    report.end()?;
    if checked.shows_types {
        report.types()?;
    }
    Ok(report.text)
}
