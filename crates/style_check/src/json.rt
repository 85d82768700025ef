//! The findings as JSON, an object a line.

use crate::report::Checked;
use bt_check::{Call, Condition, Fault, Hint, decimal, field_name, function_name};
use bt_programs::append_json_string;
use bt_text::Bytes;
use std::alloc::{AllocError, Global};

#[derive(Drop)]
struct Lines<'a> {
    checked: &'a Checked<'a>,
    text: Bytes,
}

impl<'a> Lines<'a> {
    /// Begins a member of the object: `before` is what separates it from the one before.
    fn member<'x>(&mut self, before: &'x [u8], name: &'x [u8]) -> Result<(), AllocError> {
        self.text.append_all(&[before, b"\"", name, b"\":"])
    }

    fn string(&mut self, before: &[u8], name: &[u8], value: &[u8]) -> Result<(), AllocError> {
        self.member(before, name)?;
        append_json_string(&mut self.text, value)
    }

    fn number(&mut self, before: &[u8], name: &[u8], value: usize) -> Result<(), AllocError> {
        let value = decimal(self.checked.alloc, value)?;
        self.member(before, name)?;
        self.text.append(value.as_slice())
    }

    fn begin(
        &mut self,
        line: usize,
        severity: &[u8],
        code: &[u8],
        words: &[u8],
    ) -> Result<(), AllocError> {
        self.string(b"{", b"file", self.checked.path.as_bytes())?;
        self.number(b",", b"line", line)?;
        self.string(b",", b"severity", severity)?;
        self.string(b",", b"code", code)?;
        self.string(b",", b"message", words)
    }

    fn list(&mut self, name: &[u8]) -> Result<(), AllocError> {
        self.member(b",", name)?;
        self.text.append(b"[")
    }

    fn calls(&mut self, calls: &[Call]) -> Result<(), AllocError> {
        self.list(b"calls")?;
        let mut before: &[u8] = b"{";
        for call in calls.iter().rev() {
            let name = function_name(self.checked.style, call.function);
            self.string(before, b"function", name)?;
            self.number(b",", b"line", call.line)?;
            self.text.append(b"}")?;
            before = b",{";
        }
        self.text.append(b"]")
    }

    fn fields(&mut self, conditions: &[Condition]) -> Result<(), AllocError> {
        self.list(b"fields")?;
        let mut before: &[u8] = b"{";
        for condition in conditions {
            let name = field_name(self.checked.style, condition.field);
            self.string(before, b"field", name)?;
            self.string(b",", b"state", condition.state.word())?;
            self.text.append(b"}")?;
            before = b",{";
        }
        self.text.append(b"]")
    }

    fn fault(&mut self, fault: &Fault, witness: Option<&'a Bytes>) -> Result<(), AllocError> {
        self.begin(
            fault.line,
            b"error",
            fault.kind.code(),
            fault.words.as_slice(),
        )?;
        self.calls(fault.calls.as_slice())?;
        if let Some(function) = fault.step.entry_type {
            let name = function_name(self.checked.style, function);
            self.string(b",", b"type", name)?;
        }
        self.fields(fault.conditions.as_slice())?;
        if let Some(entry) = witness {
            self.string(b",", b"try", entry.as_slice())?;
        }
        self.text.append(b"}\n")
    }

    fn hint(&mut self, hint: &Hint) -> Result<(), AllocError> {
        self.begin(
            hint.line,
            b"warning",
            hint.rule.code(),
            hint.words.as_slice(),
        )?;
        self.text.append(b"}\n")
    }

    fn types(&mut self) -> Result<(), AllocError> {
        let checked: &'a Checked<'a> = self.checked;
        self.list(b"types")?;
        let mut before: &[u8] = b"";
        for function in &checked.findings.types {
            self.text.append(before)?;
            append_json_string(&mut self.text, function_name(checked.style, *function))?;
            before = b",";
        }
        self.text.append(b"]")
    }

    fn end(&mut self) -> Result<(), AllocError> {
        self.string(b"{", b"file", self.checked.path.as_bytes())?;
        self.string(b",", b"result", self.checked.result())?;
        if self.checked.shows_types {
            self.types()?;
        }
        self.text.append(b"}\n")
    }
}

pub fn objects<'a>(checked: &'a Checked<'a>) -> Result<Bytes, AllocError> {
    let mut lines = Lines {
        checked,
        text: Bytes::new(checked.alloc),
    };
    for (place, fault) in checked.findings.faults.iter().enumerate() {
        lines.fault(fault, checked.witness(place))?;
    }
    for hint in &checked.hints {
        lines.hint(hint)?;
    }
    lines.end()?;
    Ok(lines.text)
}

pub fn refused(alloc: Global, path: &str, line: usize, words: &[u8]) -> Result<Bytes, AllocError> {
    let mut text = Bytes::of(alloc, &[b"{\"file\":"])?;
    append_json_string(&mut text, path.as_bytes())?;
    let line = decimal(alloc, line)?;
    text.append_all(&[
        b",\"line\":",
        line.as_slice(),
        b",\"severity\":\"error\",\"code\":\"read\",\"message\":",
    ])?;
    append_json_string(&mut text, words)?;
    text.append(b"}\n{\"file\":")?;
    append_json_string(&mut text, path.as_bytes())?;
    text.append(b",\"result\":\"unreadable\"}\n")?;
    Ok(text)
}
